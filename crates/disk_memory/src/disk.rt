// A disk in memory.
ghost use Rattle.std.specs.Prelude.{◌≡◌, ◌↔◌, ◌⊎◌, ◌+◌, ◌/◌, ◌^◌, ◌<◌, ◌≤◌, length, take, drop, max, true, refl, IfOk, OnOk, OnErr, IsErr, IsTrue, if◌then◌else◌};
ghost use Rattle.std.proofs.Common.{inl};
ghost use Rattle.outside.specs.DiskModel.{AddsNone, Follows, Holds, IsArmed, IsCalled, Only, Torn, WritesNone};
ghost use Rattle.disk_memory.specs.Images.{IsImage, crashed, disk_state};
ghost use Rattle.disk_memory.specs.PlainDisk.{IsDue, IsHalf, IsNamed, IsRefused, PlainDisk, armed, called, empty_disk, failed, seen_bytes, starving, synced, wrote};
ghost use Rattle.disk_memory.specs.Laws.{only_now_left, seen_is_image};

use crate::contents::Contents;
use history::History;
use outside::{Disk, Failed};
use std::alloc::{AllocError, Global};
use std::collections::BTreeSet;
use std::marker::Model;

/// A disk in memory, which fails at the calls that it is told and can crash.
#[derive(Drop)]
pub struct MemoryDisk {
    alloc: Global,
    contents: Contents,
    /// What it held before each call.
    past: History<Contents>,
    faults: u64,
    arms: u64,
    /// The number of the last call.
    number: u64,
    /// The numbers of the calls that are to fail.
    failing: BTreeSet<u64>,
    starved: bool,
}

impl Model for MemoryDisk {
    ghost use Rattle.disk_memory.specs.PlainDisk.{AreNamed, PlainDisk};

    ghost Value = { PlainDisk };

    ghost view = { λ d. record {
      state = d.contents;
      past = d.past.items;
      faults = d.faults;
      arms = d.arms;
      number = d.number;
      failing = d.failing.keys;
      starved = d.starved;
    } };

    ghost invariant = { λ d. AreNamed d.starved d.arms d.faults d.failing.keys };
}

impl MemoryDisk {
    /// A disk with nothing on it.
    pub fn new(alloc: Global) -> MemoryDisk
        ensures { result ≡ empty_disk }
    {
        MemoryDisk {
            alloc,
            contents: Contents::of(alloc, Vec::new(alloc)),
            past: History::new(),
            faults: 0,
            arms: 0,
            number: 0,
            failing: BTreeSet::new(alloc),
            starved: false,
        }
    }

    /// Whether a call failed because memory was refused. If not, each fault and each failure that is still to come was
    /// asked for.
    pub fn starved(&self) -> bool
        ensures starved { result ≡ self.now.starved }
        ensures named { IsNamed self.now }
    {
        self.starved
    }

    /// Lets the call of this number from now on, counted from 1, fail, once. At 0 none is to fail.
    pub fn fail_at(&mut self, call: u32) -> Result<(), AllocError>
        ensures ok { OnOk result (self.new ≡ armed call self.old) }
        ensures err { OnErr result (self.new ≡ self.old) }
        ensures arms { self.old.arms ≤ self.new.arms }
    {
        if call > 0 {
            self.failing
                .insert(self.number.saturating_add(call as u64))?;
        }
        self.arms = self.arms.saturating_add(1);
        Ok(())
    }

    /// What a crash leaves, by a number below 5: of each write since the last sync nothing, all, the first half (and 00
    /// past the old end), bytes a5, or bytes 01. The failures that are still to come stay, and so do the counts.
    pub fn crash(&self, n: u8) -> Result<MemoryDisk, AllocError>
        requires { n < 5 }
        ensures disk { IfOk result (λ disk. disk ≡ crashed n self.now) }
        ensures allowed { IfOk result (λ disk. IsImage self.now.state (seen_bytes disk)) }
    {
        let image = self.contents.image(self.alloc, n)?;
        Ok(MemoryDisk {
            alloc: self.alloc,
            contents: Contents::of(self.alloc, image),
            past: History::new(),
            faults: self.faults,
            arms: self.arms,
            number: self.number,
            failing: self.failing.clone()?,
            starved: self.starved,
        })
    }

    // Counts a call, and answers whether it is to fail, which is then counted too.
    fn call(&mut self) -> bool
        ensures due { IsTrue result ↔ IsDue self.old }
        ensures disk { self.new ≡ (if result then failed (called self.old) else called self.old) }
        ensures bound { self.old.faults < 2 ^ 64 }
    {
        self.past = self.past.and(&self.contents);
        self.number = self.number.saturating_add(1);
        let due = self.failing.remove(&self.number);
        if due {
            self.faults = self.faults.saturating_add(1);
            return true;
        }
        false
    }

    // Adds a write, of which reads give so many bytes.
    fn put(&mut self, at: usize, bytes: &[u8], taken: usize) -> Result<(), AllocError>
        requires place { at ≤ length (seen_bytes self.old) }
        requires taken { taken ≤ length bytes.now }
        ensures ok { OnOk result (self.new ≡ wrote at bytes.now taken self.old) }
        ensures err { OnErr result (self.new ≡ self.old) }
    {
        self.contents.put(self.alloc, at, bytes, taken)?;
        Ok(())
    }

    // Leaves nothing pending.
    fn settle(&mut self)
        ensures { self.new ≡ synced self.old }
    {
        self.contents.settle();
    }

    // Counts that memory was refused, which is a failure of its own unless the call was to fail anyway.
    fn starve(&mut self, counted: bool)
        ensures { self.new ≡ starving (if counted then self.old else failed self.old) }
    {
        self.starved = true;
        if !counted {
            self.faults = self.faults.saturating_add(1);
        }
    }
}

// How many of so many bytes reads give after a write that fails or doesn't.
fn taken_of(fails: bool, count: usize) -> usize
    ensures taken { result ≡ (if fails then count / 2 else count) }
    ensures bound { result ≤ count }
{
    if fails { count / 2 } else { count }
}

impl Disk for MemoryDisk {
    ghost state = { disk_state };

    ghost arms_at = { λ k old new. new ≡ armed k old };

    ghost sized = { λ d told. refl };

    ghost reads_as_image = { λ d told. seen_is_image d.state.base d.state.writes };

    ghost counts_now = { λ d t image since now. inl now };

    ghost only_now = { λ d image left. only_now_left d.state d.past image left };

    fn size(&self) -> u64 {
        self.contents.seen().len() as u64
    }

    fn read(&mut self, at: u64, into: &mut [u8]) -> Result<(), Failed>
        requires { at + length into.old ≤ length (seen_bytes self.old) }
        ensures bytes { OnOk result
            (into.new ≡ take (length into.old) (drop at (seen_bytes self.old))) }
        ensures called { IsCalled (disk_state self.old) (disk_state self.new) result }
        ensures writes_none { WritesNone (disk_state self.old) (disk_state self.new) }
        ensures loses_none { AddsNone (IsImage self.new.state) (IsImage self.old.state) }
        ensures due { IsErr result ↔ IsDue self.old }
        ensures ok { OnOk result (self.new ≡ called self.old) }
        ensures err { OnErr result (self.new ≡ failed (called self.old)) }
    {
        if self.call() {
            return Err(Failed);
        }
        let start = at as usize;
        into.copy_from_slice(&self.contents.seen()[start..start + into.len()]);
        Ok(())
    }

    fn write_at(&mut self, at: u64, bytes: &[u8]) -> Result<(), Failed>
        requires { at ≤ length (seen_bytes self.old) }
        ensures written { OnOk result
            (Holds (seen_bytes self.old) at bytes.now (seen_bytes self.new)) }
        ensures torn { OnErr result
            (Torn at (length bytes.now) (seen_bytes self.old) (seen_bytes self.new)) }
        ensures called { IsCalled (disk_state self.old) (disk_state self.new) result }
        ensures size { OnOk result (length (seen_bytes self.new)
            ≡ max (length (seen_bytes self.old)) (at + length bytes.now)) }
        ensures no_shorter { length (seen_bytes self.old) ≤ length (seen_bytes self.new) }
        ensures no_longer { length (seen_bytes self.new)
            ≤ max (length (seen_bytes self.old)) (at + length bytes.now) }
        ensures images { Follows (Torn at (length bytes.now))
            (IsImage self.old.state) (IsImage self.new.state) }
        ensures due { IsDue self.old → IsErr result }
        ensures whole { OnOk result
            (self.new ≡ wrote at bytes.now (length bytes.now) (called self.old)) }
        ensures cut { OnErr result
            (IsHalf at bytes.now self.old self.new ⊎ IsRefused self.old self.new) }
    {
        let fails = self.call();
        let taken = taken_of(fails, bytes.len());
        if self.put(at as usize, bytes, taken).is_err() {
            self.starve(fails);
            return Err(Failed);
        }
        if fails {
            return Err(Failed);
        }
        Ok(())
    }

    fn sync(&mut self) -> Result<(), Failed>
        ensures durable { OnOk result (Only (seen_bytes self.old) (IsImage self.new.state)) }
        ensures called { IsCalled (disk_state self.old) (disk_state self.new) result }
        ensures writes_none { WritesNone (disk_state self.old) (disk_state self.new) }
        ensures due { IsErr result ↔ IsDue self.old }
        ensures ok { OnOk result (self.new ≡ synced (called self.old)) }
        ensures err { OnErr result (self.new ≡ failed (called self.old)) }
    {
        if self.call() {
            return Err(Failed);
        }
        self.settle();
        Ok(())
    }

    fn arm(&mut self, call: u32) -> Result<(), AllocError> {
        self.fail_at(call)?;
        Ok(())
    }
}
