// A disk with a gate before its syncs.
ghost use Rattle.std.specs.Prelude.{◌≡◌, ◌+◌, ◌≤◌, [], ◌∷◌, ◌++◌, length, take, drop, max, IsTrue, OnErr, OnOk};
ghost use Rattle.outside.specs.DiskModel.{AddsNone, Follows, Holds, IsCalled, Only, Torn, WritesNone};
ghost use Rattle.outside.specs.declared.gate.Place.TheVariants.{Sync};

use history::History;
use outside::{Disk, Failed, Gate, Place};
use std::alloc::AllocError;

/// A disk that hands each call on to another one, and passes a gate before each sync, at `Place::Sync`.
#[derive(Drop)]
pub struct GateDisk<D, G> {
    disk: D,
    gate: G,
    /// The disk and the gate between the passing and the sync, for each sync.
    past: History<(D, G)>,
}

impl<D, G> GateDisk<D, G> {
    /// This disk behind this gate.
    pub fn new(disk: D, gate: G) -> GateDisk<D, G>
        ensures disk { result.disk ≡ disk }
        ensures gate { result.gate ≡ gate }
        ensures past { result.past.items ≡ [] }
    {
        GateDisk {
            disk,
            gate,
            past: History::new(),
        }
    }
}

impl<D, G: Drop> GateDisk<D, G> {
    /// The disk, without its gate.
    pub fn into_disk(self) -> D
        ensures { result ≡ self.disk }
    {
        self.disk
    }
}

impl<D: Disk, G: Gate> Disk for GateDisk<D, G> {
    ghost state = { λ d. D.state d.disk };

    ghost arms_at = { λ k old new. D.arms_at k old.disk new.disk
        × (new ≡ record old { disk = new.disk }) };

    ghost sized = { λ d told. D.sized d.disk told };

    ghost reads_as_image = { λ d told. D.reads_as_image d.disk told };

    ghost counts_now = { λ d t image since now. D.counts_now d.disk t image since now };

    ghost only_now = { λ d image left. D.only_now d.disk image left };

    fn size(&self) -> u64 {
        self.disk.size()
    }

    fn read(&mut self, at: u64, into: &mut [u8]) -> Result<(), Failed>
        requires { at + length into.old ≤ (D.state self.old.disk).size }
        ensures bytes { OnOk result (IsTrue (D.state self.old.disk).tells
            → into.new ≡ take (length into.old) (drop at (D.state self.old.disk).seen)) }
        ensures called { IsCalled (D.state self.old.disk) (D.state self.new.disk) result }
        ensures writes_none { WritesNone (D.state self.old.disk) (D.state self.new.disk) }
        ensures loses_none { AddsNone
            (D.state self.new.disk).may_leave (D.state self.old.disk).may_leave }
        ensures only_disk { self.new ≡ record self.old { disk = self.new.disk } }
    {
        self.disk.read(at, into)
    }

    fn write_at(&mut self, at: u64, bytes: &[u8]) -> Result<(), Failed>
        requires { at ≤ (D.state self.old.disk).size }
        ensures written { OnOk result (IsTrue (D.state self.old.disk).tells
            → Holds (D.state self.old.disk).seen at bytes.now (D.state self.new.disk).seen) }
        ensures torn { OnErr result (IsTrue (D.state self.old.disk).tells
            → Torn at (length bytes.now)
            (D.state self.old.disk).seen (D.state self.new.disk).seen) }
        ensures called { IsCalled (D.state self.old.disk) (D.state self.new.disk) result }
        ensures size { OnOk result ((D.state self.new.disk).size
            ≡ max (D.state self.old.disk).size (at + length bytes.now)) }
        ensures no_shorter { (D.state self.old.disk).size ≤ (D.state self.new.disk).size }
        ensures no_longer { (D.state self.new.disk).size
            ≤ max (D.state self.old.disk).size (at + length bytes.now) }
        ensures images { Follows (Torn at (length bytes.now))
            (D.state self.old.disk).may_leave (D.state self.new.disk).may_leave }
        ensures only_disk { self.new ≡ record self.old { disk = self.new.disk } }
    {
        self.disk.write_at(at, bytes)
    }

    // The pair that is remembered stood between the passing and the sync: the disk was still as before, and the gate as
    // it is at the end.
    fn sync(&mut self) -> Result<(), Failed>
        ensures durable { OnOk result
            (Only (D.state self.old.disk).seen (D.state self.new.disk).may_leave) }
        ensures called { IsCalled (D.state self.old.disk) (D.state self.new.disk) result }
        ensures writes_none { WritesNone (D.state self.old.disk) (D.state self.new.disk) }
        ensures passed { G.passed self.new.gate ≡ G.passed self.old.gate ++ Sync ∷ [] }
        ensures order { self.new.past.items
            ≡ self.old.past.items ++ (self.old.disk, self.new.gate) ∷ [] }
    {
        self.gate.pass(Place::Sync);
        self.past = self.past.and_both(&self.disk, &self.gate);
        self.disk.sync()
    }

    fn arm(&mut self, call: u32) -> Result<(), AllocError> {
        self.disk.arm(call)
    }
}
