// A source and a sink in memory, which fail at the calls that they are told.
ghost use Rattle.std.specs.Prelude.{◌≡◌, ◌↔◌, ◌+◌, ◌<◌, ◌≤◌, [], ◌++◌, ◌∷◌, length, drop, min, vec_len, IfOk, OnOk, OnErr, IsErr, Contains, is_ok, if◌then◌else◌, Some};
ghost use Rattle.std.specs.Io.KnownBytes.{IsAtEnd};
ghost use Rattle.outside.specs.Cause.{HasCause, next_count};
ghost use Rattle.outside.specs.Memory.{Supply, Store};
ghost use Rattle.outside.specs.Sink.{Puts, PutsFront};
ghost use Rattle.outside.specs.Source.{TakesFront};

use crate::{Failed, Sink, Source};
use history::History;
use std::alloc::Global;
use std::marker::Model;

/// A source of bytes in memory.
#[derive(Drop)]
pub struct VecSource {
    bytes: Vec<u8>,
    at: usize,
    /// How many bytes each take gave.
    gave: History<usize>,
    failing: Vec<u64>,
    calls: u64,
    faults: u64,
}

impl Model for VecSource {
    ghost Value = { Supply };

    ghost view = { λ s. record {
      left = drop s.at s.bytes.items;
      gave = s.gave.items;
      failing = s.failing.items;
      calls = s.calls;
      faults = s.faults;
    } };

    ghost invariant = { λ s. s.at ≤ vec_len s.bytes };
}

impl VecSource {
    /// A source of these bytes. The calls with the numbers in `failing`, from 1, fail.
    pub fn new(bytes: Vec<u8>, failing: Vec<u64>) -> VecSource
        ensures { result ≡ record {
          left = bytes.items;
          gave = [];
          failing = failing.items;
          calls = 0;
          faults = 0;
        } }
    {
        VecSource {
            bytes,
            at: 0,
            gave: History::new(),
            failing,
            calls: 0,
            faults: 0,
        }
    }
}

impl Source for VecSource {
    ghost faults = { λ s. s.faults };

    ghost left = { λ s. Some s.left };

    ghost gave = { λ s. s.gave };

    fn take(&mut self, into: &mut [u8]) -> Result<usize, Failed>
        ensures room { IfOk result (λ n. n ≤ length into.new) }
        ensures bytes { IfOk result
            (λ n. TakesFront (Some self.old.left) (Some self.new.left) n into.new) }
        ensures end { IfOk result
            (λ n. n ≡ 0 → 0 < length into.new → IsAtEnd (Some self.old.left)) }
        ensures gave { IfOk result (λ n. self.new.gave ≡ self.old.gave ++ n ∷ []) }
        ensures gave_nothing { OnErr result (self.new.gave ≡ self.old.gave) }
        ensures cause { HasCause self.old.faults self.new.faults result }
        ensures count { IfOk result (λ n. n ≡ min (length into.new) (length self.old.left)) }
        ensures fails { IsErr result ↔ Contains self.old.failing (next_count self.old.calls) }
        ensures failed { OnErr result (self.new.left ≡ self.old.left) }
        ensures failing { self.new.failing ≡ self.old.failing }
        ensures calls { self.new.calls ≡ next_count self.old.calls }
        ensures faults { self.new.faults
            ≡ (if is_ok result then self.old.faults else next_count self.old.faults) }
    {
        self.calls = self.calls.saturating_add(1);
        if self.failing.contains(&self.calls) {
            self.faults = self.faults.saturating_add(1);
            return Err(Failed);
        }
        let count = into.len().min(self.bytes.len() - self.at);
        into[..count].copy_from_slice(&self.bytes[self.at..self.at + count]);
        self.at += count;
        self.gave = self.gave.and(&count);
        Ok(count)
    }
}

/// A sink in memory, which keeps what is put.
#[derive(Drop)]
pub struct VecSink {
    bytes: Vec<u8>,
    failing: Vec<u64>,
    calls: u64,
    faults: u64,
}

impl Model for VecSink {
    ghost Value = { Store };

    ghost view = { λ s. record {
      taken = s.bytes.items;
      failing = s.failing.items;
      calls = s.calls;
      faults = s.faults;
    } };
}

impl VecSink {
    /// A sink that has nothing yet. The calls with the numbers in `failing`, from 1, fail.
    pub fn new(alloc: Global, failing: Vec<u64>) -> VecSink
        ensures { result ≡ record { taken = []; failing = failing.items; calls = 0; faults = 0 } }
    {
        VecSink {
            bytes: Vec::new(alloc),
            failing,
            calls: 0,
            faults: 0,
        }
    }

    /// What was put.
    pub fn bytes(&self) -> &[u8]
        ensures { result.now ≡ self.now.taken }
    {
        &self.bytes
    }
}

impl Sink for VecSink {
    ghost faults = { λ s. s.faults };

    ghost taken = { λ s. Some s.taken };

    /// Fails at the calls that it was told, and where the memory for the piece is refused. Nothing of the piece is
    /// then put.
    fn put(&mut self, piece: &[u8]) -> Result<(), Failed>
        ensures ok { OnOk result (Puts (Some self.old.taken) (Some self.new.taken) piece.now) }
        ensures err { OnErr result
            (PutsFront (Some self.old.taken) (Some self.new.taken) piece.now) }
        ensures cause { HasCause self.old.faults self.new.faults result }
        ensures fails { Contains self.old.failing (next_count self.old.calls) → IsErr result }
        ensures failed { OnErr result (self.new.taken ≡ self.old.taken) }
        ensures failing { self.new.failing ≡ self.old.failing }
        ensures calls { self.new.calls ≡ next_count self.old.calls }
        ensures faults { self.new.faults
            ≡ (if is_ok result then self.old.faults else next_count self.old.faults) }
    {
        self.calls = self.calls.saturating_add(1);
        if self.failing.contains(&self.calls) || self.bytes.extend_from_slice(piece).is_err() {
            self.faults = self.faults.saturating_add(1);
            return Err(Failed);
        }
        Ok(())
    }
}
