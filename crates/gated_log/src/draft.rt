// A record that is about to be committed.
ghost use Rattle.std.specs.Prelude.{◌≡◌, ◌<◌, ◌≤◌, ◌+◌, length, IfOk};
ghost use Rattle.gated_log.specs.Records.{body_bytes};

use std::alloc::{AllocError, Global};
use std::marker::Model;

/// The most bytes of a payload.
pub const MOST_PAYLOAD: usize = 1_342_177_280;

/// A payload of 1 to 1,342,177,280 bytes as it goes into a log. Contracts see the payload.
#[derive(Debug, Drop)]
pub struct Draft {
    bytes: Vec<u8>,
}

impl Model for Draft {
    ghost use Rattle.std.specs.Prelude.{◌≡◌, ◌<◌, ◌≤◌, ℕ, List, length};
    ghost use Rattle.gated_log.specs.Records.{body_bytes, payload_of};

    ghost Value = { List ℕ };

    ghost view = { λ d. payload_of d.bytes.items };

    ghost invariant = { λ d. (d.bytes.items ≡ body_bytes (payload_of d.bytes.items))
        × (0 < length (payload_of d.bytes.items))
        × (length (payload_of d.bytes.items) ≤ 1342177280) };
}

impl Draft {
    /// A draft of this payload.
    pub fn new(alloc: Global, payload: &[u8]) -> Result<Draft, AllocError>
        requires some { 0 < length payload.now }
        requires short { length payload.now ≤ 1342177280 }
        ensures { IfOk result (λ draft. draft ≡ payload.now) }
    {
        let mut bytes = Vec::new(alloc);
        bytes.extend_from_slice(&(payload.len() as u32).to_be_bytes())?;
        bytes.extend_from_slice(payload)?;
        bytes.push(0)?;
        Ok(Draft { bytes })
    }

    /// A draft of bytes that are handed over: they aren't copied, but for what a vector without room for five more bytes
    /// does to get it.
    pub fn of(payload: Vec<u8>) -> Result<Draft, AllocError>
        requires some { 0 < length payload.items }
        requires short { length payload.items ≤ 1342177280 }
        ensures { IfOk result (λ draft. draft ≡ payload.items) }
    {
        let mut bytes = payload;
        let length = bytes.len() as u32;
        bytes.extend_from_slice(&length.to_be_bytes())?;
        bytes.rotate_right(4);
        bytes.push(0)?;
        Ok(Draft { bytes })
    }

    /// How many bytes the payload has.
    pub fn len(&self) -> u32
        ensures length { result ≡ length self.now }
        ensures some { 0 < result }
        ensures short { result ≤ 1342177280 }
    {
        (self.bytes.len() - 5) as u32
    }

    // The bytes behind a gate, and the closed gate behind them.
    pub(crate) fn body(&self) -> &[u8]
        ensures body { result.now ≡ body_bytes self.now }
        ensures some { 0 < length self.now }
        ensures short { length self.now ≤ 1342177280 }
    {
        &self.bytes
    }
}
