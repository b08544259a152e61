// The whole input.
ghost use Rattle.std.specs.Prelude.{◌≡◌, [], Some, IfOk, OnOk, IfErr, IfSome, vec_len};
ghost use Rattle.packet_lines.specs.Outcome.{StopsReading};
ghost use Rattle.packet_lines.specs.declared.reading.ReadStopped.TheVariants.{Memory, Source};

use outside::{Failed, Source};
use std::alloc::{AllocError, Global};

// How many bytes are taken at once, at most.
const PIECE: usize = 65_536;

/// Why a source was not read to its end.
#[derive(Clone, Copy, Debug, PartialEq, Eq)]
pub enum ReadStopped {
    /// The source failed.
    Source,
    /// There was no memory.
    Memory,
}

impl From<Failed> for ReadStopped {
    ghost from_gives = { λ _ e. e ≡ Source };

    fn from(_failed: Failed) -> ReadStopped {
        ReadStopped::Source
    }
}

impl From<AllocError> for ReadStopped {
    ghost from_gives = { λ _ e. e ≡ Memory };

    fn from(_refused: AllocError) -> ReadStopped {
        ReadStopped::Memory
    }
}

/// Reads a source to its end.
pub fn read_all<S: Source>(alloc: Global, source: &mut S) -> Result<Vec<u8>, ReadStopped>
    ensures all { IfOk result (λ bytes. IfSome (S.left source.old) (λ input. bytes.items ≡ input)) }
    ensures end { OnOk result (IfSome (S.left source.old) (λ _. S.left source.new ≡ Some [])) }
    ensures unfailed { OnOk result (S.faults source.new ≡ S.faults source.old) }
    ensures stopped { IfErr result (λ why.
        StopsReading why (S.faults source.old) (S.faults source.new)) }
{
    let mut piece = zeros(alloc, PIECE)?;
    let mut bytes = Vec::new(alloc);
    'turns: loop {
        let count = source.take(&mut piece)?;
        if count == 0 {
            return Ok(bytes);
        }
        bytes.extend_from_slice(&piece[..count])?;
    }
}

// Bytes that are all 0, so many.
fn zeros(alloc: Global, length: usize) -> Result<Vec<u8>, AllocError>
    ensures { IfOk result (λ bytes. vec_len bytes ≡ length) }
{
    vec![in alloc; 0; length]
}
