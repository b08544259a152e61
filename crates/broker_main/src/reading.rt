// The script, read from its source.
ghost use Rattle.std.specs.Prelude.{◌≡◌, ◌≤◌, [], length, Some, IfOk, OnOk, IfErr, IfSome, vec_len};
ghost use Rattle.broker_main.specs.Outcome.{script_limit, StopsReading};
ghost use Rattle.broker_main.specs.Takes.{EndsAtOnce, StopsOnce};
ghost use Rattle.broker_main.specs.declared.reading.ReadStopped.TheVariants.{Memory, Source};

use outside::{Failed, Source};
use std::alloc::{AllocError, Global};

// The most bytes that a script may have.
const SCRIPT_LIMIT: usize = 67_108_864;

/// Why a script was not read to its end.
#[derive(Clone, Copy, Debug, PartialEq, Eq)]
pub enum ReadStopped {
    /// It has more than 67,108,864 bytes.
    TooLong,
    /// The source failed.
    Source,
    /// There was no memory.
    Memory,
}

impl From<Failed> for ReadStopped {
    ghost from_gives = { λ _ e. e ≡ Source };

    fn from(_failed: Failed) -> ReadStopped {
        ReadStopped::Source
    }
}

impl From<AllocError> for ReadStopped {
    ghost from_gives = { λ _ e. e ≡ Memory };

    fn from(_refused: AllocError) -> ReadStopped {
        ReadStopped::Memory
    }
}

/// Reads a source to its end, by pieces of up to 65,536 bytes, and takes nothing behind the end. A source that gives
/// more than 67,108,864 bytes is left once it has.
pub fn read_script<S: Source>(alloc: Global, source: &mut S) -> Result<Vec<u8>, ReadStopped>
    ensures all { IfOk result (λ bytes. IfSome (S.left source.old) (λ script. bytes.items ≡ script)) }
    ensures end { OnOk result (IfSome (S.left source.old) (λ _. S.left source.new ≡ Some [])) }
    ensures limit { IfOk result (λ bytes. length bytes.items ≤ script_limit) }
    ensures once { OnOk result (EndsAtOnce (S.gave source.old) (S.gave source.new)) }
    ensures unfailed { OnOk result (S.faults source.new ≡ S.faults source.old) }
    ensures stopped { IfErr result (λ why.
        StopsReading why (S.left source.old) (S.faults source.old) (S.faults source.new)) }
    ensures stopped_once { IfErr result (λ why.
        StopsOnce why (S.gave source.old) (S.gave source.new)) }
{
    let mut piece = zeros(alloc, 65536)?;
    let mut bytes = Vec::new(alloc);
    'turns: loop {
        let count = source.take(&mut piece)?;
        if count == 0 {
            return Ok(bytes);
        }
        if SCRIPT_LIMIT - bytes.len() < count {
            return Err(ReadStopped::TooLong);
        }
        bytes.extend_from_slice(&piece[..count])?;
    }
}

// Bytes that are all 0, so many.
fn zeros(alloc: Global, length: usize) -> Result<Vec<u8>, AllocError>
    ensures { IfOk result (λ bytes. vec_len bytes ≡ length) }
{
    vec![in alloc; 0; length]
}
