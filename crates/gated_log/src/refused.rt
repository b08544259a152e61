// Why a log did not do what it was asked.
ghost use Rattle.std.specs.Prelude.{◌≡◌};
ghost use Rattle.gated_log.specs.declared.refused.LogRefused.TheVariants.{Fault, Memory};

use outside::Failed;
use std::alloc::{AllocError, AllocFailed};
use thiserror::Error;

/// Why a log did not do what it was asked.
#[derive(Clone, Copy, Debug, PartialEq, Eq, Error)]
pub enum LogRefused {
    /// The record would pass the limit.
    #[error("the log is full")]
    Full,
    /// The disk failed, and its count of faults rose.
    #[error("the disk failed")]
    Fault,
    /// There is no memory.
    #[error("out of memory")]
    Memory,
}

impl From<Failed> for LogRefused {
    ghost from_gives = { λ _ e. e ≡ Fault };

    fn from(_: Failed) -> LogRefused {
        LogRefused::Fault
    }
}

impl From<AllocError> for LogRefused {
    ghost from_gives = { λ _ e. e ≡ Memory };

    fn from(_: AllocError) -> LogRefused {
        LogRefused::Memory
    }
}

impl<T: Drop> From<AllocFailed<T>> for LogRefused {
    ghost from_gives = { λ _ e. e ≡ Memory };

    fn from(_: AllocFailed<T>) -> LogRefused {
        LogRefused::Memory
    }
}
