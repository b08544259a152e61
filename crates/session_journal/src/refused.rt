ghost use Rattle.std.specs.Prelude.{◌≡◌};
ghost use Rattle.session_journal.specs.declared.refused.JournalRefused.TheVariants.{Memory};

use std::alloc::AllocError;
use thiserror::Error;

/// Why a journal did not do what it was asked.
#[derive(Clone, Copy, Debug, PartialEq, Eq, Error)]
pub enum JournalRefused {
    /// A disk failed, and its count of faults rose. Until `settle` answers it is open what was done.
    #[error("a disk of the journal failed")]
    Fault,
    /// There is no memory, and nothing was changed.
    #[error("out of memory")]
    Memory,
}

impl From<AllocError> for JournalRefused {
    ghost from_gives = { λ _ e. e ≡ Memory };

    fn from(_: AllocError) -> JournalRefused {
        JournalRefused::Memory
    }
}
