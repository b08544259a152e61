ghost use Rattle.std.specs.Prelude.{◌≡◌};
ghost use Rattle.gated_log.specs.declared.refused.LogRefused.TheVariants.{Full};
ghost use Rattle.session_journal.specs.Giving.{unread_of};
ghost use Rattle.session_journal.specs.declared.unread.Unread.TheVariants.{Memory};

use gated_log::LogRefused;
use std::alloc::{AllocError, AllocFailed};
use topic_name::What;

// Why no sessions were read.
#[derive(Clone, Copy, Debug, PartialEq, Eq)]
pub(crate) enum Unread {
    // The record whose gate stands at this place is damaged.
    Damaged(u64),
    // In what the snapshot differs, the value that it keeps, and the one asked for.
    Another(What, u8, u8),
    // A disk failed.
    Fault,
    Memory,
}

impl From<AllocError> for Unread {
    ghost from_gives = { λ _ e. e ≡ Memory };

    fn from(_: AllocError) -> Unread {
        Unread::Memory
    }
}

// Why a record was not read: nothing is full where nothing is written.
pub(crate) fn unread_by(why: LogRefused) -> Unread
    requires { why ≡ Full → ⊥ }
    ensures { result ≡ unread_of why }
{
    match why {
        LogRefused::Full => unreachable!(),
        LogRefused::Fault => Unread::Fault,
        LogRefused::Memory => Unread::Memory,
    }
}
