ghost use Rattle.std.specs.Prelude.{◌≡◌};
ghost use Rattle.gated_log.specs.declared.refused.LogRefused.TheVariants.{Full};
ghost use Rattle.shard_reading.specs.Giving.{refusal_of, unread_of};
ghost use Rattle.shard_reading.specs.declared.unread.Unread.TheVariants.{Memory};

use gated_log::LogRefused;
use shard_fold::Where;
use std::alloc::AllocError;
use topic_name::What;

/// Why a shard was not read.
#[derive(Clone, Copy, Debug, PartialEq, Eq)]
pub enum Unread {
    /// The record of this log, whose gate stands at this place, has not the form of its kind, or not what the records before
    /// it ask for.
    Damaged(Where, u64),
    /// The manifest differs from what is asked: in what, the value that it keeps, and the one asked for.
    Another(What, u8, u8),
    /// The disk at this place, 0 to 9, failed, and its count of faults rose.
    Fault(u8),
    /// There is no memory for what the records hold.
    Memory,
}

impl From<AllocError> for Unread {
    ghost from_gives = { λ _ e. e ≡ Memory };

    fn from(_: AllocError) -> Unread {
        Unread::Memory
    }
}

// Why a record was not read that lies on the disk at a place: nothing is full where nothing is written.
pub(crate) fn unread_by(place: u8, why: LogRefused) -> Unread
    requires { why ≡ Full → ⊥ }
    ensures { result ≡ unread_of place why }
{
    match why {
        LogRefused::Full => unreachable!(),
        LogRefused::Fault => Unread::Fault(place),
        LogRefused::Memory => Unread::Memory,
    }
}

// The refusal of records that were read.
pub(crate) fn refusal(why: shard_fold::Unread) -> Unread
    ensures { result ≡ refusal_of why }
{
    match why {
        shard_fold::Unread::Damaged(log, place) => Unread::Damaged(log, place),
        shard_fold::Unread::Another(what, kept, asked) => Unread::Another(what, kept, asked),
        shard_fold::Unread::Memory => Unread::Memory,
    }
}
