ghost use Rattle.std.specs.Prelude.{◌≡◌};
ghost use Rattle.shard_fold.specs.declared.unread.Unread.TheVariants.{Memory};

use std::alloc::AllocError;
use topic_name::What;

/// In which of a shard's logs a record lies.
#[derive(Clone, Copy, Debug, PartialEq, Eq)]
pub enum Where {
    /// The log of the manifest.
    Manifest,
    /// The log of the slot with this number.
    Slot(u8),
}

/// Why records hold no list.
#[derive(Clone, Copy, Debug, PartialEq, Eq)]
pub enum Unread {
    /// The record of this log, whose gate stands at this place, has not the form of its kind, or not what the records before
    /// it ask for.
    Damaged(Where, u64),
    /// The manifest differs from what is asked: in what, the value that it keeps, and the one asked for.
    Another(What, u8, u8),
    /// There is no memory for what the records hold.
    Memory,
}

impl From<AllocError> for Unread {
    ghost from_gives = { λ _ e. e ≡ Memory };

    fn from(_: AllocError) -> Unread {
        Unread::Memory
    }
}
