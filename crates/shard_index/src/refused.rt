ghost use Rattle.std.specs.Prelude.{◌≡◌};
ghost use Rattle.shard_index.specs.declared.refused.AppendRefused.TheVariants.{Memory};

use std::alloc::AllocError;
use thiserror::Error;

/// Why a shard did not store a group.
#[derive(Clone, Copy, Debug, PartialEq, Eq, Drop, Error)]
pub enum AppendRefused {
    /// A disk of the shard failed, and its count of faults rose. What was to be stored is in doubt until a later call settles
    /// it.
    #[error("a disk of the shard failed")]
    Fault,
    /// There is no room for the messages, and nothing was changed.
    #[error("the shard is full")]
    Full,
    /// More identifiers of QoS 2 would be awaited than a shard may await (MQTT 4.3.3), and nothing was changed.
    #[error("the shard awaits too many identifiers")]
    AwaitFull,
    /// There is no memory. The group may be stored and not shown yet, or not stored; the next call that answers Ok shows it.
    #[error("out of memory")]
    Memory,
}

impl From<AllocError> for AppendRefused {
    ghost from_gives = { λ _ e. e ≡ Memory };

    fn from(_: AllocError) -> AppendRefused {
        AppendRefused::Memory
    }
}
