ghost use Rattle.std.specs.Prelude.{◌≡◌};
ghost use Rattle.topic_name.specs.declared.mounting.MountRefused.TheVariants.{Memory};

use crate::Name;
use std::alloc::AllocError;
use thiserror::Error;

/// Why disks are not mounted. Disks are looked at in the order of their numbers, and the first refusal that is met
/// decides. Of one record the format is tested first, then whether it is damaged, then the other values. `Behind` comes
/// when all disks were read.
#[derive(Debug, PartialEq, Eq, Drop, Error)]
pub enum MountRefused {
    /// The disk with this number failed, and its count of faults rose.
    #[error("disk {0} failed")]
    Fault(u16),
    /// A record on the disk with this number has not the form of its kind, or not what the records before it ask for.
    /// The second number is the place of its gate.
    #[error("disk {0} damaged at {1}")]
    Damaged(u16, u64),
    /// A disk keeps another value than the one that was asked for.
    #[error("differs: {what} kept {kept} asked {asked}")]
    Differs {
        what: What,
        kept: u64,
        asked: u64,
    },
    /// A session names a position that its shard has not reached: the offset of the shard's next message is `next`. It is
    /// the first such session in order of worker and creation, its least such shard, and its greatest position there.
    #[error("behind: client {} shard {shard} position {position} next {next}", .client.text())]
    Behind {
        client: Name,
        shard: u8,
        position: u64,
        next: u64,
    },
    /// There is no memory for what the disks hold.
    #[error("out of memory")]
    Memory,
}

impl From<AllocError> for MountRefused {
    ghost from_gives = { λ _ e. e ≡ Memory };

    fn from(_: AllocError) -> MountRefused {
        MountRefused::Memory
    }
}

/// In what a disk differs from what was asked for.
#[derive(Clone, Copy, Debug, PartialEq, Eq, Drop, Error)]
pub enum What {
    /// The form that its records are written in.
    #[error("format")]
    Format,
    /// How many shards there are.
    #[error("shards")]
    Shards,
    /// How many workers there are.
    #[error("workers")]
    Workers,
    /// Which shard or worker it belongs to.
    #[error("number")]
    Number,
}
