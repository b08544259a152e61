//! The list of a shard, read from its ten disks.
//!
//!     let mut disks = ShardDisks::mount(alloc, ten, limits, &first_manifest(alloc, asked)?)?;
//!     let index = read_shard(alloc, &mut disks, asked)?;
//!
//! The manifest names the generations. Their slots are read from the oldest one on, record by record, and what the records
//! hold is computed by `shard_fold`. Of a new shard the opening of the first generation is written where it isn't there yet;
//! nothing else is written. Which record is damaged is told by its log and the place of its gate, and a disk that failed by
//! its place among the ten.
//!
//! Read `specs/Held.antt` first, what the disks hold, and then `specs/Reading.antt`, what the call gives and leaves.
#![tactic(auto)]

mod beginning;
mod generations;
mod limits;
mod payloads;
mod reading;
mod unread;

pub use limits::{MANIFEST_BYTES, SLOT_BYTES};
pub use reading::read_shard;
pub use unread::Unread;
