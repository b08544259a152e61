//! The ten disks of one shard: two with the pair of logs of its manifest, and eight with one log each, its slots. What the
//! records mean is no matter of this crate. It says what a crash may leave of all ten disks at one moment of each call:
//! what a mount would read from ten images is what was there before the call or what is there after it.
//!
//!     let mut disks = ShardDisks::mount(alloc, ten, limits, b"snapshot")?;
//!     disks.reserve(3)?;
//!     disks.commit(3, &Draft::new(alloc, b"record")?)?;
//!     disks.entry(3, 0, &mut bytes)?; // "record"
//!
//! After `Fault` from a commit its slot is doubted until `settle` answers, and nothing else may be called but `arm`. Read
//! `specs/Outline.antt` first: what the disks hold, and what a mount reads from images. Then `specs/Images.antt`, and
//! `specs/Calls.antt`, what each call does.
#![tactic(auto)]

mod limits;
mod mounting;
mod shard_disks;
mod slot_calls;

pub use limits::Limits;
pub use shard_disks::ShardDisks;
