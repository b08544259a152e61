//! The shards of a broker that one thread writes and reads.
//!
//!     let mut shards = PlainShards::new(logs); // the logs of all shards, in order
//!     let receipt = shards.append(0, &ops, now)?; // stored, and on disk
//!     shards.learn(receipt); // each later view has it
//!     shards.view(0)?; // never missed here
//!     let message = shards.index(0).message(offset);
//!     shards.leave(); // each shard can be viewed again
//!
//! A view shows a shard's list as its log shows it: want of memory aside, with each change from when it is known to be on
//! disk. No shard is in view while one is written.
//!
//! Read `specs/KeptShards.antt` first, what callers see and what that is to a reader (`shard_views`), and `specs/Calls.antt`
//! for what a call leaves.
#![tactic(auto)]

mod log_calls;
mod plain_shards;

pub use crate::plain_shards::PlainShards;
