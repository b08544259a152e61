//! A shard of the broker's messages on its ten disks: mounted, appended to, and settled after a failure.
//!
//!     let mut log = ShardLog::mount(alloc, ten, config, 0, now)?;
//!     let receipt = log.append(&ops, now)?; // the offsets of the group's messages, which are on disk
//!     log.tick(now)?; // settles what a failed append left in doubt
//!
//! A group is decided over the list in memory, written as one record behind the others of the newest generation's slot, and
//! then the list takes its operations. After `Fault` it is open whether the record is there; the next call settles it first.
//! After `Memory` the record may be there while the list doesn't show it; the next call that answers Ok shows it. One
//! generation is written as yet: a group that it has no room for finds the shard full.
//!
//! Read `specs/PlainShardLog.antt` first: the disks, the list that is shown, the one that is stored, and what every value
//! keeps. Then `specs/Appending.antt`, what an append and a tick leave, and `specs/Mounting.antt`. `specs/Steps.antt` and
//! `specs/Parts.antt` have what the steps of a call do, and `specs/StoredOnce.antt` the laws that `src/laws.rt` names.
#![tactic(auto)]

mod laws;
mod log;
mod mounting;

pub use laws::{a_message_is_stored_once, calls_store_a_message_once, each_call_is_one_of_a_run};
pub use log::ShardLog;
