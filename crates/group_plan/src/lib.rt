//! What a shard makes of a group that it is asked to store, before any disk is touched: which of its operations are kept,
//! whether there is room for them, the record that is written, and the operations by which the index takes it.
//!
//!     match plan(alloc, &index, &ops, now)? {
//!         Plan::Nothing => {}                     // each was a repeat, or took nothing away
//!         Plan::Full | Plan::AwaitFull => {}      // refused, and nothing changes
//!         Plan::Stores(stored) => {}              // stored.record goes on disk, and then the index absorbs stored.ops
//!     }
//!
//! The index isn't changed: what is awaited behind the operations that are kept so far is told by counts. A Store gets the
//! next offset and the moment as its stamp, and its payload and properties are shared with the group.
//!
//! Read `specs/Plan.antt` first, what is planned, and then `specs/Asking.antt`, what a group may ask, `specs/Planning.antt`,
//! what a plan in memory is, and `specs/Examples.antt`, what computes. `specs/Keeping.antt`, `specs/Counting.antt` and
//! `specs/Room.antt` have what the code goes by, and `src/laws.rt` what follows of a plan.
#![tactic(auto)]

mod counting;
mod keeping;
mod laws;
mod outcome;
mod placing;
mod planning;
mod room;

pub use laws::{a_plan_stands, full_of_one, kept_at_any_moment, nothing_kept, what_may_be_asked};
pub use outcome::{MOST_RECORD, Plan, Stored};
pub use planning::plan;
