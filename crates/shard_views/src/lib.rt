//! How a worker looks at the lists of the shards.
//!
//!     readers.view(shard)?; // from here on `index` shows one list of this shard
//!     let message = readers.index(shard).message(offset);
//!     readers.leave(); // all views end
//!
//! A shard is unviewed, in view, or left. What a view shows has grown from all that this reader saw of the shard before,
//! and from the list of each receipt that it learned; so nothing that was seen is taken away, but with a generation that
//! expired, and what was stored for a client is seen by the worker that stored it.
//!
//! Who reads the shards is open: `plain_shards` shows the lists of logs that the same thread writes. Read
//! `specs/Views.antt` first, what proofs know of a reader and what each call does to that; `specs/ViewLaws.antt` has the
//! laws that `src/laws.rt` names.
#![tactic(auto)]

mod laws;
mod missed;
mod readers;

pub use laws::{a_view_is_of_one_shard, what_was_seen_stays};
pub use missed::Missed;
pub use readers::Readers;
