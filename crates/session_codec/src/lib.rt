//! The journal of a worker's sessions as bytes: snapshots of all its sessions, and records of the changes that follow.
//!
//!     let mut out = Vec::new(alloc);
//!     write_snapshot(shards, workers, worker, &sessions, &mut out)?; // begins with 02
//!     let snapshot = read_snapshot(alloc, &out)?; // the same sessions
//!     write_changes(&changes, shards, &mut record)?; // 1 to 1,024 changes
//!     let changes = read_changes(alloc, &record, shards, snapshot.format)?;
//!
//! Each value has one spelling in a format. What is written is read again, and what is read was spelled so; `Bad` comes
//! exactly where bytes spell nothing. Format 02 is written; 01, in which no session has a window in its bytes and each has
//! 512, is read too. A mount asks `format_of` first, to tell an unknown format from damage.
//!
//! Read `specs/Spelling.antt` first, how each part is spelled, then `specs/HasSpelling.antt`, which values have a spelling,
//! and `specs/Reading.antt`, what is read of bytes. `specs/Examples.antt` has what computes, `specs/Sizes.antt` how long
//! spellings are. `specs/Forms.antt` has the laws of which those of every part are put together.
#![tactic(auto)]

mod changes;
mod effects;
mod fields;
mod formats;
mod laws;
mod lists;
mod numbers;
mod parts;
mod putting;
mod putting_changes;
mod putting_sessions;
mod refused;
mod session_parts;
mod sessions;
mod snapshot;
mod tags;
mod tracks;

pub use changes::{read_changes, write_changes};
pub use formats::{FIRST_FORMAT, FIRST_WINDOW, MOST_CHANGES, SECOND_FORMAT};
pub use laws::{
    bounded_snapshots_are_short, changes_keep_spelling, formats_go_on, length_is_a_number,
    read_was_spelled, snapshots_are_short, spelled_is_read, spellings_differ,
};
pub use refused::CodecRefused;
pub use snapshot::{SessionsSnapshot, format_of, read_snapshot, write_snapshot};
