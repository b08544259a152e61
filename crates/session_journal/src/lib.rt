//! A worker's sessions in a pair of logs: a snapshot and records of changes, which no crash can tear.
//!
//!     let (mut journal, sessions) = Journal::mount(alloc, first, second, config, worker)?;
//!     journal.commit(&changes, &sessions)?; // on both sides of a crash the changes are there, or none of them
//!
//! A commit adds a record of changes. Where the log would pass twice its snapshot and four mebibytes, the journal is rewritten
//! with the changes in, and so is one of the first format. After `Fault` the journal is in doubt until `settle` answers. A journal
//! is never full.
//!
//! Read `specs/Fold.antt` first, what records hold, then `specs/PlainJournal.antt`, what callers see of a journal, and
//! `specs/Mounting.antt`, what a mount answers. `specs/FoldLaws.antt` has the laws of what records hold.
#![tactic(auto)]

mod asked;
mod drafts;
mod folding;
mod head;
mod journal;
mod limits;
mod mounting;
mod pair_calls;
mod reading;
mod refused;
mod unread;

pub use asked::Asked;
pub use folding::act_all;
pub use journal::Journal;
pub use limits::{MOST_BYTES, MOST_RECORD, MOST_SNAPSHOT, SPARE_BYTES};
pub use refused::JournalRefused;
