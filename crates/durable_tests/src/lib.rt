//! Tests of the durable layer by its public calls alone, as tables of digits: the sessions of a worker as they are kept,
//! and journals on disks in memory.
//!
//! `change_rows` has each change as its record, which is read and written again, and `refused_rows` bytes that spell no
//! record. `acting_rows` has what each change makes of sessions, and which one doesn't fit; `snapshot_rows` a snapshot, and
//! each of its facts broken once. `mount_rows` has what a journal holds whose disks have some records, and `stop_rows` each
//! device call of a commit, of one that rewrites and of a settle failing in turn, with every image of that moment.
//! `held.rt` is a journal with the sessions that it holds, for tests and whoever commits a list of changes that may not fit.
//!
//! Bytes and texts that are wanted are worked out by hand from docs/FORMATS.md.
#![tactic(auto)]

mod counts;
mod held;

pub use counts::failures_were_asked_for;
pub use held::Held;

#[cfg(test)]
mod acting_rows;
#[cfg(test)]
mod change_rows;
#[cfg(test)]
mod digits;
#[cfg(test)]
mod disks;
#[cfg(test)]
mod mount_rows;
#[cfg(test)]
mod refused_rows;
#[cfg(test)]
mod shown;
#[cfg(test)]
mod snapshot_rows;
#[cfg(test)]
mod stop_rows;
