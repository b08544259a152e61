//! Tests of the disk layer by its public calls alone: disks in memory that fail at a call and crash, logs and pairs of logs
//! on them, and what is mounted from each image of each moment.
//!
//! A row names the call that fails and, by a letter for each of the five images of a crash, the list that is mounted then.
//! Expected lists are worked out by hand from the order of device calls in docs/FORMATS.md.
//!
//! `chain` is a proof and no test: a mount, commits and rewrites one after another, at each moment of which the images of
//! both disks read as a list before or after one of these. Read `specs/Chain.antt` first.
#![tactic(auto)]

mod chains;
#[cfg(test)]
mod disk_rows;
#[cfg(test)]
mod log_rows;
#[cfg(test)]
mod logs;
#[cfg(test)]
mod pair_rows;
#[cfg(test)]
mod pairs;

pub use chains::chain;
