//! Two logs that are rewritten in turn: a snapshot and the records after it, which no crash can tear.
//!
//! One log is active and has the list: record 0 is an epoch and the snapshot, and the records after it stand behind. The
//! other is the standby. A rewrite empties the standby and commits a new snapshot there, with the next epoch, which makes
//! it active. A mount takes the disk with the later epoch.
//!
//!     let mut pair = PairLog::mount(alloc, first, second, limit, b"snapshot")?;
//!     pair.reserve()?;
//!     pair.commit(&Draft::new(alloc, b"record")?)?;
//!
//! After `Fault` the pair is in doubt until `settle` answers. Read `specs/Epochs.antt` first, then `specs/PlainPair.antt`.
#![tactic(auto)]

mod doubt;
mod mounting;
mod pair;
mod side;

pub use doubt::Doubt;
pub use pair::PairLog;
pub use side::Side;
