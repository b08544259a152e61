//! A log on one disk whose records no crash can tear: what bytes hold which records, and the device calls of each change.
//!
//!     let mut log = Log::mount(alloc, disk, limit)?;
//!     log.reserve()?;
//!     log.commit(&Draft::new(alloc, b"record")?)?;
//!     log.entry(0, &mut bytes)?; // "record"
//!
//! After `Fault` from a commit it is open whether the record is in the log, until `settle` answers. The next mount reads the
//! list with it or without it, whatever a crash left.
//!
//! Read `specs/Records.antt` first: the records that bytes hold. `specs/PlainLog.antt` says what callers see of a log,
//! `specs/Calls.antt` what its calls do to the disk.
#![tactic(auto)]

mod closing;
mod draft;
mod log;
mod mounting;
mod reading;
mod refused;
mod settled;
mod span;
mod standing;
mod writing;

pub use draft::Draft;
pub use log::Log;
pub use refused::LogRefused;
pub use settled::Settled;
