//! Where bytes come from and where they go: the outside world as the programs see it, in memory and over the system.
//!
//! - `Source` and `Sink`: bytes in order, until the end. `VecSource` and `VecSink` in memory, `Input` and `Output` over a
//!   reader and a writer of the system.
//! - `Disk`: bytes that survive a crash, and what a crash may leave. Read `specs/DiskModel.antt` first.
//! - `Gate` and `Clock`: places at which a test may hold a thread, and the time.
//!
//!     let mut source = VecSource::new(b"two bytes".to_vec(alloc)?, Vec::new(alloc));
//!     let count = source.take(&mut into)?;
//!
//! Each counts its faults, and a call fails only where the count rose. `specs/Along.antt` is for owners of several disks:
//! what holds of the images of all of them at each moment.
#![tactic(auto)]

mod adapters;
mod clock;
mod disk;
mod failed;
mod gate;
mod memory;
mod sink;
mod source;
#[cfg(test)]
mod tests;

pub use adapters::{Input, Output};
pub use clock::{Clock, StepClock};
pub use disk::{Disk, Disks};
pub use failed::Failed;
pub use gate::{Gate, Place};
pub use memory::{VecSink, VecSource};
pub use sink::Sink;
pub use source::Source;
