//! A disk in memory, whose crashes leave the images that a script names, and which fails at the calls that it is told.
//!
//!     let mut disk = MemoryDisk::new(alloc);
//!     disk.write_at(0, b"kept")?;
//!     disk.sync()?;
//!     disk.fail_at(1)?;
//!     let torn = disk.write_at(4, b"lost"); // Err(Failed), with half of the bytes written
//!     let image = disk.crash(0)?; // "kept"
//!
//! A `GateDisk` is such a disk, or any other one, with a gate that each sync passes first.
//!
//! Read `specs/PlainDisk.antt` first: a disk by plain values, and what each call makes of it. `specs/Images.antt` says what
//! a crash may leave.
#![tactic(auto)]

mod bytes;
mod contents;
mod disk;
mod gate_disk;
mod images;

pub use disk::MemoryDisk;
pub use gate_disk::GateDisk;
