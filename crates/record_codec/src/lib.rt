//! The records of a shard's disks as bytes: groups of operations, openings of generations, and manifests.
//!
//!     let mut out = Vec::new(alloc);
//!     write_group(&group, &mut out)?; // begins with 47
//!     let group = read_group(alloc, &out)?; // the same operations
//!
//! Each record has one spelling. What is written is read again, and what is read was spelled so; `Bad` comes exactly where
//! bytes spell nothing. A Store takes the next offset after those before it in its group, so no offset but the first is
//! in the bytes. Whether a record fits the others of its shard is for a mount to say, which asks `manifest_format` first,
//! to tell an unknown format from damage.
//!
//! Read `specs/Spelling.antt` first, how each part is spelled, then `specs/HasSpelling.antt`, which records have a
//! spelling, and `specs/Reading.antt`, what is read of bytes. `specs/Records.antt` has the records as plain values and as
//! what the definition of storing takes, `specs/Examples.antt` what computes, `specs/Sizes.antt` how long spellings are.
#![tactic(auto)]

mod fields;
mod formats;
mod group;
mod groups;
mod laws;
mod manifest;
mod manifests;
mod numbers;
mod opening;
mod openings;
mod ops;
mod putting;
mod putting_ops;
mod sizes;

pub use formats::{
    GROUP, MANIFEST_FORMAT, MOST_GENERATIONS, MOST_OPERATIONS, OPENING, RECORD_FORMAT,
};
pub use group::{Group, Op};
pub use groups::{read_group, write_group};
pub use laws::{
    length_is_a_number, offsets_are_consecutive, read_was_spelled, records_are_short,
    spelled_is_read, spellings_differ,
};
pub use manifest::Manifest;
pub use manifests::{manifest_format, read_manifest, write_manifest};
pub use opening::Opening;
pub use openings::{read_opening, write_opening};
pub use session_codec::CodecRefused;
pub use shard_index::Awaited;
pub use sizes::{store_length, stores_length};
