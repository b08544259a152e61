//! The list of a shard in memory: its generations, its messages by their offsets, and what is awaited.
//!
//!     let mut index = Index::new(alloc, cut, &[])?;
//!     index.absorb(&IndexOp::Add(message))?; // the message has the offset index.next_offset()
//!     let stored = index.message(index.floor()); // Some
//!     let waits = index.awaits(&publisher, 1, 7); // whether identifier 7 of this session is awaited
//!
//! An operation that can't stand changes nothing. Contracts see `KeptIndex` (`specs/KeptIndex.antt`, read it first): the
//! generations with their slots, the messages with the places of cold bodies, and what is awaited; `list_of` is the
//! model's list. `specs/Absorbing.antt` says which operations can stand and what they make, `specs/Sound.antt` what holds
//! of every index, and `specs/Examples.antt` has what computes. The laws over lists of operations stand in `src/laws.rt`.
#![tactic(auto)]

mod awaited;
mod awaited_list;
mod identifiers;
mod index;
mod laws;
mod lists;
mod noted;
mod op;
mod receipt;
mod refused;
mod size;

pub use awaited::Awaited;
pub use awaited_list::are_distinct;
pub use index::Index;
pub use laws::{a_group_is_absorbed, operations_grow, operations_show};
pub use op::{IndexOp, Publisher};
pub use receipt::Receipt;
pub use refused::AppendRefused;
pub use size::GENERATION_BYTES;
