//! What the records of a shard's disks hold: its list, or why they hold none.
//!
//!     let cuts = read_cuts(alloc, &manifest, asked)?; // the generations, oldest first
//!     let mut index = open(alloc, &opening, cuts[0])?;
//!     take_group(alloc, &group, cuts[0].slot, place, &mut index)?; // and so on, record by record
//!
//! A shard has a log for its manifest and eight for its slots, of which each generation has one. Nothing here touches a
//! disk: the caller hands in the payloads of the records, in order, and the calls compute the parts of one function of all of
//! them.
//!
//! Read `specs/Fold.antt` first, that function. `specs/Examples.antt` has what computes, `specs/Giving.antt` what a call gives,
//! `specs/Potential.antt` how many bytes a generation can still take, and `specs/FoldLaws.antt` the laws of what records hold,
//! which `src/laws.rt` names.
#![tactic(auto)]

mod asked;
mod groups;
mod laws;
mod limits;
mod manifests;
mod openings;
mod unread;

pub use asked::Asked;
pub use groups::take_group;
pub use laws::{
    a_first_manifest, a_group_is_taken, a_group_takes_its_room, a_new_shard, a_record_behind,
    folded_in_order, new_disks,
};
pub use limits::{MOST_AWAITED, MOST_SLOT};
pub use manifests::{SLOTS, first_manifest, is_new, read_cuts};
pub use openings::{first_opening, open, open_behind};
pub use unread::{Unread, Where};
