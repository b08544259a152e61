//! Sessions as definitions: what a session was issued, which entries of it are unfinished, the twelve changes of a
//! worker's sessions, how each acts and when it fits, and the issued prefix.
//!
//! Nothing here runs but the plain types that code and definitions share. Three messages on track 2 and one on track 1
//! leave room for 508 more of a window of 512:
//!
//!     in_a [] room_of ≡ 508
//!
//! Read `specs/PlainSession.antt` and `specs/Entry.antt` first, then `specs/Unfinished.antt`, `specs/Change.antt`,
//! `specs/Acting.antt` and `specs/FitsSession.antt`. `specs/Ends.antt` says when a session is over and what a restart
//! owes, `specs/IssuedPrefix.antt` what a subscription was issued, `specs/Orders.antt` when the numbers of a session
//! are in order, and `specs/Examples.antt` has what computes. The laws stand in `src/laws.rt`.
#![tactic(auto)]

mod entry;
mod laws;

pub use entry::{Entry, Kind, Version};
pub use laws::{
    acting_keeps_order, changes_compose, complete_is_the_greatest, identifiers_differ, others_stay,
};
