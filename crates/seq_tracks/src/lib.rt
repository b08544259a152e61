//! The two tracks of a session: deliveries of QoS 1 and of QoS 2 are numbered from 1, each on its own track, and have
//! packet identifiers that never meet (MQTT 2.2.1, 4.3.2, 4.3.3).
//!
//!     let mut tracks = Tracks::new(alloc);
//!     tracks.issue(1, 2)?; // 1 on track 1, and 1 and 2 on track 2
//!     let seq = tracks.seq_of(1, 1); // Some(1): `id_of(1, 1)` is 1
//!     tracks.puback(1);
//!     tracks.pubrec(2); // 1 was passed over, so it is done
//!     tracks.pubcomp(2); // `complete` is 2
//!     let room = tracks.room(512); // 512
//!
//! No more than 2,048 numbers are in use at once. Giving numbers takes memory, and no acknowledgement does. The work of a call
//! goes at most with what is in use, never with what was ever given.
//!
//! Read `specs/PlainTracks.antt` first, what callers see, then `specs/InOrder.antt`, `specs/Identifiers.antt` and
//! `specs/Changed.antt`, what each change makes. `specs/StandFor.antt` says how tracks stand for those of a plain session,
//! and `specs/Examples.antt` has what computes. The laws stand in `src/laws.rt`, and for other proofs in `specs/`:
//! `IdentifierLaws.antt`, `FinishLaws.antt` (what each change finishes), `StandLaws.antt` (changes) and `AgreeLaws.antt`
//! (readings).
#![tactic(auto)]

mod done;
mod identifiers;
mod laws;
mod marks;
mod numbers;
mod tracks;

pub use identifiers::id_of;
pub use laws::{
    changes_agree, changes_finish, no_identifier_twice, order_is_tested, readings_agree,
    room_is_for_both, tracks_tell_what_fits, unfinished_are_listed, unfinished_numbers_agree,
};
pub use marks::{Marks, WIDEST_WINDOW};
pub use tracks::Tracks;
