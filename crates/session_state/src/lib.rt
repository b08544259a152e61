//! The sessions of a worker as they are kept: what a session knows of its subscriptions, the versions of their options,
//! the batches that it was issued, and how far its client has acknowledged these.
//!
//!     let mut sessions = Sessions::new(alloc);
//!     let began = Began { incarnation: 1, expiry: 3600, window: 512 };
//!     act(&mut sessions, &Change { client, effect: Effect::Began(began) })?; // true
//!     let session = sessions.get(&client); // Some: it has no subscriptions yet
//!
//! Read `specs/KeptSession.antt` first, what callers see, then `specs/KeptActing.antt`, what each change makes, and
//! `specs/KeptFits.antt`, when a change fits, and `specs/SoundTest.antt`, what holds of every session that is held.
//! `specs/Examples.antt` has what computes. The laws stand in `src/laws.rt`, and for other proofs in `specs/`:
//! `TidyLaws.antt`, `LimitLaws.antt` and `AddLaws.antt` (limits), `WorkerLaws.antt` (all sessions), `SoundLaws.antt` (what holds) and
//! `CountLaws.antt` (how much is kept).
#![tactic(auto)]

mod batch;
mod change;
mod keeping;
mod laws;
mod parts;
mod session;
mod sessions;
mod sound;
mod sub;
mod subs;

pub use batch::Batch;
pub use change::{Began, Change, Effect, Issued, Parted, Passed, Replaced, Subscribed};
pub use laws::{changes_keep_sound, few_are_kept, tidied_is_tidy};
pub use parts::SessionParts;
pub use session::{MOST_FILTER_TEXTS, MOST_SUBSCRIPTIONS, Session};
pub use sessions::{
    MOST_CLIENT, MOST_SESSIONS, MOST_WIDE_SESSIONS, Sessions, WIDE_WINDOW, WINDOW, act,
};
pub use sub::Sub;
