//! How kept sessions stand for plain ones: a session of a worker keeps tracks, batches and sweeps, and never the list
//! of all that it was issued, and still tells all that is needed of it.
//!
//! Nothing here runs. A session with two batches, once the only number of the second is done:
//!
//!     one_finished.kept.batches ≡ first ∷ []
//!     positions_of one_finished.kept 0 ≡ 0 ∷ 5 ∷ 5 ∷ 0 ∷ 2 ∷ []
//!
//! Read `specs/StandFor.antt` first: `Keeps`, what a session keeps of a plain one, `StandsFor`, the same over the lists
//! of the shards, and `SessionsStandFor` for the sessions of a worker. `specs/ReadAgain.antt` says what a batch gives
//! when it is read again, `specs/PlainChange.antt` which plain change a change stands for, and `specs/Issuing.antt`
//! what is asked of a batch. `specs/Examples.antt` has what computes. The laws stand in `src/laws.rt`.
#![tactic(auto)]

mod laws;

pub use laws::{
    a_session_begins_as_a_plain_one, batches_are_read_again_as_issued, changes_are_kept,
    changes_go_on_to_stand, kept_sessions_tell_what_fits, standing_stays_as_lists_grow,
    what_stands_is_ready_to_be_pumped,
};
