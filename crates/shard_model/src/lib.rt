//! The list of a shard as definitions: what is stored once for all sessions, what a generation has room for and learns
//! of its topics, what a subscription wants, and in which order it goes through it.
//!
//! Nothing here runs but `Sweep`, which code and definitions share. Five publishes of which two topics are learned as
//! one pattern have three streams, and a subscription goes through them one after another:
//!
//!     run_offsets (next_of_five (codes "a/+") at_the_front) ≡ 0 ∷ 4 ∷ []
//!
//! Read `specs/ShardList.antt` and `specs/Storing.antt` first, then `specs/LearnedPath.antt` and `specs/Streams.antt`,
//! `specs/Capacity.antt`, `specs/Wanted.antt` and `specs/SweepOrder.antt`. `specs/Growing.antt` says when one list has
//! grown from another, `specs/Lists.antt` what a list in order is, `specs/NextRun.antt` what the next
//! run of a subscription is, and `specs/ShardMoves.antt` what moves a shard makes.
//! `specs/Examples.antt` and `specs/MoveExamples.antt` have what computes, and the laws stand in `src/laws.rt`.
#![tactic(auto)]

mod allowed;
mod laws;
mod sweep;

pub use allowed::only_allowed_moves_move;
pub use laws::{
    a_placed_topic_keeps_its_path, a_stream_is_a_number, crash_takes_nothing, dropping_grows,
    few_messages_fit, growing_goes_on, moves_keep_order, moves_only_add, order_means,
    patterns_are_carried, pending_is_not_shown, rotating_grows, storing_grows,
    streams_are_patterns, streams_stay, sweeps_stay, the_next_run_is_in_order,
};
pub use sweep::Sweep;
