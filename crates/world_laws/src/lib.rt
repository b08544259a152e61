//! What holds of the broker's world after every list of moves: publishes, reads, acknowledgements, takeovers, restarts,
//! rotations, drops, failing disks and crashes, in whatever order.
//!
//! Nothing here runs. A law says of every profile, every configuration and every list of moves what the world is like
//! that they lead to, or what one more move does there:
//!
//!     (profile : Profile) (config : Config) (moves : List Move) → AreGrown (reached_world profile config moves)
//!
//! Read `specs/Reached.antt` first, the worlds that lists of moves lead to. Then come what is said of lists and of all
//! that was ever stored (`specs/StoredLists.antt`), of what is sent again (`specs/SentAgain.antt`), of what is
//! acknowledged and put out (`specs/Acknowledged.antt`), of what sessions were issued (`specs/Issued.antt`), and of who
//! is who (`specs/Distinct.antt`). `specs/Always.antt` has all of it together. What is proved is in `src/laws.rt`; the
//! other laws are stated. `specs/laws/` has the proofs, of which `GoesLaws.antt` and `WorkerLaws.antt` say in which
//! ways a shard and a worker may go on behind a move.
#![tactic(auto)]

mod laws;

pub use laws::{
    a_bind_takes_all_that_is_unfinished, a_message_is_stored_once, clients_are_distinct,
    lists_grow, nothing_is_taken, what_is_acknowledged_was_stored, what_is_due_is_committed,
    what_is_held_was_stored, what_is_put_out_is_committed,
};
