//! The world as definitions: all shards and workers with the moves that they make, the lines of a script, and the run
//! of a script from its bytes to the printed bytes.
//!
//! Nothing here runs, and all of it computes: `text_of_script` is the text of a whole script, under a profile of limits
//! and a list of what device calls that may fail did. That of `open 1` alone is empty:
//!
//!     text_of_script whole (codes "open 1") [] ≡ []
//!
//! Read `specs/World.antt` first, the world and its moves, and `specs/Allowed.antt`, which are allowed; then
//! `specs/Lines.antt`, `specs/Running.antt` and `specs/Text.antt`. `unfolding running` of `specs/Computing.antt` is
//! what a fact about a run needs. The facts stand in the crate above; the laws in `src/laws.rt`.
#![tactic(auto)]

mod laws;

pub use laws::only_allowed_moves_move;
