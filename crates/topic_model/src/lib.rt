//! The words of the broker as definitions: topic names and filters, where clients go, the stored message, and the
//! numbers of all limits.
//!
//! Nothing here runs but the errors' own methods. Contracts and the model above cite these definitions, which compute:
//!
//!     matches (levels_of (codes "sport/tennis/+")) (levels_of (codes "sport/tennis/player1")) ≡ true
//!
//! Read `specs/Levels.antt` and `specs/Matching.antt` first, then `specs/Texts.antt`, which texts are topic names and
//! filters and why others are not, `specs/Routing.antt`, and `specs/StoredMessage.antt`. `specs/Profile.antt` has the
//! limits, and what of the broker is built; `specs/Limits.antt` which configurations are within them;
//! `specs/Examples.antt` what computes. `specs/LevelsLaws.antt` and `specs/TextsLaws.antt` have the laws for the code
//! above.
#![tactic(auto)]

mod laws;
mod refused;

pub use laws::{accepted_texts_have_no_fault, clients_go_by_their_hash, levels_join_again};
pub use refused::{FilterRefused, TopicRefused};
