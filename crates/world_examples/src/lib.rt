//! Scripts and their texts, computed by the model of the broker: each fact says what a whole script prints, from its
//! bytes to the printed bytes.
//!
//! Nothing here runs. A client that connects is answered by what the server takes:
//!
//!     text_of_script whole (lines (codes "open 1" ∷ send_a (codes "1") ∷ [])) [] ≡ lines (k0 (codes "1") ∷ [])
//!
//! Files that end in `Rows` have what a user would try first, those that begin with `Hostile` what a client, a disk or
//! a clock does to a broker that it wants to break. `specs/RowWords.antt` and `specs/HostileWords.antt` have the words
//! that they share.
#![tactic(auto)]
