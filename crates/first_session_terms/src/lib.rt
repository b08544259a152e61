//! Definitions of a session, of what it was issued and of what changes it.
#![tactic(auto)]

mod entry;
mod laws;

pub use entry::{Entry, Kind, Version};
pub use laws::changes_compose;
