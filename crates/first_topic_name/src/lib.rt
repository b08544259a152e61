//! Topics and filters of the first path, and the message that its shard stores.
#![tactic(auto)]

mod filter;
mod message;
mod pieces;
#[cfg(test)]
mod tests;
mod topic;

pub use filter::{Filter, matches};
pub use message::Message;
pub use pieces::first_piece;
pub use topic::Topic;
