//! Definitions of what a shard holds and in which order a subscription goes through it, and the laws about them.
#![tactic(auto)]

mod laws;
mod sweep;

pub use laws::storing_only_adds;
pub use sweep::Sweep;
