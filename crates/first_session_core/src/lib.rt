//! One step of a session: what a packet does to it, what a pump issues, and the packets that go out.
#![tactic(auto)]

mod connection;
mod delivery;
mod issued;
mod pumping;
mod session;
mod step;
mod subscription;
mod sweep;
#[cfg(test)]
mod tests;
mod tracks;

pub use connection::{Connection, four_in};
pub use issued::Issued;
pub use pumping::pump;
pub use session::Session;
pub use step::refusal;
pub use subscription::Subscription;
