//! MQTT packets: from bytes and to bytes.
#![tactic(auto)]

mod laws;
mod packet;
mod props;
mod reading;
mod refused;
#[cfg(test)]
mod tests;
mod writing;

pub use laws::{none_begins_another, written_is_read};
pub use packet::{Packet, Will, Wish, Wishes};
pub use props::{Prop, Props};
pub use reading::read;
pub use refused::ReadRefused;
pub use writing::write;
