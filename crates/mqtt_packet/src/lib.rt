//! The fifteen kinds of MQTT 5.0 packet, read and written (MQTT 2, 3).
//!
//!     let packet = read(alloc, &[0x40, 0x03, 0x00, 0x07, 0x00])?; // PUBACK of 7
//!     write(&packet, &mut out)?; // 40 02 00 07: the shortest form
//!
//! `read` takes one whole packet, as a framer gives it. It refuses another version of the protocol before all else, then
//! what spells no packet, then a packet that breaks a rule which its bytes alone tell. Properties are read in any order,
//! and short and long forms alike; `write` puts the one spelling that is the shortest, with properties by ascending
//! identifier. What is written spells that packet alone, no spelling begins another, and `written_length` tells its
//! length without writing it.
//!
//! Read `specs/Packet.antt` first, the kinds and their fields, then `specs/Spelling.antt`, how each is written,
//! `specs/Fits.antt`, which fields may be, and `specs/Spells.antt`, which bytes spell which packet. What `read` answers
//! is computed by `specs/Reading.antt`, `specs/Rules.antt` and `specs/Answer.antt`; `specs/Examples.antt` has what
//! computes. `specs/ExactLaws.antt` and `specs/WrittenLaws.antt` have the laws for the layers above.
#![tactic(auto)]

mod ack;
mod acks;
mod connect;
mod filters;
mod first;
mod flags;
mod kinds;
mod laws;
mod length;
mod message;
mod packet;
mod parts;
mod putting;
mod reading;
mod refused;
mod rules;
mod writing;

pub use ack::write_ack;
pub use laws::{
    answers_are_exact, length_is_a_number, none_begins_another, read_was_spelled,
    spelled_can_be_written, spelled_is_read, written_is_a_frame, written_is_spelled,
};
pub use length::written_length;
pub use packet::{AckKind, Packet, Will, Wish};
pub use reading::read;
pub use refused::ReadRefused;
pub use rules::{
    BAD_OPTIONS, BAD_VALUE, NO_AUTHENTICATION_METHOD, NO_FILTER, REPEATED_PROPERTY,
    WILD_RESPONSE_TOPIC,
};
pub use writing::write;
