//! Packets out of a stream of bytes (MQTT 5.0, 2.1): the bytes come in pieces of any size, and each packet is given as
//! soon as it is whole.
//!
//!     let mut framer = Framer::new(alloc, 65_536);
//!     framer.feed(&[0xC0, 0x00, 0xE0], &mut packets)?; // gives C0 00
//!     framer.feed(&[0x00], &mut packets)?; // gives E0 00
//!
//! A packet is its first byte, its Remaining Length and as many bytes. Where the pieces are cut makes no difference. A
//! header that can't be read, or that tells of a packet over the limit, ends the stream: what stood in front of it is
//! given, and every later piece is refused for the same reason.
//!
//! Read `specs/Framing.antt` first, how a stream is cut into packets, and then `specs/PlainFramer.antt`, what callers see
//! of a framer. `specs/Packets.antt` says what a whole packet is, and `specs/Examples.antt` has what computes.
#![tactic(auto)]

mod framer;
mod framing;
mod front;
mod header;
mod laws;
mod refused;

pub use framer::Framer;
pub use laws::{framed_are_packets, packets_are_framed, pieces_make_no_difference};
pub use refused::{BadHeader, FrameRefused};
