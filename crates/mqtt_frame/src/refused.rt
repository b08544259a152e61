// Why a framer did not take a piece.
ghost use Rattle.std.specs.Prelude.{◌≡◌};
ghost use Rattle.mqtt_frame.specs.Refusal.{refusal_of};

use thiserror::Error;

/// What is wrong with the header at which a stream ends.
#[derive(Clone, Copy, Debug, PartialEq, Eq)]
pub enum BadHeader {
    /// Its Remaining Length is spelled in more bytes than needed, or its fourth length byte has bit 7 set (MQTT 1.5.5).
    Length,
    /// The whole packet, header and rest, is longer than the limit (MQTT 3.1.2.11.4).
    Size,
}

/// Why a framer did not take a piece.
#[derive(Clone, Copy, Debug, PartialEq, Eq, Error)]
pub enum FrameRefused {
    /// A packet is longer than the limit, header and rest together (MQTT 3.1.2.11.4). Every later piece is refused so.
    #[error("the packet is longer than the limit")]
    TooLarge,
    /// A Remaining Length isn't in its shortest spelling of one to four bytes (MQTT 1.5.5, 2.1.4). Every later piece is
    /// refused so.
    #[error("the Remaining Length is malformed")]
    BadLength,
    /// There is no memory. The piece wasn't taken.
    #[error("out of memory")]
    Memory,
}

impl From<BadHeader> for FrameRefused {
    ghost from_gives = { λ header e. e ≡ refusal_of header };

    fn from(header: BadHeader) -> FrameRefused {
        match header {
            BadHeader::Length => FrameRefused::BadLength,
            BadHeader::Size => FrameRefused::TooLarge,
        }
    }
}
