ghost use Rattle.std.specs.Prelude.{◌≡◌};
ghost use Rattle.mqtt_packet.specs.Taking.{refusal_of};
ghost use Rattle.mqtt_packet.specs.declared.refused.ReadRefused.TheVariants.{Malformed, Memory};

use mqtt_props::PropRefused;
use std::alloc::{AllocError, AllocFailed};
use thiserror::Error;
use wire_fields::Cut;

/// Why bytes were not read as a packet.
#[derive(Clone, Copy, Debug, PartialEq, Eq, Drop, Error)]
pub enum ReadRefused {
    /// A CONNECT of another protocol or another version: its length is right, and a text and a byte stand in it that
    /// are not `MQTT` and 5 (MQTT 3.1.2.1, 3.1.2.2).
    #[error("another protocol or version")]
    Version,
    /// They spell no packet (MQTT 4.13.1, Malformed Packet).
    #[error("no packet")]
    Malformed,
    /// They spell a packet that breaks a rule of the protocol: the least number of those that it breaks, one of the
    /// constants of this crate (MQTT 4.13.1, Protocol Error).
    #[error("a packet that breaks rule {0} of the protocol")]
    Protocol(u8),
    /// There is no memory for the packet.
    #[error("out of memory")]
    Memory,
}

impl From<Cut> for ReadRefused {
    ghost from_gives = { λ _ e. e ≡ Malformed };

    fn from(_: Cut) -> ReadRefused {
        ReadRefused::Malformed
    }
}

impl From<AllocError> for ReadRefused {
    ghost from_gives = { λ _ e. e ≡ Memory };

    fn from(_: AllocError) -> ReadRefused {
        ReadRefused::Memory
    }
}

impl<T: Drop> From<AllocFailed<T>> for ReadRefused {
    ghost from_gives = { λ _ e. e ≡ Memory };

    fn from(_: AllocFailed<T>) -> ReadRefused {
        ReadRefused::Memory
    }
}

impl From<PropRefused> for ReadRefused {
    ghost from_gives = { λ p e. e ≡ refusal_of p };

    fn from(refused: PropRefused) -> ReadRefused {
        match refused {
            PropRefused::Memory => ReadRefused::Memory,
            PropRefused::Unknown
            | PropRefused::Misplaced
            | PropRefused::Spelling
            | PropRefused::Repeated
            | PropRefused::BadValue => ReadRefused::Malformed,
        }
    }
}
