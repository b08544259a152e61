ghost use Rattle.std.specs.Prelude.{◌≡◌};
ghost use Rattle.first_mqtt_packet.specs.declared.refused.ReadRefused.TheVariants.{Memory};

use std::alloc::{AllocError, AllocFailed};
use thiserror::Error;

/// Why bytes were not read as a packet.
#[derive(Debug, Drop, Error)]
pub enum ReadRefused {
    /// They are in none of the forms that are built so far.
    #[error("a packet that is not built yet")]
    Later,
    /// There is no memory for the packet.
    #[error("out of memory")]
    Memory,
}

impl From<AllocError> for ReadRefused {
    ghost from_gives = { λ _ e. e ≡ Memory };

    fn from(_: AllocError) -> ReadRefused {
        ReadRefused::Memory
    }
}

impl<T: Drop> From<AllocFailed<T>> for ReadRefused {
    ghost from_gives = { λ _ e. e ≡ Memory };

    fn from(_: AllocFailed<T>) -> ReadRefused {
        ReadRefused::Memory
    }
}
