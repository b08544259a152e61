ghost use Rattle.std.specs.Prelude.{◌≡◌};
ghost use Rattle.mqtt_props.specs.declared.refused.PropRefused.TheVariants.{Spelling, Memory};

use std::alloc::{AllocError, AllocFailed};
use thiserror::Error;
use wire_fields::Cut;

/// Why bytes were not read as a list of properties. Of the first three the one that comes first in the bytes decides.
#[derive(Clone, Copy, Debug, PartialEq, Eq, Drop, Error)]
pub enum PropRefused {
    /// An identifier of no property (MQTT 2.2.2.2).
    #[error("a property that the standard does not have")]
    Unknown,
    /// A property that does not stand in this packet, or not in a will (MQTT 2.2.2.2).
    #[error("a property that does not stand here")]
    Misplaced,
    /// A length that is not that of the list, or a value that is not of its type or passes the end (MQTT 2.2.2).
    #[error("a property that is not spelled as its type wants")]
    Spelling,
    /// A second property where only one may stand. All are spelled well, and stand where they may.
    #[error("a property that stands twice")]
    Repeated,
    /// A value that the standard does not allow. No property is repeated that may not be.
    #[error("a property with a value that is not allowed")]
    BadValue,
    /// There is no memory for the list.
    #[error("out of memory")]
    Memory,
}

impl From<Cut> for PropRefused {
    ghost from_gives = { λ _ e. e ≡ Spelling };

    fn from(_: Cut) -> PropRefused {
        PropRefused::Spelling
    }
}

impl From<AllocError> for PropRefused {
    ghost from_gives = { λ _ e. e ≡ Memory };

    fn from(_: AllocError) -> PropRefused {
        PropRefused::Memory
    }
}

impl<T: Drop> From<AllocFailed<T>> for PropRefused {
    ghost from_gives = { λ _ e. e ≡ Memory };

    fn from(_: AllocFailed<T>) -> PropRefused {
        PropRefused::Memory
    }
}
