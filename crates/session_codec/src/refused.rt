ghost use Rattle.std.specs.Prelude.{◌≡◌};
ghost use Rattle.session_codec.specs.declared.refused.CodecRefused.TheVariants.{Bad, Memory};

use std::alloc::{AllocError, AllocFailed};
use thiserror::Error;
use wire_fields::Cut;

/// Why nothing was read.
#[derive(Clone, Copy, Debug, PartialEq, Eq, Drop, Error)]
pub enum CodecRefused {
    /// The bytes spell nothing.
    #[error("the bytes spell nothing")]
    Bad,
    /// There is no memory for what they may spell.
    #[error("out of memory")]
    Memory,
}

impl From<Cut> for CodecRefused {
    ghost from_gives = { λ _ e. e ≡ Bad };

    fn from(_: Cut) -> CodecRefused {
        CodecRefused::Bad
    }
}

impl From<AllocError> for CodecRefused {
    ghost from_gives = { λ _ e. e ≡ Memory };

    fn from(_: AllocError) -> CodecRefused {
        CodecRefused::Memory
    }
}

impl<T: Drop> From<AllocFailed<T>> for CodecRefused {
    ghost from_gives = { λ _ e. e ≡ Memory };

    fn from(_: AllocFailed<T>) -> CodecRefused {
        CodecRefused::Memory
    }
}
