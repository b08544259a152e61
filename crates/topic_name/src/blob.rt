ghost use Rattle.std.specs.Prelude.{◌≡◌, [], IfOk};

use bytes::Bytes;
use std::alloc::{AllocError, Global};
use std::marker::Model;

/// Bytes that are shared and never written: a payload, or properties as they came. Seen as the bytes.
#[derive(Debug, Drop)]
pub struct Blob {
    shared: Bytes,
}

impl Model for Blob {
    ghost use Rattle.std.specs.Prelude.{List, ℕ};

    ghost Value = { List ℕ };

    ghost view = { λ b. b.shared };
}

impl Blob {
    /// No bytes.
    pub fn empty() -> Blob
        ensures { result ≡ [] }
    {
        Blob {
            shared: Bytes::new(),
        }
    }

    /// A copy of the bytes.
    pub fn of(alloc: Global, bytes: &[u8]) -> Result<Blob, AllocError>
        ensures { IfOk result (λ b. b ≡ bytes.now) }
    {
        let shared = Bytes::copy_from_slice(alloc, bytes)?;
        Ok(Blob { shared })
    }

    pub fn bytes(&self) -> &[u8]
        ensures { result.now ≡ self.now }
    {
        self.shared.as_slice()
    }

    /// One more owner of the same bytes.
    pub fn copy(&self) -> Result<Blob, AllocError>
        ensures { IfOk result (λ b. b ≡ self.now) }
    {
        let shared = self.shared.clone()?;
        Ok(Blob { shared })
    }
}
