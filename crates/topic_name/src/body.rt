ghost use Rattle.std.specs.Prelude.{◌≡◌, length, IfOk};
ghost use Rattle.topic_name.specs.BodyView.{payload_of, HasItsLength};

use crate::snapshots::copy_of;
use bytes::Bytes;
use std::alloc::AllocError;
use std::snapshot::Snapshot;

/// The payload of a message.
#[derive(Drop)]
pub enum Body {
    /// It is in memory. Its bytes are shared with each copy.
    Here(Bytes),
    /// It lies in a record on a disk.
    Cold {
        /// The slot disk.
        slot: u8,
        /// Where in the disk it begins.
        at: u64,
        /// How many bytes it has.
        len: u32,
        /// What was stored, which only proofs read.
        was: Snapshot<Bytes>,
    },
}

impl Body {
    // How many bytes it has.
    pub(crate) fn len(&self) -> usize
        requires { HasItsLength self.now }
        ensures { result ≡ length (payload_of self.now) }
    {
        match self {
            Body::Here(bytes) => bytes.len(),
            Body::Cold { len, .. } => *len as usize,
        }
    }

    /// One more owner of the same bytes, or the same place.
    pub fn copy(&self) -> Result<Body, AllocError>
        ensures { IfOk result (λ body. body ≡ self.now) }
    {
        match self {
            Body::Here(bytes) => {
                let bytes = bytes.clone()?;
                Ok(Body::Here(bytes))
            }
            Body::Cold { slot, at, len, was } => Ok(Body::Cold {
                slot: *slot,
                at: *at,
                len: *len,
                was: copy_of(was),
            }),
        }
    }
}
