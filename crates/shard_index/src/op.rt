use crate::Awaited;
use topic_name::{Descriptor, Message, Name};

/// A session of a publisher.
#[derive(Debug, Drop)]
pub struct Publisher {
    /// The client identifier.
    pub name: Name,
    /// The number of the session.
    pub incarnation: u64,
}

/// What changes an index.
#[derive(Drop)]
pub enum IndexOp {
    /// A message behind the others. Of QoS 2 it makes its identifier awaited.
    Add(Message),
    /// An identifier is no longer awaited.
    Release(Awaited),
    /// Nothing of this session is awaited any more.
    Forget(Publisher),
    /// The newest generation is sealed, and a new one begins.
    Rotate {
        /// When the newest one was sealed, in milliseconds.
        now: u64,
        /// The new one.
        cut: Descriptor,
    },
    /// The oldest generation goes, with its messages.
    Drop,
}
