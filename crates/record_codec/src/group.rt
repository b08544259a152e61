ghost use Rattle.std.specs.Prelude.{◌≡◌};
ghost use Rattle.record_codec.specs.Records.{index_op};

use shard_index::{Awaited, IndexOp, Publisher};
use std::marker::Model;
use topic_name::{Message, Name};

/// What a group asks of a shard.
#[derive(Drop)]
pub enum Op {
    /// Stores a message at the next offset.
    Store(Message),
    /// An identifier of QoS 2 is awaited no more (MQTT 4.3.3).
    Release {
        /// The client identifier of its publisher.
        publisher: Name,
        /// The number of its publisher's session.
        incarnation: u64,
        /// The packet identifier.
        id: u16,
    },
    /// Nothing of a publisher's session is awaited any more.
    Forget {
        /// Its client identifier.
        publisher: Name,
        /// The number of its session.
        incarnation: u64,
    },
}

impl Op {
    /// What it does to an index.
    pub fn into_index(self) -> IndexOp
        ensures { result ≡ index_op self }
    {
        match self {
            Op::Store(message) => IndexOp::Add(message),
            Op::Release {
                publisher,
                incarnation,
                id,
            } => IndexOp::Release(Awaited {
                publisher,
                incarnation,
                id,
            }),
            Op::Forget {
                publisher,
                incarnation,
            } => IndexOp::Forget(Publisher {
                name: publisher,
                incarnation,
            }),
        }
    }
}

/// Operations that are stored together. Contracts see `KeptGroup`.
#[derive(Drop)]
pub struct Group {
    /// The offset of the first message.
    pub first: u64,
    /// The operations, in order.
    pub ops: Vec<Op>,
}

impl Model for Group {
    ghost use Rattle.record_codec.specs.Records.{KeptGroup};

    ghost Value = { KeptGroup };

    ghost view = { λ g. record { first = g.first; ops = g.ops.items } };
}
