use shard_index::Awaited;
use std::marker::Model;

/// Where a generation begins. Contracts see `KeptOpening`.
#[derive(Drop)]
pub struct Opening {
    /// The generation's number.
    pub generation: u64,
    /// The offset that it begins at.
    pub first: u64,
    /// What is awaited then, in the order in which it became so.
    pub awaited: Vec<Awaited>,
}

impl Model for Opening {
    ghost use Rattle.record_codec.specs.Records.{KeptOpening};

    ghost Value = { KeptOpening };

    ghost view = { λ o. record {
      generation = o.generation;
      first = o.first;
      awaited = o.awaited.items;
    } };
}
