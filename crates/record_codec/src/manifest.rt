use std::marker::Model;
use topic_name::Descriptor;

/// The generations of a shard, and what its broker was set to. Contracts see `KeptManifest`.
#[derive(Drop)]
pub struct Manifest {
    /// How many shards and workers there are.
    pub shards: u8,
    pub workers: u8,
    /// The number of the shard, from 0 on.
    pub shard: u8,
    /// The generations, oldest first.
    pub cuts: Vec<Descriptor>,
}

impl Model for Manifest {
    ghost use Rattle.record_codec.specs.Records.{KeptManifest};

    ghost Value = { KeptManifest };

    ghost view = { λ m. record {
      shards = m.shards;
      workers = m.workers;
      shard = m.shard;
      cuts = m.cuts.items;
    } };
}
