use topic_name::Config;

/// What a shard's disks are asked to hold: a broker's configuration, and which of its shards.
#[derive(Clone, Copy, Debug, PartialEq, Eq)]
pub struct Asked {
    /// What the broker was set to.
    pub config: Config,
    /// The shard's number, from 0 on.
    pub shard: u8,
}
