use shard_index::IndexOp;

/// The most bytes of a group's record: those of a generation's Stores, and 65,548 for each of 256 other operations, with what
/// stands around them.
pub const MOST_RECORD: usize = 33_600_000;

/// What comes of a group that a shard is asked to store.
#[derive(Drop)]
pub enum Plan {
    /// No operation is kept: there is nothing to write, and the group is stored.
    Nothing,
    /// There is no room in the newest generation for the messages that are kept, or no offsets.
    Full,
    /// More identifiers would be awaited than a shard may await.
    AwaitFull,
    /// The group is written, and then the index takes it.
    Stores(Stored),
}

/// What is stored of a group.
#[derive(Drop)]
pub struct Stored {
    /// The record that tells the operations that are kept.
    pub record: Vec<u8>,
    /// The same as the index takes them, in order. Their payloads are shared with the group.
    pub ops: Vec<IndexOp>,
}
