/// The most identifiers that a shard awaits.
pub const MOST_AWAITED: usize = 4_096;

/// The most bytes that the records of a generation's slot take, each with its gate and length. An opening with 4,096
/// identifiers, whose publishers have 65,535 bytes each, and all that can follow take 2,702,733,336 at most.
pub const MOST_SLOT: u64 = 4_294_967_295;
