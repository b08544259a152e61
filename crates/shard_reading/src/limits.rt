/// The most bytes of each of the two logs of a manifest.
pub const MANIFEST_BYTES: u64 = 65_536;

/// The most bytes of a slot's log: the records of a generation, which take `MOST_SLOT` at most, and the gate behind them.
pub const SLOT_BYTES: u64 = 4_294_967_296;
