/// One generation of a shard, as the shard's manifest names it. The model's cut has all of it but the slot.
#[derive(Clone, Copy, Debug, PartialEq, Eq)]
pub struct Descriptor {
    /// Its number. The generations of a shard have numbers that go up by one.
    pub number: u64,
    /// The slot disk that has its records, below 8.
    pub slot: u8,
    /// The offset that it begins at.
    pub first: u64,
    /// The thresholds of its learned topics, at the first level and below it.
    pub top: u16,
    pub below: u16,
    /// How many messages it takes.
    pub messages: u32,
    /// When it was sealed, in milliseconds; `None` for the newest, which is written.
    pub sealed: Option<u64>,
}
