/// What one pump issued of one stream, under one version of a subscription: the messages that match the filter from an
/// offset up to another. Those that have numbers take them in their order from two runs, one on each track.
#[derive(Clone, Copy, Debug, PartialEq, Eq)]
pub struct Batch {
    /// The number of the version.
    pub version: u32,
    /// The shard, and the generation and the stream there.
    pub shard: u8,
    pub generation: u64,
    pub stream: u32,
    /// The first offset, and the one behind the last.
    pub from: u64,
    pub to: u64,
    /// The client's Maximum Packet Size at issue (MQTT 3.1.2.11.4): FFFFFFFF for none, 0 where the messages had expired.
    pub limit: u32,
    /// The first number on the track of QoS 1, and how many there are.
    pub first1: u64,
    pub count1: u16,
    /// The first number on the track of QoS 2, and how many there are.
    pub first2: u64,
    pub count2: u16,
}
