/// How a message goes out: on the track of QoS 1 or of QoS 2 with a number, as QoS 0, or not at all.
#[derive(Clone, Copy, Debug, PartialEq, Eq)]
pub enum Kind {
    Track1(u64),
    Track2(u64),
    Zero,
    Silent,
}

/// One message for one subscription, under the version that the subscription had.
#[derive(Clone, Copy, Debug, PartialEq, Eq)]
pub struct Entry {
    pub subscription: u32,
    pub version: u32,
    pub shard: u8,
    pub offset: u64,
    pub kind: Kind,
}

/// The options byte (MQTT 3.8.3.1) and the Subscription Identifier (0 for none) that a subscription has for a time.
#[derive(Clone, Copy, Debug, PartialEq, Eq)]
pub struct Version {
    pub number: u32,
    pub subscription: u32,
    pub options: u8,
    pub identifier: u32,
}
