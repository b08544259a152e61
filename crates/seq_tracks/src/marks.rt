/// The most numbers that both tracks of a session may have in use together: the widest window.
pub const WIDEST_WINDOW: u16 = 2_048;

/// How far the tracks of a session are (MQTT 4.3.2, 4.3.3).
#[derive(Clone, Copy, Debug, PartialEq, Eq)]
pub struct Marks {
    /// The last number that track 1 has given.
    pub issued1: u64,
    /// All of track 1 up to this number are acknowledged.
    pub acked: u64,
    /// The last number that track 2 has given.
    pub issued2: u64,
    /// PUBREC came for all of track 2 up to this number.
    pub received: u64,
    /// All of track 2 up to this number are done.
    pub complete: u64,
}
