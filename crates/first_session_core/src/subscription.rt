use first_topic_name::Filter;

/// The one subscription of a session: its filter, the options that it was asked with (MQTT 3.8.3.1), the offset that it
/// starts at, and how far it is: base, target and position of its sweep.
#[derive(Debug, Drop)]
pub struct Subscription {
    pub filter: Filter,
    pub options: u8,
    pub start: u64,
    pub base: u64,
    pub target: u64,
    pub position: u64,
}
