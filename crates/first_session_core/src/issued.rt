use first_mqtt_packet::Packet;
use first_session_terms::Entry;

/// What a pump issued: the entries, the packets that go out for them, and base, target and position of the sweep after it.
#[derive(Debug, Drop)]
pub struct Issued {
    pub entries: Vec<Entry>,
    pub packets: Vec<Packet>,
    pub base: u64,
    pub target: u64,
    pub position: u64,
}

/// One message as it is issued: its entry, the packet where it isn't silent, and the packet's length.
#[derive(Debug, Drop)]
pub struct Due {
    pub entry: Entry,
    pub packet: Option<Packet>,
    pub size: usize,
}
