use mqtt_props::Props;
use topic_name::{Blob, Name};

/// A filter with its subscription options (MQTT 3.8.3).
#[derive(Debug, Drop)]
pub struct Wish {
    pub filter: Name,
    /// QoS in bits 1 and 0, No Local in bit 2, Retain As Published in bit 3, Retain Handling in bits 5 and 4
    /// (MQTT 3.8.3.1).
    pub options: u8,
}

/// What the server publishes for a client that is gone (MQTT 3.1.2.5).
#[derive(Debug, Drop)]
pub struct Will {
    pub qos: u8,
    pub retain: bool,
    pub props: Props,
    pub topic: Name,
    pub payload: Blob,
}

/// A packet (MQTT 3). Definitions see a `PlainPacket`.
#[derive(Debug, Drop)]
pub enum Packet {
    /// A client asks for a connection (MQTT 3.1).
    Connect {
        /// Clean Start (MQTT 3.1.2.4).
        clean: bool,
        /// In seconds, 0 for none (MQTT 3.1.2.10).
        keep_alive: u16,
        props: Props,
        client: Name,
        will: Option<Will>,
        user: Option<Name>,
        password: Option<Blob>,
    },
    /// The answer to a CONNECT (MQTT 3.2).
    Connack {
        /// Session Present (MQTT 3.2.2.1.1).
        present: bool,
        reason: u8,
        props: Props,
    },
    /// A message, either way (MQTT 3.3).
    Publish {
        dup: bool,
        qos: u8,
        retain: bool,
        topic: Name,
        /// 0 where the QoS is 0 (MQTT 3.3.2.2).
        id: u16,
        props: Props,
        payload: Blob,
    },
    /// The answer to a PUBLISH of QoS 1 (MQTT 3.4).
    Puback {
        id: u16,
        reason: u8,
        props: Props,
    },
    /// The first answer to a PUBLISH of QoS 2 (MQTT 3.5).
    Pubrec {
        id: u16,
        reason: u8,
        props: Props,
    },
    /// The answer to a PUBREC (MQTT 3.6).
    Pubrel {
        id: u16,
        reason: u8,
        props: Props,
    },
    /// The answer to a PUBREL (MQTT 3.7).
    Pubcomp {
        id: u16,
        reason: u8,
        props: Props,
    },
    /// A client asks for what its filters match (MQTT 3.8).
    Subscribe {
        id: u16,
        props: Props,
        filters: Vec<Wish>,
    },
    /// The answer to a SUBSCRIBE, a reason for each filter (MQTT 3.9).
    Suback {
        id: u16,
        props: Props,
        reasons: Blob,
    },
    /// A client ends subscriptions (MQTT 3.10).
    Unsubscribe {
        id: u16,
        props: Props,
        filters: Vec<Name>,
    },
    /// The answer to an UNSUBSCRIBE, a reason for each filter (MQTT 3.11).
    Unsuback {
        id: u16,
        props: Props,
        reasons: Blob,
    },
    /// A client tells that it is there (MQTT 3.12).
    Pingreq,
    /// The answer to a PINGREQ (MQTT 3.13).
    Pingresp,
    /// The last packet of a connection, either way (MQTT 3.14).
    Disconnect {
        reason: u8,
        props: Props,
    },
    /// A step of enhanced authentication, either way (MQTT 3.15).
    Auth {
        reason: u8,
        props: Props,
    },
}

/// The four kinds that acknowledge one another: an identifier, a reason and properties (MQTT 3.4 to 3.7).
#[derive(Clone, Copy, Debug, PartialEq, Eq)]
pub enum AckKind {
    Puback,
    Pubrec,
    Pubrel,
    Pubcomp,
}
