ghost use Rattle.std.specs.Prelude.{◌≡◌};
ghost use Rattle.mqtt_props.specs.Table.{value_type, stands_in, may_repeat};

/// Payload Format Indicator, a byte (MQTT 3.3.2.3.2, 3.1.3.2.3).
pub const PAYLOAD_FORMAT_INDICATOR: u8 = 0x01;
/// Message Expiry Interval, four bytes, in seconds (MQTT 3.3.2.3.3, 3.1.3.2.4).
pub const MESSAGE_EXPIRY_INTERVAL: u8 = 0x02;
/// Content Type, a text (MQTT 3.3.2.3.9, 3.1.3.2.5).
pub const CONTENT_TYPE: u8 = 0x03;
/// Response Topic, a text (MQTT 3.3.2.3.5, 3.1.3.2.6).
pub const RESPONSE_TOPIC: u8 = 0x08;
/// Correlation Data, binary (MQTT 3.3.2.3.6, 3.1.3.2.7).
pub const CORRELATION_DATA: u8 = 0x09;
/// Subscription Identifier, a variable byte integer (MQTT 3.3.2.3.8, 3.8.2.1.2).
pub const SUBSCRIPTION_IDENTIFIER: u8 = 0x0B;
/// Session Expiry Interval, four bytes, in seconds (MQTT 3.1.2.11.2, 3.2.2.3.2, 3.14.2.2.2).
pub const SESSION_EXPIRY_INTERVAL: u8 = 0x11;
/// Assigned Client Identifier, a text (MQTT 3.2.2.3.7).
pub const ASSIGNED_CLIENT_IDENTIFIER: u8 = 0x12;
/// Server Keep Alive, two bytes, in seconds (MQTT 3.2.2.3.14).
pub const SERVER_KEEP_ALIVE: u8 = 0x13;
/// Authentication Method, a text (MQTT 3.1.2.11.9, 3.2.2.3.17, 3.15.2.2.2).
pub const AUTHENTICATION_METHOD: u8 = 0x15;
/// Authentication Data, binary (MQTT 3.1.2.11.10, 3.2.2.3.18, 3.15.2.2.3).
pub const AUTHENTICATION_DATA: u8 = 0x16;
/// Request Problem Information, a byte (MQTT 3.1.2.11.7).
pub const REQUEST_PROBLEM_INFORMATION: u8 = 0x17;
/// Will Delay Interval, four bytes, in seconds (MQTT 3.1.3.2.2).
pub const WILL_DELAY_INTERVAL: u8 = 0x18;
/// Request Response Information, a byte (MQTT 3.1.2.11.6).
pub const REQUEST_RESPONSE_INFORMATION: u8 = 0x19;
/// Response Information, a text (MQTT 3.2.2.3.15).
pub const RESPONSE_INFORMATION: u8 = 0x1A;
/// Server Reference, a text (MQTT 3.2.2.3.16, 3.14.2.2.5).
pub const SERVER_REFERENCE: u8 = 0x1C;
/// Reason String, a text (MQTT 3.2.2.3.9, 3.4.2.2.2, 3.14.2.2.3).
pub const REASON_STRING: u8 = 0x1F;
/// Receive Maximum, two bytes (MQTT 3.1.2.11.3, 3.2.2.3.3).
pub const RECEIVE_MAXIMUM: u8 = 0x21;
/// Topic Alias Maximum, two bytes (MQTT 3.1.2.11.5, 3.2.2.3.8).
pub const TOPIC_ALIAS_MAXIMUM: u8 = 0x22;
/// Topic Alias, two bytes (MQTT 3.3.2.3.4).
pub const TOPIC_ALIAS: u8 = 0x23;
/// Maximum QoS, a byte (MQTT 3.2.2.3.4).
pub const MAXIMUM_QOS: u8 = 0x24;
/// Retain Available, a byte (MQTT 3.2.2.3.5).
pub const RETAIN_AVAILABLE: u8 = 0x25;
/// User Property, a pair of texts (MQTT 3.1.2.11.8 and in each packet that has it).
pub const USER_PROPERTY: u8 = 0x26;
/// Maximum Packet Size, four bytes (MQTT 3.1.2.11.4, 3.2.2.3.6).
pub const MAXIMUM_PACKET_SIZE: u8 = 0x27;
/// Wildcard Subscription Available, a byte (MQTT 3.2.2.3.11).
pub const WILDCARD_SUBSCRIPTION_AVAILABLE: u8 = 0x28;
/// Subscription Identifiers Available, a byte (MQTT 3.2.2.3.12).
pub const SUBSCRIPTION_IDENTIFIER_AVAILABLE: u8 = 0x29;
/// Shared Subscription Available, a byte (MQTT 3.2.2.3.13).
pub const SHARED_SUBSCRIPTION_AVAILABLE: u8 = 0x2A;

/// What a list of properties stands in: a packet of one of the fifteen kinds, or the will of a CONNECT.
#[derive(Clone, Copy, Debug, PartialEq, Eq)]
pub enum Holder {
    Connect,
    Connack,
    Publish,
    Puback,
    Pubrec,
    Pubrel,
    Pubcomp,
    Subscribe,
    Suback,
    Unsubscribe,
    Unsuback,
    Pingreq,
    Pingresp,
    Disconnect,
    Auth,
    /// The payload of a CONNECT, between its client identifier and the will's topic (MQTT 3.1.3.2).
    Will,
}

/// The type of a property's value (MQTT 1.5, 2.2.2.2).
#[derive(Clone, Copy, Debug, PartialEq, Eq)]
pub enum ValueType {
    OneByte,
    TwoBytes,
    FourBytes,
    Variable,
    OneText,
    Binary,
    TwoTexts,
}

const BYTES: [u8; 8] = [
    PAYLOAD_FORMAT_INDICATOR,
    REQUEST_PROBLEM_INFORMATION,
    REQUEST_RESPONSE_INFORMATION,
    MAXIMUM_QOS,
    RETAIN_AVAILABLE,
    WILDCARD_SUBSCRIPTION_AVAILABLE,
    SUBSCRIPTION_IDENTIFIER_AVAILABLE,
    SHARED_SUBSCRIPTION_AVAILABLE,
];

const TWOS: [u8; 4] = [
    SERVER_KEEP_ALIVE,
    RECEIVE_MAXIMUM,
    TOPIC_ALIAS_MAXIMUM,
    TOPIC_ALIAS,
];

const FOURS: [u8; 4] = [
    MESSAGE_EXPIRY_INTERVAL,
    SESSION_EXPIRY_INTERVAL,
    WILL_DELAY_INTERVAL,
    MAXIMUM_PACKET_SIZE,
];

const TEXTS: [u8; 7] = [
    CONTENT_TYPE,
    RESPONSE_TOPIC,
    ASSIGNED_CLIENT_IDENTIFIER,
    AUTHENTICATION_METHOD,
    RESPONSE_INFORMATION,
    SERVER_REFERENCE,
    REASON_STRING,
];

const BINARIES: [u8; 2] = [CORRELATION_DATA, AUTHENTICATION_DATA];

/// The type of the value of a property with this identifier. There is none where the standard has no such property.
pub fn value_type(identifier: u8) -> Option<ValueType>
    ensures { result ≡ value_type identifier }
{
    if BYTES.contains(&identifier) {
        Some(ValueType::OneByte)
    } else if TWOS.contains(&identifier) {
        Some(ValueType::TwoBytes)
    } else if FOURS.contains(&identifier) {
        Some(ValueType::FourBytes)
    } else if identifier == SUBSCRIPTION_IDENTIFIER {
        Some(ValueType::Variable)
    } else if TEXTS.contains(&identifier) {
        Some(ValueType::OneText)
    } else if BINARIES.contains(&identifier) {
        Some(ValueType::Binary)
    } else if identifier == USER_PROPERTY {
        Some(ValueType::TwoTexts)
    } else {
        None
    }
}

const IN_CONNECT: [u8; 9] = [
    SESSION_EXPIRY_INTERVAL,
    AUTHENTICATION_METHOD,
    AUTHENTICATION_DATA,
    REQUEST_PROBLEM_INFORMATION,
    REQUEST_RESPONSE_INFORMATION,
    RECEIVE_MAXIMUM,
    TOPIC_ALIAS_MAXIMUM,
    USER_PROPERTY,
    MAXIMUM_PACKET_SIZE,
];

const IN_CONNACK: [u8; 17] = [
    SESSION_EXPIRY_INTERVAL,
    ASSIGNED_CLIENT_IDENTIFIER,
    SERVER_KEEP_ALIVE,
    AUTHENTICATION_METHOD,
    AUTHENTICATION_DATA,
    RESPONSE_INFORMATION,
    SERVER_REFERENCE,
    REASON_STRING,
    RECEIVE_MAXIMUM,
    TOPIC_ALIAS_MAXIMUM,
    MAXIMUM_QOS,
    RETAIN_AVAILABLE,
    USER_PROPERTY,
    MAXIMUM_PACKET_SIZE,
    WILDCARD_SUBSCRIPTION_AVAILABLE,
    SUBSCRIPTION_IDENTIFIER_AVAILABLE,
    SHARED_SUBSCRIPTION_AVAILABLE,
];

const IN_PUBLISH: [u8; 8] = [
    PAYLOAD_FORMAT_INDICATOR,
    MESSAGE_EXPIRY_INTERVAL,
    CONTENT_TYPE,
    RESPONSE_TOPIC,
    CORRELATION_DATA,
    SUBSCRIPTION_IDENTIFIER,
    TOPIC_ALIAS,
    USER_PROPERTY,
];

const IN_ANSWER: [u8; 2] = [REASON_STRING, USER_PROPERTY];

const IN_SUBSCRIBE: [u8; 2] = [SUBSCRIPTION_IDENTIFIER, USER_PROPERTY];

const IN_DISCONNECT: [u8; 4] = [
    SESSION_EXPIRY_INTERVAL,
    SERVER_REFERENCE,
    REASON_STRING,
    USER_PROPERTY,
];

const IN_AUTH: [u8; 4] = [
    AUTHENTICATION_METHOD,
    AUTHENTICATION_DATA,
    REASON_STRING,
    USER_PROPERTY,
];

const IN_WILL: [u8; 7] = [
    PAYLOAD_FORMAT_INDICATOR,
    MESSAGE_EXPIRY_INTERVAL,
    CONTENT_TYPE,
    RESPONSE_TOPIC,
    CORRELATION_DATA,
    WILL_DELAY_INTERVAL,
    USER_PROPERTY,
];

/// Whether a property with this identifier may stand in such a list (MQTT 2.2.2.2, table 2-4).
pub fn stands_in(identifier: u8, holder: Holder) -> bool
    ensures { result ≡ stands_in identifier holder }
{
    match holder {
        Holder::Connect => IN_CONNECT.contains(&identifier),
        Holder::Connack => IN_CONNACK.contains(&identifier),
        Holder::Publish => IN_PUBLISH.contains(&identifier),
        Holder::Puback => IN_ANSWER.contains(&identifier),
        Holder::Pubrec => IN_ANSWER.contains(&identifier),
        Holder::Pubrel => IN_ANSWER.contains(&identifier),
        Holder::Pubcomp => IN_ANSWER.contains(&identifier),
        Holder::Subscribe => IN_SUBSCRIBE.contains(&identifier),
        Holder::Suback => IN_ANSWER.contains(&identifier),
        Holder::Unsubscribe => identifier == USER_PROPERTY,
        Holder::Unsuback => IN_ANSWER.contains(&identifier),
        Holder::Pingreq => false,
        Holder::Pingresp => false,
        Holder::Disconnect => IN_DISCONNECT.contains(&identifier),
        Holder::Auth => IN_AUTH.contains(&identifier),
        Holder::Will => IN_WILL.contains(&identifier),
    }
}

/// Whether a list of this holder may have several properties with this identifier: User Properties, and in PUBLISH
/// Subscription Identifiers (MQTT 3.3.2.3.7, 3.3.2.3.8).
pub fn may_repeat(identifier: u8, holder: Holder) -> bool
    ensures { result ≡ may_repeat identifier holder }
{
    match holder {
        Holder::Publish => identifier == USER_PROPERTY || identifier == SUBSCRIPTION_IDENTIFIER,
        _ => identifier == USER_PROPERTY,
    }
}
