ghost use Rattle.std.specs.Prelude.{◌≡◌, ◌≤◌, ◌+◌, ◌*◌};
ghost use Rattle.mqtt_packet.specs.Packet.{plain};
ghost use Rattle.mqtt_packet.specs.Fits.{Fits, IfThere};
ghost use Rattle.mqtt_packet.specs.Spelling.{bit, kind_of, ack_number, publish_flags, flags_of, first_byte, will_flags};

use crate::kinds::{
    AUTH, CONNACK, CONNECT, DISCONNECT, PINGREQ, PINGRESP, PUBACK, PUBCOMP, PUBLISH, PUBREC,
    PUBREL, SUBACK, SUBSCRIBE, UNSUBACK, UNSUBSCRIBE, fixed_flags,
};
use crate::packet::{AckKind, Packet, Will};

impl AckKind {
    // The number of the kind (MQTT 2.1.2).
    pub(crate) fn number(self) -> u8
        ensures { result ≡ ack_number self }
    {
        match self {
            AckKind::Puback => PUBACK,
            AckKind::Pubrec => PUBREC,
            AckKind::Pubrel => PUBREL,
            AckKind::Pubcomp => PUBCOMP,
        }
    }
}

// The number of its kind (MQTT 2.1.2).
fn kind_of(packet: &Packet) -> u8
    ensures exact { result ≡ kind_of (plain packet.now) }
    ensures small { result ≤ 15 }
{
    match packet {
        Packet::Connect { .. } => CONNECT,
        Packet::Connack { .. } => CONNACK,
        Packet::Publish { .. } => PUBLISH,
        Packet::Puback { .. } => PUBACK,
        Packet::Pubrec { .. } => PUBREC,
        Packet::Pubrel { .. } => PUBREL,
        Packet::Pubcomp { .. } => PUBCOMP,
        Packet::Subscribe { .. } => SUBSCRIBE,
        Packet::Suback { .. } => SUBACK,
        Packet::Unsubscribe { .. } => UNSUBSCRIBE,
        Packet::Unsuback { .. } => UNSUBACK,
        Packet::Pingreq => PINGREQ,
        Packet::Pingresp => PINGRESP,
        Packet::Disconnect { .. } => DISCONNECT,
        Packet::Auth { .. } => AUTH,
    }
}

// 1 where it holds.
pub(crate) fn bit(test: bool) -> u8
    ensures exact { result ≡ bit test }
    ensures small { result ≤ 1 }
{
    u8::from(test)
}

// DUP, QoS and RETAIN (MQTT 3.3.1).
fn publish_flags(dup: bool, qos: u8, retain: bool) -> u8
    requires { qos ≤ 2 }
    ensures exact { result ≡ publish_flags dup qos retain }
    ensures small { result ≤ 13 }
{
    8 * bit(dup) + 2 * qos + bit(retain)
}

// The first byte: the kind and the flags (MQTT 2.1).
pub(crate) fn first_byte(packet: &Packet) -> u8
    requires { Fits (plain packet.now) }
    ensures { result ≡ first_byte (plain packet.now) }
{
    let kind = kind_of(packet);
    let flags = match packet {
        Packet::Publish {
            dup,
            qos,
            retain,
            ..
        } => publish_flags(*dup, *qos, *retain),
        _ => fixed_flags(kind),
    };
    16 * kind + flags
}

// Those of a will (MQTT 3.1.2.5 to 3.1.2.7).
fn will_flags(will: &Option<Will>) -> u8
    requires { IfThere (λ w. w.qos ≤ 2) will.now }
    ensures exact { result ≡ will_flags will.now }
    ensures small { result ≤ 52 }
{
    match will {
        Some(will) => 4 + 8 * will.qos + 32 * bit(will.retain),
        None => 0,
    }
}

// The flags of a CONNECT (MQTT 3.1.2.3).
pub(crate) fn connect_flags(clean: bool, will: &Option<Will>, user: bool, password: bool) -> u8
    requires { IfThere (λ w. w.qos ≤ 2) will.now }
    ensures { result ≡ 2 * bit clean + will_flags will.now + 64 * bit password + 128 * bit user }
{
    2 * bit(clean) + will_flags(will) + 64 * bit(password) + 128 * bit(user)
}
