ghost use Rattle.std.specs.Prelude.{◌≡◌};
ghost use Rattle.mqtt_packet.specs.Packet.{plain};
ghost use Rattle.mqtt_packet.specs.Reading.{body_in, kind_in};
ghost use Rattle.mqtt_packet.specs.Spelling.{fixed_flags};
ghost use Rattle.mqtt_packet.specs.Taking.{GivesPart};

use crate::acks::{ack_in, auth_in, connack_in, disconnect_in, nothing_in};
use crate::connect::connect_in;
use crate::filters::{suback_in, subscribe_in, unsuback_in, unsubscribe_in};
use crate::message::publish_in;
use crate::packet::{AckKind, Packet};
use crate::refused::ReadRefused;
use std::alloc::Global;

// The numbers of the kinds (MQTT 2.1.2).
pub(crate) const CONNECT: u8 = 1;

pub(crate) const CONNACK: u8 = 2;

pub(crate) const PUBLISH: u8 = 3;

pub(crate) const PUBACK: u8 = 4;

pub(crate) const PUBREC: u8 = 5;

pub(crate) const PUBREL: u8 = 6;

pub(crate) const PUBCOMP: u8 = 7;

pub(crate) const SUBSCRIBE: u8 = 8;

pub(crate) const SUBACK: u8 = 9;

pub(crate) const UNSUBSCRIBE: u8 = 10;

pub(crate) const UNSUBACK: u8 = 11;

pub(crate) const PINGREQ: u8 = 12;

pub(crate) const PINGRESP: u8 = 13;

pub(crate) const DISCONNECT: u8 = 14;

pub(crate) const AUTH: u8 = 15;

// The flags of a kind that has no choice of them (MQTT 2.1.3).
pub(crate) fn fixed_flags(kind: u8) -> u8
    ensures { result ≡ fixed_flags kind }
{
    match kind {
        PUBREL | SUBSCRIBE | UNSUBSCRIBE => 2,
        _ => 0,
    }
}

// The body of a kind whose flags are fixed.
fn body_in(alloc: Global, kind: u8, body: &[u8]) -> Result<Packet, ReadRefused>
    ensures exact { GivesPart plain result (body_in kind body.now) }
{
    match kind {
        CONNECT => connect_in(alloc, body),
        CONNACK => connack_in(alloc, body),
        PUBACK => ack_in(alloc, AckKind::Puback, body),
        PUBREC => ack_in(alloc, AckKind::Pubrec, body),
        PUBREL => ack_in(alloc, AckKind::Pubrel, body),
        PUBCOMP => ack_in(alloc, AckKind::Pubcomp, body),
        SUBSCRIBE => subscribe_in(alloc, body),
        SUBACK => suback_in(alloc, body),
        UNSUBSCRIBE => unsubscribe_in(alloc, body),
        UNSUBACK => unsuback_in(alloc, body),
        PINGREQ => nothing_in(Packet::Pingreq, body),
        PINGRESP => nothing_in(Packet::Pingresp, body),
        DISCONNECT => disconnect_in(alloc, body),
        AUTH => auth_in(alloc, body),
        _ => Err(ReadRefused::Malformed),
    }
}

// The packet of a kind with these flags and this body (MQTT 2.1.2, 2.1.3).
pub(crate) fn kind_in(
    alloc: Global,
    kind: u8,
    flags: u8,
    body: &[u8],
) -> Result<Packet, ReadRefused>
    ensures exact { GivesPart plain result (kind_in kind flags body.now) }
{
    if kind == PUBLISH {
        return publish_in(alloc, flags, body);
    }
    if flags != fixed_flags(kind) {
        return Err(ReadRefused::Malformed);
    }
    body_in(alloc, kind, body)
}
