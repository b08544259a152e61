ghost use Rattle.std.specs.Prelude.{◌≡◌, drop};
ghost use Rattle.mqtt_packet.specs.Fits.{ack_holder};
ghost use Rattle.mqtt_packet.specs.Packet.{plain, ack};
ghost use Rattle.mqtt_packet.specs.Reading.{props_if_there, reason_if_there, ack_in, connack_in, nothing_in, disconnect_in, auth_in};
ghost use Rattle.mqtt_packet.specs.Taking.{TakesPart, GivesPart};

use crate::packet::{AckKind, Packet};
use crate::parts::{byte_in, ends, id_in, props_in};
use crate::refused::ReadRefused;
use mqtt_props::{Holder, Props};
use std::alloc::Global;
use wire_fields::take_u8;

impl AckKind {
    /// What its properties stand in.
    pub(crate) fn holder(self) -> Holder
        ensures { result ≡ ack_holder self }
    {
        match self {
            AckKind::Puback => Holder::Puback,
            AckKind::Pubrec => Holder::Pubrec,
            AckKind::Pubrel => Holder::Pubrel,
            AckKind::Pubcomp => Holder::Pubcomp,
        }
    }

    // A packet of this kind.
    fn packet(self, id: u16, reason: u8, props: Props) -> Packet
        ensures { plain result ≡ ack self id reason props }
    {
        match self {
            AckKind::Puback => Packet::Puback { id, reason, props },
            AckKind::Pubrec => Packet::Pubrec { id, reason, props },
            AckKind::Pubrel => Packet::Pubrel { id, reason, props },
            AckKind::Pubcomp => Packet::Pubcomp { id, reason, props },
        }
    }
}

// The reason, and 0 where the body ends before it (MQTT 3.4.2.1, 3.14.2.1).
#[tactic(auto, using(crate::specs::PartLaws::no_reason))]
fn reason_if_there(bytes: &[u8], at: &mut usize) -> u8
    ensures { (result, drop at.new bytes.now) ≡ reason_if_there (drop at.old bytes.now) }
{
    match take_u8(bytes, at) {
        Ok(reason) => reason,
        Err(_) => 0,
    }
}

// The properties, and none where the body ends before their length (MQTT 3.4.2.2.1, 3.14.2.2.1).
fn props_if_there(
    alloc: Global,
    holder: Holder,
    bytes: &[u8],
    at: &mut usize,
) -> Result<Props, ReadRefused>
    ensures exact { TakesPart (λ p. p) result
        (props_if_there holder (drop at.old bytes.now)) bytes.now at.new }
{
    if *at < bytes.len() {
        return props_in(alloc, holder, bytes, at);
    }
    Ok(Props::new(alloc))
}

// The body of a PUBACK, PUBREC, PUBREL or PUBCOMP (MQTT 3.4 to 3.7).
#[tactic(auto, using(crate::specs::PartLaws::not_at_end))]
pub(crate) fn ack_in(alloc: Global, kind: AckKind, body: &[u8]) -> Result<Packet, ReadRefused>
    ensures exact { GivesPart plain result (ack_in kind body.now) }
{
    let mut at = 0;
    let id = id_in(body, &mut at)?;
    let reason = reason_if_there(body, &mut at);
    let props = props_if_there(alloc, kind.holder(), body, &mut at)?;
    ends(body, at)?;
    Ok(kind.packet(id, reason, props))
}

// The body of a CONNACK, in whose flags only bit 0 may be set (MQTT 3.2).
#[tactic(auto, using(crate::specs::PartLaws::not_at_end))]
pub(crate) fn connack_in(alloc: Global, body: &[u8]) -> Result<Packet, ReadRefused>
    ensures exact { GivesPart plain result (connack_in body.now) }
{
    let mut at = 0;
    let flags = byte_in(body, &mut at)?;
    if flags >= 2 {
        return Err(ReadRefused::Malformed);
    }
    let reason = byte_in(body, &mut at)?;
    let props = props_in(alloc, Holder::Connack, body, &mut at)?;
    ends(body, at)?;
    Ok(Packet::Connack {
        present: flags == 1,
        reason,
        props,
    })
}

// The body of a DISCONNECT (MQTT 3.14).
#[tactic(auto, using(crate::specs::PartLaws::not_at_end))]
pub(crate) fn disconnect_in(alloc: Global, body: &[u8]) -> Result<Packet, ReadRefused>
    ensures exact { GivesPart plain result (disconnect_in body.now) }
{
    let mut at = 0;
    let reason = reason_if_there(body, &mut at);
    let props = props_if_there(alloc, Holder::Disconnect, body, &mut at)?;
    ends(body, at)?;
    Ok(Packet::Disconnect { reason, props })
}

// The body of an AUTH: one that has a reason has properties, if only their length (MQTT 3.15).
#[tactic(auto, using(crate::specs::PartLaws::not_at_end))]
pub(crate) fn auth_in(alloc: Global, body: &[u8]) -> Result<Packet, ReadRefused>
    ensures exact { GivesPart plain result (auth_in body.now) }
{
    if body.is_empty() {
        return Ok(Packet::Auth {
            reason: 0,
            props: Props::new(alloc),
        });
    }
    let mut at = 0;
    let reason = byte_in(body, &mut at)?;
    let props = props_in(alloc, Holder::Auth, body, &mut at)?;
    ends(body, at)?;
    Ok(Packet::Auth { reason, props })
}

// The body of a packet that has none (MQTT 3.12, 3.13).
#[tactic(auto, using(crate::specs::PartLaws::not_at_end))]
pub(crate) fn nothing_in(packet: Packet, body: &[u8]) -> Result<Packet, ReadRefused>
    ensures exact { GivesPart plain result (nothing_in (plain packet) body.now) }
{
    if !body.is_empty() {
        return Err(ReadRefused::Malformed);
    }
    Ok(packet)
}
