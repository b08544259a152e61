ghost use Rattle.std.specs.Prelude.{◌≡◌, IfOk};
ghost use Rattle.std.specs.Option.{option_map};
ghost use Rattle.mqtt_packet.specs.Packet.{plain};
ghost use Rattle.mqtt_packet.specs.Fits.{IsPacket};
ghost use Rattle.mqtt_packet.specs.Spells.{Spells};
ghost use Rattle.mqtt_packet.specs.Reading.{framed_in};
ghost use Rattle.mqtt_packet.specs.Answer.{answer, is_other, protocol_in, AnswersAs};

use crate::connect::{is_mqtt_5, protocol_in};
use crate::kinds::{CONNECT, kind_in};
use crate::packet::Packet;
use crate::refused::ReadRefused;
use crate::rules::broken_rule;
use std::alloc::Global;
use wire_fields::take_var;

/// The first byte of a CONNECT (MQTT 3.1.1).
const CONNECT_BYTE: u8 = 16 * CONNECT;

// The first byte and the body, whose length is the one that is told (MQTT 2.1).
fn framed_in(bytes: &[u8]) -> Option<(u8, &[u8])>
    ensures { option_map (λ f. (f.0, f.1.now)) result ≡ framed_in bytes.now }
{
    let [first, ..] = bytes else {
        return None;
    };
    let mut at = 1;
    let Ok(size) = take_var(bytes, &mut at) else {
        return None;
    };
    let body = &bytes[at..];
    if size as usize != body.len() {
        return None;
    }
    Some((*first, body))
}

// Whether a first byte and a body are a CONNECT of another protocol or version (MQTT 3.1.2.1, 3.1.2.2).
fn is_other_version(first: u8, body: &[u8]) -> bool
    ensures { result ≡ is_other (protocol_in (first, body.now)) }
{
    if first != CONNECT_BYTE {
        return false;
    }
    let mut at = 0;
    match protocol_in(body, &mut at) {
        Ok((name, version)) => !is_mqtt_5(name, version),
        Err(_) => false,
    }
}

/// Reads one whole packet. `Version` comes before all else; then `Malformed` where the bytes spell no packet; then
/// `Protocol` with the least rule that the packet breaks. Properties stand in any order in the bytes, and by ascending
/// identifier in the packet (MQTT 2, 3, 4.13.1).
pub fn read(alloc: Global, bytes: &[u8]) -> Result<Packet, ReadRefused>
    // What it gives, computed.
    ensures exact { AnswersAs plain result (answer bytes.now) }
    // What is read was spelled so, and can be written.
    ensures spells { IfOk result (λ p. Spells bytes.now (plain p)) }
    ensures fits { IfOk result (λ p. IsPacket (plain p)) }
{
    let Some((first, body)) = framed_in(bytes) else {
        return Err(ReadRefused::Malformed);
    };
    if is_other_version(first, body) {
        return Err(ReadRefused::Version);
    }
    let packet = kind_in(alloc, first / 16, first % 16, body)?;
    if let Some(rule) = broken_rule(&packet) {
        drop(packet);
        return Err(ReadRefused::Protocol(rule));
    }
    Ok(packet)
}
