ghost use Rattle.std.specs.Prelude.{◌≡◌, drop, IfErr};
ghost use Rattle.mqtt_packet.specs.declared.refused.ReadRefused;
ghost use Rattle.mqtt_packet.specs.Packet.{plain};
ghost use Rattle.mqtt_packet.specs.Reading.{is_mqtt_5, protocol_at, start_at, will_of, will_at, if_told, login_at, name_at, blob_at, connect_in};
ghost use Rattle.mqtt_packet.specs.Taking.{TakesPart, GivesPart};

use crate::flags::{ConnectFlags, WillFlags, flags_in};
use crate::packet::{Packet, Will};
use crate::parts::{blob_in, byte_in, ends, name_in, props_in, topic_in, two_in};
use crate::refused::ReadRefused;
use mqtt_props::Holder;
use std::alloc::Global;
use topic_name::{Blob, Name};
use wire_fields::take_text;

/// The version of the protocol that is read (MQTT 3.1.2.2).
pub(crate) const VERSION: u8 = 5;

// Whether these are the protocol's name and its version (MQTT 3.1.2.1, 3.1.2.2).
pub(crate) fn is_mqtt_5(name: &[u8], version: u8) -> bool
    ensures { result ≡ is_mqtt_5 name.now version }
{
    name == b"MQTT".as_slice() && version == VERSION
}

// The name of the protocol and its version.
pub(crate) fn protocol_in<'a>(
    bytes: &'a [u8],
    at: &mut usize,
) -> Result<(&'a [u8], u8), ReadRefused>
    ensures exact { TakesPart (λ p. (p.0.now, p.1)) result
        (protocol_at (drop at.old bytes.now)) bytes.now at.new }
    ensures refused { IfErr result (λ e. e ≡ ReadRefused.Malformed) }
{
    let name = take_text(bytes, at)?;
    let version = byte_in(bytes, at)?;
    Ok((name, version))
}

// What stands in front of the properties: flags and keep alive.
fn start_in(bytes: &[u8], at: &mut usize) -> Result<(ConnectFlags, u16), ReadRefused>
    ensures exact { TakesPart (λ s. s) result
        (start_at (drop at.old bytes.now)) bytes.now at.new }
{
    let (name, version) = protocol_in(bytes, at)?;
    if !is_mqtt_5(name, version) {
        return Err(ReadRefused::Malformed);
    }
    let flags = byte_in(bytes, at)?;
    let Some(flags) = flags_in(flags) else {
        return Err(ReadRefused::Malformed);
    };
    let keep_alive = two_in(bytes, at)?;
    Ok((flags, keep_alive))
}

// The will with these flags: its properties, its topic and its payload (MQTT 3.1.3.2 to 3.1.3.4).
fn will_of(
    alloc: Global,
    flags: WillFlags,
    bytes: &[u8],
    at: &mut usize,
) -> Result<Will, ReadRefused>
    ensures exact { TakesPart (λ w. w) result
        (will_of flags (drop at.old bytes.now)) bytes.now at.new }
{
    let props = props_in(alloc, Holder::Will, bytes, at)?;
    let topic = topic_in(alloc, bytes, at)?;
    let payload = blob_in(alloc, bytes, at)?;
    Ok(Will {
        qos: flags.qos,
        retain: flags.retain,
        props,
        topic,
        payload,
    })
}

fn will_in(
    alloc: Global,
    flags: Option<WillFlags>,
    bytes: &[u8],
    at: &mut usize,
) -> Result<Option<Will>, ReadRefused>
    ensures exact { TakesPart (λ w. w) result
        (will_at flags (drop at.old bytes.now)) bytes.now at.new }
{
    let Some(flags) = flags else {
        return Ok(None);
    };
    Ok(Some(will_of(alloc, flags, bytes, at)?))
}

fn user_in(
    alloc: Global,
    told: bool,
    bytes: &[u8],
    at: &mut usize,
) -> Result<Option<Name>, ReadRefused>
    ensures exact { TakesPart (λ n. n) result
        (if_told told name_at (drop at.old bytes.now)) bytes.now at.new }
{
    if !told {
        return Ok(None);
    }
    Ok(Some(name_in(alloc, bytes, at)?))
}

fn password_in(
    alloc: Global,
    told: bool,
    bytes: &[u8],
    at: &mut usize,
) -> Result<Option<Blob>, ReadRefused>
    ensures exact { TakesPart (λ b. b) result
        (if_told told blob_at (drop at.old bytes.now)) bytes.now at.new }
{
    if !told {
        return Ok(None);
    }
    Ok(Some(blob_in(alloc, bytes, at)?))
}

// User name and password (MQTT 3.1.3.5, 3.1.3.6).
fn login_in(
    alloc: Global,
    flags: ConnectFlags,
    bytes: &[u8],
    at: &mut usize,
) -> Result<(Option<Name>, Option<Blob>), ReadRefused>
    ensures exact { TakesPart (λ l. l) result
        (login_at flags (drop at.old bytes.now)) bytes.now at.new }
{
    let user = user_in(alloc, flags.user, bytes, at)?;
    let password = password_in(alloc, flags.password, bytes, at)?;
    Ok((user, password))
}

// The body of a CONNECT (MQTT 3.1).
#[tactic(auto, using(crate::specs::PartLaws::not_at_end))]
pub(crate) fn connect_in(alloc: Global, body: &[u8]) -> Result<Packet, ReadRefused>
    ensures exact { GivesPart plain result (connect_in body.now) }
{
    let mut at = 0;
    let (flags, keep_alive) = start_in(body, &mut at)?;
    let props = props_in(alloc, Holder::Connect, body, &mut at)?;
    let client = name_in(alloc, body, &mut at)?;
    let will = will_in(alloc, flags.will, body, &mut at)?;
    let (user, password) = login_in(alloc, flags, body, &mut at)?;
    ends(body, at)?;
    Ok(Packet::Connect {
        clean: flags.clean,
        keep_alive,
        props,
        client,
        will,
        user,
        password,
    })
}
