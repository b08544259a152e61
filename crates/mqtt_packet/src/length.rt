ghost use Rattle.std.specs.Prelude.{◌≡◌, ◌≤◌, ◌+◌, length, All};
ghost use Rattle.std.specs.List.{sum_by};
ghost use Rattle.mqtt_props.specs.Prop.{IsShortText};
ghost use Rattle.mqtt_props.specs.Props.{spelled_bare, if_var};
ghost use Rattle.mqtt_props.specs.Sizes.{props_size};
ghost use Rattle.mqtt_packet.specs.Packet.{plain};
ghost use Rattle.mqtt_packet.specs.Fits.{Fits, FitsWill, IfThere, IsWish};
ghost use Rattle.mqtt_packet.specs.Putting.{IsTold, AreTold, IsShort};
ghost use Rattle.mqtt_packet.specs.Rules.{list_of_will};
ghost use Rattle.mqtt_packet.specs.Sizes.{sized, sized_if, will_size, id_size, rest_size, auth_size, wish_size, body_size, told_size};

use crate::packet::{Packet, Will, Wish};
use mqtt_props::Props;
use topic_name::{Blob, Name};
use wire_fields::{MOST_BIN, MOST_VAR, var_length};

// The number itself, where a Remaining Length tells it (MQTT 2.1.4).
fn if_var(size: usize) -> Option<u32>
    ensures { result ≡ if_var size }
{
    if size > MOST_VAR as usize {
        return None;
    }
    Some(size as u32)
}

// A text or binary data behind its length in two bytes.
fn sized(bytes: &[u8]) -> usize
    requires { length bytes.now ≤ MOST_BIN }
    ensures exact { result ≡ sized bytes.now }
    ensures few { result ≤ 65537 }
{
    2 + bytes.len()
}

fn will_size(will: &Option<Will>) -> usize
    requires told { IfThere IsTold (list_of_will will.now) }
    requires fits { IfThere FitsWill will.now }
    ensures exact { result ≡ will_size will.now }
    ensures few { result ≤ 268566533 }
{
    match will {
        Some(will) => {
            will.props.written_length() + sized(will.topic.bytes()) + sized(will.payload.bytes())
        }
        None => 0,
    }
}

fn user_size(user: &Option<Name>) -> usize
    requires { IfThere IsShort user.now }
    ensures exact { result ≡ sized_if user.now }
    ensures few { result ≤ 65537 }
{
    match user {
        Some(user) => sized(user.bytes()),
        None => 0,
    }
}

fn password_size(password: &Option<Blob>) -> usize
    requires { IfThere IsShort password.now }
    ensures exact { result ≡ sized_if password.now }
    ensures few { result ≤ 65537 }
{
    match password {
        Some(password) => sized(password.bytes()),
        None => 0,
    }
}

// The payload of a CONNECT (MQTT 3.1.3).
fn payload_size(
    client: &Name,
    will: &Option<Will>,
    user: &Option<Name>,
    password: &Option<Blob>,
) -> usize
    requires client { IsShort client.now }
    requires told { IfThere IsTold (list_of_will will.now) }
    requires fits { IfThere FitsWill will.now }
    requires user { IfThere IsShort user.now }
    requires password { IfThere IsShort password.now }
    ensures exact { result ≡ sized client.now + will_size will.now
        + sized_if user.now + sized_if password.now }
    ensures few { result ≤ 269000000 }
{
    sized(client.bytes()) + will_size(will) + user_size(user) + password_size(password)
}

// The topic name of a PUBLISH, and its identifier where the QoS is above 0.
fn topic_size(topic: &Name, qos: u8) -> usize
    requires { IsShort topic.now }
    ensures exact { result ≡ sized topic.now + id_size qos }
    ensures few { result ≤ 65539 }
{
    let id = if qos > 0 { 2 } else { 0 };
    sized(topic.bytes()) + id
}

// Reason and properties of an acknowledgement or a DISCONNECT, in the shortest form (MQTT 3.4.2.1, 3.14.2.1).
fn rest_size(reason: u8, props: &Props) -> usize
    requires { length (spelled_bare props.now) ≤ MOST_VAR }
    ensures exact { result ≡ rest_size reason props.now }
    ensures few { result ≤ 268435460 }
{
    if !props.list().is_empty() {
        1 + props.written_length()
    } else if reason > 0 {
        1
    } else {
        0
    }
}

// The same of an AUTH (MQTT 3.15.2.1).
fn auth_size(reason: u8, props: &Props) -> usize
    requires { length (spelled_bare props.now) ≤ MOST_VAR }
    ensures exact { result ≡ auth_size reason props.now }
    ensures few { result ≤ 268435460 }
{
    if !props.list().is_empty() || reason > 0 {
        1 + props.written_length()
    } else {
        0
    }
}

// Filters with their options.
fn wishes_size(wishes: &[Wish]) -> Option<u32>
    requires { All IsWish wishes.now }
    ensures { result ≡ if_var (sum_by wish_size wishes.now) }
{
    let mut total = 0;
    for wish in wishes {
        total += sized(wish.filter.bytes()) + 1;
        if total > MOST_VAR as usize {
            return None;
        }
    }
    Some(total as u32)
}

// Filters.
fn names_size(names: &[Name]) -> Option<u32>
    requires { All IsShortText names.now }
    ensures { result ≡ if_var (sum_by sized names.now) }
{
    let mut total = 0;
    for name in names {
        total += sized(name.bytes());
        if total > MOST_VAR as usize {
            return None;
        }
    }
    Some(total as u32)
}

// What stands behind the length, where a Remaining Length tells it (MQTT 2.1.4).
pub(crate) fn body_size(packet: &Packet) -> Option<u32>
    requires fits { Fits (plain packet.now) }
    requires told { AreTold (plain packet.now) }
    ensures { result ≡ if_var (body_size (plain packet.now)) }
{
    match packet {
        Packet::Connect {
            props,
            client,
            will,
            user,
            password,
            ..
        } => if_var(10 + props.written_length() + payload_size(client, will, user, password)),
        Packet::Connack { props, .. } => if_var(2 + props.written_length()),
        Packet::Publish {
            qos,
            topic,
            props,
            payload,
            ..
        } => if_var(topic_size(topic, *qos) + props.written_length() + payload.bytes().len()),
        Packet::Puback { reason, props, .. } => if_var(2 + rest_size(*reason, props)),
        Packet::Pubrec { reason, props, .. } => if_var(2 + rest_size(*reason, props)),
        Packet::Pubrel { reason, props, .. } => if_var(2 + rest_size(*reason, props)),
        Packet::Pubcomp { reason, props, .. } => if_var(2 + rest_size(*reason, props)),
        Packet::Subscribe { props, filters, .. } => {
            let filters = wishes_size(filters)?;
            if_var(2 + props.written_length() + filters as usize)
        }
        Packet::Suback { props, reasons, .. } => {
            if_var(2 + props.written_length() + reasons.bytes().len())
        }
        Packet::Unsubscribe { props, filters, .. } => {
            let filters = names_size(filters)?;
            if_var(2 + props.written_length() + filters as usize)
        }
        Packet::Unsuback { props, reasons, .. } => {
            if_var(2 + props.written_length() + reasons.bytes().len())
        }
        Packet::Pingreq | Packet::Pingresp => Some(0),
        Packet::Disconnect { reason, props } => if_var(rest_size(*reason, props)),
        Packet::Auth { reason, props } => if_var(auth_size(*reason, props)),
    }
}

/// How many bytes `write` puts of a packet, without writing it. None where what stands behind the length is more than
/// 268,435,455 bytes, so that the packet can't be written (MQTT 2.1.4).
pub fn written_length(packet: &Packet) -> Option<u32>
    requires fits { Fits (plain packet.now) }
    // `Props::length` tells.
    requires told { AreTold (plain packet.now) }
    ensures { result ≡ told_size (plain packet.now) }
{
    let size = body_size(packet)?;
    Some(1 + var_length(size) as u32 + size)
}
