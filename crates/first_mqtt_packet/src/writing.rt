ghost use Rattle.std.specs.Prelude.{◌≡◌, ◌<◌, ◌++◌, ◌∷◌, [], ◌+◌, ◌*◌, length, OnOk, codes, ℕ};
ghost use Rattle.std.specs.List.{flat_map};
ghost use Rattle.std.specs.Int.{w16, to_be_bytes};
ghost use Rattle.std.specs.Option.{is_some};
ghost use Rattle.first_mqtt_packet.specs.Written.{written, var_bytes, field, prop_bytes, props_bytes, framed, bit, maybe_field, will_bytes, will_flags, connect_flags, maybe_id, publish_first, ack_rest, wish_bytes};

use crate::packet::{Packet, Will, Wish};
use crate::props::{Prop, Props};
use std::alloc::{AllocError, Global};
use topic_name::{Blob, Name};

/// Writes a packet at the end: the one spelling that the broker gives it (MQTT 2.1). A length that its field has no
/// room for is cut. On want of memory a part of the packet may stand at the end.
pub fn write(alloc: Global, packet: &Packet, out: &mut Vec<u8>) -> Result<(), AllocError>
    ensures { OnOk result (out.new.items ≡ out.old.items ++ written packet.now) }
{
    let mut body = Vec::new(alloc);
    match packet {
        Packet::Connect {
            clean,
            keep_alive,
            props,
            client,
            will,
            user,
            password,
        } => {
            put_connect(
                alloc,
                *clean,
                *keep_alive,
                props,
                client,
                will,
                user,
                password,
                &mut body,
            )?;
            put_framed(16, &body, out)
        }
        Packet::Connack {
            present,
            reason,
            props,
        } => {
            body.push(bit_of(*present))?;
            body.push(*reason)?;
            put_props(alloc, props, &mut body)?;
            put_framed(32, &body, out)
        }
        Packet::Publish {
            dup,
            qos,
            retain,
            topic,
            id,
            props,
            payload,
        } => {
            put_publish(alloc, *qos, topic, *id, props, payload, &mut body)?;
            put_framed(first_of(*dup, *qos, *retain), &body, out)
        }
        Packet::Puback { id, reason, props } => {
            body.extend_from_slice(&id.to_be_bytes())?;
            put_ack_rest(alloc, *reason, props, &mut body)?;
            put_framed(64, &body, out)
        }
        Packet::Subscribe { id, props, filters } => {
            body.extend_from_slice(&id.to_be_bytes())?;
            put_props(alloc, props, &mut body)?;
            put_wishes(filters.list(), &mut body)?;
            put_framed(130, &body, out)
        }
        Packet::Suback { id, props, reasons } => {
            body.extend_from_slice(&id.to_be_bytes())?;
            put_props(alloc, props, &mut body)?;
            body.extend_from_slice(reasons.bytes())?;
            put_framed(144, &body, out)
        }
        Packet::Disconnect { reason, props } => {
            put_ack_rest(alloc, *reason, props, &mut body)?;
            put_framed(224, &body, out)
        }
    }
}

// The first byte, the length and the body.
fn put_framed(first: u8, body: &[u8], out: &mut Vec<u8>) -> Result<(), AllocError>
    ensures { OnOk result (out.new.items ≡ out.old.items ++ framed first body.now) }
{
    out.push(first)?;
    put_var(body.len(), out)?;
    out.extend_from_slice(body)
}

// A variable byte integer. Above 268,435,455 there is none, and what is put is cut.
fn put_var(n: usize, out: &mut Vec<u8>) -> Result<(), AllocError>
    ensures { OnOk result (out.new.items ≡ out.old.items ++ var_bytes n) }
{
    if n < 128 {
        return Ok(out.push(n as u8)?);
    }
    out.push((n % 128 + 128) as u8)?;
    if n < 16384 {
        return Ok(out.push((n / 128) as u8)?);
    }
    out.push((n / 128 % 128 + 128) as u8)?;
    if n < 2097152 {
        return Ok(out.push((n / 16384) as u8)?);
    }
    out.push((n / 16384 % 128 + 128) as u8)?;
    Ok(out.push((n / 2097152 % 256) as u8)?)
}

// The length in two bytes, and the bytes. Above 65,535 the length is cut.
fn put_field(bytes: &[u8], out: &mut Vec<u8>) -> Result<(), AllocError>
    ensures { OnOk result (out.new.items ≡ out.old.items ++ field bytes.now) }
{
    out.push((bytes.len() / 256 % 256) as u8)?;
    out.push((bytes.len() % 256) as u8)?;
    out.extend_from_slice(bytes)
}

fn put_prop(prop: &Prop, out: &mut Vec<u8>) -> Result<(), AllocError>
    ensures { OnOk result (out.new.items ≡ out.old.items ++ prop_bytes prop.now) }
{
    match prop {
        Prop::Byte(identifier, value) => {
            out.push(*identifier)?;
            Ok(out.push(*value)?)
        }
        Prop::Two(identifier, value) => {
            out.push(*identifier)?;
            out.extend_from_slice(&value.to_be_bytes())
        }
        Prop::Four(identifier, value) => {
            out.push(*identifier)?;
            out.extend_from_slice(&value.to_be_bytes())
        }
        Prop::Var(value) => {
            out.push(11)?;
            put_var(*value as usize, out)
        }
        Prop::Text(identifier, text) => {
            out.push(*identifier)?;
            put_field(text.bytes(), out)
        }
        Prop::Bin(identifier, bytes) => {
            out.push(*identifier)?;
            put_field(bytes.bytes(), out)
        }
        Prop::Pair(name, value) => {
            out.push(38)?;
            put_field(name.bytes(), out)?;
            put_field(value.bytes(), out)
        }
    }
}

fn put_each(props: &[Prop], out: &mut Vec<u8>) -> Result<(), AllocError>
    ensures { OnOk result (out.new.items ≡ out.old.items ++ flat_map prop_bytes props.now) }
{
    for prop in props {
        put_prop(prop, out)?;
    }
    Ok(())
}

fn put_props(alloc: Global, props: &Props, out: &mut Vec<u8>) -> Result<(), AllocError>
    ensures { OnOk result (out.new.items ≡ out.old.items ++ props_bytes props.now) }
{
    let mut bytes = Vec::new(alloc);
    put_each(props.list(), &mut bytes)?;
    put_var(bytes.len(), out)?;
    out.extend_from_slice(&bytes)
}

fn put_wishes(wishes: &[Wish], out: &mut Vec<u8>) -> Result<(), AllocError>
    ensures { OnOk result (out.new.items ≡ out.old.items ++ flat_map wish_bytes wishes.now) }
{
    for wish in wishes {
        put_field(wish.filter.bytes(), out)?;
        out.push(wish.options)?;
    }
    Ok(())
}

fn put_ack_rest(
    alloc: Global,
    reason: u8,
    props: &Props,
    out: &mut Vec<u8>,
) -> Result<(), AllocError>
    ensures { OnOk result (out.new.items ≡ out.old.items ++ ack_rest reason props.now) }
{
    if props.list().is_empty() {
        if reason != 0 {
            out.push(reason)?;
        }
        return Ok(());
    }
    out.push(reason)?;
    put_props(alloc, props, out)
}

fn bit_of(b: bool) -> u8
    ensures value { result ≡ bit b }
    ensures small { result < 2 }
{
    if b { 1 } else { 0 }
}

// The first byte of a PUBLISH (MQTT 3.3.1). A QoS above 3 has no place there, and is cut.
fn first_of(dup: bool, qos: u8, retain: bool) -> u8
    ensures { result ≡ publish_first dup qos retain }
{
    48 + 8 * bit_of(dup) + 2 * (qos % 4) + bit_of(retain)
}

fn put_publish(
    alloc: Global,
    qos: u8,
    topic: &Name,
    id: u16,
    props: &Props,
    payload: &Blob,
    out: &mut Vec<u8>,
) -> Result<(), AllocError>
    ensures { OnOk result (out.new.items ≡ out.old.items ++ (field topic.now ++ maybe_id qos id ++ props_bytes props.now ++ payload.now)) }
{
    put_field(topic.bytes(), out)?;
    if qos != 0 {
        out.extend_from_slice(&id.to_be_bytes())?;
    }
    put_props(alloc, props, out)?;
    out.extend_from_slice(payload.bytes())
}

fn put_will(alloc: Global, will: &Option<Will>, out: &mut Vec<u8>) -> Result<(), AllocError>
    ensures { OnOk result (out.new.items ≡ out.old.items ++ will_bytes will.now) }
{
    if let Some(will) = will {
        put_props(alloc, &will.props, out)?;
        put_field(will.topic.bytes(), out)?;
        put_field(will.payload.bytes(), out)?;
    }
    Ok(())
}

fn put_name(name: &Option<Name>, out: &mut Vec<u8>) -> Result<(), AllocError>
    ensures { OnOk result (out.new.items ≡ out.old.items ++ maybe_field name.now) }
{
    match name {
        Some(name) => put_field(name.bytes(), out),
        None => Ok(()),
    }
}

fn put_blob(blob: &Option<Blob>, out: &mut Vec<u8>) -> Result<(), AllocError>
    ensures { OnOk result (out.new.items ≡ out.old.items ++ maybe_field blob.now) }
{
    match blob {
        Some(blob) => put_field(blob.bytes(), out),
        None => Ok(()),
    }
}

// The will's part of the flags (MQTT 3.1.2.5 to 3.1.2.7). A QoS above 3 has no place there, and is cut.
fn flags_of_will(will: &Option<Will>) -> u8
    ensures value { result ≡ will_flags will.now }
    ensures small { result < 61 }
{
    match will {
        Some(will) => 4 + 8 * (will.qos % 4) + 32 * bit_of(will.retain),
        None => 0,
    }
}

fn put_connect(
    alloc: Global,
    clean: bool,
    keep_alive: u16,
    props: &Props,
    client: &Name,
    will: &Option<Will>,
    user: &Option<Name>,
    password: &Option<Blob>,
    out: &mut Vec<u8>,
) -> Result<(), AllocError>
    ensures { OnOk result (out.new.items ≡ out.old.items ++ (field (codes "MQTT") ++ 5 ∷ connect_flags clean will.now user.now password.now ∷ to_be_bytes w16 keep_alive ++ props_bytes props.now ++ field client.now ++ will_bytes will.now ++ maybe_field user.now ++ maybe_field password.now)) }
{
    let flags = 2 * bit_of(clean)
        + flags_of_will(will)
        + 128 * bit_of(user.is_some())
        + 64 * bit_of(password.is_some());
    put_field(b"MQTT", out)?;
    out.push(5)?;
    out.push(flags)?;
    out.extend_from_slice(&keep_alive.to_be_bytes())?;
    put_props(alloc, props, out)?;
    put_field(client.bytes(), out)?;
    put_will(alloc, will, out)?;
    put_name(user, out)?;
    put_blob(password, out)
}
