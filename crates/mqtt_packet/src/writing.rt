ghost use Rattle.std.specs.Prelude.{◌≡◌, ◌≤◌, ◌++◌, ◌∷◌, [], length, OnOk, OnErr};
ghost use Rattle.wire_fields.specs.Spelled.{spelled_var};
ghost use Rattle.mqtt_frame.specs.PlainFramer.{joined};
ghost use Rattle.mqtt_props.specs.Props.{spelled_bare, spelled_props};
ghost use Rattle.mqtt_packet.specs.declared.packet.AckKind.TheVariants.{Puback};
ghost use Rattle.mqtt_packet.specs.Packet.{plain};
ghost use Rattle.mqtt_packet.specs.Fits.{Fits, IsPacket};
ghost use Rattle.mqtt_packet.specs.Putting.{Puts, AreTold};
ghost use Rattle.mqtt_packet.specs.Spelling.{ack_body, end_body, auth_body, written_body, written};

use crate::first::{bit, connect_flags, first_byte};
use crate::length::body_size;
use crate::packet::Packet;
use crate::putting::{
    put_bytes, put_id_and_props, put_names, put_payload, put_props_and, put_reason_and_props,
    put_start, put_topic, put_wishes,
};
use mqtt_props::Props;
use std::alloc::AllocError;
use wire_fields::{MOST_VAR, put_u8, put_u16, put_var};

// The body of a PUBACK, PUBREC, PUBREL or PUBCOMP, in the shortest form (MQTT 3.4.2.1).
#[tactic(auto, using(crate::specs::PutLaws::parts_begin))]
fn put_ack(id: u16, reason: u8, props: &Props, out: &mut Vec<u8>) -> Result<(), AllocError>
    requires { length (spelled_bare props.now) ≤ MOST_VAR }
    // The same of all four.
    ensures exact { Puts result out.old.items out.new.items (ack_body Puback
        (record { id = id; reason = reason; props = props.now }) props.now) }
{
    put_u16(id, out)?;
    if !props.list().is_empty() {
        put_reason_and_props(reason, props, out)?;
    } else if reason > 0 {
        put_u8(reason, out)?;
    }
    Ok(())
}

// The body of a DISCONNECT, in the shortest form (MQTT 3.14.2.1).
#[tactic(auto, using(crate::specs::PutLaws::parts_begin))]
fn put_end(reason: u8, props: &Props, out: &mut Vec<u8>) -> Result<(), AllocError>
    requires { length (spelled_bare props.now) ≤ MOST_VAR }
    ensures exact { Puts result out.old.items out.new.items
        (end_body (record { reason = reason; props = props.now }) props.now) }
{
    if !props.list().is_empty() {
        put_reason_and_props(reason, props, out)?;
    } else if reason > 0 {
        put_u8(reason, out)?;
    }
    Ok(())
}

// The body of an AUTH, in the shortest form (MQTT 3.15.2.1).
#[tactic(auto, using(crate::specs::PutLaws::parts_begin))]
fn put_auth(reason: u8, props: &Props, out: &mut Vec<u8>) -> Result<(), AllocError>
    requires { length (spelled_bare props.now) ≤ MOST_VAR }
    ensures exact { Puts result out.old.items out.new.items
        (auth_body (record { reason = reason; props = props.now }) props.now) }
{
    if !props.list().is_empty() || reason > 0 {
        put_reason_and_props(reason, props, out)?;
    }
    Ok(())
}

// What stands behind the length (MQTT 3).
#[tactic(auto, using(crate::specs::PutLaws::parts_begin))]
fn put_body(packet: &Packet, out: &mut Vec<u8>) -> Result<(), AllocError>
    requires fits { Fits (plain packet.now) }
    requires told { AreTold (plain packet.now) }
    ensures exact { Puts result out.old.items out.new.items (written_body (plain packet.now)) }
{
    match packet {
        Packet::Connect {
            clean,
            keep_alive,
            props,
            client,
            will,
            user,
            password,
        } => {
            let flags = connect_flags(*clean, will, user.is_some(), password.is_some());
            put_start(flags, *keep_alive, props, out)?;
            put_payload(client, will, user, password, out)?;
        }
        Packet::Connack {
            present,
            reason,
            props,
        } => {
            put_u8(bit(*present), out)?;
            put_reason_and_props(*reason, props, out)?;
        }
        Packet::Publish {
            qos,
            topic,
            id,
            props,
            payload,
            ..
        } => {
            put_topic(topic, *qos, *id, out)?;
            put_props_and(props, payload.bytes(), out)?;
        }
        Packet::Puback { id, reason, props } => put_ack(*id, *reason, props, out)?,
        Packet::Pubrec { id, reason, props } => put_ack(*id, *reason, props, out)?,
        Packet::Pubrel { id, reason, props } => put_ack(*id, *reason, props, out)?,
        Packet::Pubcomp { id, reason, props } => put_ack(*id, *reason, props, out)?,
        Packet::Subscribe { id, props, filters } => {
            put_id_and_props(*id, props, out)?;
            put_wishes(filters, out)?;
        }
        Packet::Suback { id, props, reasons } => {
            put_id_and_props(*id, props, out)?;
            put_bytes(reasons.bytes(), out)?;
        }
        Packet::Unsubscribe { id, props, filters } => {
            put_id_and_props(*id, props, out)?;
            put_names(filters, out)?;
        }
        Packet::Unsuback { id, props, reasons } => {
            put_id_and_props(*id, props, out)?;
            put_bytes(reasons.bytes(), out)?;
        }
        Packet::Pingreq | Packet::Pingresp => {}
        Packet::Disconnect { reason, props } => put_end(*reason, props, out)?,
        Packet::Auth { reason, props } => put_auth(*reason, props, out)?,
    }
    Ok(())
}

// The first byte and the length of what follows (MQTT 2.1).
#[tactic(auto, using(crate::specs::PutLaws::parts_begin))]
fn put_header(first: u8, size: u32, out: &mut Vec<u8>) -> Result<(), AllocError>
    requires { size ≤ MOST_VAR }
    ensures exact { Puts result out.old.items out.new.items (first ∷ spelled_var size) }
{
    put_u8(first, out)?;
    put_var(size, out)?;
    Ok(())
}

// The header and the body.
#[tactic(auto, using(crate::specs::PutLaws::parts_begin))]
fn put_packet(packet: &Packet, size: u32, out: &mut Vec<u8>) -> Result<(), AllocError>
    requires fits { Fits (plain packet.now) }
    requires told { AreTold (plain packet.now) }
    requires size { size ≡ length (written_body (plain packet.now)) }
    requires few { size ≤ MOST_VAR }
    ensures exact { Puts result out.old.items out.new.items (written (plain packet.now)) }
{
    put_header(first_byte(packet), size, out)?;
    put_body(packet, out)?;
    Ok(())
}

/// Writes a packet at the end, in its shortest form, with its properties by ascending identifier (MQTT 2.1). On want of
/// memory `out` stays as it was.
#[tactic(auto, using(crate::specs::ToldLaws::lists_are_told))]
pub fn write(packet: &Packet, out: &mut Vec<u8>) -> Result<(), AllocError>
    // Its fields fit, its properties may stand there, and `written_length` tells that its length can be told.
    requires { IsPacket (plain packet.now) }
    ensures ok { OnOk result (out.new.items ≡ out.old.items ++ written (plain packet.now)) }
    ensures err { OnErr result (out.new.items ≡ out.old.items) }
{
    let Some(size) = body_size(packet) else {
        unreachable!()
    };
    let before = out.len();
    if let Err(error) = put_packet(packet, size, out) {
        out.truncate(before);
        return Err(error);
    }
    Ok(())
}
