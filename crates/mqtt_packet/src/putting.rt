ghost use Rattle.std.specs.Prelude.{◌≤◌, ◌∷◌, [], length, codes, All};
ghost use Rattle.std.specs.List.{flat_map};
ghost use Rattle.wire_fields.specs.Spelled.{spelled_u8, spelled_u16, spelled_text, spelled_bin};
ghost use Rattle.mqtt_frame.specs.PlainFramer.{joined};
ghost use Rattle.mqtt_props.specs.Prop.{IsShortText};
ghost use Rattle.mqtt_props.specs.Props.{spelled_bare, spelled_props};
ghost use Rattle.mqtt_packet.specs.Fits.{IfThere, FitsWill, IsShortBinary, IsWish};
ghost use Rattle.mqtt_packet.specs.Putting.{Puts, IsShort, IsTold};
ghost use Rattle.mqtt_packet.specs.Rules.{list_of_will};
ghost use Rattle.mqtt_packet.specs.Spelling.{if_there, spelled_id, spelled_will, spelled_wish};

use crate::connect::VERSION;
use crate::packet::{Will, Wish};
use mqtt_props::{Props, write as put_props};
use std::alloc::AllocError;
use topic_name::{Blob, Name};
use wire_fields::{MOST_BIN, MOST_VAR, put_bin, put_text, put_u8, put_u16};

// Each puts a part of a packet at the end. On want of memory some of it may stand there.

#[tactic(auto, using(crate::specs::PutLaws::parts_begin))]
pub(crate) fn put_bytes(bytes: &[u8], out: &mut Vec<u8>) -> Result<(), AllocError>
    ensures exact { Puts result out.old.items out.new.items bytes.now }
{
    out.extend_from_slice(bytes)?;
    Ok(())
}

// An identifier, and the properties.
#[tactic(auto, using(crate::specs::PutLaws::parts_begin))]
pub(crate) fn put_id_and_props(id: u16, props: &Props, out: &mut Vec<u8>) -> Result<(), AllocError>
    requires { length (spelled_bare props.now) ≤ MOST_VAR }
    ensures exact { Puts result out.old.items out.new.items
        (joined (spelled_u16 id ∷ spelled_props props.now ∷ [])) }
{
    put_u16(id, out)?;
    put_props(props, out)?;
    Ok(())
}

// A reason, and the properties.
#[tactic(auto, using(crate::specs::PutLaws::parts_begin))]
pub(crate) fn put_reason_and_props(
    reason: u8,
    props: &Props,
    out: &mut Vec<u8>,
) -> Result<(), AllocError>
    requires { length (spelled_bare props.now) ≤ MOST_VAR }
    ensures exact { Puts result out.old.items out.new.items
        (joined (spelled_u8 reason ∷ spelled_props props.now ∷ [])) }
{
    put_u8(reason, out)?;
    put_props(props, out)?;
    Ok(())
}

// The properties, and the bytes that end a body.
#[tactic(auto, using(crate::specs::PutLaws::parts_begin))]
pub(crate) fn put_props_and(
    props: &Props,
    bytes: &[u8],
    out: &mut Vec<u8>,
) -> Result<(), AllocError>
    requires { length (spelled_bare props.now) ≤ MOST_VAR }
    ensures exact { Puts result out.old.items out.new.items
        (joined (spelled_props props.now ∷ bytes.now ∷ [])) }
{
    put_props(props, out)?;
    out.extend_from_slice(bytes)?;
    Ok(())
}

// The name and the version of the protocol, and the flags of a CONNECT (MQTT 3.1.2.1 to 3.1.2.3).
#[tactic(auto, using(crate::specs::PutLaws::parts_begin))]
fn put_protocol(flags: u8, out: &mut Vec<u8>) -> Result<(), AllocError>
    ensures exact { Puts result out.old.items out.new.items
        (joined (spelled_text (codes "MQTT") ∷ spelled_u8 5 ∷ spelled_u8 flags ∷ [])) }
{
    put_text(b"MQTT", out)?;
    out.extend_from_slice(&[VERSION, flags])?;
    Ok(())
}

// What stands in front of the payload of a CONNECT (MQTT 3.1.2).
#[tactic(auto, using(crate::specs::PutLaws::parts_begin))]
pub(crate) fn put_start(
    flags: u8,
    keep_alive: u16,
    props: &Props,
    out: &mut Vec<u8>,
) -> Result<(), AllocError>
    requires { length (spelled_bare props.now) ≤ MOST_VAR }
    ensures exact { Puts result out.old.items out.new.items
        (joined (spelled_text (codes "MQTT") ∷ spelled_u8 5 ∷ spelled_u8 flags
        ∷ spelled_u16 keep_alive ∷ spelled_props props.now ∷ [])) }
{
    put_protocol(flags, out)?;
    put_id_and_props(keep_alive, props, out)?;
    Ok(())
}

#[tactic(auto, using(crate::specs::PutLaws::parts_begin))]
fn put_will_of(will: &Will, out: &mut Vec<u8>) -> Result<(), AllocError>
    requires props { length (spelled_bare will.now.props) ≤ MOST_VAR }
    requires fits { FitsWill will.now }
    ensures exact { Puts result out.old.items out.new.items
        (joined (spelled_props will.now.props ∷ spelled_text will.now.topic
        ∷ spelled_bin will.now.payload ∷ [])) }
{
    put_props(&will.props, out)?;
    put_text(will.topic.bytes(), out)?;
    put_bin(will.payload.bytes(), out)?;
    Ok(())
}

#[tactic(auto, using(crate::specs::PutLaws::parts_begin))]
fn put_will(will: &Option<Will>, out: &mut Vec<u8>) -> Result<(), AllocError>
    requires props { IfThere IsTold (list_of_will will.now) }
    requires fits { IfThere FitsWill will.now }
    ensures exact { Puts result out.old.items out.new.items (spelled_will will.now) }
{
    match will {
        Some(will) => put_will_of(will, out),
        None => Ok(()),
    }
}

#[tactic(auto, using(crate::specs::PutLaws::parts_begin))]
fn put_user(user: &Option<Name>, out: &mut Vec<u8>) -> Result<(), AllocError>
    requires { IfThere IsShort user.now }
    ensures exact { Puts result out.old.items out.new.items (if_there spelled_text user.now) }
{
    if let Some(user) = user {
        put_text(user.bytes(), out)?;
    }
    Ok(())
}

#[tactic(auto, using(crate::specs::PutLaws::parts_begin))]
fn put_password(password: &Option<Blob>, out: &mut Vec<u8>) -> Result<(), AllocError>
    requires { IfThere IsShort password.now }
    ensures exact { Puts result out.old.items out.new.items (if_there spelled_bin password.now) }
{
    if let Some(password) = password {
        put_bin(password.bytes(), out)?;
    }
    Ok(())
}

// User name and password (MQTT 3.1.3.5, 3.1.3.6).
#[tactic(auto, using(crate::specs::PutLaws::parts_begin))]
fn put_login(
    user: &Option<Name>,
    password: &Option<Blob>,
    out: &mut Vec<u8>,
) -> Result<(), AllocError>
    requires user { IfThere IsShort user.now }
    requires password { IfThere IsShort password.now }
    ensures exact { Puts result out.old.items out.new.items
        (joined (if_there spelled_text user.now ∷ if_there spelled_bin password.now ∷ [])) }
{
    put_user(user, out)?;
    put_password(password, out)?;
    Ok(())
}

// The client identifier and the will (MQTT 3.1.3.1 to 3.1.3.4).
#[tactic(auto, using(crate::specs::PutLaws::parts_begin))]
fn put_client(client: &Name, will: &Option<Will>, out: &mut Vec<u8>) -> Result<(), AllocError>
    requires client { IsShort client.now }
    requires props { IfThere IsTold (list_of_will will.now) }
    requires fits { IfThere FitsWill will.now }
    ensures exact { Puts result out.old.items out.new.items
        (joined (spelled_text client.now ∷ spelled_will will.now ∷ [])) }
{
    put_text(client.bytes(), out)?;
    put_will(will, out)?;
    Ok(())
}

// The payload of a CONNECT (MQTT 3.1.3).
#[tactic(auto, using(crate::specs::PutLaws::parts_begin))]
pub(crate) fn put_payload(
    client: &Name,
    will: &Option<Will>,
    user: &Option<Name>,
    password: &Option<Blob>,
    out: &mut Vec<u8>,
) -> Result<(), AllocError>
    requires client { IsShort client.now }
    requires props { IfThere IsTold (list_of_will will.now) }
    requires fits { IfThere FitsWill will.now }
    requires user { IfThere IsShort user.now }
    requires password { IfThere IsShort password.now }
    ensures exact { Puts result out.old.items out.new.items
        (joined (spelled_text client.now ∷ spelled_will will.now
        ∷ if_there spelled_text user.now ∷ if_there spelled_bin password.now ∷ [])) }
{
    put_client(client, will, out)?;
    put_login(user, password, out)?;
    Ok(())
}

// The topic name of a PUBLISH, and its identifier where the QoS is above 0 (MQTT 3.3.2.1, 3.3.2.2).
#[tactic(auto, using(crate::specs::PutLaws::parts_begin))]
pub(crate) fn put_topic(topic: &Name, qos: u8, id: u16, out: &mut Vec<u8>) -> Result<(), AllocError>
    requires { IsShort topic.now }
    ensures exact { Puts result out.old.items out.new.items
        (joined (spelled_text topic.now ∷ spelled_id qos id ∷ [])) }
{
    put_text(topic.bytes(), out)?;
    if qos > 0 {
        put_u16(id, out)?;
    }
    Ok(())
}

#[tactic(auto, using(crate::specs::PutLaws::parts_begin))]
fn put_wish(wish: &Wish, out: &mut Vec<u8>) -> Result<(), AllocError>
    requires { IsWish wish.now }
    ensures exact { Puts result out.old.items out.new.items (spelled_wish wish.now) }
{
    put_text(wish.filter.bytes(), out)?;
    put_u8(wish.options, out)?;
    Ok(())
}

// The filters with their options (MQTT 3.8.3).
#[tactic(auto, using(crate::specs::PutLaws::parts_begin))]
pub(crate) fn put_wishes(wishes: &[Wish], out: &mut Vec<u8>) -> Result<(), AllocError>
    requires { All IsWish wishes.now }
    ensures exact { Puts result out.old.items out.new.items (flat_map spelled_wish wishes.now) }
{
    for wish in wishes {
        put_wish(wish, out)?;
    }
    Ok(())
}

// The filters (MQTT 3.10.3).
#[tactic(auto, using(crate::specs::PutLaws::parts_begin))]
pub(crate) fn put_names(names: &[Name], out: &mut Vec<u8>) -> Result<(), AllocError>
    requires { All IsShortText names.now }
    ensures exact { Puts result out.old.items out.new.items (flat_map spelled_text names.now) }
{
    for name in names {
        put_text(name.bytes(), out)?;
    }
    Ok(())
}
