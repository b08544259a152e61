ghost use Rattle.std.specs.Prelude.{◌<◌, drop, IfOk};
ghost use Rattle.mqtt_packet.specs.Packet.{plain};
ghost use Rattle.mqtt_packet.specs.Reading.{name_at, wish_at, each_at, subscribe_in, unsubscribe_in, answer_in, suback_in, unsuback_in};
ghost use Rattle.mqtt_packet.specs.Taking.{TakesPart, GivesPart, answer_of};

use crate::packet::{Packet, Wish};
use crate::parts::{byte_in, id_in, name_in, props_in};
use crate::refused::ReadRefused;
use mqtt_props::{Holder, Props};
use std::alloc::Global;
use topic_name::{Blob, Name};

/// The bits of subscription options that are reserved are those from this on (MQTT 3.8.3.1).
const RESERVED: u8 = 64;

// A filter and its options (MQTT 3.8.3).
fn wish_in(alloc: Global, bytes: &[u8], at: &mut usize) -> Result<Wish, ReadRefused>
    ensures exact { TakesPart (λ w. w) result
        (wish_at (drop at.old bytes.now)) bytes.now at.new }
    ensures moves { IfOk result (λ w. at.old < at.new) }
{
    let filter = name_in(alloc, bytes, at)?;
    let options = byte_in(bytes, at)?;
    if options >= RESERVED {
        return Err(ReadRefused::Malformed);
    }
    Ok(Wish { filter, options })
}

// The filters with their options that fill the bytes.
fn wishes_in(alloc: Global, bytes: &[u8]) -> Result<Vec<Wish>, ReadRefused>
    ensures exact { GivesPart (λ v. v.items) result (each_at wish_at bytes.now) }
{
    let mut wishes = Vec::new(alloc);
    let mut at = 0;
    while at < bytes.len() {
        let wish = wish_in(alloc, bytes, &mut at)?;
        wishes.push(wish)?;
    }
    Ok(wishes)
}

// The filters that fill the bytes (MQTT 3.10.3).
fn names_in(alloc: Global, bytes: &[u8]) -> Result<Vec<Name>, ReadRefused>
    ensures exact { GivesPart (λ v. v.items) result (each_at name_at bytes.now) }
{
    let mut names = Vec::new(alloc);
    let mut at = 0;
    while at < bytes.len() {
        let name = name_in(alloc, bytes, &mut at)?;
        names.push(name)?;
    }
    Ok(names)
}

// The body of a SUBSCRIBE (MQTT 3.8).
pub(crate) fn subscribe_in(alloc: Global, body: &[u8]) -> Result<Packet, ReadRefused>
    ensures exact { GivesPart plain result (subscribe_in body.now) }
{
    let mut at = 0;
    let id = id_in(body, &mut at)?;
    let props = props_in(alloc, Holder::Subscribe, body, &mut at)?;
    let filters = wishes_in(alloc, &body[at..])?;
    Ok(Packet::Subscribe { id, props, filters })
}

// The body of an UNSUBSCRIBE (MQTT 3.10).
pub(crate) fn unsubscribe_in(alloc: Global, body: &[u8]) -> Result<Packet, ReadRefused>
    ensures exact { GivesPart plain result (unsubscribe_in body.now) }
{
    let mut at = 0;
    let id = id_in(body, &mut at)?;
    let props = props_in(alloc, Holder::Unsubscribe, body, &mut at)?;
    let filters = names_in(alloc, &body[at..])?;
    Ok(Packet::Unsubscribe { id, props, filters })
}

// The fields of a SUBACK or an UNSUBACK: identifier, properties and reasons.
fn answer_in(alloc: Global, holder: Holder, body: &[u8]) -> Result<(u16, Props, Blob), ReadRefused>
    ensures exact { GivesPart answer_of result (answer_in holder body.now) }
{
    let mut at = 0;
    let id = id_in(body, &mut at)?;
    let props = props_in(alloc, holder, body, &mut at)?;
    let reasons = Blob::of(alloc, &body[at..])?;
    Ok((id, props, reasons))
}

// The body of a SUBACK (MQTT 3.9).
pub(crate) fn suback_in(alloc: Global, body: &[u8]) -> Result<Packet, ReadRefused>
    ensures exact { GivesPart plain result (suback_in body.now) }
{
    let (id, props, reasons) = answer_in(alloc, Holder::Suback, body)?;
    Ok(Packet::Suback { id, props, reasons })
}

// The body of an UNSUBACK (MQTT 3.11).
pub(crate) fn unsuback_in(alloc: Global, body: &[u8]) -> Result<Packet, ReadRefused>
    ensures exact { GivesPart plain result (unsuback_in body.now) }
{
    let (id, props, reasons) = answer_in(alloc, Holder::Unsuback, body)?;
    Ok(Packet::Unsuback { id, props, reasons })
}
