ghost use Rattle.std.specs.Prelude.{◌≡◌, drop};
ghost use Rattle.mqtt_packet.specs.Packet.{plain};
ghost use Rattle.mqtt_packet.specs.Reading.{id_if, message_in, publish_in};
ghost use Rattle.mqtt_packet.specs.Taking.{TakesPart, GivesPart};

use crate::flags::{are_publish_flags, is_odd};
use crate::packet::Packet;
use crate::parts::{id_in, props_in, topic_in};
use crate::refused::ReadRefused;
use mqtt_props::Holder;
use std::alloc::Global;
use topic_name::Blob;

// The identifier where the QoS is above 0, else 0 (MQTT 3.3.2.2).
fn id_if(qos: u8, bytes: &[u8], at: &mut usize) -> Result<u16, ReadRefused>
    ensures exact { TakesPart (λ n. n) result
        (id_if qos (drop at.old bytes.now)) bytes.now at.new }
{
    if qos == 0 {
        return Ok(0);
    }
    id_in(bytes, at)
}

// The body of a PUBLISH with these flags.
fn message_in(
    alloc: Global,
    dup: bool,
    qos: u8,
    retain: bool,
    body: &[u8],
) -> Result<Packet, ReadRefused>
    ensures exact { GivesPart plain result (message_in dup qos retain body.now) }
{
    let mut at = 0;
    let topic = topic_in(alloc, body, &mut at)?;
    let id = id_if(qos, body, &mut at)?;
    let props = props_in(alloc, Holder::Publish, body, &mut at)?;
    let payload = Blob::of(alloc, &body[at..])?;
    Ok(Packet::Publish {
        dup,
        qos,
        retain,
        topic,
        id,
        props,
        payload,
    })
}

// The body of a PUBLISH (MQTT 3.3).
pub(crate) fn publish_in(alloc: Global, flags: u8, body: &[u8]) -> Result<Packet, ReadRefused>
    ensures exact { GivesPart plain result (publish_in flags body.now) }
{
    let dup = is_odd(flags / 8);
    let qos = flags / 2 % 4;
    if !are_publish_flags(dup, qos) {
        return Err(ReadRefused::Malformed);
    }
    message_in(alloc, dup, qos, is_odd(flags), body)
}
