ghost use Rattle.std.specs.Prelude.{◌≡◌, ◌<◌, ◌≤◌, ◌^◌, drop, length, [], IfOk, IfErr};
ghost use Rattle.mqtt_packet.specs.Reading.{byte_at, two_at, id_at, name_at, topic_at, blob_at, props_at};
ghost use Rattle.mqtt_packet.specs.declared.refused.ReadRefused;
ghost use Rattle.mqtt_packet.specs.Fits.{has_wildcard};
ghost use Rattle.mqtt_packet.specs.Taking.{TakesPart, IsMore};

use crate::refused::ReadRefused;
use mqtt_props::{Holder, Props, take_blob, take_list, take_name};
use std::alloc::Global;
use topic_name::{Blob, Name};
use wire_fields::{take_u8, take_u16};

// Each takes a part from the place `at`, and moves `at` behind it.

pub(crate) fn byte_in(bytes: &[u8], at: &mut usize) -> Result<u8, ReadRefused>
    ensures exact { TakesPart (λ n. n) result
        (byte_at (drop at.old bytes.now)) bytes.now at.new }
    ensures refused { IfErr result (λ e. e ≡ ReadRefused.Malformed) }
    ensures moves { IfOk result (λ n. at.old < at.new) }
{
    Ok(take_u8(bytes, at)?)
}

pub(crate) fn two_in(bytes: &[u8], at: &mut usize) -> Result<u16, ReadRefused>
    ensures exact { TakesPart (λ n. n) result
        (two_at (drop at.old bytes.now)) bytes.now at.new }
{
    Ok(take_u16(bytes, at)?)
}

// A packet identifier (MQTT 2.2.1).
pub(crate) fn id_in(bytes: &[u8], at: &mut usize) -> Result<u16, ReadRefused>
    ensures exact { TakesPart (λ n. n) result
        (id_at (drop at.old bytes.now)) bytes.now at.new }
{
    let id = take_u16(bytes, at)?;
    if id == 0 {
        return Err(ReadRefused::Malformed);
    }
    Ok(id)
}

pub(crate) fn name_in(alloc: Global, bytes: &[u8], at: &mut usize) -> Result<Name, ReadRefused>
    ensures exact { TakesPart (λ n. n) result
        (name_at (drop at.old bytes.now)) bytes.now at.new }
    ensures moves { IfOk result (λ n. at.old < at.new) }
{
    Ok(take_name(alloc, bytes, at)?)
}

pub(crate) fn blob_in(alloc: Global, bytes: &[u8], at: &mut usize) -> Result<Blob, ReadRefused>
    ensures exact { TakesPart (λ n. n) result
        (blob_at (drop at.old bytes.now)) bytes.now at.new }
{
    Ok(take_blob(alloc, bytes, at)?)
}

pub(crate) fn props_in(
    alloc: Global,
    holder: Holder,
    bytes: &[u8],
    at: &mut usize,
) -> Result<Props, ReadRefused>
    ensures exact { TakesPart (λ p. p) result
        (props_at holder (drop at.old bytes.now)) bytes.now at.new }
    ensures within { IfOk result (λ p. at.new ≤ length bytes.now) }
{
    Ok(take_list(alloc, holder, bytes, at)?)
}

// Whether there is a `+` or a `#` (MQTT 4.7.1).
pub(crate) fn has_wildcard(text: &[u8]) -> bool
    ensures { result ≡ has_wildcard text.now }
{
    text.iter().any(|b| *b == b'+' || *b == b'#')
}

// A topic name (MQTT 3.3.2.1).
pub(crate) fn topic_in(alloc: Global, bytes: &[u8], at: &mut usize) -> Result<Name, ReadRefused>
    ensures exact { TakesPart (λ n. n) result
        (topic_at (drop at.old bytes.now)) bytes.now at.new }
{
    let topic = name_in(alloc, bytes, at)?;
    if has_wildcard(topic.bytes()) {
        return Err(ReadRefused::Malformed);
    }
    Ok(topic)
}

// Nothing may stand behind the last part.
#[tactic(auto, using(crate::specs::PartLaws::more_left))]
pub(crate) fn ends(bytes: &[u8], at: usize) -> Result<(), ReadRefused>
    ensures ok { IfOk result (λ done. drop at bytes.now ≡ []) }
    ensures err { IfErr result (λ e. (e ≡ ReadRefused.Malformed) × IsMore (drop at bytes.now)) }
{
    if at < bytes.len() {
        return Err(ReadRefused::Malformed);
    }
    Ok(())
}
