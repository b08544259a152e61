ghost use Rattle.std.specs.Prelude.{◌≡◌, ◌<◌, drop, [], true, false, None, IfOk, IfErr, IsErrOf, IsSome};
ghost use Rattle.topic_model.specs.Levels.{levels_of};
ghost use Rattle.topic_model.specs.Texts.{topic_refusal};
ghost use Rattle.wire_fields.specs.Text.{IsText};
ghost use Rattle.session_codec.specs.declared.refused.CodecRefused;
ghost use Rattle.session_codec.specs.Reading.{byte_at, two_at, four_at, eight_at, name_at, parting_at};
ghost use Rattle.session_codec.specs.Taking.{TakesPart};
ghost use Rattle.session_codec.specs.PartLaws.{IsMore};
ghost use Rattle.record_codec.specs.HasSpelling.{is_list};
ghost use Rattle.record_codec.specs.Reading.{mark_at, blob_at, topic_at, props_at, delivery_at, sender_at, expiry_at};

use bytes::Bytes;
use mqtt_props::{Holder, PropRefused, read_bare};
use session_codec::CodecRefused;
use std::alloc::Global;
use topic_name::{Blob, Name, Topic, TopicRefused};
use wire_fields::{take_text, take_u8, take_u16, take_u32, take_u64};

// Each takes a field from the place `at`, and moves `at` behind it.

pub(crate) fn byte_in(bytes: &[u8], at: &mut usize) -> Result<u8, CodecRefused>
    ensures exact { TakesPart (λ n. n) result
        (byte_at (drop at.old bytes.now)) bytes.now at.new }
{
    Ok(take_u8(bytes, at)?)
}

pub(crate) fn two_in(bytes: &[u8], at: &mut usize) -> Result<u16, CodecRefused>
    ensures exact { TakesPart (λ n. n) result
        (two_at (drop at.old bytes.now)) bytes.now at.new }
{
    Ok(take_u16(bytes, at)?)
}

pub(crate) fn four_in(bytes: &[u8], at: &mut usize) -> Result<u32, CodecRefused>
    ensures exact { TakesPart (λ n. n) result
        (four_at (drop at.old bytes.now)) bytes.now at.new }
{
    Ok(take_u32(bytes, at)?)
}

pub(crate) fn eight_in(bytes: &[u8], at: &mut usize) -> Result<u64, CodecRefused>
    ensures exact { TakesPart (λ n. n) result
        (eight_at (drop at.old bytes.now)) bytes.now at.new }
{
    Ok(take_u64(bytes, at)?)
}

// The byte that says which record this is, or its format.
pub(crate) fn mark_in(mark: u8, bytes: &[u8], at: &mut usize) -> Result<(), CodecRefused>
    ensures exact { TakesPart (λ d. d) result
        (mark_at mark (drop at.old bytes.now)) bytes.now at.new }
{
    let found = byte_in(bytes, at)?;
    if found != mark {
        return Err(CodecRefused::Bad);
    }
    Ok(())
}

// The text that bytes are.
fn text_of(bytes: &[u8]) -> &str
    requires { IsText bytes.now }
    ensures { result.now ≡ bytes.now }
{
    match std::str::from_utf8(bytes) {
        Ok(text) => text,
        Err(_) => unreachable!(),
    }
}

pub(crate) fn name_in(alloc: Global, bytes: &[u8], at: &mut usize) -> Result<Name, CodecRefused>
    ensures exact { TakesPart (λ n. n) result
        (name_at (drop at.old bytes.now)) bytes.now at.new }
{
    let text = take_text(bytes, at)?;
    let name = Name::of(alloc, text_of(text))?;
    Ok(name)
}

// The topic name that a text is (MQTT 4.7).
fn topic_of(alloc: Global, text: &str) -> Result<Topic, CodecRefused>
    ensures ok { IfOk result (λ t. (t ≡ levels_of text.now) × (topic_refusal text.now ≡ None)) }
    ensures bad { IsErrOf result CodecRefused.Bad → IsSome (topic_refusal text.now) }
{
    match Topic::read(alloc, text) {
        Ok(topic) => Ok(topic),
        Err(TopicRefused::Memory) => Err(CodecRefused::Memory),
        Err(_) => Err(CodecRefused::Bad),
    }
}

pub(crate) fn topic_in(alloc: Global, bytes: &[u8], at: &mut usize) -> Result<Topic, CodecRefused>
    ensures exact { TakesPart (λ t. t) result
        (topic_at (drop at.old bytes.now)) bytes.now at.new }
{
    let text = take_text(bytes, at)?;
    let topic = topic_of(alloc, text_of(text))?;
    Ok(topic)
}

// Bytes, behind how many they are.
fn slice_in<'a>(bytes: &'a [u8], at: &mut usize) -> Result<&'a [u8], CodecRefused>
    ensures exact { TakesPart (λ f. f.now) result
        (blob_at (drop at.old bytes.now)) bytes.now at.new }
{
    let size = take_u32(bytes, at)? as usize;
    let rest = &bytes[*at..];
    if rest.len() < size {
        return Err(CodecRefused::Bad);
    }
    *at += size;
    Ok(&rest[..size])
}

// The payload of a message.
pub(crate) fn payload_in(alloc: Global, bytes: &[u8], at: &mut usize) -> Result<Bytes, CodecRefused>
    ensures exact { TakesPart (λ b. b) result
        (blob_at (drop at.old bytes.now)) bytes.now at.new }
{
    let field = slice_in(bytes, at)?;
    let payload = Bytes::copy_from_slice(alloc, field)?;
    Ok(payload)
}

// Whether bytes are a list of properties that a PUBLISH may have (MQTT 2.2.2, 3.3.2.3).
#[tactic(auto, using(crate::specs::ListLaws::is_a_list, crate::specs::ListLaws::is_no_list))]
fn check_list(alloc: Global, bytes: &[u8]) -> Result<(), CodecRefused>
    ensures ok { IfOk result (λ d. is_list bytes.now ≡ true) }
    ensures bad { IsErrOf result CodecRefused.Bad → is_list bytes.now ≡ false }
{
    if let Err(refused) = read_bare(alloc, Holder::Publish, bytes) {
        if refused == PropRefused::Memory {
            return Err(CodecRefused::Memory);
        }
        return Err(CodecRefused::Bad);
    }
    Ok(())
}

// A list of properties, as its bytes.
pub(crate) fn props_in(alloc: Global, bytes: &[u8], at: &mut usize) -> Result<Blob, CodecRefused>
    ensures exact { TakesPart (λ b. b) result
        (props_at (drop at.old bytes.now)) bytes.now at.new }
{
    let field = slice_in(bytes, at)?;
    check_list(alloc, field)?;
    let props = Blob::of(alloc, field)?;
    Ok(props)
}

// A packet identifier and the QoS that may have it: it is 0 unless the QoS is 2.
pub(crate) fn delivery_in(bytes: &[u8], at: &mut usize) -> Result<(u16, u8), CodecRefused>
    ensures exact { TakesPart (λ d. d) result
        (delivery_at (drop at.old bytes.now)) bytes.now at.new }
{
    let id = two_in(bytes, at)?;
    let qos = byte_in(bytes, at)?;
    if qos == 2 || id == 0 {
        return Ok((id, qos));
    }
    Err(CodecRefused::Bad)
}

// Who published, and in which session.
pub(crate) fn sender_in(
    alloc: Global,
    bytes: &[u8],
    at: &mut usize,
) -> Result<(Name, u64), CodecRefused>
    ensures exact { TakesPart (λ s. s) result
        (sender_at (drop at.old bytes.now)) bytes.now at.new }
{
    let publisher = name_in(alloc, bytes, at)?;
    let incarnation = eight_in(bytes, at)?;
    Ok((publisher, incarnation))
}

// The expiry, which is there or not.
pub(crate) fn expiry_in(
    expires: bool,
    bytes: &[u8],
    at: &mut usize,
) -> Result<Option<u32>, CodecRefused>
    ensures exact { TakesPart (λ e. e) result
        (expiry_at expires (drop at.old bytes.now)) bytes.now at.new }
{
    if expires {
        let seconds = four_in(bytes, at)?;
        return Ok(Some(seconds));
    }
    Ok(None)
}

// A moment, which the greatest number tells there is none.
pub(crate) fn moment_in(bytes: &[u8], at: &mut usize) -> Result<Option<u64>, CodecRefused>
    ensures exact { TakesPart (λ m. m) result
        (parting_at (drop at.old bytes.now)) bytes.now at.new }
{
    let moment = eight_in(bytes, at)?;
    if moment == u64::MAX {
        return Ok(None);
    }
    Ok(Some(moment))
}

// Nothing may stand behind the last part.
#[tactic(auto, using(session_codec::specs::PartLaws::more_left))]
pub(crate) fn ends(bytes: &[u8], at: usize) -> Result<(), CodecRefused>
    ensures ok { IfOk result (λ done. drop at bytes.now ≡ []) }
    ensures err { IfErr result (λ e. (e ≡ CodecRefused.Bad) × IsMore (drop at bytes.now)) }
{
    if at < bytes.len() {
        return Err(CodecRefused::Bad);
    }
    Ok(())
}
