ghost use Rattle.std.specs.Prelude.{◌≡◌, ◌<◌, drop, [], None, IfOk, IfErr, IsErrOf, IsSome};
ghost use Rattle.topic_model.specs.Levels.{levels_of};
ghost use Rattle.topic_model.specs.Texts.{filter_refusal};
ghost use Rattle.wire_fields.specs.Text.{IsText};
ghost use Rattle.session_codec.specs.Reading.{byte_at, two_at, four_at, eight_at, name_at, flag_at, filter_at, moment_at, window_at, parting_at};
ghost use Rattle.session_codec.specs.declared.refused.CodecRefused;
ghost use Rattle.session_codec.specs.Taking.{TakesPart};
ghost use Rattle.session_codec.specs.PartLaws.{IsMore};

use crate::formats::{FIRST_FORMAT, FIRST_WINDOW};
use crate::refused::CodecRefused;
use std::alloc::{AllocError, Global};
use topic_name::{Filter, FilterRefused, Name};
use wire_fields::{take_text, take_u8, take_u16, take_u32, take_u64};

// Each takes a field from the place `at`, and moves `at` behind it.

pub(crate) fn byte_in(bytes: &[u8], at: &mut usize) -> Result<u8, CodecRefused>
    ensures exact { TakesPart (λ n. n) result
        (byte_at (drop at.old bytes.now)) bytes.now at.new }
{
    Ok(take_u8(bytes, at)?)
}

pub(crate) fn two_in(bytes: &[u8], at: &mut usize) -> Result<u16, CodecRefused>
    ensures exact { TakesPart (λ n. n) result
        (two_at (drop at.old bytes.now)) bytes.now at.new }
{
    Ok(take_u16(bytes, at)?)
}

pub(crate) fn four_in(bytes: &[u8], at: &mut usize) -> Result<u32, CodecRefused>
    ensures exact { TakesPart (λ n. n) result
        (four_at (drop at.old bytes.now)) bytes.now at.new }
{
    Ok(take_u32(bytes, at)?)
}

pub(crate) fn eight_in(bytes: &[u8], at: &mut usize) -> Result<u64, CodecRefused>
    ensures exact { TakesPart (λ n. n) result
        (eight_at (drop at.old bytes.now)) bytes.now at.new }
{
    Ok(take_u64(bytes, at)?)
}

// The text that bytes are.
fn text_of(bytes: &[u8]) -> &str
    requires { IsText bytes.now }
    ensures { result.now ≡ bytes.now }
{
    match std::str::from_utf8(bytes) {
        Ok(text) => text,
        Err(_) => unreachable!(),
    }
}

pub(crate) fn name_in(alloc: Global, bytes: &[u8], at: &mut usize) -> Result<Name, CodecRefused>
    ensures exact { TakesPart (λ n. n) result
        (name_at (drop at.old bytes.now)) bytes.now at.new }
{
    let text = take_text(bytes, at)?;
    let name = Name::of(alloc, text_of(text))?;
    Ok(name)
}

// The filter that a text is (MQTT 4.7).
fn filter_of(alloc: Global, text: &str) -> Result<Filter, CodecRefused>
    ensures ok { IfOk result (λ f. (f ≡ levels_of text.now) × (filter_refusal text.now ≡ None)) }
    ensures bad { IsErrOf result CodecRefused.Bad → IsSome (filter_refusal text.now) }
{
    match Filter::read(alloc, text) {
        Ok(filter) => Ok(filter),
        Err(FilterRefused::Memory) => Err(CodecRefused::Memory),
        Err(_) => Err(CodecRefused::Bad),
    }
}

pub(crate) fn filter_in(alloc: Global, bytes: &[u8], at: &mut usize) -> Result<Filter, CodecRefused>
    ensures exact { TakesPart (λ f. f) result
        (filter_at (drop at.old bytes.now)) bytes.now at.new }
{
    let text = take_text(bytes, at)?;
    let filter = filter_of(alloc, text_of(text))?;
    Ok(filter)
}

// 0 or 1.
pub(crate) fn flag_in(bytes: &[u8], at: &mut usize) -> Result<bool, CodecRefused>
    ensures exact { TakesPart (λ b. b) result
        (flag_at (drop at.old bytes.now)) bytes.now at.new }
{
    let flag = byte_in(bytes, at)?;
    if flag > 1 {
        return Err(CodecRefused::Bad);
    }
    Ok(flag == 1)
}

// Any number but the greatest.
pub(crate) fn moment_in(bytes: &[u8], at: &mut usize) -> Result<u64, CodecRefused>
    ensures exact { TakesPart (λ n. n) result
        (moment_at (drop at.old bytes.now)) bytes.now at.new }
{
    let moment = eight_in(bytes, at)?;
    if moment == u64::MAX {
        return Err(CodecRefused::Bad);
    }
    Ok(moment)
}

// The moment of parting, which the greatest number tells there was none.
pub(crate) fn parting_in(bytes: &[u8], at: &mut usize) -> Result<Option<u64>, CodecRefused>
    ensures exact { TakesPart (λ p. p) result
        (parting_at (drop at.old bytes.now)) bytes.now at.new }
{
    let moment = eight_in(bytes, at)?;
    if moment == u64::MAX {
        return Ok(None);
    }
    Ok(Some(moment))
}

// The window, which isn't there in the first format.
pub(crate) fn window_in(format: u8, bytes: &[u8], at: &mut usize) -> Result<u16, CodecRefused>
    ensures exact { TakesPart (λ n. n) result
        (window_at format (drop at.old bytes.now)) bytes.now at.new }
{
    if format == FIRST_FORMAT {
        return Ok(FIRST_WINDOW);
    }
    two_in(bytes, at)
}

// Nothing may stand behind the last part.
#[tactic(auto, using(crate::specs::PartLaws::more_left))]
pub(crate) fn ends(bytes: &[u8], at: usize) -> Result<(), CodecRefused>
    ensures ok { IfOk result (λ done. drop at bytes.now ≡ []) }
    ensures err { IfErr result (λ e. (e ≡ CodecRefused.Bad) × IsMore (drop at bytes.now)) }
{
    if at < bytes.len() {
        return Err(CodecRefused::Bad);
    }
    Ok(())
}
