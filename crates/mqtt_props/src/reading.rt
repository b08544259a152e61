ghost use Rattle.std.specs.Prelude.{◌≡◌, ◌<◌, ◌≤◌, drop, length, Some, true, IfOk, OnOk, OnErr};
ghost use Rattle.wire_fields.specs.Reading.{text_at, bin_at, var_at};
ghost use Rattle.wire_fields.specs.Text.{IsText};
ghost use Rattle.mqtt_props.specs.Table.{value_type, stands_in};
ghost use Rattle.mqtt_props.specs.Prop.{id_of, IsProp, IsPropIn, IsShortText};
ghost use Rattle.mqtt_props.specs.Reading.{or_spelling, texts_at, type_in, value_at, prop_at, TakesOne, TypeGiven};

use crate::prop::Prop;
use crate::refused::PropRefused;
use crate::table::{Holder, ValueType, stands_in, value_type};
use std::alloc::{AllocError, Global};
use topic_name::{Blob, Name};
use wire_fields::{MOST_BIN, take_bin, take_text, take_u8, take_u16, take_u32, take_var};

/// Reads a property at the place `at` of a list that this holder has, and moves `at` behind it. A refusal is `Unknown`,
/// `Misplaced`, `Spelling` or `Memory`, and leaves `at` (MQTT 2.2.2.2).
#[tactic(auto, unfolding(crate::specs::Reading::prop_at))]
pub fn read_prop(
    alloc: Global,
    holder: Holder,
    bytes: &[u8],
    at: &mut usize,
) -> Result<Prop, PropRefused>
    // What it gives, computed.
    ensures exact { TakesOne result
        (prop_at holder (drop at.old bytes.now)) bytes.now at.old at.new }
    ensures moves { OnOk result (at.old < at.new) }
    // What is read may stand there.
    ensures fits { IfOk result (λ p. IsPropIn holder p) }
    ensures stays { OnErr result (at.new ≡ at.old) }
{
    let mut behind = *at;
    let identifier = take_var(bytes, &mut behind)?;
    let (identifier, value) = type_in(identifier, holder)?;
    let prop = value_in(alloc, value, identifier, bytes, &mut behind)?;
    *at = behind;
    Ok(prop)
}

// The identifier as a byte, and the type of its value.
fn type_in(identifier: u32, holder: Holder) -> Result<(u8, ValueType), PropRefused>
    ensures exact { TypeGiven result identifier (type_in identifier holder) }
    ensures typed { IfOk result (λ found. value_type found.0 ≡ Some found.1) }
    ensures stands { IfOk result (λ found. stands_in found.0 holder ≡ true) }
{
    let Ok(small) = u8::try_from(identifier) else {
        return Err(PropRefused::Unknown);
    };
    let Some(value) = value_type(small) else {
        return Err(PropRefused::Unknown);
    };
    if !stands_in(small, holder) {
        return Err(PropRefused::Misplaced);
    }
    Ok((small, value))
}

// A value of this type.
#[tactic(auto, using(crate::specs::TypeLaws::variable_is, crate::specs::TypeLaws::texts_are))]
fn value_in(
    alloc: Global,
    value: ValueType,
    identifier: u8,
    bytes: &[u8],
    at: &mut usize,
) -> Result<Prop, PropRefused>
    requires { value_type identifier ≡ Some value }
    ensures exact { TakesOne result
        (value_at value identifier (drop at.old bytes.now)) bytes.now at.old at.new }
    ensures fits { IfOk result (λ p. IsProp p) }
    ensures named { IfOk result (λ p. id_of p ≡ identifier) }
{
    match value {
        ValueType::OneByte => Ok(Prop::Byte(identifier, take_u8(bytes, at)?)),
        ValueType::TwoBytes => Ok(Prop::Two(identifier, take_u16(bytes, at)?)),
        ValueType::FourBytes => Ok(Prop::Four(identifier, take_u32(bytes, at)?)),
        ValueType::Variable => Ok(Prop::Var(take_var(bytes, at)?)),
        ValueType::OneText => Ok(Prop::Text(identifier, take_name(alloc, bytes, at)?)),
        ValueType::Binary => Ok(Prop::Bin(identifier, take_blob(alloc, bytes, at)?)),
        ValueType::TwoTexts => {
            let (name, value) = names_in(alloc, bytes, at)?;
            Ok(Prop::Pair(name, value))
        }
    }
}

fn name_of(alloc: Global, text: &[u8]) -> Result<Name, AllocError>
    requires { IsText text.now }
    ensures { IfOk result (λ n. n ≡ text.now) }
{
    match std::str::from_utf8(text) {
        Ok(text) => Name::of(alloc, text),
        Err(_) => unreachable!(),
    }
}

/// Reads a text at the place `at`, and moves `at` behind it (MQTT 1.5.4). A refusal is `Spelling` or `Memory`, and leaves
/// `at`.
pub fn take_name(alloc: Global, bytes: &[u8], at: &mut usize) -> Result<Name, PropRefused>
    ensures exact { TakesOne result
        (or_spelling (text_at (drop at.old bytes.now))) bytes.now at.old at.new }
    ensures moves { OnOk result (at.old < at.new) }
    ensures fits { IfOk result (λ n. IsShortText n) }
{
    let mut behind = *at;
    let text = take_text(bytes, &mut behind)?;
    let name = name_of(alloc, text)?;
    *at = behind;
    Ok(name)
}

/// Reads binary data at the place `at`, and moves `at` behind it (MQTT 1.5.6). A refusal is `Spelling` or `Memory`, and
/// leaves `at`.
pub fn take_blob(alloc: Global, bytes: &[u8], at: &mut usize) -> Result<Blob, PropRefused>
    ensures exact { TakesOne result
        (or_spelling (bin_at (drop at.old bytes.now))) bytes.now at.old at.new }
    ensures fits { IfOk result (λ b. length b ≤ MOST_BIN) }
{
    let mut behind = *at;
    let field = take_bin(bytes, &mut behind)?;
    let blob = Blob::of(alloc, field)?;
    *at = behind;
    Ok(blob)
}

fn names_in(alloc: Global, bytes: &[u8], at: &mut usize) -> Result<(Name, Name), PropRefused>
    ensures exact { TakesOne result
        (or_spelling (texts_at (drop at.old bytes.now))) bytes.now at.old at.new }
    ensures fits { IfOk result (λ t. IsShortText t.0 × IsShortText t.1) }
{
    let mut behind = *at;
    let name = take_name(alloc, bytes, &mut behind)?;
    let value = take_name(alloc, bytes, &mut behind)?;
    *at = behind;
    Ok((name, value))
}
