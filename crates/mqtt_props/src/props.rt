ghost use Rattle.std.specs.Prelude.{◌≡◌, ◌≤◌, ◌++◌, [], ◌∷◌, length, drop, All, IfOk, IfErr, OnOk, OnErr};
ghost use Rattle.std.specs.List.{list_any};
ghost use Rattle.mqtt_props.specs.declared.refused.PropRefused.TheVariants.{Repeated, BadValue};
ghost use Rattle.mqtt_props.specs.Prop.{is_bad, IsProp, IsPropIn};
ghost use Rattle.mqtt_props.specs.Reading.{TakesOne};
ghost use Rattle.mqtt_props.specs.Lookup.{forwarded};
ghost use Rattle.mqtt_props.specs.Sizes.{props_size};
ghost use Rattle.mqtt_props.specs.Props.{all_stand_in, has_repeated, in_writing_order, bare_list, list_at, checked, bare_props, whole_props, props_at, spelled_bare, spelled_props, if_var, AreProps, FitsIn, GivesAs};

use crate::listing::{
    all_stand_in, bare_length, has_bad, has_repeated, put_each, read_each, sort_props,
};
use crate::lookup::keep_forwarded;
use crate::prop::Prop;
use crate::refused::PropRefused;
use crate::table::Holder;
use std::alloc::{AllocError, Global};
use std::marker::Model;
use wire_fields::{MOST_VAR, put_var, take_var, var_length};

/// The properties of a packet or a will: each of its type, by ascending identifier, equal ones in their order. Seen as
/// their list.
#[derive(Debug, Drop)]
pub struct Props {
    list: Vec<Prop>,
}

impl Model for Props {
    ghost use Rattle.std.specs.Prelude.{List};
    ghost use Rattle.mqtt_props.specs.declared.prop.Prop.{Prop};
    ghost use Rattle.mqtt_props.specs.Props.{AreProps};

    ghost Value = { List Prop };

    ghost view = { λ p. p.list.items };

    ghost invariant = { λ p. AreProps p.list.items };
}

impl Props {
    /// No properties.
    pub fn new(alloc: Global) -> Props
        ensures { result ≡ [] }
    {
        Props {
            list: Vec::new(alloc),
        }
    }

    /// The properties in writing order.
    pub fn list(&self) -> &[Prop]
        ensures value { result.now ≡ self.now }
        // What each list of properties is.
        ensures known { AreProps self.now }
    {
        &self.list
    }

    /// Whether each may stand in a list of this holder (MQTT 2.2.2.2).
    pub fn all_stand_in(&self, holder: Holder) -> bool
        ensures { result ≡ all_stand_in holder self.now }
    {
        all_stand_in(holder, &self.list)
    }

    /// Whether a second property stands where this holder has only one (MQTT 2.2.2.2).
    pub fn has_repeated(&self, holder: Holder) -> bool
        ensures { result ≡ has_repeated holder self.now }
    {
        has_repeated(holder, &self.list)
    }

    /// Whether one has a value that the standard does not allow: a byte that may be 0 or 1 alone (MQTT 3.1.2.11.6,
    /// 3.1.2.11.7, 3.2.2.3.4, 3.2.2.3.5, 3.2.2.3.11 to 3.2.2.3.13, 3.3.2.3.2), and a Receive Maximum, a Maximum Packet
    /// Size or a Subscription Identifier of 0 (MQTT 3.1.2.11.3, 3.1.2.11.4, 3.8.2.1.2).
    pub fn has_bad(&self) -> bool
        ensures { result ≡ list_any is_bad self.now }
    {
        has_bad(&self.list)
    }

    /// Puts one behind those whose identifier is not greater.
    pub fn add(&mut self, prop: Prop) -> Result<(), AllocError>
        requires { IsProp prop }
        ensures ok { OnOk result (self.new ≡ in_writing_order (self.old ++ prop ∷ [])) }
        ensures err { OnErr result (self.new ≡ self.old) }
    {
        add_sorted(&mut self.list, prop)
    }

    /// Keeps what a server sends on to subscribers unaltered: Payload Format Indicator, Content Type, Response Topic,
    /// Correlation Data and User Properties. A Message Expiry Interval, which counts down, and Subscription Identifiers
    /// are for the caller to add (MQTT 3.3.2.3).
    pub fn keep_forwarded(&mut self)
        ensures { self.new ≡ forwarded self.old }
    {
        keep_forwarded(&mut self.list);
    }

    /// How many bytes they take one after another. None where that is above 268,435,455, the greatest length of a list
    /// (MQTT 2.2.2.1).
    pub fn length(&self) -> Option<u32>
        ensures { result ≡ if_var (length (spelled_bare self.now)) }
    {
        bare_length(&self.list)
    }

    /// How many bytes `write` puts: their length in front, and themselves (MQTT 2.2.2).
    pub fn written_length(&self) -> usize
        // `length` tells.
        requires { length (spelled_bare self.now) ≤ MOST_VAR }
        ensures bytes { result ≡ length (spelled_props self.now) }
        ensures exact { result ≡ props_size self.now }
        ensures few { result ≤ 268435459 }
    {
        let Some(bare) = bare_length(&self.list) else {
            unreachable!()
        };
        var_length(bare) + bare as usize
    }
}

fn add_sorted(list: &mut Vec<Prop>, prop: Prop) -> Result<(), AllocError>
    requires prop { IsProp prop }
    requires list { AreProps list.old.items }
    ensures ok { OnOk result (list.new.items ≡ in_writing_order (list.old.items ++ prop ∷ [])) }
    ensures err { OnErr result (list.new.items ≡ list.old.items) }
    ensures props { AreProps list.new.items }
{
    let before = list.len();
    list.push(prop)?;
    if let Err(error) = sort_props(list) {
        list.truncate(before);
        return Err(error);
    }
    Ok(())
}

// The properties that fill the bytes, in writing order. One that is repeated or has a bad value is no refusal.
fn bare_list(alloc: Global, holder: Holder, bytes: &[u8]) -> Result<Props, PropRefused>
    ensures exact { GivesAs (λ p. p) result (bare_list holder bytes.now) }
    ensures fits { IfOk result (λ ps. All (IsPropIn holder) ps) }
{
    let mut list = read_each(alloc, holder, bytes)?;
    sort_props(&mut list)?;
    Ok(Props { list })
}

// The same list, where none is repeated that may not be and none has a bad value.
fn checked(holder: Holder, props: Props) -> Result<Props, PropRefused>
    requires { All (IsPropIn holder) props }
    ensures exact { GivesAs (λ p. p) result (checked holder props) }
    ensures fits { IfOk result (λ ps. FitsIn holder ps) }
{
    if has_repeated(holder, &props.list) {
        return Err(PropRefused::Repeated);
    }
    if has_bad(&props.list) {
        return Err(PropRefused::BadValue);
    }
    Ok(props)
}

/// Reads a list of properties without its length in front, which fills the bytes, in any order. `Unknown`, `Misplaced`
/// and `Spelling` come by place in the bytes; else `Repeated`, and else `BadValue` (MQTT 2.2.2.2).
pub fn read_bare(alloc: Global, holder: Holder, bytes: &[u8]) -> Result<Props, PropRefused>
    // What it gives, computed.
    ensures exact { GivesAs (λ p. p) result (bare_props holder bytes.now) }
    // What is read may stand there.
    ensures fits { IfOk result (λ ps. FitsIn holder ps) }
{
    let props = bare_list(alloc, holder, bytes)?;
    let props = checked(holder, props)?;
    Ok(props)
}

/// Reads a list of properties with its length in front, which fills the bytes, in any order. A length that is not that
/// of what follows is `Spelling`, before all else; then as `read_bare` (MQTT 2.2.2).
pub fn read(alloc: Global, holder: Holder, bytes: &[u8]) -> Result<Props, PropRefused>
    // What it gives, computed.
    ensures exact { GivesAs (λ p. p) result (whole_props holder bytes.now) }
    // What is read may stand there.
    ensures fits { IfOk result (λ ps. FitsIn holder ps) }
{
    let mut at = 0;
    let size = take_var(bytes, &mut at)?;
    let list = &bytes[at..];
    if list.len() != size as usize {
        return Err(PropRefused::Spelling);
    }
    read_bare(alloc, holder, list)
}

/// Reads a list of properties with its length in front from the place `at` of a packet, in any order, and moves `at`
/// behind it. A property that is repeated or has a bad value is no refusal: `Props::has_repeated` and `Props::has_bad`
/// tell. A length that passes the end is `Spelling`, before all else; then `Unknown`, `Misplaced` and `Spelling` come
/// by place in the bytes. A refusal leaves `at` (MQTT 2.2.2).
#[tactic(auto, using(crate::specs::RefusedLaws::never_checked))]
pub fn take_list(
    alloc: Global,
    holder: Holder,
    bytes: &[u8],
    at: &mut usize,
) -> Result<Props, PropRefused>
    // What it gives, computed.
    ensures exact { TakesOne result
        (list_at holder (drop at.old bytes.now)) bytes.now at.old at.new }
    // What is read may stand there.
    ensures fits { IfOk result (λ ps. All (IsPropIn holder) ps) }
    ensures stays { OnErr result (at.new ≡ at.old) }
    // A property that is repeated or has a bad value is read here.
    ensures never { IfErr result (λ e. (e ≡ Repeated → ⊥) × (e ≡ BadValue → ⊥)) }
{
    let mut behind = *at;
    let size = take_var(bytes, &mut behind)? as usize;
    let rest = &bytes[behind..];
    if rest.len() < size {
        return Err(PropRefused::Spelling);
    }
    let props = bare_list(alloc, holder, &rest[..size])?;
    *at = behind + size;
    Ok(props)
}

/// Reads a list of properties with its length in front from the place `at` of a packet, and moves `at` behind it. A
/// length that passes the end is `Spelling`, before all else; then as `read_bare`. A refusal leaves `at` (MQTT 2.2.2).
pub fn take_props(
    alloc: Global,
    holder: Holder,
    bytes: &[u8],
    at: &mut usize,
) -> Result<Props, PropRefused>
    // What it gives, computed.
    ensures exact { TakesOne result
        (props_at holder (drop at.old bytes.now)) bytes.now at.old at.new }
    // What is read may stand there.
    ensures fits { IfOk result (λ ps. FitsIn holder ps) }
    ensures stays { OnErr result (at.new ≡ at.old) }
{
    let mut behind = *at;
    let props = take_list(alloc, holder, bytes, &mut behind)?;
    let props = checked(holder, props)?;
    *at = behind;
    Ok(props)
}

/// Writes a list at the end without its length in front. On want of memory `out` stays as it was.
pub fn write_bare(props: &Props, out: &mut Vec<u8>) -> Result<(), AllocError>
    ensures ok { OnOk result (out.new.items ≡ out.old.items ++ spelled_bare props.now) }
    ensures err { OnErr result (out.new.items ≡ out.old.items) }
{
    put_each(props.list(), out)
}

/// Writes a list at the end with its length in front (MQTT 2.2.2). It takes at most 268,435,455 bytes behind that. On
/// want of memory `out` stays as it was.
pub fn write(props: &Props, out: &mut Vec<u8>) -> Result<(), AllocError>
    // `Props::length` tells.
    requires { length (spelled_bare props.now) ≤ MOST_VAR }
    ensures ok { OnOk result (out.new.items ≡ out.old.items ++ spelled_props props.now) }
    ensures err { OnErr result (out.new.items ≡ out.old.items) }
{
    let before = out.len();
    let Some(size) = props.length() else {
        unreachable!()
    };
    put_var(size, out)?;
    if let Err(error) = write_bare(props, out) {
        out.truncate(before);
        return Err(error);
    }
    Ok(())
}
