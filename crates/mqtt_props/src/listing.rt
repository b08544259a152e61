ghost use Rattle.std.specs.Prelude.{◌≡◌, ◌++◌, drop, length, All, IfOk, OnOk, OnErr};
ghost use Rattle.std.specs.List.{list_any};
ghost use Rattle.std.specs.List.Sorted.{IsPermutation};
ghost use Rattle.mqtt_props.specs.Prop.{is_bad, IsProp, IsPropIn};
ghost use Rattle.mqtt_props.specs.Props.{all_stand_in, each_at, has_identifier, has_repeated, in_writing_order, if_var, spelled_bare, GivesAs};

use crate::prop::{Prop, prop_length, write_prop};
use crate::reading::read_prop;
use crate::refused::PropRefused;
use crate::table::{Holder, may_repeat, stands_in};
use std::alloc::{AllocError, Global};
use wire_fields::MOST_VAR;

// The properties that fill the bytes, as they come.
pub(crate) fn read_each(
    alloc: Global,
    holder: Holder,
    bytes: &[u8],
) -> Result<Vec<Prop>, PropRefused>
    ensures exact { GivesAs (λ v. v.items) result (each_at holder bytes.now) }
    ensures fits { IfOk result (λ v. All (IsPropIn holder) v.items) }
{
    let mut list = Vec::new(alloc);
    let mut at = 0;
    while at < bytes.len() {
        let prop = read_prop(alloc, holder, bytes, &mut at)?;
        list.push(prop)?;
    }
    Ok(list)
}

fn has_identifier(identifier: u8, list: &[Prop]) -> bool
    ensures { result ≡ has_identifier identifier list.now }
{
    list.iter().any(|p| p.identifier() == identifier)
}

// Whether a second property stands where only one may.
pub(crate) fn has_repeated(holder: Holder, list: &[Prop]) -> bool
    ensures { result ≡ has_repeated holder list.now }
{
    for at in 0..list.len() {
        let identifier = list[at].identifier();
        if !may_repeat(identifier, holder) && has_identifier(identifier, &list[at + 1..]) {
            return true;
        }
    }
    false
}

pub(crate) fn has_bad(list: &[Prop]) -> bool
    ensures { result ≡ list_any is_bad list.now }
{
    list.iter().any(|p| p.is_bad())
}

// Whether each may stand there.
pub(crate) fn all_stand_in(holder: Holder, list: &[Prop]) -> bool
    ensures { result ≡ all_stand_in holder list.now }
{
    list.iter().all(|p| stands_in(p.identifier(), holder))
}

// By ascending identifier, equal ones in their order.
pub(crate) fn sort_props(list: &mut Vec<Prop>) -> Result<(), AllocError>
    requires { All IsProp list.old.items }
    ensures ok { OnOk result (list.new.items ≡ in_writing_order list.old.items) }
    ensures err { OnErr result (list.new.items ≡ list.old.items) }
    ensures same { IsPermutation list.old.items list.new.items }
    ensures fits { All IsProp list.new.items }
    ensures again { OnOk result (in_writing_order list.new.items ≡ list.new.items) }
{
    list.sort_by_key(|p| p.identifier())?;
    Ok(())
}

// Writes them one after another. On want of memory `out` stays as it was.
pub(crate) fn put_each(list: &[Prop], out: &mut Vec<u8>) -> Result<(), AllocError>
    requires { All IsProp list.now }
    ensures ok { OnOk result (out.new.items ≡ out.old.items ++ spelled_bare list.now) }
    ensures err { OnErr result (out.new.items ≡ out.old.items) }
{
    let before = out.len();
    for prop in list {
        if let Err(error) = write_prop(prop, out) {
            out.truncate(before);
            return Err(error);
        }
    }
    Ok(())
}

// How many bytes they take, where a variable byte integer tells it (MQTT 1.5.5).
pub(crate) fn bare_length(list: &[Prop]) -> Option<u32>
    requires { All IsProp list.now }
    ensures { result ≡ if_var (length (spelled_bare list.now)) }
{
    let mut total = 0;
    for prop in list {
        total += prop_length(prop);
        if total > MOST_VAR as usize {
            return None;
        }
    }
    Some(total as u32)
}
