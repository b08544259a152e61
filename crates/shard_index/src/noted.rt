// What each publisher awaits, by its name.
ghost use Rattle.std.specs.Prelude.{◌≡◌, [], true, false, None, Some, IfOk, OnOk, OnErr, if◌then◌else◌};
ghost use Rattle.std.specs.Str.{bytes_eq};
ghost use Rattle.indexmap.specs.IndexMap.{get};
ghost use Rattle.shard_index.specs.Identifiers.{Notes, identifier_of, is_noted, no_change, with_noted, without_all, without_noted};

use crate::identifiers::{Identifier, Identifiers};
use crate::{Awaited, Publisher};
use indexmap::IndexMap;
use std::alloc::AllocError;
use topic_name::Name;

fn identifier_of(awaited: &Awaited) -> Identifier
    ensures { result ≡ identifier_of awaited.now }
{
    Identifier {
        incarnation: awaited.incarnation,
        id: awaited.id,
    }
}

pub(crate) fn is_noted(
    noted: &IndexMap<Name, Identifiers>,
    publisher: &Name,
    identifier: Identifier,
) -> bool
    ensures { result ≡ is_noted noted.now.entries publisher.now identifier }
{
    match noted.get(publisher) {
        Some(identifiers) => identifiers.has(identifier),
        None => false,
    }
}

pub(crate) fn note(
    noted: &mut IndexMap<Name, Identifiers>,
    awaited: &Awaited,
) -> Result<(), AllocError>
    ensures noted { OnOk result (Notes (with_noted awaited.now) noted.old.entries
        noted.new.entries) }
    ensures memory { OnErr result (Notes no_change noted.old.entries noted.new.entries) }
{
    if note_held(noted, awaited)? {
        return Ok(());
    }
    note_first(noted, awaited)
}

// Notes an identifier of a publisher that awaits others, and gives whether it does.
fn note_held(noted: &mut IndexMap<Name, Identifiers>, awaited: &Awaited) -> Result<bool, AllocError>
    ensures noted { IfOk result (λ held. Notes (if held then with_noted awaited.now
        else no_change) noted.old.entries noted.new.entries) }
    ensures absent { IfOk result (λ held. held ≡ false
        → get bytes_eq noted.new awaited.now.publisher ≡ None) }
    ensures memory { OnErr result (Notes no_change noted.old.entries noted.new.entries) }
{
    let Some(identifiers) = noted.get_mut(&awaited.publisher) else {
        return Ok(false);
    };
    identifiers.add(identifier_of(awaited))?;
    Ok(true)
}

fn note_first(noted: &mut IndexMap<Name, Identifiers>, awaited: &Awaited) -> Result<(), AllocError>
    requires { get bytes_eq noted.old awaited.now.publisher ≡ None }
    ensures noted { OnOk result (Notes (with_noted awaited.now) noted.old.entries
        noted.new.entries) }
    ensures memory { OnErr result (Notes no_change noted.old.entries noted.new.entries) }
{
    let mut identifiers = Identifiers::new(*noted.allocator());
    identifiers.add(identifier_of(awaited))?;
    noted.insert(awaited.publisher.copy()?, identifiers)?;
    Ok(())
}

pub(crate) fn unnote(noted: &mut IndexMap<Name, Identifiers>, awaited: &Awaited)
    ensures { Notes (without_noted awaited.now) noted.old.entries noted.new.entries }
{
    unnote_held(noted, awaited);
    drop_empty(noted, &awaited.publisher);
}

fn unnote_held(noted: &mut IndexMap<Name, Identifiers>, awaited: &Awaited)
    ensures { Notes (without_noted awaited.now) noted.old.entries noted.new.entries }
{
    let Some(identifiers) = noted.get_mut(&awaited.publisher) else {
        return;
    };
    identifiers.take(identifier_of(awaited));
}

pub(crate) fn unnote_all(noted: &mut IndexMap<Name, Identifiers>, publisher: &Publisher)
    ensures { Notes (without_all publisher.now.name publisher.now.incarnation) noted.old.entries
        noted.new.entries }
{
    unnote_all_held(noted, publisher);
    drop_empty(noted, &publisher.name);
}

fn unnote_all_held(noted: &mut IndexMap<Name, Identifiers>, publisher: &Publisher)
    ensures { Notes (without_all publisher.now.name publisher.now.incarnation) noted.old.entries
        noted.new.entries }
{
    let Some(identifiers) = noted.get_mut(&publisher.name) else {
        return;
    };
    identifiers.forget(publisher.incarnation);
}

// A publisher that awaits nothing any more is not kept.
fn drop_empty(noted: &mut IndexMap<Name, Identifiers>, name: &Name)
    ensures { Notes no_change noted.old.entries noted.new.entries }
{
    if awaits_nothing(noted, name) {
        noted.swap_remove(name);
    }
}

fn awaits_nothing(noted: &IndexMap<Name, Identifiers>, name: &Name) -> bool
    ensures { result ≡ true → get bytes_eq noted.now name.now ≡ Some [] }
{
    match noted.get(name) {
        Some(identifiers) => identifiers.is_empty(),
        None => false,
    }
}
