ghost use Rattle.std.specs.Prelude.{◌≡◌, [], ◌++◌, ◌∷◌, true, not, filter, length, slice_get, if◌then◌else◌, Ok, IfOk, OnErr};
ghost use Rattle.std.specs.List.{list_any, IsDistinct};
ghost use Rattle.std.specs.Option.{option_copied};
ghost use Rattle.shard_model.specs.Storing.{is_awaited_as, is_of};
ghost use Rattle.shard_index.specs.Absorbing.{is_new};
ghost use Rattle.shard_model.specs.Storing.{same_triple};
ghost use Rattle.shard_index.specs.Triples.{are_distinct};

use crate::identifiers::{Identifier, Identifiers};
use crate::lists::{count_of, forget_in, has_of, release_in};
use crate::noted::{is_noted, note, unnote, unnote_all};
use crate::{Awaited, Publisher};
use indexmap::{IndexMap, IndexSet};
use std::alloc::{AllocError, Global};
use std::marker::Model;
use topic_name::{Message, Name};

/// What is awaited, in the order in which it became so. Contracts see the list.
#[derive(Drop)]
pub struct AwaitedList {
    order: IndexSet<Awaited>,
    // The same by publishers, so that a look-up needs no owned name.
    noted: IndexMap<Name, Identifiers>,
}

impl Model for AwaitedList {
    ghost use Rattle.std.specs.Prelude.{List};
    ghost use Rattle.shard_model.specs.ShardList.{Awaited as Triple};
    ghost use Rattle.shard_index.specs.Identifiers.{AreNoted};

    ghost Value = { List Triple };

    ghost view = { λ a. a.order.keys };

    ghost invariant = { λ a. AreNoted a.order.keys a.noted.entries };
}

impl AwaitedList {
    /// Nothing.
    pub fn new(alloc: Global) -> AwaitedList
        ensures { result ≡ [] }
    {
        AwaitedList {
            order: IndexSet::new(alloc),
            noted: IndexMap::new(alloc),
        }
    }

    /// These, in this order.
    pub fn of(alloc: Global, list: &[Awaited]) -> Result<AwaitedList, AllocError>
        requires { IsDistinct same_triple list.now }
        ensures { IfOk result (λ awaited. awaited ≡ list.now) }
    {
        let mut awaited = AwaitedList::new(alloc);
        for triple in list {
            awaited.add(triple.copy()?)?;
        }
        Ok(awaited)
    }

    /// The same list again.
    pub fn copy(&self) -> Result<AwaitedList, AllocError>
        ensures { IfOk result (λ awaited. awaited ≡ self.now) }
    {
        let awaited = AwaitedList::of(*self.order.allocator(), self.order.as_slice())?;
        Ok(awaited)
    }

    pub fn len(&self) -> usize
        ensures len { result ≡ length self.now }
        ensures distinct { IsDistinct same_triple self.now }
    {
        self.order.len()
    }

    pub fn get(&self, place: usize) -> Option<&Awaited>
        ensures { option_copied result ≡ slice_get self.now place }
    {
        self.order.get_index(place)
    }

    /// Whether an identifier is awaited.
    pub fn has(&self, publisher: &Name, incarnation: u64, id: u16) -> bool
        ensures { result ≡ list_any (is_awaited_as publisher.now incarnation id) self.now }
    {
        is_noted(&self.noted, publisher, Identifier { incarnation, id })
    }

    /// How many are of a publisher's session.
    pub fn count_of(&self, publisher: &Name, incarnation: u64) -> usize
        ensures { result ≡ length (filter (is_of publisher.now incarnation) self.now) }
    {
        count_of(self.order.as_slice(), publisher, incarnation)
    }

    /// Whether one is of a publisher's session.
    pub fn has_of(&self, publisher: &Name, incarnation: u64) -> bool
        ensures { result ≡ list_any (is_of publisher.now incarnation) self.now }
    {
        has_of(self.order.as_slice(), publisher, incarnation)
    }

    /// Whether a message, where it is of QoS 2, has an identifier that isn't awaited.
    pub fn takes(&self, message: &Message) -> bool
        ensures { result ≡ is_new self.now message.now.stored }
    {
        message.qos != 2 || !self.has(&message.publisher, message.incarnation, message.id)
    }

    /// Adds one behind the others, or gives false where it is there.
    pub fn add(&mut self, awaited: Awaited) -> Result<bool, AllocError>
        ensures added { IfOk result (λ added. added ≡ not (list_any (same_triple awaited) self.old)) }
        ensures list { IfOk result (λ added. self.new
            ≡ (if added then self.old ++ awaited ∷ [] else self.old)) }
        ensures memory { OnErr result (self.new ≡ self.old) }
    {
        if self.order.contains(&awaited) {
            return Ok(false);
        }
        self.order.reserve(1)?;
        note(&mut self.noted, &awaited)?;
        self.order.insert(awaited)?;
        Ok(true)
    }

    pub fn release(&mut self, released: &Awaited)
        ensures { self.new ≡ filter (λ a. not (is_awaited_as released.now.publisher
            released.now.incarnation released.now.id a)) self.old }
    {
        unnote(&mut self.noted, released);
        release_in(&mut self.order, released);
    }

    pub fn forget(&mut self, publisher: &Publisher)
        ensures { self.new ≡ filter (λ a. not (is_of publisher.now.name
            publisher.now.incarnation a)) self.old }
    {
        unnote_all(&mut self.noted, publisher);
        forget_in(&mut self.order, publisher);
    }
}

/// Whether no identifier stands twice in a list: what `Index::new` asks of it.
pub fn are_distinct(alloc: Global, list: &[Awaited]) -> Result<bool, AllocError>
    ensures value { IfOk result (λ distinct. distinct ≡ are_distinct list.now) }
    ensures distinct { result ≡ Ok true → IsDistinct same_triple list.now }
{
    let mut awaited = AwaitedList::new(alloc);
    for triple in list {
        let added = awaited.add(triple.copy()?)?;
        if !added {
            return Ok(false);
        }
    }
    let _distinct = awaited.len();
    Ok(true)
}
