ghost use Rattle.std.specs.Prelude.{◌≡◌, ◌+◌, ◌<◌, ◌≤◌, ◌==◌, ◌-◌, ◌^◌, ◌&&◌, [], ◌∷◌, filter, take, length, slice_get, Some, None, IsTrue, IsOk, IsSome, ◌↔◌, IfOk, OnOk, OnErr, if◌then◌else◌};
ghost use Rattle.std.specs.List.{IsDistinct};
ghost use Rattle.std.specs.Option.{option_copied};
ghost use Rattle.shard_model.specs.ShardList.{floor_of, next_of, newest};
ghost use Rattle.shard_model.specs.Storing.{awaits, is_of};
ghost use Rattle.shard_model.specs.Lists.{IsList};
ghost use Rattle.shard_model.specs.Capacity.{store_size};
ghost use Rattle.shard_model.specs.Storing.{same_triple};
ghost use Rattle.shard_index.specs.KeptIndex.{cut_of, kept_at, list_of};
ghost use Rattle.shard_index.specs.Sound.{newest_bytes};
ghost use Rattle.shard_index.specs.SoundLaws.{may_be_next, takes_one_more};
ghost use Rattle.shard_index.specs.Absorbing.{IsBehind, absorbed, absorbed_all, added_if, all_stand, are_of_group, forgotten, from_cuts, has_place, kept_after, kept_after_all, may_add, may_begin, released, rotated_if, stands, takes_no_memory, without_first};

use crate::awaited_list::AwaitedList;
use crate::lists::{
    add_to, begin_in, copies_of, drop_front, follow_all, is_after, newest_in, oldest_in,
};
use crate::size::{GENERATION_BYTES, left_behind};
use crate::{Awaited, IndexOp, Publisher};
use std::alloc::{AllocError, Global};
use std::collections::VecDeque;
use std::marker::Model;
use std::mem::replace;
use topic_name::{Descriptor, Message, Name};

/// The list of a shard in memory. Contracts see `KeptIndex`, and by `list_of` the model's list.
#[derive(Drop)]
pub struct Index {
    cuts: Vec<Descriptor>,
    messages: VecDeque<Message>,
    awaited: AwaitedList,
    // What is awaited once more, where the next group needs no copy of it.
    twin: Option<AwaitedList>,
    // The bytes that the newest generation has left.
    room: usize,
}

impl Model for Index {
    ghost use Rattle.std.specs.Prelude.{◌≡◌, IfSome};
    ghost use Rattle.shard_index.specs.KeptIndex.{KeptIndex, list_of};
    ghost use Rattle.shard_index.specs.Sound.{IsSound};

    ghost Value = { KeptIndex };

    ghost view = { λ i. record {
      cuts = i.cuts.items;
      messages = i.messages.items;
      awaited = i.awaited;
    } };

    ghost invariant = { λ i. IsSound (list_of (record {
      cuts = i.cuts.items;
      messages = i.messages.items;
      awaited = i.awaited;
    })) i.room
        × IfSome i.twin (λ twin. twin ≡ i.awaited) };
}

impl Index {
    /// One generation, without messages, and what is awaited at its beginning.
    pub fn new(alloc: Global, cut: Descriptor, awaited: &[Awaited]) -> Result<Index, AllocError>
        requires unsealed { cut.sealed ≡ None }
        requires distinct { IsDistinct same_triple awaited.now }
        ensures { IfOk result (λ index. index
            ≡ record { cuts = cut ∷ []; messages = []; awaited = awaited.now }) }
    {
        let awaited = AwaitedList::of(alloc, awaited)?;
        let mut cuts = Vec::new(alloc);
        cuts.push(cut)?;
        Ok(Index {
            cuts,
            messages: VecDeque::new(alloc),
            awaited,
            twin: None,
            room: GENERATION_BYTES,
        })
    }

    /// The same list again. Its messages share their bodies.
    pub fn copy(&self) -> Result<Index, AllocError>
        ensures { IfOk result (λ index. index ≡ self.now) }
    {
        let cuts = Vec::from_slice(*self.cuts.allocator(), &self.cuts)?;
        let messages = copies_of(&self.messages)?;
        let awaited = self.awaited.copy()?;
        Ok(Index {
            cuts,
            messages,
            awaited,
            twin: None,
            room: self.room,
        })
    }

    /// What holds of every index: its list is in order, its next offset has eight bytes, nothing is awaited twice, and
    /// the messages of the newest generation keep within their bytes. It does nothing.
    pub fn facts(&self)
        ensures order { IsList (list_of self.now) }
        ensures end { next_of (list_of self.now) < 2 ^ 64 }
        ensures distinct { IsDistinct same_triple self.now.awaited }
        ensures bytes { newest_bytes (list_of self.now) ≤ GENERATION_BYTES }
    {
        let _distinct = self.awaited.len();
    }

    // ---- generations and offsets

    /// The offset at which the oldest generation begins. Messages below it are gone.
    pub fn floor(&self) -> u64
        ensures { result ≡ floor_of (list_of self.now) }
    {
        oldest_in(&self.cuts).first
    }

    /// The offset of the next message.
    pub fn next_offset(&self) -> u64
        ensures { result ≡ next_of (list_of self.now) }
    {
        self.floor() + self.messages.len() as u64
    }

    /// How many generations there are: at least one.
    pub fn cut_count(&self) -> usize
        ensures { result ≡ length self.now.cuts }
    {
        self.cuts.len()
    }

    /// A generation by its place, from 0 on, oldest first; `None` behind the last.
    pub fn cut(&self, place: usize) -> Option<&Descriptor>
        ensures { option_copied result ≡ slice_get self.now.cuts place }
    {
        self.cuts.get(place)
    }

    /// The newest generation.
    pub fn newest(&self) -> &Descriptor
        ensures { cut_of result.now ≡ newest (list_of self.now) }
    {
        newest_in(&self.cuts)
    }

    /// How many bytes the messages of the newest generation take in groups.
    pub fn newest_bytes(&self) -> usize
        ensures { result ≡ newest_bytes (list_of self.now) }
    {
        GENERATION_BYTES - self.room
    }

    // ---- messages

    /// The message with an offset: `None` below the floor, and from the next offset on.
    pub fn message(&self, offset: u64) -> Option<&Message>
        ensures found { option_copied result ≡ kept_at self.now offset }
        ensures held { IsSome result
            ↔ ((floor_of (list_of self.now) ≤ offset) × (offset < next_of (list_of self.now))) }
    {
        let floor = self.floor();
        if offset < floor {
            return None;
        }
        self.messages.get((offset - floor) as usize)
    }

    // ---- what is awaited

    /// Whether an identifier of a publisher's session is awaited.
    pub fn awaits(&self, publisher: &Name, incarnation: u64, id: u16) -> bool
        ensures { result ≡ awaits (list_of self.now) publisher.now incarnation id }
    {
        self.awaited.has(publisher, incarnation, id)
    }

    /// How many identifiers are awaited.
    pub fn awaited_count(&self) -> usize
        ensures { result ≡ length self.now.awaited }
    {
        self.awaited.len()
    }

    /// An awaited identifier by its place, from 0 on, in the order in which they became awaited; `None` behind the last.
    pub fn awaited(&self, place: usize) -> Option<&Awaited>
        ensures { option_copied result ≡ slice_get self.now.awaited place }
    {
        self.awaited.get(place)
    }

    /// How many identifiers of a publisher's session are awaited. It goes through all that are.
    pub fn awaited_of(&self, publisher: &Name, incarnation: u64) -> usize
        ensures { result ≡ length (filter (is_of publisher.now incarnation) self.now.awaited) }
    {
        self.awaited.count_of(publisher, incarnation)
    }

    // ---- operations

    /// Whether an operation can stand: `absorb` says where one can't.
    pub fn stands(&self, op: &IndexOp) -> bool
        ensures { result ≡ stands (list_of self.now) op.now }
    {
        match op {
            IndexOp::Add(message) => self.may_add(message),
            IndexOp::Release(awaited) => {
                self.awaits(&awaited.publisher, awaited.incarnation, awaited.id)
            }
            IndexOp::Forget(publisher) => self
                .awaited
                .has_of(&publisher.name, publisher.incarnation),
            IndexOp::Rotate { cut, .. } => self.may_begin(cut),
            IndexOp::Drop => self.cuts.len() > 1,
        }
    }

    // Whether a message has a place, and of QoS 2 its identifier isn't awaited.
    fn may_add(&self, message: &Message) -> bool
        ensures { result ≡ may_add (list_of self.now) message.now.stored }
    {
        if self.room_behind(message).is_none() {
            return false;
        }
        self.awaited.takes(message)
    }

    /// Lets an operation act. One that can't stand changes nothing: an Add whose offset isn't the next one or is the
    /// greatest, whose identifier of QoS 2 is awaited, or that the newest generation has no room for; a Rotate whose
    /// generation hasn't the number after the newest one's, doesn't begin at the next offset or is sealed; and a Drop of
    /// the only generation. On want of memory nothing changes.
    pub fn absorb(&mut self, op: &IndexOp) -> Result<(), AllocError>
        ensures list { OnOk result (list_of self.new ≡ absorbed op.now (list_of self.old)) }
        ensures kept { OnOk result (self.new ≡ kept_after op.now self.old) }
        ensures memory { OnErr result (self.new ≡ self.old) }
        ensures succeeds { IsTrue (takes_no_memory op.now) → IsOk result }
    {
        match op {
            IndexOp::Add(message) => self.add(message),
            IndexOp::Release(awaited) => {
                self.release(awaited);
                Ok(())
            }
            IndexOp::Forget(publisher) => {
                self.forget(publisher);
                Ok(())
            }
            IndexOp::Rotate { now, cut } => self.rotate(*now, cut),
            IndexOp::Drop => {
                self.drop_oldest();
                Ok(())
            }
        }
    }

    /// Lets the operations of a group act, all of them or none: on want of memory nothing changes.
    pub fn absorb_all(&mut self, ops: &[IndexOp]) -> Result<(), AllocError>
        // They are Adds, Releases and Forgets, and each can stand over the list that those before it leave.
        requires group { IsTrue (are_of_group ops.now) }
        requires stand { IsTrue (all_stand (list_of self.old) ops.now) }
        ensures list { OnOk result (list_of self.new ≡ absorbed_all ops.now (list_of self.old)) }
        ensures kept { OnOk result (self.new ≡ kept_after_all ops.now self.old) }
        ensures memory { OnErr result (self.new ≡ self.old) }
    {
        let mut before = self.take_twin()?;
        let length = self.messages.len();
        let bytes = self.newest_bytes();
        if let Err(error) = self.absorb_each(ops) {
            self.go_back(before, length, bytes);
            return Err(error);
        }
        if follow_all(&mut before, ops).is_ok() {
            self.keep_twin(before);
        }
        Ok(())
    }

    // What is awaited, as another list takes its place that is equal.
    fn take_twin(&mut self) -> Result<AwaitedList, AllocError>
        ensures same { self.new ≡ self.old }
        ensures taken { IfOk result (λ taken. taken ≡ self.old.awaited) }
    {
        let twin = match self.twin.take() {
            Some(twin) => twin,
            None => self.awaited.copy()?,
        };
        Ok(replace(&mut self.awaited, twin))
    }

    // Keeps an equal list for the next group.
    fn keep_twin(&mut self, twin: AwaitedList)
        requires { twin ≡ self.old.awaited }
        ensures { self.new ≡ self.old }
    {
        self.twin = Some(twin);
    }

    // Puts back what was awaited, and takes the messages away behind so many.
    fn go_back(&mut self, awaited: AwaitedList, length: usize, bytes: usize)
        requires order { IsList (list_of (record self.old {
          messages = take length self.old.messages;
          awaited = awaited;
        })) }
        requires end { next_of (list_of (record self.old {
          messages = take length self.old.messages;
          awaited = awaited;
        })) < 2 ^ 64 }
        requires bytes { bytes ≡ newest_bytes (list_of (record self.old {
          messages = take length self.old.messages;
          awaited = awaited;
        })) }
        requires room { bytes ≤ GENERATION_BYTES }
        ensures { self.new ≡ record self.old {
          messages = take length self.old.messages;
          awaited = awaited;
        } }
    {
        self.twin = None;
        self.awaited = awaited;
        self.messages.truncate(length);
        self.room = GENERATION_BYTES - bytes;
    }

    // Lets operations act one after the other.
    fn absorb_each(&mut self, ops: &[IndexOp]) -> Result<(), AllocError>
        requires group { IsTrue (are_of_group ops.now) }
        ensures kept { OnOk result (self.new ≡ kept_after_all ops.now self.old) }
        ensures behind { OnErr result (IsBehind self.old self.new) }
    {
        for op in ops {
            self.absorb(op)?;
        }
        Ok(())
    }

    fn add(&mut self, message: &Message) -> Result<(), AllocError>
        ensures added { OnOk result (self.new
            ≡ added_if (may_add (list_of self.old) message.now.stored) message.now self.old) }
        ensures memory { OnErr result (self.new ≡ self.old) }
    {
        let Some(room) = self.room_behind(message) else {
            return Ok(());
        };
        self.twin = None;
        let added = add_to(&mut self.messages, &mut self.awaited, message)?;
        self.room = if_added(added, room, self.room);
        Ok(())
    }

    // The bytes that are left behind a message, `None` where it has no place.
    fn room_behind(&self, message: &Message) -> Option<usize>
        ensures { result ≡ (if has_place (list_of self.now) message.now.stored
            then Some (GENERATION_BYTES - (newest_bytes (list_of self.now)
            + store_size message.now.stored)) else None) }
    {
        if !may_be_next(message.offset, self.next_offset()) || !self.takes_one_more() {
            return None;
        }
        left_behind(message, self.room)
    }

    // Whether the newest generation takes one more message, by how many it has.
    fn takes_one_more(&self) -> bool
        ensures { result ≡ takes_one_more (list_of self.now) }
    {
        let newest = newest_in(&self.cuts);
        self.next_offset() - newest.first < newest.messages.into()
    }

    fn release(&mut self, awaited: &Awaited)
        ensures { self.new ≡ released awaited.now self.old }
    {
        self.twin = None;
        self.awaited.release(awaited);
    }

    fn forget(&mut self, publisher: &Publisher)
        ensures { self.new ≡ forgotten publisher.now self.old }
    {
        self.twin = None;
        self.awaited.forget(publisher);
    }

    fn rotate(&mut self, now: u64, cut: &Descriptor) -> Result<(), AllocError>
        ensures rotated { OnOk result (self.new
            ≡ rotated_if (may_begin (list_of self.old) (cut_of cut.now)) now cut.now self.old) }
        ensures memory { OnErr result (self.new ≡ self.old) }
    {
        if !self.may_begin(cut) {
            return Ok(());
        }
        begin_in(&mut self.cuts, now, *cut)?;
        self.room = GENERATION_BYTES;
        Ok(())
    }

    // Whether a generation may be the next one.
    fn may_begin(&self, cut: &Descriptor) -> bool
        ensures { result ≡ may_begin (list_of self.now) (cut_of cut.now) }
    {
        is_after(cut.number, self.newest().number)
            && cut.first == self.next_offset()
            && cut.sealed.is_none()
    }

    fn drop_oldest(&mut self)
        ensures { self.new ≡ from_cuts (without_first self.old.cuts) self.old }
    {
        if self.cuts.len() < 2 {
            return;
        }
        let gone = self.cuts[1].first - self.cuts[0].first;
        drop_front(&mut self.messages, gone);
        self.cuts.remove(0);
    }
}

// Whether an offset may be given where another is the next one.
fn may_be_next(offset: u64, next: u64) -> bool
    ensures { result ≡ may_be_next offset next }
{
    offset == next && offset < u64::MAX
}

fn if_added(added: bool, room: usize, before: usize) -> usize
    ensures { result ≡ (if added then room else before) }
{
    if added { room } else { before }
}
