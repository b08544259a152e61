// The lists of an index, each by itself.
ghost use Rattle.std.specs.Prelude.{◌≡◌, ◌+◌, ◌<◌, ◌==◌, ◌&&◌, ◌++◌, ◌∷◌, [], not, drop, filter, map, length, vec_len, vec_capacity, if◌then◌else◌, IfOk, OnOk, OnErr};
ghost use Rattle.std.specs.List.{list_any};
ghost use Rattle.shard_model.specs.ShardList.{newest_of, oldest_of};
ghost use Rattle.shard_model.specs.Storing.{becomes_awaited, is_awaited_as, is_of, triple_of};
ghost use Rattle.shard_index.specs.KeptIndex.{cut_of};
ghost use Rattle.shard_index.specs.Absorbing.{awaited_after, awaited_after_all, is_new, sealed_last};

use crate::awaited_list::AwaitedList;
use crate::{Awaited, IndexOp, Publisher};
use indexmap::IndexSet;
use std::alloc::AllocError;
use std::collections::VecDeque;
use topic_name::{Descriptor, Message, Name};

// ---- generations

pub(crate) fn oldest_in(cuts: &[Descriptor]) -> &Descriptor
    requires { 0 < length cuts.now }
    ensures { cut_of result.now ≡ oldest_of (map cut_of cuts.now) }
{
    &cuts[0]
}

pub(crate) fn newest_in(cuts: &[Descriptor]) -> &Descriptor
    requires { 0 < length cuts.now }
    ensures { cut_of result.now ≡ newest_of (map cut_of cuts.now) }
{
    &cuts[cuts.len() - 1]
}

// Whether a number is the one after another.
pub(crate) fn is_after(number: u64, before: u64) -> bool
    ensures { result ≡ (number == before + 1) }
{
    number > before && number - before == 1
}

// Seals the newest generation, and begins a new one.
pub(crate) fn begin_in(
    cuts: &mut Vec<Descriptor>,
    now: u64,
    cut: Descriptor,
) -> Result<(), AllocError>
    ensures begun { OnOk result (cuts.new.items ≡ sealed_last now cuts.old.items ++ cut ∷ []) }
    ensures memory { OnErr result (cuts.new.items ≡ cuts.old.items) }
{
    cuts.reserve(1)?;
    seal_last(cuts, now);
    cuts.push_reserved(cut);
    Ok(())
}

fn seal_last(cuts: &mut Vec<Descriptor>, now: u64)
    ensures items { cuts.new.items ≡ sealed_last now cuts.old.items }
    ensures len { vec_len cuts.new ≡ vec_len cuts.old }
    ensures capacity { vec_capacity cuts.new ≡ vec_capacity cuts.old }
{
    if let Some(newest) = cuts.pop() {
        cuts.push_reserved(sealed(newest, now));
    }
}

fn sealed(cut: Descriptor, now: u64) -> Descriptor
    ensures { result ≡ record cut { sealed = Some now } }
{
    Descriptor {
        sealed: Some(now),
        ..cut
    }
}

// ---- messages

// Takes so many away from the front.
pub(crate) fn drop_front(messages: &mut VecDeque<Message>, count: u64)
    ensures { messages.new.items ≡ drop count messages.old.items }
{
    for _place in 0..count {
        let _gone = messages.pop_front();
    }
}

pub(crate) fn copies_of(messages: &VecDeque<Message>) -> Result<VecDeque<Message>, AllocError>
    ensures { IfOk result (λ copies. copies.items ≡ messages.now.items) }
{
    let mut copies = VecDeque::new(*messages.allocator());
    for message in messages.iter() {
        copies.push_back(message.copy()?)?;
    }
    Ok(copies)
}

// ---- what is awaited

// Puts a message behind the others, and of QoS 2 makes its identifier awaited; or gives false where that is awaited.
pub(crate) fn add_to(
    messages: &mut VecDeque<Message>,
    awaited: &mut AwaitedList,
    message: &Message,
) -> Result<bool, AllocError>
    ensures added { IfOk result (λ added. added ≡ is_new awaited.old message.now.stored) }
    ensures messages { IfOk result (λ added. messages.new.items ≡ (if added
        then messages.old.items ++ message.now ∷ [] else messages.old.items)) }
    ensures awaited { IfOk result (λ added. awaited.new ≡ (if added
        then awaited.old ++ becomes_awaited message.now.stored else awaited.old)) }
    ensures messages_memory { OnErr result (messages.new.items ≡ messages.old.items) }
    ensures awaited_memory { OnErr result (awaited.new ≡ awaited.old) }
{
    let copy = message.copy()?;
    messages.reserve(1)?;
    let added = await_in(awaited, message)?;
    if added {
        messages.push_back_reserved(copy);
    }
    Ok(added)
}

fn await_in(awaited: &mut AwaitedList, message: &Message) -> Result<bool, AllocError>
    ensures added { IfOk result (λ added. added ≡ is_new awaited.old message.now.stored) }
    ensures awaited { IfOk result (λ added. awaited.new ≡ (if added
        then awaited.old ++ becomes_awaited message.now.stored else awaited.old)) }
    ensures memory { OnErr result (awaited.new ≡ awaited.old) }
{
    if message.qos != 2 {
        return Ok(true);
    }
    if message.id == 0 {
        return Ok(!awaited.has(&message.publisher, message.incarnation, 0));
    }
    let added = awaited.add(triple_of(message)?)?;
    Ok(added)
}

fn triple_of(message: &Message) -> Result<Awaited, AllocError>
    ensures { IfOk result (λ triple. triple ≡ triple_of message.now.stored) }
{
    let publisher = message.publisher.copy()?;
    Ok(Awaited {
        publisher,
        incarnation: message.incarnation,
        id: message.id,
    })
}

// Lets an operation of a group act on what is awaited alone.
fn follow(awaited: &mut AwaitedList, op: &IndexOp) -> Result<(), AllocError>
    ensures { OnOk result (awaited.new ≡ awaited_after op.now awaited.old) }
{
    match op {
        IndexOp::Add(message) => {
            await_in(awaited, message)?;
        }
        IndexOp::Release(released) => awaited.release(released),
        IndexOp::Forget(publisher) => awaited.forget(publisher),
        IndexOp::Rotate { .. } => {}
        IndexOp::Drop => {}
    }
    Ok(())
}

// The same of all operations of a group, in order. On want of memory some have acted.
pub(crate) fn follow_all(awaited: &mut AwaitedList, ops: &[IndexOp]) -> Result<(), AllocError>
    ensures { OnOk result (awaited.new ≡ awaited_after_all ops.now awaited.old) }
{
    for op in ops {
        follow(awaited, op)?;
    }
    Ok(())
}

pub(crate) fn release_in(awaited: &mut IndexSet<Awaited>, released: &Awaited)
    ensures { awaited.new.keys
        ≡ filter (λ a. not (is_awaited_as released.now.publisher released.now.incarnation
        released.now.id a)) awaited.old.keys }
{
    let _unique = awaited.len();
    awaited.shift_remove(released);
}

pub(crate) fn forget_in(awaited: &mut IndexSet<Awaited>, publisher: &Publisher)
    ensures { awaited.new.keys
        ≡ filter (λ a. not (is_of publisher.now.name publisher.now.incarnation a))
        awaited.old.keys }
{
    awaited.retain(|a| !is_of(publisher, a));
}

// Whether one of these is of a publisher's session.
pub(crate) fn has_of(awaited: &[Awaited], publisher: &Name, incarnation: u64) -> bool
    ensures { result ≡ list_any (is_of publisher.now incarnation) awaited.now }
{
    for triple in awaited {
        if is_from(triple, publisher, incarnation) {
            return true;
        }
    }
    false
}

// How many of these are.
pub(crate) fn count_of(awaited: &[Awaited], publisher: &Name, incarnation: u64) -> usize
    ensures { result ≡ length (filter (is_of publisher.now incarnation) awaited.now) }
{
    let mut count = 0;
    for triple in awaited {
        if is_from(triple, publisher, incarnation) {
            count += 1;
        }
    }
    count
}

fn is_from(awaited: &Awaited, publisher: &Name, incarnation: u64) -> bool
    ensures { result ≡ is_of publisher.now incarnation awaited.now }
{
    awaited.publisher.is(publisher) && awaited.incarnation == incarnation
}

fn is_of(publisher: &Publisher, awaited: &Awaited) -> bool
    ensures { result ≡ is_of publisher.now.name publisher.now.incarnation awaited.now }
{
    is_from(awaited, &publisher.name, publisher.incarnation)
}
