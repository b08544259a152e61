ghost use Rattle.std.specs.Prelude.{◌≡◌, ◌+◌, drop};
ghost use Rattle.session_codec.specs.Reading.{made};
ghost use Rattle.session_codec.specs.Taking.{TakesPart};
ghost use Rattle.record_codec.specs.Records.{offsets_of};
ghost use Rattle.record_codec.specs.Reading.{told_at, message_of, store_at, body_at, op_at, op_count_at, ops_at, so_many_in_turn};

use crate::fields::{
    byte_in, delivery_in, eight_in, expiry_in, payload_in, props_in, sender_in, topic_in, two_in,
};
use crate::formats::MOST_OPERATIONS;
use crate::group::Op;
use session_codec::CodecRefused;
use std::alloc::Global;
use topic_name::{Body, Message};

// The bytes that tell the kinds of operations.

pub(crate) const STORE: u8 = 1;

pub(crate) const RELEASE: u8 = 2;

pub(crate) const FORGET: u8 = 3;

pub(crate) const EXPIRING_STORE: u8 = 4;

// Where a group's next message goes: the first offset, and how many Stores there were.
#[derive(Clone, Copy)]
struct Next {
    first: u64,
    stores: u64,
}

// Each takes a part of a group from the place `at`, and moves `at` behind it.

fn message_in(
    alloc: Global,
    offset: u64,
    expires: bool,
    bytes: &[u8],
    at: &mut usize,
) -> Result<Message, CodecRefused>
    ensures exact { TakesPart (λ m. m) result
        (made (message_of offset) (told_at expires) (drop at.old bytes.now)) bytes.now at.new }
{
    let (publisher, incarnation) = sender_in(alloc, bytes, at)?;
    let (id, qos) = delivery_in(bytes, at)?;
    let stamp = eight_in(bytes, at)?;
    let expiry = expiry_in(expires, bytes, at)?;
    let topic = topic_in(alloc, bytes, at)?;
    let props = props_in(alloc, bytes, at)?;
    let payload = payload_in(alloc, bytes, at)?;
    Ok(Message {
        offset,
        publisher,
        incarnation,
        id,
        qos,
        stamp,
        expiry,
        topic,
        props,
        body: Body::Here(payload),
    })
}

// A message at the next offset. No offset passes the greatest number.
fn store_in(
    alloc: Global,
    next: Next,
    expires: bool,
    bytes: &[u8],
    at: &mut usize,
) -> Result<Message, CodecRefused>
    ensures exact { TakesPart (λ m. m) result
        (store_at (next.first + next.stores) expires (drop at.old bytes.now)) bytes.now at.new }
{
    let Some(offset) = next.first.checked_add(next.stores) else {
        return Err(CodecRefused::Bad);
    };
    let message = message_in(alloc, offset, expires, bytes, at)?;
    Ok(message)
}

// What stands behind the byte that tells the kind.
fn body_in(
    alloc: Global,
    next: Next,
    tag: u8,
    bytes: &[u8],
    at: &mut usize,
) -> Result<Op, CodecRefused>
    ensures exact { TakesPart (λ o. o) result
        (body_at (next.first + next.stores) tag (drop at.old bytes.now)) bytes.now at.new }
{
    if tag == STORE {
        Ok(Op::Store(store_in(alloc, next, false, bytes, at)?))
    } else if tag == RELEASE {
        let (publisher, incarnation) = sender_in(alloc, bytes, at)?;
        let id = two_in(bytes, at)?;
        Ok(Op::Release {
            publisher,
            incarnation,
            id,
        })
    } else if tag == FORGET {
        let (publisher, incarnation) = sender_in(alloc, bytes, at)?;
        Ok(Op::Forget {
            publisher,
            incarnation,
        })
    } else if tag == EXPIRING_STORE {
        Ok(Op::Store(store_in(alloc, next, true, bytes, at)?))
    } else {
        Err(CodecRefused::Bad)
    }
}

fn op_in(alloc: Global, next: Next, bytes: &[u8], at: &mut usize) -> Result<Op, CodecRefused>
    ensures exact { TakesPart (λ o. o) result
        (op_at (next.first + next.stores) (drop at.old bytes.now)) bytes.now at.new }
{
    let tag = byte_in(bytes, at)?;
    let op = body_in(alloc, next, tag, bytes, at)?;
    Ok(op)
}

// How many offsets an operation takes.
fn offsets_of(op: &Op) -> u64
    ensures { result ≡ offsets_of op.now }
{
    match op {
        Op::Store(_) => 1,
        Op::Release { .. } => 0,
        Op::Forget { .. } => 0,
    }
}

// So many operations.
fn so_many_in(
    alloc: Global,
    first: u64,
    count: u16,
    bytes: &[u8],
    at: &mut usize,
) -> Result<Vec<Op>, CodecRefused>
    ensures exact { TakesPart (λ v. v.items) result
        (so_many_in_turn op_at offsets_of first count (drop at.old bytes.now)) bytes.now at.new }
{
    let mut ops = Vec::new(alloc);
    let mut stores = 0;
    for _ in 0..count {
        let op = op_in(alloc, Next { first, stores }, bytes, at)?;
        stores += offsets_of(&op);
        ops.push(op)?;
    }
    Ok(ops)
}

// How many operations a group has.
fn count_in(bytes: &[u8], at: &mut usize) -> Result<u16, CodecRefused>
    ensures exact { TakesPart (λ n. n) result
        (op_count_at (drop at.old bytes.now)) bytes.now at.new }
{
    let count = two_in(bytes, at)?;
    if count == 0 || MOST_OPERATIONS < count {
        return Err(CodecRefused::Bad);
    }
    Ok(count)
}

// How many operations there are, and these.
pub(crate) fn ops_in(
    alloc: Global,
    first: u64,
    bytes: &[u8],
    at: &mut usize,
) -> Result<Vec<Op>, CodecRefused>
    ensures exact { TakesPart (λ v. v.items) result
        (ops_at first (drop at.old bytes.now)) bytes.now at.new }
{
    let count = count_in(bytes, at)?;
    let ops = so_many_in(alloc, first, count, bytes, at)?;
    Ok(ops)
}
