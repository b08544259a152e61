// How many identifiers are awaited behind operations that act, without an index that takes them.
ghost use Rattle.std.specs.Prelude.{true, ◌-◌, ◌≡◌, ◌+◌, ◌<◌, ◌≤◌, ◌==◌, ◌&&◌, ◌^◌, nat_lt, length, map, if◌then◌else◌, Some, None};
ghost use Rattle.shard_model.specs.Storing.{becomes_awaited};
ghost use Rattle.record_codec.specs.Records.{plain_op, plain_ops};
ghost use Rattle.group_plan.specs.Keeping.{acts_on, awaited_after, awaited_by, all_act};
ghost use Rattle.group_plan.specs.Counting.{asked_count, asks_for, asks_of, counted_after, counted_by, is_free, is_session, taken_total, total_by};

use record_codec::{MOST_OPERATIONS, Op};
use shard_index::Index;
use topic_name::{Message, Name};

// A count has sixteen bytes: an index may await as many as eight bytes tell, and operations add some.

// ---- whose an operation is

fn is_session(publisher: &Name, incarnation: u64, other: &Name, number: u64) -> bool
    ensures { result ≡ is_session publisher.now incarnation other.now number }
{
    publisher.is(other) && incarnation == number
}

// Whether an operation is of this session.
fn asks_of(asked: &Op, publisher: &Name, incarnation: u64) -> bool
    ensures { result ≡ asks_of (plain_op asked.now) publisher.now incarnation }
{
    match asked {
        Op::Store(message) => {
            is_session(
                &message.publisher,
                message.incarnation,
                publisher,
                incarnation,
            )
        }
        Op::Release {
            publisher: other,
            incarnation: number,
            ..
        } => is_session(other, *number, publisher, incarnation),
        Op::Forget {
            publisher: other,
            incarnation: number,
        } => is_session(other, *number, publisher, incarnation),
    }
}

// Whether an operation asks for this identifier.
fn asks_for(asked: &Op, publisher: &Name, incarnation: u64, id: u16) -> bool
    ensures { result ≡ asks_for (plain_op asked.now)
        (record { publisher = publisher.now; incarnation = incarnation; id = id }) }
{
    match asked {
        Op::Store(message) => {
            is_session(
                publisher,
                incarnation,
                &message.publisher,
                message.incarnation,
            ) && id == message.id
        }
        Op::Release {
            publisher: other,
            incarnation: number,
            id: named,
        } => is_session(publisher, incarnation, other, *number) && id == *named,
        Op::Forget {
            publisher: other,
            incarnation: number,
        } => is_session(publisher, incarnation, other, *number),
    }
}

// ---- what a Store adds

// Whether an identifier becomes awaited by a message.
fn makes_awaited(message: &Message) -> bool
    ensures { result ≡ ((message.now.stored.qos == 2) && nat_lt 0 message.now.stored.id) }
{
    message.qos == 2 && message.id > 0
}

fn one_if(is: bool) -> u128
    ensures { result ≡ (if is then 1 else 0) }
{
    if is { 1 } else { 0 }
}

// How many become awaited by a message.
fn awaited_count(message: &Message) -> u128
    ensures count { result ≡ length (becomes_awaited message.now.stored) }
    ensures most { result ≤ 1 }
{
    one_if(makes_awaited(message))
}

// How many of these an operation asks for.
fn asked_of(asked: &Op, message: &Message) -> u128
    ensures count { result
        ≡ asked_count (plain_op asked.now) (becomes_awaited message.now.stored) }
    ensures most { result ≤ 1 }
{
    let made = makes_awaited(message);
    let asks = asks_for(asked, &message.publisher, message.incarnation, message.id);
    one_if(made && asks)
}

// ---- behind operations

// How many there are that an operation asks for, behind one that acts.
fn counted_by(asked: &Op, op: &Op, count: u128) -> u128
    requires { count < 2 ^ 127 }
    ensures value { result ≡ counted_by (plain_op asked.now) (plain_op op.now) count }
    ensures most { result ≤ count + 1 }
{
    match op {
        Op::Store(message) => count + asked_of(asked, message),
        Op::Release {
            publisher,
            incarnation,
            id,
        } => less_if(asks_for(asked, publisher, *incarnation, *id), 1, count),
        Op::Forget {
            publisher,
            incarnation,
        } => less_if(asks_of(asked, publisher, *incarnation), count, count),
    }
}

// So many fewer, where it is so.
fn less_if(is: bool, gone: u128, count: u128) -> u128
    ensures { result ≡ (if is then count - gone else count) }
{
    if is {
        count.saturating_sub(gone)
    } else {
        count
    }
}

// Behind operations that act, of so many before them.
fn counted_after(asked: &Op, start: u128, kept: &[&Op]) -> u128
    requires few { length kept.now ≤ MOST_OPERATIONS }
    requires less { start < 2 ^ 65 }
    ensures { result ≡ counted_after (plain_op asked.now) start
        (plain_ops (map (λ o. o.now) kept.now)) }
{
    let mut count = start;
    for op in kept {
        count = counted_by(asked, op, count);
    }
    count
}

// Before any of them.
fn counted_in(index: &Index, asked: &Op) -> u128
    ensures count { result ≡ asked_count (plain_op asked.now) index.now.awaited }
    ensures less { result < 2 ^ 64 }
{
    index.facts();
    match asked {
        Op::Store(message) => {
            one_if(index.awaits(&message.publisher, message.incarnation, message.id))
        }
        Op::Release {
            publisher,
            incarnation,
            id,
        } => one_if(index.awaits(publisher, *incarnation, *id)),
        Op::Forget {
            publisher,
            incarnation,
        } => index.awaited_of(publisher, *incarnation) as u128,
    }
}

// Behind those that are kept so far.
fn counted_behind(index: &Index, kept: &[&Op], asked: &Op) -> u128
    requires few { length kept.now ≤ MOST_OPERATIONS }
    requires act { all_act index.now.awaited (plain_ops (map (λ o. o.now) kept.now)) ≡ true }
    ensures { result ≡ asked_count (plain_op asked.now)
        (awaited_after index.now.awaited (plain_ops (map (λ o. o.now) kept.now))) }
{
    index.facts();
    let start = counted_in(index, asked);
    counted_after(asked, start, kept)
}

// ---- in all

// Whether an operation acts whatever is awaited.
fn is_free(op: &Op) -> bool
    ensures { result ≡ is_free (plain_op op.now) }
{
    match op {
        Op::Store(message) => message.qos != 2,
        Op::Release { .. } => false,
        Op::Forget { .. } => false,
    }
}

fn taken_total(count: u128, total: u128) -> Option<u128>
    ensures { result ≡ taken_total count total }
{
    if count > 0 {
        Some(total.saturating_sub(count))
    } else {
        None
    }
}

// What a Store leaves of so many.
fn total_with(message: &Message, count: u128, total: u128) -> Option<u128>
    requires { total < 2 ^ 127 }
    ensures { result ≡ (if (message.now.stored.qos == 2) && nat_lt 0 count then None
        else Some (total + length (becomes_awaited message.now.stored))) }
{
    if message.qos == 2 && count > 0 {
        None
    } else {
        Some(total + awaited_count(message))
    }
}

fn total_by(op: &Op, count: u128, total: u128) -> Option<u128>
    requires { total < 2 ^ 127 }
    ensures { result ≡ total_by (plain_op op.now) count total }
{
    match op {
        Op::Store(message) => total_with(message, count, total),
        Op::Release { .. } => taken_total(count, total),
        Op::Forget { .. } => taken_total(count, total),
    }
}

// How many are awaited behind an operation, of so many behind those that are kept so far; `None` where it doesn't act.
pub(crate) fn total_behind(index: &Index, kept: &[&Op], op: &Op, total: u128) -> Option<u128>
    requires few { length kept.now ≤ MOST_OPERATIONS }
    requires act { all_act index.now.awaited (plain_ops (map (λ o. o.now) kept.now)) ≡ true }
    requires so_far { total ≡ length (awaited_after index.now.awaited
        (plain_ops (map (λ o. o.now) kept.now))) }
    requires less { total < 2 ^ 127 }
    ensures { let awaited = awaited_after index.now.awaited
        (plain_ops (map (λ o. o.now) kept.now)) in result ≡ (if acts_on awaited (plain_op op.now)
        then Some (length (awaited_by (plain_op op.now) awaited)) else None) }
{
    if is_free(op) {
        return total_by(op, 0, total);
    }
    let count = counted_behind(index, kept, op);
    total_by(op, count, total)
}
