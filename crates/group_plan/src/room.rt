// Whether the newest generation has room for the messages of operations.
ghost use Rattle.std.specs.Prelude.{◌≡◌, ◌≤◌, ◌<◌, ◌-◌, ◌^◌, ◌+◌, nat_le, min, length, map};
ghost use Rattle.shard_model.specs.ShardList.{newest, newest_messages, next_of};
ghost use Rattle.shard_index.specs.KeptIndex.{list_of};
ghost use Rattle.shard_index.specs.Sound.{newest_bytes};
ghost use Rattle.record_codec.specs.Records.{messages_of, offsets_of, plain_ops};
ghost use Rattle.record_codec.specs.Sizes.{counted_size, stores_size};
ghost use Rattle.group_plan.specs.Plan.{lacks_room};
ghost use Rattle.group_plan.specs.Room.{takes_more};

use crate::placing::offsets_of;
use record_codec::{MOST_OPERATIONS, Op, store_length};
use shard_index::{GENERATION_BYTES, Index};

// How many messages are stored.
fn store_count(kept: &[&Op]) -> u64
    requires { length kept.now ≤ MOST_OPERATIONS }
    ensures count { result ≡ length (messages_of (map (λ o. o.now) kept.now)) }
    ensures most { result ≤ MOST_OPERATIONS }
{
    let mut count = 0;
    for op in kept {
        count += offsets_of(op);
    }
    count
}

// How many bytes of a generation's limit an operation takes.
fn counted_length(op: &Op) -> u64
    ensures { result ≡ min (counted_size op.now) (2 ^ 64 - 1) }
{
    match op {
        Op::Store(message) => store_length(message),
        Op::Release { .. } => 0,
        Op::Forget { .. } => 0,
    }
}

// How many they take together: the greatest number where they are more than that.
fn stores_length(kept: &[&Op]) -> u64
    ensures { result ≡ min (stores_size (map (λ o. o.now) kept.now)) (2 ^ 64 - 1) }
{
    let mut total: u64 = 0;
    for op in kept {
        total = total.saturating_add(counted_length(op));
    }
    total
}

// ---- what is left

// How many messages the newest generation takes.
fn messages_left(index: &Index) -> u64
    ensures { result ≡ (newest (list_of index.now)).messages
        - length (newest_messages (list_of index.now)) }
{
    index.facts();
    let newest = index.newest();
    let first = newest.first;
    let next = index.next_offset();
    u64::from(newest.messages).saturating_sub(next - first)
}

// How many bytes of its limit are left.
fn bytes_left(index: &Index) -> u64
    ensures { result + newest_bytes (list_of index.now) ≡ GENERATION_BYTES }
{
    index.facts();
    (GENERATION_BYTES - index.newest_bytes()) as u64
}

// How many offsets there are that may still be given.
fn offsets_left(index: &Index) -> u64
    ensures { result + next_of (list_of index.now) ≡ 2 ^ 64 - 1 }
{
    u64::MAX - index.next_offset()
}

// Whether the newest generation takes so many messages more, with so many bytes.
fn takes_more(index: &Index, count: u64, bytes: u64) -> bool
    requires { 0 < count }
    ensures { result ≡ takes_more (list_of index.now) count bytes }
{
    let messages = messages_left(index);
    let left = bytes_left(index);
    let offsets = offsets_left(index);
    are_within(count, messages) && are_within(bytes, left) && are_within(count, offsets)
}

fn are_within(count: u64, left: u64) -> bool
    ensures { result ≡ nat_le count left }
{
    count <= left
}

pub(crate) fn lacks_room(index: &Index, kept: &[&Op]) -> bool
    requires { length kept.now ≤ MOST_OPERATIONS }
    ensures { result ≡ lacks_room (list_of index.now) (plain_ops (map (λ o. o.now) kept.now)) }
{
    let count = store_count(kept);
    if count == 0 {
        return false;
    }
    !takes_more(index, count, stores_length(kept))
}
