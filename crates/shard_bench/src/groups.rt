// The groups that are appended.
ghost use Rattle.std.specs.Prelude.{◌≡◌, [], ◌∷◌, IfSome, IsTrue, replicate};
ghost use Rattle.record_codec.specs.declared.group.Op.TheVariants.{Store};
ghost use Rattle.group_plan.specs.Asking.{may_ask};
ghost use Rattle.shard_bench.specs.Published.{hundred, whole_generation};

use bytes::Bytes;
use record_codec::Op;
use std::alloc::Global;
use topic_name::{Blob, Body, Message, Name, Topic};

// How many messages a large group has.
const MANY: u64 = 64;

const PAYLOAD: &[u8] =
    b"xxxxxxxxxxxxxxxxxxxxxxxxxxxxxxxxxxxxxxxxxxxxxxxxxxxxxxxxxxxxxxxxxxxxxxxxxxxxxxxxxxxxxxxxxxxxxxxxxxxx";

// A publish of a hundred bytes.
fn message(alloc: Global) -> Option<Message>
    ensures { IfSome result (λ message. message ≡ hundred) }
{
    let publisher = Name::of(alloc, "p").ok()?;
    let Ok(topic) = Topic::read(alloc, "a/b") else {
        return None;
    };
    let body = Bytes::copy_from_slice(alloc, PAYLOAD).ok()?;
    Some(Message {
        offset: 0,
        publisher,
        incarnation: 1,
        id: 0,
        qos: 1,
        stamp: 0,
        expiry: None,
        topic,
        props: Blob::empty(),
        body: Body::Here(body),
    })
}

fn one(alloc: Global) -> Option<Vec<Op>>
    ensures { IfSome result (λ ops. ops.items ≡ Store hundred ∷ []) }
{
    let message = message(alloc)?;
    let mut ops = Vec::new(alloc);
    ops.push(Op::Store(message)).ok()?;
    Some(ops)
}

fn many(alloc: Global) -> Option<Vec<Op>>
    ensures { IfSome result (λ ops. ops.items ≡ replicate 64 (Store hundred)) }
{
    let mut ops = Vec::new(alloc);
    for _ in 0..MANY {
        let message = message(alloc)?;
        ops.push(Op::Store(message)).ok()?;
    }
    Some(ops)
}

/// A group of 64 such publishes, or of one.
pub(crate) fn group(alloc: Global, is_many: bool) -> Option<Vec<Op>>
    ensures { IfSome result (λ ops. IsTrue (may_ask whole_generation ops.items)) }
{
    if is_many {
        return many(alloc);
    }
    one(alloc)
}
