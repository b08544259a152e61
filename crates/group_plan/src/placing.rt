// Operations as they are written, and as an index takes them. Payloads and properties are shared.
ghost use Rattle.std.specs.Prelude.{◌≡◌, ◌<◌, ◌+◌, map, IsTrue, IfOk};
ghost use Rattle.shard_model.specs.Storing.{placed};
ghost use Rattle.record_codec.specs.Records.{index_op, offsets_of};
ghost use Rattle.record_codec.specs.Spelling.{spelled_group};
ghost use Rattle.group_plan.specs.Plan.{fits_op_alone, written_at};
ghost use Rattle.group_plan.specs.Keeping.{written_from};
ghost use Rattle.group_plan.specs.RoomLaws.{CanBeWritten, written_group};

use crate::outcome::Stored;
use record_codec::{Group, Op, write_group};
use shard_index::{Awaited, IndexOp, Publisher};
use std::alloc::{AllocError, Global};
use topic_name::Message;

// One more message like it, at an offset and with a stamp.
fn placed(message: &Message, offset: u64, now: u64) -> Result<Message, AllocError>
    ensures { IfOk result (λ copy. copy ≡ record {
      stored = placed message.now.stored offset now;
      place = message.now.place;
    }) }
{
    let publisher = message.publisher.copy()?;
    let topic = message.topic.copy()?;
    let props = message.props.copy()?;
    let body = message.body.copy()?;
    Ok(Message {
        offset,
        publisher,
        incarnation: message.incarnation,
        id: message.id,
        qos: message.qos,
        stamp: now,
        expiry: message.expiry,
        topic,
        props,
        body,
    })
}

// An operation as it is written where this offset is the next.
fn written_at(op: &Op, offset: u64, now: u64) -> Result<Op, AllocError>
    requires { IsTrue (fits_op_alone op.now) }
    ensures { IfOk result (λ copy. copy ≡ written_at now offset op.now) }
{
    match op {
        Op::Store(message) => {
            let copy = placed(message, offset, now)?;
            Ok(Op::Store(copy))
        }
        Op::Release {
            publisher,
            incarnation,
            id,
        } => {
            let publisher = publisher.copy()?;
            Ok(Op::Release {
                publisher,
                incarnation: *incarnation,
                id: *id,
            })
        }
        Op::Forget {
            publisher,
            incarnation,
        } => {
            let publisher = publisher.copy()?;
            Ok(Op::Forget {
                publisher,
                incarnation: *incarnation,
            })
        }
    }
}

// How many offsets an operation takes.
pub(crate) fn offsets_of(op: &Op) -> u64
    ensures { result ≡ offsets_of op.now }
{
    match op {
        Op::Store(_) => 1,
        Op::Release { .. } => 0,
        Op::Forget { .. } => 0,
    }
}

// Operations as they are written, the first where this offset is the next.
fn written_from(alloc: Global, kept: &[&Op], first: u64, now: u64) -> Result<Vec<Op>, AllocError>
    requires { CanBeWritten now first (map (λ o. o.now) kept.now) }
    ensures { IfOk result (λ ops. ops.items
        ≡ written_from now first (map (λ o. o.now) kept.now)) }
{
    let mut ops = Vec::new(alloc);
    let mut offset = first;
    for op in kept {
        let written = written_at(op, offset, now)?;
        ops.push(written)?;
        offset += offsets_of(op);
    }
    Ok(ops)
}

fn index_ops(alloc: Global, ops: Vec<Op>) -> Result<Vec<IndexOp>, AllocError>
    ensures { IfOk result (λ taken. taken.items ≡ map index_op ops.items) }
{
    let mut taken = Vec::new(alloc);
    for op in ops {
        taken.push(op.into_index())?;
    }
    Ok(taken)
}

// The record of the group that begins at an offset, and its operations as an index takes them.
pub(crate) fn stored_from(
    alloc: Global,
    kept: &[&Op],
    first: u64,
    now: u64,
) -> Result<Stored, AllocError>
    requires { CanBeWritten now first (map (λ o. o.now) kept.now) }
    ensures spelling { IfOk result (λ stored. stored.record.items
        ≡ spelled_group (written_group now first (map (λ o. o.now) kept.now))) }
    ensures ops { IfOk result (λ stored. stored.ops.items
        ≡ map index_op (written_from now first (map (λ o. o.now) kept.now))) }
{
    let ops = written_from(alloc, kept, first, now)?;
    let group = Group { first, ops };
    let mut record = Vec::new(alloc);
    write_group(&group, &mut record)?;
    let Group { ops, .. } = group;
    let ops = index_ops(alloc, ops)?;
    Ok(Stored { record, ops })
}
