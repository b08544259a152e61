ghost use Rattle.std.specs.Prelude.{◌≡◌, ◌≤◌, length, All};
ghost use Rattle.std.specs.List.{flat_map};
ghost use Rattle.session_codec.specs.Taking.{Puts, IsShort};
ghost use Rattle.record_codec.specs.Spelling.{spelled_triple, store_tag, tag_of, spelled_body, spelled_op, spelled_ops};
ghost use Rattle.record_codec.specs.Taking.{IsToldOp};

use crate::formats::MOST_OPERATIONS;
use crate::group::Op;
use crate::numbers::Number::{One, Two};
use crate::numbers::put_numbers;
use crate::ops::{EXPIRING_STORE, FORGET, RELEASE, STORE};
use crate::putting::{put_message, put_sender};
use std::alloc::AllocError;
use topic_name::Name;
use wire_fields::put_u16;

// Each puts a part of a group at the end. On want of memory some of it may stand there.

fn store_tag(expiry: Option<u32>) -> u8
    ensures { result ≡ store_tag expiry }
{
    match expiry {
        None => STORE,
        Some(_) => EXPIRING_STORE,
    }
}

// The byte that tells the kind of an operation.
fn tag_of(op: &Op) -> u8
    ensures { result ≡ tag_of op.now }
{
    match op {
        Op::Store(message) => store_tag(message.expiry),
        Op::Release { .. } => RELEASE,
        Op::Forget { .. } => FORGET,
    }
}

#[tactic(auto, using(session_codec::specs::PutLaws::parts_begin))]
pub(crate) fn put_triple(
    publisher: &Name,
    incarnation: u64,
    id: u16,
    out: &mut Vec<u8>,
) -> Result<(), AllocError>
    requires { IsShort publisher.now }
    ensures exact { Puts result out.old.items out.new.items
        (spelled_triple publisher.now incarnation id) }
{
    put_sender(publisher, incarnation, out)?;
    put_numbers(&[Two(id)], out)?;
    Ok(())
}

// What stands behind the byte that tells the kind.
fn put_body(op: &Op, out: &mut Vec<u8>) -> Result<(), AllocError>
    requires { IsToldOp op.now }
    ensures exact { Puts result out.old.items out.new.items (spelled_body op.now) }
{
    match op {
        Op::Store(message) => put_message(message, out),
        Op::Release {
            publisher,
            incarnation,
            id,
        } => put_triple(publisher, *incarnation, *id, out),
        Op::Forget {
            publisher,
            incarnation,
        } => put_sender(publisher, *incarnation, out),
    }
}

#[tactic(auto, using(session_codec::specs::PutLaws::parts_begin))]
fn put_op(op: &Op, out: &mut Vec<u8>) -> Result<(), AllocError>
    requires { IsToldOp op.now }
    ensures exact { Puts result out.old.items out.new.items (spelled_op op.now) }
{
    put_numbers(&[One(tag_of(op))], out)?;
    put_body(op, out)?;
    Ok(())
}

#[tactic(auto, using(session_codec::specs::PutLaws::parts_begin))]
fn put_each(ops: &[Op], out: &mut Vec<u8>) -> Result<(), AllocError>
    requires { All IsToldOp ops.now }
    ensures exact { Puts result out.old.items out.new.items (flat_map spelled_op ops.now) }
{
    for op in ops {
        put_op(op, out)?;
    }
    Ok(())
}

// How many operations there are, and these.
#[tactic(auto, using(session_codec::specs::PutLaws::parts_begin))]
pub(crate) fn put_ops(ops: &[Op], out: &mut Vec<u8>) -> Result<(), AllocError>
    requires told { All IsToldOp ops.now }
    requires few { length ops.now ≤ MOST_OPERATIONS }
    ensures exact { Puts result out.old.items out.new.items (spelled_ops ops.now) }
{
    put_u16(ops.len() as u16, out)?;
    put_each(ops, out)?;
    Ok(())
}
