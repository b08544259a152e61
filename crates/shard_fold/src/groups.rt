// The groups behind the opening of a generation.
ghost use Rattle.std.specs.Prelude.{◌≡◌, ◌+◌, ◌≤◌, length, Ok, true, IfOk, OnOk};
ghost use Rattle.shard_index.specs.Absorbing.{absorbed, absorbed_all, all_stand, kept_after, stands};
ghost use Rattle.shard_index.specs.KeptIndex.{list_of};
ghost use Rattle.record_codec.specs.Reading.{group_in};
ghost use Rattle.record_codec.specs.Records.{index_op, index_ops};
ghost use Rattle.shard_fold.specs.Fold.{goes_on, with_group};
ghost use Rattle.shard_fold.specs.Giving.{Gives};
ghost use Rattle.shard_fold.specs.Potential.{potential};

use crate::limits::MOST_AWAITED;
use crate::unread::{Unread, Where};
use record_codec::{CodecRefused, Group, Op, read_group};
use shard_index::{Index, IndexOp};
use std::alloc::{AllocError, Global};

// Lets an operation act, and gives whether it can stand.
fn absorb_op(op: &IndexOp, index: &mut Index) -> Result<bool, AllocError>
    ensures stands { IfOk result (λ may. may ≡ stands (list_of index.old) op.now) }
    ensures absorbed { result ≡ Ok true
        → list_of index.new ≡ absorbed op.now (list_of index.old) }
    ensures kept { result ≡ Ok true → index.new ≡ kept_after op.now index.old }
{
    if !index.stands(op) {
        return Ok(false);
    }
    index.absorb(op)?;
    Ok(true)
}

// Lets an operation of a record act, and gives whether it can stand. It changes no generation.
fn take_op(op: Op, index: &mut Index) -> Result<bool, AllocError>
    ensures stands { IfOk result (λ may. may ≡ stands (list_of index.old) (index_op op)) }
    ensures absorbed { result ≡ Ok true
        → list_of index.new ≡ absorbed (index_op op) (list_of index.old) }
    ensures cuts { result ≡ Ok true → index.new.cuts ≡ index.old.cuts }
{
    let op = op.into_index();
    let stands = absorb_op(&op, index);
    drop(op);
    stands
}

// Lets operations act one after the other, and gives whether all can stand. Where one can't, or there is no memory, those before
// it have acted.
fn take_ops(ops: Vec<Op>, index: &mut Index) -> Result<bool, AllocError>
    ensures stand { IfOk result (λ all. all
        ≡ all_stand (list_of index.old) (index_ops ops.items)) }
    ensures absorbed { result ≡ Ok true
        → list_of index.new ≡ absorbed_all (index_ops ops.items) (list_of index.old) }
    ensures cuts { result ≡ Ok true → index.new.cuts ≡ index.old.cuts }
{
    for op in ops {
        let stands = take_op(op, index)?;
        if !stands {
            return Ok(false);
        }
    }
    Ok(true)
}

// Lets the operations of a group act, and gives whether it goes on where the list ends.
fn take_ops_of(group: Group, index: &mut Index) -> Result<bool, AllocError>
    ensures goes_on { IfOk result (λ fits. fits ≡ goes_on (list_of index.old) group) }
    ensures absorbed { result ≡ Ok true
        → list_of index.new ≡ absorbed_all (index_ops group.ops) (list_of index.old) }
    ensures cuts { result ≡ Ok true → index.new.cuts ≡ index.old.cuts }
{
    let Group { first, ops } = group;
    if first != index.next_offset() {
        return Ok(false);
    }
    let stand = take_ops(ops, index)?;
    Ok(stand && index.awaited_count() <= MOST_AWAITED)
}

/// Lets the operations of a group act, whose gate stands at this place of a slot. Where it answers `Err`, the list may have taken
/// some of them.
pub fn take_group(
    alloc: Global,
    bytes: &[u8],
    slot: u8,
    place: u64,
    index: &mut Index,
) -> Result<(), Unread>
    ensures exact { Gives (λ _. list_of index.new) result (with_group slot place
        (list_of index.old) (group_in bytes.now)) }
    ensures cuts { OnOk result (index.new.cuts ≡ index.old.cuts) }
    ensures few { OnOk result (length index.new.awaited ≤ MOST_AWAITED) }
    // What it takes is taken from what the slot can still take.
    ensures short { OnOk result (5 + length bytes.now + potential (list_of index.new)
        ≤ potential (list_of index.old)) }
{
    index.facts();
    let group = match read_group(alloc, bytes) {
        Ok(group) => group,
        Err(CodecRefused::Bad) => return Err(Unread::Damaged(Where::Slot(slot), place)),
        Err(CodecRefused::Memory) => return Err(Unread::Memory),
    };
    let goes_on = take_ops_of(group, index)?;
    if !goes_on {
        return Err(Unread::Damaged(Where::Slot(slot), place));
    }
    Ok(())
}
