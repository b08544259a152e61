// The opening of a new shard's first generation.
ghost use Rattle.std.specs.Prelude.{◌≡◌, IfOk, length, None, true};
ghost use Rattle.shard_fold.specs.Fold.{Holds, first_opening};
ghost use Rattle.shard_disks.specs.Lists.{EachHas};
ghost use Rattle.shard_disks.specs.PlainDisks.{outline};
ghost use Rattle.shard_reading.specs.Held.{begins_by};
ghost use Rattle.shard_reading.specs.Reading.{HasSlotBytes};
ghost use Rattle.shard_reading.specs.Steps.{BeginsShard, records_in};

use crate::unread::Unread;
use gated_log::Draft;
use outside::Disk;
use shard_disks::ShardDisks;
use shard_fold::{Where, first_opening, is_new};
use std::alloc::{AllocError, Global};
use topic_name::Descriptor;

// The first slot, and its place among the ten disks.
const FIRST_SLOT: u8 = 0;

const FIRST_SLOT_DISK: u8 = 2;

fn opening_draft(alloc: Global) -> Result<Draft, AllocError>
    ensures bytes { IfOk result (λ draft. draft ≡ first_opening) }
    ensures long { IfOk result (λ draft. length draft ≡ 19) }
{
    let bytes = first_opening(alloc)?;
    let draft = Draft::of(bytes)?;
    Ok(draft)
}

// Writes the opening to the first slot, which has no record.
fn write_opening<D: Disk>(alloc: Global, disks: &mut ShardDisks<D>) -> Result<(), Unread>
    requires rests { (outline disks.old).doubted ≡ None }
    requires limits { EachHas HasSlotBytes (outline disks.old).slots }
    requires none { length (records_in (outline disks.old) 0) ≡ 0 }
    ensures begins { BeginsShard D.state true disks.old disks.new result }
{
    let _facts = disks.doubted();
    if disks.end(FIRST_SLOT) != 0 {
        return Err(Unread::Damaged(Where::Slot(FIRST_SLOT), 0));
    }
    let draft = opening_draft(alloc)?;
    disks.reserve(FIRST_SLOT)?;
    if let Err(_) = disks.commit(FIRST_SLOT, &draft) {
        return Err(Unread::Fault(FIRST_SLOT_DISK));
    }
    Ok(())
}

// Writes the opening where these are the generations of a shard whose first one was never written.
pub(crate) fn begin<D: Disk>(
    alloc: Global,
    disks: &mut ShardDisks<D>,
    cuts: &[Descriptor],
) -> Result<(), Unread>
    requires rests { (outline disks.old).doubted ≡ None }
    requires limits { EachHas HasSlotBytes (outline disks.old).slots }
    ensures begins { BeginsShard D.state
        (begins_by (Holds cuts.now) (records_in (outline disks.old) 0)) disks.old disks.new result }
{
    let _facts = disks.doubted();
    if !is_new(cuts) {
        return Ok(());
    }
    if disks.count(FIRST_SLOT) > 0 {
        return Ok(());
    }
    write_opening(alloc, disks)?;
    Ok(())
}
