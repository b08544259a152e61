// Calls of the log at one place, while the others stay.
ghost use Rattle.std.specs.Prelude.{◌≡◌, ◌+◌, ◌<◌, ◌≤◌, [], ◌∷◌, ◌++◌, true, length, map, OnOk, OnErr, IsErrOf, slice_get, Some};
ghost use Rattle.gated_log.specs.declared.refused.LogRefused.TheVariants.{Full};
ghost use Rattle.gated_log.specs.PlainLog.{AtRest, is_in_doubt};
ghost use Rattle.shard_disks.specs.Lists.{Moved};
ghost use Rattle.shard_disks.specs.Outline.{slot_at};
ghost use Rattle.shard_disks.specs.PlainDisks.{outline_of};
ghost use Rattle.shard_disks.specs.SlotCalls.{ArmsLog, CommitsLog, HasMoreRoom, IsLogRead, SettlesLog};

use gated_log::{Draft, Log, LogRefused, Settled};
use outside::Disk;
use std::alloc::AllocError;

// Appends record k of a slot at rest to these bytes; they stay where it fails.
pub(crate) fn read_slot<D: Disk>(
    slots: &mut Vec<Log<D>>,
    slot: u8,
    k: u64,
    out: &mut Vec<u8>,
) -> Result<(), LogRefused>
    requires place { slot < length slots.old.items }
    requires rests { (slot_at (map outline_of slots.old.items) slot).standing ≡ AtRest }
    requires within { k < length (slot_at (map outline_of slots.old.items) slot).payloads }
    ensures moved { Moved slot (IsLogRead D.state k out.old.items out.new.items result)
        slots.old.items slots.new.items }
    ensures err { OnErr result (out.new.items ≡ out.old.items) }
    ensures never_full { IsErrOf result Full → ⊥ }
{
    let log = &mut slots[slot as usize];
    log.entry(k, out)
}

// Commits a record to a slot at rest, where it fits and there is room.
pub(crate) fn commit_slot<D: Disk>(
    slots: &mut Vec<Log<D>>,
    slot: u8,
    draft: &Draft,
) -> Result<(), LogRefused>
    requires place { slot < length slots.old.items }
    requires rests { (slot_at (map outline_of slots.old.items) slot).standing ≡ AtRest }
    requires room { 0 < (slot_at (map outline_of slots.old.items) slot).spare }
    requires fits { (slot_at (map outline_of slots.old.items) slot).end + (6 + length draft.now)
        ≤ (slot_at (map outline_of slots.old.items) slot).limit }
    ensures moved { Moved slot (CommitsLog D.state draft.now result)
        slots.old.items slots.new.items }
{
    let log = &mut slots[slot as usize];
    log.commit(draft)
}

// Ends the doubt of a slot.
pub(crate) fn settle_slot<D: Disk>(slots: &mut Vec<Log<D>>, slot: u8) -> Result<Settled, LogRefused>
    requires place { slot < length slots.old.items }
    requires doubted { is_in_doubt (slot_at (map outline_of slots.old.items) slot).standing ≡ true }
    ensures moved { Moved slot (SettlesLog D.state result) slots.old.items slots.new.items }
{
    let log = &mut slots[slot as usize];
    log.settle()
}

// Makes room for one more record of a slot.
pub(crate) fn reserve_slot<D: Disk>(slots: &mut Vec<Log<D>>, slot: u8) -> Result<(), AllocError>
    requires place { slot < length slots.old.items }
    ensures moved { Moved slot (HasMoreRoom result) slots.old.items slots.new.items }
{
    let log = &mut slots[slot as usize];
    log.reserve()
}

// Lets a call of the disk of a slot fail.
pub(crate) fn arm_slot<D: Disk>(
    slots: &mut Vec<Log<D>>,
    slot: usize,
    call: u32,
) -> Result<(), AllocError>
    requires place { slot < length slots.old.items }
    ensures moved { Moved slot (ArmsLog D.state (D.arms_at call) result)
        slots.old.items slots.new.items }
{
    let log = &mut slots[slot];
    log.arm(0, call)
}
