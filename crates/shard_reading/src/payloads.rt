// The records of a shard's disks, one by one, as bytes.
ghost use Rattle.std.specs.Prelude.{◌≡◌, ◌<◌, [], List, None, IfErr, IfOk, Option, OnOk, length, slice_index_or};
ghost use Rattle.pair_log.specs.Epochs.{snapshot_of};
ghost use Rattle.pair_log.specs.PlainPair.{head_of};
ghost use Rattle.record_codec.specs.Records.{KeptOpening};
ghost use Rattle.shard_model.specs.ShardList.{ShardList};
ghost use Rattle.shard_fold.specs.Fold.{Folded, generation_told};
ghost use Rattle.shard_disks.specs.Calls.{Told};
ghost use Rattle.shard_disks.specs.PlainDisks.{outline};
ghost use Rattle.shard_reading.specs.Giving.{IsWhy};
ghost use Rattle.shard_reading.specs.Steps.{IsOutside, Looks, records_in};

use crate::unread::{Unread, unread_by};
use outside::Disk;
use shard_disks::ShardDisks;
use shard_fold::Where;
use std::alloc::Global;

// The bytes of the manifest's snapshot.
pub(crate) fn manifest_bytes<D: Disk>(
    alloc: Global,
    disks: &mut ShardDisks<D>,
) -> Result<Vec<u8>, Unread>
    requires rests { (outline disks.old).doubted ≡ None }
    ensures bytes { IfOk result (λ bytes. Told D.state disks.old
        → bytes.items ≡ snapshot_of (head_of (outline disks.old).manifest)) }
    ensures outside { IfErr result IsOutside }
    ensures looks { Looks D.state disks.old disks.new result }
{
    let side = disks.manifest_side();
    let mut bytes = Vec::new(alloc);
    if let Err(why) = disks.manifest(&mut bytes) {
        return Err(unread_by(side, why));
    }
    Ok(bytes)
}

// The bytes of a record of a slot.
pub(crate) fn record_bytes<D: Disk>(
    alloc: Global,
    disks: &mut ShardDisks<D>,
    slot: u8,
    number: u64,
) -> Result<Vec<u8>, Unread>
    requires slot { slot < 8 }
    requires rests { (outline disks.old).doubted ≡ None }
    requires within { number < length (records_in (outline disks.old) slot) }
    ensures bytes { IfOk result (λ bytes. Told D.state disks.old
        → bytes.items ≡ slice_index_or (records_in (outline disks.old) slot) number []) }
    ensures outside { IfErr result IsOutside }
    ensures looks { Looks D.state disks.old disks.new result }
{
    let mut bytes = Vec::new(alloc);
    if let Err(why) = disks.entry(slot, number, &mut bytes) {
        return Err(unread_by(2 + slot, why));
    }
    Ok(bytes)
}

// The bytes of the opening of a slot's generation. One that is missing is damaged.
pub(crate) fn opening_bytes<D: Disk>(
    alloc: Global,
    disks: &mut ShardDisks<D>,
    slot: u8,
) -> Result<Vec<u8>, Unread>
    requires slot { slot < 8 }
    requires rests { (outline disks.old).doubted ≡ None }
    ensures bytes { IfOk result (λ bytes. Told D.state disks.old
        → bytes.items ≡ slice_index_or (records_in (outline disks.old) slot) 0 []) }
    ensures some { OnOk result (0 < length (records_in (outline disks.old) slot)) }
    ensures why { IfErr result (λ why. (by : Option KeptOpening → Folded ShardList)
        → IsWhy why (generation_told by slot (records_in (outline disks.old) slot))) }
    ensures looks { Looks D.state disks.old disks.new result }
{
    let _facts = disks.doubted();
    if disks.count(slot) == 0 {
        return Err(Unread::Damaged(Where::Slot(slot), 0));
    }
    let bytes = record_bytes(alloc, disks, slot, 0)?;
    Ok(bytes)
}
