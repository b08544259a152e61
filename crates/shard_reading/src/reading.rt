// The list of a shard, from its manifest and the records of its slots.
ghost use Rattle.std.specs.Prelude.{◌≡◌, ◌<◌, IsTrue, None, length};
ghost use Rattle.shard_fold.specs.Fold.{are_sound_cuts};
ghost use Rattle.shard_fold.specs.Giving.{IsAsked};
ghost use Rattle.shard_disks.specs.Lists.{EachHas};
ghost use Rattle.shard_disks.specs.PlainDisks.{outline};
ghost use Rattle.shard_reading.specs.Reading.{HasSlotBytes, ReadsShard};
ghost use Rattle.shard_reading.specs.Steps.{ReadsCuts, ReadsIndex};

use crate::beginning::begin;
use crate::generations::read_generations;
use crate::payloads::manifest_bytes;
use crate::unread::{Unread, refusal};
use outside::Disk;
use shard_disks::ShardDisks;
use shard_fold::{Asked, Where, read_cuts};
use shard_index::Index;
use std::alloc::Global;
use topic_name::Descriptor;

// How many records the manifest's log has: its snapshot alone.
const MANIFEST_RECORDS: u64 = 1;

// The generations that the manifest names, behind which no record stands.
fn read_manifest<D: Disk>(
    alloc: Global,
    disks: &mut ShardDisks<D>,
    asked: Asked,
) -> Result<Vec<Descriptor>, Unread>
    requires rests { (outline disks.old).doubted ≡ None }
    ensures reads { ReadsCuts D.state asked disks.old disks.new result }
{
    let records = disks.manifest_count();
    let bytes = manifest_bytes(alloc, disks)?;
    let cuts = match read_cuts(alloc, &bytes, asked) {
        Ok(cuts) => cuts,
        Err(why) => return Err(refusal(why)),
    };
    if records > MANIFEST_RECORDS {
        return Err(Unread::Damaged(Where::Manifest, 13 + bytes.len() as u64));
    }
    Ok(cuts)
}

// The list that the records of these generations hold. Where the disks tell, the newest one's records end where its slot does.
fn read_index<D: Disk>(
    alloc: Global,
    disks: &mut ShardDisks<D>,
    cuts: &[Descriptor],
) -> Result<Index, Unread>
    requires sound { IsTrue (are_sound_cuts cuts.now) }
    requires some { 0 < length cuts.now }
    requires rests { (outline disks.old).doubted ≡ None }
    ensures reads { ReadsIndex D.state cuts.now disks.old disks.new result }
{
    let (index, end) = read_generations(alloc, disks, cuts)?;
    let slot = cuts[cuts.len() - 1].slot;
    if end != disks.end(slot) {
        drop(index);
        return Err(Unread::Damaged(Where::Slot(slot), end));
    }
    Ok(index)
}

/// The list that the disks of a shard hold. Of a new shard whose first slot has no record the opening of the first generation is
/// written. An unknown format of the manifest is refused first, then a manifest that is damaged, then other shards, workers and
/// another number than those asked for; then the first record that is damaged, from the oldest generation on.
pub fn read_shard<D: Disk>(
    alloc: Global,
    disks: &mut ShardDisks<D>,
    asked: Asked,
) -> Result<Index, Unread>
    requires asked { IsAsked asked }
    requires rests { (outline disks.old).doubted ≡ None }
    requires limits { EachHas HasSlotBytes (outline disks.old).slots }
    ensures reads { ReadsShard D.state asked disks.old disks.new result }
{
    let _facts = disks.doubted();
    let cuts = read_manifest(alloc, disks, asked)?;
    begin(alloc, disks, &cuts)?;
    let index = read_index(alloc, disks, &cuts)?;
    Ok(index)
}
