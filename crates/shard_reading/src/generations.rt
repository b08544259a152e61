// The generations of a shard, from the records of their slots.
ghost use Rattle.std.specs.Prelude.{◌≡◌, ◌+◌, ◌<◌, ◌≤◌, ◌++◌, ◌∷◌, [], Some, None, IfOk, IsTrue, OnOk, drop, length, slice_index_or};
ghost use Rattle.std.specs.List.{list_all};
ghost use Rattle.gated_log.specs.PlainLog.{end_of};
ghost use Rattle.shard_model.specs.ShardList.{newest};
ghost use Rattle.shard_index.specs.Absorbing.{sealed_last};
ghost use Rattle.shard_index.specs.KeptIndex.{list_of};
ghost use Rattle.record_codec.specs.Reading.{opening_in};
ghost use Rattle.shard_fold.specs.Fold.{Holds, all_told, are_in_row, are_sound_cuts, generation_told, is_known_cut, opened, opened_behind, unsealed, with_record, with_records};
ghost use Rattle.shard_fold.specs.FoldLaws.{newest_slot};
ghost use Rattle.shard_fold.specs.Potential.{potential};
ghost use Rattle.shard_disks.specs.Calls.{Told};
ghost use Rattle.shard_disks.specs.PlainDisks.{outline};
ghost use Rattle.shard_reading.specs.Giving.{Gives};
ghost use Rattle.shard_reading.specs.Steps.{IsReached, Looks, records_in};

use crate::payloads::{opening_bytes, record_bytes};
use crate::unread::{Unread, refusal};
use outside::Disk;
use shard_disks::ShardDisks;
use shard_fold::{MOST_AWAITED, MOST_SLOT, open, open_behind, take_group};
use shard_index::Index;
use std::alloc::Global;
use topic_name::Descriptor;

// A record behind the opening: its slot, how many stand before it, and the place of its gate.
#[derive(Clone, Copy)]
struct Entry {
    slot: u8,
    number: u64,
    place: u64,
}

// Lets the operations of a record act, and gives the place behind it.
fn take_record<D: Disk>(
    alloc: Global,
    disks: &mut ShardDisks<D>,
    entry: Entry,
    index: &mut Index,
) -> Result<u64, Unread>
    requires slot { entry.slot < 8 }
    requires rests { (outline disks.old).doubted ≡ None }
    requires within { entry.number < length (records_in (outline disks.old) entry.slot) }
    requires room { entry.place + potential (list_of index.old) ≤ MOST_SLOT }
    ensures exact { Told D.state disks.old → Gives (λ _. list_of index.new) result
        (with_record entry.slot entry.place
        (slice_index_or (records_in (outline disks.old) entry.slot) entry.number [])
        (Holds (list_of index.old))) }
    ensures behind { IfOk result (λ end. Told D.state disks.old → end ≡ entry.place
        + (5 + length (slice_index_or (records_in (outline disks.old) entry.slot) entry.number []))) }
    ensures room { IfOk result (λ end. end + potential (list_of index.new) ≤ MOST_SLOT) }
    ensures cuts { OnOk result (index.new.cuts ≡ index.old.cuts) }
    ensures few { OnOk result (length index.new.awaited ≤ MOST_AWAITED) }
    ensures looks { Looks D.state disks.old disks.new result }
{
    let bytes = record_bytes(alloc, disks, entry.slot, entry.number)?;
    if let Err(why) = take_group(alloc, &bytes, entry.slot, entry.place, index) {
        return Err(refusal(why));
    }
    Ok(entry.place + (5 + bytes.len() as u64))
}

// Lets the operations of all records behind the opening act, of which the first has its gate at this place, and gives the
// place behind them.
fn take_records<D: Disk>(
    alloc: Global,
    disks: &mut ShardDisks<D>,
    slot: u8,
    place: u64,
    index: &mut Index,
) -> Result<u64, Unread>
    requires slot { slot < 8 }
    requires rests { (outline disks.old).doubted ≡ None }
    requires room { place + potential (list_of index.old) ≤ MOST_SLOT }
    requires few { length index.old.awaited ≤ MOST_AWAITED }
    ensures exact { Told D.state disks.old → Gives (λ _. list_of index.new) result
        (with_records slot place (Holds (list_of index.old))
        (drop 1 (records_in (outline disks.old) slot))) }
    ensures behind { IfOk result (λ end. Told D.state disks.old
        → end ≡ place + end_of (drop 1 (records_in (outline disks.old) slot))) }
    ensures room { IfOk result (λ end. end + potential (list_of index.new) ≤ MOST_SLOT) }
    ensures cuts { OnOk result (index.new.cuts ≡ index.old.cuts) }
    ensures few { OnOk result (length index.new.awaited ≤ MOST_AWAITED) }
    ensures looks { Looks D.state disks.old disks.new result }
{
    let _facts = disks.doubted();
    let mut at = place;
    for number in 1..disks.count(slot) {
        let entry = Entry {
            slot,
            number,
            place: at,
        };
        at = take_record(alloc, disks, entry, index)?;
    }
    Ok(at)
}

// The list at the end of the oldest generation, and the place behind its records.
fn read_oldest<D: Disk>(
    alloc: Global,
    disks: &mut ShardDisks<D>,
    cut: Descriptor,
) -> Result<(Index, u64), Unread>
    requires known { IsTrue (is_known_cut cut) }
    requires rests { (outline disks.old).doubted ≡ None }
    ensures exact { Told D.state disks.old → Gives (λ found. list_of found.0) result
        (generation_told (opened cut.slot cut) cut.slot (records_in (outline disks.old) cut.slot)) }
    ensures reached { IfOk result
        (λ found. IsReached D.state disks.old cut.slot found.0 found.1) }
    ensures cuts { IfOk result (λ found. found.0.cuts ≡ unsealed cut ∷ []) }
    ensures looks { Looks D.state disks.old disks.new result }
{
    let bytes = opening_bytes(alloc, disks, cut.slot)?;
    let mut index = match open(alloc, &bytes, cut) {
        Ok(index) => index,
        Err(why) => return Err(refusal(why)),
    };
    let place = 5 + bytes.len() as u64;
    let end = take_records(alloc, disks, cut.slot, place, &mut index)?;
    Ok((index, end))
}

// The list at the end of a later generation, which began when the one before it was sealed at this moment, and the place behind
// its records.
fn read_later<D: Disk>(
    alloc: Global,
    disks: &mut ShardDisks<D>,
    sealed: u64,
    cut: Descriptor,
    index: &mut Index,
) -> Result<u64, Unread>
    requires known { IsTrue (is_known_cut cut) }
    requires rests { (outline disks.old).doubted ≡ None }
    requires number { cut.number ≡ (newest (list_of index.old)).number + 1 }
    requires few { length index.old.awaited ≤ MOST_AWAITED }
    ensures exact { Told D.state disks.old → Gives (λ _. list_of index.new) result
        (generation_told (opened_behind cut.slot (list_of index.old) (Some sealed) cut) cut.slot
        (records_in (outline disks.old) cut.slot)) }
    ensures reached { IfOk result (IsReached D.state disks.old cut.slot index.new) }
    ensures cuts { OnOk result (index.new.cuts
        ≡ sealed_last sealed index.old.cuts ++ unsealed cut ∷ []) }
    ensures looks { Looks D.state disks.old disks.new result }
{
    let bytes = opening_bytes(alloc, disks, cut.slot)?;
    if let Err(why) = open_behind(alloc, &bytes, sealed, cut, index) {
        return Err(refusal(why));
    }
    let place = 5 + bytes.len() as u64;
    let end = take_records(alloc, disks, cut.slot, place, index)?;
    Ok(end)
}

// The list at the end of the newest of some generations, and the place behind its records.
fn read_all<D: Disk>(
    alloc: Global,
    disks: &mut ShardDisks<D>,
    oldest: Descriptor,
    later: &[Descriptor],
) -> Result<(Index, u64), Unread>
    requires known { IsTrue (list_all is_known_cut (oldest ∷ later.now)) }
    requires row { IsTrue (are_in_row (oldest ∷ later.now)) }
    requires rests { (outline disks.old).doubted ≡ None }
    ensures exact { Told D.state disks.old → Gives (λ found. list_of found.0) result
        (all_told (records_in (outline disks.old)) (oldest ∷ later.now)) }
    ensures reached { IfOk result (λ found.
        IsReached D.state disks.old (newest_slot (oldest ∷ later.now)) found.0 found.1) }
    ensures cuts { IfOk result (λ found. found.0.cuts ≡ oldest ∷ later.now) }
    ensures looks { Looks D.state disks.old disks.new result }
{
    let (mut index, mut end) = read_oldest(alloc, disks, oldest)?;
    let mut previous = oldest;
    for cut in later {
        let Some(sealed) = previous.sealed else {
            unreachable!()
        };
        end = read_later(alloc, disks, sealed, *cut, &mut index)?;
        previous = *cut;
    }
    Ok((index, end))
}

// The list that the records of these generations hold, and the place behind the newest one's records.
pub(crate) fn read_generations<D: Disk>(
    alloc: Global,
    disks: &mut ShardDisks<D>,
    cuts: &[Descriptor],
) -> Result<(Index, u64), Unread>
    requires sound { IsTrue (are_sound_cuts cuts.now) }
    requires some { 0 < length cuts.now }
    requires rests { (outline disks.old).doubted ≡ None }
    ensures exact { Told D.state disks.old → Gives (λ found. list_of found.0) result
        (all_told (records_in (outline disks.old)) cuts.now) }
    ensures reached { IfOk result (λ found.
        IsReached D.state disks.old (newest_slot cuts.now) found.0 found.1) }
    ensures cuts { IfOk result (λ found. found.0.cuts ≡ cuts.now) }
    ensures looks { Looks D.state disks.old disks.new result }
{
    match cuts {
        [] => unreachable!(),
        [oldest, later @ ..] => read_all(alloc, disks, *oldest, later),
    }
}
