// The logs of the slots on their disks.
ghost use Rattle.std.specs.Prelude.{◌≡◌, ◌+◌, ◌<◌, ◌≤◌, [], ◌∷◌, ◌++◌, length, map, drop, take, OnOk, OnErr, IfOk, IfErr, vec_len, vec_capacity};
ghost use Rattle.shard_disks.specs.Lists.{Pairwise};
ghost use Rattle.shard_disks.specs.Mounting.{IsLogMounted, IsLogRefused, IsStopped, MountsNext, MountsPair, RefusesPair};
ghost use Rattle.shard_disks.specs.PlainDisks.{disk_of, disks_in};

use gated_log::{Log, LogRefused};
use outside::Disk;
use pair_log::PairLog;
use std::alloc::Global;

// Takes the first of several.
pub(crate) fn take_first<T>(list: &mut Vec<T>) -> T
    requires { 0 < length list.old.items }
    ensures first { list.old.items ≡ result ∷ list.new.items }
    ensures capacity { vec_capacity list.new ≡ vec_capacity list.old }
{
    list.remove(0)
}

// Mounts the log of the first of these disks.
fn mount_next<D: Disk>(
    alloc: Global,
    disks: &mut Vec<D>,
    limit: u64,
    slots: &mut Vec<Log<D>>,
) -> Result<(), (D, LogRefused)>
    requires limit { 1 ≤ limit }
    requires some { 0 < length disks.old.items }
    requires room { vec_len slots.old < vec_capacity slots.old }
    ensures next { OnOk result (MountsNext D.state limit disks.old.items disks.new.items
        slots.old.items slots.new.items) }
    ensures stopped { IfErr result (IsStopped D.state limit disks.old.items disks.new.items []) }
    ensures slots { OnErr result (slots.new.items ≡ slots.old.items) }
    ensures room { vec_capacity slots.new ≡ vec_capacity slots.old }
    ensures capacity { vec_capacity disks.new ≡ vec_capacity disks.old }
{
    let disk = take_first(disks);
    match Log::mount(alloc, disk, limit) {
        Ok(log) => {
            slots.push_reserved(log);
            Ok(())
        }
        Err(refused) => Err(refused),
    }
}

// Mounts the logs of all these disks, in their order.
pub(crate) fn mount_slots<D: Disk>(
    alloc: Global,
    disks: &mut Vec<D>,
    limit: u64,
    slots: &mut Vec<Log<D>>,
) -> Result<(), (D, LogRefused)>
    requires limit { 1 ≤ limit }
    requires none { slots.old.items ≡ [] }
    requires room { length disks.old.items ≤ vec_capacity slots.old }
    ensures mounted { OnOk result
        (Pairwise (IsLogMounted D.state limit) disks.old.items slots.new.items) }
    ensures taken { OnOk result (disks.new.items ≡ []) }
    ensures stopped { IfErr result
        (IsStopped D.state limit disks.old.items disks.new.items slots.new.items) }
    ensures capacity { vec_capacity disks.new ≡ vec_capacity disks.old }
{
    'next: while disks.len() > 0 {
        if let Err(refused) = mount_next(alloc, disks, limit, slots) {
            return Err(refused);
        }
    }
    Ok(())
}

// Mounts the pair of logs on the first two of these disks; where one of them is refused both are there again.
pub(crate) fn mount_manifest<D: Disk>(
    alloc: Global,
    disks: &mut Vec<D>,
    limit: u64,
    snapshot: &[u8],
) -> Result<PairLog<D>, (u8, LogRefused)>
    requires two { 2 ≤ length disks.old.items }
    requires fits { 14 + length snapshot.now ≤ limit }
    requires short { length snapshot.now ≤ 1342177272 }
    ensures mounts { IfOk result
        (MountsPair D.state disks.old.items disks.new.items limit snapshot.now) }
    ensures refuses { IfErr result (λ refused. RefusesPair D.state disks.old.items disks.new.items
        snapshot.now refused.0 refused.1) }
    ensures capacity { vec_capacity disks.new ≡ vec_capacity disks.old }
{
    let first = take_first(disks);
    let second = take_first(disks);
    let (_first_size, _second_size) = (first.size(), second.size());
    match PairLog::mount(alloc, first, second, limit, snapshot) {
        Ok(pair) => Ok(pair),
        Err((first, second, place, why)) => {
            put_in_front(disks, first, second);
            Err((place, why))
        }
    }
}

// Puts two in front of the others, where there is room.
fn put_in_front<T>(list: &mut Vec<T>, first: T, second: T)
    requires { vec_len list.old + 2 ≤ vec_capacity list.old }
    ensures list { list.new.items ≡ first ∷ (second ∷ list.old.items) }
    ensures capacity { vec_capacity list.new ≡ vec_capacity list.old }
{
    let count = list.len();
    list.push_reserved(first);
    list.push_reserved(second);
    list.rotate_left(count);
}

// All disks in their order: those of the pair and of the logs, the one that was refused, and the rest, whose vector it is.
pub(crate) fn handed_back<D: Disk>(
    manifest: PairLog<D>,
    slots: Vec<Log<D>>,
    refused: D,
    rest: Vec<D>,
) -> Vec<D>
    requires { vec_len rest + (3 + length slots.items) ≤ vec_capacity rest }
    ensures { result.items ≡ disks_in manifest slots.items ++ refused ∷ rest.items }
{
    let count = rest.len();
    let mut disks = rest;
    manifest.disks(&mut disks);
    append_disks(slots, &mut disks);
    disks.push_reserved(refused);
    disks.rotate_left(count);
    disks
}

// Appends the disks of some logs where there is room.
pub(crate) fn append_disks<D: Disk>(slots: Vec<Log<D>>, disks: &mut Vec<D>)
    requires { vec_len disks.old + length slots.items ≤ vec_capacity disks.old }
    ensures disks { disks.new.items ≡ disks.old.items ++ map disk_of slots.items }
    ensures capacity { vec_capacity disks.new ≡ vec_capacity disks.old }
{
    let mut slots = slots;
    while slots.len() > 0 {
        let log = slots.remove(0);
        log.disks(disks);
    }
    slots.destroy_empty();
}
