// The ten disks of a shard.
ghost use Rattle.std.specs.Prelude.{◌≡◌, ◌+◌, ◌<◌, ◌≤◌, [], ◌∷◌, ◌++◌, length, map, slice_index_or, slice_get, Some, None, OnOk, OnErr, IfOk, IfErr, IsErrOf, IsTrue, vec_len, vec_capacity};
ghost use Rattle.outside.specs.DiskModel.{IsArmed};
ghost use Rattle.gated_log.specs.declared.refused.LogRefused.TheVariants.{Fault, Full};
ghost use Rattle.gated_log.specs.PlainLog.{AtRest, end_of, is_lost};
ghost use Rattle.pair_log.specs.Epochs.{snapshot_of};
ghost use Rattle.pair_log.specs.PlainPair.{first_disk, head_of, second_disk};
ghost use Rattle.pair_log.specs.Sides.{number_of};
ghost use Rattle.shard_disks.specs.Blame.{IsBlamed, IsBlamedAt};
ghost use Rattle.shard_disks.specs.Calls.{CommitsTo, EndsDoubt, IsRead, IsTornTo, Told};
ghost use Rattle.shard_disks.specs.Images.{AllRead, EachMoment, faults_of, tell_all};
ghost use Rattle.shard_disks.specs.Lists.{Moved, Pairwise};
ghost use Rattle.shard_disks.specs.Mounting.{MountsDisks, RefusesDisks};
ghost use Rattle.shard_disks.specs.Outline.{IsEither, doubted_place, reads_after, reads_of, slot_in, with_slot};
ghost use Rattle.shard_disks.specs.PlainDisks.{all_disks, disk_of, disks_in, outline, recorded_disks};
ghost use Rattle.shard_disks.specs.Stands.{SlotsStand};

use crate::Limits;
use crate::mounting::{append_disks, handed_back, mount_manifest, mount_slots};
use crate::slot_calls::{arm_slot, commit_slot, read_slot, reserve_slot, settle_slot};
use gated_log::{Draft, Log, LogRefused, Settled};
use history::History;
use outside::Disk;
use pair_log::PairLog;
use std::alloc::{AllocError, Global};
use std::marker::Model;

// How many slots there are.
const SLOTS: usize = 8;

/// The pair of logs of a manifest, and eight logs. Contracts see `PlainDisks`.
#[derive(Drop)]
pub struct ShardDisks<D: Disk> {
    manifest: PairLog<D>,
    slots: Vec<Log<D>>,
    doubted: Option<u8>,
    /// The vector in which the disks came, so that they go back without memory.
    room: Vec<D>,
    /// The pair as it was mounted, and the disks behind it.
    begun: History<(PairLog<D>, Vec<D>)>,
    /// What all were before each call that moved one of them.
    past: History<(PairLog<D>, Vec<Log<D>>)>,
}

impl<D: Disk> Model for ShardDisks<D> {
    ghost use Rattle.std.specs.Prelude.{◌++◌, map};
    ghost use Rattle.shard_disks.specs.PlainDisks.{PlainDisks, all_mounted, recorded_disks};
    ghost use Rattle.shard_disks.specs.Stands.{IsDisks, IsRoom};

    ghost Value = { PlainDisks D };

    ghost view = { λ d. record {
      manifest = d.manifest;
      slots = d.slots.items;
      doubted = d.doubted;
      past = all_mounted d.begun.items ++ map recorded_disks d.past.items;
    } };

    ghost invariant = { λ d. IsDisks D.state d.manifest d.slots.items d.doubted × IsRoom d.room };
}

// The history with what all are now.
fn recorded<D: Disk>(
    past: &History<(PairLog<D>, Vec<Log<D>>)>,
    manifest: &PairLog<D>,
    slots: &Vec<Log<D>>,
) -> History<(PairLog<D>, Vec<Log<D>>)>
    ensures { map recorded_disks result.items
        ≡ map recorded_disks past.now.items ++ disks_in manifest.now slots.now.items ∷ [] }
{
    past.and_both(manifest, slots)
}

// The disk of the manifest at a place, 0 or 1.
fn manifest_disk<D: Disk>(manifest: &PairLog<D>, place: usize) -> &D
    requires { place < 2 }
    ensures first { place ≡ 0 → result.now ≡ first_disk manifest.now }
    ensures second { place ≡ 1 → result.now ≡ second_disk manifest.now }
{
    let active_first = manifest.side() == 0;
    if (place == 0) == active_first {
        manifest.active_disk()
    } else {
        manifest.standby_disk()
    }
}

impl<D: Disk> ShardDisks<D> {
    /// The shard on these ten disks: the manifest's pair of logs on the first two, whose first snapshot this is where
    /// neither has a record, and the slots' logs on the others. On refusal the disks come back in their order, with the
    /// place, 0 to 9, of the one that refused; `Full` is no such answer.
    pub fn mount(
        alloc: Global,
        disks: Vec<D>,
        limits: Limits,
        snapshot: &[u8],
    ) -> Result<ShardDisks<D>, (Vec<D>, u8, LogRefused)>
        requires ten { length disks.items ≡ 10 }
        requires limit { 1 ≤ limits.slot }
        requires fits { 14 + length snapshot.now ≤ limits.manifest }
        requires short { length snapshot.now ≤ 1342177272 }
        ensures mounts { IfOk result (MountsDisks D.state disks.items limits snapshot.now) }
        ensures refuses { IfErr result (RefusesDisks D.state disks.items snapshot.now) }
    {
        let mut slots = match Vec::with_capacity(alloc, SLOTS) {
            Ok(slots) => slots,
            Err(_) => return Err((disks, 0, LogRefused::Memory)),
        };
        let mut rest = disks;
        let manifest = match mount_manifest(alloc, &mut rest, limits.manifest, snapshot) {
            Ok(manifest) => manifest,
            Err((place, why)) => {
                slots.destroy_empty();
                return Err((rest, place, why));
            }
        };
        let begun = History::new().and_both(&manifest, &rest);
        match mount_slots(alloc, &mut rest, limits.slot, &mut slots) {
            Ok(()) => Ok(ShardDisks {
                manifest,
                slots,
                doubted: None,
                room: rest,
                begun,
                past: History::new(),
            }),
            Err((refused, why)) => {
                let place = 2 + slots.len() as u8;
                Err((handed_back(manifest, slots, refused, rest), place, why))
            }
        }
    }

    /// The slot whose last commit failed, so that it is open whether its record is there.
    pub fn doubted(&self) -> Option<u8>
        ensures doubted { result ≡ (outline self.now).doubted }
        ensures images { Told D.state self.now → AllRead D.state (all_disks self.now)
            (IsEither (reads_of (outline self.now)) (reads_after (outline self.now))) }
        ensures ten { length (all_disks self.now) ≡ 10 }
        ensures eight { length (outline self.now).slots ≡ 8 }
        ensures stand { SlotsStand (outline self.now).doubted (outline self.now).slots }
        ensures rests { (outline self.now).doubted ≡ None
            → reads_after (outline self.now) ≡ reads_of (outline self.now) }
    {
        self.doubted
    }

    /// Adds a record to a slot that has room and whose limit it doesn't pass. After `Fault` it is open whether the record is
    /// there, until `settle` answers; there is no other refusal.
    pub fn commit(&mut self, slot: u8, draft: &Draft) -> Result<(), LogRefused>
        requires place { slot < 8 }
        requires rests { (outline self.old).doubted ≡ None }
        requires room { 0 < (slot_in (outline self.old) slot).spare }
        requires fits { (slot_in (outline self.old) slot).end + (6 + length draft.now)
            ≤ (slot_in (outline self.old) slot).limit }
        ensures commits { CommitsTo D.state slot draft.now self.old self.new result }
        // Also where it fails.
        ensures torn { Told D.state self.old
            → IsTornTo D.state slot draft.now self.old self.new }
        ensures blame { IfErr result (λ why. IsBlamedAt (2 + slot) why
            (faults_of D.state (all_disks self.old)) (faults_of D.state (all_disks self.new))) }
    {
        self.past = recorded(&self.past, &self.manifest, &self.slots);
        if let Err(refused) = commit_slot(&mut self.slots, slot, draft) {
            self.doubted = Some(slot);
            return Err(refused);
        }
        Ok(())
    }

    /// Ends a doubt: the record that was in doubt is `In` or `Out`. It writes nothing. After `Fault` the doubt stays.
    pub fn settle(&mut self) -> Result<Settled, LogRefused>
        requires { (outline self.old).doubted ≡ None → ⊥ }
        ensures ends { EndsDoubt D.state self.old self.new result }
    {
        let Some(slot) = self.doubted else {
            unreachable!()
        };
        self.past = recorded(&self.past, &self.manifest, &self.slots);
        match settle_slot(&mut self.slots, slot) {
            Ok(settled) => {
                self.doubted = None;
                Ok(settled)
            }
            Err(refused) => Err(refused),
        }
    }

    /// Appends record k of a slot to these bytes; they stay where it fails.
    pub fn entry(&mut self, slot: u8, k: u64, out: &mut Vec<u8>) -> Result<(), LogRefused>
        requires place { slot < 8 }
        requires rests { (outline self.old).doubted ≡ None }
        requires within { k < length (slot_in (outline self.old) slot).payloads }
        ensures bytes { OnOk result (Told D.state self.old → out.new.items
            ≡ out.old.items ++ slice_index_or (slot_in (outline self.old) slot).payloads k []) }
        ensures err { OnErr result (out.new.items ≡ out.old.items) }
        ensures never_full { IsErrOf result Full → ⊥ }
        ensures reads { IsRead D.state self.old self.new }
        ensures cause { IsBlamed (faults_of D.state (all_disks self.old))
            (faults_of D.state (all_disks self.new)) result }
        ensures blame { IfErr result (λ why. IsBlamedAt (2 + slot) why
            (faults_of D.state (all_disks self.old)) (faults_of D.state (all_disks self.new))) }
    {
        self.past = recorded(&self.past, &self.manifest, &self.slots);
        read_slot(&mut self.slots, slot, k, out)
    }

    /// Appends the manifest's snapshot to these bytes; they stay where it fails.
    pub fn manifest(&mut self, out: &mut Vec<u8>) -> Result<(), LogRefused>
        requires { (outline self.old).doubted ≡ None }
        ensures bytes { OnOk result (Told D.state self.old → out.new.items
            ≡ out.old.items ++ snapshot_of (head_of (outline self.old).manifest)) }
        ensures err { OnErr result (out.new.items ≡ out.old.items) }
        ensures never_full { IsErrOf result Full → ⊥ }
        ensures reads { IsRead D.state self.old self.new }
        ensures cause { IsBlamed (faults_of D.state (all_disks self.old))
            (faults_of D.state (all_disks self.new)) result }
        ensures blame { IfErr result (λ why. IsBlamedAt (number_of (outline self.old).side) why
            (faults_of D.state (all_disks self.old)) (faults_of D.state (all_disks self.new))) }
    {
        self.past = recorded(&self.past, &self.manifest, &self.slots);
        self.manifest.snapshot(out)
    }

    /// How many records the manifest's log has, with its snapshot: 1 or more. It is told where the disks tell.
    pub fn manifest_count(&self) -> u64
        ensures count { Told D.state self.now → result ≡ length (outline self.now).manifest }
        ensures some { 1 ≤ result }
    {
        self.manifest.count().saturating_add(1)
    }

    /// Which of the manifest's disks counts: 0 for the first one, 1 for the second one.
    pub fn manifest_side(&self) -> u8
        ensures { result ≡ number_of (outline self.now).side }
    {
        self.manifest.side()
    }

    /// How many records a slot has, without one that is in doubt.
    pub fn count(&self, slot: u8) -> u64
        requires { slot < 8 }
        ensures { result ≡ length (slot_in (outline self.now) slot).payloads }
    {
        self.slots[slot as usize].count()
    }

    /// The place of the gate behind the records of a slot, in bytes.
    pub fn end(&self, slot: u8) -> u64
        requires { slot < 8 }
        ensures end { result ≡ (slot_in (outline self.now) slot).end }
        ensures behind_records { Told D.state self.now → (slot_in (outline self.now) slot).end
            ≡ end_of (slot_in (outline self.now) slot).payloads }
    {
        self.slots[slot as usize].end()
    }

    /// Makes room for one more record of a slot.
    pub fn reserve(&mut self, slot: u8) -> Result<(), AllocError>
        requires { slot < 8 }
        ensures stays { outline self.new
            ≡ with_slot slot (record (slot_in (outline self.old) slot) {
              spare = (slot_in (outline self.new) slot).spare;
            }) (outline self.old) }
        ensures disks { all_disks self.new ≡ all_disks self.old }
        ensures past { self.new.past ≡ self.old.past }
        ensures room { OnOk result (0 < (slot_in (outline self.new) slot).spare) }
        ensures more { (slot_in (outline self.old) slot).spare
            ≤ (slot_in (outline self.new) slot).spare }
    {
        reserve_slot(&mut self.slots, slot)
    }

    /// The disk at a place, 0 to 9: the two of the manifest, and then those of the slots.
    pub fn disk(&self, place: usize) -> &D
        requires { place < 10 }
        ensures { slice_get (all_disks self.now) place ≡ Some result.now }
    {
        if place < 2 {
            return manifest_disk(&self.manifest, place);
        }
        self.slots[place - 2].disk()
    }

    /// Lets the device call of this number from now on fail, once, on the disk at a place, where it is made for that.
    pub fn arm(&mut self, place: usize, call: u32) -> Result<(), AllocError>
        requires { place < 10 }
        ensures armed { OnOk result
            (Moved place (D.arms_at call) (all_disks self.old) (all_disks self.new)) }
        ensures refused { OnErr result (all_disks self.new ≡ all_disks self.old) }
        ensures stays { outline self.new ≡ outline self.old }
        ensures nothing_else { Pairwise (λ before now. IsArmed (D.state before) (D.state now))
            (all_disks self.old) (all_disks self.new) }
        ensures any_moment { EachMoment D.state self.old self.new
            (IsEither (reads_of (outline self.old)) (reads_after (outline self.old))) }
    {
        self.past = recorded(&self.past, &self.manifest, &self.slots);
        if place < 2 {
            return self.manifest.arm(place, call);
        }
        arm_slot(&mut self.slots, place - 2, call)
    }

    /// The disks in their order, in the vector in which they came. It takes no memory.
    pub fn into_disks(self) -> Vec<D>
        ensures { result.items ≡ all_disks self }
    {
        let ShardDisks {
            manifest,
            slots,
            room,
            ..
        } = self;
        let mut disks = room;
        manifest.disks(&mut disks);
        append_disks(slots, &mut disks);
        disks
    }
}
