// Two logs of which one is active.
ghost use Rattle.std.specs.Prelude.{◌≡◌, ◌↔◌, ◌⊎◌, ◌+◌, ◌<◌, ◌≤◌, [], ◌∷◌, ◌++◌, length, take, drop, slice_index_or, true, false, OnOk, OnErr, IfOk, IfErr, IsErrOf, IsTrue, None, Ok, vec_len, vec_capacity};
ghost use Rattle.std.specs.Int.{w64, to_be_bytes};
ghost use Rattle.outside.specs.DiskModel.{IsArmed, LeavesOnly, Runs, Torn, WritesNone};
ghost use Rattle.gated_log.specs.declared.refused.LogRefused.TheVariants.{Fault, Full, Memory};
ghost use Rattle.gated_log.specs.declared.settled.Settled.TheVariants.{In, Out};
ghost use Rattle.gated_log.specs.Blame.{IsBlamed};
ghost use Rattle.gated_log.specs.Calls.{ImagesHave, with_record};
ghost use Rattle.gated_log.specs.Closing.{IsGateTorn, WithGate, closing_calls};
ghost use Rattle.gated_log.specs.PlainLog.{AllHave, AtRest, InDoubt, Lost, doubted_length, end_of};
ghost use Rattle.gated_log.specs.Records.{records};
ghost use Rattle.pair_log.specs.declared.doubt.Doubt.TheVariants.{Commit, Nothing, Restart, Rewrite};
ghost use Rattle.pair_log.specs.declared.side.Side.TheVariants.{First, Second};
ghost use Rattle.pair_log.specs.Epochs.{active_records, next_epoch, read_pair, snapshot_of};
ghost use Rattle.pair_log.specs.Mounted.{HasNone, IsBeginning, IsBlamedOn, IsMountTorn, IsMounting, IsTooLong, MountKeeps, epoch_in, mounted_first, or_first, side_of};
ghost use Rattle.pair_log.specs.PlainPair.{AllOlder, EachMoment, HasEither, IsEither, IsNewOrOlder, Told, after_doubt, both_disks, doubted_log, first_disk, first_limit, head_of, second_disk, second_limit, tail_of};
ghost use Rattle.pair_log.specs.Settling.{IsSettledIn, IsSettledOut, IsUnsettled, disk_on, doubted_side};
ghost use Rattle.pair_log.specs.Sides.{first_of, number_of, other_side, second_of};

use crate::mounting::{Epochs, find_epochs, second_is_later};
use crate::{Doubt, Side};
use gated_log::{Draft, Log, LogRefused, Settled};
use history::History;
use outside::Disk;
use std::alloc::{AllocError, Global};
use std::marker::Model;
use std::mem::swap;

/// A snapshot and the records after it, on the active one of two disks; a rewrite makes the standby active.
#[derive(Drop)]
pub struct PairLog<D: Disk> {
    active: Log<D>,
    standby: Log<D>,
    side: Side,
    epoch: u64,
    doubt: Doubt,
    /// What both disks were before each call that moved one of them.
    past: History<(D, D)>,
}

impl<D: Disk> Model for PairLog<D> {
    ghost use Rattle.std.specs.Prelude.{[]};
    ghost use Rattle.pair_log.specs.PlainPair.{IsPair, PlainPair};

    ghost Value = { PlainPair D };

    ghost view = { λ p. record {
      active = p.active;
      standby = p.standby;
      side = p.side;
      epoch = p.epoch;
      doubt = p.doubt;
      past = p.past.items;
    } };

    ghost invariant = { λ p. IsPair D.state (record {
      active = p.active;
      standby = p.standby;
      side = p.side;
      epoch = p.epoch;
      doubt = p.doubt;
      past = [];
    }) };
}

// Makes the standby the active log.
fn swap_logs<D: Disk>(active: &mut Log<D>, standby: &mut Log<D>, side: &mut Side, epoch: &mut u64)
    ensures active { active.new ≡ standby.old }
    ensures standby { standby.new ≡ active.old }
    ensures side { side.new ≡ other_side side.old }
    ensures epoch { epoch.new ≡ next_epoch epoch.old }
{
    swap(active, standby);
    *side = side.other();
    *epoch = epoch.wrapping_add(1);
}

// The history with what both disks are now.
fn recorded<D: Disk>(
    past: &History<(D, D)>,
    side: Side,
    active: &Log<D>,
    standby: &Log<D>,
) -> History<(D, D)>
    ensures { result.items ≡ past.now.items
        ++ (
          first_of side active.now.disk standby.now.disk,
          second_of side active.now.disk standby.now.disk,
        ) ∷ [] }
{
    match side {
        Side::First => past.and_both(active.disk(), standby.disk()),
        Side::Second => past.and_both(standby.disk(), active.disk()),
    }
}

impl<D: Disk> PairLog<D> {
    // The pair of two logs at rest, of which one has a record.
    fn of_logs(first: Log<D>, second: Log<D>, epochs: Epochs, past: History<(D, D)>) -> PairLog<D>
        requires first_rests { first.standing ≡ AtRest }
        requires second_rests { second.standing ≡ AtRest }
        requires count { 0 < length first.payloads + length second.payloads }
        requires first_has { ImagesHave D.state first }
        requires second_has { ImagesHave D.state second }
        requires first_epoch { IsTrue (D.state first.disk).tells
            → epochs.first ≡ epoch_in first.payloads }
        requires second_epoch { IsTrue (D.state second.disk).tells
            → epochs.second ≡ epoch_in second.payloads }
        requires first_some { 0 < length first.payloads → epochs.first ≡ None → ⊥ }
        requires first_none { length first.payloads ≡ 0 → epochs.first ≡ None }
        requires second_none { length second.payloads ≡ 0 → epochs.second ≡ None }
        requires second_some { 0 < length second.payloads → epochs.second ≡ None → ⊥ }
        ensures first { first_disk result ≡ first.disk }
        ensures second { second_disk result ≡ second.disk }
        ensures list { IsTrue (D.state first.disk).tells → IsTrue (D.state second.disk).tells
            → result.active.payloads ≡ active_records first.payloads second.payloads }
        ensures side { IsTrue (D.state first.disk).tells → IsTrue (D.state second.disk).tells
            → result.side ≡ side_of first.payloads second.payloads }
        ensures first_limit { first_limit result ≡ first.limit }
        ensures second_limit { second_limit result ≡ second.limit }
        ensures end { (first.end ≡ end_of first.payloads) → (second.end ≡ end_of second.payloads)
            → result.active.end ≡ end_of result.active.payloads }
        ensures images { HasEither D.state result }
        ensures rests { result.doubt ≡ Nothing }
        ensures past { result.past ≡ past.items }
    {
        if second_is_later(epochs.first, epochs.second) {
            return PairLog {
                active: second,
                standby: first,
                side: Side::Second,
                epoch: epochs.second.unwrap_or(0),
                doubt: Doubt::Nothing,
                past,
            };
        }
        PairLog {
            active: first,
            standby: second,
            side: Side::First,
            epoch: epochs.first.unwrap_or(0),
            doubt: Doubt::Nothing,
            past,
        }
    }

    /// The pair of logs on these two disks, whose records may pass no limit, in bytes. Where neither has a record, this
    /// snapshot is written with epoch 1 to the first one; `Full` is answered exactly where it would then pass the limit,
    /// or has more than 1,342,177,272 bytes. On refusal the disks come back in their order, with the number, 0 or 1, of
    /// the one that refused.
    pub fn mount(
        alloc: Global,
        first: D,
        second: D,
        limit: u64,
        snapshot: &[u8],
    ) -> Result<PairLog<D>, (D, D, u8, LogRefused)>
        requires { 1 ≤ limit }
        ensures list { IfOk result
            (λ pair. IsTrue (D.state first).tells → IsTrue (D.state second).tells
            → pair.active.payloads
            ≡ or_first snapshot.now (read_pair (D.state first).seen (D.state second).seen)) }
        ensures side { IfOk result
            (λ pair. IsTrue (D.state first).tells → IsTrue (D.state second).tells
            → pair.side ≡ side_of (records (D.state first).seen) (records (D.state second).seen)) }
        ensures rests { IfOk result (λ pair. pair.doubt ≡ Nothing) }
        ensures any_moment { IfOk result
            (λ pair. MountKeeps D.state first second snapshot.now pair) }
        // All that it did is one step.
        ensures past { IfOk result (λ pair. pair.past ≡ (first, second) ∷ []) }
        ensures images { IfOk result (λ pair. HasEither D.state pair) }
        ensures first_bytes { IfOk result
            (λ pair. IsTrue (D.state first).tells → IsTrue (D.state second).tells
            → (D.state (first_disk pair)).seen ≡ mounted_first snapshot.now
            (records (D.state first).seen) (records (D.state second).seen)
            (D.state first).seen) }
        ensures second_bytes { IfOk result (λ pair. IsTrue (D.state second).tells
            → WithGate (end_of (records (D.state second).seen)) 0
            (D.state second).seen (D.state (second_disk pair)).seen) }
        ensures end { IfOk result
            (λ pair. IsTrue (D.state first).tells → IsTrue (D.state second).tells
            → pair.active.end ≡ end_of pair.active.payloads) }
        ensures first_limit { IfOk result (λ pair. first_limit pair ≡ limit) }
        ensures second_limit { IfOk result (λ pair. second_limit pair ≡ limit) }
        ensures fits { IfOk result
            (λ pair. IsTrue (D.state first).tells → IsTrue (D.state second).tells
            → HasNone (records (D.state first).seen) (records (D.state second).seen)
            → IsTooLong limit snapshot.now → ⊥) }
        ensures first_tells { IfOk result
            (λ pair. (D.state (first_disk pair)).tells ≡ (D.state first).tells) }
        ensures second_tells { IfOk result
            (λ pair. (D.state (second_disk pair)).tells ≡ (D.state second).tells) }
        ensures first_arms { IfOk result
            (λ pair. (D.state (first_disk pair)).arms ≡ (D.state first).arms) }
        ensures second_arms { IfOk result
            (λ pair. (D.state (second_disk pair)).arms ≡ (D.state second).arms) }
        ensures first_faults { IfOk result
            (λ pair. (D.state (first_disk pair)).faults ≡ (D.state first).faults) }
        ensures second_faults { IfOk result
            (λ pair. (D.state (second_disk pair)).faults ≡ (D.state second).faults) }
        ensures full { IfErr result (λ refused. refused.3 ≡ Full → IsTooLong limit snapshot.now) }
        ensures full_of_none { IfErr result (λ refused. refused.3 ≡ Full
            → IsTrue (D.state first).tells → IsTrue (D.state second).tells
            → HasNone (records (D.state first).seen) (records (D.state second).seen)) }
        ensures blame { IfErr result (λ refused. (side : _) × (refused.2 ≡ number_of side)
            × IsBlamedOn side refused.3 (D.state first).faults (D.state second).faults
            (D.state refused.0).faults (D.state refused.1).faults) }
        ensures first_moments { IfErr result
            (λ refused. IsTrue (D.state first).tells → IsTrue (D.state second).tells
            → LeavesOnly (D.state first) (D.state refused.0)
            (IsBeginning (D.state first).may_leave
            (records (D.state first).seen) (records (D.state second).seen) snapshot.now)) }
        ensures second_moments { IfErr result (λ refused. IsTrue (D.state second).tells
            → LeavesOnly (D.state second) (D.state refused.1)
            (IsMounting (D.state second).may_leave (records (D.state second).seen))) }
        ensures first_torn { IfErr result
            (λ refused. IsTrue (D.state first).tells → IsTrue (D.state second).tells
            → IsMountTorn snapshot.now
            (records (D.state first).seen) (records (D.state second).seen)
            (D.state first).seen (D.state refused.0).seen) }
        ensures second_torn { IfErr result (λ refused. IsTrue (D.state second).tells
            → IsGateTorn (end_of (records (D.state second).seen))
            (D.state second).seen (D.state refused.1).seen) }
        ensures first_tells_refused { IfErr result
            (λ refused. (D.state refused.0).tells ≡ (D.state first).tells) }
        ensures second_tells_refused { IfErr result
            (λ refused. (D.state refused.1).tells ≡ (D.state second).tells) }
        ensures first_arms_refused { IfErr result
            (λ refused. (D.state refused.0).arms ≡ (D.state first).arms) }
        ensures second_arms_refused { IfErr result
            (λ refused. (D.state refused.1).arms ≡ (D.state second).arms) }
    {
        let past = History::new().and_both(&first, &second);
        let mut first = match Log::mount(alloc, first, limit) {
            Ok(log) => log,
            Err((first, why)) => return Err((first, second, 0, why)),
        };
        let mut second = match Log::mount(alloc, second, limit) {
            Ok(log) => log,
            Err((second, why)) => return Err((first.into_disk(), second, 1, why)),
        };
        match find_epochs(alloc, &mut first, &mut second, snapshot) {
            Ok(epochs) => Ok(PairLog::of_logs(first, second, epochs, past)),
            Err(refusal) => Err((
                first.into_disk(),
                second.into_disk(),
                refusal.side.number(),
                refusal.why,
            )),
        }
    }

    /// The active disk: 0 for the first one, 1 for the second one.
    pub fn side(&self) -> u8
        ensures { result ≡ number_of self.now.side }
    {
        self.side.number()
    }

    /// How many records there are after the snapshot, without one that is in doubt.
    pub fn count(&self) -> u64
        ensures { result ≡ length (tail_of self.now.active.payloads) }
    {
        self.active.count() - 1
    }

    /// The place of the gate behind the records of the active disk, in bytes.
    pub fn end(&self) -> u64
        ensures end { result ≡ self.now.active.end }
        ensures behind_records { IsTrue (D.state self.now.active.disk).tells
            → self.now.active.end ≡ end_of self.now.active.payloads }
    {
        self.active.end()
    }

    /// The epoch that the next snapshot has to begin with.
    pub fn next_epoch(&self) -> u64
        ensures { result ≡ next_epoch self.now.epoch }
    {
        self.epoch.wrapping_add(1)
    }

    /// The disk that is active.
    pub fn active_disk(&self) -> &D
        ensures { result.now ≡ self.now.active.disk }
    {
        self.active.disk()
    }

    /// The disk that is not active.
    pub fn standby_disk(&self) -> &D
        ensures { result.now ≡ self.now.standby.disk }
    {
        self.standby.disk()
    }

    /// Whether a commit or a rewrite failed and it is open whether it was done.
    pub fn doubt(&self) -> bool
        ensures none { result ≡ false → self.now.doubt ≡ Nothing }
        ensures some { result ≡ true → self.now.doubt ≡ Nothing → ⊥ }
        ensures older { Told D.state self.now → self.now.doubt ≡ Nothing
            → AllOlder self.now.side self.now.active.payloads
            (D.state self.now.standby.disk).may_leave }
        ensures images { HasEither D.state self.now }
    {
        self.doubt != Doubt::Nothing
    }

    /// Makes room for one more record on both disks.
    pub fn reserve(&mut self) -> Result<(), AllocError>
        ensures stays { self.new ≡ record self.old {
          active = record self.old.active { spare = self.new.active.spare };
          standby = record self.old.standby { spare = self.new.standby.spare };
        } }
        ensures room { OnOk result ((0 < self.new.active.spare) × (0 < self.new.standby.spare)) }
        ensures more { self.old.active.spare ≤ self.new.active.spare }
        ensures more_standby { self.old.standby.spare ≤ self.new.standby.spare }
    {
        self.active.reserve()?;
        self.standby.reserve()?;
        Ok(())
    }

    /// Appends the snapshot to these bytes; they stay where it fails.
    pub fn snapshot(&mut self, out: &mut Vec<u8>) -> Result<(), LogRefused>
        ensures snapshot { OnOk result (Told D.state self.old → out.new.items
            ≡ out.old.items ++ snapshot_of (head_of self.old.active.payloads)) }
        ensures err { OnErr result (out.new.items ≡ out.old.items) }
        ensures stays { self.new ≡ record self.old {
          active = record self.old.active { disk = self.new.active.disk };
          past = self.old.past ++ both_disks self.old ∷ [];
        } }
        ensures writes_none { WritesNone (D.state self.old.active.disk)
            (D.state self.new.active.disk) }
        ensures any_moment { EachMoment D.state self.old self.new
            (IsEither self.old.active.payloads (after_doubt self.old)) }
        ensures images { HasEither D.state self.new }
        ensures run { Runs 1 1 (D.state self.old.active.disk)
            (D.state self.new.active.disk) result }
        ensures never_full { IsErrOf result Full → ⊥ }
        ensures cause { IsBlamed (D.state self.old.active.disk).faults
            (D.state self.new.active.disk).faults result }
    {
        self.past = recorded(&self.past, self.side, &self.active, &self.standby);
        self.active.part(0, 8, u32::MAX, out)
    }

    /// Appends record k after the snapshot to these bytes; they stay where it fails.
    pub fn entry(&mut self, k: u64, out: &mut Vec<u8>) -> Result<(), LogRefused>
        requires within { k < length (tail_of self.old.active.payloads) }
        ensures entry { OnOk result (Told D.state self.old → out.new.items
            ≡ out.old.items ++ slice_index_or (tail_of self.old.active.payloads) k []) }
        ensures err { OnErr result (out.new.items ≡ out.old.items) }
        ensures stays { self.new ≡ record self.old {
          active = record self.old.active { disk = self.new.active.disk };
          past = self.old.past ++ both_disks self.old ∷ [];
        } }
        ensures writes_none { WritesNone (D.state self.old.active.disk)
            (D.state self.new.active.disk) }
        ensures any_moment { EachMoment D.state self.old self.new
            (IsEither self.old.active.payloads (after_doubt self.old)) }
        ensures images { HasEither D.state self.new }
        ensures run { Runs 1 1 (D.state self.old.active.disk)
            (D.state self.new.active.disk) result }
        ensures never_full { IsErrOf result Full → ⊥ }
        ensures cause { IsBlamed (D.state self.old.active.disk).faults
            (D.state self.new.active.disk).faults result }
    {
        let _ = self.active.count(); // as many fit a u64
        self.past = recorded(&self.past, self.side, &self.active, &self.standby);
        self.active.entry(k + 1, out)
    }

    /// Adds a record behind the others. `Full` is answered exactly where it would pass the limit, and nothing is changed
    /// then; after `Fault` it is open whether the record is there, until `settle` answers.
    pub fn commit(&mut self, draft: &Draft) -> Result<(), LogRefused>
        requires rests { self.old.doubt ≡ Nothing }
        requires room { 0 < self.old.active.spare }
        ensures list { OnOk result (Told D.state self.old
            → self.new.active.payloads ≡ self.old.active.payloads ++ draft.now ∷ []) }
        ensures stays { OnOk result (self.new ≡ record self.old {
          active = record self.old.active {
            disk = self.new.active.disk;
            payloads = self.new.active.payloads;
            end = self.old.active.end + (5 + length draft.now);
            spare = self.new.active.spare;
          };
          past = self.old.past ++ both_disks self.old ∷ [];
        }) }
        ensures bytes { OnOk result (Told D.state self.old → (D.state self.new.active.disk).seen
            ≡ with_record self.old.active.end draft.now (D.state self.old.active.disk).seen) }
        ensures full { IsErrOf result Full
            ↔ self.old.active.limit < self.old.active.end + (6 + length draft.now) }
        ensures nothing_changed { IsErrOf result Full → self.new ≡ self.old }
        ensures in_doubt { IsErrOf result Fault → self.new ≡ record self.old {
          active = record self.old.active {
            disk = self.new.active.disk;
            payloads = self.new.active.payloads;
            standing = InDoubt draft.now;
          };
          doubt = Commit;
          past = self.old.past ++ both_disks self.old ∷ [];
        } }
        ensures kept { OnErr result
            (Told D.state self.old → self.new.active.payloads ≡ self.old.active.payloads) }
        ensures torn { Told D.state self.old → Torn self.old.active.end (6 + length draft.now)
            (D.state self.old.active.disk).seen (D.state self.new.active.disk).seen }
        ensures never_memory { IsErrOf result Memory → ⊥ }
        ensures any_moment { EachMoment D.state self.old self.new
            (IsEither self.old.active.payloads (self.old.active.payloads ++ draft.now ∷ [])) }
        ensures images { HasEither D.state self.new }
        ensures run { Runs 4 4 (D.state self.old.active.disk)
            (D.state self.new.active.disk) result }
        ensures cause { IsBlamed (D.state self.old.active.disk).faults
            (D.state self.new.active.disk).faults result }
    {
        if !self.active.fits(draft) {
            return Err(LogRefused::Full);
        }
        self.past = recorded(&self.past, self.side, &self.active, &self.standby);
        if let Err(refused) = self.active.commit(draft) {
            self.doubt = Doubt::Commit;
            return Err(refused);
        }
        Ok(())
    }

    // Ends the doubt of a commit.
    fn settle_commit(&mut self) -> Result<Settled, LogRefused>
        requires { self.old.doubt ≡ Commit }
        ensures in_after { result ≡ Ok In → Told D.state self.old
            → self.new.active.payloads ≡ after_doubt self.old }
        ensures exact { IfOk result (λ settled. Told D.state self.old → (settled ≡ Out)
            ↔ (take 1 (drop self.old.active.end (D.state self.old.active.disk).seen) ≡ 0 ∷ [])) }
        ensures in_stays { result ≡ Ok In → IsSettledIn Commit self.old self.new }
        ensures out_stays { result ≡ Ok Out → IsSettledOut Commit self.old self.new }
        ensures fault_stays { OnErr result (IsUnsettled Commit self.old self.new) }
        ensures only_fault { OnErr result (IsErrOf result Fault) }
        ensures writes_none { WritesNone (D.state self.old.active.disk)
            (D.state self.new.active.disk) }
        ensures standby { self.new.standby ≡ self.old.standby }
        ensures side { self.new.side ≡ self.old.side }
        ensures any_moment { EachMoment D.state self.old self.new
            (IsEither self.old.active.payloads (after_doubt self.old)) }
        ensures images { HasEither D.state self.new }
        ensures run { Runs 2 2 (D.state self.old.active.disk)
            (D.state self.new.active.disk) result }
        ensures cause { IsBlamed (D.state self.old.active.disk).faults
            (D.state self.new.active.disk).faults result }
    {
        self.past = recorded(&self.past, self.side, &self.active, &self.standby);
        let settled = self.active.settle()?;
        self.doubt = Doubt::Nothing;
        Ok(settled)
    }

    // Ends the doubt of a rewrite's commit.
    fn settle_rewrite(&mut self) -> Result<Settled, LogRefused>
        requires { self.old.doubt ≡ Rewrite }
        ensures in_after { result ≡ Ok In → Told D.state self.old
            → self.new.active.payloads ≡ after_doubt self.old }
        ensures exact { IfOk result (λ settled. Told D.state self.old → (settled ≡ Out)
            ↔ (take 1 (drop self.old.standby.end (D.state self.old.standby.disk).seen) ≡ 0 ∷ [])) }
        ensures in_stays { result ≡ Ok In → IsSettledIn Rewrite self.old self.new }
        ensures out_stays { result ≡ Ok Out → IsSettledOut Rewrite self.old self.new }
        ensures fault_stays { OnErr result (IsUnsettled Rewrite self.old self.new) }
        ensures only_fault { OnErr result (IsErrOf result Fault) }
        ensures writes_none { WritesNone (D.state self.old.standby.disk)
            (D.state (second_of self.old.side (first_disk self.new) (second_disk self.new))) }
        ensures active { first_of self.old.side (first_disk self.new) (second_disk self.new)
            ≡ self.old.active.disk }
        ensures any_moment { EachMoment D.state self.old self.new
            (IsEither self.old.active.payloads (after_doubt self.old)) }
        ensures images { HasEither D.state self.new }
        ensures run { Runs 2 2 (D.state self.old.standby.disk)
            (D.state (second_of self.old.side (first_disk self.new) (second_disk self.new)))
            result }
        ensures cause { IsBlamed (D.state self.old.standby.disk).faults
            (D.state (second_of self.old.side (first_disk self.new) (second_disk self.new))).faults
            result }
    {
        self.past = recorded(&self.past, self.side, &self.active, &self.standby);
        let settled = self.standby.settle()?;
        self.doubt = Doubt::Nothing;
        if settled == Settled::In {
            swap_logs(
                &mut self.active,
                &mut self.standby,
                &mut self.side,
                &mut self.epoch,
            );
        }
        Ok(settled)
    }

    /// Ends a doubt: what was in doubt is `In` or `Out`. It writes nothing. After a restart that failed it answers `Out`,
    /// whatever that disk reads. After `Fault` the doubt stays.
    pub fn settle(&mut self) -> Result<Settled, LogRefused>
        requires in_doubt { self.old.doubt ≡ Nothing → ⊥ }
        ensures in_after { result ≡ Ok In → Told D.state self.old
            → self.new.active.payloads ≡ after_doubt self.old }
        ensures restart_is_out { self.old.doubt ≡ Restart → result ≡ Ok Out }
        ensures exact { IfOk result
            (λ settled. Told D.state self.old → (self.old.doubt ≡ Restart → ⊥) → (settled ≡ Out)
            ↔ (take 1 (drop (doubted_log self.old).end (D.state (doubted_log self.old).disk).seen)
            ≡ 0 ∷ [])) }
        ensures in_stays { result ≡ Ok In → IsSettledIn self.old.doubt self.old self.new }
        ensures out_stays { result ≡ Ok Out → IsSettledOut self.old.doubt self.old self.new }
        ensures fault_stays { OnErr result (IsUnsettled self.old.doubt self.old self.new) }
        ensures only_fault { OnErr result (IsErrOf result Fault) }
        ensures first_writes_none { WritesNone (D.state (first_disk self.old))
            (D.state (first_disk self.new)) }
        ensures second_writes_none { WritesNone (D.state (second_disk self.old))
            (D.state (second_disk self.new)) }
        ensures any_moment { EachMoment D.state self.old self.new
            (IsEither self.old.active.payloads (after_doubt self.old)) }
        ensures images { HasEither D.state self.new }
        ensures run { (self.old.doubt ≡ Restart → ⊥)
            → Runs 2 2 (D.state (disk_on (doubted_side self.old) self.old))
            (D.state (disk_on (doubted_side self.old) self.new)) result }
        ensures cause { IsBlamed (D.state (disk_on (doubted_side self.old) self.old)).faults
            (D.state (disk_on (doubted_side self.old) self.new)).faults result }
        ensures other_stays { disk_on (other_side (doubted_side self.old)) self.new
            ≡ disk_on (other_side (doubted_side self.old)) self.old }
    {
        match self.doubt {
            Doubt::Commit => self.settle_commit(),
            Doubt::Rewrite => self.settle_rewrite(),
            Doubt::Nothing | Doubt::Restart => {
                self.doubt = Doubt::Nothing;
                Ok(Settled::Out)
            }
        }
    }

    // Commits the snapshot to the standby, which is empty, and makes it active.
    fn commit_standby(&mut self, snapshot: &Draft) -> Result<(), LogRefused>
        requires rests { self.old.doubt ≡ Nothing }
        requires standby_rests { self.old.standby.standing ≡ AtRest }
        requires empty { self.old.standby.payloads ≡ [] }
        requires room { 0 < self.old.standby.spare }
        requires fits { self.old.standby.end + (6 + length snapshot.now) ≤ self.old.standby.limit }
        requires epoch { take 8 snapshot.now ≡ to_be_bytes w64 (next_epoch self.old.epoch) }
        ensures list { OnOk result
            (Told D.state self.old → self.new.active.payloads ≡ snapshot.now ∷ []) }
        ensures stays { OnOk result (self.new ≡ record {
          active = record self.old.standby {
            disk = self.new.active.disk;
            payloads = self.new.active.payloads;
            end = self.old.standby.end + (5 + length snapshot.now);
            spare = self.new.active.spare;
          };
          standby = self.old.active;
          side = other_side self.old.side;
          epoch = next_epoch self.old.epoch;
          doubt = Nothing;
          past = self.old.past;
        }) }
        ensures in_doubt { OnErr result (self.new ≡ record self.old {
          standby = record self.old.standby {
            disk = self.new.standby.disk;
            payloads = self.new.standby.payloads;
            standing = InDoubt snapshot.now;
          };
          doubt = Rewrite;
        }) }
        ensures past { self.new.past ≡ self.old.past }
        ensures only_fault { OnErr result (IsErrOf result Fault) }
        ensures bytes { OnOk result (Told D.state self.old → (D.state self.new.active.disk).seen
            ≡ with_record self.old.standby.end snapshot.now (D.state self.old.standby.disk).seen) }
        ensures torn { Told D.state self.old → Torn self.old.standby.end (6 + length snapshot.now)
            (D.state self.old.standby.disk).seen
            (D.state (second_of self.old.side (first_disk self.new) (second_disk self.new))).seen }
        ensures standby_moment { Told D.state self.old → LeavesOnly (D.state self.old.standby.disk)
            (D.state (second_of self.old.side (first_disk self.new) (second_disk self.new)))
            (IsNewOrOlder self.old.side self.old.active.payloads snapshot.now) }
        ensures images { HasEither D.state self.new }
        ensures active { first_of self.old.side (first_disk self.new) (second_disk self.new)
            ≡ self.old.active.disk }
        ensures run { Runs 4 4 (D.state self.old.standby.disk)
            (D.state (second_of self.old.side (first_disk self.new) (second_disk self.new)))
            result }
        ensures cause { IsBlamed (D.state self.old.standby.disk).faults
            (D.state (second_of self.old.side (first_disk self.new) (second_disk self.new))).faults
            result }
    {
        if let Err(refused) = self.standby.commit(snapshot) {
            self.doubt = Doubt::Rewrite;
            return Err(refused);
        }
        swap_logs(
            &mut self.active,
            &mut self.standby,
            &mut self.side,
            &mut self.epoch,
        );
        Ok(())
    }

    /// Makes a snapshot, with its epoch in front, the whole list: the standby is emptied, gets it as its record 0, and is
    /// active from then on. `Full` is answered exactly where it would pass the limit, and nothing is changed then; after
    /// `Fault` it is open whether the snapshot is there, until `settle` answers.
    pub fn rewrite(&mut self, snapshot: &Draft) -> Result<(), LogRefused>
        requires rests { self.old.doubt ≡ Nothing }
        requires room { 0 < self.old.standby.spare }
        requires epoch { take 8 snapshot.now ≡ to_be_bytes w64 (next_epoch self.old.epoch) }
        ensures list { OnOk result
            (Told D.state self.old → self.new.active.payloads ≡ snapshot.now ∷ []) }
        ensures stays { OnOk result (self.new ≡ record {
          active = record self.old.standby {
            disk = self.new.active.disk;
            payloads = self.new.active.payloads;
            end = 5 + length snapshot.now;
            spare = self.new.active.spare;
            standing = AtRest;
          };
          standby = self.old.active;
          side = other_side self.old.side;
          epoch = next_epoch self.old.epoch;
          doubt = Nothing;
          past = self.old.past ++ both_disks self.old ∷ [];
        }) }
        ensures bytes { OnOk result (Told D.state self.old → (D.state self.new.active.disk).seen
            ≡ with_record 0 snapshot.now (D.state self.old.standby.disk).seen) }
        ensures full { IsErrOf result Full ↔ self.old.standby.limit < 6 + length snapshot.now }
        ensures nothing_changed { IsErrOf result Full → self.new ≡ self.old }
        ensures in_doubt { IsErrOf result Fault
            → (self.new ≡ record self.old {
              standby = record self.old.standby {
                disk = self.new.standby.disk;
                payloads = self.new.standby.payloads;
                end = 0;
                spare = self.new.standby.spare;
                standing = InDoubt snapshot.now;
              };
              doubt = Rewrite;
              past = self.old.past ++ both_disks self.old ∷ [];
            })
            ⊎ (self.new ≡ record self.old {
              standby = record self.old.standby {
                disk = self.new.standby.disk;
                payloads = [];
                end = 0;
                spare = self.new.standby.spare;
                standing = Lost;
              };
              doubt = Restart;
              past = self.old.past ++ both_disks self.old ∷ [];
            }) }
        ensures never_memory { IsErrOf result Memory → ⊥ }
        ensures any_moment { EachMoment D.state self.old self.new
            (IsEither self.old.active.payloads (snapshot.now ∷ [])) }
        ensures images { HasEither D.state self.new }
        ensures active { first_of self.old.side (first_disk self.new) (second_disk self.new)
            ≡ self.old.active.disk }
        ensures run { Runs 6 8 (D.state self.old.standby.disk)
            (D.state (second_of self.old.side (first_disk self.new) (second_disk self.new)))
            result }
        ensures cause { IsBlamed (D.state self.old.standby.disk).faults
            (D.state (second_of self.old.side (first_disk self.new) (second_disk self.new))).faults
            result }
    {
        if self.standby.limit() < 6 + snapshot.len() as u64 {
            return Err(LogRefused::Full);
        }
        self.past = recorded(&self.past, self.side, &self.active, &self.standby);
        if self.standby.restart().is_err() {
            self.doubt = Doubt::Restart;
            return Err(LogRefused::Fault);
        }
        self.commit_standby(snapshot)
    }

    /// Lets the device call of this number from now on fail, once, on the first disk or the second one, 0 or 1, where it
    /// is made for that.
    pub fn arm(&mut self, disk: usize, call: u32) -> Result<(), AllocError>
        requires { disk < 2 }
        ensures first { disk ≡ 0
            → OnOk result (D.arms_at call (first_disk self.old) (first_disk self.new)) }
        ensures second { disk ≡ 1
            → OnOk result (D.arms_at call (second_disk self.old) (second_disk self.new)) }
        ensures second_stays { disk ≡ 0 → second_disk self.new ≡ second_disk self.old }
        ensures first_stays { disk ≡ 1 → first_disk self.new ≡ first_disk self.old }
        ensures refused { OnErr result (both_disks self.new ≡ both_disks self.old) }
        ensures stays { self.new ≡ record self.old {
          active = record self.old.active { disk = self.new.active.disk };
          standby = record self.old.standby { disk = self.new.standby.disk };
          past = self.old.past ++ both_disks self.old ∷ [];
        } }
        ensures any_moment { EachMoment D.state self.old self.new
            (IsEither self.old.active.payloads (after_doubt self.old)) }
        ensures active_armed { IsArmed (D.state self.old.active.disk)
            (D.state self.new.active.disk) }
        ensures standby_armed { IsArmed (D.state self.old.standby.disk)
            (D.state self.new.standby.disk) }
    {
        self.past = recorded(&self.past, self.side, &self.active, &self.standby);
        if (disk == 1) == (self.side == Side::Second) {
            self.active.arm(0, call)?;
        } else {
            self.standby.arm(0, call)?;
        }
        Ok(())
    }

    /// The two disks in their order.
    pub fn into_disks(self) -> (D, D)
        ensures first { result.0 ≡ first_disk self }
        ensures second { result.1 ≡ second_disk self }
    {
        let PairLog {
            active,
            standby,
            side,
            ..
        } = self;
        match side {
            Side::First => (active.into_disk(), standby.into_disk()),
            Side::Second => (standby.into_disk(), active.into_disk()),
        }
    }

    /// Appends the two disks in their order.
    pub fn disks(self, out: &mut Vec<D>)
        requires { vec_len out.old + 2 ≤ vec_capacity out.old }
        ensures disks { out.new.items ≡ out.old.items ++ (first_disk self ∷ second_disk self ∷ []) }
        ensures len { vec_len out.new ≡ vec_len out.old + 2 }
        ensures capacity { vec_capacity out.new ≡ vec_capacity out.old }
    {
        let PairLog {
            active,
            standby,
            side,
            ..
        } = self;
        match side {
            Side::First => {
                active.disks(out);
                standby.disks(out);
            }
            Side::Second => {
                standby.disks(out);
                active.disks(out);
            }
        }
    }
}
