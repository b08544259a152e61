// A log on one disk.
ghost use Rattle.std.specs.Prelude.{◌≡◌, ◌↔◌, ◌+◌, ◌^◌, ◌-◌, ◌<◌, ◌≤◌, [], ◌∷◌, ◌++◌, length, take, drop, slice_index_or, true, false, OnOk, OnErr, IfOk, IfErr, IsErrOf, IsTrue, Ok, vec_len, vec_capacity};
ghost use Rattle.outside.specs.DiskModel.{IsArmed, Runs, Torn, WritesNone};
ghost use Rattle.gated_log.specs.declared.refused.LogRefused.TheVariants.{Fault, Full, Memory};
ghost use Rattle.gated_log.specs.declared.settled.Settled.TheVariants.{In, Out};
ghost use Rattle.gated_log.specs.Blame.{IsBlamed, IsBlamedFor};
ghost use Rattle.gated_log.specs.Calls.{EachMoment, ImagesHave, IsMounting, IsRepaired, with_record};
ghost use Rattle.gated_log.specs.Closing.{HasOldList, IsGateTorn, WithGate, closing_calls};
ghost use Rattle.gated_log.specs.PlainLog.{AllHave, AtRest, HasList, InDoubt, Lost, doubted_length, end_of, is_in_doubt, is_lost, with_doubted};
ghost use Rattle.gated_log.specs.Records.{records};
ghost use Rattle.gated_log.specs.Stands.{IsBeforeOrAfter};

use crate::closing::{empty, read_gate};
use crate::mounting::mount_disk;
use crate::reading::read_payload;
use crate::span::{Span, add_span, is_there, part_of, passes};
use crate::standing::{Standing, length_in_doubt};
use crate::writing::write_record;
use crate::{Draft, LogRefused, Settled};
use outside::Disk;
use std::alloc::{AllocError, Global};
use std::marker::Model;
use std::snapshot::Snapshot;

/// Records on one disk, of which no crash loses or changes one that was committed. Each is 1 byte or more.
#[derive(Drop)]
pub struct Log<D: Disk> {
    disk: D,
    limit: u64,
    spans: Vec<Span>,
    end: u64,
    standing: Standing,
}

impl<D: Disk> Model for Log<D> {
    ghost use Rattle.std.specs.Prelude.{◌-◌, vec_len, vec_capacity};
    ghost use Rattle.gated_log.specs.PlainLog.{IsLog, PlainLog, payloads_at};
    ghost use Rattle.gated_log.specs.LogView.{KeepsLength, standing_of};

    ghost Value = { PlainLog D };

    ghost view = { λ l. record {
      disk = l.disk;
      limit = l.limit;
      payloads = payloads_at (D.state l.disk).seen l.spans.items;
      end = l.end;
      spare = vec_capacity l.spans - vec_len l.spans;
      standing = standing_of l.standing;
    } };

    ghost invariant = { λ l.
        IsLog (D.state l.disk).tells (D.state l.disk).size
        (D.state l.disk).seen (D.state l.disk).may_leave
        l.spans.items (vec_capacity l.spans - vec_len l.spans) l.end (standing_of l.standing)
        × KeepsLength l.standing };
}

impl<D: Disk> Log<D> {
    /// The log on this disk, whose records may pass no limit, in bytes. A disk that the last commit left in the middle
    /// is repaired: its end is closed again. On refusal the disk comes back.
    pub fn mount(alloc: Global, disk: D, limit: u64) -> Result<Log<D>, (D, LogRefused)>
        requires { 1 ≤ limit }
        ensures list { IfOk result
            (λ log. IsTrue (D.state disk).tells → log.payloads ≡ records (D.state disk).seen) }
        ensures bytes { IfOk result (λ log. IsTrue (D.state disk).tells
            → WithGate log.end 0 (D.state disk).seen (D.state log.disk).seen) }
        ensures reads { IfOk result (λ log. IsTrue (D.state disk).tells
            → records (D.state log.disk).seen ≡ records (D.state disk).seen) }
        ensures images { IfOk result (λ log. IsTrue (D.state disk).tells
            → AllHave AtRest log.payloads (D.state log.disk).may_leave) }
        ensures rests { IfOk result (λ log. log.standing ≡ AtRest) }
        ensures empty { IfOk result (λ log. length log.payloads ≡ 0 → log.end ≡ 0) }
        ensures end { IfOk result
            (λ log. IsTrue (D.state disk).tells → log.end ≡ end_of log.payloads) }
        ensures limit { IfOk result (λ log. log.limit ≡ limit) }
        ensures mounting { IfOk result (λ log. IsMounting (D.state disk) (D.state log.disk)) }
        ensures repaired { IfOk result (λ log. IsTrue (D.state disk).tells
            → IsRepaired (D.state disk) (D.state log.disk)) }
        ensures least { IfOk result (λ log.
            (D.state disk).calls + (length log.payloads + 2) ≤ (D.state log.disk).calls) }
        ensures most { IfOk result (λ log.
            (D.state log.disk).calls ≤ (D.state disk).calls + (length log.payloads + 5)) }
        ensures no_fault { IfOk result (λ log. (D.state log.disk).faults ≡ (D.state disk).faults) }
        ensures refused { IfErr result (λ refused. IsMounting (D.state disk) (D.state refused.0)) }
        ensures never_full { IfErr result (λ refused. refused.1 ≡ Full → ⊥) }
        ensures cause { IfErr result (λ refused.
            IsBlamedFor (D.state disk).faults (D.state refused.0).faults refused.1) }
    {
        let mut disk = disk;
        match mount_disk(alloc, &mut disk) {
            Ok(found) => Ok(Log {
                disk,
                limit,
                spans: found.spans,
                end: found.end,
                standing: Standing::AtRest,
            }),
            Err(refused) => Err((disk, refused)),
        }
    }

    /// How many records there are, without one that is in doubt.
    pub fn count(&self) -> u64
        ensures { result ≡ length self.now.payloads }
    {
        self.spans.len() as u64
    }

    /// The limit, in bytes.
    pub fn limit(&self) -> u64
        ensures { result ≡ self.now.limit }
    {
        self.limit
    }

    /// The place of the gate behind the records, in bytes.
    pub fn end(&self) -> u64
        ensures end { result ≡ self.now.end }
        ensures behind_records { is_lost self.now.standing ≡ false
            → IsTrue (D.state self.now.disk).tells
            → self.now.end ≡ end_of self.now.payloads }
    {
        self.end
    }

    /// Whether a record would stay within the limit.
    pub fn fits(&self, draft: &Draft) -> bool
        ensures fits { IsTrue result ↔ self.now.end + (6 + length draft.now) ≤ self.now.limit }
        ensures full { result ≡ false → self.now.limit < self.now.end + (6 + length draft.now) }
    {
        !passes(self.limit, self.end, draft.len())
    }

    /// The disk.
    pub fn disk(&self) -> &D
        ensures { result.now ≡ self.now.disk }
    {
        &self.disk
    }

    /// Whether a commit failed and it is open whether its record is in the log.
    pub fn doubt(&self) -> bool
        ensures doubt { result ≡ is_in_doubt self.now.standing }
        ensures images { ImagesHave D.state self.now }
    {
        match &self.standing {
            Standing::InDoubt { .. } => true,
            _ => false,
        }
    }

    /// Makes room for one more record.
    pub fn reserve(&mut self) -> Result<(), AllocError>
        ensures stays { self.new ≡ record self.old { spare = self.new.spare } }
        ensures room { OnOk result (0 < self.new.spare) }
        ensures more { self.old.spare ≤ self.new.spare }
    {
        self.spans.reserve(1)?;
        Ok(())
    }

    /// Appends so many bytes of record k from a place on, or as many as there are. Where it fails, the bytes stay.
    pub fn part(
        &mut self,
        k: u64,
        from: u32,
        count: u32,
        out: &mut Vec<u8>,
    ) -> Result<(), LogRefused>
        requires kept { is_lost self.old.standing ≡ false }
        requires within { k < length self.old.payloads }
        ensures part { OnOk result (IsTrue (D.state self.old.disk).tells → out.new.items
            ≡ out.old.items ++ take count (drop from (slice_index_or self.old.payloads k []))) }
        ensures short { length (slice_index_or self.old.payloads k []) ≤ 2 ^ 32 - 1 }
        ensures err { OnErr result (out.new.items ≡ out.old.items) }
        ensures stays { self.new ≡ record self.old { disk = self.new.disk } }
        ensures writes_none { WritesNone (D.state self.old.disk) (D.state self.new.disk) }
        ensures any_moment { EachMoment (D.state self.old.disk) (D.state self.new.disk)
            (HasList self.old.standing self.old.payloads) }
        ensures images { ImagesHave D.state self.new }
        ensures run { Runs 1 1 (D.state self.old.disk) (D.state self.new.disk) result }
        ensures never_full { IsErrOf result Full → ⊥ }
        ensures cause { IsBlamed (D.state self.old.disk).faults
            (D.state self.new.disk).faults result }
    {
        let span = self.spans[k as usize];
        read_payload(&mut self.disk, part_of(span, from, count), out)
    }

    /// Appends record k to these bytes; they stay where it fails.
    pub fn entry(&mut self, k: u64, out: &mut Vec<u8>) -> Result<(), LogRefused>
        requires kept { is_lost self.old.standing ≡ false }
        requires within { k < length self.old.payloads }
        ensures entry { OnOk result (IsTrue (D.state self.old.disk).tells
            → out.new.items ≡ out.old.items ++ slice_index_or self.old.payloads k []) }
        ensures err { OnErr result (out.new.items ≡ out.old.items) }
        ensures stays { self.new ≡ record self.old { disk = self.new.disk } }
        ensures writes_none { WritesNone (D.state self.old.disk) (D.state self.new.disk) }
        ensures any_moment { EachMoment (D.state self.old.disk) (D.state self.new.disk)
            (HasList self.old.standing self.old.payloads) }
        ensures images { ImagesHave D.state self.new }
        ensures run { Runs 1 1 (D.state self.old.disk) (D.state self.new.disk) result }
        ensures never_full { IsErrOf result Full → ⊥ }
        ensures cause { IsBlamed (D.state self.old.disk).faults
            (D.state self.new.disk).faults result }
    {
        let span = self.spans[k as usize];
        read_payload(&mut self.disk, span, out)
    }

    /// Adds a record. `Full` is answered exactly where it would pass the limit, and nothing is changed then; after
    /// `Fault` it is open whether the record is in the log, until `settle` answers.
    pub fn commit(&mut self, draft: &Draft) -> Result<(), LogRefused>
        requires rests { self.old.standing ≡ AtRest }
        requires room { 0 < self.old.spare }
        ensures list { OnOk result (IsTrue (D.state self.old.disk).tells
            → self.new.payloads ≡ self.old.payloads ++ draft.now ∷ []) }
        ensures bytes { OnOk result (IsTrue (D.state self.old.disk).tells
            → (D.state self.new.disk).seen
            ≡ with_record self.old.end draft.now (D.state self.old.disk).seen) }
        ensures stays { OnOk result (self.new ≡ record self.old {
          disk = self.new.disk;
          payloads = self.new.payloads;
          end = self.old.end + (5 + length draft.now);
          spare = self.new.spare;
        }) }
        ensures count { OnOk result (length self.new.payloads ≡ length self.old.payloads + 1) }
        ensures full { IsErrOf result Full
            ↔ self.old.limit < self.old.end + (6 + length draft.now) }
        ensures nothing_changed { IsErrOf result Full → self.new ≡ self.old }
        ensures in_doubt { IsErrOf result Fault → self.new ≡ record self.old {
          disk = self.new.disk;
          payloads = self.new.payloads;
          standing = InDoubt draft.now;
        } }
        ensures kept { OnErr result
            (IsTrue (D.state self.old.disk).tells → self.new.payloads ≡ self.old.payloads) }
        ensures count_kept { OnErr result (length self.new.payloads ≡ length self.old.payloads) }
        ensures torn { IsTrue (D.state self.old.disk).tells
            → Torn self.old.end (6 + length draft.now)
            (D.state self.old.disk).seen (D.state self.new.disk).seen }
        ensures never_memory { IsErrOf result Memory → ⊥ }
        ensures any_moment { EachMoment (D.state self.old.disk) (D.state self.new.disk)
            (IsBeforeOrAfter self.old.payloads draft.now) }
        ensures images { ImagesHave D.state self.new }
        ensures run { Runs 4 4 (D.state self.old.disk) (D.state self.new.disk) result }
        ensures cause { IsBlamed (D.state self.old.disk).faults
            (D.state self.new.disk).faults result }
    {
        if passes(self.limit, self.end, draft.len()) {
            return Err(LogRefused::Full);
        }
        if write_record(&mut self.disk, self.end, draft).is_err() {
            self.standing = Standing::InDoubt {
                length: draft.len(),
                draft: Snapshot::of(draft),
            };
            return Err(LogRefused::Fault);
        }
        add_span(&mut self.spans, &mut self.end, draft.len());
        Ok(())
    }

    /// Ends a doubt: the record is `In` exactly where its gate reads other than 00. It writes nothing. After `Fault` the
    /// doubt stays.
    pub fn settle(&mut self) -> Result<Settled, LogRefused>
        requires in_doubt { is_in_doubt self.old.standing ≡ true }
        ensures exact { IfOk result (λ settled. IsTrue (D.state self.old.disk).tells
            → (settled ≡ Out) ↔ (take 1 (drop self.old.end (D.state self.old.disk).seen)
            ≡ 0 ∷ [])) }
        ensures in_after { result ≡ Ok In → IsTrue (D.state self.old.disk).tells
            → self.new.payloads ≡ with_doubted self.old.standing self.old.payloads }
        ensures in_count { result ≡ Ok In
            → length self.new.payloads ≡ length self.old.payloads + 1 }
        ensures in_stays { result ≡ Ok In → self.new ≡ record self.old {
          disk = self.new.disk;
          payloads = self.new.payloads;
          end = self.old.end + (5 + doubted_length self.old.standing);
          spare = self.new.spare;
          standing = AtRest;
        } }
        ensures out_stays { result ≡ Ok Out
            → self.new ≡ record self.old { disk = self.new.disk; standing = AtRest } }
        ensures rests { OnOk result (self.new.standing ≡ AtRest) }
        ensures fault_stays { OnErr result (self.new ≡ record self.old { disk = self.new.disk }) }
        ensures only_fault { OnErr result (IsErrOf result Fault) }
        ensures writes_none { WritesNone (D.state self.old.disk) (D.state self.new.disk) }
        ensures any_moment { EachMoment (D.state self.old.disk) (D.state self.new.disk)
            (HasList self.old.standing self.old.payloads) }
        ensures images { ImagesHave D.state self.new }
        ensures run { Runs 2 2 (D.state self.old.disk) (D.state self.new.disk) result }
        ensures cause { IsBlamed (D.state self.old.disk).faults
            (D.state self.new.disk).faults result }
    {
        let length = length_in_doubt(&self.standing);
        let gate = read_gate(&mut self.disk, self.end)?;
        self.standing = Standing::AtRest;
        if !is_there(gate, self.disk.size(), self.end, length) {
            return Ok(Settled::Out);
        }
        add_span(&mut self.spans, &mut self.end, length);
        Ok(Settled::In)
    }

    /// Empties the log. After `Fault` it is lost: only `restart` may be called, and the disk taken.
    pub fn restart(&mut self) -> Result<(), LogRefused>
        ensures stays { OnOk result (self.new ≡ record self.old {
          disk = self.new.disk;
          payloads = [];
          end = 0;
          spare = self.new.spare;
          standing = AtRest;
        }) }
        ensures lost { OnErr result (self.new ≡ record self.old {
          disk = self.new.disk;
          payloads = [];
          end = 0;
          spare = self.new.spare;
          standing = Lost;
        }) }
        ensures only_fault { OnErr result (IsErrOf result Fault) }
        ensures room { self.old.spare ≤ self.new.spare }
        ensures bytes { OnOk result (IsTrue (D.state self.old.disk).tells
            → WithGate 0 0 (D.state self.old.disk).seen (D.state self.new.disk).seen) }
        ensures torn { IsTrue (D.state self.old.disk).tells
            → IsGateTorn 0 (D.state self.old.disk).seen (D.state self.new.disk).seen }
        ensures any_moment { EachMoment (D.state self.old.disk) (D.state self.new.disk)
            (HasOldList (D.state self.old.disk).may_leave) }
        ensures images { ImagesHave D.state self.new }
        ensures run { Runs 2 4 (D.state self.old.disk) (D.state self.new.disk) result }
        ensures calls { OnOk result
            (IsTrue (D.state self.old.disk).tells → (D.state self.new.disk).calls
            ≡ (D.state self.old.disk).calls + (1 + closing_calls 0 (D.state self.old.disk).seen)) }
        ensures cause { IsBlamed (D.state self.old.disk).faults
            (D.state self.new.disk).faults result }
    {
        self.standing = Standing::Lost;
        self.spans.clear();
        self.end = 0;
        empty(&mut self.disk)?;
        self.standing = Standing::AtRest;
        Ok(())
    }

    /// Lets the device call of this number from now on fail, once, where the disk at this place is made for that. A log
    /// has the one disk 0.
    pub fn arm(&mut self, disk: usize, call: u32) -> Result<(), AllocError>
        requires { disk < 1 }
        ensures armed { OnOk result (D.arms_at call self.old.disk self.new.disk) }
        ensures refused { OnErr result (self.new ≡ self.old) }
        ensures stays { self.new ≡ record self.old { disk = self.new.disk } }
        ensures nothing_else { IsArmed (D.state self.old.disk) (D.state self.new.disk) }
    {
        let _ = disk;
        self.disk.arm(call)
    }

    /// The disk, with its records.
    pub fn into_disk(self) -> D
        ensures { result ≡ self.disk }
    {
        let Log { disk, .. } = self;
        disk
    }

    /// Appends the disk.
    pub fn disks(self, out: &mut Vec<D>)
        requires { vec_len out.old < vec_capacity out.old }
        ensures disk { out.new.items ≡ out.old.items ++ self.disk ∷ [] }
        ensures len { vec_len out.new ≡ vec_len out.old + 1 }
        ensures capacity { vec_capacity out.new ≡ vec_capacity out.old }
    {
        let Log { disk, .. } = self;
        out.push_reserved(disk);
    }
}
