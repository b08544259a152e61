// The journal of a worker's sessions.
ghost use Rattle.std.specs.Prelude.{◌≡◌, ◌⊎◌, ◌+◌, ◌*◌, ◌<◌, ◌≤◌, ◌==◌, ◌&&◌, ◌∷◌, ◌++◌, ◌↔◌, [], length, take, drop, nat_le, true, false, OnOk, OnErr, IfOk, IfErr, IsTrue, Ok, Err, vec_len, vec_capacity};
ghost use Rattle.std.specs.Int.{w64, to_be_bytes};
ghost use Rattle.outside.specs.DiskModel.{IsArmed};
ghost use Rattle.topic_model.specs.Profile.{whole};
ghost use Rattle.session_state.specs.KeptActing.{kept_acted_all};
ghost use Rattle.session_state.specs.KeptFits.{kept_fit_all};
ghost use Rattle.session_codec.specs.Spelling.{snapshot_to_write, spelled_changes, spelled_snapshot};
ghost use Rattle.session_codec.specs.HasSpelling.{fits_sessions, have_spelling};
ghost use Rattle.gated_log.specs.declared.settled.Settled.TheVariants.{Out};
ghost use Rattle.gated_log.specs.Calls.{with_record};
ghost use Rattle.pair_log.specs.declared.doubt.Doubt.TheVariants.{Nothing, Restart};
ghost use Rattle.topic_model.specs.Limits.{is_within_limits};
ghost use Rattle.topic_name.specs.PlainConfig.{plain_config};
ghost use Rattle.session_journal.specs.Mounting.{MountHolds, Mounts, Refuses, asked_by};
ghost use Rattle.pair_log.specs.Epochs.{next_epoch, read_pair, snapshot_of as behind_epoch};
ghost use Rattle.pair_log.specs.PlainPair.{HasEither, Told, both_disks, doubted_log, first_disk, second_disk};
ghost use Rattle.session_journal.specs.declared.refused.JournalRefused.TheVariants.{Memory};
ghost use Rattle.session_journal.specs.Committed.{Commits, EndsDoubt};
ghost use Rattle.session_journal.specs.Fold.{Holds, folded, format_told};
ghost use Rattle.session_journal.specs.PairCalls.{Makes};
ghost use Rattle.session_journal.specs.PlainJournal.{EachHolds, ImagesHold, IsAsked, IsHolding, appends, held, held_after};

use crate::asked::Asked;
use crate::drafts::{record_of, snapshot_of};
use crate::head::{Head, settled_heads};
use crate::limits::{MOST_RECORD, MOST_SNAPSHOT, SPARE_BYTES};
use crate::mounting::{mount_pair, refusal};
use crate::pair_calls::{commit_to, rewrite_to, settle_pair};
use crate::reading::read_pair;
use crate::refused::JournalRefused;
use gated_log::{Draft, Settled};
use outside::Disk;
use pair_log::PairLog;
use session_codec::SECOND_FORMAT;
use session_state::{Change, Sessions};
use std::alloc::{AllocError, Global};
use std::marker::Model;
use topic_name::{Config, MountRefused};

/// A worker's sessions in a pair of logs. Contracts see `PlainJournal`.
#[derive(Drop)]
pub struct Journal<D: Disk> {
    pair: PairLog<D>,
    asked: Asked,
    head: Head,
    next: Head,
    alloc: Global,
}

impl<D: Disk> Model for Journal<D> {
    ghost use Rattle.session_journal.specs.PlainJournal.{IsJournal, PlainJournal};

    ghost Value = { PlainJournal D };

    ghost view = { λ j. record {
      pair = j.pair;
      asked = j.asked;
      head = j.head;
      next = j.next;
    } };

    ghost invariant = { λ j. IsJournal D.state (record {
      pair = j.pair;
      asked = j.asked;
      head = j.head;
      next = j.next;
    }) };
}

impl<D: Disk> Journal<D> {
    ghost use Rattle.session_journal.specs.PlainJournal.{IsJournal};

    /// The journal of a worker on these two disks, and the sessions that it holds. Where neither disk has a record, a
    /// snapshot without sessions is written; else nothing but gates. On refusal the disks come back in their order.
    pub fn mount(
        alloc: Global,
        first: D,
        second: D,
        config: Config,
        worker: u8,
    ) -> Result<(Journal<D>, Sessions), (D, D, MountRefused)>
        requires config { is_within_limits (plain_config config) ≡ true }
        requires worker { worker < config.workers }
        ensures holds { IfOk result
            (λ mounted. IsTrue (D.state first).tells → IsTrue (D.state second).tells
            → folded (asked_by config worker) (read_pair (D.state first).seen (D.state second).seen)
            ≡ Holds mounted.1) }
        ensures still_holds { IfOk result
            (λ mounted. Told D.state mounted.0.pair → held mounted.0 ≡ Holds mounted.1) }
        ensures durable { IfOk result
            (λ mounted. ImagesHold D.state mounted.0 (Holds mounted.1) (Holds mounted.1)) }
        ensures any_moment { IfOk result (λ mounted. MountHolds D.state first second
            (asked_by config worker) (Holds mounted.1) mounted.0.pair) }
        ensures spelled { IfOk result (λ mounted. IsTrue
            (fits_sessions SECOND_FORMAT config.shards mounted.1)) }
        ensures asked { IfOk result (λ mounted. mounted.0.asked ≡ asked_by config worker) }
        ensures mounts { IfOk result
            (λ mounted. Mounts D.state first second (asked_by config worker) mounted.0.pair) }
        ensures refuses { IfErr result (Refuses D.state first second (asked_by config worker)) }
    {
        let asked = Asked {
            shards: config.shards,
            workers: config.workers,
            worker,
        };
        let mut pair = match mount_pair(alloc, first, second, asked) {
            Ok(pair) => pair,
            Err(refused) => return Err(refused),
        };
        match read_pair(alloc, &mut pair, asked) {
            Ok((sessions, head)) => {
                let _images = pair.doubt();
                let journal = Journal {
                    pair,
                    asked,
                    head,
                    next: head,
                    alloc,
                };
                Ok((journal, sessions))
            }
            Err(why) => {
                let why = refusal(asked, pair.side(), why);
                let (first, second) = pair.into_disks();
                Err((first, second, why))
            }
        }
    }

    /// Whether a commit failed and it is open whether it was done.
    pub fn doubt(&self) -> bool
        ensures none { result ≡ false → self.now.pair.doubt ≡ Nothing }
        ensures some { result ≡ true → self.now.pair.doubt ≡ Nothing → ⊥ }
        ensures images { ImagesHold D.state self.now (held self.now) (held_after self.now) }
        ensures holds { Told D.state self.now.pair
            → IsHolding (held self.now) × IsHolding (held_after self.now) }
    {
        self.pair.doubt()
    }

    /// What it was asked to be.
    pub fn asked(&self) -> Asked
        ensures asked { result ≡ self.now.asked }
        ensures within { IsAsked self.now.asked }
    {
        self.asked
    }

    /// The disk whose records count.
    pub fn active_disk(&self) -> &D
        ensures { result.now ≡ self.now.pair.active.disk }
    {
        self.pair.active_disk()
    }

    /// The other one.
    pub fn standby_disk(&self) -> &D
        ensures { result.now ≡ self.now.pair.standby.disk }
    {
        self.pair.standby_disk()
    }

    // What every journal keeps, and what its disks hold.
    fn facts(&self)
        ensures keeps { IsJournal D.state self.now }
        ensures images { HasEither D.state self.now.pair }
    {
        let _images = self.pair.doubt();
    }

    // Where its lists have their memory.
    fn allocator(&self) -> Global {
        self.alloc
    }

    // The epoch that the next snapshot has.
    fn next_epoch(&self) -> u64
        ensures { result ≡ next_epoch self.now.pair.epoch }
    {
        self.pair.next_epoch()
    }

    // Whether a record of so many bytes goes behind the others.
    fn appends(&self, record: &Draft) -> bool
        requires { length record.now ≤ MOST_RECORD }
        ensures value { result ≡ (self.now.head.format == SECOND_FORMAT)
            && nat_le (self.now.pair.active.end + (6 + length record.now))
            (2 * self.now.head.bytes + SPARE_BYTES) }
        ensures fits { result ≡ true
            → self.now.pair.active.end + (6 + length record.now) ≤ self.now.pair.active.limit }
    {
        if self.head.format != SECOND_FORMAT {
            return false;
        }
        let most = 2 * self.head.bytes + SPARE_BYTES;
        let more = 6 + u64::from(record.len());
        self.pair.end() <= most - more
    }

    /// Makes the changes durable: these are the sessions before them. It adds a record of them, or, where the log would pass
    /// twice its snapshot and four mebibytes or has the first format, makes a snapshot with the changes in the whole log.
    /// After `Fault` it is open whether the changes are there, until `settle` answers.
    pub fn commit(&mut self, changes: &[Change], sessions: &Sessions) -> Result<(), JournalRefused>
        requires rests { self.old.pair.doubt ≡ Nothing }
        requires holds { Told D.state self.old.pair → held self.old ≡ Holds sessions.now }
        requires spelled { IsTrue
            (fits_sessions SECOND_FORMAT self.old.asked.shards sessions.now) }
        requires changes { IsTrue
            (have_spelling SECOND_FORMAT self.old.asked.shards changes.now) }
        requires short { length (spelled_changes SECOND_FORMAT changes.now) ≤ MOST_RECORD }
        requires fit { kept_fit_all whole sessions.now changes.now ≡ true }
        ensures commits { Commits D.state self.old self.new
            sessions.now (kept_acted_all changes.now sessions.now) result }
        ensures appended { OnOk result (IsTrue (appends self.old changes.now)
            → Told D.state self.old.pair → self.new.pair.active.payloads
            ≡ self.old.pair.active.payloads ++ spelled_changes SECOND_FORMAT changes.now ∷ []) }
        ensures rewritten { OnOk result (appends self.old changes.now ≡ false
            → Told D.state self.old.pair → self.new.pair.active.payloads
            ≡ (to_be_bytes w64 (next_epoch self.old.pair.epoch)
            ++ spelled_snapshot (snapshot_to_write self.old.asked.shards self.old.asked.workers
            self.old.asked.worker (kept_acted_all changes.now sessions.now))) ∷ []) }
        ensures appended_bytes { OnOk result (IsTrue (appends self.old changes.now)
            → Told D.state self.old.pair → (D.state self.new.pair.active.disk).seen
            ≡ with_record self.old.pair.active.end (spelled_changes SECOND_FORMAT changes.now)
            (D.state self.old.pair.active.disk).seen) }
        ensures rewritten_bytes { OnOk result (appends self.old changes.now ≡ false
            → Told D.state self.old.pair → (D.state self.new.pair.active.disk).seen
            ≡ with_record 0 (to_be_bytes w64 (next_epoch self.old.pair.epoch)
            ++ spelled_snapshot (snapshot_to_write self.old.asked.shards self.old.asked.workers
            self.old.asked.worker (kept_acted_all changes.now sessions.now)))
            (D.state self.old.pair.standby.disk).seen) }
        ensures spelled { IsTrue (fits_sessions SECOND_FORMAT self.old.asked.shards
            (kept_acted_all changes.now sessions.now)) }
    {
        self.facts();
        let asked = self.asked();
        let alloc = self.allocator();
        let record = match record_of(alloc, changes, asked.shards) {
            Ok(record) => record,
            Err(_) => return Err(JournalRefused::Memory),
        };
        if self.appends(&record) {
            return self.append(&record);
        }
        let epoch = self.next_epoch();
        let snapshot = match snapshot_of(alloc, epoch, asked, changes, sessions) {
            Ok(snapshot) => snapshot,
            Err(_) => return Err(JournalRefused::Memory),
        };
        self.rewrite(&snapshot)
    }

    // Adds a record.
    fn append(&mut self, record: &Draft) -> Result<(), JournalRefused>
        requires rests { self.old.pair.doubt ≡ Nothing }
        requires fits { self.old.pair.active.end + (6 + length record.now)
            ≤ self.old.pair.active.limit }
        requires holds { Told D.state self.old.pair → IsHolding (folded self.old.asked
            (self.old.pair.active.payloads ++ record.now ∷ [])) }
        ensures makes { Makes D.state self.old.pair self.new.pair
            (self.old.pair.active.payloads ++ record.now ∷ []) result }
        ensures stays { self.new ≡ record self.old { pair = self.new.pair } }
        ensures bytes { OnOk result (Told D.state self.old.pair
            → (D.state self.new.pair.active.disk).seen ≡ with_record self.old.pair.active.end
            record.now (D.state self.old.pair.active.disk).seen) }
    {
        commit_to(&mut self.pair, record)
    }

    // Makes a snapshot the whole log.
    fn rewrite(&mut self, snapshot: &Draft) -> Result<(), JournalRefused>
        requires rests { self.old.pair.doubt ≡ Nothing }
        requires epoch { take 8 snapshot.now
            ≡ to_be_bytes w64 (next_epoch self.old.pair.epoch) }
        requires short { length snapshot.now ≤ 8 + MOST_SNAPSHOT }
        requires some { 8 ≤ length snapshot.now }
        requires format { format_told (behind_epoch snapshot.now) ≡ SECOND_FORMAT }
        requires holds { Told D.state self.old.pair
            → IsHolding (folded self.old.asked (snapshot.now ∷ [])) }
        ensures makes { Makes D.state self.old.pair self.new.pair (snapshot.now ∷ []) result }
        ensures memory { result ≡ Err Memory → self.new ≡ record self.old { pair = self.new.pair } }
        ensures asked { self.new.asked ≡ self.old.asked }
        ensures bytes { OnOk result (Told D.state self.old.pair
            → (D.state self.new.pair.active.disk).seen
            ≡ with_record 0 snapshot.now (D.state self.old.pair.standby.disk).seen) }
    {
        let next = Head {
            format: SECOND_FORMAT,
            bytes: u64::from(snapshot.len()) - 8,
        };
        match rewrite_to(&mut self.pair, snapshot) {
            Ok(()) => {
                self.head = next;
                self.next = next;
                Ok(())
            }
            Err(JournalRefused::Fault) => {
                self.next = next;
                Err(JournalRefused::Fault)
            }
            Err(JournalRefused::Memory) => Err(JournalRefused::Memory),
        }
    }

    /// Ends a doubt: what was in doubt is `In` or `Out`. It writes nothing. After `Fault` the doubt stays.
    pub fn settle(&mut self) -> Result<Settled, JournalRefused>
        requires { self.old.pair.doubt ≡ Nothing → ⊥ }
        ensures ends { EndsDoubt D.state self.old self.new result }
        ensures restart_is_out { self.old.pair.doubt ≡ Restart → result ≡ Ok Out }
        ensures exact { IfOk result
            (λ settled. Told D.state self.old.pair → (self.old.pair.doubt ≡ Restart → ⊥)
            → (settled ≡ Out) ↔ (take 1 (drop (doubted_log self.old.pair).end
            (D.state (doubted_log self.old.pair).disk).seen) ≡ 0 ∷ [])) }
    {
        match settle_pair(&mut self.pair) {
            Ok(settled) => {
                let (head, next) = settled_heads(settled, self.head, self.next);
                self.head = head;
                self.next = next;
                Ok(settled)
            }
            Err(refused) => Err(refused),
        }
    }

    /// Lets the device call of this number from now on fail, once, on the first disk or the second one, 0 or 1, where it
    /// is made for that.
    pub fn arm(&mut self, disk: usize, call: u32) -> Result<(), AllocError>
        requires { disk < 2 }
        ensures first { disk ≡ 0
            → OnOk result (D.arms_at call (first_disk self.old.pair) (first_disk self.new.pair)) }
        ensures second { disk ≡ 1
            → OnOk result (D.arms_at call (second_disk self.old.pair) (second_disk self.new.pair)) }
        ensures second_stays { disk ≡ 0
            → second_disk self.new.pair ≡ second_disk self.old.pair }
        ensures first_stays { disk ≡ 1 → first_disk self.new.pair ≡ first_disk self.old.pair }
        ensures refused { OnErr result (both_disks self.new.pair ≡ both_disks self.old.pair) }
        ensures stays { self.new ≡ record self.old {
          pair = record self.old.pair {
            active = record self.old.pair.active { disk = self.new.pair.active.disk };
            standby = record self.old.pair.standby { disk = self.new.pair.standby.disk };
            past = self.old.pair.past ++ both_disks self.old.pair ∷ [];
          };
        } }
        ensures any_moment { EachHolds D.state self.old self.new
            (held self.old) (held_after self.old) }
        ensures active_armed { IsArmed (D.state self.old.pair.active.disk)
            (D.state self.new.pair.active.disk) }
        ensures standby_armed { IsArmed (D.state self.old.pair.standby.disk)
            (D.state self.new.pair.standby.disk) }
    {
        self.pair.arm(disk, call)
    }

    /// Appends the two disks in their order.
    pub fn disks(self, out: &mut Vec<D>)
        requires { vec_len out.old + 2 ≤ vec_capacity out.old }
        ensures disks { out.new.items
            ≡ out.old.items ++ (first_disk self.pair ∷ second_disk self.pair ∷ []) }
        ensures len { vec_len out.new ≡ vec_len out.old + 2 }
        ensures capacity { vec_capacity out.new ≡ vec_capacity out.old }
    {
        let Journal { pair, .. } = self;
        pair.disks(out);
    }
}
