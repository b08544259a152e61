// A journal with the sessions that it holds.
ghost use Rattle.std.specs.Prelude.{◌≡◌, ◌≤◌, ◌<◌, length, IsTrue, IfOk, SomeIff, Some, None, true, false};
ghost use Rattle.topic_model.specs.Limits.{is_within_limits};
ghost use Rattle.topic_model.specs.Profile.{whole};
ghost use Rattle.topic_name.specs.PlainConfig.{plain_config};
ghost use Rattle.session_codec.specs.HasSpelling.{have_spelling};
ghost use Rattle.session_codec.specs.Spelling.{spelled_changes};
ghost use Rattle.pair_log.specs.declared.doubt.Doubt.TheVariants.{Nothing};

use outside::Disk;
use session_codec::{SECOND_FORMAT, write_changes};
use session_journal::{Journal, JournalRefused, MOST_RECORD, act_all};
use session_state::{Change, Sessions};
use std::alloc::{AllocError, Global};
use std::marker::Model;
use topic_name::{Config, MountRefused};

/// A journal at rest or in doubt, with the sessions that its disks hold without what is in doubt.
#[derive(Drop)]
pub struct Held<D: Disk> {
    journal: Journal<D>,
    sessions: Sessions,
    alloc: Global,
}

impl<D: Disk> Model for Held<D> {
    ghost use Rattle.durable_tests.specs.PlainHeld.{IsHeld, PlainHeld};

    ghost Value = { PlainHeld D };

    ghost view = { λ h. record { journal = h.journal; sessions = h.sessions } };

    ghost invariant = { λ h. IsHeld D.state (record { journal = h.journal; sessions = h.sessions }) };
}

// Whether a record of these changes is within the most bytes.
fn is_short(alloc: Global, changes: &[Change], shards: u8) -> Result<bool, AllocError>
    requires { IsTrue (have_spelling SECOND_FORMAT shards changes.now) }
    ensures { IfOk result (λ short. short ≡ true
        → length (spelled_changes SECOND_FORMAT changes.now) ≤ MOST_RECORD) }
{
    let mut bytes = Vec::new(alloc);
    write_changes(changes, shards, &mut bytes)?;
    Ok(bytes.len() as u64 <= MOST_RECORD)
}

impl<D: Disk> Held<D> {
    /// The journal on these disks, with the sessions that it holds.
    pub fn mount(
        alloc: Global,
        first: D,
        second: D,
        config: Config,
        worker: u8,
    ) -> Result<Held<D>, (D, D, MountRefused)>
        requires config { is_within_limits (plain_config config) ≡ true }
        requires worker { worker < config.workers }
        ensures rests { IfOk result (λ h. h.journal.pair.doubt ≡ Nothing) }
        ensures shards { IfOk result (λ h. h.journal.asked.shards ≡ config.shards) }
    {
        let (journal, sessions) = Journal::mount(alloc, first, second, config, worker)?;
        Ok(Held {
            journal,
            sessions,
            alloc,
        })
    }

    /// The sessions.
    pub fn sessions(&self) -> &Sessions
        ensures { result.now ≡ self.now.sessions }
    {
        &self.sessions
    }

    /// Lets the changes act and commits them. Whether that was done; else the journal is in doubt. None, with nothing
    /// changed, where one of them doesn't fit, their record is too long, or there is no memory.
    pub fn commit(&mut self, changes: &[Change]) -> Option<bool>
        requires rests { self.old.journal.pair.doubt ≡ Nothing }
        requires spelled { IsTrue
            (have_spelling SECOND_FORMAT self.old.journal.asked.shards changes.now) }
        ensures done { result ≡ Some true → self.new.journal.pair.doubt ≡ Nothing }
        ensures in_doubt { result ≡ Some false → self.new.journal.pair.doubt ≡ Nothing → ⊥ }
        ensures nothing { result ≡ None → self.new.journal.pair.doubt ≡ Nothing }
        ensures asked { self.new.journal.asked ≡ self.old.journal.asked }
    {
        let shards = self.journal.asked().shards;
        let Ok(mut after) = self.sessions.copy() else {
            return None;
        };
        let Ok(true) = act_all(&mut after, changes) else {
            return None;
        };
        let Ok(true) = is_short(self.alloc, changes, shards) else {
            return None;
        };
        match self.journal.commit(changes, &self.sessions) {
            Ok(()) => {
                self.sessions = after;
                Some(true)
            }
            Err(JournalRefused::Fault) => Some(false),
            Err(JournalRefused::Memory) => None,
        }
    }

    /// Lets a device call from now on fail, on the first disk or the second one, 0 or 1.
    pub fn arm(&mut self, disk: usize, call: u32) -> Result<(), AllocError>
        requires { disk < 2 }
        ensures rests { self.old.journal.pair.doubt ≡ Nothing
            → self.new.journal.pair.doubt ≡ Nothing }
        ensures in_doubt { self.new.journal.pair.doubt ≡ self.old.journal.pair.doubt }
        ensures asked { self.new.journal.asked ≡ self.old.journal.asked }
    {
        self.journal.arm(disk, call)
    }

    /// The journal.
    pub fn into_journal(self) -> Journal<D>
        ensures { result ≡ self.journal }
    {
        let Held { journal, .. } = self;
        journal
    }
}
