// What a snapshot and the records behind it hold.
ghost use Rattle.std.specs.Prelude.{◌≡◌, ◌⊎◌, ◌≤◌, ◌<◌, IsTrue, IfOk, IfErr, OnOk, Ok, length, true};
ghost use Rattle.topic_model.specs.Profile.{whole};
ghost use Rattle.session_state.specs.KeptActing.{kept_acted_all};
ghost use Rattle.session_state.specs.KeptFits.{kept_fit_all};
ghost use Rattle.session_codec.specs.HasSpelling.{fits_sessions, is_format};
ghost use Rattle.session_codec.specs.Reading.{snapshot_in};
ghost use Rattle.session_journal.specs.Fold.{Holds, checked, format_told, opened, read_or_damaged, with_changes};
ghost use Rattle.session_journal.specs.Giving.{Gives, IsInside};
ghost use Rattle.session_journal.specs.PlainJournal.{IsAsked};

use crate::asked::Asked;
use crate::limits::MOST_SNAPSHOT;
use crate::unread::Unread;
use session_codec::{
    CodecRefused, FIRST_FORMAT, SECOND_FORMAT, SessionsSnapshot, format_of, read_changes,
    read_snapshot,
};
use session_state::{Change, Sessions, act};
use std::alloc::{AllocError, Global};
use topic_name::What;

// How the records behind a snapshot are written.
#[derive(Clone, Copy)]
pub(crate) struct Form {
    pub(crate) format: u8,
    pub(crate) shards: u8,
}

// The sessions of a snapshot, where it is as asked.
fn check(snapshot: SessionsSnapshot, asked: Asked) -> Result<Sessions, Unread>
    ensures exact { Gives (λ s. s) result (checked asked snapshot) }
    ensures sessions { IfOk result (λ s. s ≡ snapshot.sessions) }
    ensures inside { IfErr result IsInside }
    ensures shards { OnOk result (snapshot.shards ≡ asked.shards) }
{
    let SessionsSnapshot {
        shards,
        workers,
        worker,
        sessions,
        ..
    } = snapshot;
    if shards != asked.shards {
        return Err(Unread::Another(What::Shards, shards, asked.shards));
    }
    if workers != asked.workers {
        return Err(Unread::Another(What::Workers, workers, asked.workers));
    }
    if worker != asked.worker {
        return Err(Unread::Another(What::Number, worker, asked.worker));
    }
    Ok(sessions)
}

/// Lets changes act one after the other, and gives whether all fit. Where one doesn't, or there is no memory, those before it
/// have acted.
pub fn act_all(sessions: &mut Sessions, changes: &[Change]) -> Result<bool, AllocError>
    ensures fits { IfOk result (λ fits. fits ≡ kept_fit_all whole sessions.old changes.now) }
    ensures acted { result ≡ Ok true → sessions.new ≡ kept_acted_all changes.now sessions.old }
{
    for change in changes {
        let fits = act(sessions, change)?;
        if !fits {
            return Ok(false);
        }
    }
    Ok(true)
}

// The sessions of a snapshot of one of the two formats.
fn open_as(alloc: Global, bytes: &[u8], asked: Asked) -> Result<Sessions, Unread>
    requires shards { IsAsked asked }
    ensures exact { Gives (λ s. s) result (read_or_damaged asked (snapshot_in bytes.now)) }
    ensures spelled { IfOk result (λ s.
        IsTrue (fits_sessions (format_told bytes.now) asked.shards s)) }
    ensures short { OnOk result
        (format_told bytes.now ≡ SECOND_FORMAT → length bytes.now ≤ MOST_SNAPSHOT) }
    ensures inside { IfErr result IsInside }
{
    match read_snapshot(alloc, bytes) {
        Ok(snapshot) => check(snapshot, asked),
        Err(CodecRefused::Bad) => Err(Unread::Damaged(0)),
        Err(CodecRefused::Memory) => Err(Unread::Memory),
    }
}

// The sessions of a snapshot.
pub(crate) fn open(alloc: Global, bytes: &[u8], asked: Asked) -> Result<Sessions, Unread>
    requires shards { IsAsked asked }
    ensures exact { Gives (λ s. s) result (opened asked bytes.now) }
    ensures spelled { IfOk result (λ s.
        IsTrue (fits_sessions (format_told bytes.now) asked.shards s)) }
    ensures format { OnOk result (IsTrue (is_format (format_told bytes.now))) }
    ensures short { OnOk result
        (format_told bytes.now ≡ SECOND_FORMAT → length bytes.now ≤ MOST_SNAPSHOT) }
    ensures inside { IfErr result IsInside }
    ensures some { OnOk result (0 < length bytes.now) }
{
    match format_of(bytes) {
        None => Err(Unread::Damaged(0)),
        Some(format) => {
            if !is_known(format) {
                return Err(Unread::Another(What::Format, format, SECOND_FORMAT));
            }
            open_as(alloc, bytes, asked)
        }
    }
}

// Whether a format is one of the two.
fn is_known(format: u8) -> bool
    ensures { result ≡ is_format format }
{
    format == FIRST_FORMAT || format == SECOND_FORMAT
}

// Lets the changes of a record act, whose gate stands at this place.
pub(crate) fn take_record(
    alloc: Global,
    bytes: &[u8],
    form: Form,
    place: u64,
    sessions: &mut Sessions,
) -> Result<(), Unread>
    requires { (form.format ≡ FIRST_FORMAT) ⊎ (form.format ≡ SECOND_FORMAT) }
    ensures exact { Gives (λ _. sessions.new) result
        (with_changes form.format form.shards place bytes.now (Holds sessions.old)) }
    ensures spelled { OnOk result (IsTrue (fits_sessions form.format form.shards sessions.old)
        → IsTrue (fits_sessions form.format form.shards sessions.new)) }
    ensures inside { IfErr result IsInside }
{
    let changes = match read_changes(alloc, bytes, form.shards, form.format) {
        Ok(changes) => changes,
        Err(CodecRefused::Bad) => return Err(Unread::Damaged(place)),
        Err(CodecRefused::Memory) => return Err(Unread::Memory),
    };
    let fit = act_all(sessions, &changes)?;
    if !fit {
        return Err(Unread::Damaged(place));
    }
    Ok(())
}
