// What a journal writes: a record of changes, and a snapshot behind its epoch.
ghost use Rattle.std.specs.Prelude.{◌≡◌, ◌≤◌, ◌+◌, ◌++◌, IfOk, IsTrue, length, true};
ghost use Rattle.std.specs.Int.{w64, to_be_bytes};
ghost use Rattle.topic_model.specs.Profile.{whole};
ghost use Rattle.session_state.specs.KeptActing.{kept_acted_all};
ghost use Rattle.session_state.specs.KeptFits.{kept_fit_all};
ghost use Rattle.session_codec.specs.Spelling.{snapshot_to_write, spelled_changes, spelled_snapshot};
ghost use Rattle.session_codec.specs.HasSpelling.{fits_sessions, have_spelling};
ghost use Rattle.session_journal.specs.Mounting.{first_snapshot};
ghost use Rattle.session_journal.specs.PlainJournal.{IsAsked};

use crate::asked::Asked;
use crate::folding::act_all;
use crate::limits::{MOST_RECORD, MOST_SNAPSHOT};
use gated_log::Draft;
use session_codec::{SECOND_FORMAT, write_changes, write_snapshot};
use session_state::{Change, Sessions};
use std::alloc::{AllocError, Global};

// The draft of a record of these changes.
pub(crate) fn record_of(alloc: Global, changes: &[Change], shards: u8) -> Result<Draft, AllocError>
    requires spelled { IsTrue (have_spelling SECOND_FORMAT shards changes.now) }
    requires short { length (spelled_changes SECOND_FORMAT changes.now) ≤ MOST_RECORD }
    ensures { IfOk result (λ draft. draft ≡ spelled_changes SECOND_FORMAT changes.now) }
{
    let mut bytes = Vec::new(alloc);
    write_changes(changes, shards, &mut bytes)?;
    Draft::of(bytes)
}

// A copy of the sessions on which the changes acted, which fit.
fn acted(changes: &[Change], sessions: &Sessions) -> Result<Sessions, AllocError>
    requires { kept_fit_all whole sessions.now changes.now ≡ true }
    ensures { IfOk result (λ after. after ≡ kept_acted_all changes.now sessions.now) }
{
    let mut after = sessions.copy()?;
    let fit = act_all(&mut after, changes)?;
    prove!(fit);
    Ok(after)
}

// The bytes of a snapshot of the sessions, behind an epoch.
fn snapshot_bytes(
    alloc: Global,
    epoch: u64,
    asked: Asked,
    sessions: &Sessions,
) -> Result<Vec<u8>, AllocError>
    requires shards { IsAsked asked }
    requires spelled { IsTrue (fits_sessions SECOND_FORMAT asked.shards sessions.now) }
    ensures bytes { IfOk result (λ bytes. bytes.items ≡ to_be_bytes w64 epoch
        ++ spelled_snapshot
        (snapshot_to_write asked.shards asked.workers asked.worker sessions.now)) }
    ensures short { IfOk result (λ bytes. length bytes.items ≤ 8 + MOST_SNAPSHOT) }
    ensures some { IfOk result (λ bytes. 8 ≤ length bytes.items) }
{
    let mut bytes = Vec::new(alloc);
    bytes.extend_from_slice(&epoch.to_be_bytes())?;
    write_snapshot(
        asked.shards,
        asked.workers,
        asked.worker,
        sessions,
        &mut bytes,
    )?;
    Ok(bytes)
}

// The draft of a snapshot of the sessions after the changes, behind an epoch.
pub(crate) fn snapshot_of(
    alloc: Global,
    epoch: u64,
    asked: Asked,
    changes: &[Change],
    sessions: &Sessions,
) -> Result<Draft, AllocError>
    requires shards { IsAsked asked }
    requires spelled { IsTrue (fits_sessions SECOND_FORMAT asked.shards sessions.now) }
    requires changes { IsTrue (have_spelling SECOND_FORMAT asked.shards changes.now) }
    requires fit { kept_fit_all whole sessions.now changes.now ≡ true }
    ensures draft { IfOk result (λ draft. draft ≡ to_be_bytes w64 epoch
        ++ spelled_snapshot (snapshot_to_write asked.shards asked.workers asked.worker
        (kept_acted_all changes.now sessions.now))) }
    ensures short { IfOk result (λ draft. length draft ≤ 8 + MOST_SNAPSHOT) }
    ensures some { IfOk result (λ draft. 8 ≤ length draft) }
{
    let after = acted(changes, sessions)?;
    let bytes = snapshot_bytes(alloc, epoch, asked, &after)?;
    Draft::of(bytes)
}

// The snapshot of a journal that has no sessions yet.
pub(crate) fn first_snapshot(alloc: Global, asked: Asked) -> Result<Vec<u8>, AllocError>
    ensures bytes { IfOk result (λ bytes. bytes.items ≡ first_snapshot asked) }
    ensures length { IfOk result (λ bytes. length bytes.items ≡ 16) }
{
    let mut bytes = Vec::new(alloc);
    write_snapshot(
        asked.shards,
        asked.workers,
        asked.worker,
        &Sessions::new(alloc),
        &mut bytes,
    )?;
    Ok(bytes)
}
