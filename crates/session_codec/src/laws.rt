ghost use Rattle.std.specs.Prelude.{◌≡◌, ◌≤◌, ◌<◌, ℕ, List, length, IsTrue, Some};
ghost use Rattle.wire_fields.specs.Reading.{AreBytes};
ghost use Rattle.session_state.specs.declared.change.Change.{Change};
ghost use Rattle.session_state.specs.KeptSession.{KeptSession, KeptSessions};
ghost use Rattle.session_codec.specs.Spelling.{KeptSnapshot, snapshot_to_write, spelled_changes, spelled_session, spelled_snapshot};
ghost use Rattle.session_codec.specs.Sizes.{changes_size, snapshot_size};
ghost use Rattle.session_codec.specs.Bounds.{IsBounded, AreBounded};
ghost use Rattle.topic_model.specs.Profile.{whole};
ghost use Rattle.session_state.specs.KeptActing.{kept_acted, kept_acted_all};
ghost use Rattle.session_state.specs.KeptFits.{kept_fits, kept_fit_all};
ghost use Rattle.session_codec.specs.HasSpelling.{fits_change, fits_sessions, have_spelling, has_spelling, SpellsChanges, SpellsSnapshot};
ghost use Rattle.session_codec.specs.Reading.{changes_in, snapshot_in};

use crate::formats::{FIRST_FORMAT, SECOND_FORMAT};

/// A law: what is spelled is read again.
pub fn spelled_is_read()
    ensures changes { (format shards : ℕ) (changes : List Change) →
        IsTrue (have_spelling format shards changes) →
        changes_in format shards (spelled_changes format changes) ≡ Some changes }
    ensures snapshot { (snapshot : KeptSnapshot) → IsTrue (has_spelling snapshot) →
        snapshot_in (spelled_snapshot snapshot) ≡ Some snapshot }
{}

/// A law: what is read was spelled.
pub fn read_was_spelled()
    ensures changes { (format shards : ℕ) (bytes : List ℕ) (changes : List Change) →
        AreBytes bytes → changes_in format shards bytes ≡ Some changes →
        SpellsChanges format shards bytes changes }
    ensures snapshot { (bytes : List ℕ) (snapshot : KeptSnapshot) → AreBytes bytes →
        snapshot_in bytes ≡ Some snapshot → SpellsSnapshot bytes snapshot }
{}

/// A law: no two values have one spelling, in one format and with so many shards.
pub fn spellings_differ()
    ensures changes { (format shards : ℕ) (a b : List Change) →
        IsTrue (have_spelling format shards a) → IsTrue (have_spelling format shards b) →
        spelled_changes format a ≡ spelled_changes format b → a ≡ b }
    ensures snapshot { (a b : KeptSnapshot) → IsTrue (has_spelling a) → IsTrue (has_spelling b) →
        spelled_snapshot a ≡ spelled_snapshot b → a ≡ b }
{}

/// A law: the length of a spelling is a number computed from what is spelled.
pub fn length_is_a_number()
    ensures changes { (format : ℕ) (changes : List Change) →
        length (spelled_changes format changes) ≡ changes_size format changes }
    ensures snapshot { (snapshot : KeptSnapshot) →
        length (spelled_snapshot snapshot) ≡ snapshot_size snapshot }
{}

/// A law: a session whose lists are within its window's bounds takes at most 131,408 bytes, or 268,112 with the wide window,
/// and a snapshot of 4,096 of them, of which at most 256 are wide, fewer than 573,604,352.
pub fn bounded_snapshots_are_short()
    ensures narrow { (m : KeptSession) → IsBounded 0 m → m.window ≡ 512 →
        length (spelled_session SECOND_FORMAT m) ≤ 131408 }
    ensures wide { (m : KeptSession) → IsBounded 0 m → m.window ≡ 2048 →
        length (spelled_session SECOND_FORMAT m) ≤ 268112 }
    ensures snapshot { (shards workers worker : ℕ) (s : KeptSessions) → AreBounded 0 s →
        length (spelled_snapshot (snapshot_to_write shards workers worker s)) < 573604352 }
{}

/// A law: a snapshot that has a spelling, of at most eight shards, takes at most 576,126,992 bytes.
pub fn snapshots_are_short()
    ensures { (shards workers worker : ℕ) (s : KeptSessions) → shards ≤ 8 →
        IsTrue (has_spelling (snapshot_to_write shards workers worker s)) →
        length (spelled_snapshot (snapshot_to_write shards workers worker s)) ≤ 576126992 }
{}

/// A law: sessions that have a spelling have one after changes that have one and fit.
pub fn changes_keep_spelling()
    ensures change { (format shards : ℕ) (s : KeptSessions) (c : Change) →
        IsTrue (fits_sessions format shards s) → IsTrue (fits_change format shards c) →
        IsTrue (kept_fits whole s c) → IsTrue (fits_sessions format shards (kept_acted c s)) }
    ensures changes { (format shards : ℕ) (s : KeptSessions) (changes : List Change) →
        IsTrue (fits_sessions format shards s) → IsTrue (have_spelling format shards changes) →
        IsTrue (kept_fit_all whole s changes) →
        IsTrue (fits_sessions format shards (kept_acted_all changes s)) }
{}

/// A law: sessions that have a spelling in the first format have one in the second.
pub fn formats_go_on()
    ensures { (shards : ℕ) (s : KeptSessions) → IsTrue (fits_sessions FIRST_FORMAT shards s) →
        IsTrue (fits_sessions SECOND_FORMAT shards s) }
{}
