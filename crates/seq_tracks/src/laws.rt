ghost use Rattle.std.specs.Prelude.{◌≡◌, ◌≤◌, ◌<◌, ◌+◌, ◌↔◌, ◌==◌, ◌&&◌, ◌||◌, not, nat_le, nat_lt, List, ℕ, IsTrue, true, false};
ghost use Rattle.session_model.specs.declared.entry.Kind.TheVariants.{Track1, Track2};
ghost use Rattle.session_model.specs.Entry.{numbers1, numbers2};
ghost use Rattle.session_model.specs.PlainSession as session;
ghost use Rattle.session_model.specs.PlainSession.{PlainSession, begun_session, issued1_of, issued2_of, room_of};
ghost use Rattle.session_model.specs.Unfinished.{kind_is_finished, kind_is_released, unfinished};
ghost use Rattle.session_model.specs.Change.{Acked, Done, Effect, Passed, Passes, Received};
ghost use Rattle.session_model.specs.Acting.{changed_session};
ghost use Rattle.session_model.specs.FitsSession.{is_between, suits};
ghost use Rattle.session_model.specs.Orders.{HasNumbers};
ghost use Rattle.session_model.specs.PlainSession.{has};
ghost use Rattle.seq_tracks.specs.PlainTracks.{PlainTracks, has_room_for, is_done, is_released, is_unfinished, last_of, mark_of, no_tracks, room, in_use};
ghost use Rattle.seq_tracks.specs.InOrder.{InOrder, are_in_order};
ghost use Rattle.seq_tracks.specs.Identifiers.{id_of, unfinished_on};
ghost use Rattle.seq_tracks.specs.Changed.{done_tracks, passed_tracks, received_tracks, with_done};
ghost use Rattle.seq_tracks.specs.StandFor.{TracksStandFor, changed_tracks};

use crate::marks::WIDEST_WINDOW;

/// A law: unfinished numbers with one packet identifier are the same number of the same track, while no more than the
/// widest window is in use (MQTT 2.2.1).
pub fn no_identifier_twice()
    ensures { (t : PlainTracks) (track other seq another : ℕ) → in_use t ≤ WIDEST_WINDOW →
        IsTrue (is_unfinished t track seq) → IsTrue (is_unfinished t other another) →
        id_of track seq ≡ id_of other another → (track ≡ other) × (seq ≡ another) }
{}

/// A law: the list of a track's unfinished numbers has exactly those that are unfinished there.
pub fn unfinished_are_listed()
    ensures { (t : PlainTracks) (track seq : ℕ) →
        has (unfinished_on t track) seq ≡ is_unfinished t track seq }
{}

/// A law: the test of order passes exactly the tracks that are in order.
pub fn order_is_tested()
    ensures { (t : PlainTracks) → IsTrue (are_in_order t) ↔ InOrder t }
{}

/// A law: counts that are together within the room of a window fit each track.
pub fn room_is_for_both()
    ensures { (t : PlainTracks) (window count1 count2 : ℕ) → InOrder t → window ≤ WIDEST_WINDOW →
        count1 + count2 ≤ room t window → IsTrue (has_room_for t count1 count2) }
{}

/// A law: after each change of track 2 exactly the old numbers and its own are done, and `complete` is the greatest number
/// up to which all are.
pub fn changes_finish()
    ensures received { (t : PlainTracks) (seq n : ℕ) → InOrder t → t.received < seq →
        is_done (received_tracks seq t) n ≡ (is_done t n || (nat_lt t.received n && nat_lt n seq)) }
    ensures done { (t : PlainTracks) (seq n : ℕ) → InOrder t → seq ≤ t.received →
        is_done (done_tracks seq t) n ≡ (is_done t n || (seq == n)) }
    ensures passed { (t : PlainTracks) (seq n : ℕ) → InOrder t → t.received < seq →
        is_done (passed_tracks 2 seq t) n ≡ (is_done t n || (nat_lt t.received n && nat_le n seq)) }
    ensures complete { (t : PlainTracks) (received : ℕ) (more : List ℕ) →
        is_done (with_done received more t) ((with_done received more t).complete + 1) ≡ false }
{}

/// A law: tracks that stand for those of a session do so too after a change that fits; those of a session that begins
/// are empty.
pub fn changes_agree()
    ensures begun { (client : List ℕ) (incarnation expiry window : ℕ) →
        TracksStandFor no_tracks (begun_session client incarnation expiry window) }
    ensures changed { (t : PlainTracks) (m : PlainSession) (effect : Effect) →
        TracksStandFor t m → HasNumbers m → suits m effect ≡ true →
        TracksStandFor (changed_tracks effect t) (changed_session effect m) }
{}

/// A law: tracks that stand for those of a session tell what its window has in use, its room, which of its numbers are
/// unfinished, and which are released.
pub fn readings_agree()
    ensures in_use { (t : PlainTracks) (m : PlainSession) → TracksStandFor t m →
        in_use t ≡ session.in_use m }
    ensures room { (t : PlainTracks) (m : PlainSession) → TracksStandFor t m →
        room t m.window ≡ room_of m }
    ensures unfinished1 { (t : PlainTracks) (m : PlainSession) (n : ℕ) → TracksStandFor t m →
        n ≤ issued1_of m → is_unfinished t 1 n ≡ not (kind_is_finished m (Track1 n)) }
    ensures unfinished2 { (t : PlainTracks) (m : PlainSession) (n : ℕ) → TracksStandFor t m →
        1 ≤ n → n ≤ issued2_of m → is_unfinished t 2 n ≡ not (kind_is_finished m (Track2 n)) }
    ensures released { (t : PlainTracks) (m : PlainSession) (n : ℕ) → TracksStandFor t m →
        1 ≤ n → is_released t n ≡ kind_is_released m (Track2 n) }
{}

/// A law: the unfinished numbers of tracks are those of the unfinished entries of the session that they stand for, in
/// order.
pub fn unfinished_numbers_agree()
    ensures track1 { (t : PlainTracks) (m : PlainSession) → TracksStandFor t m → HasNumbers m →
        unfinished_on t 1 ≡ numbers1 (unfinished m) }
    ensures track2 { (t : PlainTracks) (m : PlainSession) → TracksStandFor t m → HasNumbers m →
        unfinished_on t 2 ≡ numbers2 (unfinished m) }
{}

/// A law: tracks tell which changes fit the session that they stand for.
pub fn tracks_tell_what_fits()
    ensures acked { (t : PlainTracks) (m : PlainSession) (n : ℕ) → TracksStandFor t m →
        suits m (Acked n) ≡ is_between t.acked t.issued1 n }
    ensures received { (t : PlainTracks) (m : PlainSession) (n : ℕ) → TracksStandFor t m →
        suits m (Received n) ≡ is_between t.received t.issued2 n }
    ensures done { (t : PlainTracks) (m : PlainSession) (n : ℕ) → TracksStandFor t m →
        suits m (Done n) ≡ is_released t n }
    ensures passed { (t : PlainTracks) (m : PlainSession) (p : Passes) → TracksStandFor t m →
        suits m (Passed p) ≡ (((p.track == 1) || (p.track == 2))
        && is_between (mark_of t p.track) (last_of t p.track) p.number) }
{}
