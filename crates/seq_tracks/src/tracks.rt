ghost use Rattle.std.specs.Prelude.{◌≡◌, ◌+◌, ◌-◌, ◌<◌, ◌≤◌, ◌⊎◌, ◌↔◌, [], ℕ, nat_le, IsTrue, Some, OnOk, OnErr, IfOk, vec_capacity};
ghost use Rattle.std.specs.Option.{SomeIff};
ghost use Rattle.seq_tracks.specs.PlainTracks.{no_tracks, is_done, is_released, is_unfinished, in_use, room, has_room_for, mark_of, last_of};
ghost use Rattle.seq_tracks.specs.InOrder.{InOrder, are_in_order, tracks_of};
ghost use Rattle.seq_tracks.specs.Identifiers.{HasIdentifier, seq_of};
ghost use Rattle.seq_tracks.specs.Changed.{acked_tracks, received_tracks, done_tracks, passed_tracks, issued_tracks, with_done};
ghost use Rattle.session_model.specs.Acting.{numbers_from};

use crate::done::{finish, pass_over};
use crate::identifiers::seq_between;
use crate::marks::{Marks, WIDEST_WINDOW};
use crate::numbers::{ascend, has};
use std::alloc::{AllocError, Global};
use std::marker::Model;

/// The two tracks of a session, of QoS 1 and of QoS 2: which numbers they have given, and how far its client has
/// acknowledged them (MQTT 4.3.2, 4.3.3). Contracts see `PlainTracks`. Giving numbers makes room for what may be done out of
/// order, so that no acknowledgement takes memory.
#[derive(Debug, Drop)]
pub struct Tracks {
    marks: Marks,
    done: Vec<u64>,
}

impl Model for Tracks {
    ghost use Rattle.std.specs.Prelude.{vec_capacity};
    ghost use Rattle.seq_tracks.specs.PlainTracks.{PlainTracks};
    ghost use Rattle.seq_tracks.specs.InOrder.{AreHeld, tracks_of};

    ghost Value = { PlainTracks };

    ghost view = { λ t. tracks_of t.marks t.done.items };

    ghost invariant = { λ t. AreHeld (tracks_of t.marks t.done.items) (vec_capacity t.done) };
}

impl Tracks {
    /// The tracks of a session that begins: no number was given.
    pub fn new(alloc: Global) -> Tracks
        ensures { result ≡ no_tracks }
    {
        let marks = Marks {
            issued1: 0,
            acked: 0,
            issued2: 0,
            received: 0,
            complete: 0,
        };
        Tracks {
            marks,
            done: Vec::new(alloc),
        }
    }

    /// Tracks with these marks, and these numbers of track 2 done out of order, ascending. None exactly where a mark passes
    /// the last number or `complete` what was received, a last number is the greatest of all, more than the widest window
    /// is in use, or the numbers don't ascend between the one behind `complete` and what was received.
    pub fn of(marks: Marks, done: Vec<u64>) -> Result<Option<Tracks>, AllocError>
        ensures { IfOk result (λ made. SomeIff made
            (IsTrue (are_in_order (tracks_of marks done.items))) (tracks_of marks done.items)) }
    {
        if !are_in_order(&marks, &done) {
            return Ok(None);
        }
        let mut done = done;
        make_room(&marks, 0, &mut done)?;
        Ok(Some(Tracks { marks, done }))
    }

    /// An equal value.
    pub fn copy(&self) -> Result<Tracks, AllocError>
        ensures { IfOk result (λ tracks. tracks ≡ self.now) }
    {
        let marks = self.marks;
        let mut done = self.done.clone()?;
        make_room(&marks, 0, &mut done)?;
        Ok(Tracks { marks, done })
    }

    // ---- what they are

    /// The last number that track 1 has given.
    pub fn issued1(&self) -> u64
        ensures { result ≡ self.now.issued1 }
    {
        self.marks.issued1
    }

    /// The number up to which all of track 1 are acknowledged.
    pub fn acked(&self) -> u64
        ensures { result ≡ self.now.acked }
    {
        self.marks.acked
    }

    /// The last number that track 2 has given.
    pub fn issued2(&self) -> u64
        ensures { result ≡ self.now.issued2 }
    {
        self.marks.issued2
    }

    /// The number of track 2 up to which PUBREC came.
    pub fn received(&self) -> u64
        ensures { result ≡ self.now.received }
    {
        self.marks.received
    }

    /// The greatest number of track 2 up to which all are done.
    pub fn complete(&self) -> u64
        ensures { result ≡ self.now.complete }
    {
        self.marks.complete
    }

    /// The numbers of track 2 that were done out of order, ascending: those above `complete`. What holds of every value is
    /// said here.
    pub fn done(&self) -> &[u64]
        ensures done { result.now ≡ self.now.done }
        ensures order { InOrder self.now }
    {
        &self.done
    }

    /// Whether a number of track 2 is done. All up to `complete` are, and 0 counts as done too.
    pub fn is_done(&self, seq: u64) -> bool
        ensures { result ≡ is_done self.now seq }
    {
        seq <= self.marks.complete || has(&self.done, seq)
    }

    /// Whether a number of track 2 is received and not done: what is sent again is PUBREL (MQTT 4.3.3).
    pub fn is_released(&self, seq: u64) -> bool
        ensures { result ≡ is_released self.now seq }
    {
        seq <= self.marks.received && !self.is_done(seq)
    }

    /// Whether a number was given on track 1 or 2 and isn't finished there. On another track none is.
    pub fn is_unfinished(&self, track: u8, seq: u64) -> bool
        ensures { result ≡ is_unfinished self.now track seq }
    {
        match track {
            1 => self.marks.acked < seq && seq <= self.marks.issued1,
            2 => seq <= self.marks.issued2 && !self.is_done(seq),
            _ => false,
        }
    }

    /// The unfinished number of a track with this packet identifier, which is the only one; None exactly where there is
    /// none (MQTT 2.2.1). It looks at one number, and on track 2 for it among those done out of order, by halves.
    pub fn seq_of(&self, track: u8, id: u16) -> Option<u64>
        ensures exact { result ≡ seq_of self.now track id }
        ensures only { (seq : ℕ) → (result ≡ Some seq) ↔ HasIdentifier self.now track id seq }
    {
        let seq = match track {
            1 => seq_between(track, id, self.marks.acked, self.marks.issued1)?,
            2 => seq_between(track, id, self.marks.complete, self.marks.issued2)?,
            _ => return None,
        };
        if self.is_unfinished(track, seq) {
            Some(seq)
        } else {
            None
        }
    }

    /// How many numbers are in use: those given behind `acked` and behind `complete`.
    pub fn in_use(&self) -> u16
        ensures used { result ≡ in_use self.now }
        ensures within { result ≤ WIDEST_WINDOW }
    {
        let track1 = self.marks.issued1 - self.marks.acked;
        let track2 = self.marks.issued2 - self.marks.complete;
        (track1 + track2) as u16
    }

    /// How many more numbers may be given with this window: never more than either track has left below the greatest
    /// number. Counts that are together within the room of a window of at most 2,048 may be issued.
    pub fn room(&self, window: u16) -> u16
        ensures { result ≡ room self.now window }
    {
        let left1 = u64::MAX - 1 - self.marks.issued1;
        let left2 = u64::MAX - 1 - self.marks.issued2;
        let unused = window.saturating_sub(self.in_use());
        u64::from(unused).min(left1.min(left2)) as u16
    }

    /// Whether so many more numbers of track 1 and of track 2 are within the widest window and what each track has left.
    pub fn has_room_for(&self, count1: u16, count2: u16) -> bool
        ensures { result ≡ has_room_for self.now count1 count2 }
    {
        u32::from(self.in_use()) + u32::from(count1) + u32::from(count2) <= u32::from(WIDEST_WINDOW)
            && u64::from(count1) <= u64::MAX - 1 - self.marks.issued1
            && u64::from(count2) <= u64::MAX - 1 - self.marks.issued2
    }

    // ---- how they change

    /// Gives so many more numbers on each track. Only this call takes memory, as much as the numbers in use on track 2 may
    /// need; on want of it nothing is changed.
    pub fn issue(&mut self, count1: u16, count2: u16) -> Result<(), AllocError>
        requires { IsTrue (has_room_for self.old count1 count2) }
        ensures issued { OnOk result (self.new ≡ issued_tracks count1 count2 self.old) }
        ensures memory { OnErr result (self.new ≡ self.old) }
    {
        make_room(&self.marks, count2, &mut self.done)?;
        self.marks.issued1 += u64::from(count1);
        self.marks.issued2 += u64::from(count2);
        Ok(())
    }

    /// PUBACK came for a number of track 1: all up to it are acknowledged (MQTT 4.3.2).
    pub fn puback(&mut self, seq: u64)
        requires above { self.old.acked < seq }
        requires issued { seq ≤ self.old.issued1 }
        ensures { self.new ≡ acked_tracks seq self.old }
    {
        self.marks.acked = seq;
    }

    /// PUBREC came for a number of track 2: it is received, and those between the old mark and it, which were passed over,
    /// are done (MQTT 4.3.3).
    pub fn pubrec(&mut self, seq: u64)
        requires above { self.old.received < seq }
        requires issued { seq ≤ self.old.issued2 }
        ensures { self.new ≡ received_tracks seq self.old }
    {
        self.receive(seq, seq - 1);
    }

    /// PUBCOMP came for a number of track 2 that was received: it is done, and `complete` follows as far as all are
    /// (MQTT 4.3.3).
    pub fn pubcomp(&mut self, seq: u64)
        requires { IsTrue (is_released self.old seq) }
        ensures { self.new ≡ done_tracks seq self.old }
    {
        self.marks.complete = finish(seq, &self.marks, &mut self.done);
    }

    /// All numbers of track 1 or 2 behind its mark up to one were passed over: on track 1 they are acknowledged, on track
    /// 2 received and done.
    pub fn pass(&mut self, track: u8, seq: u64)
        requires track { (track ≡ 1) ⊎ (track ≡ 2) }
        requires above { mark_of self.old track < seq }
        requires issued { seq ≤ last_of self.old track }
        ensures { self.new ≡ passed_tracks track seq self.old }
    {
        if track == 1 {
            self.puback(seq);
        } else {
            self.receive(seq, seq);
        }
    }

    // Track 2 is received up to a number, of which those behind the old mark up to `last` are done.
    fn receive(&mut self, seq: u64, last: u64)
        requires above { self.old.received < seq }
        requires issued { seq ≤ self.old.issued2 }
        requires from { self.old.received ≤ last }
        requires to { last ≤ seq }
        ensures { self.new ≡ with_done seq
            (numbers_from (self.old.received + 1) (last - self.old.received)) self.old }
    {
        self.marks.complete = pass_over(last, &self.marks, &mut self.done);
        self.marks.received = seq;
    }
}

// Makes room for as many numbers as track 2 has in use, and so many more.
fn make_room(marks: &Marks, more: u16, done: &mut Vec<u64>) -> Result<(), AllocError>
    requires { marks.now.issued2 - marks.now.complete ≤ WIDEST_WINDOW }
    ensures numbers { done.new.items ≡ done.old.items }
    ensures room { OnOk result
        (marks.now.issued2 - marks.now.complete + more ≤ vec_capacity done.new) }
    ensures more { vec_capacity done.old ≤ vec_capacity done.new }
{
    let used = marks.issued2.saturating_sub(marks.complete) as usize;
    let wanted = used + usize::from(more);
    done.reserve(wanted.saturating_sub(done.len()))
}

// Whether tracks with these marks and these numbers are in order.
fn are_in_order(marks: &Marks, done: &[u64]) -> bool
    ensures { result ≡ are_in_order (tracks_of marks.now done.now) }
{
    marks.acked <= marks.issued1
        && marks.complete <= marks.received
        && marks.received <= marks.issued2
        && marks.issued1 < u64::MAX
        && marks.issued2 < u64::MAX
        && is_within_widest(marks)
        && ascend(marks.complete + 1, marks.received, done)
}

// Whether no more than the widest window is in use.
fn is_within_widest(marks: &Marks) -> bool
    requires acked { marks.now.acked ≤ marks.now.issued1 }
    requires complete { marks.now.complete ≤ marks.now.issued2 }
    ensures { result ≡ nat_le (in_use (tracks_of marks.now [])) WIDEST_WINDOW }
{
    let widest = u64::from(WIDEST_WINDOW);
    let track1 = marks.issued1 - marks.acked;
    track1 <= widest && marks.issued2 - marks.complete <= widest - track1
}
