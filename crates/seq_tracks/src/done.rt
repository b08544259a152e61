// The numbers that are done out of order.
ghost use Rattle.std.specs.Prelude.{◌≡◌, ◌+◌, ◌-◌, ◌^◌, ◌<◌, ◌≤◌, [], ◌∷◌, ◌++◌, ℕ, IsTrue, drop, vec_len, vec_capacity};
ghost use Rattle.std.specs.List.{insert};
ghost use Rattle.session_model.specs.Acting.{numbers_from};
ghost use Rattle.seq_tracks.specs.PlainTracks.{is_released};
ghost use Rattle.seq_tracks.specs.InOrder.{InOrder, ascend, tracks_of};
ghost use Rattle.seq_tracks.specs.Changed.{IsDoneUpTo};

use crate::marks::Marks;
use crate::numbers::{place_of, run_behind};

// A number of track 2 that was received is done. Gives the number up to which all are then done.
pub(crate) fn finish(seq: u64, marks: &Marks, done: &mut Vec<u64>) -> u64
    requires order { InOrder (tracks_of marks.now done.old.items) }
    requires released { IsTrue (is_released (tracks_of marks.now done.old.items) seq) }
    requires room { marks.now.issued2 - marks.now.complete ≤ vec_capacity done.old }
    ensures done { IsDoneUpTo (tracks_of marks.now done.old.items) marks.now.received
        (done.old.items ++ seq ∷ []) result done.new.items }
    ensures room { vec_capacity done.new ≡ vec_capacity done.old }
{
    if seq == marks.complete + 1 {
        return take_run(seq, done);
    }
    let place = place_of(done, seq);
    insert_reserved(place, seq, done);
    marks.complete
}

// The numbers of track 2 behind what was received up to `last` are done, as a number from `last` on is received. Gives the
// number up to which all are then done.
pub(crate) fn pass_over(last: u64, marks: &Marks, done: &mut Vec<u64>) -> u64
    requires order { InOrder (tracks_of marks.now done.old.items) }
    requires from { marks.now.received ≤ last }
    requires issued { last ≤ marks.now.issued2 }
    requires room { marks.now.issued2 - marks.now.complete ≤ vec_capacity done.old }
    ensures done { (received : ℕ) → last ≤ received
        → IsDoneUpTo (tracks_of marks.now done.old.items) received
        (done.old.items ++ numbers_from (marks.now.received + 1) (last - marks.now.received))
        result done.new.items }
    ensures room { vec_capacity done.new ≡ vec_capacity done.old }
{
    if marks.complete == marks.received {
        return last;
    }
    push_run(marks.received, last, done);
    marks.complete
}

// Puts a number at a place, where there is room.
fn insert_reserved(place: usize, number: u64, done: &mut Vec<u64>)
    requires place { place ≤ vec_len done.old }
    requires room { vec_len done.old < vec_capacity done.old }
    ensures inserted { done.new.items ≡ insert done.old.items place number }
    ensures room { vec_capacity done.new ≡ vec_capacity done.old }
{
    let _ = done.insert(place, number);
}

// Puts those behind a number up to `last` at the end.
fn push_run(number: u64, last: u64, done: &mut Vec<u64>)
    requires range { number ≤ last }
    requires room { vec_len done.old + (last - number) ≤ vec_capacity done.old }
    ensures numbers { done.new.items ≡ done.old.items ++ numbers_from (number + 1) (last - number) }
    ensures room { vec_capacity done.new ≡ vec_capacity done.old }
{
    for before in number..last {
        done.push_reserved(before + 1);
    }
}

// Takes from the front those that go on from a number without a gap, and gives the last of them; the number where there is
// none.
fn take_run(number: u64, done: &mut Vec<u64>) -> u64
    requires { number + vec_len done.old < 2 ^ 64 }
    ensures from { number ≤ result }
    ensures taken { done.old.items ≡ numbers_from (number + 1) (result - number) ++ done.new.items }
    ensures rest { (last : ℕ) → IsTrue (ascend number last done.old.items)
        → IsTrue (ascend (result + 1) last done.new.items) }
    ensures room { vec_capacity done.new ≡ vec_capacity done.old }
{
    let run = run_behind(number, done);
    drop_front(run, done);
    number + run as u64
}

// Drops so many from the front.
fn drop_front(count: usize, done: &mut Vec<u64>)
    requires { count ≤ vec_len done.old }
    ensures rest { done.new.items ≡ drop count done.old.items }
    ensures room { vec_capacity done.new ≡ vec_capacity done.old }
{
    done.drain(..count);
}
