ghost use Rattle.std.specs.Prelude.{◌++◌, ◌≤◌, length, drop};
ghost use Rattle.std.specs.List.{flat_map};
ghost use Rattle.wire_fields.specs.Spelled.{spelled_u64};
ghost use Rattle.session_codec.specs.Spelling.{marks_of, spelled_marks, spelled_done, spelled_tracks};
ghost use Rattle.session_codec.specs.Reading.{eight_at, marks_at, done_at, so_many, tracks_at};
ghost use Rattle.session_codec.specs.Taking.{TakesPart, Puts, most_count};

use crate::fields::{eight_in, two_in};
use crate::numbers::Number::Eight;
use crate::numbers::put_numbers;
use crate::refused::CodecRefused;
use seq_tracks::{Marks, Tracks};
use std::alloc::{AllocError, Global};
use wire_fields::put_u16;

// ---- reading: each takes a part from the place `at`, and moves `at` behind it

fn marks_in(bytes: &[u8], at: &mut usize) -> Result<Marks, CodecRefused>
    ensures exact { TakesPart (λ m. m) result
        (marks_at (drop at.old bytes.now)) bytes.now at.new }
{
    let issued1 = eight_in(bytes, at)?;
    let acked = eight_in(bytes, at)?;
    let issued2 = eight_in(bytes, at)?;
    let received = eight_in(bytes, at)?;
    let complete = eight_in(bytes, at)?;
    Ok(Marks {
        issued1,
        acked,
        issued2,
        received,
        complete,
    })
}

// So many numbers.
fn numbers_in(
    alloc: Global,
    count: u16,
    bytes: &[u8],
    at: &mut usize,
) -> Result<Vec<u64>, CodecRefused>
    ensures exact { TakesPart (λ v. v.items) result
        (so_many eight_at count (drop at.old bytes.now)) bytes.now at.new }
{
    let mut numbers = Vec::new(alloc);
    for _ in 0..count {
        let number = eight_in(bytes, at)?;
        numbers.push(number)?;
    }
    Ok(numbers)
}

// The numbers that were done out of order.
fn done_in(alloc: Global, bytes: &[u8], at: &mut usize) -> Result<Vec<u64>, CodecRefused>
    ensures exact { TakesPart (λ v. v.items) result
        (done_at (drop at.old bytes.now)) bytes.now at.new }
{
    let count = two_in(bytes, at)?;
    let numbers = numbers_in(alloc, count, bytes, at)?;
    Ok(numbers)
}

// Tracks that are in order.
pub(crate) fn tracks_in(alloc: Global, bytes: &[u8], at: &mut usize) -> Result<Tracks, CodecRefused>
    ensures exact { TakesPart (λ t. t) result
        (tracks_at (drop at.old bytes.now)) bytes.now at.new }
{
    let marks = marks_in(bytes, at)?;
    let done = done_in(alloc, bytes, at)?;
    match Tracks::of(marks, done)? {
        Some(tracks) => Ok(tracks),
        None => Err(CodecRefused::Bad),
    }
}

// ---- writing: each puts a part at the end

fn put_marks(tracks: &Tracks, out: &mut Vec<u8>) -> Result<(), AllocError>
    ensures exact { Puts result out.old.items out.new.items
        (spelled_marks (marks_of tracks.now)) }
{
    put_numbers(
        &[
            Eight(tracks.issued1()),
            Eight(tracks.acked()),
            Eight(tracks.issued2()),
            Eight(tracks.received()),
            Eight(tracks.complete()),
        ],
        out,
    )
}

#[tactic(auto, using(crate::specs::PutLaws::parts_begin))]
fn put_each_number(numbers: &[u64], out: &mut Vec<u8>) -> Result<(), AllocError>
    ensures exact { Puts result out.old.items out.new.items
        (flat_map spelled_u64 numbers.now) }
{
    for place in 0..numbers.len() {
        put_numbers(&[Eight(numbers[place])], out)?;
    }
    Ok(())
}

#[tactic(auto, using(crate::specs::PutLaws::parts_begin))]
fn put_done(done: &[u64], out: &mut Vec<u8>) -> Result<(), AllocError>
    requires { length done.now ≤ most_count }
    ensures exact { Puts result out.old.items out.new.items (spelled_done done.now) }
{
    put_u16(done.len() as u16, out)?;
    put_each_number(done, out)?;
    Ok(())
}

#[tactic(auto, using(crate::specs::PutLaws::parts_begin))]
pub(crate) fn put_tracks(tracks: &Tracks, out: &mut Vec<u8>) -> Result<(), AllocError>
    requires { length tracks.now.done ≤ most_count }
    ensures exact { Puts result out.old.items out.new.items (spelled_tracks tracks.now) }
{
    put_marks(tracks, out)?;
    put_done(tracks.done(), out)?;
    Ok(())
}
