ghost use Rattle.std.specs.Prelude.{◌≡◌, ◌≤◌, ◌++◌, drop, length, All, IsTrue, OnOk, OnErr, IfOk, IsErrOf};
ghost use Rattle.std.specs.List.{flat_map};
ghost use Rattle.session_codec.specs.declared.refused.CodecRefused;
ghost use Rattle.session_codec.specs.Reading.{so_many};
ghost use Rattle.session_codec.specs.Taking.{TakesPart, GivesPart, Puts, most_count};
ghost use Rattle.record_codec.specs.Records.{KeptOpening};
ghost use Rattle.record_codec.specs.Spelling.{spelled_awaited, spelled_all_awaited, spelled_opening};
ghost use Rattle.record_codec.specs.HasSpelling.{opening_has_spelling};
ghost use Rattle.record_codec.specs.Reading.{awaited_at, all_awaited_at, opening_at, opening_in};
ghost use Rattle.record_codec.specs.Spells.{SpellsOpening};
ghost use Rattle.record_codec.specs.Taking.{HasShortPublisher};

use crate::fields::{eight_in, ends, mark_in, sender_in, two_in};
use crate::formats::OPENING;
use crate::numbers::Number::{Eight, One};
use crate::numbers::put_numbers;
use crate::opening::Opening;
use crate::putting_ops::put_triple;
use session_codec::CodecRefused;
use shard_index::Awaited;
use std::alloc::{AllocError, Global};
use wire_fields::put_u16;

// ---- reading: each takes a part from the place `at`, and moves `at` behind it

fn awaited_in(alloc: Global, bytes: &[u8], at: &mut usize) -> Result<Awaited, CodecRefused>
    ensures exact { TakesPart (λ a. a) result
        (awaited_at (drop at.old bytes.now)) bytes.now at.new }
{
    let (publisher, incarnation) = sender_in(alloc, bytes, at)?;
    let id = two_in(bytes, at)?;
    Ok(Awaited {
        publisher,
        incarnation,
        id,
    })
}

fn so_many_in(
    alloc: Global,
    count: u16,
    bytes: &[u8],
    at: &mut usize,
) -> Result<Vec<Awaited>, CodecRefused>
    ensures exact { TakesPart (λ v. v.items) result
        (so_many awaited_at count (drop at.old bytes.now)) bytes.now at.new }
{
    let mut all = Vec::new(alloc);
    for _ in 0..count {
        let awaited = awaited_in(alloc, bytes, at)?;
        all.push(awaited)?;
    }
    Ok(all)
}

fn all_awaited_in(alloc: Global, bytes: &[u8], at: &mut usize) -> Result<Vec<Awaited>, CodecRefused>
    ensures exact { TakesPart (λ v. v.items) result
        (all_awaited_at (drop at.old bytes.now)) bytes.now at.new }
{
    let count = two_in(bytes, at)?;
    let all = so_many_in(alloc, count, bytes, at)?;
    Ok(all)
}

fn opening_in(alloc: Global, bytes: &[u8], at: &mut usize) -> Result<Opening, CodecRefused>
    ensures exact { TakesPart (λ o. o) result
        (opening_at (drop at.old bytes.now)) bytes.now at.new }
{
    mark_in(OPENING, bytes, at)?;
    let generation = eight_in(bytes, at)?;
    let first = eight_in(bytes, at)?;
    let awaited = all_awaited_in(alloc, bytes, at)?;
    Ok(Opening {
        generation,
        first,
        awaited,
    })
}

// The opening that fills the bytes.
#[tactic(auto, using(session_codec::specs::PartLaws::not_at_end), unfolding(crate::specs::Reading::opening_in))]
fn opening_of(alloc: Global, bytes: &[u8]) -> Result<Opening, CodecRefused>
    ensures exact { GivesPart (λ o. o) result (opening_in bytes.now) }
{
    let mut at = 0;
    let opening = opening_in(alloc, bytes, &mut at)?;
    ends(bytes, at)?;
    Ok(opening)
}

/// Reads the opening of a generation. `Bad` comes exactly where the bytes spell none, and `Memory` says nothing of them.
pub fn read_opening(alloc: Global, bytes: &[u8]) -> Result<Opening, CodecRefused>
    // What it gives, computed.
    ensures exact { GivesPart (λ o. o) result (opening_in bytes.now) }
    // What is read was spelled so.
    ensures spelled { IfOk result (λ o. SpellsOpening bytes.now o) }
    // Where the bytes are refused, they spell no opening.
    ensures bad { IsErrOf result CodecRefused.Bad → (opening : KeptOpening) →
        SpellsOpening bytes.now opening → ⊥ }
{
    opening_of(alloc, bytes)
}

// ---- writing: each puts a part at the end, and on want of memory some of it may stand there

fn put_awaited(awaited: &Awaited, out: &mut Vec<u8>) -> Result<(), AllocError>
    requires { HasShortPublisher awaited.now }
    ensures exact { Puts result out.old.items out.new.items (spelled_awaited awaited.now) }
{
    put_triple(&awaited.publisher, awaited.incarnation, awaited.id, out)
}

#[tactic(auto, using(session_codec::specs::PutLaws::parts_begin))]
fn put_each(all: &[Awaited], out: &mut Vec<u8>) -> Result<(), AllocError>
    requires { All HasShortPublisher all.now }
    ensures exact { Puts result out.old.items out.new.items (flat_map spelled_awaited all.now) }
{
    for awaited in all {
        put_awaited(awaited, out)?;
    }
    Ok(())
}

#[tactic(auto, using(session_codec::specs::PutLaws::parts_begin))]
fn put_all_awaited(all: &[Awaited], out: &mut Vec<u8>) -> Result<(), AllocError>
    requires publishers { All HasShortPublisher all.now }
    requires few { length all.now ≤ most_count }
    ensures exact { Puts result out.old.items out.new.items (spelled_all_awaited all.now) }
{
    put_u16(all.len() as u16, out)?;
    put_each(all, out)?;
    Ok(())
}

#[tactic(auto, using(session_codec::specs::PutLaws::parts_begin))]
fn put_opening(opening: &Opening, out: &mut Vec<u8>) -> Result<(), AllocError>
    requires publishers { All HasShortPublisher opening.now.awaited }
    requires few { length opening.now.awaited ≤ most_count }
    ensures exact { Puts result out.old.items out.new.items (spelled_opening opening.now) }
{
    put_numbers(
        &[
            One(OPENING),
            Eight(opening.generation),
            Eight(opening.first),
        ],
        out,
    )?;
    put_all_awaited(&opening.awaited, out)?;
    Ok(())
}

/// Writes the opening of a generation at the end. On want of memory `out` stays as it was.
pub fn write_opening(opening: &Opening, out: &mut Vec<u8>) -> Result<(), AllocError>
    // The length of each publisher, and how many identifiers are awaited, can be told in two bytes.
    requires { IsTrue (opening_has_spelling opening.now) }
    ensures ok { OnOk result (out.new.items ≡ out.old.items ++ spelled_opening opening.now) }
    ensures err { OnErr result (out.new.items ≡ out.old.items) }
{
    let before = out.len();
    if let Err(error) = put_opening(opening, out) {
        out.truncate(before);
        return Err(error);
    }
    Ok(())
}
