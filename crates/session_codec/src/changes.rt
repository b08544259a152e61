ghost use Rattle.std.specs.Prelude.{◌≡◌, ◌⊎◌, ◌++◌, List, drop, IsTrue, OnOk, OnErr, IfOk, IsErrOf};
ghost use Rattle.session_state.specs.declared.change.Change.{Change};
ghost use Rattle.session_codec.specs.declared.refused.CodecRefused;
ghost use Rattle.session_codec.specs.Spelling.{spelled_changes};
ghost use Rattle.session_codec.specs.HasSpelling.{have_spelling, SpellsChanges};
ghost use Rattle.session_codec.specs.Reading.{change_at, change_count_at, changes_at, changes_in, so_many};
ghost use Rattle.session_codec.specs.Taking.{TakesPart, GivesPart};

use crate::effects::effect_in;
use crate::fields::{byte_in, ends, name_in, two_in};
use crate::formats::{FIRST_FORMAT, MOST_CHANGES, SECOND_FORMAT};
use crate::putting_changes::put_changes;
use crate::refused::CodecRefused;
use session_state::Change;
use std::alloc::{AllocError, Global};

// The kind of a change, its client, and what happened to the session.
fn change_in(
    alloc: Global,
    format: u8,
    shards: u8,
    bytes: &[u8],
    at: &mut usize,
) -> Result<Change, CodecRefused>
    ensures exact { TakesPart (λ c. c) result
        (change_at format shards (drop at.old bytes.now)) bytes.now at.new }
{
    let tag = byte_in(bytes, at)?;
    let client = name_in(alloc, bytes, at)?;
    let effect = effect_in(alloc, format, shards, tag, bytes, at)?;
    Ok(Change { client, effect })
}

// So many changes.
fn so_many_in(
    alloc: Global,
    format: u8,
    shards: u8,
    count: u16,
    bytes: &[u8],
    at: &mut usize,
) -> Result<Vec<Change>, CodecRefused>
    ensures exact { TakesPart (λ v. v.items) result
        (so_many (change_at format shards) count (drop at.old bytes.now)) bytes.now at.new }
{
    let mut changes = Vec::new(alloc);
    for _ in 0..count {
        let change = change_in(alloc, format, shards, bytes, at)?;
        changes.push(change)?;
    }
    Ok(changes)
}

// How many changes a record has.
fn count_in(bytes: &[u8], at: &mut usize) -> Result<u16, CodecRefused>
    ensures exact { TakesPart (λ n. n) result
        (change_count_at (drop at.old bytes.now)) bytes.now at.new }
{
    let count = two_in(bytes, at)?;
    if count == 0 || MOST_CHANGES < count {
        return Err(CodecRefused::Bad);
    }
    Ok(count)
}

// How many changes there are, and these.
fn changes_in(
    alloc: Global,
    format: u8,
    shards: u8,
    bytes: &[u8],
    at: &mut usize,
) -> Result<Vec<Change>, CodecRefused>
    ensures exact { TakesPart (λ v. v.items) result
        (changes_at format shards (drop at.old bytes.now)) bytes.now at.new }
{
    let count = count_in(bytes, at)?;
    let changes = so_many_in(alloc, format, shards, count, bytes, at)?;
    Ok(changes)
}

// The changes that fill the bytes.
#[tactic(auto, using(crate::specs::PartLaws::not_at_end), unfolding(crate::specs::Reading::changes_in))]
fn changes_of(
    alloc: Global,
    bytes: &[u8],
    shards: u8,
    format: u8,
) -> Result<Vec<Change>, CodecRefused>
    ensures exact { GivesPart (λ v. v.items) result (changes_in format shards bytes.now) }
{
    let mut at = 0;
    let changes = changes_in(alloc, format, shards, bytes, &mut at)?;
    ends(bytes, at)?;
    Ok(changes)
}

/// Reads a record of changes of a journal in this format, with so many shards. In the first format a session begins with
/// the window `FIRST_WINDOW`. `Bad` comes exactly where the bytes spell no record, and `Memory` says nothing of them.
pub fn read_changes(
    alloc: Global,
    bytes: &[u8],
    shards: u8,
    format: u8,
) -> Result<Vec<Change>, CodecRefused>
    requires { (format ≡ FIRST_FORMAT) ⊎ (format ≡ SECOND_FORMAT) }
    // What it gives, computed.
    ensures exact { GivesPart (λ v. v.items) result (changes_in format shards bytes.now) }
    // What is read was spelled so.
    ensures spelled { IfOk result (λ v. SpellsChanges format shards bytes.now v.items) }
    // Where the bytes are refused, they spell no changes.
    ensures bad { IsErrOf result CodecRefused.Bad → (changes : List Change) →
        SpellsChanges format shards bytes.now changes → ⊥ }
{
    changes_of(alloc, bytes, shards, format)
}

/// Writes a record of changes at the end, in the second format, with so many shards. On want of memory `out` stays as it
/// was.
pub fn write_changes(changes: &[Change], shards: u8, out: &mut Vec<u8>) -> Result<(), AllocError>
    // There are 1 to 1,024, and each number, count and text of them can be told.
    requires { IsTrue (have_spelling SECOND_FORMAT shards changes.now) }
    ensures ok { OnOk result
        (out.new.items ≡ out.old.items ++ spelled_changes SECOND_FORMAT changes.now) }
    ensures err { OnErr result (out.new.items ≡ out.old.items) }
{
    let before = out.len();
    if let Err(error) = put_changes(changes, out) {
        out.truncate(before);
        return Err(error);
    }
    Ok(())
}
