ghost use Rattle.std.specs.Prelude.{◌≡◌, ◌≤◌, ◌++◌, drop, length, All, IsTrue, OnOk, OnErr, IfOk, IsErrOf};
ghost use Rattle.session_codec.specs.declared.refused.CodecRefused;
ghost use Rattle.session_codec.specs.Taking.{TakesPart, GivesPart, Puts};
ghost use Rattle.record_codec.specs.Records.{KeptGroup};
ghost use Rattle.record_codec.specs.Spelling.{spelled_group};
ghost use Rattle.record_codec.specs.HasSpelling.{group_has_spelling};
ghost use Rattle.record_codec.specs.Reading.{group_at, group_in};
ghost use Rattle.record_codec.specs.Spells.{SpellsGroup};
ghost use Rattle.record_codec.specs.Taking.{IsToldOp};

use crate::fields::{eight_in, ends, mark_in};
use crate::formats::{GROUP, MOST_OPERATIONS};
use crate::group::Group;
use crate::numbers::Number::{Eight, One};
use crate::numbers::put_numbers;
use crate::ops::ops_in;
use crate::putting_ops::put_ops;
use crate::sizes::stores_length;
use session_codec::CodecRefused;
use std::alloc::{AllocError, Global};

// Takes a group from the place `at`, and moves `at` behind it.
fn group_in(alloc: Global, bytes: &[u8], at: &mut usize) -> Result<Group, CodecRefused>
    ensures exact { TakesPart (λ g. g) result
        (group_at (drop at.old bytes.now)) bytes.now at.new }
{
    mark_in(GROUP, bytes, at)?;
    let first = eight_in(bytes, at)?;
    let ops = ops_in(alloc, first, bytes, at)?;
    Ok(Group { first, ops })
}

// The group that fills the bytes.
#[tactic(auto, using(session_codec::specs::PartLaws::not_at_end), unfolding(crate::specs::Reading::group_in))]
fn group_of(alloc: Global, bytes: &[u8]) -> Result<Group, CodecRefused>
    ensures exact { GivesPart (λ g. g) result (group_in bytes.now) }
{
    let mut at = 0;
    let group = group_in(alloc, bytes, &mut at)?;
    ends(bytes, at)?;
    Ok(group)
}

/// Reads a group. Its Stores have the offsets from `first` on, and their bodies are in memory. `Bad` comes exactly where the
/// bytes spell none, and `Memory` says nothing of them.
pub fn read_group(alloc: Global, bytes: &[u8]) -> Result<Group, CodecRefused>
    // What it gives, computed.
    ensures exact { GivesPart (λ g. g) result (group_in bytes.now) }
    // What is read was spelled so.
    ensures spelled { IfOk result (λ g. SpellsGroup bytes.now g) }
    // Where the bytes are refused, they spell no group.
    ensures bad { IsErrOf result CodecRefused.Bad → (group : KeptGroup) →
        SpellsGroup bytes.now group → ⊥ }
{
    group_of(alloc, bytes)
}

// Puts a group at the end. On want of memory some of it may stand there.
#[tactic(auto, using(session_codec::specs::PutLaws::parts_begin))]
fn put_group(group: &Group, out: &mut Vec<u8>) -> Result<(), AllocError>
    requires told { All IsToldOp group.now.ops }
    requires few { length group.now.ops ≤ MOST_OPERATIONS }
    ensures exact { Puts result out.old.items out.new.items (spelled_group group.now) }
{
    put_numbers(&[One(GROUP), Eight(group.first)], out)?;
    put_ops(&group.ops, out)?;
    Ok(())
}

// Puts a group at the end, or nothing.
fn append_group(group: &Group, out: &mut Vec<u8>) -> Result<(), AllocError>
    requires { IsTrue (group_has_spelling group.now) }
    ensures ok { OnOk result (out.new.items ≡ out.old.items ++ spelled_group group.now) }
    ensures err { OnErr result (out.new.items ≡ out.old.items) }
{
    let before = out.len();
    if let Err(error) = put_group(group, out) {
        out.truncate(before);
        return Err(error);
    }
    Ok(())
}

/// Writes a group at the end. On want of memory `out` stays as it was.
pub fn write_group(group: &Group, out: &mut Vec<u8>) -> Result<(), AllocError>
    // It has 1 to 256 operations, its Stores have the offsets from `first` on and bodies in memory, and each number, count
    // and text can be told.
    requires { IsTrue (group_has_spelling group.now) }
    ensures ok { OnOk result (out.new.items ≡ out.old.items ++ spelled_group group.now) }
    ensures err { OnErr result (out.new.items ≡ out.old.items) }
{
    // Room for all Stores, so that no payload is moved as others follow.
    out.reserve(stores_length(&group.ops) as usize)?;
    append_group(group, out)?;
    Ok(())
}
