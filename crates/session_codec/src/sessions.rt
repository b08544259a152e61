ghost use Rattle.std.specs.Prelude.{drop};
ghost use Rattle.session_codec.specs.Reading.{holder_at, kept_at, session_at, sessions_at, so_many, format_at, snapshot_at, snapshot_in};
ghost use Rattle.session_codec.specs.Parts.{told_holder, told_kept, sessions_from};
ghost use Rattle.session_codec.specs.Taking.{TakesPart};

use crate::fields::{eight_in, four_in, name_in, parting_in, window_in};
use crate::lists::{batches_in, subs_in, versions_in};
use crate::refused::CodecRefused;
use crate::session_parts::{Holder, Kept, session_of};
use crate::tracks::tracks_in;
use session_state::{Session, Sessions};
use std::alloc::Global;

// What tells how sessions are read: the format and how many shards there are, the number of the next session, and how many
// there are.
#[derive(Clone, Copy)]
struct Head {
    format: u8,
    shards: u8,
    next: u64,
    count: u32,
}

// Each takes a part of a snapshot from the place `at`, and moves `at` behind it.

fn holder_in(
    alloc: Global,
    format: u8,
    bytes: &[u8],
    at: &mut usize,
) -> Result<Holder, CodecRefused>
    ensures exact { TakesPart told_holder result
        (holder_at format (drop at.old bytes.now)) bytes.now at.new }
{
    let client = name_in(alloc, bytes, at)?;
    let incarnation = eight_in(bytes, at)?;
    let expiry = four_in(bytes, at)?;
    let window = window_in(format, bytes, at)?;
    let parted = parting_in(bytes, at)?;
    Ok(Holder {
        client,
        incarnation,
        expiry,
        window,
        parted,
    })
}

fn kept_in(alloc: Global, shards: u8, bytes: &[u8], at: &mut usize) -> Result<Kept, CodecRefused>
    ensures exact { TakesPart told_kept result
        (kept_at shards (drop at.old bytes.now)) bytes.now at.new }
{
    let next_sub = four_in(bytes, at)?;
    let next_version = four_in(bytes, at)?;
    let tracks = tracks_in(alloc, bytes, at)?;
    let subs = subs_in(alloc, shards, bytes, at)?;
    let versions = versions_in(alloc, bytes, at)?;
    let batches = batches_in(alloc, shards, bytes, at)?;
    Ok(Kept {
        next_sub,
        next_version,
        tracks,
        subs,
        versions,
        batches,
    })
}

fn session_in(
    alloc: Global,
    format: u8,
    shards: u8,
    bytes: &[u8],
    at: &mut usize,
) -> Result<Session, CodecRefused>
    ensures exact { TakesPart (λ s. s) result
        (session_at format shards (drop at.old bytes.now)) bytes.now at.new }
{
    let holder = holder_in(alloc, format, bytes, at)?;
    let kept = kept_in(alloc, shards, bytes, at)?;
    let session = session_of(holder, kept)?;
    Ok(session)
}

// So many sessions, each of which may be added to those before it.
fn so_many_in(
    alloc: Global,
    head: Head,
    bytes: &[u8],
    at: &mut usize,
) -> Result<Sessions, CodecRefused>
    ensures exact { TakesPart (λ s. s) result (sessions_from head.next
        (so_many (session_at head.format head.shards) head.count (drop at.old bytes.now)))
        bytes.now at.new }
{
    let mut sessions = Sessions::numbered(alloc, head.next);
    for _ in 0..head.count {
        let session = session_in(alloc, head.format, head.shards, bytes, at)?;
        if !sessions.add(session)? {
            return Err(CodecRefused::Bad);
        }
    }
    Ok(sessions)
}

// The sessions of a worker, behind the number of the next one.
pub(crate) fn sessions_in(
    alloc: Global,
    format: u8,
    shards: u8,
    bytes: &[u8],
    at: &mut usize,
) -> Result<Sessions, CodecRefused>
    ensures exact { TakesPart (λ s. s) result
        (sessions_at format shards (drop at.old bytes.now)) bytes.now at.new }
{
    let next = eight_in(bytes, at)?;
    let count = four_in(bytes, at)?;
    let head = Head {
        format,
        shards,
        next,
        count,
    };
    let sessions = so_many_in(alloc, head, bytes, at)?;
    Ok(sessions)
}
