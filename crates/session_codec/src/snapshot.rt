ghost use Rattle.std.specs.Prelude.{◌≡◌, ◌++◌, ◌<◌, ◌^◌, length, drop, slice_get, All, IsTrue, OnOk, OnErr, IfOk, IsErrOf};
ghost use Rattle.session_codec.specs.declared.refused.CodecRefused;
ghost use Rattle.session_codec.specs.Spelling.{KeptSnapshot, snapshot_to_write, spelled_snapshot};
ghost use Rattle.session_codec.specs.HasSpelling.{has_spelling, SpellsSnapshot};
ghost use Rattle.session_codec.specs.Reading.{format_at, snapshot_at, snapshot_in};
ghost use Rattle.session_codec.specs.Taking.{TakesPart, GivesPart, Puts, HasCounts};

use crate::fields::{byte_in, ends};
use crate::formats::{FIRST_FORMAT, SECOND_FORMAT};
use crate::numbers::Number::One;
use crate::numbers::put_numbers;
use crate::putting_sessions::put_sessions;
use crate::refused::CodecRefused;
use crate::sessions::sessions_in;
use session_state::Sessions;
use std::alloc::{AllocError, Global};
use std::marker::Model;

/// A snapshot of the sessions of a worker, as it was read. Contracts see `KeptSnapshot`.
#[derive(Drop)]
pub struct SessionsSnapshot {
    /// The format of its bytes.
    pub format: u8,
    /// How many shards and workers there are.
    pub shards: u8,
    pub workers: u8,
    /// The number of the worker, from 0 on.
    pub worker: u8,
    pub sessions: Sessions,
}

impl Model for SessionsSnapshot {
    ghost use Rattle.session_codec.specs.Spelling.{KeptSnapshot};

    ghost Value = { KeptSnapshot };

    ghost view = { λ s. record {
      format = s.format;
      shards = s.shards;
      workers = s.workers;
      worker = s.worker;
      sessions = s.sessions;
    } };
}

/// The byte that tells the format of a snapshot, `None` where there is none.
pub fn format_of(bytes: &[u8]) -> Option<u8>
    ensures { result ≡ slice_get bytes.now 0 }
{
    bytes.first().copied()
}

// One of the two formats that there are.
fn format_in(bytes: &[u8], at: &mut usize) -> Result<u8, CodecRefused>
    ensures exact { TakesPart (λ n. n) result
        (format_at (drop at.old bytes.now)) bytes.now at.new }
{
    let format = byte_in(bytes, at)?;
    if format != FIRST_FORMAT && format != SECOND_FORMAT {
        return Err(CodecRefused::Bad);
    }
    Ok(format)
}

fn snapshot_in(
    alloc: Global,
    bytes: &[u8],
    at: &mut usize,
) -> Result<SessionsSnapshot, CodecRefused>
    ensures exact { TakesPart (λ s. s) result
        (snapshot_at (drop at.old bytes.now)) bytes.now at.new }
{
    let format = format_in(bytes, at)?;
    let shards = byte_in(bytes, at)?;
    let workers = byte_in(bytes, at)?;
    let worker = byte_in(bytes, at)?;
    let sessions = sessions_in(alloc, format, shards, bytes, at)?;
    Ok(SessionsSnapshot {
        format,
        shards,
        workers,
        worker,
        sessions,
    })
}

// The snapshot that fills the bytes.
#[tactic(auto, using(crate::specs::PartLaws::not_at_end), unfolding(crate::specs::Reading::snapshot_in))]
fn snapshot_of(alloc: Global, bytes: &[u8]) -> Result<SessionsSnapshot, CodecRefused>
    ensures exact { GivesPart (λ s. s) result (snapshot_in bytes.now) }
{
    let mut at = 0;
    let snapshot = snapshot_in(alloc, bytes, &mut at)?;
    ends(bytes, at)?;
    Ok(snapshot)
}

/// Reads a snapshot in either format. `Bad` comes exactly where the bytes spell none, also where its sessions aren't sound
/// or its format isn't known, which `format_of` tells first; `Memory` says nothing of the bytes.
pub fn read_snapshot(alloc: Global, bytes: &[u8]) -> Result<SessionsSnapshot, CodecRefused>
    // What it gives, computed.
    ensures exact { GivesPart (λ s. s) result (snapshot_in bytes.now) }
    // What is read was spelled so.
    ensures spelled { IfOk result (λ s. SpellsSnapshot bytes.now s) }
    // Where the bytes are refused, they spell no snapshot.
    ensures bad { IsErrOf result CodecRefused.Bad → (snapshot : KeptSnapshot) →
        SpellsSnapshot bytes.now snapshot → ⊥ }
{
    snapshot_of(alloc, bytes)
}

// Puts a snapshot at the end. On want of memory some of it may stand there.
#[tactic(auto, using(crate::specs::PutLaws::parts_begin))]
fn put_snapshot(
    shards: u8,
    workers: u8,
    worker: u8,
    sessions: &Sessions,
    out: &mut Vec<u8>,
) -> Result<(), AllocError>
    requires counts { All HasCounts sessions.now.list }
    requires few { length sessions.now.list < 2 ^ 32 }
    ensures exact { Puts result out.old.items out.new.items
        (spelled_snapshot (snapshot_to_write shards workers worker sessions.now)) }
{
    put_numbers(
        &[One(SECOND_FORMAT), One(shards), One(workers), One(worker)],
        out,
    )?;
    put_sessions(sessions, out)?;
    Ok(())
}

/// Writes a snapshot of the sessions of a worker at the end, in the second format: how many shards and workers there are,
/// and the worker's number. On want of memory `out` stays as it was.
pub fn write_snapshot(
    shards: u8,
    workers: u8,
    worker: u8,
    sessions: &Sessions,
    out: &mut Vec<u8>,
) -> Result<(), AllocError>
    // Each number, count and text of them can be told, and they are sound.
    requires { IsTrue (has_spelling (snapshot_to_write shards workers worker sessions.now)) }
    ensures ok { OnOk result (out.new.items ≡ out.old.items
        ++ spelled_snapshot (snapshot_to_write shards workers worker sessions.now)) }
    ensures err { OnErr result (out.new.items ≡ out.old.items) }
{
    let before = out.len();
    if let Err(error) = put_snapshot(shards, workers, worker, sessions, out) {
        out.truncate(before);
        return Err(error);
    }
    Ok(())
}
