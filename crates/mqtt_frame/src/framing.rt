// Cutting bytes into packets.
ghost use Rattle.std.specs.Prelude.{◌≡◌, ◌≤◌, [], ◌∷◌, ◌++◌, length, drop, IfOk, OnOk, OnErr};
ghost use Rattle.mqtt_frame.specs.Framing.{framed};
ghost use Rattle.mqtt_frame.specs.Steps.{Extends, IsFramed, IsStopped};

use crate::front::{Front, front_of};
use crate::header::missing_of;
use crate::refused::BadHeader;
use std::alloc::{AllocError, Global};
use topic_name::Blob;

/// Where the whole packets of some bytes end, and what is wrong with the header there.
#[derive(Clone, Copy)]
pub(crate) struct Stopped {
    pub(crate) at: usize,
    pub(crate) bad: Option<BadHeader>,
}

// Adds a copy of one packet.
fn push_packet(alloc: Global, packet: &[u8], out: &mut Vec<Blob>) -> Result<(), AllocError>
    ensures ok { OnOk result (out.new.items ≡ out.old.items ++ packet.now ∷ []) }
    ensures err { OnErr result (out.new.items ≡ out.old.items) }
{
    let blob = Blob::of(alloc, packet)?;
    out.push(blob)?;
    Ok(())
}

// Adds each whole packet of the bytes.
fn frame_all(
    alloc: Global,
    limit: u32,
    bytes: &[u8],
    out: &mut Vec<Blob>,
) -> Result<Stopped, AllocError>
    ensures ok { IfOk result (λ stopped. IsStopped (framed limit bytes.now)
        stopped bytes.now out.old.items out.new.items) }
    ensures err { OnErr result (Extends out.old.items out.new.items) }
{
    let mut at = 0;
    loop {
        match front_of(limit, &bytes[at..]) {
            Front::Whole(size) => {
                push_packet(alloc, &bytes[at..at + size], out)?;
                at += size;
            }
            Front::Begun => return Ok(Stopped { at, bad: None }),
            Front::Refused(header) => {
                return Ok(Stopped {
                    at,
                    bad: Some(header),
                });
            }
        }
    }
}

// Removes so many bytes at the front.
fn remove_front(kept: &mut Vec<u8>, count: usize)
    requires { count ≤ length kept.old.items }
    ensures { kept.new.items ≡ drop count kept.old.items }
{
    if 0 < count {
        kept.rotate_left(count);
        kept.truncate(kept.len() - count);
    }
}

// What is kept is given, and the others follow it: they are framed where they stand, and their rest is kept.
fn frame_others(
    alloc: Global,
    limit: u32,
    kept: &mut Vec<u8>,
    others: &[u8],
    out: &mut Vec<Blob>,
) -> Result<Option<BadHeader>, AllocError>
    ensures ok { IfOk result (λ bad. IsFramed (framed limit others.now)
        bad kept.new.items out.old.items out.new.items) }
    ensures err { OnErr result (Extends kept.old.items kept.new.items) }
    ensures extends { OnErr result (Extends out.old.items out.new.items) }
{
    let given = kept.len();
    let stopped = frame_all(alloc, limit, others, out)?;
    if let Some(header) = stopped.bad {
        return Ok(Some(header));
    }
    kept.extend_from_slice(&others[stopped.at..])?;
    remove_front(kept, given);
    Ok(None)
}

// A packet of what is kept has begun at a place, and the others follow it.
fn frame_on(
    alloc: Global,
    limit: u32,
    kept: &mut Vec<u8>,
    at: usize,
    others: &[u8],
    out: &mut Vec<Blob>,
) -> Result<Option<BadHeader>, AllocError>
    requires { at ≤ length kept.old.items }
    ensures ok { IfOk result (λ bad. IsFramed (framed limit (drop at kept.old.items ++ others.now))
        bad kept.new.items out.old.items out.new.items) }
    ensures err { OnErr result (Extends kept.old.items kept.new.items) }
    ensures extends { OnErr result (Extends out.old.items out.new.items) }
{
    kept.extend_from_slice(others)?;
    let stopped = frame_all(alloc, limit, &kept[at..], out)?;
    remove_front(kept, at + stopped.at);
    Ok(stopped.bad)
}

// Adds each packet that became whole by this piece, and keeps the rest.
pub(crate) fn frame_piece(
    alloc: Global,
    limit: u32,
    kept: &mut Vec<u8>,
    piece: &[u8],
    out: &mut Vec<Blob>,
) -> Result<Option<BadHeader>, AllocError>
    ensures ok { IfOk result (λ bad. IsFramed (framed limit (kept.old.items ++ piece.now))
        bad kept.new.items out.old.items out.new.items) }
    ensures err { OnErr result (Extends kept.old.items kept.new.items) }
    ensures extends { OnErr result (Extends out.old.items out.new.items) }
{
    let missing = missing_of(limit, kept, piece)?;
    kept.extend_from_slice(&piece[..missing])?;
    let stopped = frame_all(alloc, limit, kept, out)?;
    if let Some(header) = stopped.bad {
        return Ok(Some(header));
    }
    if stopped.at == kept.len() {
        let bad = frame_others(alloc, limit, kept, &piece[missing..], out)?;
        return Ok(bad);
    }
    let bad = frame_on(alloc, limit, kept, stopped.at, &piece[missing..], out)?;
    Ok(bad)
}
