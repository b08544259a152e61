// Pieces of a stream, fed to a framer.
ghost use Rattle.std.specs.Prelude.{◌≡◌, ◌++◌, map, IfOk, OnOk};
ghost use Rattle.std.specs.List.{flat_map};
ghost use Rattle.mqtt_frame.specs.Framing.{framed};
ghost use Rattle.mqtt_frame.specs.PlainFramer.{fed, joined};
ghost use Rattle.packet_lines.specs.Text.{text_of_end, text_of_framed, text_of_packet};

use crate::digits::put_digits;
use mqtt_frame::{BadHeader, FrameRefused, Framer, pieces_make_no_difference};
use std::alloc::{AllocError, Global};
use topic_name::Blob;

/// Adds the whole packets of a stream that comes in these pieces, and how it stands behind them.
pub fn put_framed(
    alloc: Global,
    limit: u32,
    pieces: &[Vec<u8>],
    out: &mut Vec<u8>,
) -> Result<(), AllocError>
    ensures { OnOk result (out.new.items ≡ out.old.items
        ++ text_of_framed (framed limit (joined (map (λ p. p.items) pieces.now)))) }
{
    let (packets, bad) = feed_all(alloc, limit, pieces)?;
    put_packets(alloc, &packets, out)?;
    put_end(bad, out)
}

// The whole packets of a stream that comes in these pieces, and the bad header at which it ended.
fn feed_all(
    alloc: Global,
    limit: u32,
    pieces: &[Vec<u8>],
) -> Result<(Vec<Blob>, Option<BadHeader>), AllocError>
    ensures packets { IfOk result (λ found. found.0.items
        ≡ (framed limit (joined (map (λ p. p.items) pieces.now))).packets) }
    ensures bad { IfOk result (λ found. found.1
        ≡ (framed limit (joined (map (λ p. p.items) pieces.now))).bad) }
{
    pieces_make_no_difference();
    let mut framer = Framer::new(alloc, limit);
    let mut packets = Vec::new(alloc);
    let mut bad = None;
    for piece in pieces {
        bad = feed_one(&mut framer, piece, &mut packets)?;
    }
    Ok((packets, bad))
}

// Feeds one piece: the bad header at which the stream ended.
fn feed_one(
    framer: &mut Framer,
    piece: &[u8],
    packets: &mut Vec<Blob>,
) -> Result<Option<BadHeader>, AllocError>
    ensures packets { OnOk result
        (packets.new.items ≡ packets.old.items ++ (fed framer.old piece.now).packets) }
    ensures framer { OnOk result (framer.new ≡ (fed framer.old piece.now).framer) }
    ensures bad { IfOk result (λ bad. bad ≡ (fed framer.old piece.now).framer.bad) }
{
    match framer.feed(piece, packets) {
        Ok(()) => Ok(None),
        Err(FrameRefused::TooLarge) => Ok(Some(BadHeader::Size)),
        Err(FrameRefused::BadLength) => Ok(Some(BadHeader::Length)),
        Err(FrameRefused::Memory) => Err(AllocError),
    }
}

// Adds each packet, with a blank behind it.
fn put_packets(alloc: Global, packets: &[Blob], out: &mut Vec<u8>) -> Result<(), AllocError>
    ensures { OnOk result (out.new.items ≡ out.old.items ++ flat_map text_of_packet packets.now) }
{
    for packet in packets {
        put_digits(alloc, packet.bytes(), out)?;
        out.push(b' ')?;
    }
    Ok(())
}

// Adds how a stream stands behind its packets.
fn put_end(bad: Option<BadHeader>, out: &mut Vec<u8>) -> Result<(), AllocError>
    ensures { OnOk result (out.new.items ≡ out.old.items ++ text_of_end bad) }
{
    match bad {
        None => out.extend_from_slice(b"rest"),
        Some(BadHeader::Size) => out.extend_from_slice(b"too large"),
        Some(BadHeader::Length) => out.extend_from_slice(b"bad length"),
    }
}
