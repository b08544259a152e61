// Packets out of a stream (MQTT 2.1).
use crate::digits::bytes_of;
use mqtt_frame::{FrameRefused, Framer};
use std::alloc::Global;
use std::process::Abort;
use std::test::Fail;
use topic_name::Blob;

// The digits of each packet, and a blank behind each.
fn shown(alloc: Global, packets: &[Blob]) -> Result<String, Fail> {
    let mut text = String::new(alloc);
    for packet in packets {
        let digits = hex::encode(alloc, packet.bytes())?;
        text.push_str(&digits)?;
        text.push(' ')?;
    }
    Ok(text)
}

// The packets of a piece, and why it was refused.
fn fed(alloc: Global, framer: &mut Framer, piece: &str) -> Result<String, Fail> {
    let piece = bytes_of(alloc, piece)?;
    let mut packets = Vec::new(alloc);
    let given = framer.feed(&piece, &mut packets);
    let mut text = shown(alloc, &packets)?;
    match given {
        Ok(()) => {}
        Err(FrameRefused::Memory) => return Err(Fail::from("out of memory")),
        Err(FrameRefused::TooLarge) => text.push_str("TooLarge ")?,
        Err(FrameRefused::BadLength) => text.push_str("BadLength ")?,
    }
    Ok(text)
}

// What each piece gives, and `| ` behind each. A bar stands between pieces.
fn answers(alloc: Global, limit: u32, pieces: &str) -> Result<String, Fail> {
    let mut framer = Framer::new(alloc, limit);
    let mut text = String::new(alloc);
    for piece in pieces.split('|') {
        text.push_str(&fed(alloc, &mut framer, piece)?)?;
        text.push_str("| ")?;
    }
    Ok(text)
}

// A CONNECT of client `a` (21 bytes), a SUBSCRIBE to `a/b` (11) and a PUBLISH to `a/b` (12).
const STREAM: &str = "101300044d5154540500003c051100000e10000161 \
    82090001000003612f6201 320a0003612f62000700 6869";

const PACKETS: &str = "101300044d5154540500003c051100000e10000161 \
    82090001000003612f6201 320a0003612f620007006869 ";

// The packets of a stream that comes in pieces of so many bytes behind a first one.
fn cut(alloc: Global, stream: &[u8], first: usize, size: usize) -> Result<String, Fail> {
    let (first, rest) = stream.split_at(first.min(stream.len()));
    let mut framer = Framer::new(alloc, 21);
    let mut packets = Vec::new(alloc);
    framer.feed(first, &mut packets)?;
    for piece in rest.chunks(size.max(1)) {
        framer.feed(piece, &mut packets)?;
    }
    shown(alloc, &packets)
}

// Each cut of the stream into two pieces, the second of them again into pieces of so many bytes.
fn check_cuts(rt: &impl Abort, alloc: Global, stream: &[u8], size: usize) -> Result<(), Fail> {
    for first in 0..=44 {
        let given = cut(alloc, stream, first, size)?;
        assert_eq!(rt; given.as_str(), PACKETS, "at {first} by {size}");
    }
    Ok(())
}

#[test]
fn a_stream_gives_the_same_packets_however_it_is_cut(rt: HostRuntime) -> Result<(), Fail> {
    let alloc = rt.alloc();
    let stream = bytes_of(alloc, STREAM)?;
    assert_eq!(rt; stream.len(), 44);
    check_cuts(&rt, alloc, &stream, 44)?;
    check_cuts(&rt, alloc, &stream, 1)?;
    check_cuts(&rt, alloc, &stream, 2)?;
    check_cuts(&rt, alloc, &stream, 7)
}

// Each row is a limit, pieces, and what each of them gives.
fn check(rt: &impl Abort, alloc: Global, rows: &[(u32, &str, &str)]) -> Result<(), Fail> {
    for (limit, pieces, wanted) in rows {
        let given = answers(alloc, *limit, pieces)?;
        assert_eq!(rt; given.as_str(), *wanted, "at {pieces} within {limit}");
    }
    Ok(())
}

// MQTT 3.1.2.11.4.
#[test]
fn a_packet_over_the_limit_ends_the_stream_behind_those_in_front(
    rt: HostRuntime,
) -> Result<(), Fail> {
    check(
        &rt,
        rt.alloc(),
        &[
            (2, "c000", "c000 | "),
            (1, "c000", "TooLarge | "),
            (0, "c000", "TooLarge | "),
            (4, "40020007", "40020007 | "),
            (3, "40020007", "TooLarge | "),
            // as soon as the header is there
            (3, "c000 d000 40|02", "c000 d000 | TooLarge | "),
            (131, "308001", "| "),
            (130, "308001", "TooLarge | "),
            (130, "3080|01", "| TooLarge | "),
            (268_435_460, "30ffffff7f", "| "),
            (268_435_459, "30ffffff7f", "TooLarge | "),
            (4_294_967_295, "30ffffff7f 00", "| "),
            // those in front are given, and every later piece is refused so
            (
                3,
                "c000 d000 40020007 c000|c000",
                "c000 d000 TooLarge | TooLarge | ",
            ),
            (
                3,
                "c0|00 40|02|00|07|c000|",
                "| c000 | TooLarge | TooLarge | TooLarge | TooLarge | TooLarge | ",
            ),
            (
                3,
                "c000 40020007|c08000|",
                "c000 TooLarge | TooLarge | TooLarge | ",
            ),
        ],
    )
}

// MQTT 1.5.5, 2.1.4.
#[test]
fn a_length_that_is_none_ends_the_stream_behind_those_in_front(
    rt: HostRuntime,
) -> Result<(), Fail> {
    check(
        &rt,
        rt.alloc(),
        &[
            // a fifth byte
            (100, "c080808080", "BadLength | "),
            (100, "c0ffffffff7f", "BadLength | "),
            (
                100,
                "c0808080|80|00|c000|",
                "| BadLength | BadLength | BadLength | BadLength | ",
            ),
            (100, "c000 d000 e0ffffffff", "c000 d000 BadLength | "),
            // a longer spelling
            (100, "c08000", "BadLength | "),
            (100, "c0808000", "BadLength | "),
            (100, "c080808000", "BadLength | "),
            (100, "c0|80|00|c000", "| | BadLength | BadLength | "),
            (
                100,
                "e000 40|82|00|0007",
                "e000 | | BadLength | BadLength | ",
            ),
            // it tells of no size
            (1, "c08000", "BadLength | "),
            (1, "30ffffffff", "BadLength | "),
            (1, "30ffff|7f", "| TooLarge | "),
        ],
    )
}

#[test]
fn an_empty_piece_gives_nothing(rt: HostRuntime) -> Result<(), Fail> {
    check(
        &rt,
        rt.alloc(),
        &[
            (100, "", "| "),
            (100, "c0||00", "| | c000 | "),
            (100, "||c000||d0||00|", "| | c000 | | | | d000 | | "),
            // bytes that spell no packet are framed too
            (100, "0000 4002 0000", "0000 40020000 | "),
        ],
    )
}

#[test]
fn packets_are_added_behind_those_that_are_there(rt: HostRuntime) -> Result<(), Fail> {
    let alloc = rt.alloc();
    let mut framer = Framer::new(alloc, 100);
    let mut packets = Vec::new(alloc);
    framer.feed(&[0xc0, 0x00, 0xd0], &mut packets)?;
    framer.feed(&[0x00, 0xe0, 0x00], &mut packets)?;
    assert_eq!(rt; shown(alloc, &packets)?.as_str(), "c000 d000 e000 ");
    Ok(())
}
