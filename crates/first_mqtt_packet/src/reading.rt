ghost use Rattle.std.specs.Prelude.{◌≡◌, ◌==◌, ◌≤◌, ◌<◌, ◌+◌, ℕ, length, IfOk, IfErr, true, count_by};
ghost use Rattle.std.specs.List.{list_all};
ghost use Rattle.std.specs.Option.{option_copied};
ghost use Rattle.first_topic_name.specs.Pieces.{levels_of};
ghost use Rattle.first_mqtt_packet.specs.Reading.{packet_of, packet_in, connect_in, subscribe_in, publish_in, is_connect, is_connect_front, is_subscribe, is_publish, body_after, length_size, is_length, two_at, four_at, is_topic_byte, is_text_byte, is_plain_topic, is_plain_client, begins_with_dollar, filter_at, topic_at, after_topic, Gives};
ghost use Rattle.first_mqtt_packet.specs.Spells.{Spells};

use crate::packet::{Packet, Wish, Wishes};
use crate::props::{Prop, Props};
use crate::refused::ReadRefused;
use std::alloc::Global;
use topic_name::{Blob, Name};

/// The packet that the bytes spell, whole.
pub fn read(alloc: Global, bytes: &[u8]) -> Result<Packet, ReadRefused>
    // What is read is spelled so.
    ensures found { IfOk result (λ p. Spells bytes.now p) }
    // What is spelled so is read, unless memory runs out.
    ensures only { (p : Packet) → Spells bytes.now p → Gives result (Some p) }
    // What it is, computed; `Later` comes exactly where there is none.
    ensures exact { Gives result (packet_of bytes.now) }
{
    read_whole(alloc, bytes)
}

// As `packet_of` computes it.
fn read_whole(alloc: Global, bytes: &[u8]) -> Result<Packet, ReadRefused>
    ensures { Gives result (packet_of bytes.now) }
{
    match bytes {
        [] => Err(ReadRefused::Later),
        [first, rest @ ..] => match body_of(rest) {
            Some(body) => read_body(alloc, *first, body),
            None => Err(ReadRefused::Later),
        },
    }
}

// What follows the length, where the length is right.
fn body_of(bytes: &[u8]) -> Option<&[u8]>
    ensures { option_copied result ≡ body_after bytes.now }
{
    if bytes.is_empty() {
        return None;
    }
    let size = size_of_length(bytes.len());
    let (front, body) = bytes.split_at(size);
    if is_length(front, body.len()) {
        Some(body)
    } else {
        None
    }
}

// How many bytes the length takes, where it and what follows it are so many.
fn size_of_length(total: usize) -> usize
    ensures size { result ≡ length_size total }
    ensures within { 0 < total → result ≤ total }
{
    if total < 129 {
        1
    } else if total < 16386 {
        2
    } else if total < 2097155 {
        3
    } else {
        4
    }
}

// Whether the bytes are this length in its shortest spelling.
fn is_length(bytes: &[u8], n: usize) -> bool
    ensures { result ≡ is_length bytes.now n }
{
    if n < 128 {
        bytes == [n as u8].as_slice()
    } else if n < 16384 {
        bytes == [(n % 128 + 128) as u8, (n / 128) as u8].as_slice()
    } else if n < 2097152 {
        bytes
            == [
                (n % 128 + 128) as u8,
                (n / 128 % 128 + 128) as u8,
                (n / 16384) as u8,
            ]
            .as_slice()
    } else if n < 268435456 {
        is_long_length(bytes, n)
    } else {
        false
    }
}

// The same for a length of four bytes.
fn is_long_length(bytes: &[u8], n: usize) -> bool
    requires least { 2097152 ≤ n }
    requires most { n < 268435456 }
    ensures { result ≡ is_length bytes.now n }
{
    bytes
        == [
            (n % 128 + 128) as u8,
            (n / 128 % 128 + 128) as u8,
            (n / 16384 % 128 + 128) as u8,
            (n / 2097152 % 256) as u8,
        ]
        .as_slice()
}

// The packet of this first byte and this body.
fn read_body(alloc: Global, first: u8, body: &[u8]) -> Result<Packet, ReadRefused>
    ensures { Gives result (packet_in first body.now) }
{
    match first {
        0x10 => read_connect(alloc, body),
        0x82 => read_subscribe(alloc, body),
        0x32 => read_publish(alloc, body),
        _ => Err(ReadRefused::Later),
    }
}

// The number in two bytes from this place on.
fn u16_at(bytes: &[u8], at: usize) -> u16
    requires { at + 2 ≤ length bytes.now }
    ensures { result ≡ two_at bytes.now at }
{
    let (_, rest) = bytes.split_at(at);
    u16::from_be_bytes([rest[0], rest[1]])
}

fn u32_at(bytes: &[u8], at: usize) -> u32
    requires { at + 4 ≤ length bytes.now }
    ensures { result ≡ four_at bytes.now at }
{
    let (_, rest) = bytes.split_at(at);
    u32::from_be_bytes([rest[0], rest[1], rest[2], rest[3]])
}

fn is_client(text: &[u8]) -> bool
    ensures { result ≡ is_plain_client text.now }
{
    1 <= text.len() && text.len() <= 256 && is_text(text)
}

fn is_text(text: &[u8]) -> bool
    ensures { result ≡ list_all is_text_byte text.now }
{
    text.iter().all(|b| is_printable(*b))
}

fn is_printable(b: u8) -> bool
    ensures { result ≡ is_text_byte b }
{
    33 <= b && b <= 126
}

fn is_of_topic(b: u8) -> bool
    ensures { result ≡ is_topic_byte b }
{
    is_printable(b) && !(b == b'#' || b == b'+')
}

fn is_topic_text(text: &[u8]) -> bool
    ensures { result ≡ list_all is_topic_byte text.now }
{
    text.iter().all(|b| is_of_topic(*b))
}

fn is_topic(text: &[u8]) -> bool
    ensures { result ≡ is_plain_topic text.now }
{
    1 <= text.len()
        && text.len() <= 1024
        && is_topic_text(text)
        && !is_dollar(text)
        && level_count(text) <= 128
}

fn is_dollar(text: &[u8]) -> bool
    ensures { result ≡ begins_with_dollar text.now }
{
    match text {
        [first, ..] => *first == b'$',
        [] => false,
    }
}

// How many levels the text has: one more than slashes.
#[tactic(auto, using(crate::proofs::Levels::count_of_pieces))]
fn level_count(text: &[u8]) -> usize
    requires { length text.now ≤ 1024 }
    ensures { result ≡ length (levels_of text.now) }
{
    slash_count(text) + 1
}

fn slash_count(text: &[u8]) -> usize
    ensures value { result ≡ count_by (λ b. b == 47) text.now }
    ensures within { result ≤ length text.now }
{
    text.iter().filter(|b| **b == b'/').count()
}

// The text that these bytes are.
fn name_of(alloc: Global, text: &[u8]) -> Result<Name, ReadRefused>
    requires { list_all is_text_byte text.now ≡ true }
    ensures ok { IfOk result (λ n. n ≡ text.now) }
    ensures err { IfErr result (λ e. e ≡ ReadRefused.Memory) }
{
    match std::str::from_utf8(text) {
        Ok(text) => Ok(Name::of(alloc, text)?),
        Err(_) => unreachable!(),
    }
}

fn is_connect(body: &[u8]) -> bool
    ensures { result ≡ is_connect body.now }
{
    if body.len() < 18 {
        return false;
    }
    let (_, client) = body.split_at(18);
    is_connect_front(body)
        && u32_at(body, 12) > 0
        && u16_at(body, 16) as usize == body.len() - 18
        && is_client(client)
}

// The protocol's name and version, no flags, and the head of a Session Expiry Interval.
fn is_connect_front(body: &[u8]) -> bool
    requires { 18 ≤ length body.now }
    ensures { result ≡ is_connect_front body.now }
{
    &body[..8] == [0, 4, b'M', b'Q', b'T', b'T', 5, 0].as_slice()
        && &body[10..12] == [5, 17].as_slice()
}

fn read_connect(alloc: Global, body: &[u8]) -> Result<Packet, ReadRefused>
    ensures { Gives result (connect_in body.now) }
{
    if !is_connect(body) {
        return Err(ReadRefused::Later);
    }
    let (_, client) = body.split_at(18);
    let mut props = Props::new(alloc);
    props.push(Prop::Four(17, u32_at(body, 12)))?;
    Ok(Packet::Connect {
        clean: false,
        keep_alive: u16_at(body, 8),
        props,
        client: name_of(alloc, client)?,
        will: None,
        user: None,
        password: None,
    })
}

fn is_subscribe(body: &[u8]) -> bool
    ensures { result ≡ is_subscribe body.now }
{
    body.len() >= 6
        && u16_at(body, 0) > 0
        && body[2] == 0
        && u16_at(body, 3) as usize == body.len() - 6
        && is_topic(&body[5..body.len() - 1])
        && body[body.len() - 1] == 1
}

#[tactic(auto, using(crate::proofs::Texts::filter_is_text))]
fn read_subscribe(alloc: Global, body: &[u8]) -> Result<Packet, ReadRefused>
    ensures { Gives result (subscribe_in body.now) }
{
    if !is_subscribe(body) {
        return Err(ReadRefused::Later);
    }
    let filter = name_of(alloc, &body[5..body.len() - 1])?;
    let mut filters = Wishes::new(alloc);
    filters.push(Wish { filter, options: 1 })?;
    Ok(Packet::Subscribe {
        id: u16_at(body, 0),
        props: Props::new(alloc),
        filters,
    })
}

fn is_publish(body: &[u8]) -> bool
    ensures { result ≡ is_publish body.now }
{
    if body.len() < 5 {
        return false;
    }
    let size = u16_at(body, 0) as usize;
    if body.len() < size + 5 {
        return false;
    }
    let (_, behind) = body.split_at(2);
    let (topic, rest) = behind.split_at(size);
    is_topic(topic) && u16_at(rest, 0) > 0 && rest[2] == 0
}

#[tactic(auto, using(crate::proofs::Texts::topic_is_text))]
fn read_publish(alloc: Global, body: &[u8]) -> Result<Packet, ReadRefused>
    ensures { Gives result (publish_in body.now) }
{
    if !is_publish(body) {
        return Err(ReadRefused::Later);
    }
    let size = u16_at(body, 0) as usize;
    let (_, behind) = body.split_at(2);
    let (topic, rest) = behind.split_at(size);
    Ok(Packet::Publish {
        dup: false,
        qos: 1,
        retain: false,
        topic: name_of(alloc, topic)?,
        id: u16_at(rest, 0),
        props: Props::new(alloc),
        payload: Blob::of(alloc, &rest[3..])?,
    })
}
