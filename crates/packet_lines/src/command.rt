// What a line asks for.
ghost use Rattle.std.specs.Prelude.{◌≡◌, [], ◌∷◌, map, IfOk};
ghost use Rattle.std.specs.Option.{option_map};
ghost use Rattle.packet_lines.specs.Asked.{plain};
ghost use Rattle.packet_lines.specs.Command.{command_of, read_of, feed_of, props_of};

use crate::digits::{bytes_of, pieces_of};
use crate::holder::holder_of;
use crate::lines::words_of;
use crate::number::limit_of;
use mqtt_props::Holder;
use std::alloc::{AllocError, Global};

/// What a line asks for: a packet that is read, pieces that are fed to a framer with a limit in bytes, or a list of
/// properties that is read.
#[derive(Debug, Drop)]
pub enum Asked {
    Read(Vec<u8>),
    Feed(u32, Vec<Vec<u8>>),
    Props(Holder, Vec<u8>),
}

/// What this line asks for; `None` where it has none of the forms.
pub fn command_of(alloc: Global, line: &[u8]) -> Result<Option<Asked>, AllocError>
    ensures { IfOk result (λ found. option_map plain found ≡ command_of line.now) }
{
    let words = words_of(alloc, line)?;
    let Some((name, words)) = words.split_first() else {
        return Ok(None);
    };
    if *name == b"read".as_slice() {
        read_of(alloc, words)
    } else if *name == b"feed".as_slice() {
        feed_of(alloc, words)
    } else if *name == b"props".as_slice() {
        props_of(alloc, words)
    } else {
        Ok(None)
    }
}

// `HEX`.
fn read_of(alloc: Global, words: &[&[u8]]) -> Result<Option<Asked>, AllocError>
    ensures { IfOk result
        (λ found. option_map plain found ≡ read_of (map (λ w. w.now) words.now)) }
{
    let [digits] = words else {
        return Ok(None);
    };
    match bytes_of(alloc, digits)? {
        None => Ok(None),
        Some(bytes) => Ok(Some(Asked::Read(bytes))),
    }
}

// `LIMIT HEX HEX ..`.
fn feed_of(alloc: Global, words: &[&[u8]]) -> Result<Option<Asked>, AllocError>
    ensures { IfOk result
        (λ found. option_map plain found ≡ feed_of (map (λ w. w.now) words.now)) }
{
    let [limit, pieces @ ..] = words else {
        return Ok(None);
    };
    if pieces.is_empty() {
        return Ok(None);
    }
    let Some(limit) = limit_of(limit) else {
        return Ok(None);
    };
    match pieces_of(alloc, pieces)? {
        None => Ok(None),
        Some(pieces) => Ok(Some(Asked::Feed(limit, pieces))),
    }
}

// `HOLDER HEX`.
fn props_of(alloc: Global, words: &[&[u8]]) -> Result<Option<Asked>, AllocError>
    ensures { IfOk result
        (λ found. option_map plain found ≡ props_of (map (λ w. w.now) words.now)) }
{
    match words {
        [holder, digits] => list_of(alloc, holder, digits),
        [] => Ok(None),
        [_] => Ok(None),
        [_, _, _, ..] => Ok(None),
    }
}

// The list of properties that these two words ask for.
fn list_of(alloc: Global, holder: &[u8], digits: &[u8]) -> Result<Option<Asked>, AllocError>
    ensures { IfOk result
        (λ found. option_map plain found ≡ props_of (holder.now ∷ digits.now ∷ [])) }
{
    let Some(holder) = holder_of(holder) else {
        return Ok(None);
    };
    match bytes_of(alloc, digits)? {
        None => Ok(None),
        Some(bytes) => Ok(Some(Asked::Props(holder, bytes))),
    }
}
