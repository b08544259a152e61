// Bytes as hexadecimal digits.
ghost use Rattle.std.specs.Prelude.{◌≡◌, ◌++◌, map, IfOk, OnOk};
ghost use Rattle.std.specs.Option.{option_map};
ghost use Rattle.packet_lines.specs.Command.{bytes_of, pieces_of};
ghost use Rattle.packet_lines.specs.Text.{digits_of};

use hex::FromHexError;
use std::alloc::{AllocError, Global};

/// The bytes that a word stands for: pairs of digits of either case, or `-` for none; `None` for another word.
pub fn bytes_of(alloc: Global, word: &[u8]) -> Result<Option<Vec<u8>>, AllocError>
    ensures { IfOk result (λ found. option_map (λ v. v.items) found ≡ bytes_of word.now) }
{
    if word.is_empty() {
        return Ok(None);
    }
    if word == b"-".as_slice() {
        return Ok(Some(Vec::new(alloc)));
    }
    match hex::decode(alloc, word) {
        Ok(bytes) => Ok(Some(bytes)),
        Err(FromHexError::OutOfMemory) => Err(AllocError),
        Err(_) => Ok(None),
    }
}

/// The bytes of each of these words, `None` where one doesn't stand for bytes.
pub fn pieces_of(alloc: Global, words: &[&[u8]]) -> Result<Option<Vec<Vec<u8>>>, AllocError>
    ensures { IfOk result (λ found. option_map (λ v. map (λ p. p.items) v.items) found
        ≡ pieces_of (map (λ w. w.now) words.now)) }
{
    let mut pieces = Vec::new(alloc);
    for word in words {
        match bytes_of(alloc, word)? {
            None => return Ok(None),
            Some(piece) => pieces.push(piece)?,
        }
    }
    Ok(Some(pieces))
}

/// Adds two digits of lower case for each byte, and `-` where there is none.
pub fn put_digits(alloc: Global, bytes: &[u8], out: &mut Vec<u8>) -> Result<(), AllocError>
    ensures { OnOk result (out.new.items ≡ out.old.items ++ digits_of bytes.now) }
{
    if bytes.is_empty() {
        return Ok(out.push(b'-')?);
    }
    let text = hex::encode(alloc, bytes)?;
    out.extend_from_slice(text.as_bytes())
}
