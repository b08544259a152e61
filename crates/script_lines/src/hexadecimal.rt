ghost use Rattle.std.specs.Prelude.{◌≡◌, IfOk};
ghost use Rattle.std.specs.List.{list_all};
ghost use Rattle.std.specs.Option.{is_some, option_map};
ghost use Rattle.hex.specs.Hex.{is_hex_digit};
ghost use Rattle.first_world_terms.specs.Script.{hex_of};

use hex::FromHexError;
use std::alloc::{AllocError, Global};

// How many digits a line may have: two for each of 1,048,576 bytes.
const MOST_DIGITS: usize = 2 * 1048576;

/// The bytes that digits in pairs stand for; `None` where the text isn't such digits, or too few or too many.
pub fn read_bytes(alloc: Global, text: &[u8]) -> Result<Option<Vec<u8>>, AllocError>
    ensures { IfOk result (λ found. option_map (λ v. v.items) found ≡ hex_of text.now) }
{
    if text.len() < 2 || text.len() > MOST_DIGITS {
        return Ok(None);
    }
    match hex::decode(alloc, text) {
        Ok(bytes) => Ok(Some(bytes)),
        Err(FromHexError::OutOfMemory) => Err(AllocError),
        Err(_) => Ok(None),
    }
}

/// Whether the text stands for bytes. Takes no memory.
#[tactic(auto, using(crate::proofs::HexadecimalLemmas::even_hex))]
pub fn is_bytes(text: &[u8]) -> bool
    ensures { result ≡ is_some (hex_of text.now) }
{
    if text.len() < 2 || text.len() > MOST_DIGITS || text.len() % 2 != 0 {
        return false;
    }
    has_digits_alone(text)
}

fn has_digits_alone(text: &[u8]) -> bool
    ensures { result ≡ list_all is_hex_digit text.now }
{
    text.iter().all(|b| is_digit(*b))
}

fn is_digit(b: u8) -> bool
    ensures { result ≡ is_hex_digit b }
{
    matches!(b, b'0'..=b'9' | b'A'..=b'F' | b'a'..=b'f')
}
