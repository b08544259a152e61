// Bytes as digits in pairs, with blanks between fields, and short words for what repeats.
use hex::FromHexError;
use std::alloc::{AllocError, Global};

// What a word stands for: so many bytes, a text, or a part of a record.
fn digits_of(word: &str) -> &str {
    match word {
        "Z4" => "00000000",
        "Z8" => "0000000000000000",
        "N8" => "0000000000000001",
        "F8" => "ffffffffffffffff",
        // client `p` in its session with incarnation 2
        "P" => "0001700000000000000002",
        // topic `a/b`, without properties, with the payload `hi`
        "HI" => "0003612f6200000000000000026869",
        // the epoch of the first manifest, and one shard and one worker of format 1
        "M" => "000000000000000101010100",
        // generation 0 in slot 0 from offset 0 on, with three messages, up to its moment of sealing
        "G0" => "0000000000000000000100000000000000000001000100000003",
        // the first opening
        "O0" => "4f000000000000000000000000000000000000",
        other => other,
    }
}

fn put_digits(kept: &mut String, text: &str) -> Result<(), AllocError> {
    for letter in text.chars() {
        if letter != ' ' {
            kept.push(letter)?;
        }
    }
    Ok(())
}

fn spelled_out(alloc: Global, text: &str) -> Result<String, AllocError> {
    let mut digits = String::new(alloc);
    for word in text.split_whitespace() {
        put_digits(&mut digits, digits_of(word))?;
    }
    Ok(digits)
}

/// The bytes that these words stand for.
pub(crate) fn bytes_of(alloc: Global, words: &str) -> Result<Vec<u8>, FromHexError> {
    let digits = match spelled_out(alloc, words) {
        Ok(digits) => digits,
        Err(_) => return Err(FromHexError::OutOfMemory),
    };
    hex::decode(alloc, digits.as_bytes())
}
