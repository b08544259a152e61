// Bytes as digits in pairs, with blanks between fields, and short words for what repeats.
use hex::FromHexError;
use std::alloc::{AllocError, Global};

// What a word stands for: so many bytes 00, or a word of the rows.
fn digits_of(word: &str) -> &str {
    match word {
        "Z4" => "00000000",
        "Z8" => "0000000000000000",
        "N8" => "0000000000000001",
        "F8" => "ffffffffffffffff",
        // client `a`, and client `b`
        "A" => "000161",
        "B" => "000162",
        // filter `a/b`
        "AB" => "0003612f62",
        // the sweep at the front of generation 0
        "SWEEP" => "0000000000000000 0000000000000000 0000000000000000 00000000 0000000000000000",
        other => other,
    }
}

fn put_digits(kept: &mut String, text: &str) -> Result<(), AllocError> {
    for letter in text.chars() {
        if letter != ' ' && letter != '\n' {
            kept.push(letter)?;
        }
    }
    Ok(())
}

fn spelled_out(alloc: Global, text: &str) -> Result<String, AllocError> {
    let mut digits = String::new(alloc);
    for word in text.split_whitespace() {
        put_digits(&mut digits, digits_of(word))?;
    }
    Ok(digits)
}

/// The bytes that these words stand for.
pub(crate) fn bytes_of(alloc: Global, words: &str) -> Result<Vec<u8>, FromHexError> {
    let digits = match spelled_out(alloc, words) {
        Ok(digits) => digits,
        Err(_) => return Err(FromHexError::OutOfMemory),
    };
    hex::decode(alloc, digits.as_bytes())
}
