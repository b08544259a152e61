// Bytes as digits in pairs, with blanks between fields.
use hex::FromHexError;
use std::alloc::{AllocError, Global};
use std::test::Fail;

/// The text without its blanks and its ends of lines.
pub(crate) fn without_blanks(alloc: Global, text: &str) -> Result<String, AllocError> {
    let mut kept = String::new(alloc);
    for letter in text.chars() {
        if letter != ' ' && letter != '\n' {
            kept.push(letter)?;
        }
    }
    Ok(kept)
}

/// The bytes that these digits stand for.
pub(crate) fn bytes_of(alloc: Global, digits: &str) -> Result<Vec<u8>, FromHexError> {
    let digits = match without_blanks(alloc, digits) {
        Ok(digits) => digits,
        Err(_) => return Err(FromHexError::OutOfMemory),
    };
    hex::decode(alloc, digits.as_bytes())
}

/// The bytes that these digits stand for, behind the byte 55.
pub(crate) fn behind_one(alloc: Global, digits: &str) -> Result<Vec<u8>, Fail> {
    let digits = format!(in alloc; "55{digits}")?;
    Ok(bytes_of(alloc, &digits)?)
}

/// The bytes that these digits stand for, and so many bytes 2a behind them.
pub(crate) fn padded(alloc: Global, digits: &str, count: usize) -> Result<Vec<u8>, Fail> {
    let mut bytes = bytes_of(alloc, digits)?;
    let whole = bytes.len().saturating_add(count);
    bytes.resize(whole, 0x2a)?;
    Ok(bytes)
}
