// Fields (MQTT 1.5), each behind a byte that stands in front of it.
use crate::digits::{behind_one, padded};
use std::alloc::{AllocError, Global};
use std::process::Abort;
use std::test::Fail;
use wire_fields::{
    Cut, MOST_BIN, MOST_VAR, put_bin, put_text, put_u8, put_u16, put_u32, put_u64, put_var,
    take_bin, take_text, take_u8, take_u16, take_u32, take_u64, take_var, var_length,
};

#[derive(Clone, Copy, PartialEq, Eq)]
enum Number {
    One(u8),
    Two(u16),
    Four(u32),
    Eight(u64),
    Variable(u32),
}

// A number of the same kind.
fn taken(kind: Number, bytes: &[u8], at: &mut usize) -> Result<Number, Cut> {
    match kind {
        Number::One(_) => Ok(Number::One(take_u8(bytes, at)?)),
        Number::Two(_) => Ok(Number::Two(take_u16(bytes, at)?)),
        Number::Four(_) => Ok(Number::Four(take_u32(bytes, at)?)),
        Number::Eight(_) => Ok(Number::Eight(take_u64(bytes, at)?)),
        Number::Variable(_) => Ok(Number::Variable(take_var(bytes, at)?)),
    }
}

fn put(number: Number, out: &mut Vec<u8>) -> Result<(), AllocError> {
    match number {
        Number::One(value) => put_u8(value, out),
        Number::Two(value) => put_u16(value, out),
        Number::Four(value) => put_u32(value, out),
        Number::Eight(value) => put_u64(value, out),
        Number::Variable(value) => put_if_fits(value, out),
    }
}

// Nothing where the number is above the greatest.
fn put_if_fits(value: u32, out: &mut Vec<u8>) -> Result<(), AllocError> {
    if value > MOST_VAR {
        return Ok(());
    }
    put_var(value, out)
}

// The digits that are put behind a byte.
fn put_behind_one(alloc: Global, number: Number) -> Result<String, Fail> {
    let mut out = behind_one(alloc, "")?;
    put(number, &mut out)?;
    Ok(hex::encode(alloc, out)?)
}

// What is taken behind a byte: the place behind it if it is this number, and why not.
fn place_behind(alloc: Global, number: Number, digits: &str) -> Result<String, Fail> {
    let bytes = behind_one(alloc, digits)?;
    let mut at = 1;
    match taken(number, &bytes, &mut at) {
        Ok(found) if found == number => Ok(format!(in alloc; "{at}")?),
        Ok(_) => Ok(format!(in alloc; "another")?),
        Err(cut) => Ok(format!(in alloc; "{cut:?} {at}")?),
    }
}

// The digits that are put behind a byte, and what is taken of these digits where a byte follows them.
fn put_and_taken(alloc: Global, number: Number, digits: &str) -> Result<String, Fail> {
    let put = put_behind_one(alloc, number)?;
    let followed = format!(in alloc; "{digits}ff")?;
    let place = place_behind(alloc, number, &followed)?;
    Ok(format!(in alloc; "{put} {place}")?)
}

// Each row is a number, its digits, and the place behind them.
fn check_numbers(
    rt: &impl Abort,
    alloc: Global,
    rows: &[(Number, &str, &str)],
) -> Result<(), Fail> {
    for (number, digits, place) in rows {
        let wanted = format!(in alloc; "55{digits} {place}")?;
        let given = put_and_taken(alloc, *number, digits)?;
        assert_eq!(rt; given, wanted, "at {digits}");
    }
    Ok(())
}

// Those of variable length are the ends of table 1-1 of MQTT 1.5.5.
#[test]
fn a_number_is_put_and_taken_at_its_ends(rt: HostRuntime) -> Result<(), Fail> {
    check_numbers(
        &rt,
        rt.alloc(),
        &[
            (Number::One(0), "00", "2"),
            (Number::One(255), "ff", "2"),
            (Number::Two(0), "0000", "3"),
            (Number::Two(256), "0100", "3"),
            (Number::Two(65_535), "ffff", "3"),
            (Number::Four(0), "00000000", "5"),
            (Number::Four(16_909_060), "01020304", "5"),
            (Number::Four(4_294_967_295), "ffffffff", "5"),
            (Number::Eight(0), "0000000000000000", "9"),
            (Number::Eight(4_294_967_296), "0000000100000000", "9"),
            (
                Number::Eight(18_446_744_073_709_551_615),
                "ffffffffffffffff",
                "9",
            ),
            (Number::Variable(0), "00", "2"),
            (Number::Variable(1), "01", "2"),
            (Number::Variable(127), "7f", "2"),
            (Number::Variable(128), "8001", "3"),
            (Number::Variable(321), "c102", "3"),
            (Number::Variable(16_383), "ff7f", "3"),
            (Number::Variable(16_384), "808001", "4"),
            (Number::Variable(2_097_151), "ffff7f", "4"),
            (Number::Variable(2_097_152), "80808001", "5"),
            (Number::Variable(268_435_455), "ffffff7f", "5"),
        ],
    )
}

// Each row is a number, and how many bytes it takes.
fn check_lengths(rt: &impl Abort, rows: &[(u32, usize)]) {
    for (value, length) in rows {
        assert_eq!(rt; var_length(*value), *length, "at {value}");
    }
}

#[test]
fn the_length_of_a_variable_number_is_told(rt: HostRuntime) {
    check_lengths(
        &rt,
        &[
            (0, 1),
            (127, 1),
            (128, 2),
            (16_383, 2),
            (16_384, 3),
            (2_097_151, 3),
            (2_097_152, 4),
            (268_435_455, 4),
        ],
    );
}

// Each row is a number of a kind, digits that are none of this kind, and why and at which place.
fn check_none(rt: &impl Abort, alloc: Global, rows: &[(Number, &str, &str)]) -> Result<(), Fail> {
    for (number, digits, wanted) in rows {
        let given = place_behind(alloc, *number, digits)?;
        assert_eq!(rt; given.as_str(), *wanted, "at {digits}");
    }
    Ok(())
}

#[test]
fn where_no_number_is_the_place_stays(rt: HostRuntime) -> Result<(), Fail> {
    check_none(
        &rt,
        rt.alloc(),
        &[
            (Number::One(0), "", "Short 1"),
            (Number::Two(0), "", "Short 1"),
            (Number::Two(0), "ff", "Short 1"),
            (Number::Four(0), "ffffff", "Short 1"),
            (Number::Eight(0), "ffffffffffffff", "Short 1"),
            (Number::Variable(0), "", "Short 1"),
            (Number::Variable(0), "80", "Short 1"),
            (Number::Variable(0), "ffff", "Short 1"),
            (Number::Variable(0), "ffffff", "Short 1"),
            (Number::Variable(0), "8000", "Bad 1"),
            (Number::Variable(0), "ff00", "Bad 1"),
            (Number::Variable(0), "808000", "Bad 1"),
            (Number::Variable(0), "80808000", "Bad 1"),
            (Number::Variable(0), "80808080", "Bad 1"),
            (Number::Variable(0), "ffffffff", "Bad 1"),
            (Number::Variable(0), "ffffff80", "Bad 1"),
            (Number::Variable(0), "8080808001", "Bad 1"),
        ],
    )
}

// A place that is behind all bytes.
#[test]
fn behind_the_end_a_field_is_short(rt: HostRuntime) {
    let mut at = 3;
    assert_eq!(rt; take_u8(&[0], &mut at), Err(Cut::Short));
    assert!(rt; take_text(&[0], &mut at) == Err(Cut::Short));
    assert_eq!(rt; at, 3);
}

// The digits of what is taken and the place behind it, or why nothing is taken and the place.
fn piece(alloc: Global, is_text: bool, digits: &str) -> Result<String, Fail> {
    let bytes = behind_one(alloc, digits)?;
    let mut at = 1;
    let given = if is_text {
        take_text(&bytes, &mut at)
    } else {
        take_bin(&bytes, &mut at)
    };
    match given {
        Ok(piece) => {
            let digits = hex::encode(alloc, piece)?;
            Ok(format!(in alloc; "{digits} {at}")?)
        }
        Err(cut) => Ok(format!(in alloc; "{cut:?} {at}")?),
    }
}

// The same as binary data and as a text.
fn both(alloc: Global, digits: &str) -> Result<String, Fail> {
    let binary = piece(alloc, false, digits)?;
    let text = piece(alloc, true, digits)?;
    Ok(format!(in alloc; "{binary}, {text}")?)
}

// Each row is digits, and what is taken of them as binary data and as a text.
fn check_pieces(rt: &impl Abort, alloc: Global, rows: &[(&str, &str, &str)]) -> Result<(), Fail> {
    for (digits, binary, text) in rows {
        let wanted = format!(in alloc; "{binary}, {text}")?;
        assert_eq!(rt; both(alloc, digits)?, wanted, "at {digits}");
    }
    Ok(())
}

#[test]
fn a_text_and_binary_data_are_taken_or_the_place_stays(rt: HostRuntime) -> Result<(), Fail> {
    check_pieces(
        &rt,
        rt.alloc(),
        &[
            ("0000", " 3", " 3"),
            ("0000 ff", " 3", " 3"),
            ("0003 612f62 ff", "612f62 6", "612f62 6"),
            // the example of MQTT 1.5.4.1, and U+FEFF
            ("0005 41f0aa9b94", "41f0aa9b94 8", "41f0aa9b94 8"),
            ("0003 efbbbf", "efbbbf 6", "efbbbf 6"),
            // U+0001, U+007F, U+0080, U+0800, U+D7FF, U+E000, U+10000, U+10FFFF
            ("0001 01", "01 4", "01 4"),
            ("0001 7f", "7f 4", "7f 4"),
            ("0002 c280", "c280 5", "c280 5"),
            ("0003 e0a080", "e0a080 6", "e0a080 6"),
            ("0003 ed9fbf", "ed9fbf 6", "ed9fbf 6"),
            ("0003 ee8080", "ee8080 6", "ee8080 6"),
            ("0004 f0908080", "f0908080 7", "f0908080 7"),
            ("0004 f48fbfbf", "f48fbfbf 7", "f48fbfbf 7"),
            // U+0000, overlong, a surrogate, above U+10FFFF, a character that is cut by the length
            ("0003 610062", "610062 6", "Bad 1"),
            ("0002 c080", "c080 5", "Bad 1"),
            ("0003 e09fbf", "e09fbf 6", "Bad 1"),
            ("0003 eda080", "eda080 6", "Bad 1"),
            ("0004 f4908080", "f4908080 7", "Bad 1"),
            ("0001 c3", "c3 4", "Bad 1"),
            // cut
            ("", "Short 1", "Short 1"),
            ("00", "Short 1", "Short 1"),
            ("0001", "Short 1", "Short 1"),
            ("0002 61", "Short 1", "Short 1"),
            ("0002 c3", "Short 1", "Short 1"),
            ("0004 f48f", "Short 1", "Short 1"),
            ("ffff 61", "Short 1", "Short 1"),
            // cut, and no bytes would complete the text
            ("0002 00", "Short 1", "Bad 1"),
            ("0002 ff", "Short 1", "Bad 1"),
            ("0002 f0", "Short 1", "Bad 1"),
            ("0003 eda0", "Short 1", "Bad 1"),
            ("0003 e080", "Short 1", "Bad 1"),
            ("0004 f490", "Short 1", "Bad 1"),
        ],
    )
}

// Whether so many bytes are put as a text and as binary data behind this length, and taken again.
fn is_put_and_taken(alloc: Global, count: usize, length: &str) -> Result<bool, Fail> {
    let piece = padded(alloc, "", count)?;
    if piece.len() > MOST_BIN {
        return Ok(false);
    }
    let mut text = Vec::new(alloc);
    put_text(&piece, &mut text)?;
    let mut binary = Vec::new(alloc);
    put_bin(&piece, &mut binary)?;
    let wanted = padded(alloc, length, count)?;
    let mut at = 0;
    let taken = take_text(&text, &mut at) == Ok(piece.as_slice());
    Ok(taken && text == wanted && binary == wanted)
}

// MQTT 1.5.4, 1.5.6.
#[test]
fn a_text_and_binary_data_have_at_most_65535_bytes(rt: HostRuntime) -> Result<(), Fail> {
    let alloc = rt.alloc();
    assert!(rt; is_put_and_taken(alloc, 0, "0000")?);
    assert!(rt; is_put_and_taken(alloc, 255, "00ff")?);
    assert!(rt; is_put_and_taken(alloc, 256, "0100")?);
    assert!(rt; is_put_and_taken(alloc, 65_535, "ffff")?);
    assert_eq!(rt; MOST_BIN, 65_535);
    assert_eq!(rt; MOST_VAR, 268_435_455);
    Ok(())
}
