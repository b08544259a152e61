// Lists of properties, their identifiers and their values (MQTT 2.2.2).
use crate::digits::{padded, without_blanks};
use crate::props::{answer, bare_answer};
use mqtt_props::Holder;
use std::alloc::Global;
use std::process::Abort;
use std::test::Fail;

// Each row is the digits that are read, and those that are written, or why they were refused.
fn check_rows(
    rt: &impl Abort,
    alloc: Global,
    holder: Holder,
    rows: &[(&str, &str)],
) -> Result<(), Fail> {
    for (read, wanted) in rows {
        let wanted = without_blanks(alloc, wanted)?;
        assert_eq!(rt; answer(alloc, holder, read)?, wanted, "at {read}");
    }
    Ok(())
}

// MQTT 2.2.2.1, 1.5.5.
#[test]
fn a_list_has_its_length_in_front(rt: HostRuntime) -> Result<(), Fail> {
    check_rows(
        &rt,
        rt.alloc(),
        Holder::Publish,
        &[
            ("00", "00"),
            ("02 01 01", "02 01 01"),
            ("09 26 0001 61 0001 62 01 01", "09 01 01 26 0001 61 0001 62"),
            // none, cut, too long, too short, in a longer spelling
            ("", "Spelling"),
            ("80", "Spelling"),
            ("03 01 01", "Spelling"),
            ("01", "Spelling"),
            ("01 01 01", "Spelling"),
            ("00 01", "Spelling"),
            ("8000", "Spelling"),
            ("8200 01 01", "Spelling"),
            ("ffffffff7f", "Spelling"),
            // before all else
            ("03 04 00", "Spelling"),
            ("01 21 0001", "Spelling"),
        ],
    )
}

// Each row is the digits in front of Correlation Data, and its bytes.
fn check_padded(rt: &impl Abort, alloc: Global, rows: &[(&str, usize)]) -> Result<(), Fail> {
    for (front, count) in rows {
        let digits = hex::encode(alloc, padded(alloc, front, *count)?)?;
        assert!(rt;
            answer(alloc, Holder::Publish, &digits)? == digits,
            "at {front}"
        );
    }
    Ok(())
}

// The list takes three bytes more than the data (MQTT 1.5.5, table 1-1).
#[test]
fn the_length_of_a_list_takes_one_to_three_bytes(rt: HostRuntime) -> Result<(), Fail> {
    check_padded(
        &rt,
        rt.alloc(),
        &[
            ("7f 09 007c", 124),
            ("8001 09 007d", 125),
            ("ff7f 09 3ffc", 16_380),
            ("808001 09 3ffd", 16_381),
        ],
    )
}

// Each row is the digits of a list of a PUBLISH without its length, and what is written of it or why it was refused.
fn check_bare(rt: &impl Abort, alloc: Global, rows: &[(&str, &str)]) -> Result<(), Fail> {
    for (read, wanted) in rows {
        let given = bare_answer(alloc, Holder::Publish, read)?;
        assert_eq!(rt; given.as_str(), *wanted, "at {read}");
    }
    Ok(())
}

#[test]
fn a_list_may_stand_without_its_length(rt: HostRuntime) -> Result<(), Fail> {
    check_bare(
        &rt,
        rt.alloc(),
        &[
            ("", ""),
            ("01 01", "0101"),
            ("26 0001 61 0001 62 01 01", "010126000161000162"),
            ("01", "Spelling"),
            ("04 01", "Unknown"),
            ("21 0001", "Misplaced"),
            ("01 02 01 01", "Repeated"),
            ("0b 00", "BadValue"),
        ],
    )
}

#[test]
fn a_value_is_of_its_type(rt: HostRuntime) -> Result<(), Fail> {
    check_rows(
        &rt,
        rt.alloc(),
        Holder::Publish,
        &[
            // cut: no value, three of four bytes, one of two
            ("01 01", "Spelling"),
            ("04 02 000000", "Spelling"),
            ("02 23 00", "Spelling"),
            // a text, a text of a pair, binary data
            ("02 03 00", "Spelling"),
            ("03 03 0001", "Spelling"),
            ("01 26", "Spelling"),
            ("04 26 0001 61", "Spelling"),
            ("06 26 0001 61 0001", "Spelling"),
            ("04 09 0002 ff", "Spelling"),
            // a variable byte integer: cut, longer than needed, of five bytes, the least and the greatest
            ("01 0b", "Spelling"),
            ("02 0b 80", "Spelling"),
            ("03 0b 8100", "Spelling"),
            ("06 0b ffffffff7f", "Spelling"),
            ("02 0b 01", "02 0b 01"),
            ("03 0b 8001", "03 0b 8001"),
            ("05 0b ffffff7f", "05 0b ffffff7f"),
            // no text: U+0000, a byte that begins none, a surrogate; binary data may have any bytes
            ("04 03 0001 00", "Spelling"),
            ("04 08 0001 ff", "Spelling"),
            ("06 03 0003 eda080", "Spelling"),
            ("07 26 0001 00 0001 62", "Spelling"),
            ("07 26 0001 61 0001 80", "Spelling"),
            ("04 09 0001 00", "04 09 0001 00"),
        ],
    )
}

// MQTT 2.2.2.2: identifiers are variable byte integers.
#[test]
fn an_identifier_is_one_of_the_table_in_one_byte(rt: HostRuntime) -> Result<(), Fail> {
    check_rows(
        &rt,
        rt.alloc(),
        Holder::Publish,
        &[
            ("01 00", "Unknown"),
            ("02 04 02", "Unknown"),
            ("01 0a", "Unknown"),
            ("01 14", "Unknown"),
            ("01 20", "Unknown"),
            ("01 2b", "Unknown"),
            ("01 7f", "Unknown"),
            // 128, 129, 255, 256, and 257, which is no 1
            ("02 8001", "Unknown"),
            ("03 8101 01", "Unknown"),
            ("02 ff01", "Unknown"),
            ("02 8002", "Unknown"),
            ("03 8102 01", "Unknown"),
            ("04 ffffff7f", "Unknown"),
            // cut, and longer spellings of 0 and 1
            ("01 81", "Spelling"),
            ("02 8000", "Spelling"),
            ("03 8100 01", "Spelling"),
            ("04 ffffffff", "Spelling"),
        ],
    )
}

// Bytes that are 0 or 1 (MQTT 3.1.2.11.6, 3.1.2.11.7, 3.2.2.3.4, 3.2.2.3.5, 3.2.2.3.11 to 3.2.2.3.13, 3.3.2.3.2), and
// what is not 0 (MQTT 3.1.2.11.3, 3.1.2.11.4, 3.3.2.3.8, 3.8.2.1.2). A Topic Alias of 0 has a reason of its own
// (MQTT 3.3.2.3.4).
#[test]
fn values_that_are_not_allowed_are_told(rt: HostRuntime) -> Result<(), Fail> {
    let alloc = rt.alloc();
    check_rows(
        &rt,
        alloc,
        Holder::Publish,
        &[
            ("02 01 00", "02 01 00"),
            ("02 01 02", "BadValue"),
            ("02 0b 00", "BadValue"),
            ("03 23 0000", "03 23 0000"),
            ("05 02 00000000", "05 02 00000000"),
        ],
    )?;
    check_rows(&rt, alloc, Holder::Will, &[("02 01 ff", "BadValue")])?;
    check_rows(&rt, alloc, Holder::Subscribe, &[("02 0b 00", "BadValue")])?;
    check_rows(
        &rt,
        alloc,
        Holder::Connect,
        &[
            ("02 17 02", "BadValue"),
            ("02 19 02", "BadValue"),
            ("03 21 0000", "BadValue"),
            ("03 21 0100", "03 21 0100"),
            ("05 27 00000000", "BadValue"),
        ],
    )?;
    check_rows(
        &rt,
        alloc,
        Holder::Connack,
        &[
            ("02 24 02", "BadValue"),
            ("02 25 02", "BadValue"),
            ("02 28 02", "BadValue"),
            ("02 29 02", "BadValue"),
            ("02 2a 80", "BadValue"),
            ("03 21 0000", "BadValue"),
            ("05 27 01000000", "05 27 01000000"),
        ],
    )
}

#[test]
fn the_first_refusal_in_the_bytes_comes_before_repeated_and_that_before_a_bad_value(
    rt: HostRuntime,
) -> Result<(), Fail> {
    check_rows(
        &rt,
        rt.alloc(),
        Holder::Publish,
        &[
            // Unknown, Misplaced and Spelling by their place; a value is not looked at where the property may not stand
            ("02 04 21", "Unknown"),
            ("02 21 04", "Misplaced"),
            ("05 0b 8100 04 00", "Spelling"),
            ("04 01 01 04 21", "Unknown"),
            ("04 01 01 21 04", "Misplaced"),
            ("01 21", "Misplaced"),
            // behind one that stands twice with a bad value
            ("05 01 02 01 02 04", "Unknown"),
            ("07 01 02 01 02 21 0001", "Misplaced"),
            ("05 01 02 01 02 01", "Spelling"),
            // Repeated, wherever the bad value stands
            ("04 01 02 01 02", "Repeated"),
            ("06 0b 00 01 01 01 01", "Repeated"),
            ("06 01 01 01 01 0b 00", "Repeated"),
            ("08 01 01 23 0001 01 01 04", "Unknown"),
            ("07 01 01 23 0001 01 01", "Repeated"),
            ("04 0b 01 0b 00", "BadValue"),
            ("09 26 0001 61 0001 62 01 02", "BadValue"),
        ],
    )
}
