// Properties that are taken from a place of a packet, and lists that are changed.
use crate::digits::{behind_one, bytes_of, without_blanks};
use mqtt_props::{
    Holder, MESSAGE_EXPIRY_INTERVAL, Prop, PropRefused, Props, TOPIC_ALIAS, read_bare, read_prop,
    take_blob, take_list, take_name, take_props, write_bare, write_prop,
};
use std::alloc::{AllocError, Global};
use std::process::Abort;
use std::test::Fail;

// What a call takes from a place.
#[derive(Clone, Copy)]
enum Taken {
    List,
    Checked,
    One,
    Text,
    Binary,
}

// A list that may have repeated properties and bad values.
fn list_of(alloc: Global, bytes: &[u8], at: &mut usize) -> Result<Vec<u8>, PropRefused> {
    let props = take_list(alloc, Holder::Publish, bytes, at)?;
    let mut out = Vec::new(alloc);
    write_bare(&props, &mut out)?;
    Ok(out)
}

fn checked_of(alloc: Global, bytes: &[u8], at: &mut usize) -> Result<Vec<u8>, PropRefused> {
    let props = take_props(alloc, Holder::Publish, bytes, at)?;
    let mut out = Vec::new(alloc);
    write_bare(&props, &mut out)?;
    Ok(out)
}

fn one_of(alloc: Global, bytes: &[u8], at: &mut usize) -> Result<Vec<u8>, PropRefused> {
    let prop = read_prop(alloc, Holder::Publish, bytes, at)?;
    let mut out = Vec::new(alloc);
    write_prop(&prop, &mut out)?;
    Ok(out)
}

fn text_of(alloc: Global, bytes: &[u8], at: &mut usize) -> Result<Vec<u8>, PropRefused> {
    let name = take_name(alloc, bytes, at)?;
    let mut out = Vec::new(alloc);
    out.extend_from_slice(name.bytes())?;
    Ok(out)
}

fn binary_of(alloc: Global, bytes: &[u8], at: &mut usize) -> Result<Vec<u8>, PropRefused> {
    let blob = take_blob(alloc, bytes, at)?;
    let mut out = Vec::new(alloc);
    out.extend_from_slice(blob.bytes())?;
    Ok(out)
}

fn given_of(
    alloc: Global,
    taken: Taken,
    bytes: &[u8],
    at: &mut usize,
) -> Result<Vec<u8>, PropRefused> {
    match taken {
        Taken::List => list_of(alloc, bytes, at),
        Taken::Checked => checked_of(alloc, bytes, at),
        Taken::One => one_of(alloc, bytes, at),
        Taken::Text => text_of(alloc, bytes, at),
        Taken::Binary => binary_of(alloc, bytes, at),
    }
}

// What is taken behind a byte as it is written again, and the place behind it; or why nothing was, and the place.
fn answer(alloc: Global, taken: Taken, digits: &str) -> Result<String, Fail> {
    let bytes = behind_one(alloc, digits)?;
    let mut at = 1;
    match given_of(alloc, taken, &bytes, &mut at) {
        Ok(given) => {
            let digits = hex::encode(alloc, given)?;
            Ok(format!(in alloc; "{digits} {at}")?)
        }
        Err(PropRefused::Memory) => Err(Fail::from("out of memory")),
        Err(refused) => Ok(format!(in alloc; "{refused:?} {at}")?),
    }
}

// Each row is digits, and what is taken of them behind a byte.
fn check(rt: &impl Abort, alloc: Global, taken: Taken, rows: &[(&str, &str)]) -> Result<(), Fail> {
    for (digits, wanted) in rows {
        let given = answer(alloc, taken, digits)?;
        assert_eq!(rt; given.as_str(), *wanted, "at {digits}");
    }
    Ok(())
}

#[test]
fn a_list_is_taken_from_its_place_with_all_that_it_has(rt: HostRuntime) -> Result<(), Fail> {
    check(
        &rt,
        rt.alloc(),
        Taken::List,
        &[
            ("00", " 2"),
            ("00 ff", " 2"),
            ("02 01 01 ff", "0101 4"),
            ("04 0b 01 01 01 ff", "01010b01 6"),
            // a bad value, and a property that stands twice
            ("02 01 02 ff", "0102 4"),
            ("04 01 02 01 00 ff", "01020100 6"),
            // a length that is none or passes the end, and what is refused for its bytes
            ("", "Spelling 1"),
            ("8000", "Spelling 1"),
            ("02 01", "Spelling 1"),
            ("02 21 01 01", "Misplaced 1"),
            ("01 04", "Unknown 1"),
            ("01 01 01", "Spelling 1"),
        ],
    )
}

#[test]
fn a_list_is_taken_from_its_place_and_checked(rt: HostRuntime) -> Result<(), Fail> {
    check(
        &rt,
        rt.alloc(),
        Taken::Checked,
        &[
            ("00 ff", " 2"),
            ("02 01 01 ff", "0101 4"),
            ("04 0b 01 01 01 ff", "01010b01 6"),
            ("02 01 02 ff", "BadValue 1"),
            ("04 01 02 01 00 ff", "Repeated 1"),
            ("02 01", "Spelling 1"),
            ("02 21 01 01", "Misplaced 1"),
            ("01 04", "Unknown 1"),
        ],
    )
}

#[test]
fn a_property_is_taken_from_its_place(rt: HostRuntime) -> Result<(), Fail> {
    check(
        &rt,
        rt.alloc(),
        Taken::One,
        &[
            ("01 01 ff", "0101 3"),
            ("26 0001 61 0001 62", "26000161000162 8"),
            // a bad value is read
            ("01 02", "0102 3"),
            ("0b 00", "0b00 3"),
            ("", "Spelling 1"),
            ("01", "Spelling 1"),
            ("26 0001 61", "Spelling 1"),
            ("04 00", "Unknown 1"),
            ("21 0001", "Misplaced 1"),
        ],
    )
}

#[test]
fn a_text_and_binary_data_are_taken_from_their_place(rt: HostRuntime) -> Result<(), Fail> {
    check(
        &rt,
        rt.alloc(),
        Taken::Text,
        &[
            ("0000 ff", " 3"),
            ("0001 61 ff", "61 4"),
            ("0001 00", "Spelling 1"),
            ("0002 ff61", "Spelling 1"),
            ("0002 61", "Spelling 1"),
        ],
    )?;
    check(
        &rt,
        rt.alloc(),
        Taken::Binary,
        &[
            ("0000 ff", " 3"),
            ("0001 61 ff", "61 4"),
            ("0001 00", "00 4"),
            ("0002 ff61", "ff61 5"),
            ("0002 61", "Spelling 1"),
            ("00", "Spelling 1"),
        ],
    )
}

// Whether a list of a PUBLISH may stand in a will, whether a property stands twice, and whether a value is not allowed.
fn told(alloc: Global, digits: &str) -> Result<(bool, bool, bool), Fail> {
    let bytes = bytes_of(alloc, digits)?;
    let mut at = 0;
    let props = take_list(alloc, Holder::Publish, &bytes, &mut at)?;
    let stands = props.all_stand_in(Holder::Will);
    Ok((stands, props.has_repeated(Holder::Publish), props.has_bad()))
}

fn check_told(
    rt: &impl Abort,
    alloc: Global,
    rows: &[(&str, (bool, bool, bool))],
) -> Result<(), Fail> {
    for (digits, wanted) in rows {
        assert_eq!(rt; told(alloc, digits)?, *wanted, "at {digits}");
    }
    Ok(())
}

#[test]
fn a_list_that_was_taken_tells_what_is_wrong(rt: HostRuntime) -> Result<(), Fail> {
    check_told(
        &rt,
        rt.alloc(),
        &[
            ("00", (true, false, false)),
            ("02 01 01", (true, false, false)),
            ("02 01 02", (true, false, true)),
            ("04 01 01 01 01", (true, true, false)),
            ("04 01 02 01 00", (true, true, true)),
            ("03 23 0001", (false, false, false)),
            ("04 0b 01 0b 01", (false, false, false)),
            ("04 0b 01 0b 00", (false, false, true)),
        ],
    )
}

// The digits of a list without its length.
fn digits_of(alloc: Global, props: &Props) -> Result<String, AllocError> {
    let mut out = Vec::new(alloc);
    write_bare(props, &mut out)?;
    hex::encode(alloc, out)
}

#[test]
fn what_is_added_stands_behind_its_equals(rt: HostRuntime) -> Result<(), Fail> {
    let alloc = rt.alloc();
    let mut props = Props::new(alloc);
    props.add(Prop::Two(TOPIC_ALIAS, 1))?;
    props.add(Prop::Var(7))?;
    props.add(Prop::Four(MESSAGE_EXPIRY_INTERVAL, 60))?;
    props.add(Prop::Var(5))?;
    let wanted = "020000003c0b070b05230001";
    assert_eq!(rt; digits_of(alloc, &props)?.as_str(), wanted);
    assert_eq!(rt; props.length(), Some(12));
    Ok(())
}

// MQTT 3.3.2.3: Payload Format Indicator, Content Type, Response Topic, Correlation Data and User Properties go on.
#[test]
fn what_a_server_sends_on_is_kept(rt: HostRuntime) -> Result<(), Fail> {
    let alloc = rt.alloc();
    let bytes = bytes_of(
        alloc,
        "01 01 02 0000003c 03 0001 74 08 0001 72 09 0001 ff 0b 07 23 0001
            26 0001 62 0001 61 26 0001 61 0001 62",
    )?;
    let mut props = read_bare(alloc, Holder::Publish, &bytes)?;
    props.keep_forwarded();
    let wanted = without_blanks(
        alloc,
        "01 01 03 0001 74 08 0001 72 09 0001 ff 26 0001 62 0001 61 26 0001 61 0001 62",
    )?;
    assert_eq!(rt; digits_of(alloc, &props)?, wanted);
    Ok(())
}
