// Packets that are read and written again.
use crate::digits::{padded, without_blanks};
use crate::packets::{answer, check_rows, check_same};
use std::alloc::Global;
use std::process::Abort;
use std::test::Fail;

// MQTT 3.1. The fourth row has the variable header of the example in MQTT 3.1.2.12.
#[test]
fn a_connect_has_each_optional_part_or_not(rt: HostRuntime) -> Result<(), Fail> {
    check_same(
        &rt,
        rt.alloc(),
        &[
            "10 0d 0004 4d515454 05 00 0000 00 0000",
            "10 0d 0004 4d515454 05 02 ffff 00 0000",
            "10 13 0004 4d515454 05 00 003c 05 11 00000e10 0001 61",
            "10 20 0004 4d515454 05 ce 000a 05 11 0000000a 0001 63 00 0001 74 0001 78 0001 75 0001 70",
            // user name, password, and both
            "10 10 0004 4d515454 05 82 0000 00 0000 0001 75",
            "10 10 0004 4d515454 05 42 0000 00 0000 0001 70",
            "10 13 0004 4d515454 05 c2 0000 00 0000 0001 75 0001 70",
            "10 11 0004 4d515454 05 c2 0000 00 0000 0000 0000",
            // a will of each QoS, not retained and retained
            "10 14 0004 4d515454 05 04 0000 00 0000 00 0001 74 0001 78",
            "10 14 0004 4d515454 05 0c 0000 00 0000 00 0001 74 0001 78",
            "10 14 0004 4d515454 05 14 0000 00 0000 00 0001 74 0001 78",
            "10 14 0004 4d515454 05 26 0000 00 0000 00 0001 74 0001 78",
            "10 14 0004 4d515454 05 2e 0000 00 0000 00 0001 74 0001 78",
            "10 14 0004 4d515454 05 36 0000 00 0000 00 0001 74 0001 78",
            // a will without bytes, and one beside a user name and beside a password
            "10 13 0004 4d515454 05 04 0000 00 0000 00 0001 74 0000",
            "10 17 0004 4d515454 05 84 0000 00 0000 00 0001 74 0001 78 0001 75",
            "10 17 0004 4d515454 05 44 0000 00 0000 00 0001 74 0001 78 0001 70",
        ],
    )
}

// MQTT 3.3. The second row is the example of MQTT 3.3.2.4.
#[test]
fn a_publish_has_the_flags_that_it_may(rt: HostRuntime) -> Result<(), Fail> {
    check_same(
        &rt,
        rt.alloc(),
        &[
            "30 06 0003 612f62 00",
            "32 08 0003 612f62 000a 00",
            "30 08 0003 612f62 00 6869",
            "31 08 0003 612f62 00 6869",
            "32 0a 0003 612f62 0007 00 6869",
            "33 0a 0003 612f62 0007 00 6869",
            "34 0a 0003 612f62 0007 00 6869",
            "35 0a 0003 612f62 0007 00 6869",
            "3a 0a 0003 612f62 0007 00 6869",
            "3b 0a 0003 612f62 0007 00 6869",
            "3c 0a 0003 612f62 0007 00 6869",
            "3d 0a 0003 612f62 ffff 00 6869",
            // a Topic Alias in place of the topic name (MQTT 3.3.2.3.4)
            "30 06 0000 03 23 0001",
            // U+FEFF stays, and the text of the example in MQTT 1.5.4.1
            "30 06 0003 efbbbf 00",
            "30 08 0005 41f0aa9b94 00",
        ],
    )
}

// MQTT 2.2.2, 3.1.2.11, 3.2.2.3, 3.3.2.3: they come in the order of the standard's sections.
#[test]
fn properties_are_written_by_ascending_identifier(rt: HostRuntime) -> Result<(), Fail> {
    check_rows(
        &rt,
        rt.alloc(),
        &[
            (
                "30 0d 0001 61 09 26 0001 61 0001 62 01 01",
                "30 0d 0001 61 09 01 01 26 0001 61 0001 62",
            ),
            (
                "10 32 0004 4d515454 05 02 003c 24 11 0000000a 21 0014 27 00010000 22 000a 19 01 17 00
                26 0001 61 0001 62 15 0001 6d 16 0002 0102 0001 61",
                "10 32 0004 4d515454 05 02 003c 24 11 0000000a 15 0001 6d 16 0002 0102 17 00 19 01
                21 0014 22 000a 26 0001 61 0001 62 27 00010000 0001 61",
            ),
            (
                "10 1b 0004 4d515454 05 04 0000 00 0000 07 18 00000005 01 01 0001 74 0001 78",
                "10 1b 0004 4d515454 05 04 0000 00 0000 07 01 01 18 00000005 0001 74 0001 78",
            ),
            (
                "20 3f 01 00 3c 11 0000000a 21 0014 24 01 25 00 27 00100000 12 0001 63 22 000a
                1f 0002 6f6b 26 0001 61 0001 62 28 00 29 01 2a 00 13 003c 1a 0001 72 1c 0001 73
                15 0001 6d 16 0000",
                "20 3f 01 00 3c 11 0000000a 12 0001 63 13 003c 15 0001 6d 16 0000 1a 0001 72 1c 0001 73
                1f 0002 6f6b 21 0014 22 000a 24 01 25 00 26 0001 61 0001 62 27 00100000 28 00 29 01
                2a 00",
            ),
            (
                "30 2e 0001 61 2a 01 01 02 0000003c 23 0005 08 0001 72 09 0002 beef 26 0001 62 0001 61
                26 0001 61 0001 62 0b 8001 0b 01 03 0001 74",
                "30 2e 0001 61 2a 01 01 02 0000003c 03 0001 74 08 0001 72 09 0002 beef 0b 8001 0b 01
                23 0005 26 0001 62 0001 61 26 0001 61 0001 62",
            ),
            (
                "82 12 0001 09 26 0001 61 0001 62 0b 07 0003 612f62 2e",
                "82 12 0001 09 0b 07 26 0001 61 0001 62 0003 612f62 2e",
            ),
            (
                "90 0f 0001 0b 26 0001 61 0001 62 1f 0001 61 8f",
                "90 0f 0001 0b 1f 0001 61 26 0001 61 0001 62 8f",
            ),
            (
                "b0 0f 0001 0b 26 0001 61 0001 62 1f 0001 61 00",
                "b0 0f 0001 0b 1f 0001 61 26 0001 61 0001 62 00",
            ),
            (
                "e0 16 9d 14 1c 0001 73 11 0000000a 1f 0001 61 26 0001 61 0001 62",
                "e0 16 9d 14 11 0000000a 1c 0001 73 1f 0001 61 26 0001 61 0001 62",
            ),
            (
                "f0 15 18 13 26 0001 61 0001 62 1f 0001 61 16 0001 01 15 0001 6d",
                "f0 15 18 13 15 0001 6d 16 0001 01 1f 0001 61 26 0001 61 0001 62",
            ),
        ],
    )
}

// MQTT 3.2, 3.8 to 3.13. SUBSCRIBE, SUBACK and UNSUBSCRIBE have the examples of MQTT 3.8.2, 3.8.3, 3.9.3 and 3.10.3.
#[test]
fn the_other_kinds_are_written_as_they_are_read(rt: HostRuntime) -> Result<(), Fail> {
    check_same(
        &rt,
        rt.alloc(),
        &[
            "20 03 00 00 00",
            "20 03 01 00 00",
            "20 03 00 87 00",
            "82 09 0001 00 0003 612f62 01",
            "82 0f 000a 00 0003 612f62 01 0003 632f64 02",
            "82 0b 0001 00 0001 23 00 0001 2b 15",
            "90 04 0001 00 01",
            "90 06 000a 00 00 02 80",
            "a2 08 0001 00 0003 612f62",
            "a2 0d 000a 00 0003 612f62 0003 632f64",
            "a2 0d 0001 07 26 0001 61 0001 62 0001 61",
            "b0 04 0001 00 11",
            "b0 05 000a 00 00 11",
            "c0 00",
            "d0 00",
        ],
    )
}

// What stands behind the first byte (MQTT 3.4.2.1).
const ACK_FORMS: [(&str, &str); 7] = [
    ("02 0007", "02 0007"),
    ("03 0007 00", "02 0007"),
    ("04 0007 00 00", "02 0007"),
    ("03 0007 92", "03 0007 92"),
    ("04 0007 92 00", "03 0007 92"),
    ("08 0007 00 04 1f 0001 61", "08 0007 00 04 1f 0001 61"),
    (
        "0f 0007 92 0b 26 0001 61 0001 62 1f 0001 61",
        "0f 0007 92 0b 1f 0001 61 26 0001 61 0001 62",
    ),
];

// The rows behind this first byte.
fn check_behind(
    rt: &impl Abort,
    alloc: Global,
    first: &str,
    rows: &[(&str, &str)],
) -> Result<(), Fail> {
    for (read, wanted) in rows {
        let read = format!(in alloc; "{first}{read}")?;
        let wanted = without_blanks(alloc, &format!(in alloc; "{first}{wanted}")?)?;
        assert_eq!(rt; answer(alloc, &read)?, wanted, "at {read}");
    }
    Ok(())
}

// PUBACK, PUBREC, PUBREL and PUBCOMP (MQTT 3.4 to 3.7).
#[test]
fn an_acknowledgement_is_written_in_its_shortest_form(rt: HostRuntime) -> Result<(), Fail> {
    check_behind(&rt, rt.alloc(), "40", &ACK_FORMS)?;
    check_behind(&rt, rt.alloc(), "50", &ACK_FORMS)?;
    check_behind(&rt, rt.alloc(), "62", &ACK_FORMS)?;
    check_behind(&rt, rt.alloc(), "70", &ACK_FORMS)
}

// MQTT 3.14.2.1, 3.15.2.1.
#[test]
fn a_disconnect_and_an_auth_are_written_in_their_shortest_form(
    rt: HostRuntime,
) -> Result<(), Fail> {
    check_rows(
        &rt,
        rt.alloc(),
        &[
            ("e0 00", "e0 00"),
            ("e0 01 00", "e0 00"),
            ("e0 02 00 00", "e0 00"),
            ("e0 01 04", "e0 01 04"),
            ("e0 02 04 00", "e0 01 04"),
            ("e0 07 00 05 11 00000000", "e0 07 00 05 11 00000000"),
            ("e0 06 8e 04 1f 0001 61", "e0 06 8e 04 1f 0001 61"),
            ("f0 00", "f0 00"),
            ("f0 02 00 00", "f0 00"),
            ("f0 02 18 00", "f0 02 18 00"),
            ("f0 06 00 04 15 0001 6d", "f0 06 00 04 15 0001 6d"),
            ("f0 06 19 04 15 0001 6d", "f0 06 19 04 15 0001 6d"),
        ],
    )
}

// Each row is the digits in front of a payload, and its bytes.
fn check_padded(rt: &impl Abort, alloc: Global, rows: &[(&str, usize)]) -> Result<(), Fail> {
    for (front, count) in rows {
        let digits = hex::encode(alloc, padded(alloc, front, *count)?)?;
        assert!(rt; answer(alloc, &digits)? == digits, "at {front}");
    }
    Ok(())
}

// A PUBLISH on `a` takes four bytes more than its payload (MQTT 1.5.5, table 1-1).
#[test]
fn a_remaining_length_takes_one_to_four_bytes(rt: HostRuntime) -> Result<(), Fail> {
    check_padded(
        &rt,
        rt.alloc(),
        &[
            ("30 7f 0001 61 00", 123),
            ("30 8001 0001 61 00", 124),
            ("30 ff7f 0001 61 00", 16_379),
            ("30 808001 0001 61 00", 16_380),
            ("30 ffff7f 0001 61 00", 2_097_147),
            ("30 80808001 0001 61 00", 2_097_148),
        ],
    )
}
