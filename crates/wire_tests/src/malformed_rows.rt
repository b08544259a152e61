// Packets whose bytes spell none (MQTT 4.13.1, Malformed Packet).
use crate::digits::bytes_of;
use crate::packets::{answer, check_refused};
use std::alloc::Global;
use std::process::Abort;
use std::test::Fail;

// Each of these flags is refused as malformed.
fn check_flags(
    rt: &impl Abort,
    alloc: Global,
    kind: &str,
    refused: &str,
    rest: &str,
) -> Result<(), Fail> {
    for flags in refused.chars() {
        let digits = format!(in alloc; "{kind}{flags}{rest}")?;
        let given = answer(alloc, &digits)?;
        assert_eq!(rt; given.as_str(), "Malformed", "at {digits}");
    }
    Ok(())
}

// Each row is a kind, the flags that it has not, and what stands behind the first byte.
fn check_kinds(rt: &impl Abort, alloc: Global, rows: &[(&str, &str, &str)]) -> Result<(), Fail> {
    for (kind, refused, rest) in rows {
        check_flags(rt, alloc, kind, refused, rest)?;
    }
    Ok(())
}

// MQTT 2.1.3, table 2-2; 3.3.1.
#[test]
fn a_kind_has_its_flags_alone(rt: HostRuntime) -> Result<(), Fail> {
    check_kinds(
        &rt,
        rt.alloc(),
        &[
            ("0", "0123456789abcdef", "00"),
            (
                "1",
                "123456789abcdef",
                "0d 0004 4d515454 05 02 0000 00 0000",
            ),
            ("2", "123456789abcdef", "03 00 00 00"),
            // QoS 3, and DUP with QoS 0
            ("3", "6789ef", "0a 0003 612f62 0007 00 6869"),
            ("4", "123456789abcdef", "02 0007"),
            ("5", "123456789abcdef", "02 0007"),
            ("6", "013456789abcdef", "02 0007"),
            ("7", "123456789abcdef", "02 0007"),
            ("8", "013456789abcdef", "09 0001 00 0003 612f62 01"),
            ("9", "123456789abcdef", "04 0001 00 01"),
            ("a", "013456789abcdef", "08 0001 00 0003 612f62"),
            ("b", "123456789abcdef", "04 0001 00 11"),
            ("c", "123456789abcdef", "00"),
            ("d", "123456789abcdef", "00"),
            ("e", "123456789abcdef", "00"),
            ("f", "123456789abcdef", "00"),
        ],
    )
}

// MQTT 3.1.2.3 to 3.1.2.9, 3.2.2.1, 3.8.3.1.
#[test]
fn reserved_flags_and_options_are_malformed(rt: HostRuntime) -> Result<(), Fail> {
    check_refused(
        &rt,
        rt.alloc(),
        "Malformed",
        &[
            // bit 0 of CONNECT
            "10 0d 0004 4d515454 05 01 0000 00 0000",
            "10 0d 0004 4d515454 05 03 0000 00 0000",
            // Will QoS and Will Retain without a will
            "10 0d 0004 4d515454 05 08 0000 00 0000",
            "10 0d 0004 4d515454 05 10 0000 00 0000",
            "10 0d 0004 4d515454 05 18 0000 00 0000",
            "10 0d 0004 4d515454 05 20 0000 00 0000",
            "10 0d 0004 4d515454 05 22 0000 00 0000",
            // Will QoS 3
            "10 14 0004 4d515454 05 1c 0000 00 0000 00 0001 74 0001 78",
            "10 14 0004 4d515454 05 3e 0000 00 0000 00 0001 74 0001 78",
            // CONNACK
            "20 03 02 00 00",
            "20 03 03 00 00",
            "20 03 80 00 00",
            // subscription options
            "82 09 0001 00 0003 612f62 40",
            "82 09 0001 00 0003 612f62 80",
            "82 09 0001 00 0003 612f62 c1",
            "82 0f 0001 00 0003 612f62 01 0003 632f64 42",
        ],
    )
}

// MQTT 2.2.1.
#[test]
fn no_packet_has_identifier_0(rt: HostRuntime) -> Result<(), Fail> {
    check_refused(
        &rt,
        rt.alloc(),
        "Malformed",
        &[
            "32 08 0003 612f62 0000 00",
            "34 08 0003 612f62 0000 00",
            "40 02 0000",
            "50 02 0000",
            "62 02 0000",
            "70 02 0000",
            "40 03 0000 92",
            "82 09 0000 00 0003 612f62 01",
            "90 04 0000 00 01",
            "a2 08 0000 00 0003 612f62",
            "b0 04 0000 00 00",
        ],
    )
}

// MQTT 1.5.5, 2.1.4.
#[test]
fn a_remaining_length_is_the_one_of_the_rest_in_its_shortest_spelling(
    rt: HostRuntime,
) -> Result<(), Fail> {
    check_refused(
        &rt,
        rt.alloc(),
        "Malformed",
        &[
            "",
            "c0",
            "c0 80",
            // in too many bytes
            "40 8200 0007",
            "40 828000 0007",
            "40 82808000 0007",
            "c0 8000",
            "c0 80808000",
            "c0 8080808000",
            "40 ffffffff7f 0007",
            // too short, and too long
            "40 01 0007",
            "40 00 0007",
            "40 03 0007",
            "40 8001 0007",
            "40 ffffff7f 0007",
            "c0 01",
        ],
    )
}

#[test]
fn a_byte_behind_the_last_field_is_malformed(rt: HostRuntime) -> Result<(), Fail> {
    check_refused(
        &rt,
        rt.alloc(),
        "Malformed",
        &[
            "10 0e 0004 4d515454 05 02 0000 00 0000 00",
            "10 11 0004 4d515454 05 82 0000 00 0000 0001 75 00",
            "20 04 00 00 00 00",
            "40 05 0007 00 00 00",
            "50 05 0007 00 00 00",
            "62 05 0007 00 00 00",
            "70 05 0007 00 00 00",
            "82 0a 0001 00 0003 612f62 01 00",
            "a2 09 0001 00 0003 612f62 00",
            "c0 01 00",
            "d0 01 00",
            "e0 03 00 00 00",
            "f0 03 18 00 00",
        ],
    )
}

// What a first byte and a body behind its length give.
fn sized_answer(alloc: Global, first: &str, body: &[u8]) -> Result<String, Fail> {
    let digits = hex::encode(alloc, body)?;
    let size = body.len();
    answer(alloc, &format!(in alloc; "{first}{size:02x}{digits}")?)
}

// Each beginning of a body is malformed.
fn check_cuts(rt: &impl Abort, alloc: Global, first: &str, body: &[u8]) -> Result<(), Fail> {
    for cut in 0..body.len() {
        let given = sized_answer(alloc, first, &body[..cut])?;
        assert_eq!(rt; given.as_str(), "Malformed", "at {first} with {cut}");
    }
    let whole = sized_answer(alloc, first, body)?;
    assert!(rt; whole.as_str() != "Malformed", "at {first}");
    Ok(())
}

// Kinds whose body has no shorter form (MQTT 3.1 to 3.3, 3.9).
#[test]
fn a_body_that_is_cut_is_malformed(rt: HostRuntime) -> Result<(), Fail> {
    let alloc = rt.alloc();
    let connect = "0004 4d515454 05 ce 000a 05 11 0000000a 0001 63 02 01 01 0001 74 0001 78 \
        0001 75 0001 70";
    check_cuts(&rt, alloc, "10", &bytes_of(alloc, connect)?)?;
    check_cuts(&rt, alloc, "20", &bytes_of(alloc, "00 00 04 1f 0001 61")?)?;
    check_cuts(
        &rt,
        alloc,
        "33",
        &bytes_of(alloc, "0003 612f62 0007 04 08 0001 72")?,
    )?;
    check_cuts(&rt, alloc, "90", &bytes_of(alloc, "0001 04 1f 0001 61")?)
}

// MQTT 3.3.2.1, 3.1.3.3, 4.7.1.
#[test]
fn a_topic_name_has_no_wildcard(rt: HostRuntime) -> Result<(), Fail> {
    check_refused(
        &rt,
        rt.alloc(),
        "Malformed",
        &[
            "30 04 0001 2b 00",
            "30 04 0001 23 00",
            "30 06 0003 612f2b 00",
            "30 06 0003 2b2f61 00",
            "32 08 0003 612f23 0007 00",
            "10 14 0004 4d515454 05 04 0000 00 0000 00 0001 2b 0001 78",
            "10 14 0004 4d515454 05 04 0000 00 0000 00 0001 23 0001 78",
        ],
    )
}

// MQTT 1.5.4: no U+0000, no surrogate, and UTF-8 in its shortest form.
#[test]
fn a_text_that_is_none_is_malformed(rt: HostRuntime) -> Result<(), Fail> {
    check_refused(
        &rt,
        rt.alloc(),
        "Malformed",
        &[
            // topic names: U+0000, overlong, a surrogate, above U+10FFFF, a byte that begins none, one that is cut
            "30 04 0001 00 00",
            "30 06 0003 610062 00",
            "30 05 0002 c080 00",
            "30 06 0003 e080af 00",
            "30 06 0003 eda080 00",
            "30 07 0004 f4908080 00",
            "30 04 0001 80 00",
            "30 04 0001 c3 00",
            // the protocol's name, a client identifier, a will's topic, a user name
            "10 0d 0004 4d5154ff 05 02 0000 00 0000",
            "10 0e 0004 4d515454 05 02 0000 00 0001 00",
            "10 14 0004 4d515454 05 04 0000 00 0000 00 0001 00 0001 78",
            "10 10 0004 4d515454 05 82 0000 00 0000 0001 ff",
            // filters
            "82 07 0001 00 0001 00 00",
            "a2 06 0001 00 0001 00",
            // properties: a Content Type, and either text of a User Property
            "30 08 0001 61 04 03 0001 00",
            "30 0b 0001 61 07 26 0001 00 0001 62",
            "30 0b 0001 61 07 26 0001 61 0001 00",
        ],
    )
}

// MQTT 3.15.2.1: a reason has properties behind it, if only their length. MQTT 3.2, 3.8, 3.10, 3.12: what is cut.
#[test]
fn a_form_that_is_none_is_malformed(rt: HostRuntime) -> Result<(), Fail> {
    check_refused(
        &rt,
        rt.alloc(),
        "Malformed",
        &[
            "f0 01 18",
            "f0 01 00",
            "10 00",
            "20 02 00 00",
            "30 00",
            "40 00",
            "40 01 07",
            "82 02 0001",
            "82 08 0001 00 0003 612f62",
            "82 07 0001 00 0003 612f",
            "a2 02 0001",
            "a2 07 0001 00 0003 612f",
            "b0 02 0001",
            "f0 03 18 01 15",
            // a length of properties that is too long
            "40 04 0007 00 01",
            "e0 02 00 01",
            "20 03 00 00 01",
        ],
    )
}
