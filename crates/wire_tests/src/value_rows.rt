// What stands in the fields of packets that were read.
use crate::digits::{bytes_of, without_blanks};
use mqtt_packet::read;
use std::alloc::Global;
use std::process::Abort;
use std::test::Fail;

// The fields of a packet.
fn fields_of(alloc: Global, digits: &str) -> Result<String, Fail> {
    let packet = read(alloc, &bytes_of(alloc, digits)?)?;
    let shown = format!(in alloc; "{packet:?}");
    drop(packet);
    Ok(without_blanks(alloc, &shown?)?)
}

// Each row is a packet and its fields.
fn check(rt: &impl Abort, alloc: Global, rows: &[(&str, &str)]) -> Result<(), Fail> {
    for (digits, wanted) in rows {
        let wanted = without_blanks(alloc, wanted)?;
        assert_eq!(rt; fields_of(alloc, digits)?, wanted, "at {digits}");
    }
    Ok(())
}

// Two bytes of 0102 are 258.
#[test]
fn each_kind_has_the_fields_that_its_bytes_spell(rt: HostRuntime) -> Result<(), Fail> {
    check(
        &rt,
        rt.alloc(),
        &[
            (
                "10 0d 0004 4d515454 05 02 0000 00 0000",
                r#"Connect { clean: true, keep_alive: 0, props: Props { list: [] }, client: Name { text: "" },
                will: None, user: None, password: None }"#,
            ),
            (
                "10 20 0004 4d515454 05 f4 0102 03 21 0014 0001 63 02 01 01 0001 74 0001 78 0001 75 0001 70",
                r#"Connect { clean: false, keep_alive: 258, props: Props { list: [Two(33, 20)] },
                client: Name { text: "c" }, will: Some(Will { qos: 2, retain: true,
                props: Props { list: [Byte(1, 1)] }, topic: Name { text: "t" },
                payload: Blob { shared: b"x" } }), user: Some(Name { text: "u" }),
                password: Some(Blob { shared: b"p" }) }"#,
            ),
            (
                "20 06 01 87 03 13 003c",
                "Connack { present: true, reason: 135, props: Props { list: [Two(19, 60)] } }",
            ),
            (
                "30 04 0001 61 00",
                r#"Publish { dup: false, qos: 0, retain: false, topic: Name { text: "a" }, id: 0,
                props: Props { list: [] }, payload: Blob { shared: b"" } }"#,
            ),
            (
                "3d 11 0003 612f62 0102 07 02 0000003c 0b 07 6869",
                r#"Publish { dup: true, qos: 2, retain: true, topic: Name { text: "a/b" }, id: 258,
                props: Props { list: [Four(2, 60), Var(7)] }, payload: Blob { shared: b"hi" } }"#,
            ),
            (
                "40 08 0102 10 04 1f 0001 61",
                r#"Puback { id: 258, reason: 16, props: Props { list: [Text(31, Name { text: "a" })] } }"#,
            ),
            (
                "50 02 0007",
                "Pubrec { id: 7, reason: 0, props: Props { list: [] } }",
            ),
            (
                "62 03 0007 92",
                "Pubrel { id: 7, reason: 146, props: Props { list: [] } }",
            ),
            (
                "70 04 0007 92 00",
                "Pubcomp { id: 7, reason: 146, props: Props { list: [] } }",
            ),
            (
                "82 11 0102 02 0b 07 0003 612f62 01 0003 632f64 2e",
                r#"Subscribe { id: 258, props: Props { list: [Var(7)] }, filters: [
                Wish { filter: Name { text: "a/b" }, options: 1 },
                Wish { filter: Name { text: "c/d" }, options: 46 }] }"#,
            ),
            (
                "90 05 0102 00 01 80",
                r#"Suback { id: 258, props: Props { list: [] }, reasons: Blob { shared: b"\x01\x80" } }"#,
            ),
            (
                "a2 14 0102 07 26 0001 61 0001 62 0003 612f62 0003 632f64",
                r#"Unsubscribe { id: 258, props: Props { list: [
                Pair(Name { text: "a" }, Name { text: "b" })] },
                filters: [Name { text: "a/b" }, Name { text: "c/d" }] }"#,
            ),
            (
                "b0 05 0102 00 11 8f",
                r#"Unsuback { id: 258, props: Props { list: [] }, reasons: Blob { shared: b"\x11\x8f" } }"#,
            ),
            ("c0 00", "Pingreq"),
            ("d0 00", "Pingresp"),
            (
                "e0 07 04 05 11 0000000a",
                "Disconnect { reason: 4, props: Props { list: [Four(17, 10)] } }",
            ),
            (
                "f0 0a 18 08 15 0001 6d 16 0001 ff",
                r#"Auth { reason: 24, props: Props { list: [Text(21, Name { text: "m" }),
                Bin(22, Blob { shared: b"\xff" })] } }"#,
            ),
        ],
    )
}
