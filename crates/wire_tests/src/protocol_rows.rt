// Packets of another version, and packets that break a rule of the protocol (MQTT 4.13.1, Protocol Error).
use crate::packets::{check_refused, check_rows, check_same};
use std::test::Fail;

// MQTT 3.1.2.1, 3.1.2.2.
#[test]
fn another_protocol_or_version_comes_before_all_else(rt: HostRuntime) -> Result<(), Fail> {
    check_rows(
        &rt,
        rt.alloc(),
        &[
            ("10 0d 0004 4d515454 03 02 0000 00 0000", "Version"),
            ("10 0d 0004 4d515454 04 02 0000 00 0000", "Version"),
            ("10 0d 0004 4d515454 06 02 0000 00 0000", "Version"),
            ("10 0d 0004 4d515454 85 02 0000 00 0000", "Version"),
            // a CONNECT of MQTT 3.1 on `a`, and its name with version 5
            ("10 0f 0006 4d5149736470 03 02 003c 0001 61", "Version"),
            ("10 0f 0006 4d5149736470 05 02 003c 0001 61", "Version"),
            // a CONNECT of MQTT 3.1.1 on `a`
            ("10 0d 0004 4d515454 04 02 003c 0001 61", "Version"),
            // `mqtt`, `MQTTT`, `MQT` and no name
            ("10 07 0004 6d717474 05", "Version"),
            ("10 08 0005 4d51545454 05", "Version"),
            ("10 06 0003 4d5154 05", "Version"),
            ("10 03 0000 05", "Version"),
            // no flags, and what spells nothing behind the version
            ("10 07 0004 4d515454 04", "Version"),
            ("10 08 0004 4d515454 04 ff", "Version"),
            ("10 0d 0004 4d515454 04 01 0000 00 0000", "Version"),
            // neither name nor version is known
            ("10 07 0004 4d515454 05", "Malformed"),
            ("10 06 0004 4d515454", "Malformed"),
            ("10 05 0004 4d5154", "Malformed"),
            ("10 07 0004 4d5154ff 04", "Malformed"),
            // another first byte, and another length
            ("11 07 0004 4d515454 04", "Malformed"),
            ("10 08 0004 4d515454 04", "Malformed"),
            ("10 06 0004 4d515454 04", "Malformed"),
            ("10 8700 0004 4d515454 04", "Malformed"),
        ],
    )
}

// MQTT 2.2.2.2, and 3.8.2.1.2 for the Subscription Identifier of a SUBSCRIBE.
#[test]
fn rule_4_a_property_stands_once(rt: HostRuntime) -> Result<(), Fail> {
    check_refused(
        &rt,
        rt.alloc(),
        "Protocol(4)",
        &[
            "10 17 0004 4d515454 05 02 0000 0a 11 00000001 11 00000001 0000",
            "10 1e 0004 4d515454 05 04 0000 00 0000 0a 18 00000001 18 00000001 0001 74 0001 78",
            "20 07 00 00 04 25 01 25 01",
            "30 07 0000 04 01 01 01 01",
            "30 0b 0000 08 01 01 0b 01 0b 02 01 00",
            "40 0c 0007 00 08 1f 0001 61 1f 0001 61",
            "50 0c 0007 00 08 1f 0001 61 1f 0001 61",
            "62 0c 0007 00 08 1f 0001 61 1f 0001 61",
            "70 0c 0007 00 08 1f 0001 61 1f 0001 61",
            "82 0d 0001 04 0b 01 0b 01 0003 612f62 01",
            "90 0c 0001 08 1f 0001 61 1f 0001 62 00",
            "b0 0c 0001 08 1f 0001 61 1f 0001 62 00",
            "e0 0a 00 08 1f 0001 61 1f 0001 61",
            "f0 0a 18 08 15 0001 6d 15 0001 6d",
        ],
    )
}

// MQTT 3.1.2.11.8 and with each list: User Properties; MQTT 3.3.2.3.8: Subscription Identifiers of a PUBLISH.
#[test]
fn what_may_stand_twice_breaks_no_rule(rt: HostRuntime) -> Result<(), Fail> {
    check_same(
        &rt,
        rt.alloc(),
        &[
            "10 1b 0004 4d515454 05 02 0000 0e 26 0001 61 0001 62 26 0001 61 0001 62 0000",
            "30 07 0000 04 0b 01 0b 01",
            "30 11 0000 0e 26 0001 61 0001 62 26 0001 61 0001 62",
            "62 12 0007 00 0e 26 0001 61 0001 62 26 0001 61 0001 62",
            "82 17 0001 0e 26 0001 61 0001 62 26 0001 61 0001 62 0003 612f62 01",
            "a2 14 0001 0e 26 0001 61 0001 62 26 0001 61 0001 62 0001 61",
            "e0 10 00 0e 26 0001 61 0001 62 26 0001 61 0001 62",
        ],
    )
}

// MQTT 3.1.2.11, 3.2.2.3, 3.3.2.3.2, 3.3.2.3.8, 3.8.2.1.2.
#[test]
fn rule_5_a_property_has_a_value_that_is_allowed(rt: HostRuntime) -> Result<(), Fail> {
    check_refused(
        &rt,
        rt.alloc(),
        "Protocol(5)",
        &[
            "10 10 0004 4d515454 05 02 0000 03 21 0000 0000",
            "10 12 0004 4d515454 05 02 0000 05 27 00000000 0000",
            "10 0f 0004 4d515454 05 02 0000 02 17 02 0000",
            "10 0f 0004 4d515454 05 02 0000 02 19 02 0000",
            "10 16 0004 4d515454 05 04 0000 00 0000 02 01 02 0001 74 0001 78",
            "20 06 00 00 03 21 0000",
            "20 08 00 00 05 27 00000000",
            "20 05 00 00 02 24 02",
            "20 05 00 00 02 25 02",
            "20 05 00 00 02 28 02",
            "20 05 00 00 02 29 02",
            "20 05 00 00 02 2a ff",
            "30 05 0000 02 01 02",
            "30 05 0000 02 0b 00",
            "82 0b 0001 02 0b 00 0003 612f62 01",
        ],
    )
}

// MQTT 3.1.2.11.10; 3.3.2.3.5 and 3.1.3.2.6; 3.8.3 and 3.10.3; 3.8.3.1.
#[test]
fn rules_6_7_10_and_11_are_told_one_by_one(rt: HostRuntime) -> Result<(), Fail> {
    check_rows(
        &rt,
        rt.alloc(),
        &[
            (
                "10 11 0004 4d515454 05 02 0000 03 16 0000 0001 61",
                "Protocol(6)",
            ),
            ("30 07 0000 04 08 0001 2b", "Protocol(7)"),
            ("30 07 0000 04 08 0001 23", "Protocol(7)"),
            ("30 09 0000 06 08 0003 612f23", "Protocol(7)"),
            (
                "10 18 0004 4d515454 05 04 0000 00 0000 04 08 0001 2b 0001 74 0001 78",
                "Protocol(7)",
            ),
            ("82 03 0001 00", "Protocol(10)"),
            ("82 05 0001 02 0b 07", "Protocol(10)"),
            ("a2 03 0001 00", "Protocol(10)"),
            // QoS 3, Retain Handling 3, both, and behind another filter
            ("82 09 0001 00 0003 612f62 03", "Protocol(11)"),
            ("82 09 0001 00 0003 612f62 2f", "Protocol(11)"),
            ("82 09 0001 00 0003 612f62 30", "Protocol(11)"),
            ("82 09 0001 00 0003 612f62 3f", "Protocol(11)"),
            (
                "82 0f 0001 00 0003 612f62 00 0003 632f64 03",
                "Protocol(11)",
            ),
        ],
    )
}

#[test]
fn the_least_rule_that_is_broken_is_told(rt: HostRuntime) -> Result<(), Fail> {
    check_rows(
        &rt,
        rt.alloc(),
        &[
            // 4 before 5, also in the will
            ("30 07 0000 04 01 02 01 02", "Protocol(4)"),
            (
                "10 21 0004 4d515454 05 04 0000 03 21 0000 0000 0a 18 00000001 18 00000001
                0001 74 0001 78",
                "Protocol(4)",
            ),
            // 4 before 7, 10 and 11
            ("30 0b 0000 08 08 0001 61 08 0001 2b", "Protocol(4)"),
            ("82 07 0001 04 0b 01 0b 01", "Protocol(4)"),
            ("82 0d 0001 04 0b 01 0b 01 0003 612f62 03", "Protocol(4)"),
            // 5 before 6, in the will, before 7, 10 and 11
            (
                "10 19 0004 4d515454 05 04 0000 03 16 0000 0000 02 01 02 0001 74 0001 78",
                "Protocol(5)",
            ),
            ("30 09 0000 06 08 0001 2b 01 02", "Protocol(5)"),
            ("82 05 0001 02 0b 00", "Protocol(5)"),
            ("82 0b 0001 02 0b 00 0003 612f62 03", "Protocol(5)"),
            // 6 before 7
            (
                "10 1b 0004 4d515454 05 04 0000 03 16 0000 0000 04 08 0001 2b 0001 74 0001 78",
                "Protocol(6)",
            ),
            // a User Property that stands twice breaks no rule
            (
                "82 11 0001 0e 26 0001 61 0001 62 26 0001 61 0001 62",
                "Protocol(10)",
            ),
        ],
    )
}

#[test]
fn what_is_malformed_breaks_no_rule(rt: HostRuntime) -> Result<(), Fail> {
    check_refused(
        &rt,
        rt.alloc(),
        "Malformed",
        &[
            // a property that stands twice, and behind it one that does not stand there, one that the standard does not
            // have, and one that is cut
            "30 0a 0000 07 01 01 01 01 21 0001",
            "30 08 0000 05 01 02 01 02 04",
            "30 08 0000 05 01 02 01 02 01",
            // a property that stands twice, and no client identifier; a byte behind the last field
            "10 15 0004 4d515454 05 02 0000 0a 11 00000001 11 00000001",
            "40 0d 0007 00 08 1f 0001 61 1f 0001 61 00",
            // a bad value, and a wildcard in the topic name, options that are reserved, identifier 0
            "30 06 0001 2b 02 01 02",
            "82 0b 0001 02 0b 00 0003 612f62 40",
            "82 0b 0000 02 0b 00 0003 612f62 00",
            // Authentication Data alone, and no client identifier
            "10 0e 0004 4d515454 05 02 0000 03 16 0000",
            // no filter, and identifier 0; QoS 3, and behind it options that are reserved
            "82 03 0000 00",
            "82 0f 0001 00 0003 612f62 03 0003 632f64 40",
        ],
    )
}
