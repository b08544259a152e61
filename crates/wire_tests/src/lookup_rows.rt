// Properties by their names, and what holds without them.
use crate::digits::bytes_of;
use mqtt_props::{Holder, Props, read_bare};
use std::alloc::{AllocError, Global};
use std::process::Abort;
use std::test::Fail;
use topic_name::{Blob, Name};

// A property whose value is a number, by its identifier.
fn number_of(identifier: u8, props: &Props) -> Option<u32> {
    match identifier {
        0x01 => Some(u32::from(props.payload_format())),
        0x02 => props.message_expiry(),
        0x0b => props.subscription_identifier(),
        0x11 => props.session_expiry(),
        0x13 => props.server_keep_alive().map(u32::from),
        0x17 => Some(u32::from(props.problem_information())),
        0x18 => Some(props.will_delay()),
        0x19 => Some(u32::from(props.response_information_asked())),
        0x21 => Some(u32::from(props.receive_maximum())),
        0x22 => Some(u32::from(props.topic_alias_maximum())),
        0x23 => props.topic_alias().map(u32::from),
        0x24 => Some(u32::from(props.maximum_qos())),
        0x25 => Some(u32::from(props.retain_available())),
        0x27 => props.maximum_packet_size(),
        0x28 => Some(u32::from(props.wildcards_available())),
        0x29 => Some(u32::from(props.identifiers_available())),
        0x2a => Some(u32::from(props.shared_available())),
        _ => None,
    }
}

// Each row is what the list stands in, an identifier, its property with a value, the value, and what holds without the
// property.
fn check_numbers(
    rt: &impl Abort,
    alloc: Global,
    rows: &[(Holder, u8, &str, u32, Option<u32>)],
) -> Result<(), Fail> {
    let none = Props::new(alloc);
    for (holder, identifier, digits, value, default) in rows {
        let props = read_bare(alloc, *holder, &bytes_of(alloc, digits)?)?;
        let given = (
            number_of(*identifier, &props),
            number_of(*identifier, &none),
        );
        assert_eq!(rt; given, (Some(*value), *default), "at {digits}");
    }
    Ok(())
}

// MQTT 3.1.2.11, 3.1.3.2, 3.2.2.3, 3.3.2.3.
#[test]
fn a_number_is_found_or_its_default_holds(rt: HostRuntime) -> Result<(), Fail> {
    check_numbers(
        &rt,
        rt.alloc(),
        &[
            (Holder::Publish, 0x01, "01 01", 1, Some(0)),
            (Holder::Publish, 0x02, "02 0000003c", 60, None),
            (Holder::Publish, 0x0b, "0b 8001 0b 01", 128, None),
            (Holder::Connect, 0x11, "11 0000000a", 10, None),
            (Holder::Connack, 0x13, "13 003c", 60, None),
            (Holder::Connect, 0x17, "17 00", 0, Some(1)),
            (Holder::Will, 0x18, "18 00000005", 5, Some(0)),
            (Holder::Connect, 0x19, "19 01", 1, Some(0)),
            (Holder::Connect, 0x21, "21 0014", 20, Some(65_535)),
            (Holder::Connect, 0x22, "22 000a", 10, Some(0)),
            (Holder::Publish, 0x23, "23 0102", 258, None),
            (Holder::Connack, 0x24, "24 01", 1, Some(2)),
            (Holder::Connack, 0x25, "25 00", 0, Some(1)),
            (Holder::Connack, 0x27, "27 00010000", 65_536, None),
            (Holder::Connack, 0x28, "28 00", 0, Some(1)),
            (Holder::Connack, 0x29, "29 00", 0, Some(1)),
            (Holder::Connack, 0x2a, "2a 00", 0, Some(1)),
        ],
    )
}

// A property whose value is a text or binary data, by its identifier.
fn bytes_in(identifier: u8, props: &Props) -> Option<&[u8]> {
    match identifier {
        0x03 => props.content_type().map(Name::bytes),
        0x08 => props.response_topic().map(Name::bytes),
        0x09 => props.correlation_data().map(Blob::bytes),
        0x12 => props.assigned_client().map(Name::bytes),
        0x15 => props.authentication_method().map(Name::bytes),
        0x16 => props.authentication_data().map(Blob::bytes),
        0x1a => props.response_information().map(Name::bytes),
        0x1c => props.server_reference().map(Name::bytes),
        0x1f => props.reason_string().map(Name::bytes),
        _ => None,
    }
}

// The digits of a text or of binary data.
fn digits_of(alloc: Global, identifier: u8, props: &Props) -> Result<String, AllocError> {
    match bytes_in(identifier, props) {
        Some(bytes) => hex::encode(alloc, bytes),
        None => format!(in alloc; "none"),
    }
}

// Each row is what the list stands in, an identifier, its property, and the digits of its value.
fn check_texts(
    rt: &impl Abort,
    alloc: Global,
    rows: &[(Holder, u8, &str, &str)],
) -> Result<(), Fail> {
    let none = Props::new(alloc);
    for (holder, identifier, digits, wanted) in rows {
        let props = read_bare(alloc, *holder, &bytes_of(alloc, digits)?)?;
        let given = digits_of(alloc, *identifier, &props)?;
        assert_eq!(rt; given.as_str(), *wanted, "at {digits}");
        assert!(rt; bytes_in(*identifier, &none).is_none(), "at {digits}");
    }
    Ok(())
}

#[test]
fn a_text_is_found_or_there_is_none(rt: HostRuntime) -> Result<(), Fail> {
    check_texts(
        &rt,
        rt.alloc(),
        &[
            (Holder::Publish, 0x03, "03 0001 74", "74"),
            (Holder::Publish, 0x08, "08 0003 612f62", "612f62"),
            (Holder::Publish, 0x09, "09 0002 00ff", "00ff"),
            (Holder::Connack, 0x12, "12 0001 63", "63"),
            (Holder::Connect, 0x15, "15 0001 6d", "6d"),
            (Holder::Connect, 0x16, "16 0001 80", "80"),
            (Holder::Connack, 0x1a, "1a 0000", ""),
            (Holder::Connack, 0x1c, "1c 0001 73", "73"),
            (Holder::Puback, 0x1f, "1f 0002 6f6b", "6f6b"),
        ],
    )
}
