// Acknowledgements that are put into five bytes (MQTT 3.4 to 3.7).
use crate::packets::check_same;
use mqtt_packet::{AckKind, write_ack};
use std::alloc::{AllocError, Global};
use std::process::Abort;
use std::test::Fail;

// The digits of five bytes that were aa, and how many are the packet.
fn put(alloc: Global, kind: AckKind, id: u16, reason: u8) -> Result<String, AllocError> {
    let mut out = [0xaa; 5];
    let size = write_ack(kind, id, reason, &mut out);
    let digits = hex::encode(alloc, out.as_slice())?;
    format!(in alloc; "{digits} {size}")
}

// Each row is a kind, an identifier, a reason, and the digits.
fn check(rt: &impl Abort, alloc: Global, rows: &[(AckKind, u16, u8, &str)]) -> Result<(), Fail> {
    for (kind, id, reason, wanted) in rows {
        let given = put(alloc, *kind, *id, *reason)?;
        assert_eq!(rt; given.as_str(), *wanted, "at {id} and {reason}");
    }
    Ok(())
}

#[test]
fn an_acknowledgement_takes_four_or_five_bytes_and_the_others_stay(
    rt: HostRuntime,
) -> Result<(), Fail> {
    check(
        &rt,
        rt.alloc(),
        &[
            (AckKind::Puback, 7, 0, "40020007aa 4"),
            (AckKind::Puback, 7, 0x10, "4003000710 5"),
            (AckKind::Puback, 65_535, 0xff, "4003ffffff 5"),
            (AckKind::Pubrec, 1, 0, "50020001aa 4"),
            (AckKind::Pubrec, 258, 0x97, "5003010297 5"),
            (AckKind::Pubrel, 7, 0, "62020007aa 4"),
            (AckKind::Pubrel, 7, 0x92, "6203000792 5"),
            (AckKind::Pubcomp, 65_535, 0, "7002ffffaa 4"),
            (AckKind::Pubcomp, 256, 1, "7003010001 5"),
        ],
    )
}

#[test]
fn the_same_bytes_are_written_of_a_packet(rt: HostRuntime) -> Result<(), Fail> {
    check_same(
        &rt,
        rt.alloc(),
        &[
            "40020007",
            "4003000710",
            "4003ffffff",
            "50020001",
            "5003010297",
            "62020007",
            "6203000792",
            "7002ffff",
            "7003010001",
        ],
    )
}
