// Each record as its bytes, which are read and written again.
use crate::digits::bytes_of;
use record_codec::{
    read_group, read_manifest, read_opening, write_group, write_manifest, write_opening,
};
use std::alloc::Global;
use std::process::Abort;
use std::test::Fail;

// What is written of the record that is read, by its first byte.
fn again(alloc: Global, bytes: &[u8]) -> Result<Vec<u8>, Fail> {
    let mut out = Vec::new(alloc);
    match bytes.first() {
        Some(0x47) => {
            let group = read_group(alloc, bytes)?;
            write_group(&group, &mut out)?;
        }
        Some(0x4F) => {
            let opening = read_opening(alloc, bytes)?;
            write_opening(&opening, &mut out)?;
        }
        _ => {
            let manifest = read_manifest(alloc, bytes)?;
            write_manifest(&manifest, &mut out)?;
        }
    }
    Ok(out)
}

// Rows of a record and its length.
fn check(rt: &impl Abort, alloc: Global, rows: &[(&str, usize)]) -> Result<(), Fail> {
    for (row, length) in rows {
        let bytes = bytes_of(alloc, row)?;
        assert_eq!(rt; bytes.len(), *length, "at {row}");
        assert_eq!(rt; again(alloc, &bytes)?, bytes, "at {row}");
    }
    Ok(())
}

#[test]
fn each_record_is_read_and_written_again(rt: HostRuntime) -> Result<(), Fail> {
    check(
        &rt,
        rt.alloc(),
        &[
            // the first publish
            ("47 Z8 0001 01 P 0000 01 Z8 HI", 49),
            // one of QoS 2 that expires, with a Payload Format Indicator
            (
                "47 0000000000000007 0001 04 P 0005 02 0000000000000fa0 0000000a 0003612f62 000000020101 000000026869",
                55,
            ),
            // a Release, and a Forget in front of two Stores
            ("47 N8 0001 02 P 0005", 25),
            ("47 N8 0003 03 P 01 P 0000 01 Z8 HI 01 P 0006 02 Z8 HI", 99),
            // openings without and with what is awaited
            ("O0", 19),
            ("4f N8 0000000000000002 0002 P 0005 P 0006", 45),
            // a manifest of one generation, and of two
            ("01010100 01 G0 F8", 39),
            (
                "01020301 02 0000000000000004 07 01 Z8 0064 000a 00000002 N8 0000000000000005 00 01 0000000000000002 0064 000a 00000002 F8",
                73,
            ),
        ],
    )
}
