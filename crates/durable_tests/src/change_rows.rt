// Each change as its record, which is read and written again.
use crate::digits::bytes_of;
use session_codec::{SECOND_FORMAT, read_changes, write_changes};
use std::alloc::Global;
use std::process::Abort;
use std::test::Fail;

// What is written of the record that is read, where there is one shard.
fn again(alloc: Global, bytes: &[u8]) -> Result<Vec<u8>, Fail> {
    let changes = read_changes(alloc, bytes, 1, SECOND_FORMAT)?;
    let mut out = Vec::new(alloc);
    write_changes(&changes, 1, &mut out)?;
    Ok(out)
}

fn check(rt: &impl Abort, alloc: Global, rows: &[&str]) -> Result<(), Fail> {
    for row in rows {
        let bytes = bytes_of(alloc, row)?;
        assert_eq!(rt; again(alloc, &bytes)?, bytes, "at {row}");
    }
    Ok(())
}

#[test]
fn each_change_is_read_and_written_again(rt: HostRuntime) -> Result<(), Fail> {
    check(
        &rt,
        rt.alloc(),
        &[
            // the first record of a connect
            "0001 01 0001 61 0000000000000001 00000e10 0200",
            "0001 01 A ffffffffffffffff ffffffff 0800",
            "0001 02 A",
            "0001 03 A 00000007",
            "0001 04 A 00000007 fffffffffffffffe",
            "0001 05 A 00000001 00000001 01 0000000a AB SWEEP",
            "0001 06 A 00000001 00000002 01 Z4",
            "0001 07 A 00000001",
            "0001 08 A 00000001 00000001 00 Z8 00000002 0000000000000003 0000000000000004 ffffffff N8 0001 N8 0000 \
             Z8 Z8 0000000000000004 00000002 0000000000000004",
            "0001 09 A N8",
            "0001 0a A N8",
            "0001 0b A N8",
            "0001 0c A 02 N8",
            // two of them, of two clients
            "0002 02 A 02 B",
        ],
    )
}
