// Bytes that spell no record.
use crate::digits::bytes_of;
use session_codec::{CodecRefused, FIRST_FORMAT, SECOND_FORMAT, read_changes};
use std::alloc::Global;
use std::process::Abort;
use std::test::Fail;

fn check_records(rt: &impl Abort, alloc: Global, rows: &[&str]) -> Result<(), Fail> {
    for row in rows {
        let bytes = bytes_of(alloc, row)?;
        let refused = read_changes(alloc, &bytes, 1, SECOND_FORMAT).err();
        assert_eq!(rt; refused, Some(CodecRefused::Bad), "at {row}");
    }
    Ok(())
}

#[test]
fn what_is_no_record_is_refused(rt: HostRuntime) -> Result<(), Fail> {
    check_records(
        &rt,
        rt.alloc(),
        &[
            "",
            // no changes, one that isn't there, and bytes behind the last
            "0000",
            "0001",
            "0001 02 A 00",
            "0002 02 A",
            // no such kind, and a client that is cut
            "0001 00 A",
            "0001 0d A",
            "0001 02 0002 61",
            // the first format of a session that begins, and a window of three bytes
            "0001 01 A N8 00000e10",
            "0001 01 A N8 00000e10 020000",
            // the greatest moment
            "0001 04 A 00000007 ffffffffffffffff",
            // no sweep, and two of them, where there is one shard
            "0001 05 A 00000001 00000001 01 Z4 AB",
            "0001 05 A 00000001 00000001 01 Z4 AB SWEEP SWEEP",
            // a filter that is none
            "0001 05 A 00000001 00000001 01 Z4 0002 2361 SWEEP",
            "0001 05 A 00000001 00000001 01 Z4 0000 SWEEP",
        ],
    )
}

#[test]
fn a_record_of_the_first_format_has_no_window(rt: HostRuntime) -> Result<(), Fail> {
    let bytes = bytes_of(rt.alloc(), "0001 01 A N8 00000e10")?;
    assert_eq!(rt; read_changes(rt.alloc(), &bytes, 1, FIRST_FORMAT)?.len(), 1);
    Ok(())
}
