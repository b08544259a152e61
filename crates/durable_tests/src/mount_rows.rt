// What a journal holds whose disks have these records, and why one is refused.
use crate::disks::{disk_with, text_of};
use std::alloc::Global;
use std::process::Abort;
use std::test::Fail;

fn text_on(alloc: Global, first: &str, second: &str) -> Option<String> {
    let first = disk_with(alloc, first)?;
    let second = disk_with(alloc, second)?;
    text_of(alloc, first, second).ok()
}

// Rows of the payloads of the first disk, those of the second one, and what they hold.
fn check(rt: &impl Abort, alloc: Global, rows: &[(&str, &str, &str)]) -> Result<(), Fail> {
    for (first, second, held) in rows {
        let text = text_on(alloc, first, second);
        assert_eq!(rt; text.as_deref(), Some(*held), "at {first} and {second}");
    }
    Ok(())
}

#[test]
fn a_journal_holds_what_its_records_tell(rt: HostRuntime) -> Result<(), Fail> {
    check(
        &rt,
        rt.alloc(),
        &[
            ("", "", "next 1"),
            ("N8 02010100 N8 Z4", "", "next 1"),
            (
                "N8 02010100 N8 Z4 | 0001 01 A N8 00000e10 0200",
                "",
                "a1 3600 - 1/1 0/0 0/0/0, next 2",
            ),
            // the first format has no window
            (
                "N8 01010100 N8 Z4 | 0001 01 A N8 00000e10",
                "",
                "a1 3600 - 1/1 0/0 0/0/0, next 2",
            ),
            // the later epoch counts, on either disk
            (
                "N8 02010100 N8 Z4 | 0001 01 A N8 00000e10 0200",
                "0000000000000002 02010100 0000000000000007 Z4",
                "next 7",
            ),
            (
                "0000000000000003 02010100 0000000000000008 Z4 | 0001 01 B 0000000000000008 00000e10 0200",
                "0000000000000002 02010100 0000000000000007 Z4",
                "b8 3600 - 1/1 0/0 0/0/0, next 9",
            ),
        ],
    )
}

#[test]
fn a_journal_of_another_kind_or_with_a_bad_record_is_refused(rt: HostRuntime) -> Result<(), Fail> {
    check(
        &rt,
        rt.alloc(),
        &[
            // the format is tested first, then whether it is damaged, then the others in turn
            ("N8 03", "", "differs: format kept 3 asked 2"),
            ("N8", "", "disk 10 damaged at 0"),
            ("N8 02", "", "disk 10 damaged at 0"),
            ("N8 02030405 N8", "", "disk 10 damaged at 0"),
            ("N8 02030405 N8 Z4", "", "differs: shards kept 3 asked 1"),
            ("N8 02010405 N8 Z4", "", "differs: workers kept 4 asked 1"),
            ("N8 02010105 N8 Z4", "", "differs: number kept 5 asked 0"),
            // no record of changes, one whose change doesn't fit, and the first of two
            ("N8 02010100 N8 Z4 | 00", "", "disk 10 damaged at 29"),
            ("N8 02010100 N8 Z4 | 0001 02 A", "", "disk 10 damaged at 29"),
            ("N8 02010100 N8 Z4 | 00 | 00", "", "disk 10 damaged at 29"),
            (
                "N8 02010100 N8 Z4 | 0001 01 A N8 00000e10 0200 | 0002 02 A 02 A",
                "",
                "disk 10 damaged at 54",
            ),
            // a record of the other format
            (
                "N8 01010100 N8 Z4 | 0001 01 A N8 00000e10 0200",
                "",
                "disk 10 damaged at 29",
            ),
            // on the disk that counts
            (
                "N8 02010100 N8 Z4",
                "0000000000000002 02",
                "disk 11 damaged at 0",
            ),
            (
                "N8 02",
                "0000000000000002 02010100 N8 Z4 | 00",
                "disk 11 damaged at 29",
            ),
        ],
    )
}
