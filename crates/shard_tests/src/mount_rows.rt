// What a shard holds whose disks have these records, and why one is refused.
use crate::disks::{disks_with, text_of};
use std::alloc::Global;
use std::process::Abort;
use std::test::Fail;

fn text_on(alloc: Global, manifest: &str, first: &str, second: &str) -> Option<String> {
    let disks = disks_with(alloc, manifest, first, second)?;
    text_of(alloc, disks).ok()
}

// Rows of the payloads of the manifest's first disk, of the first two slots, and what they hold.
fn check(rt: &impl Abort, alloc: Global, rows: &[(&str, &str, &str, &str)]) -> Result<(), Fail> {
    for (manifest, first, second, held) in rows {
        let text = text_on(alloc, manifest, first, second);
        assert_eq!(rt;
            text.as_deref(),
            Some(*held),
            "at {manifest}, {first} and {second}"
        );
    }
    Ok(())
}

#[test]
fn a_shard_holds_what_its_records_tell(rt: HostRuntime) -> Result<(), Fail> {
    check(
        &rt,
        rt.alloc(),
        &[
            // new disks, with and without their first records
            ("", "", "", "0..0 awaited 0"),
            ("M 01 G0 F8", "", "", "0..0 awaited 0"),
            ("M 01 G0 F8", "O0", "", "0..0 awaited 0"),
            (
                "M 01 G0 F8",
                "O0 | 47 Z8 0001 01 P 0000 01 Z8 HI",
                "",
                "0..1 p#0 q1 a/b 2 awaited 0",
            ),
            // an identifier is awaited until it is released
            (
                "M 01 G0 F8",
                "O0 | 47 Z8 0001 01 P 0005 02 Z8 HI",
                "",
                "0..1 p#5 q2 a/b 2 awaited 1",
            ),
            (
                "M 01 G0 F8",
                "O0 | 47 Z8 0001 01 P 0005 02 Z8 HI | 47 N8 0001 02 P 0005",
                "",
                "0..1 p#5 q2 a/b 2 awaited 0",
            ),
            // two generations, over which an identifier is awaited
            (
                "M 02 G0 N8 N8 01 01 N8 0001 0001 00000003 F8",
                "O0 | 47 Z8 0001 01 P 0005 02 Z8 HI",
                "4f N8 N8 0001 P 0005 | 47 N8 0001 01 P 0000 01 Z8 HI",
                "0..2 p#5 q2 a/b 2 p#0 q1 a/b 2 awaited 1",
            ),
        ],
    )
}

#[test]
fn a_manifest_that_is_damaged_or_another_one_is_refused(rt: HostRuntime) -> Result<(), Fail> {
    check(
        &rt,
        rt.alloc(),
        &[
            // the format is tested first, then whether it is damaged, then the others in turn
            ("N8 02", "", "", "differs: format kept 2 asked 1"),
            ("N8", "", "", "disk 0 damaged at 0"),
            ("M 01 G0", "", "", "disk 0 damaged at 0"),
            ("M 00", "", "", "disk 0 damaged at 0"),
            (
                "N8 01020301 01 G0 F8",
                "",
                "",
                "differs: shards kept 2 asked 1",
            ),
            (
                "N8 01010301 01 G0 F8",
                "",
                "",
                "differs: workers kept 3 asked 1",
            ),
            (
                "N8 01010101 01 G0 F8",
                "",
                "",
                "differs: number kept 1 asked 0",
            ),
            // numbers outside the limits: shards, workers, a slot, thresholds, messages
            ("N8 01000100 01 G0 F8", "", "", "disk 0 damaged at 0"),
            ("N8 01091100 01 G0 F8", "", "", "disk 0 damaged at 0"),
            (
                "M 01 Z8 08 01 Z8 0001 0001 00000003 F8",
                "",
                "",
                "disk 0 damaged at 0",
            ),
            (
                "M 01 Z8 00 01 Z8 0000 0001 00000003 F8",
                "",
                "",
                "disk 0 damaged at 0",
            ),
            (
                "M 01 Z8 00 01 Z8 0001 03e9 00000003 F8",
                "",
                "",
                "disk 0 damaged at 0",
            ),
            (
                "M 01 Z8 00 01 Z8 0001 0001 00008001 F8",
                "",
                "",
                "disk 0 damaged at 0",
            ),
            // a record of another format
            (
                "M 01 Z8 00 02 Z8 0001 0001 00000003 F8",
                "",
                "",
                "disk 0 damaged at 0",
            ),
            // the newest is sealed, and another one isn't
            ("M 01 G0 N8", "", "", "disk 0 damaged at 0"),
            (
                "M 02 G0 F8 N8 01 01 Z8 0001 0001 00000003 F8",
                "",
                "",
                "disk 0 damaged at 0",
            ),
            // numbers that don't go up by one, one slot twice, first offsets that fall
            (
                "M 02 G0 N8 0000000000000002 01 01 Z8 0001 0001 00000003 F8",
                "",
                "",
                "disk 0 damaged at 0",
            ),
            (
                "M 02 G0 N8 N8 00 01 Z8 0001 0001 00000003 F8",
                "",
                "",
                "disk 0 damaged at 0",
            ),
            (
                "M 02 Z8 00 01 N8 0001 0001 00000003 N8 N8 01 01 Z8 0001 0001 00000003 F8",
                "",
                "",
                "disk 0 damaged at 0",
            ),
            // a record behind it
            ("M 01 G0 F8 | 00", "", "", "disk 0 damaged at 52"),
        ],
    )
}

#[test]
fn a_slot_that_is_damaged_is_refused(rt: HostRuntime) -> Result<(), Fail> {
    check(
        &rt,
        rt.alloc(),
        &[
            // an opening that is missing, is none, has another number, another offset, an identifier twice
            (
                "M 01 N8 00 01 Z8 0001 0001 00000003 F8",
                "",
                "",
                "disk 2 damaged at 0",
            ),
            ("M 01 G0 F8", "00", "", "disk 2 damaged at 0"),
            ("M 01 G0 F8", "4f N8 Z8 0000", "", "disk 2 damaged at 0"),
            ("M 01 G0 F8", "4f Z8 N8 0000", "", "disk 2 damaged at 0"),
            (
                "M 01 G0 F8",
                "4f Z8 Z8 0002 P 0005 P 0005",
                "",
                "disk 2 damaged at 0",
            ),
            // one that differs from the end or what is awaited of the generation before
            (
                "M 02 G0 N8 N8 01 01 N8 0001 0001 00000003 F8",
                "O0",
                "4f N8 N8 0000",
                "disk 3 damaged at 0",
            ),
            (
                "M 02 G0 N8 N8 01 01 N8 0001 0001 00000003 F8",
                "O0 | 47 Z8 0001 01 P 0005 02 Z8 HI",
                "4f N8 N8 0000",
                "disk 3 damaged at 0",
            ),
            // a group that is none, and one that doesn't begin at the next offset, also behind another one
            ("M 01 G0 F8", "O0 | 00", "", "disk 2 damaged at 24"),
            (
                "M 01 G0 F8",
                "O0 | 47 N8 0001 01 P 0000 01 Z8 HI",
                "",
                "disk 2 damaged at 24",
            ),
            (
                "M 01 G0 F8",
                "O0 | 47 Z8 0001 01 P 0000 01 Z8 HI | 47 Z8 0001 01 P 0000 01 Z8 HI",
                "",
                "disk 2 damaged at 78",
            ),
            // more messages than the generation takes
            (
                "M 01 G0 F8",
                "O0 | 47 Z8 0004 01 P 0000 01 Z8 HI 01 P 0000 01 Z8 HI 01 P 0000 01 Z8 HI 01 P 0000 01 Z8 HI",
                "",
                "disk 2 damaged at 24",
            ),
            // operations that are left out: of an identifier that is awaited, and of ones that aren't
            (
                "M 01 G0 F8",
                "O0 | 47 Z8 0002 01 P 0005 02 Z8 HI 01 P 0005 02 Z8 HI",
                "",
                "disk 2 damaged at 24",
            ),
            (
                "M 01 G0 F8",
                "O0 | 47 Z8 0001 02 P 0005",
                "",
                "disk 2 damaged at 24",
            ),
            (
                "M 01 G0 F8",
                "O0 | 47 Z8 0001 03 P",
                "",
                "disk 2 damaged at 24",
            ),
        ],
    )
}
