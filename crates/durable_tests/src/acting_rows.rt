// What each change makes of sessions, and which one doesn't fit.
use crate::digits::bytes_of;
use crate::shown::shown;
use session_codec::{SECOND_FORMAT, read_changes};
use session_state::{Sessions, act};
use std::alloc::Global;
use std::process::Abort;
use std::test::Fail;

// Lets each record's changes act, and gives a letter for each, whether it fitted.
fn act_on(alloc: Global, sessions: &mut Sessions, words: &str) -> Result<String, Fail> {
    let bytes = bytes_of(alloc, words)?;
    let mut letters = String::new(alloc);
    for change in &read_changes(alloc, &bytes, 1, SECOND_FORMAT)? {
        let fits = act(sessions, change)?;
        letters.push(if fits { 'y' } else { 'n' })?;
    }
    Ok(letters)
}

// Rows of a record, the letters, and the sessions behind it.
fn check(rt: &impl Abort, alloc: Global, rows: &[(&str, &str, &str)]) -> Result<(), Fail> {
    let mut sessions = Sessions::new(alloc);
    for (words, letters, then) in rows {
        assert_eq!(rt;
            &*act_on(alloc, &mut sessions, words)?,
            *letters,
            "at {words}"
        );
        assert_eq!(rt; &*shown(alloc, &sessions)?, *then, "behind {words}");
        assert_eq!(rt;
            &*shown(alloc, &sessions.copy()?)?,
            *then,
            "a copy behind {words}"
        );
    }
    Ok(())
}

#[test]
fn sessions_begin_part_and_end(rt: HostRuntime) -> Result<(), Fail> {
    check(
        &rt,
        rt.alloc(),
        &[
            // only the next number begins, and only of a client that has none
            ("0001 01 A 0000000000000002 00000007 0200", "n", "next 1"),
            (
                "0001 01 A N8 00000007 0200",
                "y",
                "a1 7 - 1/1 0/0 0/0/0, next 2",
            ),
            (
                "0001 01 A 0000000000000002 00000007 0200",
                "n",
                "a1 7 - 1/1 0/0 0/0/0, next 2",
            ),
            // a window that there isn't
            (
                "0001 01 B 0000000000000002 00000009 0201",
                "n",
                "a1 7 - 1/1 0/0 0/0/0, next 2",
            ),
            (
                "0001 01 B 0000000000000002 00000009 0800",
                "y",
                "a1 7 - 1/1 0/0 0/0/0, b2 9 - 1/1 0/0 0/0/0, next 3",
            ),
            (
                "0002 04 A 00000008 0000000000000064 03 B 0000000a",
                "yy",
                "a1 8 100 1/1 0/0 0/0/0, b2 10 - 1/1 0/0 0/0/0, next 3",
            ),
            (
                "0001 03 A 00000003",
                "y",
                "a1 3 - 1/1 0/0 0/0/0, b2 10 - 1/1 0/0 0/0/0, next 3",
            ),
            ("0002 02 A 02 A", "yn", "b2 10 - 1/1 0/0 0/0/0, next 3"),
        ],
    )
}

#[test]
fn subscriptions_come_and_go(rt: HostRuntime) -> Result<(), Fail> {
    check(
        &rt,
        rt.alloc(),
        &[
            (
                "0001 01 A N8 00000000 0200",
                "y",
                "a1 0 - 1/1 0/0 0/0/0, next 2",
            ),
            // another number, and another version
            (
                "0001 05 A 00000002 00000001 01 Z4 AB SWEEP",
                "n",
                "a1 0 - 1/1 0/0 0/0/0, next 2",
            ),
            (
                "0001 05 A 00000001 00000002 01 Z4 AB SWEEP",
                "n",
                "a1 0 - 1/1 0/0 0/0/0, next 2",
            ),
            (
                "0001 05 A 00000001 00000001 01 Z4 AB SWEEP",
                "y",
                "a1 0 - 2/2 0/0 0/0/0 s1+v1@0 v1:1, next 2",
            ),
            // the old version goes, as nothing names it
            (
                "0001 06 A 00000001 00000002 02 Z4",
                "y",
                "a1 0 - 2/3 0/0 0/0/0 s1+v2@0 v2:2, next 2",
            ),
            (
                "0002 06 A 00000002 00000003 02 Z4 06 A 00000001 00000002 02 Z4",
                "nn",
                "a1 0 - 2/3 0/0 0/0/0 s1+v2@0 v2:2, next 2",
            ),
            (
                "0002 07 A 00000001 07 A 00000001",
                "yn",
                "a1 0 - 2/3 0/0 0/0/0, next 2",
            ),
        ],
    )
}

#[test]
fn what_is_issued_is_acknowledged(rt: HostRuntime) -> Result<(), Fail> {
    check(
        &rt,
        rt.alloc(),
        &[
            (
                "0002 01 A N8 00000000 0200 05 A 00000001 00000001 02 Z4 AB SWEEP",
                "yy",
                "a1 0 - 2/2 0/0 0/0/0 s1+v1@0 v1:2, next 2",
            ),
            // two on track 1 and three on track 2
            (
                "0001 08 A 00000001 00000001 00 Z8 00000000 Z8 0000000000000005 ffffffff N8 0002 N8 0003 \
                 Z8 Z8 0000000000000005 00000000 0000000000000005",
                "y",
                "a1 0 - 2/2 0/2 0/0/3 s1+v1@5 v1:2 b0-5, next 2",
            ),
            // a batch whose numbers don't go on
            (
                "0001 08 A 00000001 00000001 00 Z8 00000000 0000000000000005 0000000000000006 ffffffff N8 0001 \
                 0000000000000004 0000 Z8 Z8 0000000000000006 00000000 0000000000000006",
                "n",
                "a1 0 - 2/2 0/2 0/0/3 s1+v1@5 v1:2 b0-5, next 2",
            ),
            // behind what was given, and behind the mark
            (
                "0003 09 A 0000000000000003 0a A 0000000000000004 0b A N8",
                "nnn",
                "a1 0 - 2/2 0/2 0/0/3 s1+v1@5 v1:2 b0-5, next 2",
            ),
            // 1 was passed over
            (
                "0001 0a A 0000000000000002",
                "y",
                "a1 0 - 2/2 0/2 1/2/3 s1+v1@5 v1:2 b0-5, next 2",
            ),
            (
                "0002 0a A 0000000000000003 0b A 0000000000000003",
                "yy",
                "a1 0 - 2/2 0/2 1/3/3 d3 s1+v1@5 v1:2 b0-5, next 2",
            ),
            (
                "0002 0b A 0000000000000003 0b A 0000000000000002",
                "ny",
                "a1 0 - 2/2 0/2 3/3/3 s1+v1@5 v1:2 b0-5, next 2",
            ),
            // an ended subscription is kept while its batch is
            (
                "0001 07 A 00000001",
                "y",
                "a1 0 - 2/2 0/2 3/3/3 s1-v1 v1:2 b0-5, next 2",
            ),
            (
                "0001 09 A N8",
                "y",
                "a1 0 - 2/2 1/2 3/3/3 s1-v1 v1:2 b0-5, next 2",
            ),
            (
                "0001 0c A 01 0000000000000002",
                "y",
                "a1 0 - 2/2 2/2 3/3/3, next 2",
            ),
        ],
    )
}
