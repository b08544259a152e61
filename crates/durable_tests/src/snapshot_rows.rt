// A snapshot with all that there can be in one, read and written again, and each of its facts broken once.
use crate::digits::bytes_of;
use crate::shown::shown;
use session_codec::{CodecRefused, read_snapshot, write_snapshot};
use std::alloc::{AllocError, Global};
use std::process::Abort;
use std::test::Fail;

// Each field by a name. Client `a` has a live subscription and an ended one, a version of each, and a batch of each
// version; of its numbers 1 and 2 of track 1 and 2 and 4 of track 2 are unfinished. Client `b` has nothing.
const SNAPSHOT: &str =
    "format=02 shards=01 workers=01 worker=00 next=0000000000000003 count=00000002 \
    client=000161 incarnation=0000000000000001 expiry=00000e10 window=0200 parted=ffffffffffffffff \
    next_sub=00000003 next_version=00000003 \
    issued1=0000000000000002 acked=0000000000000000 issued2=0000000000000004 received=0000000000000003 \
    complete=0000000000000001 done_count=0001 done=0000000000000003 \
    subs=0002 \
    sub=00000001 live=01 version=00000001 filter=0003612f62 generation=0000000000000000 base=0000000000000000 \
    target=0000000000000007 stream=00000000 position=0000000000000007 \
    ended=00000002 ended_live=00 ended_version=00000002 ended_filter=000163 ended_sweep= \
    versions=0002 \
    v1=00000001 v1_sub=00000001 v1_options=02 v1_identifier=00000000 \
    v2=00000002 v2_sub=00000002 v2_options=01 v2_identifier=0000000a \
    batches=0002 \
    b1_version=00000001 b1_shard=00 b1_generation=0000000000000000 b1_stream=00000000 b1_from=0000000000000000 \
    b1_to=0000000000000005 b1_limit=ffffffff b1_first1=0000000000000001 b1_count1=0001 \
    b1_first2=0000000000000001 b1_count2=0003 \
    b2_version=00000002 b2_shard=00 b2_generation=0000000000000000 b2_stream=00000000 b2_from=0000000000000005 \
    b2_to=0000000000000007 b2_limit=ffffffff b2_first1=0000000000000002 b2_count1=0001 \
    b2_first2=0000000000000004 b2_count2=0001 \
    client2=000162 incarnation2=0000000000000002 expiry2=00000009 window2=0800 parted2=0000000000000064 \
    next_sub2=00000001 next_version2=00000001 \
    tracks2=00000000000000000000000000000000000000000000000000000000000000000000000000000000 done2=0000 \
    subs2=0000 versions2=0000 batches2=0000 behind=";

const TEXT: &str =
    "a1 3600 - 3/3 0/2 1/3/4 d3 s1+v1@7 s2-v2 v1:2 v2:1 b0-5 b5-7, b2 9 100 1/1 0/0 0/0/0, next 3";

// The digits that a row gives a field; None where it leaves the field as it is.
fn given<'a>(row: &'a str, field: &str) -> Option<&'a str> {
    for word in row.split_whitespace() {
        if let Some((name, digits)) = word.split_once('=') {
            if name == field {
                return Some(digits);
            }
        }
    }
    None
}

// The digits of the snapshot, with those of a row in their fields.
fn with_fields(alloc: Global, row: &str) -> Result<String, AllocError> {
    let mut text = String::new(alloc);
    for word in SNAPSHOT.split_whitespace() {
        if let Some((name, digits)) = word.split_once('=') {
            text.push_str(given(row, name).unwrap_or(digits))?;
        }
    }
    Ok(text)
}

fn snapshot_of(alloc: Global, row: &str) -> Result<Vec<u8>, Fail> {
    let digits = with_fields(alloc, row)?;
    let bytes = bytes_of(alloc, &digits)?;
    Ok(bytes)
}

// What is written of the snapshot that is read, and its sessions in short words.
fn again(alloc: Global, bytes: &[u8]) -> Result<(Vec<u8>, String), Fail> {
    let read = read_snapshot(alloc, bytes)?;
    let mut out = Vec::new(alloc);
    write_snapshot(
        read.shards,
        read.workers,
        read.worker,
        &read.sessions,
        &mut out,
    )?;
    let text = shown(alloc, &read.sessions)?;
    Ok((out, text))
}

fn check_refused(rt: &impl Abort, alloc: Global, rows: &[&str]) -> Result<(), Fail> {
    for row in rows {
        let bytes = snapshot_of(alloc, row)?;
        let refused = read_snapshot(alloc, &bytes).err();
        assert_eq!(rt; refused, Some(CodecRefused::Bad), "at {row}");
    }
    Ok(())
}

#[test]
fn a_snapshot_is_read_and_written_again(rt: HostRuntime) -> Result<(), Fail> {
    let bytes = snapshot_of(rt.alloc(), "")?;
    let (out, text) = again(rt.alloc(), &bytes)?;
    assert_eq!(rt; out, bytes);
    assert_eq!(rt; &*text, TEXT);
    Ok(())
}

#[test]
fn a_snapshot_of_the_first_format_is_written_in_the_second(rt: HostRuntime) -> Result<(), Fail> {
    let bytes = snapshot_of(rt.alloc(), "format=01 window= window2=")?;
    let (out, text) = again(rt.alloc(), &bytes)?;
    assert_eq!(rt; out, snapshot_of(rt.alloc(), "window2=0200")?);
    assert_eq!(rt; &*text, TEXT);
    Ok(())
}

#[test]
fn a_snapshot_that_breaks_a_fact_is_refused(rt: HostRuntime) -> Result<(), Fail> {
    check_refused(
        &rt,
        rt.alloc(),
        &[
            // no such format, and a byte behind the last
            "format=00",
            "format=03",
            "behind=00",
            // a number that isn't below the next one
            "next=0000000000000002",
            "next_sub=00000002",
            "next_version=00000002",
            // marks past what was given, and past what was received
            "acked=0000000000000003",
            "received=0000000000000005",
            "complete=0000000000000004",
            // the number behind `complete` isn't done, nor is one past what was received
            "done=0000000000000002",
            "done=0000000000000004",
            // names that nothing has
            "v1_sub=00000003",
            "version=00000003",
            "b1_version=00000003 next_version=00000004",
            // a batch of no shard, without offsets, and with a number past the last
            "b1_shard=01",
            "b1_to=0000000000000000",
            "b2_count1=0002",
            // an unfinished number in no batch, and in two
            "b2_count2=0000",
            "b2_first2=0000000000000003 b2_count2=0002",
            // a finished batch, a version that nothing names, an ended subscription without a version
            "acked=0000000000000002 issued2=0000000000000003 b2_count2=0000",
            "b2_version=00000001",
            "v2_sub=00000001",
            // an ended subscription with a sweep, and a flag that is none
            "ended_sweep=000000000000000000000000000000000000000000000000000000000000000000000000",
            "live=02",
            // numbers that don't ascend
            "ended=00000001",
            "v2=00000001",
            // a window that there isn't, and one that is passed
            "window=0201",
            "issued1=0000000000000202 b2_count1=0201",
            // sessions of one client, of one number, and the newer one in front
            "client2=000161",
            "incarnation2=0000000000000001",
            "incarnation=0000000000000002 incarnation2=0000000000000001",
        ],
    )
}
