// A shard whose calls fail, each in turn, and every image of each of these moments.
ghost use Rattle.std.specs.Prelude.{◌≡◌, ◌<◌, IfSome, [], ◌∷◌, length};
ghost use Rattle.record_codec.specs.declared.group.Op.TheVariants.{Store};
ghost use Rattle.shard_log.specs.Appending.{IsShown};
ghost use Rattle.shard_tests.specs.Published.{hello};

use crate::disks::{ONE, begun, new_disks, text_after};
use bytes::Bytes;
use disk_memory::MemoryDisk;
use record_codec::Op;
use shard_log::ShardLog;
use std::alloc::Global;
use std::process::Abort;
use std::test::Fail;
use topic_name::{Blob, Body, Message, Name, Topic};

// Before the append, and behind it.
pub(crate) const BEFORE: &str = "0..0 awaited 0";

pub(crate) const AFTER: &str = "0..1 p#0 q1 a/b 2 awaited 0";

fn hello(alloc: Global) -> Option<Message>
    ensures { IfSome result (λ message. message ≡ hello) }
{
    let publisher = Name::of(alloc, "p").ok()?;
    let Ok(topic) = Topic::read(alloc, "a/b") else {
        return None;
    };
    let body = Bytes::copy_from_slice(alloc, b"hi").ok()?;
    Some(Message {
        offset: 0,
        publisher,
        incarnation: 2,
        id: 0,
        qos: 1,
        stamp: 0,
        expiry: None,
        topic,
        props: Blob::empty(),
        body: Body::Here(body),
    })
}

pub(crate) fn group(alloc: Global) -> Option<Vec<Op>>
    ensures { IfSome result (λ ops. ops.items ≡ Store hello ∷ []) }
{
    let message = hello(alloc)?;
    let mut ops = Vec::new(alloc);
    ops.push(Op::Store(message)).ok()?;
    Some(ops)
}

// A shard to which a message is appended while a call fails on the disk of its first slot, 0 for none; the disks then.
fn appended(alloc: Global, failing: u32) -> Option<Vec<MemoryDisk>> {
    let mut log = begun(alloc)?;
    let ops = group(alloc)?;
    log.arm(2, failing).ok()?;
    let stored = log.append(&ops, 0).is_ok();
    if stored != (failing == 0) {
        return None;
    }
    Some(log.into_disks())
}

// What the letter o or n stands for.
fn held_by(letter: u8) -> &'static str {
    if letter == b'o' { BEFORE } else { AFTER }
}

fn after_append(alloc: Global, failing: u32, image: u8) -> Option<String> {
    let disks = appended(alloc, failing)?;
    text_after(alloc, &disks, image)
}

// Each row is the call of an append that fails, 0 for none, and what each image holds: o before it, n after it. The images are those
// of `MemoryDisk::crash` in order: of what wasn't synced nothing, all, the first half, bytes A5, bytes 01.
#[test]
fn a_crash_inside_an_append_leaves_the_list_before_or_after(rt: HostRuntime) -> Result<(), Fail> {
    let rows: [(u32, [u8; 5]); 5] = [
        (0, *b"nnnnn"),
        (1, *b"ooooo"),
        (2, *b"ooooo"),
        (3, *b"ononn"),
        (4, *b"ononn"),
    ];
    for (failing, letters) in rows {
        for (image, letter) in letters.iter().enumerate() {
            let held = after_append(rt.alloc(), failing, image as u8);
            assert_eq!(rt;
                held.as_deref(),
                Some(held_by(*letter)),
                "at {failing} and {image}"
            );
        }
    }
    Ok(())
}

// New disks, of which one fails at a call.
fn failing_disks(alloc: Global, place: usize, failing: u32) -> Option<Vec<MemoryDisk>>
    ensures { IfSome result (λ disks. length disks.items ≡ 10) }
{
    let mut disks = new_disks(alloc)?;
    if let Some(disk) = disks.get_mut(place) {
        disk.fail_at(failing).ok()?;
    }
    Some(disks)
}

// The disks that a mount of new disks leaves of which one fails at a call, and whether it was mounted.
fn mounted(alloc: Global, place: usize, failing: u32) -> Option<(bool, Vec<MemoryDisk>)> {
    let disks = failing_disks(alloc, place, failing)?;
    match ShardLog::mount(alloc, disks, ONE, 0, 0) {
        Ok(log) => Some((true, log.into_disks())),
        Err((disks, _)) => Some((false, disks)),
    }
}

// What an image holds then, none inside where the call that fails is behind the last of the mount.
fn after_mount(alloc: Global, place: usize, failing: u32, image: u8) -> Option<Option<String>> {
    let (done, disks) = mounted(alloc, place, failing)?;
    if done {
        return Some(None);
    }
    let text = text_after(alloc, &disks, image)?;
    Some(Some(text))
}

// Each call of a mount of new disks fails in turn on one of them, and the one behind the last.
fn check_mount(rt: &impl Abort, alloc: Global, place: usize, calls: u32) -> Result<(), Fail>
    requires { calls < 100 }
{
    for failing in 1..=calls {
        for image in 0..5 {
            let held = after_mount(alloc, place, failing, image);
            let Some(Some(text)) = held else {
                assert!(rt; false, "at {place}, {failing} and {image}");
                return Ok(());
            };
            assert_eq!(rt; &*text, BEFORE, "at {place}, {failing} and {image}");
        }
    }
    let behind = after_mount(alloc, place, calls + 1, 0);
    assert!(rt; matches!(behind, Some(None)), "at {place}");
    Ok(())
}

// An empty log is mounted by three calls, a record is committed by four, and read by one; of the manifest its epoch is read too. The
// manifest's first disk and the first slot get a record.
#[test]
fn a_crash_inside_a_mount_of_new_disks_leaves_a_new_shard(rt: HostRuntime) -> Result<(), Fail> {
    for (place, calls) in [(0, 9), (1, 3), (2, 8), (3, 3), (9, 3)] {
        check_mount(&rt, rt.alloc(), place, calls)?;
    }
    Ok(())
}
