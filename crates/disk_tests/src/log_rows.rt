// A log whose calls fail, each in turn, and every image of each of these moments.
ghost use Rattle.std.specs.Prelude.{◌≡◌, ◌<◌, IfSome};
ghost use Rattle.gated_log.specs.PlainLog.{AtRest};

use crate::logs::{LIMIT, add, all_of, disk_of, is_fault, list_after, mounted, text_of};
use disk_memory::MemoryDisk;
use gated_log::{Draft, Log, LogRefused, Settled};
use outside::Disk;
use std::alloc::Global;
use std::test::Fail;

// The list that a letter stands for.
fn listed(letter: u8) -> &'static [u8] {
    match letter {
        b'a' => b"a/",
        b'x' => b"a/X/",
        b'X' => b"X/",
        _ => b"",
    }
}

// A log with the record a.
fn with_one(alloc: Global) -> Option<Log<MemoryDisk>>
    ensures { IfSome result (λ log. log.standing ≡ AtRest) }
{
    let mut log = mounted(alloc, MemoryDisk::new(alloc))?;
    if !add(alloc, &mut log, b"a") {
        return None;
    }
    Some(log)
}

// Each row is the call of a commit of X that fails, 0 for none, and the list of each image.
#[test]
fn a_crash_inside_a_commit_leaves_the_list_before_or_after(rt: HostRuntime) -> Result<(), Fail> {
    let rows: [(u32, [u8; 5]); 5] = [
        (0, *b"xxxxx"),
        (1, *b"aaaaa"),
        (2, *b"aaaaa"),
        (3, *b"axaxx"),
        (4, *b"axaxx"),
    ];
    for (failing, letters) in rows {
        for (image, letter) in letters.iter().enumerate() {
            let list = listed(*letter).to_vec(rt.alloc())?;
            assert_eq!(rt; after_commit(rt.alloc(), failing, image as u8), Some(list));
        }
    }
    Ok(())
}

fn after_commit(alloc: Global, failing: u32, image: u8) -> Option<Vec<u8>> {
    let mut log = with_one(alloc)?;
    log.arm(0, failing).ok()?;
    if add(alloc, &mut log, b"X") != (failing == 0) {
        return None;
    }
    list_after(alloc, log.disk(), image)
}

// Each row is the call of a commit that fails, the call of its settle that fails, the answer, and the list of each image.
#[test]
fn a_doubt_ends_by_what_the_gate_reads(rt: HostRuntime) -> Result<(), Fail> {
    let rows: [(u32, u32, u8, [u8; 5]); 12] = [
        (1, 0, b'O', *b"aaaaa"),
        (2, 0, b'O', *b"aaaaa"),
        (3, 0, b'O', *b"aaaaa"),
        (4, 0, b'I', *b"xxxxx"),
        (1, 1, b'?', *b"aaaaa"),
        (2, 1, b'?', *b"aaaaa"),
        (3, 1, b'?', *b"axaxx"),
        (4, 1, b'?', *b"axaxx"),
        (1, 2, b'?', *b"aaaaa"),
        (2, 2, b'?', *b"aaaaa"),
        (3, 2, b'?', *b"aaaaa"),
        (4, 2, b'?', *b"xxxxx"),
    ];
    for (failing, settling, answer, letters) in rows {
        for (image, letter) in letters.iter().enumerate() {
            let list = listed(*letter).to_vec(rt.alloc())?;
            let settled = after_settle(rt.alloc(), failing, settling, image as u8);
            assert_eq!(rt; settled, Some((answer, list)));
        }
    }
    Ok(())
}

fn after_settle(alloc: Global, failing: u32, settling: u32, image: u8) -> Option<(u8, Vec<u8>)> {
    let mut log = with_one(alloc)?;
    log.arm(0, failing).ok()?;
    let _ = add(alloc, &mut log, b"X");
    if !log.doubt() {
        return None;
    }
    log.arm(0, settling).ok()?;
    let answer = match log.settle() {
        Ok(Settled::In) => b'I',
        Ok(Settled::Out) => b'O',
        Err(_) => b'?',
    };
    Some((answer, list_after(alloc, log.disk(), image)?))
}

// Each row is the call of a restart that fails, of a log whose first gate is open, and the list of each image. A restart
// that failed may be tried again.
#[test]
fn a_crash_inside_a_restart_leaves_the_old_list_or_none(rt: HostRuntime) -> Result<(), Fail> {
    let rows: [(u32, [u8; 5]); 5] = [
        (0, *b"     "),
        (1, *b"aaaaa"),
        (2, *b"aaaaa"),
        (3, *b"a aaa"),
        (4, *b"a aaa"),
    ];
    for (failing, letters) in rows {
        for (image, letter) in letters.iter().enumerate() {
            let list = listed(*letter).to_vec(rt.alloc())?;
            assert_eq!(rt; after_restart(rt.alloc(), failing, image as u8), Some(list));
        }
    }
    Ok(())
}

fn after_restart(alloc: Global, failing: u32, image: u8) -> Option<Vec<u8>> {
    let mut log = with_one(alloc)?;
    log.arm(0, failing).ok()?;
    if log.restart().is_ok() != (failing == 0) {
        return None;
    }
    let list = list_after(alloc, log.disk(), image)?;
    log.restart().ok()?;
    if log.count() != 0 || log.disk().starved() {
        return None;
    }
    Some(list)
}

// Each row is the bytes of a disk, the call of its mount that fails, and the list that every image has then, by a letter.
#[test]
fn a_mount_that_fails_hands_the_disk_back_and_keeps_the_list(rt: HostRuntime) -> Result<(), Fail> {
    let whole: [u8; 7] = [1, 0, 0, 0, 1, 0x58, 0];
    for failing in 1..4 {
        for image in 0..5 {
            let list = after_mount(rt.alloc(), &whole, failing, image);
            assert_eq!(rt; list, Some(listed(b'X').to_vec(rt.alloc())?));
        }
    }
    // the gate behind the record is missing, so the record isn't there, and its own gate is closed
    for failing in 1..6 {
        for image in 0..5 {
            let list = after_mount(rt.alloc(), &whole[..6], failing, image);
            assert_eq!(rt; list, Some(listed(b' ').to_vec(rt.alloc())?));
        }
    }
    // an empty disk has no gate yet
    for failing in 1..4 {
        for image in 0..5 {
            let list = after_mount(rt.alloc(), &[], failing, image);
            assert_eq!(rt; list, Some(listed(b' ').to_vec(rt.alloc())?));
        }
    }
    Ok(())
}

fn after_mount(alloc: Global, bytes: &[u8], failing: u32, image: u8) -> Option<Vec<u8>> {
    let mut disk = disk_of(alloc, bytes)?;
    disk.arm(failing).ok()?;
    match Log::mount(alloc, disk, LIMIT) {
        Ok(_) => None,
        Err((disk, refused)) => {
            if !is_fault(refused) {
                return None;
            }
            list_after(alloc, &disk, image)
        }
    }
}

#[test]
fn a_log_leaves_these_bytes_and_is_full_at_its_limit(rt: HostRuntime) -> Result<(), Fail> {
    let alloc = rt.alloc();
    let draft = Draft::of(b"X".to_vec(alloc)?)?;
    let Ok(mut log) = Log::mount(alloc, MemoryDisk::new(alloc), 7) else {
        assert!(rt; false);
        return Ok(());
    };
    log.reserve()?;
    assert!(rt; log.fits(&draft));
    assert_eq!(rt; log.end(), 0);
    assert_eq!(rt; log.commit(&draft), Ok(()));
    log.reserve()?;
    assert_eq!(rt; log.end(), 6);
    assert!(rt; !log.fits(&draft));
    assert_eq!(rt; log.commit(&draft), Err(LogRefused::Full));
    assert_eq!(rt; log.limit(), 7);
    assert_eq!(rt; text_of(alloc, &mut log), Some(b"X/".to_vec(alloc)?));
    let mut disks = Vec::new(alloc);
    disks.reserve(1)?;
    log.disks(&mut disks);
    let mut disk = match disks.pop() {
        Some(disk) => disk,
        None => MemoryDisk::new(alloc),
    };
    let bytes = all_of(alloc, &mut disk);
    assert_eq!(rt; bytes, Some(vec![in alloc; 1, 0, 0, 0, 1, 0x58, 0]?));
    let mut empty = mounted(alloc, MemoryDisk::new(alloc)).map(|log| log.into_disk());
    let bytes = empty.as_mut().and_then(|disk| all_of(alloc, disk));
    assert_eq!(rt; bytes, Some(vec![in alloc; 0]?));
    Ok(())
}

// Each row is how many bytes there are of a disk with the records 58 and 59 5A, and the list that is there.
#[test]
fn a_log_is_mounted_from_every_length_of_its_disk(rt: HostRuntime) -> Result<(), Fail> {
    let alloc = rt.alloc();
    let bytes: [u8; 14] = [1, 0, 0, 0, 1, 0x58, 1, 0, 0, 0, 2, 0x59, 0x5a, 0];
    for length in 0..15 {
        let list = if length == 14 {
            b"X/YZ/".to_vec(alloc)?
        } else if length > 6 {
            b"X/".to_vec(alloc)?
        } else {
            Vec::new(alloc)
        };
        assert_eq!(rt; list_of_length(alloc, &bytes, length), Some(list));
    }
    Ok(())
}

// The list of so many bytes, which a second mount reads too, and which a restart ends.
fn list_of_length(alloc: Global, bytes: &[u8], length: usize) -> Option<Vec<u8>> {
    let disk = disk_of(alloc, &bytes[..length.min(bytes.len())])?;
    let mut log = mounted(alloc, disk)?;
    let list = text_of(alloc, &mut log)?;
    let mut again = mounted(alloc, log.into_disk())?;
    if text_of(alloc, &mut again)? != list {
        return None;
    }
    again.restart().ok()?;
    if again.count() != 0 {
        return None;
    }
    Some(list)
}

// The failure of a call that comes after a crash is named before it.
#[test]
fn a_mount_of_an_image_fails_at_a_call_that_was_named_before(rt: HostRuntime) -> Result<(), Fail> {
    let alloc = rt.alloc();
    assert_eq!(rt; named_before(alloc, 5), Some(false));
    assert_eq!(rt; named_before(alloc, 7), Some(false));
    assert_eq!(rt; named_before(alloc, 8), Some(true));
    Ok(())
}

// Whether an image is mounted, of a log whose commit made four calls, where this call was named before them. The mount is
// a sync, a header and a gate.
fn named_before(alloc: Global, call: u32) -> Option<bool> {
    let mut log = mounted(alloc, MemoryDisk::new(alloc))?;
    log.arm(0, call).ok()?;
    if !add(alloc, &mut log, b"X") {
        return None;
    }
    let disk = log.into_disk().crash(1).ok()?;
    match Log::mount(alloc, disk, LIMIT) {
        Ok(_) => Some(true),
        Err((_, refused)) => { if is_fault(refused) { Some(false) } else { None } }
    }
}
