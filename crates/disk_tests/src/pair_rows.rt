// A pair of logs whose calls fail, each in turn, and every image of each of these moments.
ghost use Rattle.std.specs.Prelude.{◌≡◌, IfSome};
ghost use Rattle.pair_log.specs.declared.doubt.Doubt.TheVariants.{Nothing};

use crate::logs::{LIMIT, all_of, disk_of, is_fault};
use crate::pairs::{add, disks_of, list_after, pair_on, rewrite, snapshot_of, text_of};
use disk_memory::MemoryDisk;
use gated_log::{Log, LogRefused, Settled};
use outside::Disk;
use pair_log::PairLog;
use std::alloc::Global;
use std::test::Fail;

// The list that a letter stands for.
fn listed(letter: u8) -> &'static [u8] {
    match letter {
        b'o' => b"o:a/",
        b'c' => b"o:a/c/",
        b'n' => b"n:",
        b'b' => b"n:b/",
        b'm' => b"m:",
        _ => b"o:",
    }
}

// A pair with the snapshot o and the record a.
fn first_pair(alloc: Global) -> Option<PairLog<MemoryDisk>>
    ensures { IfSome result (λ pair. pair.doubt ≡ Nothing) }
{
    let mut pair = pair_on(alloc, MemoryDisk::new(alloc), MemoryDisk::new(alloc))?;
    if !add(alloc, &mut pair, b"a") {
        return None;
    }
    Some(pair)
}

// A pair whose second disk is active, with the snapshot n and the record b; the first one has an older list.
fn second_pair(alloc: Global) -> Option<PairLog<MemoryDisk>>
    ensures { IfSome result (λ pair. pair.doubt ≡ Nothing) }
{
    let mut pair = first_pair(alloc)?;
    if !rewrite(alloc, &mut pair, b'n') {
        return None;
    }
    if !add(alloc, &mut pair, b"b") {
        return None;
    }
    Some(pair)
}

fn list_of_both(alloc: Global, pair: PairLog<MemoryDisk>, image: u8) -> Option<Vec<u8>> {
    let (first, second) = disks_of(alloc, pair)?;
    list_after(alloc, &first, &second, image)
}

// Each row is the call of a commit of c that fails, 0 for none, and the list of each image.
#[test]
fn a_crash_inside_a_commit_leaves_the_pair_before_or_after(rt: HostRuntime) -> Result<(), Fail> {
    let rows: [(u32, [u8; 5]); 5] = [
        (0, *b"ccccc"),
        (1, *b"ooooo"),
        (2, *b"ooooo"),
        (3, *b"ococc"),
        (4, *b"ococc"),
    ];
    for (failing, letters) in rows {
        for (image, letter) in letters.iter().enumerate() {
            let list = listed(*letter).to_vec(rt.alloc())?;
            assert_eq!(rt; after_commit(rt.alloc(), failing, image as u8), Some(list));
        }
    }
    Ok(())
}

fn after_commit(alloc: Global, failing: u32, image: u8) -> Option<Vec<u8>> {
    let mut pair = first_pair(alloc)?;
    pair.arm(0, failing).ok()?;
    if add(alloc, &mut pair, b"c") != (failing == 0) {
        return None;
    }
    list_of_both(alloc, pair, image)
}

// Each row is the call of a first rewrite that fails, 0 for none, and the list of each image. The standby's gate is closed,
// so the restart makes two calls.
#[test]
fn a_crash_inside_a_first_rewrite_leaves_the_pair_before_or_after(
    rt: HostRuntime,
) -> Result<(), Fail> {
    let rows: [(u32, [u8; 5]); 7] = [
        (0, *b"nnnnn"),
        (1, *b"ooooo"),
        (2, *b"ooooo"),
        (3, *b"ooooo"),
        (4, *b"ooooo"),
        (5, *b"ononn"),
        (6, *b"ononn"),
    ];
    for (failing, letters) in rows {
        for (image, letter) in letters.iter().enumerate() {
            let list = listed(*letter).to_vec(rt.alloc())?;
            assert_eq!(rt;
                after_first_rewrite(rt.alloc(), failing, image as u8),
                Some(list)
            );
        }
    }
    Ok(())
}

fn after_first_rewrite(alloc: Global, failing: u32, image: u8) -> Option<Vec<u8>> {
    let mut pair = first_pair(alloc)?;
    pair.arm(1, failing).ok()?;
    if rewrite(alloc, &mut pair, b'n') != (failing == 0) {
        return None;
    }
    list_of_both(alloc, pair, image)
}

// The same of a later rewrite, whose standby has an open gate: the restart makes four calls, and the rewrite eight.
#[test]
fn a_crash_inside_a_later_rewrite_leaves_the_pair_before_or_after(
    rt: HostRuntime,
) -> Result<(), Fail> {
    let rows: [(u32, [u8; 5]); 9] = [
        (0, *b"mmmmm"),
        (1, *b"bbbbb"),
        (2, *b"bbbbb"),
        (3, *b"bbbbb"),
        (4, *b"bbbbb"),
        (5, *b"bbbbb"),
        (6, *b"bbbbb"),
        (7, *b"bmbmm"),
        (8, *b"bmbmm"),
    ];
    for (failing, letters) in rows {
        for (image, letter) in letters.iter().enumerate() {
            let list = listed(*letter).to_vec(rt.alloc())?;
            assert_eq!(rt;
                after_later_rewrite(rt.alloc(), failing, image as u8),
                Some(list)
            );
        }
    }
    Ok(())
}

fn after_later_rewrite(alloc: Global, failing: u32, image: u8) -> Option<Vec<u8>> {
    let mut pair = second_pair(alloc)?;
    pair.arm(0, failing).ok()?;
    if rewrite(alloc, &mut pair, b'm') != (failing == 0) {
        return None;
    }
    list_of_both(alloc, pair, image)
}

// Each row is the call of a later rewrite that fails, the call of its settle that fails, the answer, the list that the pair
// has then, and that of each image. A restart that failed is settled without a call.
#[test]
fn a_doubt_of_a_rewrite_ends_by_its_gate_and_a_restart_is_out(rt: HostRuntime) -> Result<(), Fail> {
    let rows: [(u32, u32, u8, u8, [u8; 5]); 14] = [
        (1, 0, b'O', b'b', *b"bbbbb"),
        (2, 0, b'O', b'b', *b"bbbbb"),
        (3, 0, b'O', b'b', *b"bbbbb"),
        (4, 0, b'O', b'b', *b"bbbbb"),
        (5, 0, b'O', b'b', *b"bbbbb"),
        (6, 0, b'O', b'b', *b"bbbbb"),
        (7, 0, b'O', b'b', *b"bbbbb"),
        (8, 0, b'I', b'm', *b"mmmmm"),
        (5, 1, b'?', b'b', *b"bbbbb"),
        (7, 1, b'?', b'b', *b"bmbmm"),
        (8, 1, b'?', b'b', *b"bmbmm"),
        (5, 2, b'?', b'b', *b"bbbbb"),
        (7, 2, b'?', b'b', *b"bbbbb"),
        (8, 2, b'?', b'b', *b"mmmmm"),
    ];
    for (failing, settling, answer, now, letters) in rows {
        for (image, letter) in letters.iter().enumerate() {
            let has = listed(now).to_vec(rt.alloc())?;
            let list = listed(*letter).to_vec(rt.alloc())?;
            let settled = after_settle(rt.alloc(), failing, settling, image as u8);
            assert_eq!(rt; settled, Some((answer, has, list)));
        }
    }
    Ok(())
}

fn after_settle(
    alloc: Global,
    failing: u32,
    settling: u32,
    image: u8,
) -> Option<(u8, Vec<u8>, Vec<u8>)> {
    let mut pair = second_pair(alloc)?;
    pair.arm(0, failing).ok()?;
    let _ = rewrite(alloc, &mut pair, b'm');
    if !pair.doubt() {
        return None;
    }
    pair.arm(0, settling).ok()?;
    let answer = match pair.settle() {
        Ok(Settled::In) => b'I',
        Ok(Settled::Out) => b'O',
        Err(_) => b'?',
    };
    let first = pair_images(&pair, image)?;
    pair.arm(0, 0).ok()?;
    let list = list_after(alloc, &first.0, &first.1, 0)?;
    let has = text_of(alloc, &mut pair)?;
    Some((answer, has, list))
}

// An image of both disks of a pair.
fn pair_images(pair: &PairLog<MemoryDisk>, image: u8) -> Option<(MemoryDisk, MemoryDisk)> {
    let active = pair.active_disk().crash(image % 5).ok()?;
    let standby = pair.standby_disk().crash(image % 5).ok()?;
    if pair.side() == 0 {
        Some((active, standby))
    } else {
        Some((standby, active))
    }
}

// Each row is the number of a disk, how many calls of its mount there are, and the list then: of two new disks, and of two
// with a list on each.
#[test]
fn a_mount_that_fails_names_its_disk_and_keeps_the_list(rt: HostRuntime) -> Result<(), Fail> {
    for failing in 1..9 {
        for image in 0..5 {
            let list = after_new_mount(rt.alloc(), 0, failing, image);
            assert_eq!(rt; list, Some((0, b"o:".to_vec(rt.alloc())?)));
        }
    }
    for failing in 1..4 {
        for image in 0..5 {
            let list = after_new_mount(rt.alloc(), 1, failing, image);
            assert_eq!(rt; list, Some((1, b"o:".to_vec(rt.alloc())?)));
        }
    }
    for number in 0..2 {
        for failing in 1..6 {
            for image in 0..5 {
                let list = after_later_mount(rt.alloc(), number, failing, image);
                assert_eq!(rt; list, Some((number, b"n:b/".to_vec(rt.alloc())?)));
            }
        }
    }
    Ok(())
}

fn after_new_mount(alloc: Global, number: u8, failing: u32, image: u8) -> Option<(u8, Vec<u8>)> {
    after_mount(
        alloc,
        MemoryDisk::new(alloc),
        MemoryDisk::new(alloc),
        number,
        failing,
        image,
    )
}

fn after_later_mount(alloc: Global, number: u8, failing: u32, image: u8) -> Option<(u8, Vec<u8>)> {
    let (first, second) = disks_of(alloc, second_pair(alloc)?)?;
    after_mount(alloc, first, second, number, failing, image)
}

// The number of the disk that a mount blames whose disk of this number fails, and the list of an image then.
fn after_mount(
    alloc: Global,
    first: MemoryDisk,
    second: MemoryDisk,
    number: u8,
    failing: u32,
    image: u8,
) -> Option<(u8, Vec<u8>)> {
    let mut first = first;
    let mut second = second;
    if number == 0 {
        first.arm(failing).ok()?;
    } else {
        second.arm(failing).ok()?;
    }
    match PairLog::mount(alloc, first, second, LIMIT, b"o") {
        Ok(_) => None,
        Err((first, second, blamed, refused)) => {
            if !is_fault(refused) {
                return None;
            }
            Some((blamed, list_after(alloc, &first, &second, image)?))
        }
    }
}

// Each row is the epochs of both disks, the side that is active, and the next epoch.
#[test]
fn the_later_epoch_counts_also_behind_the_last_one(rt: HostRuntime) -> Result<(), Fail> {
    let rows: [(u64, u64, u8, u64); 6] = [
        (1, 2, 1, 3),
        (u64::MAX, 0, 1, 1),
        (0, u64::MAX, 0, 1),
        (u64::MAX - 1, u64::MAX, 1, 0),
        (5, 9, 1, 10),
        (7, 7, 0, 8),
    ];
    for (first, second, side, next) in rows {
        assert_eq!(rt; side_of(rt.alloc(), first, second), Some((side, next)));
    }
    Ok(())
}

// The side that is active of two disks with these epochs, and the next epoch.
fn side_of(alloc: Global, first: u64, second: u64) -> Option<(u8, u64)> {
    let pair = pair_on(
        alloc,
        disk_of_epoch(alloc, first)?,
        disk_of_epoch(alloc, second)?,
    )?;
    Some((pair.side(), pair.next_epoch()))
}

// A disk with the snapshot x of this epoch.
fn disk_of_epoch(alloc: Global, epoch: u64) -> Option<MemoryDisk> {
    let snapshot = snapshot_of(alloc, epoch, b'x')?;
    match Log::mount(alloc, MemoryDisk::new(alloc), LIMIT) {
        Ok(mut log) => {
            if let Err(_) = log.reserve() {
                return None;
            }
            if let Err(_) = log.commit(&snapshot) {
                return None;
            }
            Some(log.into_disk())
        }
        Err(_) => None,
    }
}

// The second disk is active with the last epoch; a rewrite makes epoch 0 of the first one count, whichever call fails.
#[test]
fn a_rewrite_goes_from_the_last_epoch_to_the_first(rt: HostRuntime) -> Result<(), Fail> {
    let rows: [(u32, [u8; 5]); 3] = [(0, *b"mmmmm"), (6, *b"xxxxx"), (7, *b"xmxmm")];
    for (failing, letters) in rows {
        for (image, letter) in letters.iter().enumerate() {
            let list = vec![in rt.alloc(); *letter, b':']?;
            assert_eq!(rt; after_wrap(rt.alloc(), failing, image as u8), Some(list));
        }
    }
    Ok(())
}

fn after_wrap(alloc: Global, failing: u32, image: u8) -> Option<Vec<u8>> {
    let first = disk_of_epoch(alloc, u64::MAX - 1)?;
    let second = disk_of_epoch(alloc, u64::MAX)?;
    let mut pair = pair_on(alloc, first, second)?;
    pair.arm(0, failing).ok()?;
    if pair.next_epoch() != 0 || rewrite(alloc, &mut pair, b'm') != (failing == 0) {
        return None;
    }
    list_of_both(alloc, pair, image)
}

// How many bytes there are of the active disk, with the snapshot o and the record a.
#[test]
fn a_pair_is_mounted_from_every_length_of_its_disk(rt: HostRuntime) -> Result<(), Fail> {
    for length in 0..22 {
        let list: &[u8] = if length == 21 {
            b"o:a/"
        } else if length > 14 {
            b"o:"
        } else {
            b"f:"
        };
        assert_eq!(rt;
            list_of_length(rt.alloc(), length),
            Some(list.to_vec(rt.alloc())?)
        );
    }
    Ok(())
}

// The list of a pair of so many bytes, where the first snapshot is f.
fn list_of_length(alloc: Global, length: usize) -> Option<Vec<u8>> {
    let (first, second) = disks_of(alloc, first_pair(alloc)?)?;
    let mut first = first;
    let bytes = all_of(alloc, &mut first)?;
    let front = disk_of(alloc, &bytes[..length.min(bytes.len())])?;
    match PairLog::mount(alloc, front, second, LIMIT, b"f") {
        Ok(mut pair) => text_of(alloc, &mut pair),
        Err(_) => None,
    }
}

#[test]
fn a_pair_is_full_at_its_limit(rt: HostRuntime) -> Result<(), Fail> {
    let alloc = rt.alloc();
    let first = MemoryDisk::new(alloc);
    match PairLog::mount(alloc, first, MemoryDisk::new(alloc), 14, b"o") {
        Ok(_) => assert!(rt; false),
        Err((_, _, number, refused)) => {
            assert_eq!(rt; (number, refused), (0, LogRefused::Full));
        }
    }
    let first = MemoryDisk::new(alloc);
    let Ok(mut pair) = PairLog::mount(alloc, first, MemoryDisk::new(alloc), 15, b"o") else {
        assert!(rt; false);
        return Ok(());
    };
    assert_eq!(rt; pair.end(), 14);
    assert!(rt; !add(alloc, &mut pair, b"a"));
    assert!(rt; !pair.doubt());
    assert_eq!(rt; text_of(alloc, &mut pair), Some(b"o:".to_vec(alloc)?));
    Ok(())
}
