// A disk in memory and one behind a gate.
ghost use Rattle.std.specs.Prelude.{◌≡◌, ◌++◌, ◌∷◌, []};

use crate::logs::{all_of, disk_of, put};
use disk_memory::{GateDisk, MemoryDisk};
use history::History;
use outside::{Disk, Failed, Gate, Place};
use std::cell::Cell;
use std::test::Fail;

#[test]
fn a_write_may_be_torn_until_a_sync(rt: HostRuntime) -> Result<(), Fail> {
    let alloc = rt.alloc();
    let mut disk = MemoryDisk::new(alloc);
    assert!(rt; disk.write_at(0, &[0x58, 0x59]).is_ok());
    let images: [&[u8]; 5] = [
        &[],
        &[0x58, 0x59],
        &[0x58, 0x00],
        &[0xa5, 0xa5],
        &[0x01, 0x01],
    ];
    for (n, image) in images.iter().enumerate() {
        let bytes = all_of(alloc, &mut disk.crash(n as u8 % 5)?);
        assert_eq!(rt; bytes, Some(image.to_vec(alloc)?));
    }
    assert!(rt; disk.sync().is_ok());
    for n in 0..5 {
        let bytes = all_of(alloc, &mut disk.crash(n)?);
        assert_eq!(rt; bytes, Some([0x58, 0x59].to_vec(alloc)?));
    }
    Ok(())
}

// The second write begins inside the first and goes past the end.
#[test]
fn writes_that_overlap_are_laid_one_over_the_other(rt: HostRuntime) -> Result<(), Fail> {
    let alloc = rt.alloc();
    let Some(mut disk) = disk_of(alloc, &[1, 2, 3, 4]) else {
        assert!(rt; false);
        return Ok(());
    };
    assert!(rt; put(&mut disk, 1, &[7, 8]));
    assert!(rt; put(&mut disk, 2, &[9, 9, 9]));
    let images: [[u8; 5]; 4] = [
        [1, 7, 9, 9, 9],
        [1, 7, 9, 4, 0],
        [1, 0xa5, 0xa5, 0xa5, 0xa5],
        [1, 1, 1, 1, 1],
    ];
    let old = all_of(alloc, &mut disk.crash(0)?);
    assert_eq!(rt; old, Some([1, 2, 3, 4].to_vec(alloc)?));
    for (n, image) in images.iter().enumerate() {
        let bytes = all_of(alloc, &mut disk.crash((n as u8 + 1) % 5)?);
        assert_eq!(rt; bytes, Some(image.to_vec(alloc)?));
    }
    let seen = all_of(alloc, &mut disk);
    assert_eq!(rt; seen, Some([1, 7, 9, 9, 9].to_vec(alloc)?));
    Ok(())
}

#[test]
fn a_call_that_is_named_fails_once_and_starves_no_disk(rt: HostRuntime) -> Result<(), Fail> {
    let alloc = rt.alloc();
    let mut disk = MemoryDisk::new(alloc);
    disk.arm(2)?;
    disk.arm(2)?;
    disk.arm(0)?;
    assert!(rt; disk.write_at(0, &[0x58]).is_ok());
    assert!(rt; !put(&mut disk, 1, &[0x59, 0x5a]));
    let bytes = all_of(alloc, &mut disk);
    assert_eq!(rt; bytes, Some([0x58, 0x59].to_vec(alloc)?));
    assert!(rt; disk.sync().is_ok());
    assert!(rt; !disk.starved());
    Ok(())
}

// Of the calls that were named the third comes after the crash, as the image's second one.
#[test]
fn a_crash_keeps_the_failures_that_are_still_to_come(rt: HostRuntime) -> Result<(), Fail> {
    let alloc = rt.alloc();
    let mut disk = MemoryDisk::new(alloc);
    disk.arm(1)?;
    disk.arm(3)?;
    assert!(rt; disk.write_at(0, &[0x58, 0x59]).is_err());
    let mut image = disk.crash(1)?;
    assert!(rt; image.sync().is_ok());
    assert!(rt; image.sync().is_err());
    assert!(rt; image.sync().is_ok());
    assert!(rt; !image.starved());
    let bytes = all_of(alloc, &mut image);
    assert_eq!(rt; bytes, Some([0x58, 0x59].to_vec(alloc)?));
    Ok(())
}

// A gate that holds nobody, and counts the syncs that pass it.
#[derive(Drop)]
struct CountingGate<'a> {
    syncs: &'a Cell<u32>,
    past: History<Place>,
}

impl Gate for CountingGate<'_> {
    ghost passed = { λ gate. gate.past.items };

    fn pass(&mut self, place: Place) {
        self.past = self.past.and(&place);
        if place == Place::Sync {
            self.syncs.set(self.syncs.get().saturating_add(1));
        }
    }
}

#[test]
fn a_disk_behind_a_gate_keeps_what_was_synced_and_fails_at_the_call_it_is_told(
    rt: HostRuntime,
) -> Result<(), Fail> {
    let alloc = rt.alloc();
    let syncs = Cell::new(0);
    let gate = CountingGate {
        syncs: &syncs,
        past: History::new(),
    };
    let mut disk = GateDisk::new(MemoryDisk::new(alloc), gate);
    write_synced(&mut disk, &[0x58, 0x59])?;
    let bytes = all_of(alloc, &mut disk);
    assert_eq!(rt; bytes, Some([0x58, 0x59].to_vec(alloc)?));
    disk.arm(2)?;
    assert!(rt; disk.write_at(0, &[0x5a]).is_ok());
    assert!(rt; disk.sync().is_err());
    assert_eq!(rt; syncs.get(), 2);
    let bytes = all_of(alloc, &mut disk.into_disk().crash(0)?);
    assert_eq!(rt; bytes, Some([0x58, 0x59].to_vec(alloc)?));
    Ok(())
}

// Writes a piece at the start, and syncs it.
fn write_synced<D: Disk>(disk: &mut D, piece: &[u8]) -> Result<(), Failed> {
    disk.write_at(0, piece)?;
    disk.sync()
}

// A history may go where its steps may.
fn is_send<T: Send>(_value: &T) {}

#[test]
fn a_history_may_go_to_another_thread() {
    let past: History<u8> = History::new();
    is_send(&past.and(&1));
    is_send(&History::new().and_both(&1u8, &2u8));
}
