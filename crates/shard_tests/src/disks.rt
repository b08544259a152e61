// The ten disks of a shard in memory, and what a shard on them holds.
ghost use Rattle.std.specs.Prelude.{◌≡◌, IfSome, length};
ghost use Rattle.shard_log.specs.Appending.{IsShown};

use crate::digits::bytes_of;
use crate::shown::shown;
use disk_memory::MemoryDisk;
use outside::Disk;
use shard_log::ShardLog;
use std::alloc::{AllocError, Global};
use topic_name::Config;

/// One shard and one worker, with three messages a generation.
pub(crate) const ONE: Config = Config {
    shards: 1,
    workers: 1,
    top: 1,
    below: 1,
    messages: 3,
    retention: 0,
};

// Puts a record with this payload: an open gate, the length, the payload.
fn put_record(alloc: Global, words: &str, log: &mut Vec<u8>) -> Option<()> {
    let payload = bytes_of(alloc, words).ok()?;
    let length = u32::try_from(payload.len()).ok()?;
    log.push(1).ok()?;
    log.extend_from_slice(&length.to_be_bytes()).ok()?;
    log.extend_from_slice(&payload).ok()?;
    Some(())
}

// A disk with records whose payloads stand between bars, and a closed gate behind them.
fn disk_with(alloc: Global, payloads: &str) -> Option<MemoryDisk> {
    let mut log = Vec::new(alloc);
    if !payloads.is_empty() {
        for words in payloads.split('|') {
            put_record(alloc, words, &mut log)?;
        }
    }
    log.push(0).ok()?;
    let mut disk = MemoryDisk::new(alloc);
    disk.write_at(0, &log).ok()?;
    disk.sync().ok()?;
    Some(disk)
}

// New disks in front of which these stand, up to ten.
fn filled(alloc: Global, disks: Vec<MemoryDisk>) -> Option<Vec<MemoryDisk>>
    ensures { IfSome result (λ disks. length disks.items ≡ 10) }
{
    let mut disks = disks;
    for _ in disks.len()..10 {
        disks.push(MemoryDisk::new(alloc)).ok()?;
    }
    if disks.len() != 10 {
        return None;
    }
    Some(disks)
}

/// Ten new disks.
pub(crate) fn new_disks(alloc: Global) -> Option<Vec<MemoryDisk>>
    ensures { IfSome result (λ disks. length disks.items ≡ 10) }
{
    filled(alloc, Vec::new(alloc))
}

/// The disks of a shard whose manifest and first two slots have these records.
pub(crate) fn disks_with(
    alloc: Global,
    manifest: &str,
    first: &str,
    second: &str,
) -> Option<Vec<MemoryDisk>>
    ensures { IfSome result (λ disks. length disks.items ≡ 10) }
{
    let mut disks = Vec::new(alloc);
    disks.push(disk_with(alloc, manifest)?).ok()?;
    disks.push(MemoryDisk::new(alloc)).ok()?;
    disks.push(disk_with(alloc, first)?).ok()?;
    disks.push(disk_with(alloc, second)?).ok()?;
    filled(alloc, disks)
}

/// What shard 0 on these disks holds, or why it is refused.
pub(crate) fn text_of(alloc: Global, disks: Vec<MemoryDisk>) -> Result<String, AllocError>
    requires ten { length disks.items ≡ 10 }
{
    match ShardLog::mount(alloc, disks, ONE, 0, 0) {
        Ok(log) => shown(alloc, log.index()),
        Err((_, why)) => format!(in alloc; "{why}"),
    }
}

// This image of each of these disks.
fn crashed(alloc: Global, disks: &[MemoryDisk], image: u8) -> Option<Vec<MemoryDisk>>
    ensures { IfSome result (λ disks. length disks.items ≡ 10) }
{
    let mut images = Vec::new(alloc);
    for disk in disks {
        images.push(disk.crash(image % 5).ok()?).ok()?;
    }
    if images.len() != 10 {
        return None;
    }
    Some(images)
}

/// What is held by this image of all disks.
pub(crate) fn text_after(alloc: Global, disks: &[MemoryDisk], image: u8) -> Option<String> {
    let images = crashed(alloc, disks, image)?;
    text_of(alloc, images).ok()
}

/// The shard on new disks.
pub(crate) fn begun(alloc: Global) -> Option<ShardLog<MemoryDisk>>
    ensures shown { IfSome result IsShown }
    ensures one { IfSome result (λ log. log.asked ≡ record { config = ONE; shard = 0 }) }
{
    let disks = new_disks(alloc)?;
    match ShardLog::mount(alloc, disks, ONE, 0, 0) {
        Ok(log) => Some(log),
        Err(_) => None,
    }
}
