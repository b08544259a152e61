// Disks in memory with the bytes of a log, and what a journal on them holds.
ghost use Rattle.std.specs.Prelude.{◌≡◌, IfSome};
ghost use Rattle.pair_log.specs.declared.doubt.Doubt.TheVariants.{Nothing};

use crate::digits::bytes_of;
use crate::held::Held;
use crate::shown::shown;
use disk_memory::MemoryDisk;
use outside::Disk;
use session_journal::Journal;
use std::alloc::{AllocError, Global};
use topic_name::Config;

/// One shard and one worker.
pub(crate) const ONE: Config = Config {
    shards: 1,
    workers: 1,
    top: 1,
    below: 1,
    messages: 1,
    retention: 0,
};

// Puts a record with this payload: an open gate, the length, the payload.
fn put_record(alloc: Global, words: &str, log: &mut Vec<u8>) -> Option<()> {
    let payload = bytes_of(alloc, words).ok()?;
    let length = u32::try_from(payload.len()).ok()?;
    log.push(1).ok()?;
    log.extend_from_slice(&length.to_be_bytes()).ok()?;
    log.extend_from_slice(&payload).ok()?;
    Some(())
}

/// A disk with records whose payloads stand between bars, and a closed gate behind them.
pub(crate) fn disk_with(alloc: Global, payloads: &str) -> Option<MemoryDisk> {
    let mut log = Vec::new(alloc);
    if !payloads.is_empty() {
        for words in payloads.split('|') {
            put_record(alloc, words, &mut log)?;
        }
    }
    log.push(0).ok()?;
    let mut disk = MemoryDisk::new(alloc);
    disk.write_at(0, &log).ok()?;
    disk.sync().ok()?;
    Some(disk)
}

/// What the journal of worker 0 on these disks holds, or why it is refused.
pub(crate) fn text_of(
    alloc: Global,
    first: MemoryDisk,
    second: MemoryDisk,
) -> Result<String, AllocError> {
    match Held::mount(alloc, first, second, ONE, 0) {
        Ok(held) => shown(alloc, held.sessions()),
        Err((_, _, why)) => format!(in alloc; "{why}"),
    }
}

/// The two disks of a journal, in their order.
pub(crate) fn disks_of(
    alloc: Global,
    journal: Journal<MemoryDisk>,
) -> Option<(MemoryDisk, MemoryDisk)> {
    let mut disks = Vec::new(alloc);
    disks.reserve(2).ok()?;
    journal.disks(&mut disks);
    let second = disks.pop()?;
    let first = disks.pop()?;
    Some((first, second))
}

/// What is held by this image of both disks of a journal.
pub(crate) fn text_after(alloc: Global, journal: Journal<MemoryDisk>, image: u8) -> Option<String> {
    let (first, second) = disks_of(alloc, journal)?;
    let first = first.crash(image % 5).ok()?;
    let second = second.crash(image % 5).ok()?;
    text_of(alloc, first, second).ok()
}

/// The journal on these disks.
pub(crate) fn held_on(
    alloc: Global,
    first: MemoryDisk,
    second: MemoryDisk,
) -> Option<Held<MemoryDisk>>
    ensures rests { IfSome result (λ h. h.journal.pair.doubt ≡ Nothing) }
    ensures shards { IfSome result (λ h. h.journal.asked.shards ≡ 1) }
{
    match Held::mount(alloc, first, second, ONE, 0) {
        Ok(held) => Some(held),
        Err(_) => None,
    }
}
