// Logs on disks in memory, and their lists as texts.
ghost use Rattle.std.specs.Prelude.{◌≡◌, ◌<◌, ◌≤◌, length, false, true, IfSome};
ghost use Rattle.gated_log.specs.PlainLog.{AtRest, is_lost};

use disk_memory::MemoryDisk;
use gated_log::{Draft, Log, LogRefused};
use outside::Disk;
use std::alloc::Global;

/// More than any of the records here takes, in bytes.
pub(crate) const LIMIT: u64 = 1 << 20;

/// A disk with these bytes, synced.
pub(crate) fn disk_of(alloc: Global, bytes: &[u8]) -> Option<MemoryDisk> {
    let mut disk = MemoryDisk::new(alloc);
    disk.write_at(0, bytes).ok()?;
    disk.sync().ok()?;
    Some(disk)
}

/// Writes where the place isn't past the end, and answers whether that was done.
pub(crate) fn put<D: Disk>(disk: &mut D, at: u64, bytes: &[u8]) -> bool {
    at <= disk.size() && disk.write_at(at, bytes).is_ok()
}

/// All the bytes that a disk gives.
pub(crate) fn all_of<D: Disk>(alloc: Global, disk: &mut D) -> Option<Vec<u8>> {
    let mut bytes = vec![in alloc; 0; disk.size() as usize].ok()?;
    disk.read(0, bytes.as_mut_slice()).ok()?;
    Some(bytes)
}

/// The log on this disk.
pub(crate) fn mounted<D: Disk>(alloc: Global, disk: D) -> Option<Log<D>>
where
    D: Drop,
    ensures { IfSome result (λ log. log.standing ≡ AtRest) }
{
    match Log::mount(alloc, disk, LIMIT) {
        Ok(log) => Some(log),
        Err(_) => None,
    }
}

/// Commits a record, and answers whether that was done.
pub(crate) fn add<D: Disk>(alloc: Global, log: &mut Log<D>, payload: &[u8]) -> bool
    requires rests { log.old.standing ≡ AtRest }
    requires some { 0 < length payload.now }
    requires short { length payload.now ≤ 100 }
    ensures { result ≡ true → log.new.standing ≡ AtRest }
{
    let Ok(draft) = Draft::new(alloc, payload) else {
        return false;
    };
    if let Err(_) = log.reserve() {
        return false;
    }
    if let Err(_) = log.commit(&draft) {
        return false;
    }
    true
}

/// The records, each with a stroke behind it.
pub(crate) fn text_of<D: Disk>(alloc: Global, log: &mut Log<D>) -> Option<Vec<u8>>
    requires { is_lost log.old.standing ≡ false }
{
    let mut text = Vec::new(alloc);
    for k in 0..log.count() {
        read_into(log, k, &mut text)?;
    }
    Some(text)
}

// Appends record k and a stroke.
fn read_into<D: Disk>(log: &mut Log<D>, k: u64, text: &mut Vec<u8>) -> Option<()>
    requires kept { is_lost log.old.standing ≡ false }
    requires within { k < length log.old.payloads }
    ensures kept { is_lost log.new.standing ≡ false }
    ensures count { length log.new.payloads ≡ length log.old.payloads }
{
    if let Err(_) = log.entry(k, text) {
        return None;
    }
    text.push(b'/').ok()?;
    Some(())
}

/// The list that is mounted from a disk.
pub(crate) fn list_on<D: Disk + Drop>(alloc: Global, disk: D) -> Option<Vec<u8>> {
    let mut log = mounted(alloc, disk)?;
    text_of(alloc, &mut log)
}

/// The list that is mounted from this image of a disk.
pub(crate) fn list_after(alloc: Global, disk: &MemoryDisk, image: u8) -> Option<Vec<u8>> {
    list_on(alloc, disk.crash(image % 5).ok()?)
}

/// Whether that is the answer of a disk that failed.
pub(crate) fn is_fault(refused: LogRefused) -> bool {
    refused == LogRefused::Fault
}
