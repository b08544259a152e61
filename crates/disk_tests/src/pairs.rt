// Pairs of logs on disks in memory, and their lists as texts.
ghost use Rattle.std.specs.Prelude.{◌≡◌, ◌<◌, ◌≤◌, length, take, true, IfSome};
ghost use Rattle.std.specs.Int.{w64, to_be_bytes};
ghost use Rattle.pair_log.specs.PlainPair.{tail_of};
ghost use Rattle.pair_log.specs.declared.doubt.Doubt.TheVariants.{Nothing};

use crate::logs::LIMIT;
use disk_memory::MemoryDisk;
use gated_log::Draft;
use pair_log::PairLog;
use std::alloc::Global;

/// The pair on two disks, whose first snapshot is o.
pub(crate) fn pair_on(
    alloc: Global,
    first: MemoryDisk,
    second: MemoryDisk,
) -> Option<PairLog<MemoryDisk>>
    ensures { IfSome result (λ pair. pair.doubt ≡ Nothing) }
{
    match PairLog::mount(alloc, first, second, LIMIT, b"o") {
        Ok(pair) => Some(pair),
        Err(_) => None,
    }
}

/// Commits a record, and answers whether that was done.
pub(crate) fn add(alloc: Global, pair: &mut PairLog<MemoryDisk>, payload: &[u8]) -> bool
    requires rests { pair.old.doubt ≡ Nothing }
    requires some { 0 < length payload.now }
    requires short { length payload.now ≤ 100 }
    ensures { result ≡ true → pair.new.doubt ≡ Nothing }
{
    let Ok(draft) = Draft::new(alloc, payload) else {
        return false;
    };
    if let Err(_) = pair.reserve() {
        return false;
    }
    if let Err(_) = pair.commit(&draft) {
        return false;
    }
    true
}

/// A snapshot of one letter, with this epoch in front.
pub(crate) fn snapshot_of(alloc: Global, epoch: u64, letter: u8) -> Option<Draft>
    ensures { IfSome result (λ draft. take 8 draft ≡ to_be_bytes w64 epoch) }
{
    let mut bytes = Vec::new(alloc);
    bytes.extend_from_slice(&epoch.to_be_bytes()).ok()?;
    bytes.push(letter).ok()?;
    Draft::new(alloc, &bytes).ok()
}

/// Rewrites the pair with a snapshot of one letter, and answers whether that was done.
pub(crate) fn rewrite(alloc: Global, pair: &mut PairLog<MemoryDisk>, letter: u8) -> bool
    requires { pair.old.doubt ≡ Nothing }
    ensures { result ≡ true → pair.new.doubt ≡ Nothing }
{
    if let Err(_) = pair.reserve() {
        return false;
    }
    let Some(snapshot) = snapshot_of(alloc, pair.next_epoch(), letter) else {
        return false;
    };
    if let Err(_) = pair.rewrite(&snapshot) {
        return false;
    }
    true
}

/// The snapshot and a colon, and then the records, each with a stroke behind it.
pub(crate) fn text_of(alloc: Global, pair: &mut PairLog<MemoryDisk>) -> Option<Vec<u8>> {
    let mut text = Vec::new(alloc);
    pair.snapshot(&mut text).ok()?;
    text.push(b':').ok()?;
    for k in 0..pair.count() {
        read_into(pair, k, &mut text)?;
    }
    Some(text)
}

// Appends record k and a stroke.
fn read_into(pair: &mut PairLog<MemoryDisk>, k: u64, text: &mut Vec<u8>) -> Option<()>
    requires { k < length (tail_of pair.old.active.payloads) }
    ensures { length (tail_of pair.new.active.payloads)
        ≡ length (tail_of pair.old.active.payloads) }
{
    if let Err(_) = pair.entry(k, text) {
        return None;
    }
    text.push(b'/').ok()?;
    Some(())
}

/// The two disks, in their order.
pub(crate) fn disks_of(
    alloc: Global,
    pair: PairLog<MemoryDisk>,
) -> Option<(MemoryDisk, MemoryDisk)> {
    let mut disks = Vec::new(alloc);
    disks.reserve(2).ok()?;
    pair.disks(&mut disks);
    let second = disks.pop()?;
    let first = disks.pop()?;
    Some((first, second))
}

/// The list that is mounted from this image of both disks.
pub(crate) fn list_after(
    alloc: Global,
    first: &MemoryDisk,
    second: &MemoryDisk,
    image: u8,
) -> Option<Vec<u8>> {
    let first = first.crash(image % 5).ok()?;
    let second = second.crash(image % 5).ok()?;
    let mut pair = pair_on(alloc, first, second)?;
    text_of(alloc, &mut pair)
}
