// Several calls of a pair, one after another.
ghost use Rattle.std.specs.Prelude.{◌≡◌, ◌<◌, ◌≤◌, ◌∷◌, ◌++◌, [], length, true, IfOk, IfSome};
ghost use Rattle.outside.specs.DiskModel.{Only};
ghost use Rattle.pair_log.specs.declared.doubt.Doubt.TheVariants.{Nothing};
ghost use Rattle.pair_log.specs.Epochs.{next_epoch};
ghost use Rattle.pair_log.specs.PlainPair.{EachMoment, IsEither, Told};
ghost use Rattle.disk_tests.specs.Chain.{ChainKeeps, IsOneOf, with_epoch};

use gated_log::Draft;
use outside::Disk;
use pair_log::PairLog;
use std::alloc::{AllocError, Global};

// A snapshot with an epoch in front.
fn snapshot_draft(alloc: Global, epoch: u64, snapshot: &[u8]) -> Result<Draft, AllocError>
    requires { length snapshot.now ≤ 100 }
    ensures { IfOk result (λ draft. draft ≡ with_epoch epoch snapshot.now) }
{
    let mut payload = Vec::new(alloc);
    payload.extend_from_slice(&epoch.to_be_bytes())?;
    payload.extend_from_slice(snapshot)?;
    Draft::of(payload)
}

// Commits a record, and answers whether that was done.
fn commit_one<D: Disk>(pair: &mut PairLog<D>, entry: &Draft) -> bool
    requires { pair.old.doubt ≡ Nothing }
    ensures rests { result ≡ true → pair.new.doubt ≡ Nothing }
    ensures epoch { result ≡ true → pair.new.epoch ≡ pair.old.epoch }
    ensures told { result ≡ true → Told D.state pair.old → Told D.state pair.new }
    ensures list { result ≡ true → Told D.state pair.old
        → pair.new.active.payloads ≡ pair.old.active.payloads ++ entry.now ∷ [] }
    ensures moments { result ≡ true → EachMoment D.state pair.old pair.new
        (IsEither pair.old.active.payloads (pair.old.active.payloads ++ entry.now ∷ [])) }
{
    if let Err(_) = pair.reserve() {
        return false;
    }
    if let Err(_) = pair.commit(entry) {
        return false;
    }
    true
}

// Rewrites a pair, and answers whether that was done.
fn rewrite_one<D: Disk>(alloc: Global, pair: &mut PairLog<D>, snapshot: &[u8]) -> bool
    requires rests { pair.old.doubt ≡ Nothing }
    requires short { length snapshot.now ≤ 100 }
    ensures rests { result ≡ true → pair.new.doubt ≡ Nothing }
    ensures told { result ≡ true → Told D.state pair.old → Told D.state pair.new }
    ensures list { result ≡ true → Told D.state pair.old
        → pair.new.active.payloads ≡ with_epoch (next_epoch pair.old.epoch) snapshot.now ∷ [] }
    ensures moments { result ≡ true → EachMoment D.state pair.old pair.new
        (IsEither pair.old.active.payloads
        (with_epoch (next_epoch pair.old.epoch) snapshot.now ∷ [])) }
{
    if let Err(_) = pair.reserve() {
        return false;
    }
    let Ok(draft) = snapshot_draft(alloc, pair.next_epoch(), snapshot) else {
        return false;
    };
    if let Err(_) = pair.rewrite(&draft) {
        return false;
    }
    true
}

// Commits a record and rewrites the pair.
fn commit_and_rewrite<D: Disk>(
    alloc: Global,
    pair: &mut PairLog<D>,
    snapshot: &[u8],
    entry: &Draft,
) -> bool
    requires rests { pair.old.doubt ≡ Nothing }
    requires short { length snapshot.now ≤ 100 }
    ensures rests { result ≡ true → pair.new.doubt ≡ Nothing }
    ensures told { result ≡ true → Told D.state pair.old → Told D.state pair.new }
    ensures list { result ≡ true → Told D.state pair.old
        → pair.new.active.payloads ≡ with_epoch (next_epoch pair.old.epoch) snapshot.now ∷ [] }
    ensures moments { result ≡ true → EachMoment D.state pair.old pair.new
        (IsOneOf (pair.old.active.payloads ∷ (pair.old.active.payloads ++ entry.now ∷ [])
        ∷ (with_epoch (next_epoch pair.old.epoch) snapshot.now ∷ []) ∷ [])) }
{
    if !commit_one(pair, entry) {
        return false;
    }
    rewrite_one(alloc, pair, snapshot)
}

/// Mounts a pair with a snapshot, commits a record, rewrites it with the snapshot, and does both once more. At each moment
/// the images of both disks read as the list before or after one of these calls. None where one of them was refused.
pub fn chain<D: Disk + Drop>(
    alloc: Global,
    first: D,
    second: D,
    snapshot: &[u8],
    entry: &Draft,
) -> Option<PairLog<D>>
    requires first_alone { Only (D.state first).seen (D.state first).may_leave }
    requires second_alone { Only (D.state second).seen (D.state second).may_leave }
    requires short { length snapshot.now ≤ 100 }
    ensures { IfSome result (λ pair. ChainKeeps D.state first second snapshot.now entry.now pair) }
{
    match PairLog::mount(alloc, first, second, 1 << 30, snapshot) {
        Ok(mut pair) => {
            if !commit_and_rewrite(alloc, &mut pair, snapshot, entry) {
                return None;
            }
            if !commit_and_rewrite(alloc, &mut pair, snapshot, entry) {
                return None;
            }
            Some(pair)
        }
        Err(_) => None,
    }
}
