// What a pair is mounted from.
ghost use Rattle.std.specs.Prelude.{◌≡◌, ◌+◌, ◌<◌, ◌≤◌, ◌∷◌, ◌++◌, [], length, OnOk, OnErr, IfOk, IfErr, IsErrOf, IsTrue, None};
ghost use Rattle.gated_log.specs.declared.refused.LogRefused.TheVariants.{Fault, Full};
ghost use Rattle.gated_log.specs.Blame.{IsBlamed};
ghost use Rattle.outside.specs.DiskModel.{Torn};
ghost use Rattle.gated_log.specs.Calls.{EachMoment, ImagesHave, with_record};
ghost use Rattle.gated_log.specs.PlainLog.{AtRest, HasList, end_of};
ghost use Rattle.gated_log.specs.Stands.{IsBeforeOrAfter};
ghost use Rattle.pair_log.specs.Epochs.{epoch_of, is_later};
ghost use Rattle.pair_log.specs.Mounted.{IsBegun, IsBlamedOn, IsTooLong, IsWrittenTorn, begun, epoch_in, first_record, second_later, written_first};

use crate::Side;
use gated_log::{Draft, Log, LogRefused};
use outside::Disk;
use std::alloc::{AllocError, Global};

// The most bytes of a snapshot.
const MOST_SNAPSHOT: usize = 1_342_177_272;

// The epochs of both disks, none where one has no record.
#[derive(Clone, Copy)]
pub(crate) struct Epochs {
    pub(crate) first: Option<u64>,
    pub(crate) second: Option<u64>,
}

// Why a disk was refused.
#[derive(Clone, Copy)]
pub(crate) struct Refusal {
    pub(crate) side: Side,
    pub(crate) why: LogRefused,
}

// The draft of the first record of two new disks.
fn first_draft(alloc: Global, snapshot: &[u8]) -> Result<Draft, AllocError>
    requires short { length snapshot.now ≤ 1342177272 }
    ensures { IfOk result (λ draft. draft ≡ first_record snapshot.now) }
{
    let mut payload = Vec::new(alloc);
    payload.extend_from_slice(&1u64.to_be_bytes())?;
    payload.extend_from_slice(snapshot)?;
    Draft::of(payload)
}

// Commits the first record.
pub(crate) fn begin<D: Disk>(
    alloc: Global,
    log: &mut Log<D>,
    snapshot: &[u8],
) -> Result<(), LogRefused>
    requires rests { log.old.standing ≡ AtRest }
    requires empty { log.old.payloads ≡ [] }
    requires at_start { log.old.end ≡ 0 }
    requires images { ImagesHave D.state log.old }
    ensures list { OnOk result
        (IsTrue (D.state log.old.disk).tells → log.new.payloads ≡ first_record snapshot.now ∷ []) }
    ensures bytes { OnOk result (IsTrue (D.state log.old.disk).tells → (D.state log.new.disk).seen
        ≡ with_record 0 (first_record snapshot.now) (D.state log.old.disk).seen) }
    ensures torn { IsTrue (D.state log.old.disk).tells
        → Torn 0 (6 + length (first_record snapshot.now))
        (D.state log.old.disk).seen (D.state log.new.disk).seen }
    ensures count { OnOk result (length log.new.payloads ≡ 1) }
    ensures rests { OnOk result (log.new.standing ≡ AtRest) }
    ensures images { OnOk result (ImagesHave D.state log.new) }
    ensures any_moment { EachMoment (D.state log.old.disk) (D.state log.new.disk)
        (IsBeforeOrAfter [] (first_record snapshot.now)) }
    ensures full { IsErrOf result Full → IsTooLong log.old.limit snapshot.now }
    ensures fits { OnOk result (IsTooLong log.old.limit snapshot.now → ⊥) }
    ensures end { OnOk result (log.new.end ≡ 13 + length snapshot.now) }
    ensures limit { log.new.limit ≡ log.old.limit }
    ensures cause { IsBlamed (D.state log.old.disk).faults (D.state log.new.disk).faults result }
    ensures tells { (D.state log.new.disk).tells ≡ (D.state log.old.disk).tells }
    ensures arms { (D.state log.new.disk).arms ≡ (D.state log.old.disk).arms }
{
    if snapshot.len() > MOST_SNAPSHOT {
        return Err(LogRefused::Full);
    }
    let draft = first_draft(alloc, snapshot)?;
    log.reserve()?;
    log.commit(&draft)
}

// The epoch of a log's record 0, none where it has no record.
pub(crate) fn epoch_at<D: Disk>(alloc: Global, log: &mut Log<D>) -> Result<Option<u64>, LogRefused>
    requires rests { log.old.standing ≡ AtRest }
    requires images { ImagesHave D.state log.old }
    ensures epoch { IfOk result
        (λ epoch. IsTrue (D.state log.old.disk).tells → epoch ≡ epoch_in log.old.payloads) }
    ensures some { IfOk result (λ epoch. 0 < length log.old.payloads → epoch ≡ None → ⊥) }
    ensures none { IfOk result (λ epoch. length log.old.payloads ≡ 0 → epoch ≡ None) }
    ensures any_moment { EachMoment (D.state log.old.disk) (D.state log.new.disk)
        (HasList AtRest log.old.payloads) }
    ensures images { ImagesHave D.state log.new }
    ensures stays { log.new ≡ record log.old { disk = log.new.disk } }
    ensures seen { (D.state log.new.disk).seen ≡ (D.state log.old.disk).seen }
    ensures never_full { IsErrOf result Full → ⊥ }
    ensures cause { IsBlamed (D.state log.old.disk).faults (D.state log.new.disk).faults result }
    ensures tells { (D.state log.new.disk).tells ≡ (D.state log.old.disk).tells }
    ensures arms { (D.state log.new.disk).arms ≡ (D.state log.old.disk).arms }
{
    if log.count() == 0 {
        return Ok(None);
    }
    let mut front = Vec::new(alloc);
    log.part(0, 0, 8, &mut front)?;
    Ok(Some(epoch_from(&front)))
}

// The epoch at the front of a record 0, 0 where it is too short.
fn epoch_from(front: &[u8]) -> u64
    ensures { result ≡ epoch_of front.now }
{
    if front.len() < 8 {
        return 0;
    }
    u64::from_be_bytes([
        front[0], front[1], front[2], front[3], front[4], front[5], front[6], front[7],
    ])
}

// Whether the second of two epochs is the later one.
pub(crate) fn second_is_later(first: Option<u64>, second: Option<u64>) -> bool
    ensures { result ≡ second_later first second }
{
    match (first, second) {
        (_, None) => false,
        (None, Some(_)) => true,
        (Some(first), Some(second)) => later(first, second),
    }
}

// Whether the second is the next of the first, or else greater and not before it.
fn later(first: u64, second: u64) -> bool
    ensures { result ≡ is_later first second }
{
    second == first.wrapping_add(1) || (first != second.wrapping_add(1) && first < second)
}

// Commits the first record where neither log has one.
fn begin_new<D: Disk>(
    alloc: Global,
    first: &mut Log<D>,
    second: &Log<D>,
    snapshot: &[u8],
) -> Result<(), LogRefused>
    requires rests { first.old.standing ≡ AtRest }
    requires images { ImagesHave D.state first.old }
    requires at_start { length first.old.payloads ≡ 0 → first.old.end ≡ 0 }
    ensures full { IsErrOf result Full → IsTooLong first.old.limit snapshot.now }
    ensures none { IsErrOf result Full
        → (length first.old.payloads ≡ 0) × (length second.now.payloads ≡ 0) }
    ensures fits { OnOk result (length first.old.payloads ≡ 0 → length second.now.payloads ≡ 0
        → IsTooLong first.old.limit snapshot.now → ⊥) }
    ensures list { OnOk result (IsTrue (D.state first.old.disk).tells
        → first.new.payloads ≡ begun snapshot.now first.old.payloads second.now.payloads) }
    ensures bytes { OnOk result (IsTrue (D.state first.old.disk).tells
        → (D.state first.new.disk).seen
        ≡ written_first snapshot.now first.old.payloads second.now.payloads
        (D.state first.old.disk).seen) }
    ensures torn { IsTrue (D.state first.old.disk).tells
        → IsWrittenTorn snapshot.now first.old.payloads second.now.payloads
        (D.state first.old.disk).seen (D.state first.new.disk).seen }
    ensures end { OnOk result
        ((IsTrue (D.state first.old.disk).tells → first.old.end ≡ end_of first.old.payloads)
        → IsTrue (D.state first.old.disk).tells → first.new.end ≡ end_of first.new.payloads) }
    ensures limit { first.new.limit ≡ first.old.limit }
    ensures count { OnOk result (0 < length first.new.payloads + length second.now.payloads) }
    ensures rests { OnOk result (first.new.standing ≡ AtRest) }
    ensures images { OnOk result (ImagesHave D.state first.new) }
    ensures any_moment { EachMoment (D.state first.old.disk) (D.state first.new.disk)
        (IsBegun first.old.payloads second.now.payloads snapshot.now) }
    ensures cause { IsBlamed (D.state first.old.disk).faults
        (D.state first.new.disk).faults result }
    ensures tells { (D.state first.new.disk).tells ≡ (D.state first.old.disk).tells }
    ensures arms { (D.state first.new.disk).arms ≡ (D.state first.old.disk).arms }
{
    if first.count() == 0 && second.count() == 0 {
        return begin(alloc, first, snapshot);
    }
    Ok(())
}

// The epochs of two logs of which one has a record then, or the disk that refused.
pub(crate) fn find_epochs<D: Disk>(
    alloc: Global,
    first: &mut Log<D>,
    second: &mut Log<D>,
    snapshot: &[u8],
) -> Result<Epochs, Refusal>
    requires first_rests { first.old.standing ≡ AtRest }
    requires second_rests { second.old.standing ≡ AtRest }
    requires first_images { ImagesHave D.state first.old }
    requires second_images { ImagesHave D.state second.old }
    requires at_start { length first.old.payloads ≡ 0 → first.old.end ≡ 0 }
    ensures full { IfErr result
        (λ refusal. refusal.why ≡ Full → IsTooLong first.old.limit snapshot.now) }
    ensures none { IfErr result (λ refusal. refusal.why ≡ Full
        → (length first.old.payloads ≡ 0) × (length second.old.payloads ≡ 0)) }
    ensures fits { OnOk result (length first.old.payloads ≡ 0 → length second.old.payloads ≡ 0
        → IsTooLong first.old.limit snapshot.now → ⊥) }
    ensures first_epoch { IfOk result (λ epochs. IsTrue (D.state first.old.disk).tells
        → epochs.first ≡ epoch_in first.new.payloads) }
    ensures second_epoch { IfOk result (λ epochs. IsTrue (D.state second.old.disk).tells
        → epochs.second ≡ epoch_in second.new.payloads) }
    ensures first_some { IfOk result
        (λ epochs. 0 < length first.new.payloads → epochs.first ≡ None → ⊥) }
    ensures second_some { IfOk result
        (λ epochs. 0 < length second.new.payloads → epochs.second ≡ None → ⊥) }
    ensures first_none { IfOk result
        (λ epochs. length first.new.payloads ≡ 0 → epochs.first ≡ None) }
    ensures second_none { IfOk result
        (λ epochs. length second.new.payloads ≡ 0 → epochs.second ≡ None) }
    ensures first_end { OnOk result
        ((IsTrue (D.state first.old.disk).tells → first.old.end ≡ end_of first.old.payloads)
        → IsTrue (D.state first.old.disk).tells → first.new.end ≡ end_of first.new.payloads) }
    ensures first_limit { first.new.limit ≡ first.old.limit }
    ensures count { OnOk result (0 < length first.new.payloads + length second.new.payloads) }
    ensures first_list { OnOk result (IsTrue (D.state first.old.disk).tells
        → first.new.payloads ≡ begun snapshot.now first.old.payloads second.old.payloads) }
    ensures first_bytes { OnOk result (IsTrue (D.state first.old.disk).tells
        → (D.state first.new.disk).seen
        ≡ written_first snapshot.now first.old.payloads second.old.payloads
        (D.state first.old.disk).seen) }
    ensures first_torn { IsTrue (D.state first.old.disk).tells
        → IsWrittenTorn snapshot.now first.old.payloads second.old.payloads
        (D.state first.old.disk).seen (D.state first.new.disk).seen }
    ensures second_seen { (D.state second.new.disk).seen ≡ (D.state second.old.disk).seen }
    ensures second_stays { second.new ≡ record second.old { disk = second.new.disk } }
    ensures first_standing { OnOk result (first.new.standing ≡ AtRest) }
    ensures first_has { OnOk result (ImagesHave D.state first.new) }
    ensures second_has { OnOk result (ImagesHave D.state second.new) }
    ensures first_moment { EachMoment (D.state first.old.disk) (D.state first.new.disk)
        (IsBegun first.old.payloads second.old.payloads snapshot.now) }
    ensures second_moment { EachMoment (D.state second.old.disk) (D.state second.new.disk)
        (HasList AtRest second.old.payloads) }
    ensures cause { IfErr result (λ refusal. IsBlamedOn refusal.side refusal.why
        (D.state first.old.disk).faults (D.state second.old.disk).faults
        (D.state first.new.disk).faults (D.state second.new.disk).faults) }
    ensures first_faults { OnOk result
        ((D.state first.new.disk).faults ≡ (D.state first.old.disk).faults) }
    ensures second_faults { OnOk result
        ((D.state second.new.disk).faults ≡ (D.state second.old.disk).faults) }
    ensures first_tells { (D.state first.new.disk).tells ≡ (D.state first.old.disk).tells }
    ensures second_tells { (D.state second.new.disk).tells ≡ (D.state second.old.disk).tells }
    ensures first_arms { (D.state first.new.disk).arms ≡ (D.state first.old.disk).arms }
    ensures second_arms { (D.state second.new.disk).arms ≡ (D.state second.old.disk).arms }
{
    if let Err(why) = begin_new(alloc, first, second, snapshot) {
        return Err(Refusal {
            side: Side::First,
            why,
        });
    }
    match epoch_at(alloc, first) {
        Ok(first_epoch) => match epoch_at(alloc, second) {
            Ok(second_epoch) => Ok(Epochs {
                first: first_epoch,
                second: second_epoch,
            }),
            Err(why) => Err(Refusal {
                side: Side::Second,
                why,
            }),
        },
        Err(why) => Err(Refusal {
            side: Side::First,
            why,
        }),
    }
}
