// The device calls of a commit.
ghost use Rattle.std.specs.Prelude.{◌≡◌, ◌∷◌, ◌++◌, [], ◌<◌, ◌≤◌, ◌+◌, ◌^◌, ◌-◌, IsTrue, length, OnOk, OnErr};
ghost use Rattle.outside.specs.Cause.{HasCause};
ghost use Rattle.outside.specs.DiskModel.{Holds, Runs, Torn};
ghost use Rattle.gated_log.specs.Calls.{EachMoment, with_record};
ghost use Rattle.gated_log.specs.Records.{body_bytes, records};
ghost use Rattle.gated_log.specs.Stands.{IsBeforeOrAfter, IsInCommit, IsInDoubt, IsStanding, IsWritten};

use crate::Draft;
use outside::{Disk, Failed};

// Writes the body behind the closed gate at this place, and syncs it.
#[tactic(auto, using(crate::proofs::CommitLemmas::body_images, crate::proofs::CrashLemmas::body_written, crate::proofs::CrashLemmas::body_torn))]
pub(crate) fn write_body<D: Disk>(disk: &mut D, place: u64, draft: &Draft) -> Result<(), Failed>
    requires within { place < (D.state disk.old).size }
    requires fits { place + (6 + length draft.now) ≤ 2 ^ 64 - 1 }
    requires stands { IsTrue (D.state disk.old).tells
        → IsStanding place (D.state disk.old).seen (D.state disk.old).may_leave }
    ensures holds { OnOk result (IsTrue (D.state disk.old).tells
        → Holds (D.state disk.old).seen (place + 1) (body_bytes draft.now)
        (D.state disk.new).seen) }
    ensures torn { IsTrue (D.state disk.old).tells
        → Torn (place + 1) (5 + length draft.now) (D.state disk.old).seen (D.state disk.new).seen }
    ensures written { OnOk result (IsTrue (D.state disk.old).tells
        → IsWritten (records (D.state disk.old).seen) draft.now place 0 (D.state disk.new).seen
        (D.state disk.new).may_leave) }
    ensures doubt { OnErr result (IsTrue (D.state disk.old).tells
        → IsInDoubt (records (D.state disk.old).seen) draft.now place (D.state disk.new).seen
        (D.state disk.new).may_leave) }
    ensures any_moment { EachMoment (D.state disk.old) (D.state disk.new)
        (IsInCommit (records (D.state disk.old).seen) draft.now place) }
    ensures some { 0 < length draft.now }
    ensures short { length draft.now ≤ 1342177280 }
    ensures size { OnOk result (place + (6 + length draft.now) ≤ (D.state disk.new).size) }
    ensures no_shorter { (D.state disk.old).size ≤ (D.state disk.new).size }
    ensures run { Runs 2 2 (D.state disk.old) (D.state disk.new) result }
    ensures cause { HasCause (D.state disk.old).faults (D.state disk.new).faults result }
{
    disk.write_at(place + 1, draft.body())?;
    disk.sync()?;
    Ok(())
}

// The body, then the gate, each synced.
#[tactic(auto, using(crate::proofs::CommitLemmas::gate_images, crate::proofs::CommitLemmas::gate_written))]
pub(crate) fn write_gated<D: Disk>(disk: &mut D, place: u64, draft: &Draft) -> Result<(), Failed>
    requires within { place < (D.state disk.old).size }
    requires fits { place + (6 + length draft.now) ≤ 2 ^ 64 - 1 }
    requires stands { IsTrue (D.state disk.old).tells
        → IsStanding place (D.state disk.old).seen (D.state disk.old).may_leave }
    ensures bytes { OnOk result (IsTrue (D.state disk.old).tells
        → (D.state disk.new).seen ≡ with_record place draft.now (D.state disk.old).seen) }
    ensures torn { IsTrue (D.state disk.old).tells
        → Torn place (6 + length draft.now) (D.state disk.old).seen (D.state disk.new).seen }
    ensures written { OnOk result (IsTrue (D.state disk.old).tells
        → IsWritten (records (D.state disk.old).seen) draft.now place 1 (D.state disk.new).seen
        (D.state disk.new).may_leave) }
    ensures doubt { OnErr result (IsTrue (D.state disk.old).tells
        → IsInDoubt (records (D.state disk.old).seen) draft.now place (D.state disk.new).seen
        (D.state disk.new).may_leave) }
    ensures any_moment { EachMoment (D.state disk.old) (D.state disk.new)
        (IsInCommit (records (D.state disk.old).seen) draft.now place) }
    ensures some { 0 < length draft.now }
    ensures short { length draft.now ≤ 1342177280 }
    ensures size { OnOk result (place + (6 + length draft.now) ≤ (D.state disk.new).size) }
    ensures no_shorter { (D.state disk.old).size ≤ (D.state disk.new).size }
    ensures run { Runs 4 4 (D.state disk.old) (D.state disk.new) result }
    ensures cause { HasCause (D.state disk.old).faults (D.state disk.new).faults result }
{
    write_body(disk, place, draft)?;
    disk.write_at(place, &[1])?;
    disk.sync()?;
    Ok(())
}

// The device calls of a commit: the body behind the closed gate at this place, a sync, the open gate, a sync. At every
// moment each image has the list of before or the list with the draft; after `Ok` each has the list with the draft.
pub(crate) fn write_record<D: Disk>(disk: &mut D, place: u64, draft: &Draft) -> Result<(), Failed>
    requires within { place < (D.state disk.old).size }
    requires fits { place + (6 + length draft.now) ≤ 2 ^ 64 - 1 }
    requires stands { IsTrue (D.state disk.old).tells
        → IsStanding place (D.state disk.old).seen (D.state disk.old).may_leave }
    ensures bytes { OnOk result (IsTrue (D.state disk.old).tells
        → (D.state disk.new).seen ≡ with_record place draft.now (D.state disk.old).seen) }
    ensures torn { IsTrue (D.state disk.old).tells
        → Torn place (6 + length draft.now) (D.state disk.old).seen (D.state disk.new).seen }
    ensures list { OnOk result (IsTrue (D.state disk.old).tells
        → records (D.state disk.new).seen ≡ records (D.state disk.old).seen ++ draft.now ∷ []) }
    ensures stands { OnOk result (IsTrue (D.state disk.old).tells
        → IsStanding (place + (5 + length draft.now)) (D.state disk.new).seen
        (D.state disk.new).may_leave) }
    ensures doubt { OnErr result (IsTrue (D.state disk.old).tells
        → IsInDoubt (records (D.state disk.old).seen) draft.now place (D.state disk.new).seen
        (D.state disk.new).may_leave) }
    ensures any_moment { EachMoment (D.state disk.old) (D.state disk.new)
        (IsBeforeOrAfter (records (D.state disk.old).seen) draft.now) }
    ensures size { OnOk result (place + (6 + length draft.now) ≤ (D.state disk.new).size) }
    ensures no_shorter { (D.state disk.old).size ≤ (D.state disk.new).size }
    ensures run { Runs 4 4 (D.state disk.old) (D.state disk.new) result }
    ensures cause { HasCause (D.state disk.old).faults (D.state disk.new).faults result }
{
    write_gated(disk, place, draft)
}
