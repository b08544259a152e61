// The device calls that close a gate.
ghost use Rattle.std.specs.Prelude.{◌≡◌, ◌∷◌, [], ◌<◌, ◌≤◌, ◌+◌, IsTrue, take, drop, OnOk, OnErr, IfOk};
ghost use Rattle.outside.specs.Cause.{HasCause};
ghost use Rattle.outside.specs.DiskModel.{IsCalled, Only, Runs, Torn, WritesNone};
ghost use Rattle.gated_log.specs.Calls.{EachMoment};
ghost use Rattle.gated_log.specs.Closing.{HasOldList, IsClosing, IsGateTorn, WithGate, closing_calls};
ghost use Rattle.gated_log.specs.Stands.{Stands};

use outside::{Disk, Failed};

// Reads the byte at this place.
pub(crate) fn gate_at<D: Disk>(disk: &mut D, place: u64) -> Result<u8, Failed>
    requires within { place < (D.state disk.old).size }
    ensures gate { IfOk result (λ gate. IsTrue (D.state disk.old).tells
        → gate ∷ [] ≡ take 1 (drop place (D.state disk.old).seen)) }
    ensures called { IsCalled (D.state disk.old) (D.state disk.new) result }
    ensures writes_none { WritesNone (D.state disk.old) (D.state disk.new) }
{
    let mut gate = [0];
    disk.read(place, &mut gate)?;
    Ok(gate[0])
}

// Writes 00 at this place, and syncs it.
pub(crate) fn write_closed<D: Disk>(disk: &mut D, place: u64) -> Result<(), Failed>
    requires within { place ≤ (D.state disk.old).size }
    requires alone { IsTrue (D.state disk.old).tells
        → Only (D.state disk.old).seen (D.state disk.old).may_leave }
    ensures closed { OnOk result (IsTrue (D.state disk.old).tells
        → WithGate place 0 (D.state disk.old).seen (D.state disk.new).seen) }
    ensures torn { IsTrue (D.state disk.old).tells
        → Torn place 1 (D.state disk.old).seen (D.state disk.new).seen }
    ensures durable { OnOk result (IsTrue (D.state disk.old).tells
        → Only (D.state disk.new).seen (D.state disk.new).may_leave) }
    ensures any_moment { EachMoment (D.state disk.old) (D.state disk.new)
        (IsGateTorn place (D.state disk.old).seen) }
    ensures size { OnOk result (place < (D.state disk.new).size) }
    ensures no_shorter { (D.state disk.old).size ≤ (D.state disk.new).size }
    ensures run { Runs 2 2 (D.state disk.old) (D.state disk.new) result }
    ensures cause { HasCause (D.state disk.old).faults (D.state disk.new).faults result }
{
    disk.write_at(place, &[0])?;
    disk.sync()?;
    Ok(())
}

// Sees that the byte at this place is 00.
#[tactic(auto, using(crate::proofs::ClosingLemmas::gate_is))]
pub(crate) fn close_there<D: Disk>(disk: &mut D, place: u64) -> Result<(), Failed>
    requires within { place < (D.state disk.old).size }
    requires alone { IsTrue (D.state disk.old).tells
        → Only (D.state disk.old).seen (D.state disk.old).may_leave }
    ensures closed { OnOk result (IsTrue (D.state disk.old).tells
        → WithGate place 0 (D.state disk.old).seen (D.state disk.new).seen) }
    ensures torn { IsTrue (D.state disk.old).tells
        → IsGateTorn place (D.state disk.old).seen (D.state disk.new).seen }
    ensures durable { OnOk result (IsTrue (D.state disk.old).tells
        → Only (D.state disk.new).seen (D.state disk.new).may_leave) }
    ensures any_moment { EachMoment (D.state disk.old) (D.state disk.new)
        (IsClosing place (D.state disk.old).seen) }
    ensures no_shorter { (D.state disk.old).size ≤ (D.state disk.new).size }
    ensures run { Runs 1 3 (D.state disk.old) (D.state disk.new) result }
    ensures calls { OnOk result (IsTrue (D.state disk.old).tells
        → (D.state disk.new).calls
        ≡ (D.state disk.old).calls + closing_calls place (D.state disk.old).seen) }
    ensures cause { HasCause (D.state disk.old).faults (D.state disk.new).faults result }
{
    if gate_at(disk, place)? == 0 {
        return Ok(());
    }
    write_closed(disk, place)
}

// Sees that 00 stands at this place.
pub(crate) fn close<D: Disk>(disk: &mut D, place: u64) -> Result<(), Failed>
    requires within { place ≤ (D.state disk.old).size }
    requires alone { IsTrue (D.state disk.old).tells
        → Only (D.state disk.old).seen (D.state disk.old).may_leave }
    ensures closed { OnOk result (IsTrue (D.state disk.old).tells
        → WithGate place 0 (D.state disk.old).seen (D.state disk.new).seen) }
    ensures torn { IsTrue (D.state disk.old).tells
        → IsGateTorn place (D.state disk.old).seen (D.state disk.new).seen }
    ensures durable { OnOk result (IsTrue (D.state disk.old).tells
        → Only (D.state disk.new).seen (D.state disk.new).may_leave) }
    ensures any_moment { EachMoment (D.state disk.old) (D.state disk.new)
        (IsClosing place (D.state disk.old).seen) }
    ensures size { OnOk result (place < (D.state disk.new).size) }
    ensures run { Runs 1 3 (D.state disk.old) (D.state disk.new) result }
    ensures cause { HasCause (D.state disk.old).faults (D.state disk.new).faults result }
{
    if place < disk.size() {
        close_there(disk, place)
    } else {
        write_closed(disk, place)
    }
}

// Syncs, and sees that 00 stands at the front.
pub(crate) fn empty<D: Disk>(disk: &mut D) -> Result<(), Failed>
    requires { 0 < (D.state disk.old).size }
    ensures closed { OnOk result (IsTrue (D.state disk.old).tells
        → WithGate 0 0 (D.state disk.old).seen (D.state disk.new).seen) }
    ensures torn { IsTrue (D.state disk.old).tells
        → IsGateTorn 0 (D.state disk.old).seen (D.state disk.new).seen }
    ensures stands { OnOk result
        (IsTrue (D.state disk.old).tells → Stands [] 0 (D.state disk.new).seen) }
    ensures durable { OnOk result (IsTrue (D.state disk.old).tells
        → Only (D.state disk.new).seen (D.state disk.new).may_leave) }
    ensures any_moment { EachMoment (D.state disk.old) (D.state disk.new)
        (HasOldList (D.state disk.old).may_leave) }
    ensures no_shorter { (D.state disk.old).size ≤ (D.state disk.new).size }
    ensures run { Runs 2 4 (D.state disk.old) (D.state disk.new) result }
    ensures calls { OnOk result (IsTrue (D.state disk.old).tells
        → (D.state disk.new).calls
        ≡ (D.state disk.old).calls + (1 + closing_calls 0 (D.state disk.old).seen)) }
    ensures cause { HasCause (D.state disk.old).faults (D.state disk.new).faults result }
{
    disk.sync()?; // what is pending behind the gate is settled first
    close_there(disk, 0)
}

// Syncs, and reads the byte at this place.
pub(crate) fn read_gate<D: Disk>(disk: &mut D, place: u64) -> Result<u8, Failed>
    requires within { place < (D.state disk.old).size }
    ensures gate { IfOk result (λ gate. IsTrue (D.state disk.old).tells
        → gate ∷ [] ≡ take 1 (drop place (D.state disk.old).seen)) }
    ensures durable { OnOk result (Only (D.state disk.old).seen (D.state disk.new).may_leave) }
    ensures writes_none { WritesNone (D.state disk.old) (D.state disk.new) }
    ensures any_moment { EachMoment (D.state disk.old) (D.state disk.new)
        (D.state disk.old).may_leave }
    ensures run { Runs 2 2 (D.state disk.old) (D.state disk.new) result }
    ensures cause { HasCause (D.state disk.old).faults (D.state disk.new).faults result }
{
    disk.sync()?;
    gate_at(disk, place)
}
