ghost use Rattle.std.specs.Prelude.{◌≤◌, length, IsTrue, IfOk};
ghost use Rattle.shard_index.specs.KeptIndex.{list_of};
ghost use Rattle.group_plan.specs.Plan.{fit_alone};
ghost use Rattle.group_plan.specs.Planning.{IsPlan, HasSpelling};

use crate::keeping::kept_of;
use crate::outcome::Plan;
use crate::placing::stored_from;
use crate::room::lacks_room;
use record_codec::{MOST_OPERATIONS, Op};
use shard_index::Index;
use std::alloc::{AllocError, Global};

// The most identifiers that a shard awaits.
const MOST_AWAITED: u128 = 4096;

/// What a shard makes of a group, at a moment in milliseconds. The index stays as it is: where the group is stored, it takes
/// the plan's operations once the record is on disk. A group without room is refused before one that would await too many.
pub fn plan(alloc: Global, index: &Index, ops: &[Op], now: u64) -> Result<Plan, AllocError>
    requires few { length ops.now ≤ MOST_OPERATIONS }
    requires fit { IsTrue (fit_alone ops.now) }
    // It is the plan of the definition.
    ensures exact { IfOk result (λ plan. IsPlan (list_of index.now) ops.now now plan) }
    // A record that is to be written spells a group, and has at most `MOST_RECORD` bytes.
    ensures spelled { IfOk result (λ plan. HasSpelling (list_of index.now) ops.now now plan) }
{
    index.facts();
    let kept = kept_of(alloc, index, ops)?;
    if kept.ops.is_empty() {
        return Ok(Plan::Nothing);
    }
    if lacks_room(index, &kept.ops) {
        return Ok(Plan::Full);
    }
    if kept.awaited > MOST_AWAITED {
        return Ok(Plan::AwaitFull);
    }
    let stored = stored_from(alloc, &kept.ops, index.next_offset(), now)?;
    Ok(Plan::Stores(stored))
}
