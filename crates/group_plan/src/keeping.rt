// Which operations of a group are kept, decided in order, without a change of the index.
ghost use Rattle.std.specs.Prelude.{◌≡◌, ◌≤◌, length, map, IfOk};
ghost use Rattle.record_codec.specs.Records.{plain_ops};
ghost use Rattle.group_plan.specs.Keeping.{awaited_after, chosen};

use crate::counting::total_behind;
use record_codec::{MOST_OPERATIONS, Op};
use shard_index::Index;
use std::alloc::{AllocError, Global};

// The operations that are kept, in order, and how many identifiers are awaited behind them.
#[derive(Drop)]
pub(crate) struct Kept<'a> {
    pub(crate) ops: Vec<&'a Op>,
    pub(crate) awaited: u128,
}

// `None` of `total_behind` leaves an operation out; the others are those that the next ones are decided behind.
pub(crate) fn kept_of<'a>(
    alloc: Global,
    index: &Index,
    ops: &'a [Op],
) -> Result<Kept<'a>, AllocError>
    requires { length ops.now ≤ MOST_OPERATIONS }
    ensures ops { IfOk result (λ kept. map (λ o. o.now) kept.ops.items
        ≡ chosen index.now.awaited ops.now) }
    ensures awaited { IfOk result (λ kept. kept.awaited ≡ length (awaited_after
        index.now.awaited (plain_ops (chosen index.now.awaited ops.now)))) }
{
    let mut kept = Vec::new(alloc);
    let mut awaited = index.awaited_count() as u128;
    for op in ops {
        if let Some(total) = total_behind(index, &kept, op, awaited) {
            kept.push(op)?;
            awaited = total;
        }
    }
    Ok(Kept { ops: kept, awaited })
}
