// Calls of the log at one place, while the others stay.
ghost use Rattle.std.specs.Prelude.{◌≡◌, ◌<◌, length, IsTrue, map};
ghost use Rattle.topic_name.specs.PlainConfig.{plain_config};
ghost use Rattle.group_plan.specs.Asking.{may_ask};
ghost use Rattle.shard_disks.specs.Lists.{Moved};
ghost use Rattle.shard_log.specs.Appending.{Arms};
ghost use Rattle.plain_shards.specs.KeptShards.{AreShards, asked_of, config_of};
ghost use Rattle.plain_shards.specs.Calls.{AppendsLater, TicksLater};

use outside::Disk;
use record_codec::Op;
use shard_index::{AppendRefused, Receipt};
use shard_log::ShardLog;
use std::alloc::AllocError;

// Stores a group in the shard at a place.
pub(crate) fn append_to<D: Disk>(
    logs: &mut Vec<ShardLog<D>>,
    shard: u8,
    ops: &[Op],
    now: u64,
) -> Result<Receipt, AppendRefused>
    requires place { shard < length logs.old.items }
    requires shards { AreShards (map asked_of logs.old.items) }
    requires asked { IsTrue (may_ask
        (plain_config (config_of (map asked_of logs.old.items))) ops.now) }
    ensures moved { Moved shard (AppendsLater D.state ops.now now result)
        logs.old.items logs.new.items }
    ensures asked { map asked_of logs.new.items ≡ map asked_of logs.old.items }
{
    let log = &mut logs[shard as usize];
    log.index().facts();
    log.append(ops, now)
}

// Settles what is in doubt in the shard at a place.
pub(crate) fn tick_at<D: Disk>(
    logs: &mut Vec<ShardLog<D>>,
    shard: u8,
    now: u64,
) -> Result<(), AppendRefused>
    requires place { shard < length logs.old.items }
    ensures moved { Moved shard (TicksLater D.state result) logs.old.items logs.new.items }
    ensures asked { map asked_of logs.new.items ≡ map asked_of logs.old.items }
{
    let log = &mut logs[shard as usize];
    log.index().facts();
    log.tick(now)
}

// Lets a call of a disk of the shard at a place fail.
pub(crate) fn arm_at<D: Disk>(
    logs: &mut Vec<ShardLog<D>>,
    shard: u8,
    disk: usize,
    call: u32,
) -> Result<(), AllocError>
    requires place { shard < length logs.old.items }
    requires disk { disk < 10 }
    ensures moved { Moved shard (λ old new. Arms D.state (D.arms_at call) disk old new result)
        logs.old.items logs.new.items }
    ensures asked { map asked_of logs.new.items ≡ map asked_of logs.old.items }
{
    let log = &mut logs[shard as usize];
    log.arm(disk, call)
}
