// The work over disks in memory.
ghost use Rattle.std.specs.Prelude.{◌≡◌, IfSome, IsTrue, length, true};
ghost use Rattle.group_plan.specs.Asking.{may_ask};
ghost use Rattle.shard_bench.specs.Published.{whole_generation};

use crate::groups::group;
use crate::task::{Kind, Task};
use disk_memory::MemoryDisk;
use outside::Disk;
use record_codec::Op;
use shard_log::ShardLog;
use std::alloc::Global;
use topic_name::Config;

// One shard and one worker, and as many messages a generation as may be.
const WHOLE: Config = Config {
    shards: 1,
    workers: 1,
    top: 100,
    below: 10,
    messages: 32_768,
    retention: 0,
};

// How many disks a shard has, and the place of the first slot's among them.
const DISKS: usize = 10;

const FIRST_SLOT: usize = 2;

/// Does a task: how many appends or mounts were made, or how many bytes are on disk; `None` where memory or a group was refused.
pub(crate) fn do_task(alloc: Global, task: &Task) -> Option<u64> {
    let ops = group(alloc, task.many)?;
    match task.kind {
        Kind::Appends => append_times(alloc, &ops, task.count, task.times),
        Kind::Mounts => {
            let log = appended(alloc, &ops, task.count)?;
            mount_times(alloc, log, task.times)
        }
        Kind::Bytes => {
            let log = appended(alloc, &ops, task.count)?;
            Some(log.disk(FIRST_SLOT).size())
        }
    }
}

// The shard on these disks.
fn mounted(alloc: Global, disks: Vec<MemoryDisk>) -> Option<ShardLog<MemoryDisk>>
    ensures { IfSome result (λ log. log.asked ≡ record { config = WHOLE; shard = 0 }) }
{
    if disks.len() != DISKS {
        return None;
    }
    match ShardLog::mount(alloc, disks, WHOLE, 0, 0) {
        Ok(log) => Some(log),
        Err(_) => None,
    }
}

// A shard on new disks.
fn begun(alloc: Global) -> Option<ShardLog<MemoryDisk>>
    ensures { IfSome result (λ log. log.asked ≡ record { config = WHOLE; shard = 0 }) }
{
    let mut disks = Vec::new(alloc);
    for _ in 0..DISKS {
        disks.push(MemoryDisk::new(alloc)).ok()?;
    }
    mounted(alloc, disks)
}

// Appends a group: whether that was done.
fn append(log: &mut ShardLog<MemoryDisk>, ops: &[Op]) -> bool
    requires may { IsTrue (may_ask whole_generation ops.now) }
    requires asked { log.old.asked ≡ record { config = WHOLE; shard = 0 } }
    ensures { log.new.asked ≡ record { config = WHOLE; shard = 0 } }
{
    log.append(ops, 0).is_ok()
}

// A shard after so many appends of a group.
fn appended(alloc: Global, ops: &[Op], count: u64) -> Option<ShardLog<MemoryDisk>>
    requires { IsTrue (may_ask whole_generation ops.now) }
{
    let mut log = begun(alloc)?;
    for _ in 0..count {
        if !append(&mut log, ops) {
            return None;
        }
    }
    Some(log)
}

// So many appends to a new shard, so many times: how many appends.
fn append_times(alloc: Global, ops: &[Op], count: u64, times: u64) -> Option<u64>
    requires { IsTrue (may_ask whole_generation ops.now) }
{
    for _ in 0..times {
        appended(alloc, ops, count)?;
    }
    Some(count.saturating_mul(times))
}

// Mounts a shard's disks so many times: how often.
fn mount_times(alloc: Global, log: ShardLog<MemoryDisk>, times: u64) -> Option<u64> {
    let mut log = log;
    for _ in 0..times {
        log = mounted(alloc, log.into_disks())?;
    }
    drop(log);
    Some(times)
}
