// The shards of one thread, written and viewed in turn.
ghost use Rattle.std.specs.Prelude.{◌≡◌, ◌<◌, IfOk, IfSome, ◌∷◌, [], map, length};
ghost use Rattle.plain_shards.specs.KeptShards.{IsOf, asked_of, none_in_view};

use crate::disks::new_disks;
use crate::shown::shown;
use crate::stop_rows::{AFTER, BEFORE, group};
use disk_memory::MemoryDisk;
use plain_shards::PlainShards;
use shard_index::{AppendRefused, Receipt};
use shard_log::ShardLog;
use shard_views::Readers;
use std::alloc::Global;
use std::process::Abort;
use std::test::Fail;
use topic_name::Config;

// Two shards and one worker, with three messages a generation.
const TWO: Config = Config {
    shards: 2,
    workers: 1,
    top: 1,
    below: 1,
    messages: 3,
    retention: 0,
};

// One of the shards, on new disks.
fn log_of(alloc: Global, shard: u8) -> Option<ShardLog<MemoryDisk>>
    requires { shard < 2 }
    ensures { IfSome result (λ log. log.asked ≡ record { config = TWO; shard = shard }) }
{
    let disks = new_disks(alloc)?;
    match ShardLog::mount(alloc, disks, TWO, shard, 0) {
        Ok(log) => Some(log),
        Err(_) => None,
    }
}

fn two_logs(alloc: Global) -> Option<Vec<ShardLog<MemoryDisk>>>
    ensures { IfSome result (λ logs. map asked_of logs.items
        ≡ record { config = TWO; shard = 0 } ∷ (record { config = TWO; shard = 1 } ∷ [])) }
{
    let first = log_of(alloc, 0)?;
    let second = log_of(alloc, 1)?;
    let mut logs = Vec::new(alloc);
    logs.push(first).ok()?;
    logs.push(second).ok()?;
    Some(logs)
}

// The two shards, of which none is in view.
fn two_shards(alloc: Global) -> Option<PlainShards<MemoryDisk>>
    ensures asked { IfSome result (λ shards. map asked_of shards.logs
        ≡ record { config = TWO; shard = 0 } ∷ (record { config = TWO; shard = 1 } ∷ [])) }
    ensures two { IfSome result (λ shards. length shards.logs ≡ 2) }
    ensures none { IfSome result (λ shards. shards.in_view ≡ none_in_view) }
{
    let logs = two_logs(alloc)?;
    Some(PlainShards::new(logs))
}

// What a view of a shard shows.
fn seen(alloc: Global, shards: &mut PlainShards<MemoryDisk>, shard: u8) -> Option<String>
    requires shard { shard < length shards.old.logs }
    requires none { shards.old.in_view ≡ none_in_view }
    ensures none { shards.new.in_view ≡ none_in_view }
    ensures logs { shards.new.logs ≡ shards.old.logs }
{
    let _count = shards.count();
    let Ok(()) = shards.view(shard) else {
        unreachable!()
    };
    let text = shown(alloc, shards.index(shard)).ok();
    shards.leave();
    text
}

// Learns the receipt of an append, where there is one.
fn learn(shards: &mut PlainShards<MemoryDisk>, done: Result<Receipt, AppendRefused>)
    requires none { shards.old.in_view ≡ none_in_view }
    requires of { IfOk done (IsOf shards.old) }
    ensures { shards.new ≡ shards.old }
{
    let _count = shards.count();
    if let Ok(receipt) = done {
        shards.learn(receipt);
    }
}

// What views show of both shards once a message was appended to the second one while this call of its first slot's disk failed, 0 for
// none; and what a view of the second shows after a tick.
fn viewed(alloc: Global, failing: u32) -> Option<String> {
    let mut shards = two_shards(alloc)?;
    let ops = group(alloc)?;
    shards.arm(1, 2, failing).ok()?;
    let done = shards.append(1, &ops, 0);
    learn(&mut shards, done);
    let first = seen(alloc, &mut shards, 0)?;
    let second = seen(alloc, &mut shards, 1)?;
    shards.tick(1, 0).ok()?;
    let later = seen(alloc, &mut shards, 1)?;
    format!(in alloc; "{first}, {second}, {later}").ok()
}

// A view shows what its shard's log knows: not what is in doubt, until it is settled.
#[test]
fn a_view_shows_what_is_known(rt: HostRuntime) -> Result<(), Fail> {
    let rows = [
        (0, BEFORE, AFTER, AFTER),
        (1, BEFORE, BEFORE, BEFORE),
        (2, BEFORE, BEFORE, BEFORE),
        (4, BEFORE, BEFORE, AFTER),
    ];
    for (failing, first, second, later) in rows {
        let wanted = format!(in rt.alloc(); "{first}, {second}, {later}")?;
        let held = viewed(rt.alloc(), failing);
        assert_eq!(rt; held.as_deref(), Some(&*wanted), "at {failing}");
    }
    Ok(())
}
