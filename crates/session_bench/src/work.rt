// The work over disks in memory.
ghost use Rattle.std.specs.Prelude.{◌≡◌, IfSome, IsTrue, true};
ghost use Rattle.session_codec.specs.HasSpelling.{fits_sessions, have_spelling};
ghost use Rattle.pair_log.specs.declared.doubt.Doubt.TheVariants.{Nothing};

use crate::records::{acked, began, issued, subscribed};
use crate::task::Task;
use disk_memory::MemoryDisk;
use durable_tests::Held;
use session_codec::{SECOND_FORMAT, changes_keep_spelling, read_changes, write_snapshot};
use session_journal::act_all;
use session_state::{Change, Sessions};
use std::alloc::Global;
use topic_name::Config;

// One shard and one worker.
const ONE: Config = Config {
    shards: 1,
    workers: 1,
    top: 1,
    below: 1,
    messages: 1,
    retention: 0,
};

const CLIENT: &str = "device";

/// Does a task: how many commits, mounts or snapshots were made, `None` where memory was refused.
pub(crate) fn do_task(alloc: Global, task: &Task) -> Option<u64> {
    match *task {
        Task::Commits { count, unfinished } => {
            let held = acknowledged(alloc, count, unfinished.max(1))?;
            Some((held.sessions().len() as u64).saturating_mul(count))
        }
        Task::Mounts { count, mounts } => {
            let held = acknowledged(alloc, count, 1)?;
            mount_times(alloc, held, mounts)
        }
        Task::Snapshots { sessions, times } => {
            let sessions = begun(alloc, sessions)?;
            write_times(alloc, &sessions, times)
        }
    }
}

// The changes of a record, where there is one shard.
fn changes_of(alloc: Global, record: &[u8]) -> Option<Vec<Change>>
    ensures { IfSome result (λ changes. IsTrue (have_spelling SECOND_FORMAT 1 changes.items)) }
{
    match read_changes(alloc, record, 1, SECOND_FORMAT) {
        Ok(changes) => Some(changes),
        Err(_) => None,
    }
}

// Commits a record: whether that was done.
fn commit(alloc: Global, held: &mut Held<MemoryDisk>, record: &[u8]) -> bool
    requires rests { held.old.journal.pair.doubt ≡ Nothing }
    requires shards { held.old.journal.asked.shards ≡ 1 }
    ensures rests { result ≡ true → held.new.journal.pair.doubt ≡ Nothing }
    ensures shards { held.new.journal.asked.shards ≡ 1 }
{
    let Some(changes) = changes_of(alloc, record) else {
        return false;
    };
    held.commit(&changes) == Some(true)
}

// The journal on two disks.
fn mounted(alloc: Global, first: MemoryDisk, second: MemoryDisk) -> Option<Held<MemoryDisk>>
    ensures rests { IfSome result (λ h. h.journal.pair.doubt ≡ Nothing) }
    ensures shards { IfSome result (λ h. h.journal.asked.shards ≡ 1) }
{
    match Held::mount(alloc, first, second, ONE, 0) {
        Ok(held) => Some(held),
        Err(_) => None,
    }
}

// A journal with one session that has a subscription.
fn first_journal(alloc: Global) -> Option<Held<MemoryDisk>>
    ensures rests { IfSome result (λ h. h.journal.pair.doubt ≡ Nothing) }
    ensures shards { IfSome result (λ h. h.journal.asked.shards ≡ 1) }
{
    let mut held = mounted(alloc, MemoryDisk::new(alloc), MemoryDisk::new(alloc))?;
    let record = began(alloc, CLIENT, 1).ok()?;
    if !commit(alloc, &mut held, &record) {
        return None;
    }
    let record = subscribed(alloc, CLIENT).ok()?;
    if !commit(alloc, &mut held, &record) {
        return None;
    }
    Some(held)
}

// Commits the acknowledgement of a number, and where it is the first of a batch that batch before it: whether that was done.
fn acknowledge(alloc: Global, held: &mut Held<MemoryDisk>, number: u64, batch: u16) -> bool
    requires rests { held.old.journal.pair.doubt ≡ Nothing }
    requires shards { held.old.journal.asked.shards ≡ 1 }
    ensures rests { result ≡ true → held.new.journal.pair.doubt ≡ Nothing }
    ensures shards { held.new.journal.asked.shards ≡ 1 }
{
    if !issue(alloc, held, number, batch) {
        return false;
    }
    let Ok(record) = acked(alloc, CLIENT, number) else {
        return false;
    };
    commit(alloc, held, &record)
}

// Commits a batch that begins with this number, where one does: whether that was done.
fn issue(alloc: Global, held: &mut Held<MemoryDisk>, number: u64, batch: u16) -> bool
    requires rests { held.old.journal.pair.doubt ≡ Nothing }
    requires shards { held.old.journal.asked.shards ≡ 1 }
    ensures rests { result ≡ true → held.new.journal.pair.doubt ≡ Nothing }
    ensures shards { held.new.journal.asked.shards ≡ 1 }
{
    let begins = batch > 0 && number.wrapping_sub(1) % u64::from(batch) == 0;
    if !begins {
        return true;
    }
    let Ok(record) = issued(alloc, CLIENT, number, batch) else {
        return false;
    };
    commit(alloc, held, &record)
}

// A journal after so many acknowledgements, of batches of so many.
fn acknowledged(alloc: Global, count: u64, batch: u16) -> Option<Held<MemoryDisk>>
    ensures rests { IfSome result (λ h. h.journal.pair.doubt ≡ Nothing) }
    ensures shards { IfSome result (λ h. h.journal.asked.shards ≡ 1) }
{
    let mut held = first_journal(alloc)?;
    for before in 0..count {
        if !acknowledge(alloc, &mut held, before + 1, batch) {
            return None;
        }
    }
    Some(held)
}

// Takes the disks of a journal and mounts them.
fn mounted_again(alloc: Global, held: Held<MemoryDisk>) -> Option<Held<MemoryDisk>> {
    let mut disks = Vec::new(alloc);
    disks.reserve(2).ok()?;
    held.into_journal().disks(&mut disks);
    let second = disks.pop()?;
    let first = disks.pop()?;
    mounted(alloc, first, second)
}

// So many times: how often.
fn mount_times(alloc: Global, held: Held<MemoryDisk>, times: u64) -> Option<u64> {
    let mut held = held;
    for _round in 0..times {
        held = mounted_again(alloc, held)?;
    }
    Some((held.sessions().len() as u64).saturating_mul(times))
}

// One more session begins: whether it did.
fn begin(alloc: Global, sessions: &mut Sessions, number: u64) -> bool
    requires { IsTrue (fits_sessions SECOND_FORMAT 1 sessions.old) }
    ensures { result ≡ true → IsTrue (fits_sessions SECOND_FORMAT 1 sessions.new) }
{
    changes_keep_spelling();
    let Ok(client) = format!(in alloc; "device-{number}") else {
        return false;
    };
    let Ok(record) = began(alloc, &client, number) else {
        return false;
    };
    let Some(changes) = changes_of(alloc, &record) else {
        return false;
    };
    let fit = act_all(sessions, &changes);
    fit == Ok(true)
}

// So many sessions.
fn begun(alloc: Global, count: u64) -> Option<Sessions>
    ensures { IfSome result (λ s. IsTrue (fits_sessions SECOND_FORMAT 1 s)) }
{
    let mut sessions = Sessions::new(alloc);
    for before in 0..count {
        if !begin(alloc, &mut sessions, before + 1) {
            return None;
        }
    }
    Some(sessions)
}

// Writes a snapshot of them so many times, each time into the emptied vector: how often.
fn write_times(alloc: Global, sessions: &Sessions, times: u64) -> Option<u64>
    requires { IsTrue (fits_sessions SECOND_FORMAT 1 sessions.now) }
{
    let mut out = Vec::new(alloc);
    for _round in 0..times {
        out.clear();
        write_snapshot(1, 1, 0, sessions, &mut out).ok()?;
    }
    Some(times)
}
