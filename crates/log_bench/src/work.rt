// The work over one disk.
ghost use Rattle.std.specs.Prelude.{◌≡◌, ◌==◌, ◌+◌, ◌<◌, ◌≤◌, [], ◌++◌, length, replicate, slice_index_or, if◌then◌else◌, map, IsTrue, IfOk, OnOk, Some, None};
ghost use Rattle.gated_log.specs.PlainLog.{AtRest};
ghost use Rattle.gated_log.specs.Calls.{ImagesHave};
ghost use Rattle.gated_log.specs.Records.{records};
ghost use Rattle.log_bench.specs.Answer.{answer_to, read_after};
ghost use Rattle.log_bench.specs.Words.{IsPossible};

use crate::done::Done;
use crate::words::Task;
use disk_memory::MemoryDisk;
use gated_log::{Draft, Log, LogRefused};
use outside::Disk;
use std::alloc::{AllocError, Global};

// The bytes of a record.
const RECORD_LENGTH: usize = 1024;

/// Does a task over a new disk in memory. What was refused is handed on, as `do_task` says.
pub fn do_in_memory(alloc: Global, task: &Task) -> Result<Done, LogRefused>
    requires possible { IsPossible task.now }
    ensures done { IfOk result (λ done. done ≡ answer_to task.now) }
{
    do_task(alloc, MemoryDisk::new(alloc), task)
}

/// Does a task over a disk with no records. What was refused is handed on: memory, or what the log answered for its
/// disk, which is let go.
pub fn do_task<D: Disk + Drop>(alloc: Global, disk: D, task: &Task) -> Result<Done, LogRefused>
    requires possible { IsPossible task.now }
    ensures done { IfOk result
        (λ done. IsTrue (D.state disk).tells → records (D.state disk).seen ≡ []
        → done ≡ answer_to task.now) }
{
    match *task {
        Task::Commits { count } => do_commits(alloc, disk, count),
        Task::Mounts { count, mounts } => do_mounts(alloc, disk, count, mounts),
        Task::Entries {
            count,
            entry,
            reads,
        } => do_entries(alloc, disk, count, entry, reads),
    }
}

// Commits, and counts the records.
fn do_commits<D: Disk + Drop>(alloc: Global, disk: D, count: u64) -> Result<Done, LogRefused>
    ensures count { IfOk result
        (λ done. IsTrue (D.state disk).tells → records (D.state disk).seen ≡ []
        → done.count ≡ count) }
    ensures read { IfOk result (λ done. done.read ≡ None) }
{
    let log = filled(alloc, disk, count)?;
    Ok(Done {
        count: log.count(),
        read: None,
    })
}

// Commits, mounts the disk so many times, and counts the records.
fn do_mounts<D: Disk + Drop>(
    alloc: Global,
    disk: D,
    count: u64,
    mounts: u64,
) -> Result<Done, LogRefused>
    ensures count { IfOk result
        (λ done. IsTrue (D.state disk).tells → records (D.state disk).seen ≡ []
        → done.count ≡ count) }
    ensures read { IfOk result (λ done. done.read ≡ None) }
{
    let log = filled(alloc, disk, count)?;
    let log = mounted_again(alloc, log, mounts)?;
    Ok(Done {
        count: log.count(),
        read: None,
    })
}

// Commits, reads one record so many times, and counts the records.
fn do_entries<D: Disk + Drop>(
    alloc: Global,
    disk: D,
    count: u64,
    entry: u64,
    reads: u64,
) -> Result<Done, LogRefused>
    requires within { entry < count }
    ensures count { IfOk result
        (λ done. IsTrue (D.state disk).tells → records (D.state disk).seen ≡ []
        → done.count ≡ count) }
    ensures read { IfOk result
        (λ done. IsTrue (D.state disk).tells → records (D.state disk).seen ≡ []
        → done.read ≡ Some (read_after reads)) }
{
    let mut log = filled(alloc, disk, count)?;
    let bytes = read_times(alloc, &mut log, entry, reads)?;
    Ok(Done {
        count: log.count(),
        read: Some(bytes),
    })
}

// The log on a disk, with no limit.
fn mounted<D: Disk + Drop>(alloc: Global, disk: D) -> Result<Log<D>, LogRefused>
    ensures list { IfOk result
        (λ log. IsTrue (D.state disk).tells → log.payloads ≡ records (D.state disk).seen) }
    ensures images { IfOk result (λ log. ImagesHave D.state log) }
    ensures rests { IfOk result (λ log. log.standing ≡ AtRest) }
    ensures tells { IfOk result (λ log. (D.state log.disk).tells ≡ (D.state disk).tells) }
{
    match Log::mount(alloc, disk, u64::MAX) {
        Ok(log) => Ok(log),
        Err((_, refused)) => Err(refused),
    }
}

// The log on a disk, after so many commits of one record.
fn filled<D: Disk + Drop>(alloc: Global, disk: D, count: u64) -> Result<Log<D>, LogRefused>
    ensures list { IfOk result
        (λ log. IsTrue (D.state disk).tells → records (D.state disk).seen ≡ []
        → map length log.payloads ≡ replicate count RECORD_LENGTH) }
    ensures count { IfOk result (λ log. count ≤ length log.payloads) }
    ensures images { IfOk result (λ log. ImagesHave D.state log) }
    ensures rests { IfOk result (λ log. log.standing ≡ AtRest) }
    ensures tells { IfOk result (λ log. (D.state log.disk).tells ≡ (D.state disk).tells) }
{
    let draft = draft_of(alloc, RECORD_LENGTH)?;
    let mut log = mounted(alloc, disk)?;
    commit_times(&mut log, &draft, count)?;
    Ok(log)
}

// A draft of so many bytes.
fn draft_of(alloc: Global, size: usize) -> Result<Draft, AllocError>
    requires some { 0 < size }
    requires short { size ≤ 1342177280 }
    ensures size { IfOk result (λ draft. length draft ≡ size) }
{
    let payload = vec![in alloc; b'r'; size]?;
    Draft::new(alloc, &payload)
}

// Commits one draft so many times.
fn commit_times<D: Disk>(log: &mut Log<D>, draft: &Draft, times: u64) -> Result<(), LogRefused>
    requires rests { log.old.standing ≡ AtRest }
    requires images { ImagesHave D.state log.old }
    ensures list { OnOk result
        (IsTrue (D.state log.old.disk).tells
        → log.new.payloads ≡ log.old.payloads ++ replicate times draft.now) }
    ensures count { OnOk result (length log.new.payloads ≡ length log.old.payloads + times) }
    ensures images { OnOk result (ImagesHave D.state log.new) }
    ensures rests { OnOk result (log.new.standing ≡ AtRest) }
    ensures tells { (D.state log.new.disk).tells ≡ (D.state log.old.disk).tells }
{
    for _round in 0..times {
        log.reserve()?;
        log.commit(draft)?;
    }
    Ok(())
}

// The log after its disk was taken and mounted so many times.
fn mounted_again<D: Disk + Drop>(
    alloc: Global,
    log: Log<D>,
    times: u64,
) -> Result<Log<D>, LogRefused>
    requires rests { log.standing ≡ AtRest }
    requires images { ImagesHave D.state log }
    ensures list { IfOk result
        (λ again. IsTrue (D.state log.disk).tells → again.payloads ≡ log.payloads) }
    ensures tells { IfOk result (λ again. (D.state again.disk).tells ≡ (D.state log.disk).tells) }
{
    let mut log = log;
    for _round in 0..times {
        log = mounted(alloc, log.into_disk())?;
    }
    Ok(log)
}

// Reads one record so many times, each time into the emptied vector: how many bytes it has then.
fn read_times<D: Disk>(
    alloc: Global,
    log: &mut Log<D>,
    entry: u64,
    times: u64,
) -> Result<u64, LogRefused>
    requires rests { log.old.standing ≡ AtRest }
    requires within { entry < length log.old.payloads }
    ensures bytes { IfOk result
        (λ bytes. IsTrue (D.state log.old.disk).tells
        → bytes ≡ (if times == 0 then 0 else length (slice_index_or log.old.payloads entry []))) }
    ensures list { IsTrue (D.state log.old.disk).tells → log.new.payloads ≡ log.old.payloads }
    ensures count { length log.new.payloads ≡ length log.old.payloads }
{
    let mut bytes = Vec::new(alloc);
    for _round in 0..times {
        bytes.clear();
        log.entry(entry, &mut bytes)?;
    }
    Ok(bytes.len() as u64)
}
