// What is known of the failures of a journal on disks in memory.
ghost use Rattle.disk_memory.specs.PlainDisk.{IsNamed};

use disk_memory::MemoryDisk;
use session_journal::Journal;

/// A law: of a journal on disks in memory each fault, and each failure that is still to come, was asked for, unless memory
/// was refused inside a call.
pub fn failures_were_asked_for(journal: &Journal<MemoryDisk>)
    ensures active { IsNamed journal.now.pair.active.disk }
    ensures standby { IsNamed journal.now.pair.standby.disk }
{
    let _active = journal.active_disk().starved();
    let _standby = journal.standby_disk().starved();
}
