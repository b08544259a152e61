// Finding a log on its disk.
ghost use Rattle.std.specs.Prelude.{◌≡◌, ◌<◌, ◌≤◌, ◌+◌, IsTrue, length, All, OnOk, IfOk, IsErrOf};
ghost use Rattle.gated_log.specs.declared.refused.LogRefused.TheVariants.{Full};
ghost use Rattle.gated_log.specs.declared.span.Span.{Span};
ghost use Rattle.gated_log.specs.Blame.{IsBlamed};
ghost use Rattle.gated_log.specs.Calls.{IsMounting, IsRepaired};
ghost use Rattle.gated_log.specs.Closing.{WithGate};
ghost use Rattle.gated_log.specs.PlainLog.{AtRest, IsTold, end_of};
ghost use Rattle.gated_log.specs.Records.{records};

use crate::LogRefused;
use crate::closing::close;
use crate::reading::{Found, find};
use outside::Disk;
use std::alloc::Global;

// Syncs, finds the records, and closes the gate behind them.
pub(crate) fn mount_disk<D: Disk>(alloc: Global, disk: &mut D) -> Result<Found, LogRefused>
    ensures log { IfOk result (λ found. IsTrue (D.state disk.old).tells
        → IsTold AtRest found.spans.items found.end (D.state disk.new).seen
        (D.state disk.new).may_leave
        (records (D.state disk.old).seen)) }
    ensures end { IfOk result (λ found. IsTrue (D.state disk.old).tells
        → found.end ≡ end_of (records (D.state disk.old).seen)) }
    ensures within { IfOk result
        (λ found. All (λ (span : Span). span.at + span.length ≤ found.end) found.spans.items) }
    ensures empty { IfOk result (λ found. length found.spans.items ≡ 0 → found.end ≡ 0) }
    ensures inside { IfOk result (λ found. found.end < (D.state disk.new).size) }
    ensures bytes { IfOk result (λ found. IsTrue (D.state disk.old).tells
        → WithGate found.end 0 (D.state disk.old).seen (D.state disk.new).seen) }
    ensures mounting { IsMounting (D.state disk.old) (D.state disk.new) }
    ensures repaired { OnOk result
        (IsTrue (D.state disk.old).tells → IsRepaired (D.state disk.old) (D.state disk.new)) }
    ensures least { IfOk result
        (λ found. (D.state disk.old).calls + (length found.spans.items + 2)
        ≤ (D.state disk.new).calls) }
    ensures most { IfOk result
        (λ found. (D.state disk.new).calls
        ≤ (D.state disk.old).calls + (length found.spans.items + 5)) }
    ensures never_full { IsErrOf result Full → ⊥ }
    ensures cause { IsBlamed (D.state disk.old).faults (D.state disk.new).faults result }
{
    disk.sync()?;
    let found = find(alloc, disk)?;
    close(disk, found.end)?;
    Ok(found)
}
