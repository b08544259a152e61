// The pair of logs that a journal is mounted on.
ghost use Rattle.std.specs.Prelude.{◌≡◌, ◌<◌, IfOk, IfErr, IsTrue, []};
ghost use Rattle.gated_log.specs.declared.refused.LogRefused.TheVariants.{Full};
ghost use Rattle.pair_log.specs.Mounted.{MountKeeps, IsBlamedOn};
ghost use Rattle.pair_log.specs.Sides.{number_of};
ghost use Rattle.session_journal.specs.Giving.{IsWhy};
ghost use Rattle.session_journal.specs.Mounting.{IsRefusal, Mounts, Refuses, disk_number, first_snapshot, refusal_of};
ghost use Rattle.session_journal.specs.PlainJournal.{IsAsked};

use crate::asked::{Asked, disk_number};
use crate::drafts::first_snapshot;
use crate::limits::MOST_BYTES;
use crate::unread::{Unread, unread_by};
use outside::Disk;
use pair_log::PairLog;
use std::alloc::Global;
use topic_name::MountRefused;

// Why a mount is refused whose disk on this side, 0 or 1, was not read so.
pub(crate) fn refusal(asked: Asked, side: u8, why: Unread) -> MountRefused
    requires { side < 2 }
    ensures { result ≡ refusal_of asked side why }
{
    match why {
        Unread::Damaged(place) => MountRefused::Damaged(disk_number(asked, side), place),
        Unread::Another(what, kept, asked) => MountRefused::Differs {
            what,
            kept: kept.into(),
            asked: asked.into(),
        },
        Unread::Fault => MountRefused::Fault(disk_number(asked, side)),
        Unread::Memory => MountRefused::Memory,
    }
}

// The pair of logs on two disks; where neither has a record, a snapshot without sessions is written.
pub(crate) fn mount_pair<D: Disk>(
    alloc: Global,
    first: D,
    second: D,
    asked: Asked,
) -> Result<PairLog<D>, (D, D, MountRefused)>
    ensures mounts { IfOk result (Mounts D.state first second asked) }
    ensures any_moment { IfOk result (MountKeeps D.state first second (first_snapshot asked)) }
    ensures refuses { IfErr result (Refuses D.state first second asked) }
{
    let snapshot = match first_snapshot(alloc, asked) {
        Ok(snapshot) => snapshot,
        Err(_) => return Err((first, second, MountRefused::Memory)),
    };
    match PairLog::mount(alloc, first, second, MOST_BYTES, &snapshot) {
        Ok(pair) => Ok(pair),
        Err((first, second, side, why)) => {
            let why = refusal(asked, side, unread_by(why));
            Err((first, second, why))
        }
    }
}
