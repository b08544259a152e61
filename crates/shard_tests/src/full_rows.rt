// A shard that is full.
ghost use Rattle.std.specs.Prelude.{◌≡◌, [], ◌∷◌};
ghost use Rattle.record_codec.specs.declared.group.Op.TheVariants.{Store};
ghost use Rattle.shard_tests.specs.Published.{hello};

use crate::disks::{ONE, begun};
use crate::shown::shown;
use crate::stop_rows::group;
use disk_memory::MemoryDisk;
use record_codec::Op;
use shard_index::AppendRefused;
use shard_log::ShardLog;
use std::alloc::Global;
use std::process::Abort;
use std::test::Fail;

// Why a group wasn't stored.
fn refused(log: &mut ShardLog<MemoryDisk>, ops: &[Op]) -> Option<AppendRefused>
    requires asked { log.old.asked ≡ record { config = ONE; shard = 0 } }
    requires ops { ops.now ≡ Store hello ∷ [] }
    ensures { log.new.asked ≡ log.old.asked }
{
    log.append(ops, 0).err()
}

// Whether three groups are stored and the next two are refused as there is no room for them.
fn is_filled(log: &mut ShardLog<MemoryDisk>, ops: &[Op]) -> bool
    requires asked { log.old.asked ≡ record { config = ONE; shard = 0 } }
    requires ops { ops.now ≡ Store hello ∷ [] }
{
    refused(log, ops).is_none()
        && refused(log, ops).is_none()
        && refused(log, ops).is_none()
        && refused(log, ops) == Some(AppendRefused::Full)
        && refused(log, ops) == Some(AppendRefused::Full)
}

// What the list shows once it was filled.
fn filled(alloc: Global) -> Option<String> {
    let mut log = begun(alloc)?;
    let ops = group(alloc)?;
    if !is_filled(&mut log, &ops) {
        return None;
    }
    shown(alloc, log.index()).ok()
}

// A generation of three messages has room for no fourth one, and what is refused isn't in the list.
#[test]
fn a_fourth_message_is_refused_as_full(rt: HostRuntime) -> Result<(), Fail> {
    let held = filled(rt.alloc());
    assert_eq!(rt;
        held.as_deref(),
        Some("0..3 p#0 q1 a/b 2 p#0 q1 a/b 2 p#0 q1 a/b 2 awaited 0")
    );
    Ok(())
}
