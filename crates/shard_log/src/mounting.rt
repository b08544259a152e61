// The disks that a shard is mounted on, and why a mount is refused.
ghost use Rattle.std.specs.Prelude.{◌≡◌, ◌≤◌, length, IfOk, IfErr};
ghost use Rattle.gated_log.specs.declared.refused.LogRefused.TheVariants.{Full};
ghost use Rattle.shard_fold.specs.Fold.{first_manifest};
ghost use Rattle.shard_fold.specs.Giving.{IsAsked};
ghost use Rattle.shard_disks.specs.Mounting.{MountsDisks};
ghost use Rattle.shard_reading.specs.Giving.{unread_of};
ghost use Rattle.shard_reading.specs.Held.{disk_place};
ghost use Rattle.shard_reading.specs.declared.limits.TheConstants.{MANIFEST_BYTES, SLOT_BYTES};
ghost use Rattle.shard_log.specs.Mounting.{Refuses, disk_number, refusal_of};

use gated_log::LogRefused;
use outside::Disk;
use shard_disks::{Limits, ShardDisks};
use shard_fold::{Asked, Where, first_manifest};
use shard_reading::{MANIFEST_BYTES, SLOT_BYTES, Unread};
use std::alloc::Global;
use topic_name::MountRefused;

// The number of a disk among all, by its place among the ten of its shard.
fn disk_number(asked: Asked, place: u16) -> u16
    requires { place ≤ 257 }
    ensures { result ≡ disk_number asked place }
{
    10 * u16::from(asked.shard) + place
}

// The place of the disk with a log.
fn disk_place(side: u8, log: Where) -> u16
    ensures place { result ≡ disk_place side log }
    ensures most { result ≤ 257 }
{
    match log {
        Where::Manifest => side.into(),
        Where::Slot(slot) => 2 + u16::from(slot),
    }
}

// Why a mount is refused whose disk at this place was not mounted.
fn mount_refusal(asked: Asked, place: u8, why: LogRefused) -> MountRefused
    requires { why ≡ Full → ⊥ }
    ensures { result ≡ refusal_of asked 0 (unread_of place why) }
{
    match why {
        LogRefused::Full => unreachable!(),
        LogRefused::Fault => MountRefused::Fault(disk_number(asked, place.into())),
        LogRefused::Memory => MountRefused::Memory,
    }
}

// Mounts the ten disks of a shard; of a new one the first manifest is written.
pub(crate) fn mount_disks<D: Disk>(
    alloc: Global,
    disks: Vec<D>,
    asked: Asked,
) -> Result<ShardDisks<D>, (Vec<D>, MountRefused)>
    requires ten { length disks.items ≡ 10 }
    requires asked { IsAsked asked }
    ensures mounts { IfOk result (λ mounted. MountsDisks D.state disks.items
        (record { manifest = MANIFEST_BYTES; slot = SLOT_BYTES }) (first_manifest asked) mounted) }
    ensures refuses { IfErr result (Refuses D.state disks.items asked) }
{
    let snapshot = match first_manifest(alloc, asked) {
        Ok(snapshot) => snapshot,
        Err(_) => return Err((disks, MountRefused::Memory)),
    };
    let limits = Limits {
        manifest: MANIFEST_BYTES,
        slot: SLOT_BYTES,
    };
    match ShardDisks::mount(alloc, disks, limits, &snapshot) {
        Ok(mounted) => Ok(mounted),
        Err((disks, place, why)) => Err((disks, mount_refusal(asked, place, why))),
    }
}

// Why a mount is refused that has not read the shard.
pub(crate) fn refusal(asked: Asked, side: u8, why: Unread) -> MountRefused
    ensures { result ≡ refusal_of asked side why }
{
    match why {
        Unread::Damaged(log, place) => MountRefused::Damaged(
            disk_number(asked, disk_place(side, log)),
            place,
        ),
        Unread::Another(what, kept, asked) => MountRefused::Differs {
            what,
            kept: kept.into(),
            asked: asked.into(),
        },
        Unread::Fault(place) => MountRefused::Fault(disk_number(asked, place.into())),
        Unread::Memory => MountRefused::Memory,
    }
}
