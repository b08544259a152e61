// The list of a shard on its disks.
ghost use Rattle.std.specs.Prelude.{◌≡◌, ◌<◌, ◌≤◌, length, true, is_some, slice_get, None, Some, IsTrue, IfOk, IfErr};
ghost use Rattle.shard_model.specs.ShardList.{next_of};
ghost use Rattle.shard_model.specs.Storing.{store};
ghost use Rattle.topic_name.specs.PlainConfig.{plain_config};
ghost use Rattle.topic_model.specs.Limits.{is_within_limits};
ghost use Rattle.record_codec.specs.Records.{plain_ops};
ghost use Rattle.shard_index.specs.Absorbing.{absorbed_all};
ghost use Rattle.group_plan.specs.Asking.{may_ask};
ghost use Rattle.group_plan.specs.Plan.{planned};
ghost use Rattle.shard_disks.specs.Outline.{slot_in};
ghost use Rattle.shard_disks.specs.PlainDisks.{all_disks, outline};
ghost use Rattle.shard_log.specs.Appending.{Appends, Arms, Follows, IsShown, Stores, Ticks};
ghost use Rattle.shard_log.specs.Mounting.{Mounts, Refuses, asked_by};
ghost use Rattle.shard_log.specs.PlainShardLog.{ImagesHold, IsShardLog, known, own_slot, shown, stored};
ghost use Rattle.shard_log.specs.Steps.{HasMoreRoom, IsToStore, Settles, Shows, Writes};

use crate::mounting::{mount_disks, refusal};
use gated_log::{Draft, Settled};
use group_plan::{Plan, Stored, plan};
use outside::Disk;
use record_codec::Op;
use shard_disks::ShardDisks;
use shard_fold::Asked;
use shard_index::{AppendRefused, Index, IndexOp, Receipt};
use shard_reading::read_shard;
use std::alloc::{AllocError, Global};
use std::marker::Model;
use topic_name::{Config, MountRefused};

/// A shard's list on ten disks. Contracts see `PlainShardLog`.
#[derive(Drop)]
pub struct ShardLog<D: Disk> {
    disks: ShardDisks<D>,
    index: Index,
    /// What was written, or is in doubt, and the list doesn't show yet.
    unshown: Vec<IndexOp>,
    asked: Asked,
    alloc: Global,
}

impl<D: Disk> Model for ShardLog<D> {
    ghost use Rattle.shard_log.specs.PlainShardLog.{IsShardLog, PlainShardLog};

    ghost Value = { PlainShardLog D };

    ghost view = { λ s. record {
      disks = s.disks;
      index = s.index;
      unshown = s.unshown.items;
      asked = s.asked;
    } };

    ghost invariant = { λ s. IsShardLog D.state (record {
      disks = s.disks;
      index = s.index;
      unshown = s.unshown.items;
      asked = s.asked;
    }) };
}

impl<D: Disk> ShardLog<D> {
    // The slot of the newest generation.
    fn slot(&self) -> u8
        ensures slot { result ≡ own_slot self.now }
        ensures within { result < 8 }
    {
        self.index.facts();
        let last = self.index.cut_count() - 1;
        let Some(cut) = self.index.cut(last) else {
            unreachable!()
        };
        cut.slot
    }

    // ---- steps

    // Ends a doubt, where there is one.
    fn settle(&mut self) -> Result<(), AppendRefused>
        ensures settles { Settles D.state self.old self.new result }
    {
        if self.disks.doubted().is_none() {
            return Ok(());
        }
        let settled = self.disks.settle();
        let _rests = self.disks.doubted();
        match settled {
            Ok(Settled::In) => Ok(()),
            Ok(Settled::Out) => {
                self.unshown.clear();
                Ok(())
            }
            Err(_) => Err(AppendRefused::Fault),
        }
    }

    // Shows what is stored.
    fn show(&mut self) -> Result<(), AppendRefused>
        requires rests { self.old.disks.doubted ≡ None }
        ensures shows { Shows self.old self.new result }
    {
        if self.unshown.is_empty() {
            return Ok(());
        }
        match self.index.absorb_all(&self.unshown) {
            Ok(()) => {
                self.unshown.clear();
                Ok(())
            }
            Err(_) => Err(AppendRefused::Memory),
        }
    }

    // Makes room for a record in the newest generation's slot.
    fn make_room(&mut self) -> Result<(), AllocError>
        ensures room { HasMoreRoom self.old self.new result }
    {
        let slot = self.slot();
        let _eight = self.disks.doubted();
        self.disks.reserve(slot)
    }

    // Writes a record with these operations, which aren't shown yet.
    fn write(&mut self, draft: &Draft, ops: Vec<IndexOp>) -> Result<(), AppendRefused>
        requires rests { IsShown self.old }
        requires room { 0 < (slot_in (outline self.old.disks) (own_slot self.old)).spare }
        requires stores { IsToStore (shown self.old) draft.now ops.items }
        ensures writes { Writes D.state draft.now ops.items self.old self.new result }
    {
        let slot = self.slot();
        let _rests = self.disks.doubted();
        self.unshown = ops;
        if self.disks.commit(slot, draft).is_err() {
            return Err(AppendRefused::Fault);
        }
        let _rests_now = self.disks.doubted();
        Ok(())
    }

    // Writes what was planned, and shows it.
    fn store(&mut self, stored: Stored) -> Result<(), AppendRefused>
        requires rests { IsShown self.old }
        requires stores { IsToStore (shown self.old) stored.record.items stored.ops.items }
        requires short { length stored.record.items ≤ 1342177280 }
        ensures stores { Stores D.state
            (absorbed_all stored.ops.items (shown self.old)) self.old self.new result }
    {
        let Stored { record, ops } = stored;
        let draft = match Draft::of(record) {
            Ok(draft) => draft,
            Err(_) => return Err(AppendRefused::Memory),
        };
        if self.make_room().is_err() {
            return Err(AppendRefused::Memory);
        }
        match self.write(&draft, ops) {
            Ok(()) => self.show(),
            Err(why) => Err(why),
        }
    }

    // Stores a group, or refuses it, where all is shown.
    fn store_group(&mut self, ops: &[Op], now: u64) -> Result<(), AppendRefused>
        requires rests { IsShown self.old }
        requires asked { IsTrue (may_ask (plain_config self.old.asked.config) ops.now) }
        ensures follows { Follows D.state (planned (shown self.old) ops.now now)
            (store (shown self.old) (plain_ops ops.now) now) self.old self.new result }
    {
        self.index.facts();
        match plan(self.alloc, &self.index, ops, now) {
            Ok(Plan::Nothing) => Ok(()),
            Ok(Plan::Full) => Err(AppendRefused::Full),
            Ok(Plan::AwaitFull) => Err(AppendRefused::AwaitFull),
            Ok(Plan::Stores(stored)) => self.store(stored),
            Err(_) => Err(AppendRefused::Memory),
        }
    }

    // What is answered for a group whose first message has this offset.
    fn receipt(&self, first: u64) -> Receipt
        ensures { result ≡ record {
          shard = self.now.asked.shard;
          first = first;
          next = next_of (shown self.now);
          list = shown self.now;
        } }
    {
        Receipt::of(self.asked.shard, first, &self.index)
    }

    // ---- public calls

    /// The shard with this number on ten disks, and the list that they hold, at a moment in milliseconds. Of new disks the list is
    /// that of a shard that begins, and its first manifest and first opening are written; else nothing but gates. On refusal the
    /// disks come back in their order.
    pub fn mount(
        alloc: Global,
        disks: Vec<D>,
        config: Config,
        shard: u8,
        _now: u64,
    ) -> Result<ShardLog<D>, (Vec<D>, MountRefused)>
        requires ten { length disks.items ≡ 10 }
        requires config { is_within_limits (plain_config config) ≡ true }
        requires shard { shard < config.shards }
        ensures mounts { IfOk result (Mounts D.state disks.items (asked_by config shard)) }
        ensures refuses { IfErr result (Refuses D.state disks.items (asked_by config shard)) }
    {
        let asked = Asked { config, shard };
        let mut mounted = match mount_disks(alloc, disks, asked) {
            Ok(mounted) => mounted,
            Err(refused) => return Err(refused),
        };
        match read_shard(alloc, &mut mounted, asked) {
            Ok(index) => {
                let _rests = mounted.doubted();
                Ok(ShardLog {
                    disks: mounted,
                    index,
                    unshown: Vec::new(alloc),
                    asked,
                    alloc,
                })
            }
            Err(why) => {
                let why = refusal(asked, mounted.manifest_side(), why);
                let _ten = mounted.doubted();
                Err((mounted.into_disks(), why))
            }
        }
    }

    /// Stores a group at a moment in milliseconds, and answers the offsets of its messages. What was in doubt is settled first, and
    /// what was stored without being shown is shown. `Full` and `AwaitFull` write nothing. After `Fault` this group, or what was in
    /// doubt before it, is in doubt until an append or a tick settles it; after `Memory` the group may be stored and not shown yet,
    /// or not stored.
    pub fn append(&mut self, ops: &[Op], now: u64) -> Result<Receipt, AppendRefused>
        requires asked { IsTrue (may_ask (plain_config self.old.asked.config) ops.now) }
        ensures appends { Appends D.state ops.now now self.old self.new result }
    {
        if let Err(why) = self.tick(now) {
            return Err(why);
        }
        let first = self.index.next_offset();
        match self.store_group(ops, now) {
            Ok(()) => {
                let _images = self.doubt();
                Ok(self.receipt(first))
            }
            Err(why) => Err(why),
        }
    }

    /// Settles what is in doubt and shows what is stored. One generation is held as yet, so none is dropped.
    pub fn tick(&mut self, _now: u64) -> Result<(), AppendRefused>
        ensures ticks { Ticks D.state self.old self.new result }
    {
        match self.settle() {
            Ok(()) => self.show(),
            Err(why) => Err(why),
        }
    }

    /// Lets the device call of this number from now on fail, once, on the disk at a place, 0 to 9, where it is made for that.
    pub fn arm(&mut self, place: usize, call: u32) -> Result<(), AllocError>
        requires { place < 10 }
        ensures arms { Arms D.state (D.arms_at call) place self.old self.new result }
    {
        self.disks.arm(place, call)
    }

    /// Whether a write failed and it is open whether it was done.
    pub fn doubt(&self) -> bool
        ensures value { result ≡ is_some self.now.disks.doubted }
        ensures keeps { IsShardLog D.state self.now }
        ensures images { ImagesHold D.state self.now (known self.now) (stored self.now) }
    {
        self.disks.doubted().is_some()
    }

    /// What it was asked to be.
    pub fn asked(&self) -> Asked
        ensures { result ≡ self.now.asked }
    {
        self.asked
    }

    /// The disk at a place, 0 to 9: the two of the manifest, and then those of the slots.
    pub fn disk(&self, place: usize) -> &D
        requires { place < 10 }
        ensures { slice_get (all_disks self.now.disks) place ≡ Some result.now }
    {
        self.disks.disk(place)
    }

    /// The disks in their order, in the vector in which they came. It takes no memory.
    pub fn into_disks(self) -> Vec<D>
        ensures { result.items ≡ all_disks self.disks }
    {
        let ShardLog { disks, .. } = self;
        disks.into_disks()
    }

    /// The list as it is shown.
    pub fn index(&self) -> &Index
        ensures { result.now ≡ self.now.index }
    {
        &self.index
    }
}
