// All shards of a broker, for one thread.
ghost use Rattle.std.specs.Prelude.{◌≡◌, ◌<◌, ◌≤◌, length, map, slice_get, Some, IfOk, IsOk, IsTrue};
ghost use Rattle.shard_index.specs.KeptIndex.{KeptIndex};
ghost use Rattle.topic_name.specs.PlainConfig.{plain_config};
ghost use Rattle.group_plan.specs.Asking.{may_ask};
ghost use Rattle.shard_disks.specs.Lists.{Moved};
ghost use Rattle.shard_log.specs.Appending.{Arms};
ghost use Rattle.shard_views.specs.Views.{AreUnviewed, Goes, InView, Learns, Unviewed, Views, left_behind, standing_at};
ghost use Rattle.plain_shards.specs.KeptShards.{AreShards, IsOf, asked_of, config_of, HasSameLogs, none_in_view, readers, same_itself, same_on};
ghost use Rattle.plain_shards.specs.Calls.{AppendsLater, TicksLater};

use crate::log_calls::{append_to, arm_at, tick_at};
use outside::Disk;
use record_codec::Op;
use shard_index::{AppendRefused, Index, Receipt};
use shard_log::ShardLog;
use shard_views::{Missed, Readers};
use std::alloc::AllocError;
use std::marker::Model;

// The most shards of a broker.
const MOST: usize = 8;

/// The logs of all shards, and which of them are in view. Contracts see `KeptShards`.
#[derive(Drop)]
pub struct PlainShards<D: Disk> {
    logs: Vec<ShardLog<D>>,
    in_view: [bool; MOST],
}

impl<D: Disk> Model for PlainShards<D> {
    ghost use Rattle.std.specs.Prelude.{map};
    ghost use Rattle.plain_shards.specs.KeptShards.{AreShards, KeptShards, asked_of};

    ghost Value = { KeptShards D };

    ghost view = { λ s. record {
      logs = s.logs.items;
      in_view = s.in_view;
    } };

    ghost invariant = { λ s. AreShards (map asked_of s.logs.items) };
}

impl<D: Disk> PlainShards<D> {
    /// The shards with these logs, in the order of their numbers. None is in view.
    pub fn new(logs: Vec<ShardLog<D>>) -> PlainShards<D>
        requires shards { AreShards (map asked_of logs.items) }
        ensures { result ≡ record { logs = logs.items; in_view = none_in_view } }
    {
        PlainShards {
            logs,
            in_view: [false; MOST],
        }
    }

    /// How many shards there are: as many as the configuration of each says, 1 to 8. Where none is in view, a reader finds
    /// each unviewed.
    pub fn count(&self) -> usize
        ensures value { result ≡ length self.now.logs }
        ensures shards { AreShards (map asked_of self.now.logs) }
        ensures readers { length (readers self.now).shards ≡ length self.now.logs }
        ensures unviewed { self.now.in_view ≡ none_in_view → AreUnviewed (readers self.now) }
    {
        self.logs.len()
    }

    /// The log of a shard, by its number from 0 on.
    pub fn log(&self, shard: u8) -> &ShardLog<D>
        requires { shard < length self.now.logs }
        ensures { slice_get self.now.logs shard ≡ Some result.now }
    {
        &self.logs[shard as usize]
    }

    /// Stores a group in a shard at a moment in milliseconds, as `ShardLog::append` does, while no shard is in view. The
    /// receipt can be learned.
    pub fn append(&mut self, shard: u8, ops: &[Op], now: u64) -> Result<Receipt, AppendRefused>
        requires shard { shard < length self.old.logs }
        requires asked { IsTrue (may_ask
            (plain_config (config_of (map asked_of self.old.logs))) ops.now) }
        requires none { self.old.in_view ≡ none_in_view }
        ensures appends { Moved shard (AppendsLater D.state ops.now now result)
            self.old.logs self.new.logs }
        ensures stays { self.new ≡ record self.old { logs = self.new.logs } }
        ensures asked { map asked_of self.new.logs ≡ map asked_of self.old.logs }
        ensures goes { Goes (readers self.old) (readers self.new) }
        ensures of { IfOk result (IsOf self.new) }
    {
        append_to(&mut self.logs, shard, ops, now)
    }

    /// Settles what is in doubt in a shard and shows what is stored, as `ShardLog::tick` does, while no shard is in view.
    pub fn tick(&mut self, shard: u8, now: u64) -> Result<(), AppendRefused>
        requires shard { shard < length self.old.logs }
        requires none { self.old.in_view ≡ none_in_view }
        ensures ticks { Moved shard (TicksLater D.state result) self.old.logs self.new.logs }
        ensures stays { self.new ≡ record self.old { logs = self.new.logs } }
        ensures asked { map asked_of self.new.logs ≡ map asked_of self.old.logs }
        ensures goes { Goes (readers self.old) (readers self.new) }
    {
        tick_at(&mut self.logs, shard, now)
    }

    /// Lets the device call of this number from now on fail, once, on a disk of a shard, by its place from 0 to 9, where
    /// it is made for that. The lists stay.
    pub fn arm(&mut self, shard: u8, disk: usize, call: u32) -> Result<(), AllocError>
        requires shard { shard < length self.old.logs }
        requires disk { disk < 10 }
        ensures arms { Moved shard (λ old new. Arms D.state (D.arms_at call) disk old new result)
            self.old.logs self.new.logs }
        ensures stays { self.new ≡ record self.old { logs = self.new.logs } }
        ensures asked { map asked_of self.new.logs ≡ map asked_of self.old.logs }
        ensures seen { readers self.new ≡ readers self.old }
    {
        arm_at(&mut self.logs, shard, disk, call)
    }

    /// The logs in their order, in the vector in which they came. It takes no memory.
    pub fn into_logs(self) -> Vec<ShardLog<D>>
        ensures { result.items ≡ self.logs }
    {
        let PlainShards { logs, .. } = self;
        logs
    }
}

impl<D: Disk> Readers for PlainShards<D> {
    ghost state = { readers };

    ghost is_of = { IsOf };

    ghost stays = { HasSameLogs };

    /// A view is never missed here.
    fn view(&mut self, shard: u8) -> Result<(), Missed>
        requires unviewed { standing_at (readers self.old) shard ≡ Some Unviewed }
        ensures views { Views shard (readers self.old) (readers self.new) result }
        ensures stays { HasSameLogs self.old self.new }
        ensures never_missed { IsOk result }
    {
        self.in_view[shard as usize] = true;
        Ok(())
    }

    fn index(&self, shard: u8) -> &Index {
        self.log(shard).index()
    }

    /// Each shard can be viewed again, and written.
    fn leave(&mut self)
        ensures leaves { readers self.new ≡ left_behind (readers self.old) }
        ensures stays { HasSameLogs self.old self.new }
        ensures none { self.new.in_view ≡ none_in_view }
    {
        self.in_view = [false; MOST];
    }

    /// A view shows the present list, so there is nothing to keep.
    fn learn(&mut self, _receipt: Receipt)
        requires unviewed { standing_at (readers self.old) _receipt.shard ≡ Some Unviewed }
        requires of { IsOf self.old _receipt }
        ensures learns { Learns _receipt (readers self.old) (readers self.new) }
        ensures stays { HasSameLogs self.old self.new }
        ensures same { self.new ≡ self.old }
    {}

    ghost stays_itself = { same_itself };

    ghost stays_on = { same_on };
}
