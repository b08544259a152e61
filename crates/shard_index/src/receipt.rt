ghost use Rattle.std.specs.Prelude.{◌≡◌};
ghost use Rattle.shard_model.specs.ShardList.{next_of};
ghost use Rattle.shard_index.specs.KeptIndex.{list_of};

use crate::Index;
use std::marker::Model;
use std::snapshot::Snapshot;

/// What a stored group is answered: its messages have the offsets from `first` on, up to `next`. Contracts see
/// `ToldReceipt`, with the list that it tells.
#[derive(Drop)]
pub struct Receipt {
    /// The shard.
    pub shard: u8,
    /// The offset of the group's first message.
    pub first: u64,
    /// The offset of the shard's next message.
    pub next: u64,
    list: Snapshot<Index>,
}

impl Model for Receipt {
    ghost use Rattle.shard_index.specs.KeptIndex.{ToldReceipt, list_of};

    ghost Value = { ToldReceipt };

    ghost view = { λ r. record {
      shard = r.shard;
      first = r.first;
      next = r.next;
      list = list_of r.list.value;
    } };
}

impl Receipt {
    /// What a shard tells of a group whose first message has this offset, by its list behind the group.
    pub fn of(shard: u8, first: u64, index: &Index) -> Receipt
        ensures { result ≡ record {
          shard = shard;
          first = first;
          next = next_of (list_of index.now);
          list = list_of index.now;
        } }
    {
        Receipt {
            shard,
            first,
            next: index.next_offset(),
            list: Snapshot::of(index),
        }
    }
}
