// Laws of an index. Each is a call that does nothing.
ghost use Rattle.std.specs.Prelude.{◌≡◌, ◌<◌, List, ℕ, length};
ghost use Rattle.std.specs.Option.{option_map};
ghost use Rattle.shard_model.specs.ShardList.{ShardList, message_at};
ghost use Rattle.shard_model.specs.Lists.{IsList};
ghost use Rattle.shard_model.specs.Growing.{HasGrown};
ghost use Rattle.shard_model.specs.Storing.{Op, kept_ops, store, stores_of};
ghost use Rattle.shard_index.specs.Group.{HasRoom, ops_for};
ghost use Rattle.shard_index.specs.declared.op.IndexOp.{IndexOp};
ghost use Rattle.shard_index.specs.KeptIndex.{KeptIndex, kept_at, list_of, stored_of};
ghost use Rattle.shard_index.specs.Absorbing.{absorbed, absorbed_all, kept_after, kept_after_all};

/// A law: over any list of operations, what an index keeps shows the model's list after those of them that can stand.
pub fn operations_show()
    ensures one { (op : IndexOp) (index : KeptIndex) →
        list_of (kept_after op index) ≡ absorbed op (list_of index) }
    ensures all { (ops : List IndexOp) (index : KeptIndex) →
        list_of (kept_after_all ops index) ≡ absorbed_all ops (list_of index) }
    ensures look_up { (index : KeptIndex) (offset : ℕ) →
        option_map stored_of (kept_at index offset) ≡ message_at (list_of index) offset }
{}

/// A law: over any list of operations a list in order stays in order, and has grown.
pub fn operations_grow()
    ensures order { (ops : List IndexOp) (list : ShardList) →
        IsList list → IsList (absorbed_all ops list) }
    ensures grown { (ops : List IndexOp) (list : ShardList) →
        IsList list → HasGrown list (absorbed_all ops list) }
{}

/// A law: the operations for a group that is stored at a moment make of an index's list what storing the group makes of
/// it. The condition is that the newest generation has room for the messages that are kept, if there are any.
pub fn a_group_is_absorbed()
    ensures { (list : ShardList) (ops : List Op) (now : ℕ) → IsList list →
        (0 < length (stores_of (kept_ops list ops))
        → HasRoom list (stores_of (kept_ops list ops))) →
        absorbed_all (ops_for list now ops) list ≡ store list ops now }
{}
