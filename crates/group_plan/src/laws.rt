ghost use Rattle.std.specs.Prelude.{◌≡◌, ◌≤◌, List, ℕ, [], IsTrue, length};
ghost use Rattle.topic_model.specs.Profile.{Config, one_generation};
ghost use Rattle.shard_model.specs.ShardList.{ShardList};
ghost use Rattle.shard_model.specs.Storing.{Op as PlainOp, kept_ops, store};
ghost use Rattle.shard_model.specs.Capacity.{is_full};
ghost use Rattle.shard_model.specs.Lists.{IsList};
ghost use Rattle.shard_index.specs.Absorbing.{limits};
ghost use Rattle.record_codec.specs.declared.group.Op.{Op};
ghost use Rattle.record_codec.specs.Records.{KeptGroup};
ghost use Rattle.group_plan.specs.Plan.{Stores, fit_alone, lacks_room, planned};
ghost use Rattle.group_plan.specs.Asking.{may_ask};
ghost use Rattle.group_plan.specs.PlanLaws.{IsReady};

use record_codec::MOST_OPERATIONS;

/// A law: over a list in order a plan that stores can be carried out. What the index takes is what the group's record tells,
/// each of it can stand, and makes of the list what storing the group makes of it; not too many are awaited then; and the
/// group begins at the next offset, and has an operation.
pub fn a_plan_stands()
    ensures { (list : ShardList) (ops : List Op) (now : ℕ) (g : KeptGroup) → IsList list →
        planned list ops now ≡ Stores g → IsReady list ops now g }
{}

/// A law: where a shard may hold one generation, it is full exactly where that one lacks room.
pub fn full_of_one()
    ensures { (config : Config) (list : ShardList) (kept : List PlainOp) (now : ℕ) →
        length list.cuts ≡ 1 → IsList list →
        is_full (one_generation limits) config list kept now ≡ lacks_room list kept }
{}

/// A law: storing a group of which nothing is kept changes nothing.
pub fn nothing_kept()
    ensures { (list : ShardList) (ops : List PlainOp) (now : ℕ) →
        kept_ops list ops ≡ [] → store list ops now ≡ list }
{}

/// A law: storing those operations of a group that are kept is storing the group, at any moment.
pub fn kept_at_any_moment()
    ensures { (list : ShardList) (ops : List PlainOp) (now : ℕ) →
        store list (kept_ops list ops) now ≡ store list ops now }
{}

/// A law: what a group may ask is what `plan` needs of it.
pub fn what_may_be_asked()
    ensures few { (config : Config) (ops : List Op) →
        IsTrue (may_ask config ops) → length ops ≤ MOST_OPERATIONS }
    ensures fit { (config : Config) (ops : List Op) →
        IsTrue (may_ask config ops) → IsTrue (fit_alone ops) }
{}
