// Laws of views. Each is a call that does nothing.
ghost use Rattle.std.specs.Prelude.{◌≡◌, ◌<◌, ◌≤◌, ℕ, Some, Result, length};
ghost use Rattle.shard_model.specs.ShardList.{ShardList, next_of};
ghost use Rattle.shard_index.specs.KeptIndex.{ToldReceipt};
ghost use Rattle.shard_views.specs.declared.missed.Missed.{Missed};
ghost use Rattle.shard_views.specs.Views.{Goes, IsLater, Learns, ReadersState, Standing, Views, left_behind, seen_at, standing_at, with_view};

/// A law: what a reader saw of a shard stays a front of what it sees later, up to what expired, over any calls one after
/// another: each call only goes on, and going on twice goes on. What a receipt told is seen by each later view, its
/// messages up to the next offset among it.
pub fn what_was_seen_stays()
    ensures itself { (r : ReadersState) → Goes r r }
    ensures on { (a b c : ReadersState) → Goes a b → Goes b c → Goes a c }
    ensures view { (shard : ℕ) (old new : ReadersState) (result : Result Unit Missed) →
        Views shard old new result → Goes old new }
    ensures leave { (r : ReadersState) → Goes r (left_behind r) }
    ensures learn { (receipt : ToldReceipt) (old new : ReadersState) →
        Learns receipt old new → Goes old new }
    ensures told { (list : ShardList) (shard : ℕ) (old new : ReadersState) →
        IsLater list (seen_at old shard) → Goes old new → IsLater list (seen_at new shard) }
    ensures reached { (list later : ShardList) →
        IsLater list later → next_of list ≤ next_of later }
{}

/// A law: a view of a shard changes how that one stands, and no other; there are as many shards as before.
pub fn a_view_is_of_one_shard()
    ensures here { (shard : ℕ) (standing : Standing) (seen : ShardList) (r : ReadersState) →
        shard < length r.shards →
        standing_at (with_view shard standing seen r) shard ≡ Some standing }
    ensures elsewhere { (shard other : ℕ) (standing : Standing) (seen : ShardList)
        (r : ReadersState) → (other ≡ shard → ⊥) →
        standing_at (with_view shard standing seen r) other ≡ standing_at r other }
    ensures count { (shard : ℕ) (standing : Standing) (seen : ShardList) (r : ReadersState) →
        length (with_view shard standing seen r).shards ≡ length r.shards }
{}
