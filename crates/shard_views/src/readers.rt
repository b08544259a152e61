// The lists of the shards, as one reader sees them.
ghost use Rattle.std.specs.Prelude.{◌≡◌, Some};
ghost use Rattle.shard_index.specs.KeptIndex.{KeptIndex, ToldReceipt};
ghost use Rattle.shard_views.specs.Views.{InView, Learns, ReadersState, Unviewed, Views, left_behind, standing_at};

use crate::Missed;
use shard_index::{Index, Receipt};

/// Who sees the lists of the shards. Each call takes no memory and doesn't wait.
pub trait Readers {
    /// What proofs know of it: how each shard stands, what was seen of it, and how often a view was missed.
    ghost state: { Self → ReadersState };

    /// Whether a receipt is of one of these shards.
    ghost is_of: { Self → ToldReceipt → Type 0 };

    /// Whether two values differ in nothing but what was viewed and learned.
    ghost stays: { Self → Self → Type 0 };

    /// Begins to show a shard, by its number from 0 on, that is unviewed. After `Missed` it is left.
    fn view(&mut self, shard: u8) -> Result<(), Missed>
        requires unviewed { standing_at (state self.old) shard ≡ Some Unviewed }
        ensures views { Views shard (state self.old) (state self.new) result }
        ensures stays { stays self.old self.new };

    /// The list of a shard that is in view: the same one until `leave`.
    fn index(&self, shard: u8) -> &Index
        requires viewed { (index : KeptIndex) ×
            (standing_at (state self.now) shard ≡ Some (InView index)) }
        ensures shown { standing_at (state self.now) shard ≡ Some (InView result.now) };

    /// Ends all views.
    fn leave(&mut self)
        ensures leaves { state self.new ≡ left_behind (state self.old) }
        ensures stays { stays self.old self.new };

    /// From here on each view of the receipt's shard, which is unviewed, shows a list that has grown from the one that
    /// the receipt tells.
    fn learn(&mut self, receipt: Receipt)
        requires unviewed { standing_at (state self.old) receipt.shard ≡ Some Unviewed }
        requires of { is_of self.old receipt }
        ensures learns { Learns receipt (state self.old) (state self.new) }
        ensures stays { stays self.old self.new };

    /// A value differs in nothing from itself.
    ghost stays_itself: { (r : Self) → stays r r };

    /// What stays twice stays.
    ghost stays_on: { (a b c : Self) → stays a b → stays b c → stays a c };
}
