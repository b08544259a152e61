ghost use Rattle.std.specs.Prelude.{◌≡◌, ◌++◌, List, ℕ};
ghost use Rattle.first_topic_name.specs.StoredMessage.{StoredMessage};
ghost use Rattle.first_shard_terms.specs.ShardList.{ShardList, Op, store};

/// What is stored stays: storing a group only adds messages at the end, and keeps the generations.
pub fn storing_only_adds()
    ensures messages { (list : ShardList) (ops : List Op) (now : ℕ) → (more : List StoredMessage) × ((store list ops now).messages ≡ list.messages ++ more) }
    ensures cuts { (list : ShardList) (ops : List Op) (now : ℕ) → (store list ops now).cuts ≡ list.cuts }
{}
