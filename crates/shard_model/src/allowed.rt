ghost use Rattle.std.specs.Prelude.{◌≡◌, false};
ghost use Rattle.topic_model.specs.Profile.{Config, Profile};
ghost use Rattle.shard_model.specs.ShardMoves.{Shard, ShardMove, shard_step};
ghost use Rattle.shard_model.specs.AllowedMoves.{shard_allows};

/// A law: a move of a shard that isn't allowed changes nothing.
pub fn only_allowed_moves_move()
    ensures { (profile : Profile) (config : Config) (s : Shard) (move : ShardMove) →
        shard_allows profile config s move ≡ false → shard_step profile config s move ≡ s }
{}
