ghost use Rattle.std.specs.Prelude.{◌≡◌, [], false};
ghost use Rattle.topic_model.specs.Profile.{Profile};
ghost use Rattle.world_model.specs.World.{World, Move, world_step, world_outs};
ghost use Rattle.world_model.specs.Allowed.{world_allows};

/// A law: a move of the world that isn't allowed changes nothing and puts out nothing.
pub fn only_allowed_moves_move()
    ensures world { (profile : Profile) (w : World) (move : Move) →
        world_allows profile w move ≡ false → world_step profile w move ≡ w }
    ensures outs { (profile : Profile) (w : World) (move : Move) →
        world_allows profile w move ≡ false → world_outs profile w move ≡ [] }
{}
