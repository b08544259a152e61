ghost use Rattle.std.specs.Prelude.{List};
ghost use Rattle.topic_model.specs.Profile.{Profile, Config};
ghost use Rattle.world_model.specs.World.{Move, world_step};
ghost use Rattle.world_laws.specs.Reached.{reached_world};
ghost use Rattle.world_laws.specs.StoredLists.{AreAwaited, AreGrown, IsAllEver, StoresNoOther, TakesNothing};
ghost use Rattle.world_laws.specs.Acknowledged.{AllAreCommitted, AreKept, DueComes};
ghost use Rattle.world_laws.specs.SentAgain.{BindsAll};
ghost use Rattle.world_laws.specs.Distinct.{AllAreDistinct};
ghost use Rattle.world_laws.specs.Always.{OfShardMoves, OfShards, OfWorkerMoves};

/// A law: whatever moves are made, each shard's lists are in order, what is stored has grown from what is shown, and
/// what is shown from what each worker has seen.
pub fn lists_grow()
    ensures { (profile : Profile) (config : Config) (moves : List Move) →
        AreGrown (reached_world profile config moves) }
{}

/// A law: the message with an offset stands at that place of all that its shard ever stored, and what the list holds is
/// what stands there from the floor on.
pub fn what_is_held_was_stored()
    ensures { (profile : Profile) (config : Config) (moves : List Move) →
        OfShards IsAllEver (reached_world profile config moves) }
{}

/// A law: behind each move, a crash too, what was stored is stored still, or lies below the floor; and the floor rises
/// only where a drop pended.
pub fn nothing_is_taken()
    ensures { (profile : Profile) (config : Config) (moves : List Move) (move : Move) →
        OfShardMoves TakesNothing (reached_world profile config moves)
        (world_step profile (reached_world profile config moves) move) }
{}

/// A law: a message of QoS 2 is stored once (MQTT 4.3.3). An identifier is awaited once, and its message is among all
/// that was ever stored; and while it is awaited no move stores another message of it, whatever repeats, restarts and
/// crashes come.
pub fn a_message_is_stored_once()
    ensures awaited { (profile : Profile) (config : Config) (moves : List Move) →
        OfShards AreAwaited (reached_world profile config moves) }
    ensures no_other { (profile : Profile) (config : Config) (moves : List Move) (move : Move) →
        OfShardMoves StoresNoOther (reached_world profile config moves)
        (world_step profile (reached_world profile config moves) move) }
{}

/// A law: what becomes due was due before, or is the item of a record whose changes are committed by this very move, or
/// answers a group that is stored. So nothing is put out for a record before it is in.
pub fn what_is_due_is_committed()
    ensures { (profile : Profile) (config : Config) (moves : List Move) →
        DueComes profile config (reached_world profile config moves) }
{}

/// A law: what a bind has to send again is all that is unfinished in its session then, in the order of issue, but for
/// what it passes over: that is what wasn't received, and whose message is gone (MQTT 4.4).
pub fn a_bind_takes_all_that_is_unfinished()
    ensures { (profile : Profile) (config : Config) (moves : List Move) (move : Move) →
        OfWorkerMoves BindsAll (reached_world profile config moves)
        (world_step profile (reached_world profile config moves) move) }
{}

/// A law: a client has one session and at most one connection, at one worker (MQTT 3.1.4, 4.1); and of one worker a
/// number is of one session, and of one connection.
pub fn clients_are_distinct()
    ensures { (profile : Profile) (config : Config) (moves : List Move) →
        AllAreDistinct (reached_world profile config moves) }
{}

/// A law: a message whose PUBACK, or PUBREC of success, was put out was stored in its shard, at its offset (MQTT 4.3).
/// It is held there still, or went with its generation.
pub fn what_is_acknowledged_was_stored()
    ensures { (profile : Profile) (config : Config) (moves : List Move) →
        AreKept (reached_world profile config moves) }
{}

/// A law: nothing is put out before it is committed. Each entry of which a packet was put out on a connection, or is
/// due there, is among those that its session was issued, as the journal holds it; so a crash forgets none of it.
pub fn what_is_put_out_is_committed()
    ensures { (profile : Profile) (config : Config) (moves : List Move) →
        AllAreCommitted (reached_world profile config moves) }
{}
