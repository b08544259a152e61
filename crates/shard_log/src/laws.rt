// Laws of what is stored. Each is a call that does nothing.
ghost use Rattle.std.specs.Prelude.{◌≡◌, ◌<◌, ℕ, IsTrue, List, Result};
ghost use Rattle.shard_model.specs.ShardList.{Awaited, ShardList};
ghost use Rattle.shard_model.specs.Storing.{store};
ghost use Rattle.shard_index.specs.declared.refused.AppendRefused.{AppendRefused};
ghost use Rattle.shard_index.specs.KeptIndex.{ToldReceipt};
ghost use Rattle.record_codec.specs.declared.group.Op.{Op};
ghost use Rattle.record_codec.specs.Records.{plain_ops};
ghost use Rattle.shard_fold.specs.declared.asked.Asked.{Asked};
ghost use Rattle.shard_disks.specs.Images.{MayLeaveAll, seen_of, tell_all};
ghost use Rattle.shard_disks.specs.Outline.{Reads, reads_in};
ghost use Rattle.shard_reading.specs.Held.{HoldsEither, HoldsOne};
ghost use Rattle.shard_log.specs.Appending.{Appends, Ticks};
ghost use Rattle.shard_log.specs.Mounting.{HoldAsBefore, HoldThis, Mounts, held_at};
ghost use Rattle.shard_log.specs.Parts.{HoldsAmong};
ghost use Rattle.shard_log.specs.PlainShardLog.{PlainShardLog, known, stored};
ghost use Rattle.shard_log.specs.StoredOnce.{Append, Call, ComesOf, Event, IsRun, IsStoredOnce, Mount, Tick, is_awaited, list_after, once_if, times_after};

use outside::Disk;

/// A law: a message of QoS 2 whose identifier is awaited was stored once since the identifier was last released, and one whose
/// identifier isn't awaited not at all, over every list of groups that are stored or left (MQTT 4.3.3).
pub fn a_message_is_stored_once()
    ensures { (a : Awaited) (list : ShardList) (events : List Event) (n : ℕ) → 0 < a.id →
        n ≡ once_if (is_awaited a list) →
        times_after a list events n ≡ once_if (is_awaited a (list_after list events)) }
{}

/// A law: the same over every list of appends, ticks and mounts, with a crash between them and inside them. Of each list that the disks
/// may hold then it is told what came of each call; a message of QoS 2 whose identifier is awaited was stored once by them since
/// the identifier was last released (MQTT 4.3.3).
pub fn calls_store_a_message_once()
    ensures known { (a : Awaited) (list known stored : ShardList) (calls : List Call) (n : ℕ) → 0 < a.id →
        n ≡ once_if (is_awaited a list) → IsRun list list calls known stored → IsStoredOnce a list calls n known }
    ensures stored { (a : Awaited) (list known stored : ShardList) (calls : List Call) (n : ℕ) → 0 < a.id →
        n ≡ once_if (is_awaited a list) → IsRun list list calls known stored → IsStoredOnce a list calls n stored }
{}

/// A law: what `append`, `tick` and `mount` say of their lists is what such a list of calls says of them, also where a crash cuts one
/// short: images that hold what a call says of each moment hold a list that comes of it. A mount behind a crash gives the list of
/// the images that were left.
pub fn each_call_is_one_of_a_run<D: Disk>()
    ensures appends { (ops : List Op) (now : ℕ) (old new : PlainShardLog D) →
        (result : Result ToldReceipt AppendRefused) → Appends D.state ops now old new result →
        ComesOf (Append (plain_ops ops) now) (known old) (stored old) (known new)
        × ComesOf (Append (plain_ops ops) now) (known old) (stored old) (stored new) }
    ensures appends_cut { (ops : List Op) (now : ℕ) (old new : PlainShardLog D) →
        (result : Result ToldReceipt AppendRefused) (appends : Appends D.state ops now old new result) →
        (reads : Reads) →
        HoldsAmong old.asked (known old) (stored old) (store appends.before (plain_ops ops) now) reads →
        (list : ShardList) × HoldsOne old.asked list reads
        × ComesOf (Append (plain_ops ops) now) (known old) (stored old) list }
    ensures ticks { (old new : PlainShardLog D) (result : Result Unit AppendRefused) →
        Ticks D.state old new result →
        ComesOf Tick (known old) (stored old) (known new)
        × ComesOf Tick (known old) (stored old) (stored new) }
    ensures ticks_cut { (old new : PlainShardLog D) (result : Result Unit AppendRefused) →
        (ticks : Ticks D.state old new result) (reads : Reads) →
        HoldsAmong old.asked (known old) (stored old) ticks.before reads →
        (list : ShardList) × HoldsOne old.asked list reads
        × ComesOf Tick (known old) (stored old) list }
    ensures mounts { (disks : List D) (asked : Asked) (one other : ShardList) (new : PlainShardLog D) →
        Mounts D.state disks asked new → IsTrue (tell_all D.state disks) →
        HoldsEither asked one other (reads_in (seen_of D.state disks)) →
        ComesOf Mount one other (known new) × ComesOf Mount one other (stored new) }
    // Up to its disks' syncs.
    ensures mounts_cut { (disks : List D) (asked : Asked) (one other : ShardList) →
        (images : List (List ℕ)) → HoldAsBefore D.state disks asked images →
        ((before : List (List ℕ)) → MayLeaveAll D.state disks before →
        HoldsEither asked one other (reads_in before)) →
        (list : ShardList) × HoldsOne asked list (reads_in images) × ComesOf Mount one other list }
    // And from them on.
    ensures mounts_cut_synced { (disks : List D) (asked : Asked) (one other : ShardList) →
        (images : List (List ℕ)) → HoldThis asked (held_at asked (seen_of D.state disks)) images →
        HoldsEither asked one other (reads_in (seen_of D.state disks)) →
        (list : ShardList) × HoldsOne asked list (reads_in images) × ComesOf Mount one other list }
{}
