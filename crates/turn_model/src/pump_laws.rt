ghost use Rattle.std.specs.Prelude.{◌≡◌, ◌<◌, ◌≤◌, true, false, ℕ, List, [], Some, None};
ghost use Rattle.topic_model.specs.Profile.{Profile};
ghost use Rattle.shard_model.specs.declared.sweep.Sweep.{Sweep};
ghost use Rattle.shard_model.specs.SweepOrder.{Run, is_in_order};
ghost use Rattle.shard_model.specs.ShardList.{ShardList, next_of};
ghost use Rattle.shard_model.specs.Growing.{HasGrown};
ghost use Rattle.shard_model.specs.Lists.{IsList};
ghost use Rattle.session_model.specs.PlainSession.{PlainSession};
ghost use Rattle.session_model.specs.Change.{Issues};
ghost use Rattle.turn_model.specs.PlainConnection.{PlainConnection, rest_of};
ghost use Rattle.turn_model.specs.Pump.{pump_of};
ghost use Rattle.turn_model.specs.Batch.{pump_limit};
ghost use Rattle.turn_model.specs.MayIssue.{Issuing, MayIssue, was_issued};
ghost use Rattle.turn_model.specs.Counting.{ComesNext, CountsIssued, taken_of, batch_of, issued_to, seen_by};
ghost use Rattle.turn_model.specs.Pumping.{AreReady, IsPumped, AllIssued};

/// A law: what a pump takes of the run that comes next may be issued. The sweep behind it is in order, and counts what
/// was issued once it is.
pub fn a_batch_may_be_issued()
    ensures issued { (profile : Profile) (i : Issuing) (sweep : Sweep) (run : Run) →
        ComesNext profile i sweep run →
        MayIssue profile i (batch_of profile i run) (taken_of profile i run) }
    ensures order { (profile : Profile) (i : Issuing) (sweep : Sweep) (run : Run) →
        ComesNext profile i sweep run →
        is_in_order profile i.list i.start (batch_of profile i run).sweep ≡ true }
    ensures counts { (profile : Profile) (i : Issuing) (sweep : Sweep) (run : Run) →
        ComesNext profile i sweep run →
        CountsIssued profile (issued_to i (batch_of profile i run)) (batch_of profile i run).sweep }
{}

/// A law: what a pump of a connection issues over the lists of the shards may be issued, once nothing is left to be
/// sent again, and where each list and each sweep is in order and each sweep counts what was issued. Where it issues
/// nothing though it may, all that is wanted was issued.
pub fn what_is_pumped_may_be_issued()
    ensures issued { (profile : Profile) (now : ℕ) (m : PlainSession) (k : PlainConnection)
        (lists : List ShardList) (b : Issues) → rest_of m k ≡ [] →
        AreReady profile now m k lists → pump_of profile now m k lists ≡ Some b →
        IsPumped profile now m k lists b }
    ensures none { (profile : Profile) (now : ℕ) (m : PlainSession) (k : PlainConnection)
        (lists : List ShardList) → AreReady profile now m k lists → 0 < pump_limit profile m k →
        pump_of profile now m k lists ≡ None → AllIssued now m k lists }
{}

/// A law: a sweep goes on to count what was issued: as the list of its shard grows, where nothing was issued of what
/// the list didn't have; and as a batch of another subscription or another shard is issued.
pub fn counting_stays()
    ensures grown { (profile : Profile) (i : Issuing) (later : ShardList) (sweep : Sweep) →
        IsList i.list → IsList later → HasGrown i.list later →
        is_in_order profile i.list i.start sweep ≡ true →
        ((offset : ℕ) → next_of i.list ≤ offset → was_issued i offset ≡ false) →
        CountsIssued profile i sweep → CountsIssued profile (seen_by i later) sweep }
    ensures others { (profile : Profile) (i other : Issuing) (run : Run) (sweep : Sweep) →
        (i.subscription.number ≡ other.subscription.number → i.shard ≡ other.shard → ⊥) →
        CountsIssued profile other sweep →
        CountsIssued profile (issued_to other (batch_of profile i run)) sweep }
{}
