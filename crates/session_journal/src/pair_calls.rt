// The calls of a pair of logs that a journal makes, with room for what they write.
ghost use Rattle.std.specs.Prelude.{◌≡◌, ◌≤◌, ◌+◌, ◌↔◌, ◌∷◌, ◌++◌, [], length, take, drop, OnOk, IfOk, Ok};
ghost use Rattle.std.specs.Int.{w64, to_be_bytes};
ghost use Rattle.gated_log.specs.declared.settled.Settled.TheVariants.{Out};
ghost use Rattle.gated_log.specs.Calls.{with_record};
ghost use Rattle.pair_log.specs.declared.doubt.Doubt.TheVariants.{Nothing, Restart};
ghost use Rattle.pair_log.specs.Epochs.{next_epoch};
ghost use Rattle.pair_log.specs.PlainPair.{Told, doubted_log};
ghost use Rattle.session_journal.specs.PairCalls.{Makes, Settles};

use crate::refused::JournalRefused;
use gated_log::{Draft, LogRefused, Settled};
use outside::Disk;
use pair_log::PairLog;

// Adds a record behind the others, where it fits.
pub(crate) fn commit_to<D: Disk>(
    pair: &mut PairLog<D>,
    record: &Draft,
) -> Result<(), JournalRefused>
    requires rests { pair.old.doubt ≡ Nothing }
    requires fits { pair.old.active.end + (6 + length record.now) ≤ pair.old.active.limit }
    ensures makes { Makes D.state pair.old pair.new
        (pair.old.active.payloads ++ record.now ∷ []) result }
    ensures bytes { OnOk result (Told D.state pair.old → (D.state pair.new.active.disk).seen
        ≡ with_record pair.old.active.end record.now (D.state pair.old.active.disk).seen) }
{
    let _images = pair.doubt();
    pair.reserve()?;
    match pair.commit(record) {
        Ok(()) => Ok(()),
        Err(LogRefused::Fault) => Err(JournalRefused::Fault),
        Err(LogRefused::Full | LogRefused::Memory) => unreachable!(),
    }
}

// Makes a snapshot, with its epoch in front, the whole list, where it fits.
pub(crate) fn rewrite_to<D: Disk>(
    pair: &mut PairLog<D>,
    snapshot: &Draft,
) -> Result<(), JournalRefused>
    requires rests { pair.old.doubt ≡ Nothing }
    requires epoch { take 8 snapshot.now ≡ to_be_bytes w64 (next_epoch pair.old.epoch) }
    requires fits { 6 + length snapshot.now ≤ pair.old.standby.limit }
    ensures makes { Makes D.state pair.old pair.new (snapshot.now ∷ []) result }
    ensures bytes { OnOk result (Told D.state pair.old → (D.state pair.new.active.disk).seen
        ≡ with_record 0 snapshot.now (D.state pair.old.standby.disk).seen) }
{
    let _images = pair.doubt();
    pair.reserve()?;
    match pair.rewrite(snapshot) {
        Ok(()) => Ok(()),
        Err(LogRefused::Fault) => Err(JournalRefused::Fault),
        Err(LogRefused::Full | LogRefused::Memory) => unreachable!(),
    }
}

// Ends what is in doubt.
pub(crate) fn settle_pair<D: Disk>(pair: &mut PairLog<D>) -> Result<Settled, JournalRefused>
    requires { pair.old.doubt ≡ Nothing → ⊥ }
    ensures settles { Settles D.state pair.old pair.new result }
    ensures restart_is_out { pair.old.doubt ≡ Restart → result ≡ Ok Out }
    ensures exact { IfOk result
        (λ settled. Told D.state pair.old → (pair.old.doubt ≡ Restart → ⊥) → (settled ≡ Out)
        ↔ (take 1 (drop (doubted_log pair.old).end (D.state (doubted_log pair.old).disk).seen)
        ≡ 0 ∷ [])) }
{
    match pair.settle() {
        Ok(settled) => Ok(settled),
        Err(_) => Err(JournalRefused::Fault),
    }
}
