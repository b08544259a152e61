// What a pair of logs holds, record by record.
ghost use Rattle.std.specs.Prelude.{◌≡◌, ◌⊎◌, ◌+◌, ◌<◌, ◌^◌, ◌-◌, IsTrue, IfOk, IfErr, OnOk, length, min, slice_index_or, []};
ghost use Rattle.gated_log.specs.PlainLog.{end_of};
ghost use Rattle.pair_log.specs.declared.doubt.Doubt.TheVariants.{Nothing};
ghost use Rattle.pair_log.specs.Epochs.{snapshot_of};
ghost use Rattle.pair_log.specs.PlainPair.{Told, head_of as first_record, tail_of};
ghost use Rattle.session_codec.specs.HasSpelling.{fits_sessions};
ghost use Rattle.session_journal.specs.Fold.{Holds, fold_records, folded, with_changes};
ghost use Rattle.session_journal.specs.Giving.{Gives, IsOutside, IsReadBlamed};
ghost use Rattle.session_journal.specs.PairCalls.{IsRead};
ghost use Rattle.session_journal.specs.PlainJournal.{IsAsked, IsHead, head_told};

use crate::asked::Asked;
use crate::folding::{Form, open, take_record};
use crate::head::{Head, head_of};
use crate::unread::{Unread, unread_by};
use outside::Disk;
use pair_log::PairLog;
use session_codec::{FIRST_FORMAT, SECOND_FORMAT};
use session_state::Sessions;
use std::alloc::Global;

// A record behind the snapshot: how many stand before it, and the place of its gate.
#[derive(Clone, Copy)]
pub(crate) struct Entry {
    pub(crate) number: u64,
    pub(crate) place: u64,
}

// The bytes of a record behind the snapshot.
fn entry_bytes<D: Disk>(
    alloc: Global,
    pair: &mut PairLog<D>,
    number: u64,
) -> Result<Vec<u8>, Unread>
    requires within { number < length (tail_of pair.old.active.payloads) }
    requires rests { pair.old.doubt ≡ Nothing }
    ensures bytes { IfOk result (λ bytes. Told D.state pair.old
        → bytes.items ≡ slice_index_or (tail_of pair.old.active.payloads) number []) }
    ensures outside { IfErr result IsOutside }
    ensures reads { IsRead D.state pair.old pair.new }
    ensures cause { IsReadBlamed (D.state pair.old.active.disk).faults
        (D.state pair.new.active.disk).faults result }
{
    let mut bytes = Vec::new(alloc);
    if let Err(why) = pair.entry(number, &mut bytes) {
        return Err(unread_by(why));
    }
    Ok(bytes)
}

// The bytes of the snapshot.
fn snapshot_bytes<D: Disk>(alloc: Global, pair: &mut PairLog<D>) -> Result<Vec<u8>, Unread>
    requires rests { pair.old.doubt ≡ Nothing }
    ensures bytes { IfOk result (λ bytes. Told D.state pair.old
        → bytes.items ≡ snapshot_of (first_record pair.old.active.payloads)) }
    ensures outside { IfErr result IsOutside }
    ensures reads { IsRead D.state pair.old pair.new }
    ensures cause { IsReadBlamed (D.state pair.old.active.disk).faults
        (D.state pair.new.active.disk).faults result }
{
    let mut bytes = Vec::new(alloc);
    if let Err(why) = pair.snapshot(&mut bytes) {
        return Err(unread_by(why));
    }
    Ok(bytes)
}

// Lets the changes of a record act, and gives the place of the next one.
fn take_entry<D: Disk>(
    alloc: Global,
    pair: &mut PairLog<D>,
    form: Form,
    entry: Entry,
    sessions: &mut Sessions,
) -> Result<u64, Unread>
    requires within { entry.number < length (tail_of pair.old.active.payloads) }
    requires rests { pair.old.doubt ≡ Nothing }
    requires format { (form.format ≡ FIRST_FORMAT) ⊎ (form.format ≡ SECOND_FORMAT) }
    ensures exact { Told D.state pair.old → Gives (λ _. sessions.new) result
        (with_changes form.format form.shards entry.place
        (slice_index_or (tail_of pair.old.active.payloads) entry.number []) (Holds sessions.old)) }
    ensures next { IfOk result (λ next. Told D.state pair.old
        → next ≡ min (entry.place
        + (5 + length (slice_index_or (tail_of pair.old.active.payloads) entry.number [])))
        (2 ^ 64 - 1)) }
    ensures spelled { OnOk result (IsTrue (fits_sessions form.format form.shards sessions.old)
        → IsTrue (fits_sessions form.format form.shards sessions.new)) }
    ensures reads { IsRead D.state pair.old pair.new }
    ensures cause { IsReadBlamed (D.state pair.old.active.disk).faults
        (D.state pair.new.active.disk).faults result }
{
    let bytes = match entry_bytes(alloc, pair, entry.number) {
        Ok(bytes) => bytes,
        Err(why) => return Err(why),
    };
    if let Err(why) = take_record(alloc, &bytes, form, entry.place, sessions) {
        return Err(why);
    }
    Ok(entry.place.saturating_add(5 + bytes.len() as u64))
}

// Lets the changes of all records behind the snapshot act, of which the first has its gate at this place.
fn replay<D: Disk>(
    alloc: Global,
    pair: &mut PairLog<D>,
    form: Form,
    place: u64,
    sessions: &mut Sessions,
) -> Result<(), Unread>
    requires rests { pair.old.doubt ≡ Nothing }
    requires format { (form.format ≡ FIRST_FORMAT) ⊎ (form.format ≡ SECOND_FORMAT) }
    requires place { Told D.state pair.old
        → place + end_of (tail_of pair.old.active.payloads) < 2 ^ 64 }
    requires spelled { IsTrue (fits_sessions form.format form.shards sessions.old) }
    ensures exact { Told D.state pair.old → Gives (λ _. sessions.new) result
        (fold_records form.format form.shards place (Holds sessions.old)
        (tail_of pair.old.active.payloads)) }
    ensures spelled { OnOk result (IsTrue (fits_sessions form.format form.shards sessions.new)) }
    ensures reads { IsRead D.state pair.old pair.new }
    ensures cause { IsReadBlamed (D.state pair.old.active.disk).faults
        (D.state pair.new.active.disk).faults result }
{
    let mut at = place;
    for number in 0..pair.count() {
        let entry = Entry { number, place: at };
        at = match take_entry(alloc, pair, form, entry, sessions) {
            Ok(next) => next,
            Err(why) => return Err(why),
        };
    }
    Ok(())
}

// The sessions that a pair holds, and the head of its snapshot.
pub(crate) fn read_pair<D: Disk>(
    alloc: Global,
    pair: &mut PairLog<D>,
    asked: Asked,
) -> Result<(Sessions, Head), Unread>
    requires rests { pair.old.doubt ≡ Nothing }
    requires shards { IsAsked asked }
    requires some { Told D.state pair.old → 0 < length pair.old.active.payloads }
    ensures exact { Told D.state pair.old
        → Gives (λ found. found.0) result (folded asked pair.old.active.payloads) }
    ensures spelled { IfOk result
        (λ found. IsTrue (fits_sessions SECOND_FORMAT asked.shards found.0)) }
    ensures head { IfOk result
        (λ found. Told D.state pair.old → found.1 ≡ head_told pair.old.active.payloads) }
    ensures known { IfOk result (λ found. IsHead found.1) }
    ensures reads { IsRead D.state pair.old pair.new }
    ensures cause { IsReadBlamed (D.state pair.old.active.disk).faults
        (D.state pair.new.active.disk).faults result }
{
    let _end = pair.end();
    let bytes = match snapshot_bytes(alloc, pair) {
        Ok(bytes) => bytes,
        Err(why) => return Err(why),
    };
    let mut sessions = match open(alloc, &bytes, asked) {
        Ok(sessions) => sessions,
        Err(why) => return Err(why),
    };
    let head = head_of(&bytes);
    let form = Form {
        format: head.format,
        shards: asked.shards,
    };
    if let Err(why) = replay(alloc, pair, form, 13 + head.bytes, &mut sessions) {
        return Err(why);
    }
    Ok((sessions, head))
}
