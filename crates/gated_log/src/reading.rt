// Finding the records of a disk.
ghost use Rattle.std.specs.Prelude.{◌≡◌, ◌∷◌, ◌++◌, [], ◌<◌, ◌≤◌, ◌+◌, ◌^◌, ◌||◌, ◌==◌, nat_lt, slice_index_or, if◌then◌else◌, IsTrue, length, take, drop, OnOk, OnErr, All, IfOk, IfSome, IsErrOf, Some, None};
ghost use Rattle.std.specs.Int.{w32, from_be_bytes};
ghost use Rattle.outside.specs.Cause.{HasCause};
ghost use Rattle.outside.specs.DiskModel.{Elapses, Only, Runs, WritesNone};
ghost use Rattle.gated_log.specs.Calls.{EachMoment};
ghost use Rattle.gated_log.specs.declared.refused.LogRefused.TheVariants.{Full};
ghost use Rattle.gated_log.specs.Blame.{IsBlamed};
ghost use Rattle.gated_log.specs.declared.span.Span.{Span};
ghost use Rattle.gated_log.specs.PlainLog.{payload_at};
ghost use Rattle.gated_log.specs.Records.{front_record};
ghost use Rattle.gated_log.specs.Reading.{IsFound, IsRecordAt, length_told};

use crate::LogRefused;
use crate::span::Span;
use outside::{Disk, Failed};
use std::alloc::Global;

// The records of a disk, and the place of the gate behind them.
#[derive(Drop)]
pub(crate) struct Found {
    pub(crate) spans: Vec<Span>,
    pub(crate) end: u64,
}

// The length behind a gate in front of so many bytes, none where the gate is closed.
fn length_of(header: [u8; 5], there: u64) -> Option<u32>
    ensures exact { result ≡ length_told header there }
{
    let length = u32::from_be_bytes([header[1], header[2], header[3], header[4]]);
    if header[0] == 0 || length == 0 || there < 6 + length as u64 {
        return None;
    }
    Some(length)
}

// The length of the record at this place, none where its gate is closed.
pub(crate) fn record_at<D: Disk>(disk: &mut D, place: u64) -> Result<Option<u32>, Failed>
    requires within { place ≤ (D.state disk.old).size }
    ensures record { IfOk result (λ found. IsTrue (D.state disk.old).tells
        → IsRecordAt place (D.state disk.old).seen found) }
    ensures inside { IfOk result
        (λ found. IfSome found (λ length. place + (5 + length) < (D.state disk.old).size)) }
    ensures fits { IfOk result (λ found. IfSome found (λ length. place + (5 + length) < 2 ^ 64)) }
    ensures some { IfOk result (λ found. IfSome found (λ length. 0 < length)) }
    ensures writes_none { WritesNone (D.state disk.old) (D.state disk.new) }
    ensures time { Elapses (D.state disk.old) (D.state disk.new) }
    ensures run { Runs 0 1 (D.state disk.old) (D.state disk.new) result }
    ensures once { IfOk result
        (λ found. IfSome found (λ _. (D.state disk.new).calls ≡ (D.state disk.old).calls + 1)) }
    ensures cause { HasCause (D.state disk.old).faults (D.state disk.new).faults result }
{
    let there = disk.size() - place;
    if there < 5 {
        return Ok(None);
    }
    let mut header = [0; 5];
    disk.read(place, &mut header)?;
    Ok(length_of(header, there))
}

// Finds the records of a disk.
pub(crate) fn find<D: Disk>(alloc: Global, disk: &mut D) -> Result<Found, LogRefused>
    requires alone { IsTrue (D.state disk.old).tells
        → Only (D.state disk.old).seen (D.state disk.old).may_leave }
    ensures found { IfOk result (λ found. IsTrue (D.state disk.old).tells
        → IsFound found.spans.items found.end (D.state disk.old).seen) }
    ensures closed { IfOk result (λ found. IsTrue (D.state disk.old).tells
        → front_record (drop found.end (D.state disk.old).seen) ≡ None) }
    ensures within { IfOk result
        (λ found. All (λ (span : Span). span.at + span.length ≤ found.end) found.spans.items) }
    ensures inside { IfOk result (λ found. found.end ≤ (D.state disk.old).size) }
    ensures empty { IfOk result (λ found. length found.spans.items ≡ 0 → found.end ≡ 0) }
    ensures gate_there { IfOk result
        (λ found. 0 < found.end → found.end < (D.state disk.old).size) }
    ensures any_moment { EachMoment (D.state disk.old) (D.state disk.new)
        (λ image. image ≡ (D.state disk.old).seen) }
    ensures writes_none { WritesNone (D.state disk.old) (D.state disk.new) }
    ensures tells { (D.state disk.new).tells ≡ (D.state disk.old).tells }
    ensures arms { (D.state disk.new).arms ≡ (D.state disk.old).arms }
    ensures later { (D.state disk.old).calls ≤ (D.state disk.new).calls }
    ensures least { IfOk result
        (λ found. (D.state disk.old).calls + length found.spans.items ≤ (D.state disk.new).calls) }
    ensures most { IfOk result
        (λ found. (D.state disk.new).calls
        ≤ (D.state disk.old).calls + (length found.spans.items + 1)) }
    ensures never_full { IsErrOf result Full → ⊥ }
    ensures cause { IsBlamed (D.state disk.old).faults (D.state disk.new).faults result }
{
    let mut spans = Vec::new(alloc);
    let mut end = 0;
    while let Some(length) = record_at(disk, end)? {
        spans.push(Span {
            at: end + 5,
            length,
        })?;
        end += 5 + length as u64;
    }
    Ok(Found { spans, end })
}

// Appends the bytes of a payload.
pub(crate) fn read_payload<D: Disk>(
    disk: &mut D,
    span: Span,
    out: &mut Vec<u8>,
) -> Result<(), LogRefused>
    requires within { span.at + span.length ≤ (D.state disk.old).size }
    ensures bytes { OnOk result (IsTrue (D.state disk.old).tells
        → out.new.items ≡ out.old.items ++ payload_at (D.state disk.old).seen span) }
    ensures err { OnErr result (out.new.items ≡ out.old.items) }
    ensures any_moment { EachMoment (D.state disk.old) (D.state disk.new)
        (D.state disk.old).may_leave }
    ensures writes_none { WritesNone (D.state disk.old) (D.state disk.new) }
    ensures run { Runs 1 1 (D.state disk.old) (D.state disk.new) result }
    ensures never_full { IsErrOf result Full → ⊥ }
    ensures cause { IsBlamed (D.state disk.old).faults (D.state disk.new).faults result }
{
    let start = out.len();
    out.resize(start + span.length as usize, 0)?;
    if disk.read(span.at, &mut out[start..]).is_err() {
        out.truncate(start);
        return Err(LogRefused::Fault);
    }
    Ok(())
}
