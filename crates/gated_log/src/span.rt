// Where a payload lies on the disk.
ghost use Rattle.gated_log.specs.PlainLog.{payload_at};
ghost use Rattle.std.specs.Prelude.{◌≡◌, ◌↔◌, ◌⊎◌, ◌+◌, ◌-◌, ◌<◌, ◌≤◌, ◌^◌, [], ◌∷◌, ◌++◌, ℕ, List, length, take, drop, true, false, IsTrue, vec_len, vec_capacity};

/// A payload's first byte and its length.
#[derive(Clone, Copy, Debug, PartialEq, Eq)]
pub struct Span {
    pub at: u64,
    pub length: u32,
}

// So many bytes of a payload from a place on, or as many as there are.
pub(crate) fn part_of(span: Span, from: u32, count: u32) -> Span
    requires { span.at + span.length ≤ 2 ^ 64 - 1 }
    ensures within { result.at + result.length ≤ span.at + span.length }
    ensures short { span.length ≤ 2 ^ 32 - 1 }
    ensures part { (bytes : List ℕ)
        → payload_at bytes result ≡ take count (drop from (payload_at bytes span)) }
{
    let start = from.min(span.length);
    Span {
        at: span.at + start as u64,
        length: count.min(span.length - start),
    }
}

// Adds a record at the end.
pub(crate) fn add_span(spans: &mut Vec<Span>, end: &mut u64, length: u32)
    requires room { vec_len spans.old < vec_capacity spans.old }
    requires fits { end.old + (6 + length) ≤ 2 ^ 64 - 1 }
    ensures spans { spans.new.items
        ≡ spans.old.items ++ record { at = end.old + 5; length = length } ∷ [] }
    ensures len { vec_len spans.new ≡ vec_len spans.old + 1 }
    ensures capacity { vec_capacity spans.new ≡ vec_capacity spans.old }
    ensures end { end.new ≡ end.old + (5 + length) }
{
    spans.push_reserved(Span {
        at: *end + 5,
        length,
    });
    *end += 5 + length as u64;
}

// Whether a record at the end would pass the limit.
pub(crate) fn passes(limit: u64, end: u64, length: u32) -> bool
    ensures over { IsTrue result ↔ limit < end + (6 + length) }
    ensures under { result ≡ false → end + (6 + length) ≤ limit }
{
    match end.checked_add(6 + length as u64) {
        Some(behind) => behind > limit,
        None => true,
    }
}

// Whether a record stands at the end: its gate is open, and the disk is long enough for it.
pub(crate) fn is_there(gate: u8, size: u64, end: u64, length: u32) -> bool
    requires { end + (6 + length) ≤ 2 ^ 64 - 1 }
    ensures there { result ≡ true → (gate ≡ 0 → ⊥) × (end + (6 + length) ≤ size) }
    ensures not_there { result ≡ false → (gate ≡ 0) ⊎ (size < end + (6 + length)) }
{
    gate != 0 && end + (6 + length as u64) <= size
}
