ghost use Rattle.std.specs.Prelude.{◌≡◌, ◌≤◌, length, sum_by};
ghost use Rattle.first_session_terms.specs.declared.entry.Entry.{Entry as Issued};
ghost use Rattle.first_session_terms.specs.Entry.{count1, count2, id1, id2};
ghost use Rattle.first_session_core.specs.Pump.{quota_used};

use first_session_terms::{Entry, Kind};

/// 1 where the entry has a number of the track of QoS 1.
pub fn one1(kind: Kind) -> u64
    ensures value { result ≡ count1 kind }
    ensures small { result ≤ 1 }
{
    match kind {
        Kind::Track1(_) => 1,
        Kind::Track2(_) => 0,
        Kind::Zero => 0,
        Kind::Silent => 0,
    }
}

/// 1 where the entry has a number of the track of QoS 2.
pub fn one2(kind: Kind) -> u64
    ensures value { result ≡ count2 kind }
    ensures small { result ≤ 1 }
{
    match kind {
        Kind::Track1(_) => 0,
        Kind::Track2(_) => 1,
        Kind::Zero => 0,
        Kind::Silent => 0,
    }
}

/// How many of the entries have a number of the track of QoS 1.
pub fn total1(entries: &[Entry]) -> u64
    ensures value { result ≡ sum_by (λ (e : Issued). count1 e.kind) entries.now }
    ensures small { result ≤ length entries.now }
{
    let mut total = 0u64;
    for entry in entries {
        total += one1(entry.kind);
    }
    total
}

/// How many of the entries have a number of the track of QoS 2.
pub fn total2(entries: &[Entry]) -> u64
    ensures value { result ≡ sum_by (λ (e : Issued). count2 e.kind) entries.now }
    ensures small { result ≤ length entries.now }
{
    let mut total = 0u64;
    for entry in entries {
        total += one2(entry.kind);
    }
    total
}

/// How many of the entries are above QoS 0.
pub fn used_by(entries: &[Entry]) -> u64
    ensures { result ≡ quota_used entries.now }
{
    let mut used = 0u64;
    for entry in entries {
        used += one1(entry.kind) + one2(entry.kind);
    }
    used
}

/// The packet identifier of a number of the track of QoS 1: an odd one.
pub fn first_id(number: u64) -> u16
    ensures { result ≡ id1 number }
{
    (2 * (number.saturating_sub(1) % 32767) + 1) as u16
}

/// The packet identifier of a number of the track of QoS 2: an even one.
pub fn second_id(number: u64) -> u16
    ensures { result ≡ id2 number }
{
    (2 * (number.saturating_sub(1) % 32767) + 2) as u16
}
