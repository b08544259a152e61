ghost use Rattle.std.specs.Prelude.{drop};
ghost use Rattle.session_codec.specs.Reading.{sweep_at, so_many, run_at, batch_at, version_at};
ghost use Rattle.session_codec.specs.Taking.{TakesPart};

use crate::fields::{byte_in, eight_in, four_in, two_in};
use crate::refused::CodecRefused;
use session_model::Version;
use session_state::Batch;
use shard_model::Sweep;
use std::alloc::Global;

// Each takes a part from the place `at`, and moves `at` behind it.

pub(crate) fn sweep_in(bytes: &[u8], at: &mut usize) -> Result<Sweep, CodecRefused>
    ensures exact { TakesPart (λ s. s) result
        (sweep_at (drop at.old bytes.now)) bytes.now at.new }
{
    let generation = eight_in(bytes, at)?;
    let base = eight_in(bytes, at)?;
    let target = eight_in(bytes, at)?;
    let stream = four_in(bytes, at)?;
    let position = eight_in(bytes, at)?;
    Ok(Sweep {
        generation,
        base,
        target,
        stream,
        position,
    })
}

// So many sweeps.
pub(crate) fn sweeps_in(
    alloc: Global,
    count: u8,
    bytes: &[u8],
    at: &mut usize,
) -> Result<Vec<Sweep>, CodecRefused>
    ensures exact { TakesPart (λ v. v.items) result
        (so_many sweep_at count (drop at.old bytes.now)) bytes.now at.new }
{
    let mut sweeps = Vec::new(alloc);
    for _ in 0..count {
        let sweep = sweep_in(bytes, at)?;
        sweeps.push(sweep)?;
    }
    Ok(sweeps)
}

// The first number of a batch on a track, and how many there are.
fn run_in(bytes: &[u8], at: &mut usize) -> Result<(u64, u16), CodecRefused>
    ensures exact { TakesPart (λ r. r) result
        (run_at (drop at.old bytes.now)) bytes.now at.new }
{
    let first = eight_in(bytes, at)?;
    let count = two_in(bytes, at)?;
    Ok((first, count))
}

pub(crate) fn batch_in(bytes: &[u8], at: &mut usize) -> Result<Batch, CodecRefused>
    ensures exact { TakesPart (λ b. b) result
        (batch_at (drop at.old bytes.now)) bytes.now at.new }
{
    let version = four_in(bytes, at)?;
    let shard = byte_in(bytes, at)?;
    let generation = eight_in(bytes, at)?;
    let stream = four_in(bytes, at)?;
    let from = eight_in(bytes, at)?;
    let to = eight_in(bytes, at)?;
    let limit = four_in(bytes, at)?;
    let (first1, count1) = run_in(bytes, at)?;
    let (first2, count2) = run_in(bytes, at)?;
    Ok(Batch {
        version,
        shard,
        generation,
        stream,
        from,
        to,
        limit,
        first1,
        count1,
        first2,
        count2,
    })
}

pub(crate) fn version_in(bytes: &[u8], at: &mut usize) -> Result<Version, CodecRefused>
    ensures exact { TakesPart (λ v. v) result
        (version_at (drop at.old bytes.now)) bytes.now at.new }
{
    let number = four_in(bytes, at)?;
    let subscription = four_in(bytes, at)?;
    let options = byte_in(bytes, at)?;
    let identifier = four_in(bytes, at)?;
    Ok(Version {
        number,
        subscription,
        options,
        identifier,
    })
}
