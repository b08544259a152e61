ghost use Rattle.std.specs.Prelude.{drop};
ghost use Rattle.session_codec.specs.Reading.{began_at, parted_at, subscribed_at, replaced_at, issued_at, passed_at, effect_at};
ghost use Rattle.session_codec.specs.Taking.{TakesPart};

use crate::fields::{byte_in, eight_in, filter_in, four_in, moment_in, window_in};
use crate::parts::{batch_in, sweep_in, sweeps_in};
use crate::refused::CodecRefused;
use crate::tags;
use session_state::{Began, Effect, Issued, Parted, Passed, Replaced, Subscribed};
use std::alloc::Global;

// Each takes what stands behind the client of a change from the place `at`, and moves `at` behind it.

fn began_in(format: u8, bytes: &[u8], at: &mut usize) -> Result<Began, CodecRefused>
    ensures exact { TakesPart (λ b. b) result
        (began_at format (drop at.old bytes.now)) bytes.now at.new }
{
    let incarnation = eight_in(bytes, at)?;
    let expiry = four_in(bytes, at)?;
    let window = window_in(format, bytes, at)?;
    Ok(Began {
        incarnation,
        expiry,
        window,
    })
}

fn parted_in(bytes: &[u8], at: &mut usize) -> Result<Parted, CodecRefused>
    ensures exact { TakesPart (λ p. p) result
        (parted_at (drop at.old bytes.now)) bytes.now at.new }
{
    let expiry = four_in(bytes, at)?;
    let moment = moment_in(bytes, at)?;
    Ok(Parted { expiry, moment })
}

fn subscribed_in(
    alloc: Global,
    shards: u8,
    bytes: &[u8],
    at: &mut usize,
) -> Result<Subscribed, CodecRefused>
    ensures exact { TakesPart (λ s. s) result
        (subscribed_at shards (drop at.old bytes.now)) bytes.now at.new }
{
    let subscription = four_in(bytes, at)?;
    let version = four_in(bytes, at)?;
    let options = byte_in(bytes, at)?;
    let identifier = four_in(bytes, at)?;
    let filter = filter_in(alloc, bytes, at)?;
    let sweeps = sweeps_in(alloc, shards, bytes, at)?;
    Ok(Subscribed {
        subscription,
        version,
        options,
        identifier,
        filter,
        sweeps,
    })
}

fn replaced_in(bytes: &[u8], at: &mut usize) -> Result<Replaced, CodecRefused>
    ensures exact { TakesPart (λ r. r) result
        (replaced_at (drop at.old bytes.now)) bytes.now at.new }
{
    let subscription = four_in(bytes, at)?;
    let version = four_in(bytes, at)?;
    let options = byte_in(bytes, at)?;
    let identifier = four_in(bytes, at)?;
    Ok(Replaced {
        subscription,
        version,
        options,
        identifier,
    })
}

fn issued_in(bytes: &[u8], at: &mut usize) -> Result<Issued, CodecRefused>
    ensures exact { TakesPart (λ i. i) result
        (issued_at (drop at.old bytes.now)) bytes.now at.new }
{
    let subscription = four_in(bytes, at)?;
    let batch = batch_in(bytes, at)?;
    let sweep = sweep_in(bytes, at)?;
    Ok(Issued {
        subscription,
        batch,
        sweep,
    })
}

fn passed_in(bytes: &[u8], at: &mut usize) -> Result<Passed, CodecRefused>
    ensures exact { TakesPart (λ p. p) result
        (passed_at (drop at.old bytes.now)) bytes.now at.new }
{
    let track = byte_in(bytes, at)?;
    let number = eight_in(bytes, at)?;
    Ok(Passed { track, number })
}

// What happened, by the byte that tells its kind.
pub(crate) fn effect_in(
    alloc: Global,
    format: u8,
    shards: u8,
    tag: u8,
    bytes: &[u8],
    at: &mut usize,
) -> Result<Effect, CodecRefused>
    ensures exact { TakesPart (λ e. e) result
        (effect_at format shards tag (drop at.old bytes.now)) bytes.now at.new }
{
    if tag == tags::BEGAN {
        Ok(Effect::Began(began_in(format, bytes, at)?))
    } else if tag == tags::ENDED {
        Ok(Effect::Ended)
    } else if tag == tags::BOUND {
        Ok(Effect::Bound(four_in(bytes, at)?))
    } else if tag == tags::PARTED {
        Ok(Effect::Parted(parted_in(bytes, at)?))
    } else if tag == tags::SUBSCRIBED {
        Ok(Effect::Subscribed(subscribed_in(alloc, shards, bytes, at)?))
    } else if tag == tags::REPLACED {
        Ok(Effect::Replaced(replaced_in(bytes, at)?))
    } else if tag == tags::UNSUBSCRIBED {
        Ok(Effect::Unsubscribed(four_in(bytes, at)?))
    } else if tag == tags::ISSUED {
        Ok(Effect::Issued(issued_in(bytes, at)?))
    } else if tag == tags::ACKED {
        Ok(Effect::Acked(eight_in(bytes, at)?))
    } else if tag == tags::RECEIVED {
        Ok(Effect::Received(eight_in(bytes, at)?))
    } else if tag == tags::DONE {
        Ok(Effect::Done(eight_in(bytes, at)?))
    } else if tag == tags::PASSED {
        Ok(Effect::Passed(passed_in(bytes, at)?))
    } else {
        Err(CodecRefused::Bad)
    }
}
