ghost use Rattle.std.specs.Prelude.{◌≡◌, ◌++◌, ◌≤◌, length, drop, if◌then◌else◌};
ghost use Rattle.std.specs.List.{flat_map};
ghost use Rattle.session_codec.specs.Spelling.{bit, spelled_sub, spelled_subs, spelled_version, spelled_versions, spelled_batch, spelled_batches};
ghost use Rattle.session_codec.specs.Reading.{sub_at, subs_at, version_at, versions_at, kept_batch_at, batches_at, so_many};
ghost use Rattle.session_codec.specs.Taking.{TakesPart, Puts, most_count};

use crate::fields::{filter_in, flag_in, four_in, two_in};
use crate::numbers::Number::{Four, One};
use crate::numbers::put_numbers;
use crate::parts::{batch_in, sweeps_in, version_in};
use crate::putting::{put_batch, put_filter_and_sweeps, put_version};
use crate::refused::CodecRefused;
use session_model::Version;
use session_state::{Batch, Sub};
use std::alloc::{AllocError, Global};
use wire_fields::put_u16;

// ---- reading: each takes a part from the place `at`, and moves `at` behind it

// How many sweeps a subscription has.
fn sweep_count(live: bool, shards: u8) -> u8
    ensures { result ≡ (if live then shards else 0) }
{
    if live { shards } else { 0 }
}

// A subscription, which has a sweep for each shard if it is live, and else none.
fn sub_in(alloc: Global, shards: u8, bytes: &[u8], at: &mut usize) -> Result<Sub, CodecRefused>
    ensures exact { TakesPart (λ s. s) result
        (sub_at shards (drop at.old bytes.now)) bytes.now at.new }
{
    let number = four_in(bytes, at)?;
    let live = flag_in(bytes, at)?;
    let version = four_in(bytes, at)?;
    let filter = filter_in(alloc, bytes, at)?;
    let sweeps = sweeps_in(alloc, sweep_count(live, shards), bytes, at)?;
    Ok(Sub {
        number,
        live,
        version,
        filter,
        sweeps,
    })
}

fn so_many_subs_in(
    alloc: Global,
    shards: u8,
    count: u16,
    bytes: &[u8],
    at: &mut usize,
) -> Result<Vec<Sub>, CodecRefused>
    ensures exact { TakesPart (λ v. v.items) result
        (so_many (sub_at shards) count (drop at.old bytes.now)) bytes.now at.new }
{
    let mut subs = Vec::new(alloc);
    for _ in 0..count {
        let sub = sub_in(alloc, shards, bytes, at)?;
        subs.push(sub)?;
    }
    Ok(subs)
}

pub(crate) fn subs_in(
    alloc: Global,
    shards: u8,
    bytes: &[u8],
    at: &mut usize,
) -> Result<Vec<Sub>, CodecRefused>
    ensures exact { TakesPart (λ v. v.items) result
        (subs_at shards (drop at.old bytes.now)) bytes.now at.new }
{
    let count = two_in(bytes, at)?;
    let subs = so_many_subs_in(alloc, shards, count, bytes, at)?;
    Ok(subs)
}

fn so_many_versions_in(
    alloc: Global,
    count: u16,
    bytes: &[u8],
    at: &mut usize,
) -> Result<Vec<Version>, CodecRefused>
    ensures exact { TakesPart (λ v. v.items) result
        (so_many version_at count (drop at.old bytes.now)) bytes.now at.new }
{
    let mut versions = Vec::new(alloc);
    for _ in 0..count {
        let version = version_in(bytes, at)?;
        versions.push(version)?;
    }
    Ok(versions)
}

pub(crate) fn versions_in(
    alloc: Global,
    bytes: &[u8],
    at: &mut usize,
) -> Result<Vec<Version>, CodecRefused>
    ensures exact { TakesPart (λ v. v.items) result
        (versions_at (drop at.old bytes.now)) bytes.now at.new }
{
    let count = two_in(bytes, at)?;
    let versions = so_many_versions_in(alloc, count, bytes, at)?;
    Ok(versions)
}

// A batch of one of the shards.
fn kept_batch_in(shards: u8, bytes: &[u8], at: &mut usize) -> Result<Batch, CodecRefused>
    ensures exact { TakesPart (λ b. b) result
        (kept_batch_at shards (drop at.old bytes.now)) bytes.now at.new }
{
    let batch = batch_in(bytes, at)?;
    if shards <= batch.shard {
        return Err(CodecRefused::Bad);
    }
    Ok(batch)
}

fn so_many_batches_in(
    alloc: Global,
    shards: u8,
    count: u16,
    bytes: &[u8],
    at: &mut usize,
) -> Result<Vec<Batch>, CodecRefused>
    ensures exact { TakesPart (λ v. v.items) result
        (so_many (kept_batch_at shards) count (drop at.old bytes.now)) bytes.now at.new }
{
    let mut batches = Vec::new(alloc);
    for _ in 0..count {
        let batch = kept_batch_in(shards, bytes, at)?;
        batches.push(batch)?;
    }
    Ok(batches)
}

pub(crate) fn batches_in(
    alloc: Global,
    shards: u8,
    bytes: &[u8],
    at: &mut usize,
) -> Result<Vec<Batch>, CodecRefused>
    ensures exact { TakesPart (λ v. v.items) result
        (batches_at shards (drop at.old bytes.now)) bytes.now at.new }
{
    let count = two_in(bytes, at)?;
    let batches = so_many_batches_in(alloc, shards, count, bytes, at)?;
    Ok(batches)
}

// ---- writing: each puts a part at the end

fn bit(flag: bool) -> u8
    ensures { result ≡ bit flag }
{
    if flag { 1 } else { 0 }
}

#[tactic(auto, using(crate::specs::PutLaws::parts_begin))]
fn put_sub(sub: &Sub, out: &mut Vec<u8>) -> Result<(), AllocError>
    ensures exact { Puts result out.old.items out.new.items (spelled_sub sub.now) }
{
    let live = bit(sub.live);
    put_numbers(&[Four(sub.number), One(live), Four(sub.version)], out)?;
    put_filter_and_sweeps(&sub.filter, &sub.sweeps, out)?;
    Ok(())
}

#[tactic(auto, using(crate::specs::PutLaws::parts_begin))]
fn put_each_sub(subs: &[Sub], out: &mut Vec<u8>) -> Result<(), AllocError>
    ensures exact { Puts result out.old.items out.new.items (flat_map spelled_sub subs.now) }
{
    for sub in subs {
        put_sub(sub, out)?;
    }
    Ok(())
}

#[tactic(auto, using(crate::specs::PutLaws::parts_begin))]
pub(crate) fn put_subs(subs: &[Sub], out: &mut Vec<u8>) -> Result<(), AllocError>
    requires { length subs.now ≤ most_count }
    ensures exact { Puts result out.old.items out.new.items (spelled_subs subs.now) }
{
    put_u16(subs.len() as u16, out)?;
    put_each_sub(subs, out)?;
    Ok(())
}

#[tactic(auto, using(crate::specs::PutLaws::parts_begin))]
fn put_each_version(versions: &[Version], out: &mut Vec<u8>) -> Result<(), AllocError>
    ensures exact { Puts result out.old.items out.new.items
        (flat_map spelled_version versions.now) }
{
    for version in versions {
        put_version(version, out)?;
    }
    Ok(())
}

#[tactic(auto, using(crate::specs::PutLaws::parts_begin))]
pub(crate) fn put_versions(versions: &[Version], out: &mut Vec<u8>) -> Result<(), AllocError>
    requires { length versions.now ≤ most_count }
    ensures exact { Puts result out.old.items out.new.items (spelled_versions versions.now) }
{
    put_u16(versions.len() as u16, out)?;
    put_each_version(versions, out)?;
    Ok(())
}

#[tactic(auto, using(crate::specs::PutLaws::parts_begin))]
fn put_each_batch(batches: &[Batch], out: &mut Vec<u8>) -> Result<(), AllocError>
    ensures exact { Puts result out.old.items out.new.items
        (flat_map spelled_batch batches.now) }
{
    for batch in batches {
        put_batch(batch, out)?;
    }
    Ok(())
}

#[tactic(auto, using(crate::specs::PutLaws::parts_begin))]
pub(crate) fn put_batches(batches: &[Batch], out: &mut Vec<u8>) -> Result<(), AllocError>
    requires { length batches.now ≤ most_count }
    ensures exact { Puts result out.old.items out.new.items (spelled_batches batches.now) }
{
    put_u16(batches.len() as u16, out)?;
    put_each_batch(batches, out)?;
    Ok(())
}
