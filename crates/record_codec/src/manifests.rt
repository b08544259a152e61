ghost use Rattle.std.specs.Prelude.{◌≡◌, ◌≤◌, ◌++◌, drop, length, slice_get, IsTrue, OnOk, OnErr, IfOk, IsErrOf};
ghost use Rattle.std.specs.List.{flat_map};
ghost use Rattle.session_codec.specs.declared.refused.CodecRefused;
ghost use Rattle.session_codec.specs.Reading.{so_many};
ghost use Rattle.session_codec.specs.Taking.{TakesPart, GivesPart, Puts};
ghost use Rattle.record_codec.specs.Records.{KeptManifest};
ghost use Rattle.record_codec.specs.Spelling.{spelled_cut, spelled_cuts, spelled_manifest};
ghost use Rattle.record_codec.specs.HasSpelling.{manifest_has_spelling};
ghost use Rattle.record_codec.specs.Reading.{cut_at, cut_count_at, cuts_at, manifest_at, manifest_in};
ghost use Rattle.record_codec.specs.Spells.{SpellsManifest};
ghost use Rattle.record_codec.specs.Taking.{number_of};

use crate::fields::{byte_in, eight_in, ends, four_in, mark_in, moment_in, two_in};
use crate::formats::{MANIFEST_FORMAT, MOST_GENERATIONS, RECORD_FORMAT};
use crate::manifest::Manifest;
use crate::numbers::Number::{Eight, Four, One, Two};
use crate::numbers::put_numbers;
use session_codec::CodecRefused;
use std::alloc::{AllocError, Global};
use topic_name::Descriptor;
use wire_fields::put_u8;

/// The byte that tells the format of a manifest, `None` where there is none.
pub fn manifest_format(bytes: &[u8]) -> Option<u8>
    ensures { result ≡ slice_get bytes.now 0 }
{
    bytes.first().copied()
}

// ---- reading: each takes a part from the place `at`, and moves `at` behind it

fn cut_in(bytes: &[u8], at: &mut usize) -> Result<Descriptor, CodecRefused>
    ensures exact { TakesPart (λ d. d) result
        (cut_at (drop at.old bytes.now)) bytes.now at.new }
{
    let number = eight_in(bytes, at)?;
    let slot = byte_in(bytes, at)?;
    mark_in(RECORD_FORMAT, bytes, at)?;
    let first = eight_in(bytes, at)?;
    let top = two_in(bytes, at)?;
    let below = two_in(bytes, at)?;
    let messages = four_in(bytes, at)?;
    let sealed = moment_in(bytes, at)?;
    Ok(Descriptor {
        number,
        slot,
        first,
        top,
        below,
        messages,
        sealed,
    })
}

fn so_many_in(
    alloc: Global,
    count: u8,
    bytes: &[u8],
    at: &mut usize,
) -> Result<Vec<Descriptor>, CodecRefused>
    ensures exact { TakesPart (λ v. v.items) result
        (so_many cut_at count (drop at.old bytes.now)) bytes.now at.new }
{
    let mut cuts = Vec::new(alloc);
    for _ in 0..count {
        let cut = cut_in(bytes, at)?;
        cuts.push(cut)?;
    }
    Ok(cuts)
}

// How many generations a manifest has.
fn count_in(bytes: &[u8], at: &mut usize) -> Result<u8, CodecRefused>
    ensures exact { TakesPart (λ n. n) result
        (cut_count_at (drop at.old bytes.now)) bytes.now at.new }
{
    let count = byte_in(bytes, at)?;
    if count == 0 || MOST_GENERATIONS < count {
        return Err(CodecRefused::Bad);
    }
    Ok(count)
}

fn cuts_in(alloc: Global, bytes: &[u8], at: &mut usize) -> Result<Vec<Descriptor>, CodecRefused>
    ensures exact { TakesPart (λ v. v.items) result
        (cuts_at (drop at.old bytes.now)) bytes.now at.new }
{
    let count = count_in(bytes, at)?;
    let cuts = so_many_in(alloc, count, bytes, at)?;
    Ok(cuts)
}

fn manifest_in(alloc: Global, bytes: &[u8], at: &mut usize) -> Result<Manifest, CodecRefused>
    ensures exact { TakesPart (λ m. m) result
        (manifest_at (drop at.old bytes.now)) bytes.now at.new }
{
    mark_in(MANIFEST_FORMAT, bytes, at)?;
    let shards = byte_in(bytes, at)?;
    let workers = byte_in(bytes, at)?;
    let shard = byte_in(bytes, at)?;
    let cuts = cuts_in(alloc, bytes, at)?;
    Ok(Manifest {
        shards,
        workers,
        shard,
        cuts,
    })
}

// The manifest that fills the bytes.
#[tactic(auto, using(session_codec::specs::PartLaws::not_at_end), unfolding(crate::specs::Reading::manifest_in))]
fn manifest_of(alloc: Global, bytes: &[u8]) -> Result<Manifest, CodecRefused>
    ensures exact { GivesPart (λ m. m) result (manifest_in bytes.now) }
{
    let mut at = 0;
    let manifest = manifest_in(alloc, bytes, &mut at)?;
    ends(bytes, at)?;
    Ok(manifest)
}

/// Reads a manifest. `Bad` comes exactly where the bytes spell none, also where its format or that of a generation's records
/// isn't known, of which `manifest_format` tells the first; `Memory` says nothing of the bytes.
pub fn read_manifest(alloc: Global, bytes: &[u8]) -> Result<Manifest, CodecRefused>
    // What it gives, computed.
    ensures exact { GivesPart (λ m. m) result (manifest_in bytes.now) }
    // What is read was spelled so.
    ensures spelled { IfOk result (λ m. SpellsManifest bytes.now m) }
    // Where the bytes are refused, they spell no manifest.
    ensures bad { IsErrOf result CodecRefused.Bad → (manifest : KeptManifest) →
        SpellsManifest bytes.now manifest → ⊥ }
{
    manifest_of(alloc, bytes)
}

// ---- writing: each puts a part at the end, and on want of memory some of it may stand there

// The number that stands for a moment: the greatest one where there is none.
fn number_of(moment: Option<u64>) -> u64
    ensures { result ≡ number_of moment }
{
    match moment {
        None => u64::MAX,
        Some(moment) => moment,
    }
}

fn put_cut(cut: &Descriptor, out: &mut Vec<u8>) -> Result<(), AllocError>
    ensures exact { Puts result out.old.items out.new.items (spelled_cut cut.now) }
{
    let sealed = number_of(cut.sealed);
    put_numbers(
        &[
            Eight(cut.number),
            One(cut.slot),
            One(RECORD_FORMAT),
            Eight(cut.first),
            Two(cut.top),
            Two(cut.below),
            Four(cut.messages),
            Eight(sealed),
        ],
        out,
    )
}

#[tactic(auto, using(session_codec::specs::PutLaws::parts_begin))]
fn put_each(cuts: &[Descriptor], out: &mut Vec<u8>) -> Result<(), AllocError>
    ensures exact { Puts result out.old.items out.new.items (flat_map spelled_cut cuts.now) }
{
    for cut in cuts {
        put_cut(cut, out)?;
    }
    Ok(())
}

#[tactic(auto, using(session_codec::specs::PutLaws::parts_begin))]
fn put_cuts(cuts: &[Descriptor], out: &mut Vec<u8>) -> Result<(), AllocError>
    requires { length cuts.now ≤ MOST_GENERATIONS }
    ensures exact { Puts result out.old.items out.new.items (spelled_cuts cuts.now) }
{
    put_u8(cuts.len() as u8, out)?;
    put_each(cuts, out)?;
    Ok(())
}

#[tactic(auto, using(session_codec::specs::PutLaws::parts_begin))]
fn put_manifest(manifest: &Manifest, out: &mut Vec<u8>) -> Result<(), AllocError>
    requires { length manifest.now.cuts ≤ MOST_GENERATIONS }
    ensures exact { Puts result out.old.items out.new.items (spelled_manifest manifest.now) }
{
    put_numbers(
        &[
            One(MANIFEST_FORMAT),
            One(manifest.shards),
            One(manifest.workers),
            One(manifest.shard),
        ],
        out,
    )?;
    put_cuts(&manifest.cuts, out)?;
    Ok(())
}

/// Writes a manifest at the end. On want of memory `out` stays as it was.
pub fn write_manifest(manifest: &Manifest, out: &mut Vec<u8>) -> Result<(), AllocError>
    // It has 1 to 8 generations, and none was sealed at the greatest moment.
    requires { IsTrue (manifest_has_spelling manifest.now) }
    ensures ok { OnOk result (out.new.items ≡ out.old.items ++ spelled_manifest manifest.now) }
    ensures err { OnErr result (out.new.items ≡ out.old.items) }
{
    let before = out.len();
    if let Err(error) = put_manifest(manifest, out) {
        out.truncate(before);
        return Err(error);
    }
    Ok(())
}
