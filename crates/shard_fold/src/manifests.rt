// The manifest of a shard, and its generations.
ghost use Rattle.std.specs.Prelude.{◌≡◌, ◌+◌, ◌<◌, ◌≤◌, ◌==◌, length, IsTrue, IfOk, Some};
ghost use Rattle.std.specs.List.{list_all, list_any};
ghost use Rattle.topic_name.specs.declared.descriptor.Descriptor.{Descriptor as Generation};
ghost use Rattle.topic_model.specs.Limits.{lies_between};
ghost use Rattle.record_codec.specs.HasSpelling.{manifest_has_spelling};
ghost use Rattle.record_codec.specs.Reading.{manifest_in};
ghost use Rattle.shard_fold.specs.Fold.{are_in_row, are_sound_cuts, as_asked, checked, cuts_in, first_cut, first_manifest, goes_before, have_own_slots, is_known_cut, is_new, is_sound_manifest};
ghost use Rattle.shard_fold.specs.Giving.{Gives, IsAsked};

use crate::asked::Asked;
use crate::unread::{Unread, Where};
use record_codec::{
    CodecRefused, MANIFEST_FORMAT, MOST_GENERATIONS, Manifest, manifest_format, read_manifest,
    write_manifest,
};
use std::alloc::{AllocError, Global};
use topic_name::{Descriptor, MOST_MESSAGES, MOST_SHARDS, MOST_THRESHOLD, MOST_WORKERS, What};

/// How many slots a shard has.
pub const SLOTS: u8 = 8;

// ---- a new shard

fn first_cut(asked: Asked) -> Descriptor
    ensures { result ≡ first_cut asked }
{
    Descriptor {
        number: 0,
        slot: 0,
        first: 0,
        top: asked.config.top,
        below: asked.config.below,
        messages: asked.config.messages,
        sealed: None,
    }
}

/// The manifest of a new shard: one generation, with number 0, in slot 0, from offset 0 on, with the configuration's values.
pub fn first_manifest(alloc: Global, asked: Asked) -> Result<Vec<u8>, AllocError>
    requires { IsAsked asked }
    ensures bytes { IfOk result (λ bytes. bytes.items ≡ first_manifest asked) }
    ensures long { IfOk result (λ bytes. length bytes.items ≡ 39) }
{
    let mut cuts = Vec::new(alloc);
    cuts.push(first_cut(asked))?;
    let manifest = Manifest {
        shards: asked.config.shards,
        workers: asked.config.workers,
        shard: asked.shard,
        cuts,
    };
    let mut bytes = Vec::new(alloc);
    write_manifest(&manifest, &mut bytes)?;
    Ok(bytes)
}

/// Whether generations are those of a shard whose first one may never have been written: one alone, with number 0, in slot 0,
/// from offset 0 on, that isn't sealed.
pub fn is_new(cuts: &[Descriptor]) -> bool
    ensures { result ≡ is_new cuts.now }
{
    match cuts {
        [] => false,
        [cut] => cut.number == 0 && cut.slot == 0 && cut.first == 0 && cut.sealed.is_none(),
        [_, _, ..] => false,
    }
}

// ---- whether generations are sound

fn lies_between(least: u64, most: u64, number: u64) -> bool
    ensures { result ≡ lies_between least most number }
{
    least <= number && number <= most
}

// Whether the numbers of a generation are within their limits, and its slot is one of eight.
fn is_known(cut: &Descriptor) -> bool
    ensures { result ≡ is_known_cut cut.now }
{
    cut.slot < SLOTS
        && lies_between(1, MOST_THRESHOLD.into(), cut.top.into())
        && lies_between(1, MOST_THRESHOLD.into(), cut.below.into())
        && lies_between(1, MOST_MESSAGES.into(), cut.messages.into())
}

fn are_known(cuts: &[Descriptor]) -> bool
    ensures { result ≡ list_all is_known_cut cuts.now }
{
    cuts.iter().all(is_known)
}

// Whether a number is the one after another.
fn is_after(number: u64, before: u64) -> bool
    ensures { result ≡ (number == before + 1) }
{
    number > before && number - before == 1
}

// Whether a generation goes right before the next one.
fn goes_before(cut: &Descriptor, next: &Descriptor) -> bool
    ensures { result ≡ goes_before cut.now next.now }
{
    is_after(next.number, cut.number) && cut.first <= next.first && cut.sealed.is_some()
}

// Whether each goes right before the next one, and the last isn't sealed.
fn are_in_row(cuts: &[Descriptor]) -> bool
    ensures { result ≡ are_in_row cuts.now }
{
    match cuts {
        [] => false,
        [newest] => newest.sealed.is_none(),
        [cut, later @ ..] => goes_before(cut, &later[0]) && are_in_row(later),
    }
}

fn has_slot(cuts: &[Descriptor], slot: u8) -> bool
    ensures { result ≡ list_any (λ (other : Generation). slot == other.slot) cuts.now }
{
    cuts.iter().any(|other| slot == other.slot)
}

// Whether each has a slot of its own.
fn have_own_slots(cuts: &[Descriptor]) -> bool
    ensures { result ≡ have_own_slots cuts.now }
{
    match cuts {
        [] => true,
        [cut, later @ ..] => !has_slot(later, cut.slot) && have_own_slots(later),
    }
}

fn are_sound(cuts: &[Descriptor]) -> bool
    ensures { result ≡ are_sound_cuts cuts.now }
{
    are_known(cuts) && are_in_row(cuts) && have_own_slots(cuts)
}

fn is_sound(manifest: &Manifest) -> bool
    ensures { result ≡ is_sound_manifest manifest.now }
{
    lies_between(1, MOST_SHARDS.into(), manifest.shards.into())
        && lies_between(1, MOST_WORKERS.into(), manifest.workers.into())
        && are_sound(&manifest.cuts)
}

// ---- reading

// The generations of a sound manifest, where it is as asked.
fn take_cuts(manifest: Manifest, asked: Asked) -> Result<Vec<Descriptor>, Unread>
    ensures exact { Gives (λ cuts. cuts.items) result (as_asked asked manifest) }
    ensures cuts { IfOk result (λ cuts. cuts.items ≡ manifest.cuts) }
{
    let Manifest {
        shards,
        workers,
        shard,
        cuts,
    } = manifest;
    if shards != asked.config.shards {
        return Err(Unread::Another(What::Shards, shards, asked.config.shards));
    }
    if workers != asked.config.workers {
        return Err(Unread::Another(What::Workers, workers, asked.config.workers));
    }
    if shard != asked.shard {
        return Err(Unread::Another(What::Number, shard, asked.shard));
    }
    Ok(cuts)
}

// The generations of a manifest, where it is sound, and then as asked.
fn check(manifest: Manifest, asked: Asked) -> Result<Vec<Descriptor>, Unread>
    ensures exact { Gives (λ cuts. cuts.items) result (checked asked (Some manifest)) }
    ensures sound { IfOk result (λ cuts. IsTrue (are_sound_cuts cuts.items)) }
    ensures cuts { IfOk result (λ cuts. cuts.items ≡ manifest.cuts) }
{
    if !is_sound(&manifest) {
        return Err(Unread::Damaged(Where::Manifest, 0));
    }
    let cuts = take_cuts(manifest, asked)?;
    Ok(cuts)
}

// The generations of a manifest of the known format.
fn read_as(alloc: Global, bytes: &[u8], asked: Asked) -> Result<Vec<Descriptor>, Unread>
    ensures exact { Gives (λ cuts. cuts.items) result (checked asked (manifest_in bytes.now)) }
    ensures sound { IfOk result (λ cuts. IsTrue (are_sound_cuts cuts.items)) }
    ensures few { IfOk result (λ cuts. length cuts.items ≤ MOST_GENERATIONS) }
{
    match read_manifest(alloc, bytes) {
        Ok(manifest) => check(manifest, asked),
        Err(CodecRefused::Bad) => Err(Unread::Damaged(Where::Manifest, 0)),
        Err(CodecRefused::Memory) => Err(Unread::Memory),
    }
}

/// The generations that a manifest names, oldest first, from the bytes of its snapshot. An unknown format is refused first, then
/// a manifest that is damaged, then other shards, workers and another number than those asked for.
pub fn read_cuts(alloc: Global, bytes: &[u8], asked: Asked) -> Result<Vec<Descriptor>, Unread>
    ensures exact { Gives (λ cuts. cuts.items) result (cuts_in asked bytes.now) }
    ensures sound { IfOk result (λ cuts. IsTrue (are_sound_cuts cuts.items)) }
    ensures some { IfOk result (λ cuts. 0 < length cuts.items) }
    ensures few { IfOk result (λ cuts. length cuts.items ≤ MOST_GENERATIONS) }
{
    match manifest_format(bytes) {
        None => Err(Unread::Damaged(Where::Manifest, 0)),
        Some(format) => {
            if format != MANIFEST_FORMAT {
                return Err(Unread::Another(What::Format, format, MANIFEST_FORMAT));
            }
            read_as(alloc, bytes, asked)
        }
    }
}
