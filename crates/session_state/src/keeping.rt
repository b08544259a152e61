// What a session keeps: batches with unfinished deliveries, and the versions and subscriptions that are needed.
ghost use Rattle.std.specs.Prelude.{◌≡◌, ◌-◌, ◌⊎◌};
ghost use Rattle.std.specs.List.{list_any};
ghost use Rattle.session_model.specs.Acting.{numbers_from};
ghost use Rattle.seq_tracks.specs.PlainTracks.{is_unfinished};
ghost use Rattle.session_state.specs.KeptActing.{has_unfinished, kept_batches, kept_versions, kept_subs, is_present, is_named, has_version};

use crate::{Batch, Sub};
use seq_tracks::Tracks;
use session_model::Version;

/// Drops the batches that are finished, and if there were some, the versions and the ended subscriptions that are then
/// no longer needed. Where none was finished it looks at the batches alone.
pub(crate) fn tidy(
    tracks: &Tracks,
    batches: &mut Vec<Batch>,
    versions: &mut Vec<Version>,
    subs: &mut Vec<Sub>,
)
    requires versions { kept_versions subs.old.items batches.old.items versions.old.items
        ≡ versions.old.items }
    requires subs { kept_subs versions.old.items subs.old.items ≡ subs.old.items }
    ensures batches { batches.new.items ≡ kept_batches tracks.now batches.old.items }
    ensures versions { versions.new.items
        ≡ kept_versions subs.old.items batches.new.items versions.old.items }
    ensures subs { subs.new.items ≡ kept_subs versions.new.items subs.old.items }
{
    let before = batches.len();
    drop_finished(tracks, batches);
    if batches.len() < before {
        drop_unneeded(batches, versions, subs);
    }
}

/// Drops the versions that are no live subscription's present one and that no batch names, and then the ended
/// subscriptions without a version.
pub(crate) fn drop_unneeded(batches: &[Batch], versions: &mut Vec<Version>, subs: &mut Vec<Sub>)
    ensures versions { versions.new.items
        ≡ kept_versions subs.old.items batches.now versions.old.items }
    ensures subs { subs.new.items ≡ kept_subs versions.new.items subs.old.items }
{
    drop_versions(subs, batches, versions);
    drop_subs(versions, subs);
}

fn drop_finished(tracks: &Tracks, batches: &mut Vec<Batch>)
    ensures { batches.new.items ≡ kept_batches tracks.now batches.old.items }
{
    batches.retain(|batch| has_unfinished(tracks, batch));
}

fn drop_versions(subs: &[Sub], batches: &[Batch], versions: &mut Vec<Version>)
    ensures { versions.new.items ≡ kept_versions subs.now batches.now versions.old.items }
{
    versions.retain(|version| is_present(subs, version) || is_named(batches, version));
}

fn drop_subs(versions: &[Version], subs: &mut Vec<Sub>)
    ensures { subs.new.items ≡ kept_subs versions.now subs.old.items }
{
    subs.retain(|sub| sub.live || has_version(versions, sub));
}

// Whether the version is the present one of a live subscription.
pub(crate) fn is_present(subs: &[Sub], version: &Version) -> bool
    ensures { result ≡ is_present subs.now version.now }
{
    subs.iter()
        .any(|sub| sub.live && sub.version == version.number)
}

pub(crate) fn is_named(batches: &[Batch], version: &Version) -> bool
    ensures { result ≡ is_named batches.now version.now }
{
    batches.iter().any(|batch| batch.version == version.number)
}

pub(crate) fn has_version(versions: &[Version], sub: &Sub) -> bool
    ensures { result ≡ has_version versions.now sub.now }
{
    versions
        .iter()
        .any(|version| version.subscription == sub.number)
}

// Whether some number of the batch is unfinished.
pub(crate) fn has_unfinished(tracks: &Tracks, batch: &Batch) -> bool
    ensures { result ≡ has_unfinished tracks.now batch.now }
{
    any_unfinished(tracks, 1, batch.first1, batch.count1)
        || any_unfinished(tracks, 2, batch.first2, batch.count2)
}

// Whether some of so many numbers of a track from one on is unfinished. None is that has no successor.
fn any_unfinished(tracks: &Tracks, track: u8, first: u64, count: u16) -> bool
    requires { (track ≡ 1) ⊎ (track ≡ 2) }
    ensures { result ≡ list_any (is_unfinished tracks.now track) (numbers_from first count) }
{
    let _order = tracks.done();
    let end = first.saturating_add(u64::from(count));
    any_unfinished_between(tracks, track, first, end)
}

fn any_unfinished_between(tracks: &Tracks, track: u8, first: u64, end: u64) -> bool
    ensures { result
        ≡ list_any (is_unfinished tracks.now track) (numbers_from first (end - first)) }
{
    for number in first..end {
        if tracks.is_unfinished(track, number) {
            return true;
        }
    }
    false
}
