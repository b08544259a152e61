// Whether a session may be held, which is asked of one that was read.
ghost use Rattle.std.specs.Prelude.{◌≡◌, ◌≤◌, ◌==◌, ◌+◌, ◌-◌, ◌&&◌, ◌||◌, ◌⊎◌, not, ℕ, true, count_by, nat_le, length};
ghost use Rattle.std.specs.List.{list_all, list_any};
ghost use Rattle.topic_model.specs.Profile.{whole};
ghost use Rattle.session_model.specs.Acting.{numbers_from};
ghost use Rattle.session_model.specs.PlainSession.{has};
ghost use Rattle.session_state.specs.declared.batch.Batch.{Batch};
ghost use Rattle.seq_tracks.specs.PlainTracks.{is_unfinished1, is_unfinished2};
ghost use Rattle.session_model.specs.declared.entry.Version.{Version};
ghost use Rattle.session_state.specs.KeptSub.{KeptSub};
ghost use Rattle.session_state.specs.KeptActing.{has_unfinished, numbers1_of, numbers2_of};
ghost use Rattle.session_state.specs.KeptFits.{has_filters, live_count, subs_within, text_bytes};
ghost use Rattle.session_state.specs.SoundTest.{are_issued, each_lies1, each_lies2, ended_rest, holds_own, holds_sub, holds_version, is_needed, is_wanted, lies_in_one1, lies_in_one2, rise, sub_numbers, version_numbers};

use crate::keeping::{has_unfinished, has_version, is_named, is_present};
use crate::session::{MOST_FILTER_TEXTS, MOST_SUBSCRIPTIONS};
use crate::subs::live_count;
use crate::{Batch, Sub};
use seq_tracks::Tracks;
use session_model::Version;

// Whether the subscriptions are within the limits. Their filters are, by their type.
pub(crate) fn subs_within(subs: &[Sub]) -> bool
    ensures { result ≡ subs_within whole subs.now }
{
    see_filters(subs);
    live_count(subs) <= MOST_SUBSCRIPTIONS && are_texts_within(subs)
}

// Each filter is one.
fn see_filters(subs: &[Sub])
    ensures { has_filters subs.now ≡ true }
{
    for sub in subs {
        let _text = sub.filter.text();
    }
}

fn are_texts_within(subs: &[Sub]) -> bool
    ensures { result ≡ nat_le (text_bytes subs.now) MOST_FILTER_TEXTS }
{
    let mut left = MOST_FILTER_TEXTS;
    for sub in subs {
        let bytes = sub.filter.text().len() as u64;
        if left < bytes {
            return false;
        }
        left -= bytes;
    }
    true
}

// Whether each batch has an unfinished number.
pub(crate) fn are_unfinished(tracks: &Tracks, batches: &[Batch]) -> bool
    ensures { result ≡ list_all (has_unfinished tracks.now) batches.now }
{
    batches.iter().all(|batch| has_unfinished(tracks, batch))
}

pub(crate) fn are_needed(subs: &[Sub], batches: &[Batch], versions: &[Version]) -> bool
    ensures { result ≡ list_all (is_needed subs.now batches.now) versions.now }
{
    versions.iter().all(|version| is_present(subs, version) || is_named(batches, version))
}

pub(crate) fn are_wanted(versions: &[Version], subs: &[Sub]) -> bool
    ensures { result ≡ list_all (is_wanted versions.now) subs.now }
{
    subs.iter()
        .all(|sub| sub.live || has_version(versions, sub))
}

// Whether the numbers of subscriptions ascend, below the next one.
pub(crate) fn sub_numbers_rise(subs: &[Sub], next: u32) -> bool
    ensures { result ≡ rise 0 next (sub_numbers subs.now) }
{
    let mut low = 0;
    for sub in subs {
        if sub.number < low || next <= sub.number {
            return false;
        }
        low = sub.number + 1;
    }
    true
}

pub(crate) fn version_numbers_rise(versions: &[Version], next: u32) -> bool
    ensures { result ≡ rise 0 next (version_numbers versions.now) }
{
    let mut low = 0;
    for version in versions {
        if version.number < low || next <= version.number {
            return false;
        }
        low = version.number + 1;
    }
    true
}

fn holds_sub(subs: &[Sub], number: u32) -> bool
    ensures { result ≡ holds_sub subs.now number }
{
    subs.iter().any(|sub| sub.number == number)
}

fn holds_version(versions: &[Version], number: u32) -> bool
    ensures { result ≡ holds_version versions.now number }
{
    versions.iter().any(|version| version.number == number)
}

// Whether each version's subscription is held.
pub(crate) fn hold_subs(subs: &[Sub], versions: &[Version]) -> bool
    ensures { result ≡ list_all (λ (v : Version). holds_sub subs.now v.subscription) versions.now }
{
    versions
        .iter()
        .all(|version| holds_sub(subs, version.subscription))
}

// Whether the subscription's present version is held, as one of its own.
fn holds_own(versions: &[Version], sub: &Sub) -> bool
    ensures { result ≡ holds_own versions.now sub.now.version sub.now }
{
    versions.iter().any(|version| version.number == sub.version
        && version.subscription == sub.number)
}

// Whether each live subscription's version is held.
pub(crate) fn hold_present(versions: &[Version], subs: &[Sub]) -> bool
    ensures { result
        ≡ list_all (λ (s : KeptSub). not s.live || holds_own versions.now s.version s) subs.now }
{
    subs.iter().all(|sub| !sub.live || holds_own(versions, sub))
}

// Whether each batch's version is held.
pub(crate) fn hold_named(versions: &[Version], batches: &[Batch]) -> bool
    ensures { result ≡ list_all (λ (b : Batch). holds_version versions.now b.version) batches.now }
{
    batches
        .iter()
        .all(|batch| holds_version(versions, batch.version))
}

// Whether those that were ended have no sweeps.
pub(crate) fn ended_rest(subs: &[Sub]) -> bool
    ensures { result ≡ ended_rest subs.now }
{
    subs.iter().all(|sub| sub.live || sub.sweeps.is_empty())
}

// Whether the batches are in the order of issue.
pub(crate) fn are_issued(tracks: &Tracks, batches: &[Batch]) -> bool
    ensures { result ≡ are_issued 1 1 tracks.now.issued1 tracks.now.issued2 batches.now }
{
    let _order = tracks.done();
    let mut low1 = 1;
    let mut low2 = 1;
    for batch in batches {
        if batch.to <= batch.from
            || !is_run(low1, tracks.issued1(), batch.first1, batch.count1)
            || !is_run(low2, tracks.issued2(), batch.first2, batch.count2)
        {
            return false;
        }
        low1 = batch.first1 + u64::from(batch.count1);
        low2 = batch.first2 + u64::from(batch.count2);
    }
    true
}

// Whether a run of numbers begins at a number or behind it, and ends at the last or before.
fn is_run(low: u64, last: u64, first: u64, count: u16) -> bool
    requires { 1 ≤ low }
    ensures { result ≡ (nat_le low first && nat_le (first + count) (last + 1)) }
{
    low <= first && first - 1 <= last && u64::from(count) <= last - (first - 1)
}

// Whether each unfinished number of track 1 lies in exactly one batch.
pub(crate) fn each_lies1(tracks: &Tracks, batches: &[Batch]) -> bool
    ensures { result ≡ each_lies1 tracks.now batches.now }
{
    let _order = tracks.done();
    for number in tracks.acked() + 1..tracks.issued1() + 1 {
        if !lies1(tracks, batches, number) {
            return false;
        }
    }
    true
}

// The same of track 2.
pub(crate) fn each_lies2(tracks: &Tracks, batches: &[Batch]) -> bool
    ensures { result ≡ each_lies2 tracks.now batches.now }
{
    let _order = tracks.done();
    for number in tracks.complete() + 1..tracks.issued2() + 1 {
        if !lies2(tracks, batches, number) {
            return false;
        }
    }
    true
}

// Whether a number of track 1, if it is unfinished, lies in exactly one batch.
fn lies1(tracks: &Tracks, batches: &[Batch], number: u64) -> bool
    ensures { result ≡ (not (is_unfinished1 tracks.now number) || lies_in_one1 batches.now number) }
{
    !tracks.is_unfinished(1, number) || lies_in_one1(batches, number)
}

fn lies_in_one1(batches: &[Batch], number: u64) -> bool
    ensures { result ≡ lies_in_one1 batches.now number }
{
    batches
        .iter()
        .filter(|batch| is_in(batch.first1, batch.count1, number))
        .count()
        == 1
}

// Whether a number of track 2, if it is unfinished, lies in exactly one batch.
fn lies2(tracks: &Tracks, batches: &[Batch], number: u64) -> bool
    ensures { result ≡ (not (is_unfinished2 tracks.now number) || lies_in_one2 batches.now number) }
{
    !tracks.is_unfinished(2, number) || lies_in_one2(batches, number)
}

fn lies_in_one2(batches: &[Batch], number: u64) -> bool
    ensures { result ≡ lies_in_one2 batches.now number }
{
    batches
        .iter()
        .filter(|batch| is_in(batch.first2, batch.count2, number))
        .count()
        == 1
}

// Whether a number is one of so many from one on.
fn is_in(first: u64, count: u16, number: u64) -> bool
    ensures { result ≡ has (numbers_from first count) number }
{
    first <= number && number - first < u64::from(count)
}
