// Which changes fit a session.
ghost use Rattle.std.specs.Prelude.{◌≡◌, ◌+◌, ◌==◌, ◌≤◌, ◌&&◌, IsTrue, find, is_some, slice_get, nat_lt, nat_le};
ghost use Rattle.topic_model.specs.Profile.{whole};
ghost use Rattle.session_model.specs.FitsSession.{greatest_of_four, is_between};
ghost use Rattle.session_state.specs.KeptSub.{KeptSub};
ghost use Rattle.session_state.specs.KeptActing.{kept_changed};
ghost use Rattle.session_state.specs.KeptFits.{kept_suits, kept_within, session_fits, subscribes, replaces, issues, is_live, if_live, is_issuing, goes_on, passes};

use crate::subs::{find_sub, live_count, text_bytes};
use crate::{Batch, Effect, Issued, Passed, Replaced, Session, Sub, Subscribed};
use seq_tracks::Tracks;

/// The most live subscriptions of a session.
pub const MOST_SUBSCRIPTIONS: usize = 64;

/// The most bytes of the filter texts that a session keeps, live and ended.
pub const MOST_FILTER_TEXTS: u64 = 65_536;

impl Session {
    /// Whether a change of this session fits: it goes on from what the session is, and the session is within its limits
    /// afterwards. None fits that begins it.
    pub fn fits(&self, effect: &Effect) -> bool
        ensures { result ≡ session_fits whole self.now effect.now }
    {
        self.suits(effect) && self.stays_within(effect)
    }

    // Whether a change goes on from what the session is.
    fn suits(&self, effect: &Effect) -> bool
        ensures { result ≡ kept_suits self.now effect.now }
    {
        match effect {
            Effect::Began(_) => false,
            Effect::Ended => true,
            Effect::Bound(_) => true,
            Effect::Parted(parted) => parted.moment < u64::MAX,
            Effect::Subscribed(new) => self.suits_sub(new),
            Effect::Replaced(replaced) => self.suits_version(replaced),
            Effect::Unsubscribed(number) => self.has_live(*number),
            Effect::Issued(issued) => self.suits_batch(issued),
            Effect::Acked(number) => is_between(
                self.tracks.acked(),
                self.tracks.issued1(),
                *number,
            ),
            Effect::Received(number) => is_between(
                self.tracks.received(),
                self.tracks.issued2(),
                *number,
            ),
            Effect::Done(number) => self.tracks.is_released(*number),
            Effect::Passed(passed) => passes(&self.tracks, passed),
        }
    }

    fn has_live(&self, number: u32) -> bool
        ensures { result ≡ is_live self.now number }
    {
        is_live(&self.subs, number)
    }

    fn suits_sub(&self, new: &Subscribed) -> bool
        ensures { result ≡ subscribes self.now new.now }
    {
        is_next(self.next_sub, new.subscription) && is_next(self.next_version, new.version)
    }

    fn suits_version(&self, replaced: &Replaced) -> bool
        ensures { result ≡ replaces self.now replaced.now }
    {
        is_live(&self.subs, replaced.subscription) && is_next(self.next_version, replaced.version)
    }

    fn suits_batch(&self, issued: &Issued) -> bool
        ensures { result ≡ issues self.now issued.now }
    {
        let batch = &issued.batch;
        is_issuing(batch, &self.subs, issued.subscription)
            && batch.from < batch.to
            && goes_on(&self.tracks, batch)
    }

    // Whether one more live subscription is within the limits, and its text beside those that are kept.
    fn has_place_for(&self, new: &Subscribed) -> bool
        requires { IsTrue (subscribes self.now new.now) }
        ensures { result ≡ kept_within whole (kept_changed (Effect.Subscribed new.now) self.now) }
    {
        let texts = text_bytes(&self.subs) + new.filter.text().len() as u64;
        are_within(live_count(&self.subs), texts)
    }

    // Whether the window has room for the numbers of a batch.
    fn has_room_for(&self, issued: &Issued) -> bool
        requires { IsTrue (issues self.now issued.now) }
        ensures { result ≡ kept_within whole (kept_changed (Effect.Issued issued.now) self.now) }
    {
        let batch = &issued.batch;
        let _order = self.tracks.done();
        let count = u32::from(batch.count1) + u32::from(batch.count2);
        u32::from(self.tracks.in_use()) + count <= u32::from(self.window)
    }

    // Whether the session is within its limits after a change that goes on from what it is.
    fn stays_within(&self, effect: &Effect) -> bool
        requires { IsTrue (kept_suits self.now effect.now) }
        ensures { result ≡ kept_within whole (kept_changed effect.now self.now) }
    {
        let _sound = &self.client;
        match effect {
            Effect::Subscribed(new) => self.has_place_for(new),
            Effect::Issued(issued) => self.has_room_for(issued),
            _ => true,
        }
    }
}

// Whether one more than so many live subscriptions, and so many bytes of filter texts, are within the limits.
fn are_within(live: usize, texts: u64) -> bool
    ensures { result ≡ (nat_lt live MOST_SUBSCRIPTIONS && nat_le texts MOST_FILTER_TEXTS) }
{
    live < MOST_SUBSCRIPTIONS && texts <= MOST_FILTER_TEXTS
}

// Above a mark, and not past the last that was given.
fn is_between(mark: u64, last: u64, number: u64) -> bool
    ensures { result ≡ is_between mark last number }
{
    mark < number && number <= last
}

// Whether a number is the next one, and one is left behind it.
fn is_next(next: u32, number: u32) -> bool
    ensures { result ≡ ((number == next) && nat_lt number greatest_of_four) }
{
    number == next && number < u32::MAX
}

fn is_live(subs: &[Sub], number: u32) -> bool
    ensures { result ≡ if_live (find (λ (s : KeptSub). s.number == number) subs.now) }
{
    match find_sub(subs, number) {
        Some(sub) => sub.live,
        None => false,
    }
}

// Whether a batch may be issued of the subscription with this number.
fn is_issuing(batch: &Batch, subs: &[Sub], number: u32) -> bool
    ensures { result ≡ is_issuing batch.now (find (λ (s : KeptSub). s.number == number) subs.now) }
{
    match find_sub(subs, number) {
        Some(sub) => may_issue(batch, sub),
        None => false,
    }
}

fn may_issue(batch: &Batch, sub: &Sub) -> bool
    ensures { result ≡ (sub.now.live && ((sub.now.version == batch.now.version)
        && is_some (slice_get sub.now.sweeps batch.now.shard))) }
{
    sub.live && sub.version == batch.version && usize::from(batch.shard) < sub.sweeps.len()
}

// Whether the numbers of a batch go on from those given, and there are so many left.
fn goes_on(tracks: &Tracks, batch: &Batch) -> bool
    ensures { result ≡ goes_on tracks.now batch.now }
{
    let _order = tracks.done();
    batch.first1 == tracks.issued1() + 1
        && batch.first2 == tracks.issued2() + 1
        && tracks.has_room_for(batch.count1, batch.count2)
}

fn passes(tracks: &Tracks, passed: &Passed) -> bool
    ensures { result ≡ passes tracks.now passed.now }
{
    match passed.track {
        1 => is_between(tracks.acked(), tracks.issued1(), passed.number),
        2 => is_between(tracks.received(), tracks.issued2(), passed.number),
        _ => false,
    }
}
