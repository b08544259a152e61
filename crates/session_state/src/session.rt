ghost use Rattle.std.specs.Prelude.{◌≡◌, ◌≤◌, ◌+◌, length, true, IfOk, IsTrue};
ghost use Rattle.std.specs.Option.{SomeIff};
ghost use Rattle.topic_model.specs.Profile.{whole};
ghost use Rattle.session_state.specs.KeptSession.{begun_kept};
ghost use Rattle.session_state.specs.KeptFits.{kept_within};
ghost use Rattle.session_state.specs.SoundTest.{is_sound};

mod changing;
mod suiting;

use crate::sub::copy_all;
use crate::{Batch, Began, SessionParts, Sub};
use seq_tracks::Tracks;
use session_model::Version;
use std::alloc::{AllocError, Global};
use std::marker::Model;
pub use suiting::{MOST_FILTER_TEXTS, MOST_SUBSCRIPTIONS};
use topic_name::Name;

/// A session of a client (MQTT 4.1). Contracts see `KeptSession`.
#[derive(Drop)]
pub struct Session {
    client: Name,
    incarnation: u64,
    window: u16,
    expiry: u32,
    parted: Option<u64>,
    next_sub: u32,
    next_version: u32,
    tracks: Tracks,
    subs: Vec<Sub>,
    versions: Vec<Version>,
    batches: Vec<Batch>,
}

impl Model for Session {
    ghost use Rattle.session_state.specs.KeptSession.{KeptSession};

    ghost Value = { KeptSession };

    ghost use Rattle.session_state.specs.KeptView.{kept_of};
    ghost use Rattle.session_state.specs.Sound.{IsSound};

    ghost view = { kept_of };

    ghost invariant = { λ s. IsSound (kept_of s) };
}

impl Session {
    // A session that begins, bound to a connection.
    pub(crate) fn begun(alloc: Global, client: Name, began: &Began) -> Session
        requires { IsTrue (kept_within whole
            (begun_kept client began.now.incarnation began.now.expiry began.now.window)) }
        ensures { result
            ≡ begun_kept client began.now.incarnation began.now.expiry began.now.window }
    {
        Session {
            client,
            incarnation: began.incarnation,
            window: began.window,
            expiry: began.expiry,
            parted: None,
            next_sub: 1,
            next_version: 1,
            tracks: Tracks::new(alloc),
            subs: Vec::new(alloc),
            versions: Vec::new(alloc),
            batches: Vec::new(alloc),
        }
    }

    /// The session that was read as these parts; None exactly where they are none that may be held.
    pub fn of(parts: SessionParts) -> Option<Session>
        ensures { SomeIff result (IsTrue (is_sound parts)) parts }
    {
        if !parts.is_sound() {
            return None;
        }
        Some(Session {
            client: parts.client,
            incarnation: parts.incarnation,
            window: parts.window,
            expiry: parts.expiry,
            parted: parts.parted,
            next_sub: parts.next_sub,
            next_version: parts.next_version,
            tracks: parts.tracks,
            subs: parts.subs,
            versions: parts.versions,
            batches: parts.batches,
        })
    }

    /// An equal value.
    pub fn copy(&self) -> Result<Session, AllocError>
        ensures { IfOk result (λ session. session ≡ self.now) }
    {
        let client = self.client.copy()?;
        let subs = copy_all(*self.subs.allocator(), &self.subs)?;
        let versions = self.versions.clone()?;
        let batches = self.batches.clone()?;
        let tracks = self.tracks.copy()?;
        Ok(Session {
            client,
            incarnation: self.incarnation,
            window: self.window,
            expiry: self.expiry,
            parted: self.parted,
            next_sub: self.next_sub,
            next_version: self.next_version,
            tracks,
            subs,
            versions,
            batches,
        })
    }

    /// What holds of every session. It does nothing.
    pub fn facts(&self)
        ensures sound { IsTrue (is_sound self.now) }
        ensures within { kept_within whole self.now ≡ true }
        ensures batches { length self.now.batches ≤ self.now.window }
        ensures versions { length self.now.versions ≤ MOST_SUBSCRIPTIONS + self.now.window }
    {
        let _fields = &self.client;
    }

    /// Its client's identifier (MQTT 3.1.3.1).
    pub fn client(&self) -> &Name
        ensures { result.now ≡ self.now.client }
    {
        &self.client
    }

    /// Its number among the sessions of its worker, from 1 on.
    pub fn incarnation(&self) -> u64
        ensures { result ≡ self.now.incarnation }
    {
        self.incarnation
    }

    /// How many of its deliveries may be unfinished.
    pub fn window(&self) -> u16
        ensures { result ≡ self.now.window }
    {
        self.window
    }

    /// Its Session Expiry Interval in seconds (MQTT 3.1.2.11.2).
    pub fn expiry(&self) -> u32
        ensures { result ≡ self.now.expiry }
    {
        self.expiry
    }

    /// Since when it has no connection, in milliseconds; `None` where it has one.
    pub fn parted(&self) -> Option<u64>
        ensures { result ≡ self.now.parted }
    {
        self.parted
    }

    /// The number that its next subscription gets.
    pub fn next_sub(&self) -> u32
        ensures { result ≡ self.now.next_sub }
    {
        self.next_sub
    }

    /// The number that its next version gets.
    pub fn next_version(&self) -> u32
        ensures { result ≡ self.now.next_version }
    {
        self.next_version
    }

    /// The numbers of its deliveries, and how far these are acknowledged.
    pub fn tracks(&self) -> &Tracks
        ensures { result.now ≡ self.now.tracks }
    {
        &self.tracks
    }

    /// Its subscriptions by their numbers, with those that ended while deliveries of them are unfinished.
    pub fn subs(&self) -> &[Sub]
        ensures { result.now ≡ self.now.subs }
    {
        &self.subs
    }

    /// The versions of its subscriptions that are still needed, by their numbers.
    pub fn versions(&self) -> &[Version]
        ensures { result.now ≡ self.now.versions }
    {
        &self.versions
    }

    /// The batches with unfinished deliveries, in the order of issue.
    pub fn batches(&self) -> &[Batch]
        ensures { result.now ≡ self.now.batches }
    {
        &self.batches
    }
}
