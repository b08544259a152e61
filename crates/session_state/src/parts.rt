ghost use Rattle.std.specs.Prelude.{◌≡◌, ◌&&◌};
ghost use Rattle.topic_model.specs.Profile.{whole};
ghost use Rattle.session_state.specs.KeptFits.{kept_within};
ghost use Rattle.session_state.specs.SoundTest.{are_issued, each_lies1, each_lies2, has_facts, has_numbers, is_sound, is_tidy, names_held};

use crate::sessions::is_begun_within;
use crate::sound::{
    are_issued, are_needed, are_unfinished, are_wanted, each_lies1, each_lies2, ended_rest,
    hold_named, hold_present, hold_subs, sub_numbers_rise, subs_within, version_numbers_rise,
};
use crate::{Batch, Sub};
use seq_tracks::Tracks;
use session_model::Version;
use std::marker::Model;
use topic_name::Name;

/// What a session was read as, which `Session::of` takes where it may be held. Its fields are those that a session
/// tells. Contracts see `KeptSession`.
#[derive(Drop)]
pub struct SessionParts {
    pub client: Name,
    pub incarnation: u64,
    pub window: u16,
    pub expiry: u32,
    pub parted: Option<u64>,
    pub next_sub: u32,
    pub next_version: u32,
    pub tracks: Tracks,
    pub subs: Vec<Sub>,
    pub versions: Vec<Version>,
    pub batches: Vec<Batch>,
}

impl Model for SessionParts {
    ghost use Rattle.session_state.specs.KeptSession.{KeptSession};

    ghost Value = { KeptSession };

    ghost view = { λ s. record {
      client = s.client;
      incarnation = s.incarnation;
      window = s.window;
      expiry = s.expiry;
      parted = s.parted;
      next_sub = s.next_sub;
      next_version = s.next_version;
      tracks = s.tracks;
      subs = s.subs.items;
      versions = s.versions.items;
      batches = s.batches.items;
    } };
}

impl SessionParts {
    /// Whether it is a session that may be held.
    pub fn is_sound(&self) -> bool
        ensures { result ≡ is_sound self.now }
    {
        self.is_within() && self.is_tidy() && self.has_facts()
    }

    // Whether it is within the limits.
    fn is_within(&self) -> bool
        ensures { result ≡ kept_within whole self.now }
    {
        is_begun_within(&self.client, self.window)
            && subs_within(&self.subs)
            && self.tracks.in_use() <= self.window
    }

    // Whether it has nothing that isn't needed.
    fn is_tidy(&self) -> bool
        ensures { result ≡ is_tidy self.now }
    {
        are_unfinished(&self.tracks, &self.batches)
            && are_needed(&self.subs, &self.batches, &self.versions)
            && are_wanted(&self.versions, &self.subs)
    }

    fn has_facts(&self) -> bool
        ensures { result ≡ has_facts self.now }
    {
        self.has_numbers() && self.names_held() && ended_rest(&self.subs) && self.has_issued()
    }

    fn has_numbers(&self) -> bool
        ensures { result ≡ has_numbers self.now }
    {
        sub_numbers_rise(&self.subs, self.next_sub)
            && version_numbers_rise(&self.versions, self.next_version)
    }

    // Whether what names another has it.
    fn names_held(&self) -> bool
        ensures { result ≡ names_held self.now }
    {
        hold_subs(&self.subs, &self.versions)
            && hold_present(&self.versions, &self.subs)
            && hold_named(&self.versions, &self.batches)
    }

    // Whether its batches are in the order of issue, and each unfinished number lies in exactly one.
    fn has_issued(&self) -> bool
        ensures { result
            ≡ (are_issued 1 1 self.now.tracks.issued1 self.now.tracks.issued2 self.now.batches
            && (each_lies1 self.now.tracks self.now.batches && each_lies2 self.now.tracks self.now.batches)) }
    {
        are_issued(&self.tracks, &self.batches)
            && each_lies1(&self.tracks, &self.batches)
            && each_lies2(&self.tracks, &self.batches)
    }
}
