ghost use Rattle.std.specs.Prelude.{◌≡◌, ◌==◌, ◌++◌, ◌∷◌, [], ◌&&◌, ◌||◌, not, nat_lt, length, slice_get, IsTrue, IfOk, OnErr, if◌then◌else◌};
ghost use Rattle.std.specs.Option.{option_copied};
ghost use Rattle.topic_model.specs.Profile.{whole};
ghost use Rattle.session_model.specs.FitsSession.{greatest};
ghost use Rattle.session_state.specs.KeptSession.{no_kept_sessions, session_of};
ghost use Rattle.session_state.specs.KeptActing.{acted_on, change_of, is_of_held, kept_acted};
ghost use Rattle.session_state.specs.KeptFits.{kept_are_within, kept_fits, wide_count};
ghost use Rattle.session_state.specs.SoundTest.{may_add};

mod acting;

use crate::{Began, Change, Effect, Session};
pub(crate) use acting::is_begun_within;
pub use acting::{MOST_CLIENT, MOST_SESSIONS, MOST_WIDE_SESSIONS, WIDE_WINDOW, WINDOW};
use acting::{add_to, are_below, change_in, copy_of, is_next, remove_from, wide_count};
use indexmap::IndexMap;
use std::alloc::{AllocError, Global};
use std::marker::Model;
use topic_name::Name;

/// The sessions of a worker by their clients, in the order in which they began. Contracts see `KeptSessions`.
#[derive(Drop)]
pub struct Sessions {
    map: IndexMap<Name, Session>,
    next_incarnation: u64,
}

impl Model for Sessions {
    ghost use Rattle.session_state.specs.KeptSession.{KeptSessions, sessions_in};
    ghost use Rattle.session_state.specs.Sound.{AreSound};

    ghost Value = { KeptSessions };

    ghost view = { λ s. record { list = sessions_in s.map.entries; next = s.next_incarnation } };

    ghost invariant = { λ s. AreSound s.map.entries s.next_incarnation };
}

impl Sessions {
    /// None; the first that begins has the number 1.
    pub fn new(alloc: Global) -> Sessions
        ensures { result ≡ no_kept_sessions }
    {
        Sessions {
            map: IndexMap::new(alloc),
            next_incarnation: 1,
        }
    }

    /// None, where the next that begins has this number: what a reader adds those to that it read.
    pub fn numbered(alloc: Global, next_incarnation: u64) -> Sessions
        ensures { result ≡ record no_kept_sessions { next = next_incarnation } }
    {
        Sessions {
            map: IndexMap::new(alloc),
            next_incarnation,
        }
    }

    /// An equal value.
    pub fn copy(&self) -> Result<Sessions, AllocError>
        ensures { IfOk result (λ sessions. sessions ≡ self.now) }
    {
        let map = copy_of(&self.map)?;
        Ok(Sessions {
            map,
            next_incarnation: self.next_incarnation,
        })
    }

    /// Adds a session that was read as the newest, and gives whether it may be: its client has none yet, its number lies
    /// behind those of the others and below the next one, and the limits hold with it. Else nothing changes, nor on want
    /// of memory.
    pub fn add(&mut self, session: Session) -> Result<bool, AllocError>
        ensures fits { IfOk result (λ fits. fits ≡ may_add session self.old) }
        ensures added { IfOk result (λ fits. self.new
            ≡ (if fits then record self.old { list = self.old.list ++ session ∷ [] } else self.old)) }
        ensures memory { OnErr result (self.new ≡ self.old) }
    {
        if !self.may_add(&session) {
            return Ok(false);
        }
        add_to(&mut self.map, session.client().copy()?, session)?;
        Ok(true)
    }

    fn may_add(&self, session: &Session) -> bool
        ensures { result ≡ may_add session.now self.now }
    {
        self.get(session.client()).is_none()
            && are_below(&self.map, session.incarnation())
            && session.incarnation() < self.next_incarnation
            && self.stays_within(session)
    }

    // Whether the limits hold with one more session.
    fn stays_within(&self, session: &Session) -> bool
        ensures { result
            ≡ kept_are_within whole (record self.now { list = self.now.list ++ session.now ∷ [] }) }
    {
        session.facts();
        let _within = &self.map;
        self.has_place_for(session.window())
    }

    /// How many there are.
    pub fn len(&self) -> usize
        ensures { result ≡ length self.now.list }
    {
        self.map.len()
    }

    /// Whether there are none.
    pub fn is_empty(&self) -> bool
        ensures { result ≡ (length self.now.list == 0) }
    {
        self.map.is_empty()
    }

    /// The session of a client, `None` where it has none.
    pub fn get(&self, client: &Name) -> Option<&Session>
        ensures { option_copied result ≡ session_of client.now self.now }
    {
        self.map.get(client)
    }

    /// The one at this place, from 0 on, `None` behind the last.
    pub fn at(&self, place: usize) -> Option<&Session>
        ensures { option_copied result ≡ slice_get self.now.list place }
    {
        let (_, session) = self.map.get_index(place)?;
        Some(session)
    }

    // Begins the session of a client.
    fn begin(&mut self, client: &Name, began: &Began) -> Result<bool, AllocError>
        ensures fits { IfOk result (λ fits. fits
            ≡ kept_fits whole self.old (change_of client.now (Effect.Began began.now))) }
        ensures changed { IfOk result (λ fits. self.new
            ≡ (if fits then acted_on client.now (Effect.Began began.now) self.old else self.old)) }
        ensures memory { OnErr result (self.new ≡ self.old) }
    {
        if !self.may_begin(client, began) {
            return Ok(false);
        }
        let session = Session::begun(*self.map.allocator(), client.copy()?, began);
        add_to(&mut self.map, client.copy()?, session)?;
        self.next_incarnation = began.incarnation + 1;
        Ok(true)
    }

    // Whether a session may begin: its client has none, it has the next number, and the limits hold with it.
    fn may_begin(&self, client: &Name, began: &Began) -> bool
        ensures { result
            ≡ kept_fits whole self.now (change_of client.now (Effect.Began began.now)) }
    {
        self.get(client).is_none()
            && is_next(self.next_incarnation, began.incarnation)
            && is_begun_within(client, began.window)
            && self.has_place_for(began.window)
    }

    // Whether one more session with this window is within the limits of a worker.
    fn has_place_for(&self, window: u16) -> bool
        ensures { result ≡ (nat_lt (length self.now.list) MOST_SESSIONS
            && (not (window == WIDE_WINDOW) || nat_lt (wide_count whole self.now.list) MOST_WIDE_SESSIONS)) }
    {
        self.map.len() < MOST_SESSIONS
            && (window != WIDE_WINDOW || wide_count(&self.map) < MOST_WIDE_SESSIONS)
    }

    // Ends the session of a client.
    fn end(&mut self, client: &Name) -> Result<bool, AllocError>
        ensures fits { IfOk result (λ fits. fits
            ≡ kept_fits whole self.old (change_of client.now Effect.Ended)) }
        ensures changed { IfOk result (λ fits. self.new
            ≡ (if fits then acted_on client.now Effect.Ended self.old else self.old)) }
        ensures memory { OnErr result (self.new ≡ self.old) }
    {
        let ended = remove_from(&mut self.map, client);
        Ok(ended)
    }

    // Lets a change of a held session act.
    fn change(&mut self, client: &Name, effect: &Effect) -> Result<bool, AllocError>
        requires { IsTrue (is_of_held effect.now) }
        ensures fits { IfOk result (λ fits. fits
            ≡ kept_fits whole self.old (change_of client.now effect.now)) }
        ensures changed { IfOk result (λ fits. self.new
            ≡ (if fits then acted_on client.now effect.now self.old else self.old)) }
        ensures memory { OnErr result (self.new ≡ self.old) }
    {
        let fits = change_in(&mut self.map, client, effect)?;
        Ok(fits)
    }

    /// The number that the next session gets.
    pub fn next_incarnation(&self) -> u64
        ensures { result ≡ self.now.next }
    {
        self.next_incarnation
    }
}

/// Lets a change act, and gives whether it fits; where it doesn't, nothing changes. On want of memory nothing changes.
pub fn act(sessions: &mut Sessions, change: &Change) -> Result<bool, AllocError>
    ensures fits { IfOk result (λ fits. fits ≡ kept_fits whole sessions.old change.now) }
    ensures changed { IfOk result (λ fits. sessions.new
        ≡ (if fits then kept_acted change.now sessions.old else sessions.old)) }
    ensures memory { OnErr result (sessions.new ≡ sessions.old) }
{
    match &change.effect {
        Effect::Began(began) => sessions.begin(&change.client, began),
        Effect::Ended => sessions.end(&change.client),
        effect => sessions.change(&change.client, effect),
    }
}
