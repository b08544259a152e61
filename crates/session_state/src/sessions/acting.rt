// What changes make of the sessions of a worker.
ghost use Rattle.std.specs.Prelude.{◌≡◌, ◌==◌, ◌&&◌, ◌++◌, ◌∷◌, [], nat_le, nat_lt, length, find, is_some, IsNone, IfOk, OnOk, OnErr, if◌then◌else◌};
ghost use Rattle.std.specs.List.{list_all};
ghost use Rattle.std.specs.Str.{bytes_eq};
ghost use Rattle.indexmap.specs.IndexMap.{IsUnique};
ghost use Rattle.topic_model.specs.Profile.{whole};
ghost use Rattle.session_model.specs.FitsSession.{greatest};
ghost use Rattle.session_state.specs.KeptSession.{KeptSession, AreKeyed, sessions_in};
ghost use Rattle.session_state.specs.KeptActing.{kept_changed, on_session, without_session};
ghost use Rattle.session_state.specs.KeptFits.{held_fits, is_wide, is_window, wide_count};

use crate::{Effect, Session};
use indexmap::IndexMap;
use std::alloc::AllocError;
use topic_name::Name;

/// The most sessions of a worker.
pub const MOST_SESSIONS: usize = 4_096;

/// The most sessions of a worker that have the wide window.
pub const MOST_WIDE_SESSIONS: usize = 256;

/// How many deliveries of a session may be unfinished, and of one with the wide window.
pub const WINDOW: u16 = 512;

pub const WIDE_WINDOW: u16 = 2_048;

/// The most bytes of a client identifier.
pub const MOST_CLIENT: usize = 256;

// Whether a number is the next one, and one is left behind it.
pub(crate) fn is_next(next: u64, number: u64) -> bool
    ensures { result ≡ ((number == next) && nat_lt number greatest) }
{
    number == next && number < u64::MAX
}

// Whether a session that begins with this window is within the limits.
pub(crate) fn is_begun_within(client: &Name, window: u16) -> bool
    ensures { result ≡ (nat_le (length client.now) MOST_CLIENT && is_window whole window) }
{
    client.bytes().len() <= MOST_CLIENT && (window == WINDOW || window == WIDE_WINDOW)
}

// How many have the wide window.
pub(crate) fn wide_count(map: &IndexMap<Name, Session>) -> usize
    ensures { result ≡ wide_count whole (sessions_in map.now.entries) }
{
    let mut count = 0;
    for session in map.values() {
        if is_wide(session) {
            count += 1;
        }
    }
    count
}

fn is_wide(session: &Session) -> bool
    ensures { result ≡ is_wide whole session.now }
{
    session.window() == WIDE_WINDOW
}

// Whether the number of each lies below one.
pub(crate) fn are_below(map: &IndexMap<Name, Session>, incarnation: u64) -> bool
    ensures { result
        ≡ list_all (λ (m : KeptSession). nat_lt m.incarnation incarnation)
        (sessions_in map.now.entries) }
{
    for session in map.values() {
        if incarnation <= session.incarnation() {
            return false;
        }
    }
    true
}

// Puts a new session behind the others, or nothing.
pub(crate) fn add_to(
    map: &mut IndexMap<Name, Session>,
    key: Name,
    session: Session,
) -> Result<(), AllocError>
    requires keyed { AreKeyed map.old.entries }
    requires client { key ≡ session.client }
    requires absent { IsNone (find (λ (m : KeptSession). bytes_eq m.client key)
        (sessions_in map.old.entries)) }
    ensures keyed { AreKeyed map.new.entries }
    ensures added { OnOk result (sessions_in map.new.entries
        ≡ sessions_in map.old.entries ++ session ∷ []) }
    ensures memory { OnErr result (sessions_in map.new.entries ≡ sessions_in map.old.entries) }
{
    map.insert(key, session)?;
    Ok(())
}

// An equal map.
pub(crate) fn copy_of(map: &IndexMap<Name, Session>) -> Result<IndexMap<Name, Session>, AllocError>
    requires { AreKeyed map.now.entries }
    ensures keyed { IfOk result (λ copied. AreKeyed copied.entries) }
    ensures same { IfOk result (λ copied. sessions_in copied.entries ≡ sessions_in map.now.entries) }
{
    let mut copied = IndexMap::with_capacity(*map.allocator(), map.len())?;
    for session in map.values() {
        add_copy(&mut copied, session)?;
    }
    Ok(copied)
}

// Puts a copy of a session behind the others.
fn add_copy(map: &mut IndexMap<Name, Session>, session: &Session) -> Result<(), AllocError>
    requires keyed { AreKeyed map.old.entries }
    requires absent { IsNone (find (λ (m : KeptSession). bytes_eq m.client session.now.client)
        (sessions_in map.old.entries)) }
    ensures keyed { AreKeyed map.new.entries }
    ensures added { OnOk result (sessions_in map.new.entries
        ≡ sessions_in map.old.entries ++ session.now ∷ []) }
{
    let copied = session.copy()?;
    add_to(map, session.client().copy()?, copied)
}

// Takes the session of this client out, and gives whether it had one.
pub(crate) fn remove_from(map: &mut IndexMap<Name, Session>, client: &Name) -> bool
    requires { AreKeyed map.old.entries }
    ensures keyed { AreKeyed map.new.entries }
    ensures found { result
        ≡ is_some (find (λ (m : KeptSession). bytes_eq m.client client.now)
        (sessions_in map.old.entries)) }
    ensures removed { sessions_in map.new.entries
        ≡ without_session client.now (sessions_in map.old.entries) }
{
    let _place = map.get_index_of(client);
    map.shift_remove(client).is_some()
}

// Lets a change of a held session act on the one of this client, if it has one, and gives whether it fits.
pub(crate) fn change_in(
    map: &mut IndexMap<Name, Session>,
    client: &Name,
    effect: &Effect,
) -> Result<bool, AllocError>
    requires { AreKeyed map.old.entries }
    ensures unique { IsUnique bytes_eq map.old }
    ensures keyed { AreKeyed map.new.entries }
    ensures fits { IfOk result (λ fits. fits ≡ held_fits whole effect.now
        (find (λ (m : KeptSession). bytes_eq m.client client.now) (sessions_in map.old.entries))) }
    ensures changed { IfOk result (λ fits. sessions_in map.new.entries ≡ (if fits
        then on_session client.now (kept_changed effect.now) (sessions_in map.old.entries)
        else sessions_in map.old.entries)) }
    ensures memory { OnErr result (sessions_in map.new.entries ≡ sessions_in map.old.entries) }
{
    let Some(session) = map.get_mut(client) else {
        return Ok(false);
    };
    let fits = session.change(effect)?;
    Ok(fits)
}
