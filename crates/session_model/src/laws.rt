ghost use Rattle.std.specs.Prelude.{◌≡◌, ◌≤◌, ◌+◌, ◌&&◌, ◌++◌, List, ℕ, Some, bytes_eq, slice_get, true, false};
ghost use Rattle.topic_model.specs.Profile.{Profile};
ghost use Rattle.session_model.specs.PlainSession.{PlainSession, Sessions, begun_session, complete_of, in_use, is_done};
ghost use Rattle.session_model.specs.PlainSession.{session_of};
ghost use Rattle.session_model.specs.declared.entry.Entry.{Entry};
ghost use Rattle.session_model.specs.Entry.{id_of};
ghost use Rattle.session_model.specs.Unfinished.{unfinished};
ghost use Rattle.session_model.specs.Orders.{HasNumbers};
ghost use Rattle.session_model.specs.Change.{Change, Effect, change};
ghost use Rattle.session_model.specs.Acting.{act_one, act_all, changed_session};
ghost use Rattle.session_model.specs.FitsSession.{changes_fit, suits};

/// A law: changes act, and fit, one list after the other: all of two lists act as the first and then the second, and
/// fit where the first fit and the second fit what the first made.
pub fn changes_compose()
    ensures act { (sessions : Sessions) (first more : List Change) →
        act_all sessions (first ++ more) ≡ act_all (act_all sessions first) more }
    ensures fit { (profile : Profile) (sessions : Sessions) (first more : List Change) →
        changes_fit profile sessions (first ++ more)
        ≡ (changes_fit profile sessions first && changes_fit profile (act_all sessions first) more) }
{}

/// A law: what a session calls complete is the greatest number up to which all numbers of track 2 are done: each of
/// them is done, and the next one isn't.
pub fn complete_is_the_greatest()
    ensures done { (m : PlainSession) (n : ℕ) → 1 ≤ n → n ≤ complete_of m → is_done m n ≡ true }
    ensures next { (m : PlainSession) → is_done m (complete_of m + 1) ≡ false }
{}

/// A law: no two unfinished entries have the same packet identifier (MQTT 2.2.1). Where the numbers of a session are in
/// order and no more than its window of at most 2,048 is in use, two places with one identifier are the same place.
pub fn identifiers_differ()
    ensures { (m : PlainSession) (i j id : ℕ) (e f : Entry) →
        HasNumbers m → in_use m ≤ m.window → m.window ≤ 2048 →
        slice_get (unfinished m) i ≡ Some e → slice_get (unfinished m) j ≡ Some f →
        id_of e.kind ≡ Some id → id_of f.kind ≡ Some id → i ≡ j }
{}

/// A law: the numbers of a session that begins are in order, and each change that fits keeps them in order.
pub fn acting_keeps_order()
    ensures begun { (client : List ℕ) (incarnation expiry window : ℕ) →
        HasNumbers (begun_session client incarnation expiry window) }
    ensures changed { (m : PlainSession) (effect : Effect) →
        suits m effect ≡ true → HasNumbers m → HasNumbers (changed_session effect m) }
{}

/// A law: a change of one client leaves the session of each other client as it was, whatever the change is.
pub fn others_stay()
    ensures { (sessions : Sessions) (client other : List ℕ) (effect : Effect) →
        bytes_eq client other ≡ false →
        session_of other (act_one sessions (change client effect)) ≡ session_of other sessions }
{}
