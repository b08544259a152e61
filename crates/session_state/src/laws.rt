ghost use Rattle.std.specs.Prelude.{◌≡◌, ◌≤◌, ◌+◌, length, true};
ghost use Rattle.topic_model.specs.Profile.{whole};
ghost use Rattle.seq_tracks.specs.InOrder.{InOrder};
ghost use Rattle.session_state.specs.declared.change.Effect.{Effect};
ghost use Rattle.session_state.specs.KeptSession.{KeptSession};
ghost use Rattle.session_state.specs.KeptActing.{kept_changed, tidied};
ghost use Rattle.session_state.specs.KeptFits.{session_fits};
ghost use Rattle.session_state.specs.SoundTest.{is_sound};

use crate::session::MOST_SUBSCRIPTIONS;

/// A law: what holds of a session holds of it after each change that fits.
pub fn changes_keep_sound()
    ensures { (m : KeptSession) (effect : Effect) → InOrder m.tracks → is_sound m ≡ true →
        session_fits whole m effect ≡ true → is_sound (kept_changed effect m) ≡ true }
{}

/// A law: nothing more goes from a session of which what isn't needed went, nor from one that may be held.
pub fn tidied_is_tidy()
    ensures again { (m : KeptSession) → tidied (tidied m) ≡ tidied m }
    ensures sound { (m : KeptSession) → is_sound m ≡ true → tidied m ≡ m }
{}

/// A law: a session has no more batches than its window has deliveries, and no more versions than live subscriptions and
/// batches.
pub fn few_are_kept()
    ensures batches { (m : KeptSession) → is_sound m ≡ true → length m.batches ≤ m.window }
    ensures versions { (m : KeptSession) → is_sound m ≡ true →
        length m.versions ≤ MOST_SUBSCRIPTIONS + m.window }
{}
