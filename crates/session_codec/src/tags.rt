// The bytes that tell the kinds of changes.
ghost use Rattle.std.specs.Prelude.{◌≡◌};
ghost use Rattle.session_codec.specs.Spelling.{tag_of};

use session_state::Effect;

pub(crate) const BEGAN: u8 = 1;

pub(crate) const ENDED: u8 = 2;

pub(crate) const BOUND: u8 = 3;

pub(crate) const PARTED: u8 = 4;

pub(crate) const SUBSCRIBED: u8 = 5;

pub(crate) const REPLACED: u8 = 6;

pub(crate) const UNSUBSCRIBED: u8 = 7;

pub(crate) const ISSUED: u8 = 8;

pub(crate) const ACKED: u8 = 9;

pub(crate) const RECEIVED: u8 = 10;

pub(crate) const DONE: u8 = 11;

pub(crate) const PASSED: u8 = 12;

pub(crate) fn tag_of(effect: &Effect) -> u8
    ensures { result ≡ tag_of effect.now }
{
    match effect {
        Effect::Began(_) => BEGAN,
        Effect::Ended => ENDED,
        Effect::Bound(_) => BOUND,
        Effect::Parted(_) => PARTED,
        Effect::Subscribed(_) => SUBSCRIBED,
        Effect::Replaced(_) => REPLACED,
        Effect::Unsubscribed(_) => UNSUBSCRIBED,
        Effect::Issued(_) => ISSUED,
        Effect::Acked(_) => ACKED,
        Effect::Received(_) => RECEIVED,
        Effect::Done(_) => DONE,
        Effect::Passed(_) => PASSED,
    }
}
