// Which texts are topic names and filters, and why others are not (MQTT 4.7).
ghost use Rattle.std.specs.Prelude.{◌≡◌, count_by};
ghost use Rattle.std.specs.List.{list_any};
ghost use Rattle.topic_model.specs.Levels.{parts};
ghost use Rattle.topic_model.specs.Texts.{topic_refusal, filter_refusal, has, has_wildcard, has_many_levels, is_bad_plus, has_bad_hash};
ghost use Rattle.topic_name.specs.LevelsLeft.{levels_left};

use crate::Levels;
use topic_model::{FilterRefused, TopicRefused};

/// The most levels of a topic name or a filter.
pub const MOST_LEVELS: usize = 128;

/// The most bytes of a filter.
pub const MOST_FILTER: usize = 1_024;

// Why a text is no topic name: the first that holds.
pub(crate) fn topic_refusal(text: &str) -> Option<TopicRefused>
    ensures { result ≡ topic_refusal text.now }
{
    if text.is_empty() {
        Some(TopicRefused::Empty)
    } else if has(text, 0) {
        Some(TopicRefused::Zero)
    } else if has_wildcard(text) {
        Some(TopicRefused::Wild)
    } else if has_many_levels(text) {
        Some(TopicRefused::TooManyLevels)
    } else {
        None
    }
}

// Why a text is no filter: the first that holds.
pub(crate) fn filter_refusal(text: &str) -> Option<FilterRefused>
    ensures { result ≡ filter_refusal text.now }
{
    if text.is_empty() {
        Some(FilterRefused::Empty)
    } else if has(text, 0) {
        Some(FilterRefused::Zero)
    } else if MOST_FILTER < text.len() {
        Some(FilterRefused::TooLong)
    } else if has_many_levels(text) {
        Some(FilterRefused::TooManyLevels)
    } else if has_bad_plus(Levels::of(text)) {
        Some(FilterRefused::BadPlus)
    } else if has_bad_hash(Levels::of(text)) {
        Some(FilterRefused::BadHash)
    } else {
        None
    }
}

fn has(text: &str, byte: u8) -> bool
    ensures { result ≡ has byte text.now }
{
    text.as_bytes().contains(&byte)
}

fn has_wildcard(text: &str) -> bool
    ensures { result ≡ has_wildcard text.now }
{
    text.as_bytes().iter().any(|b| *b == b'+' || *b == b'#')
}

#[tactic(auto, using(crate::proofs::TextsLemmas::many_by_separators))]
fn has_many_levels(text: &str) -> bool
    ensures { result ≡ has_many_levels text.now }
{
    MOST_LEVELS <= separator_count(text)
}

// There is one level more than there are separators.
fn separator_count(text: &str) -> usize
    ensures { result ≡ count_by (parts 0x2F) text.now }
{
    text.as_bytes().iter().filter(|b| **b == b'/').count()
}

// Whether some level has `+` and more (MQTT 4.7.1.3).
fn has_bad_plus(levels: Levels) -> bool
    ensures { result ≡ list_any is_bad_plus (levels_left levels.entry) }
{
    for level in levels {
        if is_bad_plus(level) {
            return true;
        }
    }
    false
}

fn is_bad_plus(level: &str) -> bool
    ensures { result ≡ is_bad_plus level.now }
{
    has(level, b'+') && level != "+"
}

// Whether `#` stands with more in its level, or in a level that is not the last (MQTT 4.7.1.2).
fn has_bad_hash(mut levels: Levels) -> bool
    ensures { result ≡ has_bad_hash (levels_left levels.entry) }
{
    while let Some(level) = levels.next() {
        if has(level, b'#') && !(level == "#" && levels.is_done()) {
            return true;
        }
    }
    false
}
