ghost use Rattle.std.specs.Prelude.{◌≡◌, IfOk, [], ◌&&◌, ◌||◌};
ghost use Rattle.std.specs.Option.{option_copied};
ghost use Rattle.std.specs.Str.{bytes_eq};
ghost use Rattle.first_topic_name.specs.Pieces.{levels_of, text_of_levels, pieces_after};
ghost use Rattle.first_topic_name.specs.Matching.{filter_matches, levels_match, is_hash, is_plus, is_last, begins_wild, begins_dollar};

use crate::pieces::first_piece;
use crate::topic::Topic;
use std::alloc::AllocError;
use std::marker::Model;
use topic_name::Name;

/// A topic filter, seen as its levels (MQTT 4.7).
#[derive(Debug, Drop)]
pub struct Filter {
    name: Name,
}

impl Model for Filter {
    ghost use Rattle.std.specs.Prelude.{List, ℕ};

    ghost Value = { List (List ℕ) };

    ghost use Rattle.first_topic_name.specs.Pieces.{levels_of};

    ghost view = { λ f. levels_of f.name };
}

impl Filter {
    /// The filter of this text.
    pub fn of(name: Name) -> Filter
        ensures { result ≡ levels_of name }
    {
        Filter { name }
    }

    /// Its text.
    pub fn name(&self) -> &Name
        ensures levels { levels_of result.now ≡ self.now }
        ensures text { result.now ≡ text_of_levels self.now }
    {
        &self.name
    }

    pub fn copy(&self) -> Result<Filter, AllocError>
        ensures { IfOk result (λ f. f ≡ self.now) }
    {
        let name = self.name.copy()?;
        Ok(Filter { name })
    }
}

/// Whether the filter matches the topic (MQTT 4.7.1 and 4.7.2).
pub fn matches(filter: &Filter, topic: &Topic) -> bool
    ensures { result ≡ filter_matches filter.now topic.now }
{
    let filter = filter.name().bytes();
    let topic = topic.name().bytes();
    if is_wild(filter) && is_dollar(topic) {
        return false;
    }
    match_levels(filter, topic)
}

// Whether the first level of this filter is a wildcard.
fn is_wild(filter: &[u8]) -> bool
    ensures { result ≡ begins_wild (levels_of filter.now) }
{
    let (level, _) = first_piece(filter, b'/');
    is_wildcard(level)
}

fn is_wildcard(level: &[u8]) -> bool
    ensures { result ≡ (is_hash level.now || is_plus level.now) }
{
    level == b"#".as_slice() || level == b"+".as_slice()
}

// Whether the first byte of this topic is `$`.
fn is_dollar(topic: &[u8]) -> bool
    ensures { result ≡ begins_dollar (levels_of topic.now) }
{
    let (level, _) = first_piece(topic, b'/');
    match level {
        [first, ..] => *first == b'$',
        [] => false,
    }
}

// Level by level from the front.
#[tactic(auto, using(crate::proofs::MatchingLemmas::filter_ended))]
fn match_levels(filter: &[u8], topic: &[u8]) -> bool
    ensures { result ≡ levels_match (levels_of filter.now) (levels_of topic.now) }
{
    let (wanted, filter_rest) = first_piece(filter, b'/');
    let (level, topic_rest) = first_piece(topic, b'/');
    if is_last_hash(wanted, filter_rest) {
        return true;
    }
    if !matches_level(wanted, level) {
        return false;
    }
    match (filter_rest, topic_rest) {
        (None, None) => true,
        (None, Some(_)) => false,
        (Some(filter), None) => matches_no_level(filter),
        (Some(filter), Some(topic)) => match_levels(filter, topic),
    }
}

// Whether a level of a filter is `#` and no further level follows.
#[tactic(auto, using(crate::proofs::PiecesLemmas::more_pieces))]
fn is_last_hash(wanted: &[u8], rest: Option<&[u8]>) -> bool
    ensures { result ≡ (is_hash wanted.now && is_last (pieces_after 47 (option_copied rest.entry))) }
{
    wanted == b"#".as_slice() && rest.is_none()
}

// Whether a level of a filter, other than `#`, matches a level of a topic.
fn matches_level(wanted: &[u8], level: &[u8]) -> bool
    ensures { result ≡ (is_plus wanted.now || bytes_eq wanted.now level.now) }
{
    wanted == b"+".as_slice() || wanted == level
}

// Whether what is left of a filter matches where the topic has ended.
fn matches_no_level(filter: &[u8]) -> bool
    ensures { result ≡ levels_match (levels_of filter.now) [] }
{
    let (wanted, rest) = first_piece(filter, b'/');
    is_last_hash(wanted, rest)
}
