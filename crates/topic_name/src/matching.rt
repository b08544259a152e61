// Whether a filter matches a topic name, level by level (MQTT 4.7).
ghost use Rattle.std.specs.Prelude.{◌≡◌, ◌||◌};
ghost use Rattle.std.specs.Str.{bytes_eq};
ghost use Rattle.topic_model.specs.Matching.{matches, levels_match, begins_wild, begins_dollar, is_plus, is_hash};
ghost use Rattle.topic_name.specs.LevelsLeft.{levels_left};

use crate::{Filter, Levels, Topic};

/// Whether the filter matches the topic name: `+` any one level, a last `#` any rest, the empty one included, and
/// another level its equal (MQTT 4.7.1). A filter that begins with a wildcard matches no topic name that begins with
/// `$` (MQTT 4.7.2). It takes no memory.
pub fn matches(filter: &Filter, topic: &Topic) -> bool
    ensures { result ≡ matches filter.now topic.now }
{
    if begins_wild(filter.levels()) && begins_dollar(topic.levels()) {
        return false;
    }
    levels_match(filter.levels(), topic.levels())
}

fn begins_wild(mut filter: Levels) -> bool
    ensures { result ≡ begins_wild (levels_left filter.entry) }
{
    match filter.next() {
        Some(level) => level == "#" || level == "+",
        None => false,
    }
}

fn begins_dollar(mut topic: Levels) -> bool
    ensures { result ≡ begins_dollar (levels_left topic.entry) }
{
    match topic.next() {
        Some(level) => level.starts_with('$'),
        None => false,
    }
}

// Level by level from the front.
fn levels_match(mut filter: Levels, mut topic: Levels) -> bool
    ensures { result ≡ levels_match (levels_left filter.entry) (levels_left topic.entry) }
{
    while let Some(wanted) = filter.next() {
        if wanted == "#" && filter.is_done() {
            return true;
        }
        match topic.next() {
            Some(level) if level_matches(wanted, level) => {}
            _ => return false,
        }
    }
    topic.is_done()
}

// Whether a level of a filter, other than a last `#`, matches a level of a topic name.
fn level_matches(wanted: &str, level: &str) -> bool
    ensures { result ≡ (is_plus wanted.now || bytes_eq wanted.now level.now) }
{
    wanted == "+" || wanted == level
}
