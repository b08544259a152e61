ghost use Rattle.std.specs.Prelude.{◌≡◌, ◌-◌, map, filter, take, drop, IfOk};
ghost use Rattle.first_shard_terms.specs.Wanted.{is_wanted};

use first_topic_name::{Filter, Message, matches};
use std::alloc::{AllocError, Global};

/// The first wanted messages of a stretch, at most so many.
pub fn find_wanted<'a>(
    alloc: Global,
    stretch: &'a [Message],
    wish: &Filter,
    start: u64,
    limit: usize,
) -> Result<Vec<&'a Message>, AllocError>
    ensures { IfOk result (λ run. map (λ m. m.now) run.items ≡ take limit (filter (is_wanted wish.now start) stretch.now)) }
{
    let mut run = Vec::new(alloc);
    for message in stretch {
        if run.len() == limit {
            return Ok(run);
        }
        if wants(wish, start, message) {
            run.push(message)?;
        }
    }
    Ok(run)
}

// Whether a subscription that starts at this offset wants the message.
fn wants(wish: &Filter, start: u64, message: &Message) -> bool
    ensures { result ≡ is_wanted wish.now start message.now }
{
    start <= message.offset() && matches(wish, message.topic())
}

/// The messages between two places, as far as there are any.
pub fn stretch_of(messages: &[Message], position: u64, target: u64) -> &[Message]
    ensures { result.now ≡ take (target - position) (drop position messages.now) }
{
    let len = messages.len() as u64;
    let from = position.min(len);
    let to = target.min(len).max(from);
    &messages[from as usize..to as usize]
}
