// How many bytes a message takes in a group.
ghost use Rattle.std.specs.Prelude.{◌≡◌, ◌-◌, nat_le, if◌then◌else◌, Some, None};
ghost use Rattle.shard_model.specs.Capacity.{store_size, expiry_size};

use topic_name::Message;

/// The most bytes that the messages of a generation take in groups.
pub const GENERATION_BYTES: usize = 16_777_216;

// A tag, the incarnation, the identifier, the QoS and the stamp, and the lengths of two texts and two blobs.
const FIXED: usize = 32;

// What is left of some room behind a message, `None` where it doesn't fit.
pub(crate) fn left_behind(message: &Message, room: usize) -> Option<usize>
    ensures { result ≡ (if nat_le (store_size message.now.stored) room
        then Some (room - store_size message.now.stored) else None) }
{
    let room = room.checked_sub(FIXED + expiry_size(message.expiry))?;
    let room = room.checked_sub(message.publisher.bytes().len())?;
    let room = room.checked_sub(message.topic.text().len())?;
    let room = room.checked_sub(message.props.bytes().len())?;
    room.checked_sub(message.payload_len())
}

fn expiry_size(expiry: Option<u32>) -> usize
    ensures { result ≡ expiry_size expiry }
{
    match expiry {
        None => 0,
        Some(_) => 4,
    }
}
