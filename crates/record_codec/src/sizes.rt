ghost use Rattle.std.specs.Prelude.{◌≡◌, ◌-◌, ◌^◌, min, length, IsTrue};
ghost use Rattle.shard_model.specs.Capacity.{expiry_size, store_size};
ghost use Rattle.record_codec.specs.declared.group.Op.TheVariants.{Store};
ghost use Rattle.record_codec.specs.Spelling.{spelled_op};
ghost use Rattle.record_codec.specs.HasSpelling.{fits_message};
ghost use Rattle.record_codec.specs.Sizes.{counted_size, stores_size};

use crate::group::Op;
use topic_name::Message;

// What a Store takes besides texts, properties, payload and expiry: the tag, an incarnation, an identifier, a QoS, a stamp,
// and the lengths of two texts and two blobs.
const STORE_NUMBERS: u64 = 32;

// An expiry takes four bytes.
fn expiry_length(expiry: Option<u32>) -> u64
    ensures { result ≡ expiry_size expiry }
{
    match expiry {
        None => 0,
        Some(_) => 4,
    }
}

/// How many bytes a Store of the message takes in a group, which a generation's limit counts: the greatest number where they
/// are more than that. It takes no memory, and reads neither payload nor properties.
pub fn store_length(message: &Message) -> u64
    ensures size { result ≡ min (store_size message.now.stored) (2 ^ 64 - 1) }
    // So many are written.
    ensures written { IsTrue (fits_message message.now.stored) →
        result ≡ length (spelled_op (Store message.now)) }
{
    let numbers = STORE_NUMBERS + expiry_length(message.expiry);
    numbers
        .saturating_add(message.publisher.bytes().len() as u64)
        .saturating_add(message.topic.text().len() as u64)
        .saturating_add(message.props.bytes().len() as u64)
        .saturating_add(message.payload_len() as u64)
}

// How many bytes of a generation's limit an operation takes.
fn counted_length(op: &Op) -> u64
    ensures { result ≡ min (counted_size op.now) (2 ^ 64 - 1) }
{
    match op {
        Op::Store(message) => store_length(message),
        Op::Release { .. } => 0,
        Op::Forget { .. } => 0,
    }
}

/// How many bytes of a generation's limit operations take, which is those of their Stores: the greatest number where they are
/// more than that. It takes no memory.
pub fn stores_length(ops: &[Op]) -> u64
    ensures { result ≡ min (stores_size ops.now) (2 ^ 64 - 1) }
{
    let mut total: u64 = 0;
    for op in ops {
        total = total.saturating_add(counted_length(op));
    }
    total
}
