// Which shard and which worker a client identifier belongs to.
ghost use Rattle.std.specs.Prelude.{◌≡◌, ◌<◌, ◌≤◌, take, drop};
ghost use Rattle.std.specs.Int.{w64, from_be_bytes};
ghost use Rattle.sha2.specs.Sha256.{sha256};
ghost use Rattle.topic_model.specs.Routing.{shard_of, worker_of};

use crate::Name;
use byteorder::{BigEndian, ByteOrder};
use sha2::{Digest, Sha256};

/// The shard that takes what a client publishes: bytes 0 to 7 of the SHA-256 of its identifier, the highest first,
/// modulo the number of shards. It takes no memory.
pub fn shard_of(id: &Name, shards: u8) -> u8
    requires { 1 ≤ shards }
    ensures shard { result ≡ shard_of id.now shards }
    ensures below { result < shards }
{
    if shards == 1 {
        return 0;
    }
    (hash_number(id, 0) % u64::from(shards)) as u8
}

/// The worker that serves a client: bytes 8 to 15 of the same hash, modulo the number of workers. It takes no memory.
pub fn worker_of(id: &Name, workers: u8) -> u8
    requires { 1 ≤ workers }
    ensures worker { result ≡ worker_of id.now workers }
    ensures below { result < workers }
{
    if workers == 1 {
        return 0;
    }
    (hash_number(id, 8) % u64::from(workers)) as u8
}

// The eight bytes from a place of the identifier's SHA-256, as a number.
fn hash_number(id: &Name, at: usize) -> u64
    requires { at ≤ 24 }
    ensures { result ≡ from_be_bytes w64 (take 8 (drop at (sha256 id.now))) }
{
    let hash = Sha256::digest(id.bytes());
    BigEndian::read_u64(&hash[at..at + 8])
}
