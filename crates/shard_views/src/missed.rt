use thiserror::Error;

/// A shard could not be viewed now; its standing is left, and what was seen of it before stays. The reader's count of
/// misses rose.
#[derive(Clone, Copy, Debug, PartialEq, Eq, Drop, Error)]
#[error("a shard was not viewed")]
pub struct Missed;
