ghost use Rattle.std.specs.Prelude.{◌≡◌};
ghost use Rattle.topic_model.specs.Limits.{lies_between, is_within_limits};
ghost use Rattle.topic_name.specs.PlainConfig.{plain_config};

/// The most shards of a broker.
pub const MOST_SHARDS: u8 = 8;

/// The most workers of a broker.
pub const MOST_WORKERS: u8 = 16;

/// The greatest threshold of learned topics.
pub const MOST_THRESHOLD: u16 = 1_000;

/// The most messages of a generation.
pub const MOST_MESSAGES: u32 = 32_768;

/// The longest that a sealed generation may have to be kept, in milliseconds.
pub const MOST_RETENTION: u64 = 1_000_000_000_000;

/// What is set once for a broker's disks. Contracts see it by `plain_config` as the model's numbers.
#[derive(Clone, Copy, Debug, PartialEq, Eq)]
pub struct Config {
    /// How many shards there are, at least 1.
    pub shards: u8,
    /// How many workers there are, at least 1.
    pub workers: u8,
    /// How many different first levels of topics a generation learns before it takes all others as one, at least 1.
    pub top: u16,
    /// The same of each level below the first, at least 1.
    pub below: u16,
    /// How many messages a generation takes, at least 1.
    pub messages: u32,
    /// How long a sealed generation is kept at least, in milliseconds.
    pub retention: u64,
}

impl Config {
    /// Whether each number is at least what its field says and at most the constant that is named for it.
    pub fn is_within_limits(&self) -> bool
        ensures { result ≡ is_within_limits (plain_config self.now) }
    {
        lies_between(1, MOST_SHARDS.into(), self.shards.into())
            && lies_between(1, MOST_WORKERS.into(), self.workers.into())
            && lies_between(1, MOST_THRESHOLD.into(), self.top.into())
            && lies_between(1, MOST_THRESHOLD.into(), self.below.into())
            && lies_between(1, MOST_MESSAGES.into(), self.messages.into())
            && self.retention <= MOST_RETENTION
    }
}

fn lies_between(least: u64, most: u64, number: u64) -> bool
    ensures { result ≡ lies_between least most number }
{
    least <= number && number <= most
}
