ghost use Rattle.std.specs.Prelude.{◌≡◌};
ghost use Rattle.topic_model.specs.declared.refused.FilterRefused.TheVariants as Filter;
ghost use Rattle.topic_model.specs.declared.refused.TopicRefused.TheVariants as Topic;

use std::alloc::AllocError;
use thiserror::Error;

/// Why a text is no topic name, the first that holds.
#[derive(Clone, Copy, Debug, PartialEq, Eq, Drop, Error)]
pub enum TopicRefused {
    /// No byte (MQTT 4.7.3).
    #[error("an empty topic name")]
    Empty,
    /// U+0000 (MQTT 4.7.3).
    #[error("a topic name with U+0000")]
    Zero,
    /// `+` or `#` (MQTT 4.7.1).
    #[error("a topic name with a wildcard")]
    Wild,
    /// More than 128 levels.
    #[error("a topic name with too many levels")]
    TooManyLevels,
    /// There is no memory for it.
    #[error("out of memory")]
    Memory,
}

impl From<AllocError> for TopicRefused {
    ghost from_gives = { λ _ e. e ≡ Topic.Memory };

    fn from(_: AllocError) -> TopicRefused {
        TopicRefused::Memory
    }
}

/// Why a text is no topic filter, the first that holds.
#[derive(Clone, Copy, Debug, PartialEq, Eq, Drop, Error)]
pub enum FilterRefused {
    /// No byte (MQTT 4.7.3).
    #[error("an empty filter")]
    Empty,
    /// U+0000 (MQTT 4.7.3).
    #[error("a filter with U+0000")]
    Zero,
    /// More than 1,024 bytes.
    #[error("a filter that is too long")]
    TooLong,
    /// More than 128 levels.
    #[error("a filter with too many levels")]
    TooManyLevels,
    /// A level with `+` and more (MQTT 4.7.1.3).
    #[error("a level with + and more")]
    BadPlus,
    /// `#` with more in its level, or not in the last one (MQTT 4.7.1.2).
    #[error("# with more in its level, or not in the last")]
    BadHash,
    /// There is no memory for it.
    #[error("out of memory")]
    Memory,
}

impl From<AllocError> for FilterRefused {
    ghost from_gives = { λ _ e. e ≡ Filter.Memory };

    fn from(_: AllocError) -> FilterRefused {
        FilterRefused::Memory
    }
}
