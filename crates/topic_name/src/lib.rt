//! The words of the broker as types: names and blobs, topic names and filters, messages, and what a broker is set to.
//!
//!     let topic = Topic::read(alloc, "sport/tennis/player1")?;
//!     let filter = Filter::read(alloc, "sport/tennis/+")?;
//!     let is_wanted = matches(&filter, &topic); // true
//!     let shard = shard_of(&client, config.shards);
//!
//! Contracts see each type as the model's plain value: a name and a blob as bytes, a topic name and a filter as their
//! levels, a message as what was stored and where its body lies, a configuration as its numbers. Which texts are topic
//! names and filters, what matches, where clients go and what the limits are stands in `topic_model`: read its
//! `specs/Levels.antt`, `Matching.antt` and `Texts.antt` first, and then `specs/KeptMessage.antt` here.
#![tactic(auto)]

mod blob;
mod body;
mod config;
mod descriptor;
mod filter;
mod levels;
mod matching;
mod message;
mod mounting;
mod name;
mod routing;
mod snapshots;
#[cfg(test)]
mod tests;
mod texts;
mod topic;

pub use blob::Blob;
pub use body::Body;
pub use config::{
    Config, MOST_MESSAGES, MOST_RETENTION, MOST_SHARDS, MOST_THRESHOLD, MOST_WORKERS,
};
pub use descriptor::Descriptor;
pub use filter::Filter;
pub use levels::Levels;
pub use matching::matches;
pub use message::Message;
pub use mounting::{MountRefused, What};
pub use name::Name;
pub use routing::{shard_of, worker_of};
pub use texts::{MOST_FILTER, MOST_LEVELS};
pub use topic::Topic;
pub use topic_model::{FilterRefused, TopicRefused};
