//! Tests of the shard layer by its public calls alone, as tables of digits: records as bytes, and shards on disks in memory.
//!
//! `record_rows` has each record, which is read and written again. `mount_rows` has what ten disks hold that have some
//! records, and what is damaged. `stop_rows` has each device call of an append and of a mount of new disks failing in turn,
//! with every image of that moment. `full_rows` has a shard that is full. `text_rows` has texts that are no topic name or filter,
//! and where a client's identifier leads. `view_rows` has what views show of shards that are written.
//!
//! Bytes and texts that are wanted are worked out by hand from docs/FORMATS.md.
#![tactic(auto)]

#[cfg(test)]
mod digits;
#[cfg(test)]
mod disks;
#[cfg(test)]
mod full_rows;
#[cfg(test)]
mod mount_rows;
#[cfg(test)]
mod record_rows;
#[cfg(test)]
mod shown;
#[cfg(test)]
mod stop_rows;
#[cfg(test)]
mod text_rows;
#[cfg(test)]
mod view_rows;
