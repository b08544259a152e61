/// The most bytes of each of the two logs of a journal.
pub const MOST_BYTES: u64 = 1_342_177_280;

/// The most bytes of a snapshot in the format that is written.
pub const MOST_SNAPSHOT: u64 = 576_126_992;

/// How many bytes of records there may be besides twice the snapshot before a journal is rewritten.
pub const SPARE_BYTES: u64 = 4_194_304;

/// The most bytes of a record of changes.
pub const MOST_RECORD: u64 = 2_097_152;
