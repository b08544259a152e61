/// The first format of the journal, in which sessions have no window in their bytes.
pub const FIRST_FORMAT: u8 = 1;

/// The format that is written.
pub const SECOND_FORMAT: u8 = 2;

/// The window of each session in the first format.
pub const FIRST_WINDOW: u16 = 512;

/// The most changes of a record.
pub const MOST_CHANGES: u16 = 1_024;
