/// The byte that a group begins with.
pub const GROUP: u8 = 0x47;

/// The byte that the opening of a generation begins with.
pub const OPENING: u8 = 0x4F;

/// The byte that a manifest begins with: its format.
pub const MANIFEST_FORMAT: u8 = 1;

/// The format of a generation's records, which its manifest tells.
pub const RECORD_FORMAT: u8 = 1;

/// The most operations of a group.
pub const MOST_OPERATIONS: u16 = 256;

/// The most generations of a manifest.
pub const MOST_GENERATIONS: u8 = 8;
