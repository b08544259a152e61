// How long the logs may be.

/// The limits of the logs in bytes: of each of the manifest's two, and of each slot's.
#[derive(Clone, Copy, Debug, PartialEq, Eq)]
pub struct Limits {
    pub manifest: u64,
    pub slot: u64,
}
