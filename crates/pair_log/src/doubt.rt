// What is in doubt.

/// What failed, so that it is open whether it was done.
#[derive(Clone, Copy, Debug, PartialEq, Eq)]
pub enum Doubt {
    Nothing,
    /// A commit.
    Commit,
    /// The commit of a rewrite.
    Rewrite,
    /// The restart of a rewrite: its record isn't there.
    Restart,
}
