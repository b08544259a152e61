// How a doubt ended.

/// Whether a record that was in doubt is in the log.
#[derive(Clone, Copy, Debug, PartialEq, Eq)]
pub enum Settled {
    In,
    Out,
}
