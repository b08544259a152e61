// The one answer of a call to the outside world that did not do its work.

use thiserror::Error;

/// A source, a sink or a disk did not do what it was asked. Its count of faults rose.
#[derive(Clone, Copy, Debug, PartialEq, Eq, Error)]
#[error("the outside world failed")]
pub struct Failed;
