// How a log stands.
ghost use Rattle.std.specs.Prelude.{◌≡◌, length};
ghost use Rattle.gated_log.specs.LogView.{length_of_doubt};

use crate::Draft;
use std::snapshot::Snapshot;

/// How a log stands.
#[derive(Drop)]
pub(crate) enum Standing {
    AtRest,
    /// Whether this draft is the last record is open.
    InDoubt { length: u32, draft: Snapshot<Draft> },
    /// A restart failed.
    Lost,
}

// The length of the draft in doubt, 0 where none is.
pub(crate) fn length_in_doubt(standing: &Standing) -> u32
    ensures { result ≡ length_of_doubt standing.now }
{
    match standing {
        Standing::InDoubt { length, .. } => *length,
        _ => 0,
    }
}
