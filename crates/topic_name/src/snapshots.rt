// Copies of what only proofs read.
ghost use Rattle.std.specs.Prelude.{◌≡◌};

use bytes::Bytes;
use std::snapshot::Snapshot;

// One more snapshot of what a snapshot remembers. It has no bytes.
pub(crate) fn copy_of(was: &Snapshot<Bytes>) -> Snapshot<Bytes>
    ensures { result ≡ was.now }
{
    same_as(Snapshot::of(&Bytes::new()), was)
}

// The first snapshot, as one of what the second remembers.
fn same_as(made: Snapshot<Bytes>, was: &Snapshot<Bytes>) -> Snapshot<Bytes>
    ensures { result ≡ was.now }
{
    made
}
