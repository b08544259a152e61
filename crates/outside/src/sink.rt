// Where bytes go.
ghost use Rattle.std.specs.Prelude.{◌≡◌, ℕ, List, Option, OnOk, OnErr};
ghost use Rattle.outside.specs.Cause.{HasCause};
ghost use Rattle.outside.specs.Sink.{Puts, PutsFront};

use crate::Failed;

/// Bytes that go out in order, as to a file or a peer.
pub trait Sink {
    /// How often the sink has failed. The count stands still at the end of its type.
    ghost faults: { Self → ℕ };

    /// The bytes that were put so far, where the sink can tell.
    ghost taken: { Self → Option (List ℕ) };

    /// Puts a piece behind what was put before. `Failed` may leave a front of the piece there.
    fn put(&mut self, piece: &[u8]) -> Result<(), Failed>
        ensures ok { OnOk result (Puts (taken self.old) (taken self.new) piece.now) }
        ensures err { OnErr result (PutsFront (taken self.old) (taken self.new) piece.now) }
        ensures cause { HasCause (faults self.old) (faults self.new) result };
}
