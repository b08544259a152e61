// Where bytes come from.
ghost use Rattle.std.specs.Prelude.{◌≡◌, ◌<◌, ◌≤◌, ℕ, List, [], ◌∷◌, ◌++◌, Option, length, IfOk, OnErr};
ghost use Rattle.std.specs.Io.KnownBytes.{IsAtEnd};
ghost use Rattle.outside.specs.Cause.{HasCause};
ghost use Rattle.outside.specs.Source.{TakesFront};

use crate::Failed;

/// Bytes that come in order, as from a file or a peer, until the end.
pub trait Source {
    /// How often the source has failed. The count stands still at the end of its type.
    ghost faults: { Self → ℕ };

    /// The bytes that are still to come, where the source can tell.
    ghost left: { Self → Option (List ℕ) };

    /// How many bytes each take gave, the first one first. One that failed is not among them.
    ghost gave: { Self → List ℕ };

    /// Puts the next bytes at the front of `into`, and answers how many: 0 only at the end, or where `into` has no
    /// room. What stands behind them in `into` is not told. `Failed` says nothing of the bytes.
    fn take(&mut self, into: &mut [u8]) -> Result<usize, Failed>
        ensures room { IfOk result (λ n. n ≤ length into.new) }
        ensures bytes { IfOk result (λ n. TakesFront (left self.old) (left self.new) n into.new) }
        ensures end { IfOk result (λ n. n ≡ 0 → 0 < length into.new → IsAtEnd (left self.old)) }
        ensures gave { IfOk result (λ n. gave self.new ≡ gave self.old ++ n ∷ []) }
        ensures gave_nothing { OnErr result (gave self.new ≡ gave self.old) }
        ensures cause { HasCause (faults self.old) (faults self.new) result };
}
