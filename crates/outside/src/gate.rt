// Places of the broker's work at which a test may hold a thread.
ghost use Rattle.std.specs.Prelude.{◌≡◌, List, [], ◌∷◌, ◌++◌};
ghost use Rattle.outside.specs.declared.gate.Place.{Place};

/// A place of the broker's work.
#[derive(Clone, Copy, Debug, PartialEq, Eq)]
pub enum Place {
    /// Before a group is stored.
    Append,
    /// Before a disk is synced.
    Sync,
    /// Before the shown lists are looked at.
    View,
}

/// What is passed at each such place. It may wait there, and changes nothing else.
pub trait Gate {
    /// The places that were passed, the first one first.
    ghost passed: { Self → List Place };

    fn pass(&mut self, place: Place)
        ensures { passed self.new ≡ passed self.old ++ place ∷ [] };
}
