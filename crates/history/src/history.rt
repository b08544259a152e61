// A history that only proofs read.
ghost use Rattle.std.specs.Prelude.{◌≡◌, List, [], ◌∷◌, ◌++◌};
ghost use Rattle.std.specs.Borrow.{ftrue};

use std::marker::{Model, PhantomData};

/// The values that were recorded, oldest first. Clauses read them as `items`.
#[derive(Drop)]
pub struct History<S> {
    of: PhantomData<S>,
    pub ghost items: { List S },
}

impl<S> Model for History<S> {
    ghost also_owns = { λ _. ftrue };
}

// There is nothing of S in it.
unsafe impl<S: Send> Send for History<S> {}

impl<S> History<S> {
    /// A history in which nothing was recorded.
    pub fn new() -> History<S>
        ensures { result.items ≡ [] }
    {
        History { of: PhantomData }
    }

    /// The history with one more value.
    pub fn and(&self, step: &S) -> History<S>
        ensures { result.items ≡ self.now.items ++ step.now ∷ [] }
    {
        History { of: PhantomData }
    }
}

impl<A, B> History<(A, B)> {
    /// The history with one more pair, whose parts stand apart.
    pub fn and_both(&self, first: &A, second: &B) -> History<(A, B)>
        ensures { result.items ≡ self.now.items ++ (first.now, second.now) ∷ [] }
    {
        History { of: PhantomData }
    }
}
