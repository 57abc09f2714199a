//! A history that contracts alone read. It takes no memory, and its methods do nothing when the program runs.
ghost use Rattle.std.specs.Prelude.{◌≡◌, List, [], ◌∷◌, ◌++◌};
ghost use Rattle.std.specs.Borrow.{ftrue};

use std::marker::{Model, PhantomData};

/// Pairs of what was asked and what was answered, in their order. A clause reads them as `items`.
#[derive(Drop)]
pub struct Log<A, B> {
    of: PhantomData<(A, B)>,
    pub ghost items: { List (A × B) },
}

impl<A, B> Model for Log<A, B> {
    ghost also_owns = { λ _. ftrue };
}

impl<A, B> Log<A, B> {
    /// The empty history.
    pub fn new() -> Log<A, B>
        ensures { result.items ≡ [] }
    {
        Log { of: PhantomData }
    }

    /// The history with one pair more.
    pub fn and(&self, asked: &A, answered: &B) -> Log<A, B>
        ensures { result.items ≡ self.now.items ++ (asked.now, answered.now) ∷ [] }
    {
        Log { of: PhantomData }
    }
}
