// The value, and the two ways to make one. `pick` alone is proved by hand: no code gives the ghost field its value, so its proof says
// that the struct without bytes is one with the value that the caller chose.
ghost use Rattle.std.specs.Prelude.{◌≡◌};
ghost use Rattle.std.specs.Borrow.{ftrue};

use std::marker::{Model, PhantomData};

/// A `T` as clauses see it. It has no bytes and owns nothing.
#[derive(Drop)]
pub struct Told<T> {
    of: PhantomData<T>,
    pub ghost value: { T },
}

impl<T> Model for Told<T> {
    ghost also_owns = { λ _. ftrue };
}

// It owns nothing, so any thread may have it.
unsafe impl<T> Send for Told<T> {}

impl<T> Told<T> {
    /// A value that the caller chooses, from what it passes.
    pub fn pick<A>(with: &A) -> Told<T>
        ghost picked: { T }
        ensures { result.value ≡ picked }
    {
        Told { of: PhantomData }
    }

    /// A value that the caller chooses, from an old one and what it passes beside it.
    pub fn next<A>(&self, with: &A) -> Told<T>
        ghost picked: { T }
        ensures { result.value ≡ picked }
    {
        Told::pick(with)
    }
}
