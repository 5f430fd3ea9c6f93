//! What was done, as proofs have it and no program keeps it.
//!
//! A `Trace` is a list that contracts read: the deeds of both sides of a session, the bytes that a reader handled. Its value at each point is named by the
//! proof of the caller. Where its contracts tie it to what is kept, to a recording or a joiner, they say what no field could.
//!
//! Cost: it takes no memory, and its methods do nothing when they run.
#![tactic(auto)]

ghost use Rattle.std.specs.Prelude.{◌≡◌, List, []};
ghost use Rattle.std.specs.Borrow.{ftrue};

use std::marker::{Model, PhantomData};

/// A list that only proofs read. Contracts see it as `items`.
#[derive(Drop)]
pub struct Trace<T> {
    of: PhantomData<T>,
    pub ghost items: { List T },
}

impl<T> Model for Trace<T> {
    ghost also_owns = { λ _. ftrue };
}

impl<T> Trace<T> {
    /// Of nothing that was done.
    pub fn new() -> Trace<T>
        ensures { result.items ≡ [] }
    {
        Trace { of: PhantomData }
    }

    /// The list that the caller's proof names, of this one and of what it passes.
    pub fn becoming<A>(&self, from: &A) -> Trace<T>
        ghost items: { List T }
        ensures { result.items ≡ items }
    {
        Trace { of: PhantomData }
    }
}
