//! Objects, and the entries of their histories.

/// An object that is called by one thread at a time.
///
/// What its calls do is a relation and no function, since a call may find no memory.
pub trait Object {
    /// What it is asked, mostly an enum with a variant for each of its methods.
    type Call;

    /// What it replies.
    type Reply;

    // Of the object before the call, the call, the reply, and the object after it.
    ghost steps: { Self → Self.Call → Self.Reply → Self → Type 0 };

    /// Makes the call. It has no condition: a call that doesn't fit is answered by a reply that says so.
    fn call(&mut self, call: Self::Call) -> Self::Reply
        ensures { steps self.old call result self.new };
}

/// A call in a history, with its reply and the number of the pass that made it. Histories exist in the proofs alone.
pub struct Entry<C, R> {
    pub by: u64,
    pub call: C,
    pub reply: R,
}
