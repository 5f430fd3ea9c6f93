//! What a worker passes between taking a job and running it.

use rd_base::Key;

/// A worker that took the job of a request calls this before it runs it. Nothing is promised of it: it may hold the worker up, so that a
/// test can have jobs run in the order that it wants.
pub trait Gate {
    fn pass(&self, key: Key);

    /// Whether it may hold a worker up. Where it doesn't, whoever isn't a worker may pass it too.
    fn holds(&self) -> bool {
        true
    }
}

/// A gate that holds nobody up.
#[derive(Clone, Copy, Debug, Default)]
pub struct NoGate {}

impl Gate for NoGate {
    fn pass(&self, _key: Key) {}

    fn holds(&self) -> bool {
        false
    }
}
