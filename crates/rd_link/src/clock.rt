//! The moments at which devices run requests.

ghost use Rattle.std.specs.Prelude.{◌≡◌, ℕ, Option, Some, IfSome};

/// What says when it is.
pub trait Clock {
    /// The moment that each look gives, where there is only one and it can be told.
    ghost moment: { Self → Option ℕ };

    /// The moment, in 100 ns since 1601-01-01 UTC.
    fn now(&self) -> u64
        ensures { IfSome (moment self.now) (λ told. result ≡ told) };
}

/// A clock that stands still at one moment, in 100 ns since 1601-01-01 UTC.
#[derive(Clone, Copy, Debug, PartialEq, Eq)]
pub struct FixedClock(pub u64);

impl Clock for FixedClock {
    ghost moment = { λ c. Some c.0 };

    fn now(&self) -> u64 {
        self.0
    }
}
