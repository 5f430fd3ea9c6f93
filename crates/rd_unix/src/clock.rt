//! The system's clock.

ghost use Rattle.std.specs.Prelude.{None};

use rd_link::Clock;
use std::time;
use std::time::SystemTime;

/// How many times 100 ns there are in a second.
const PER_SECOND: u64 = 10_000_000;

/// How many nanoseconds there are in 100 ns.
const NANOS: u64 = 100;

/// The moment 1970-01-01 UTC, in 100 ns since 1601-01-01 UTC.
const UNIX_EPOCH: u64 = 116_444_736_000_000_000;

/// The system's clock. Nothing is claimed of what it tells.
#[derive(Drop)]
pub struct SystemClock<'a, R> {
    rt: &'a R,
}

impl<'a, R: time::Clock> SystemClock<'a, R> {
    pub fn new(rt: &'a R) -> Self {
        SystemClock { rt }
    }
}

impl<R: time::Clock> Clock for SystemClock<'_, R> {
    ghost moment = { λ _. None };

    /// The moment 1970-01-01 UTC where the system's clock can't be read, or is set before that.
    fn now(&self) -> u64 {
        let since = SystemTime::now(self.rt).map(|now| now.duration_since(SystemTime::UNIX_EPOCH));
        match since {
            Ok(Ok(since)) => since
                .as_secs()
                .saturating_mul(PER_SECOND)
                .saturating_add(u64::from(since.subsec_nanos()) / NANOS)
                .saturating_add(UNIX_EPOCH),
            _ => UNIX_EPOCH,
        }
    }
}
