//! A request whose outcome wasn't handed out.

ghost use Rattle.std.specs.Prelude.{◌≡◌, if◌then◌else◌, false};
ghost use Rattle.rd_pending.specs.declared.calls.Outcome.TheVariants as Outcome;
ghost use Rattle.rd_pending.specs.Known.{IsKnown};
ghost use Rattle.rd_pending.specs.Table.{awaited, known, is_awaited};

use crate::calls::{Outcome, Taken};
use rd_base::Cause;
use std::marker::Model;

/// What is kept of a request until its outcome is handed out.
#[derive(Debug, Drop)]
pub struct Kept {
    device: u32,
    life: u64,
    outcome: Option<Outcome>,
}

impl Model for Kept {
    ghost use Rattle.rd_pending.specs.Table.{Untaken};

    ghost Value = { Untaken };

    ghost use Rattle.std.specs.Prelude.{IfSome};
    ghost use Rattle.rd_pending.specs.Known.{IsKnown, fate_of};

    ghost view = { λ k. record { device = k.device; life = k.life; fate = fate_of k.outcome } };

    ghost invariant = { λ k. IfSome k.outcome IsKnown };
}

impl Kept {
    /// A request to a device in this life, without an outcome.
    pub fn new(device: u32, life: u64) -> Self
        ensures { result ≡ record { device = device; life = life; fate = awaited } }
    {
        Kept {
            device,
            life,
            outcome: None,
        }
    }

    /// Whether it has no outcome yet.
    pub fn is_awaited(&self) -> bool
        ensures { result ≡ is_awaited self.now.fate }
    {
        self.outcome.is_none()
    }

    pub fn device(&self) -> u32
        ensures { result ≡ self.now.device }
    {
        self.device
    }

    /// Gives it an outcome.
    pub fn settle(&mut self, outcome: Outcome)
        requires { IsKnown outcome }
        ensures { self.new ≡ record self.old { fate = known outcome } }
    {
        self.outcome = Some(outcome);
    }

    /// It is lost, if it has no outcome yet.
    pub fn lose(&mut self, cause: Cause)
        ensures { self.new ≡ (if is_awaited self.old.fate then record self.old { fate = known (Outcome.Lost cause) } else self.old) }
    {
        if self.outcome.is_none() {
            self.outcome = Some(Outcome::Lost(cause));
        }
    }

    /// Its outcome, as it is handed out.
    pub fn into_taken(self) -> Taken
        requires { is_awaited self.fate ≡ false }
        ensures device { result.device ≡ self.device }
        ensures life { result.life ≡ self.life }
        ensures outcome { self.fate ≡ known result.outcome }
        ensures fits { IsKnown result.outcome }
    {
        let Kept {
            device,
            life,
            outcome,
        } = self;
        let Some(outcome) = outcome else {
            unreachable!()
        };
        Taken {
            device,
            life,
            outcome,
        }
    }
}
