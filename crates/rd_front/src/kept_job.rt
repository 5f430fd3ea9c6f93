//! The job that a front keeps back.

use rd_drive::Job;
use std::marker::Model;

/// A job that the client keeps back, since its desk is full. Contracts see a `Kept`.
#[derive(Drop)]
pub(crate) struct KeptJob {
    pub(crate) device: u32,
    pub(crate) job: Job,
}

impl Model for KeptJob {
    ghost use Rattle.rd_world.specs.World.{Kept};

    ghost Value = { Kept };

    ghost view = { λ k. record { device = k.device; job = k.job } };
}
