//! What an end did, as proofs have it.

use std::marker::Model;

/// A deed of one of both sides. Only proofs have values of it: no program makes one.
#[derive(Drop)]
pub struct Done(());

impl Model for Done {
    ghost use Rattle.rd_deeds.specs.Talk.{Deed, host_ends};

    ghost Value = { Deed };

    ghost view = { λ _. host_ends 0 };
}
