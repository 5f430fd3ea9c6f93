//! What passes know, and the rule of the table.

use crate::object::{Entry, Object};
use atomic_table::TableRule;
use std::collections::LinkedList;
use std::snapshot::Snapshot;

/// Where a pass stands between a call's beginning and its end. A ticket comes with the call that it was drawn for.
pub enum Stage<C> {
    Idle,
    Waiting(u64, C),
    AtTurn(u64, C),
    /// It was joined to pass 0.
    Spent,
}

/// What a pass knows. No value of it is made.
pub struct View<O, C, R> {
    /// The object as it was when the turn was made.
    pub opening: Option<O>,
    pub number: u64,
    pub made: u64,
    pub out: u64,
    /// The numbers of the passes that were joined, each with the count of its calls.
    pub joined: LinkedList<(u64, u64)>,
    /// The beginning of the history that it has seen.
    pub seen: LinkedList<Entry<C, R>>,
    /// The shorter of the two lists of the last join.
    pub shorter: LinkedList<Entry<C, R>>,
    /// How many calls it made.
    pub calls: u64,
    pub stage: Stage<C>,
}

/// The rule. Word 0 is the next ticket, word 1 the ticket that is served, and slot 0 has the object.
pub struct InTurn;

impl<O: Object> TableRule<Option<O>, View<O, O::Call, O::Reply>, Snapshot<O>> for InTurn {
    ghost use Rattle.rd_turn.specs.Rule.{Rule, first_view};

    ghost holds = { λ key. Rule O.steps key.value };

    ghost first = { λ key. first_view key.value };
}
