//! What each step tells the pass that makes it. These types are for the proofs alone.

ghost use Rattle.std.specs.Prelude.{Option, None};
ghost use Rattle.rd_turn.specs.Plays.{Draws, Looks, PassesOn, Learns, kept_view, new_view, both_views, spent_view};

use crate::object::Object;
use crate::rule::View;
use atomic_table::{Join, Play, Split};
use std::marker::{Brand, PhantomData};

/// What a step puts into a view. Each step that is made with `Brand` picks it.
pub(crate) trait Said<X> {
    ghost item: { Option X };
}

impl<X> Said<X> for Brand {
    ghost item = { None };
}

/// Adds 1 to the next ticket, for the call that is said.
pub(crate) struct Draw<W> {
    marker: PhantomData<W>,
}

impl<O: Object, W: Said<O::Call>> Play<Option<O>, View<O, O::Call, O::Reply>> for Draw<W> {
    ghost then = { Draws W.item };
}

/// Loads the ticket that is served.
pub(crate) struct Look;

impl<O: Object> Play<Option<O>, View<O, O::Call, O::Reply>> for Look {
    ghost then = { Looks O.steps };
}

/// Adds 1 to the ticket that is served, after the reply that is said.
pub(crate) struct PassOn<W> {
    marker: PhantomData<W>,
}

impl<O: Object, W: Said<O::Reply>> Play<Option<O>, View<O, O::Call, O::Reply>> for PassOn<W> {
    ghost then = { PassesOn W.item };
}

/// Loads the next ticket, beside a split or a join.
pub(crate) struct Learn;

impl<O: Object> Play<Option<O>, View<O, O::Call, O::Reply>> for Learn {
    ghost then = { Learns };
}

/// A pass that is split from pass 0, and joined to it.
pub(crate) struct Another;

impl<O, C, R> Split<View<O, C, R>> for Another {
    ghost left = { kept_view };

    ghost right = { new_view };
}

impl<O, C, R> Join<View<O, C, R>> for Another {
    ghost both = { both_views };

    ghost spent = { spent_view };
}
