//! The turn, a ticket lock round an object: threads call the object one after the other, and each call's reply is what the object
//! replies at that point of one legal history.
//!
//! It stands on `atomic_table` alone. The layer above gives its object's meaning as a relation (`Object`) and uses the contract of
//! `Turn`'s calls, which say in `specs/Pass`' words what a pass has seen of the history before and after.
//!
//! Cost: a call is two atomic additions (they draw a ticket and pass the turn on), a load for each look at the ticket that is served,
//! two exchanges of the object with its slot (it is moved out and back), and one more load, which tells whether anybody is to be
//! woken. A call that has looked in vain a hundred times sleeps between its looks. A split costs two loads and a join three. Only
//! `Turn::new` takes memory; views and lists exist in the proofs alone.
#![tactic(auto)]

mod caller;
mod laws;
mod object;
mod pass;
mod plays;
mod rule;
mod steps;
mod turn;

pub use caller::Caller;
pub use laws::{
    calls_are_of_passes, histories_are_parted, history_keeps, joined_calls_stay, lists_go_on,
};
pub use object::{Entry, Object};
pub use pass::{MAX_MADE, Pass};
pub use turn::{Refused, Turn};
