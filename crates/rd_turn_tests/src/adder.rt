//! An object that adds and replies its sum.

use rd_turn::Object;

/// What was added so far, and in how many calls.
#[derive(Drop)]
pub struct Adder {
    pub sum: u64,
    pub calls: u64,
}

impl Object for Adder {
    ghost use Rattle.rd_turn_tests.specs.Calls.{AddsOnce};

    type Call = u64;

    type Reply = u64;

    ghost steps = { AddsOnce };

    fn call(&mut self, call: u64) -> u64 {
        self.sum = self.sum.wrapping_add(call);
        self.calls = self.calls.wrapping_add(1);
        self.sum
    }
}
