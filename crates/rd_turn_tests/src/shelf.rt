//! An object whose calls may find no memory.

ghost use Rattle.std.specs.Prelude.{◌≡◌, ◌++◌, ◌∷◌, [], MatchResult};

use rd_turn::Object;
use std::alloc::AllocError;

/// The numbers that were put on it.
#[derive(Drop)]
pub struct Shelf {
    pub items: Vec<u64>,
}

impl Object for Shelf {
    type Call = u64;

    type Reply = Result<(), AllocError>;

    ghost steps = { λ a call reply b. MatchResult reply (λ _. b.items.items ≡ a.items.items ++ call ∷ []) (λ _. b.items.items ≡ a.items.items) };

    fn call(&mut self, call: u64) -> Result<(), AllocError> {
        self.items.push(call)?;
        Ok(())
    }
}
