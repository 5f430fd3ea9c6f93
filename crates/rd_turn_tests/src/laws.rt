//! The definitions of `rd_turn` on histories of the adder: a function that does nothing, whose contract has the cases.

ghost use Rattle.std.specs.Prelude.{◌≡◌, ◌∷◌, []};
ghost use Rattle.rd_turn.specs.History.{Leads, IsLegal, calls_of};
ghost use Rattle.rd_turn_tests.specs.Calls.{AddsOnce, adder, added_entry};

/// Pass 0 adds 5 and 1, and pass 1 adds 2.
pub fn histories_are_as_listed()
    ensures legal { Leads AddsOnce (adder 0 0) (added_entry 0 5 5 ∷ added_entry 1 2 7 ∷ added_entry 0 1 8 ∷ []) (adder 8 3) }
    ensures other_order { Leads AddsOnce (adder 0 0) (added_entry 0 5 5 ∷ added_entry 0 1 6 ∷ added_entry 1 2 8 ∷ []) (adder 8 3) }
    ensures own_calls { calls_of 0 (added_entry 0 5 5 ∷ added_entry 1 2 7 ∷ added_entry 0 1 8 ∷ [])
        ≡ added_entry 0 5 5 ∷ added_entry 0 1 8 ∷ [] }
    ensures other_reply { ¬ IsLegal AddsOnce (adder 0 0) (added_entry 0 5 5 ∷ added_entry 1 2 6 ∷ []) }
    ensures lost_change { ¬ IsLegal AddsOnce (adder 0 0) (added_entry 0 5 5 ∷ added_entry 1 2 2 ∷ []) }
    ensures call_made_twice { ¬ Leads AddsOnce (adder 0 0) (added_entry 0 5 5 ∷ []) (adder 10 2) }
{}
