//! What holds of every history, and of what the calls of a turn make of a pass. These functions do nothing: their clauses are laws.

ghost use Rattle.std.specs.Prelude.{◌≡◌, ◌≢◌, ◌≤◌, ◌++◌, ◌∷◌, ℕ, Bool, true, List, [], All, Contains};
ghost use mathlib.Core.List.{IsPrefix};
ghost use Rattle.rd_turn.specs.declared.object.Entry.{Entry};
ghost use Rattle.rd_turn.specs.History.{Leads, IsLegal, entry, calls_of};
ghost use Rattle.rd_turn.specs.Pass.{PassState, GoesOn, Called};

use crate::object::Object;

/// Histories are put together and parted at any value of the object between, and what comes before in a legal one is legal.
pub fn histories_are_parted<O: Object>()
    ensures joined { (a b c : O) (xs ys : List (Entry O.Call O.Reply)) → Leads O.steps a xs b → Leads O.steps b ys c → Leads O.steps a (xs ++ ys) c }
    ensures parted { (a c : O) (xs ys : List (Entry O.Call O.Reply)) → Leads O.steps a (xs ++ ys) c → (b : O) × Leads O.steps a xs b × Leads O.steps b ys c }
    ensures prefix { (a : O) (xs ys : List (Entry O.Call O.Reply)) → IsPrefix xs ys → IsLegal O.steps a ys → IsLegal O.steps a xs }
{}

/// What no call changes, a history doesn't change; and what each call keeps true, it keeps true.
pub fn history_keeps<O: Object, X>()
    ensures value { (f : O → X) →
        ((a : O) (call : O.Call) (reply : O.Reply) (b : O) → O.steps a call reply b → f b ≡ f a) →
        (a : O) (entries : List (Entry O.Call O.Reply)) (b : O) → Leads O.steps a entries b → f b ≡ f a }
    ensures truth { (test : O → Bool) →
        ((a : O) (call : O.Call) (reply : O.Reply) (b : O) → O.steps a call reply b → test a ≡ true → test b ≡ true) →
        (a : O) (entries : List (Entry O.Call O.Reply)) (b : O) → Leads O.steps a entries b → test a ≡ true → test b ≡ true }
{}

/// A pass's calls in two lists, one after the other, are those in the first and then those in the second. What holds of each call after
/// the calls that its own pass had made, as every pass's own list shows it, holds of each call of the whole history.
pub fn calls_are_of_passes<C, R>()
    ensures appended { (number : ℕ) (xs ys : List (Entry C R)) → calls_of number (xs ++ ys) ≡ calls_of number xs ++ calls_of number ys }
    ensures whole { (test : List (Entry C R) → Entry C R → Bool) (most : ℕ) (entries : List (Entry C R)) → All (λ e. e.by ≤ most) entries →
        ((number : ℕ) (own later : List (Entry C R)) (e : Entry C R) → number ≤ most → calls_of number entries ≡ own ++ e ∷ later → test own e ≡ true) →
        (before later : List (Entry C R)) (e : Entry C R) → entries ≡ before ++ e ∷ later → test (calls_of e.by before) e ≡ true }
{}

/// What a pass has seen goes on and never changes. A call adds one to the pass's own calls, and a join none to those of pass 0.
pub fn lists_go_on<O: Object>()
    ensures called { (p q : PassState O O.Call O.Reply) (call : O.Call) (reply : O.Reply) → Called p call reply q → IsPrefix p.seen q.seen }
    ensures one_more { (p q : PassState O O.Call O.Reply) (call : O.Call) (reply : O.Reply) → Called p call reply q →
        calls_of p.number q.seen ≡ calls_of p.number p.seen ++ entry p.number call reply ∷ [] }
    ensures goes_on { (p q : PassState O O.Call O.Reply) → GoesOn p q → IsPrefix p.seen q.seen }
    ensures no_more { (p q : PassState O O.Call O.Reply) → GoesOn p q → calls_of p.number q.seen ≡ calls_of p.number p.seen }
{}

/// Once a pass was joined to pass 0, no call and no further join changes its calls in the list of pass 0.
pub fn joined_calls_stay<O: Object>()
    ensures called { (p q : PassState O O.Call O.Reply) (call : O.Call) (reply : O.Reply) (number count : ℕ) → p.number ≡ 0 → number ≢ 0 →
        Contains p.joined (number, count) → Called p call reply q → calls_of number q.seen ≡ calls_of number p.seen }
    ensures goes_on { (p q : PassState O O.Call O.Reply) (number count : ℕ) → p.number ≡ 0 → Contains p.joined (number, count) →
        GoesOn p q → calls_of number q.seen ≡ calls_of number p.seen }
{}
