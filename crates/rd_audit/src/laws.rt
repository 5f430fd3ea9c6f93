//! A law of journals, as the contract of a function that does nothing.

ghost use Rattle.std.specs.Prelude.{◌≡◌, ◌↔◌, ℕ, List, [], None};
ghost use Rattle.std.specs.List.{AllByRecursion};
ghost use Rattle.rd_base.specs.declared.journal.Item.{Item};
ghost use Rattle.rd_base.specs.Lawful.{IsLawful};
ghost use Rattle.rd_audit_file.specs.Journals.{journal_lines};
ghost use Rattle.rd_audit.specs.Lawful.{first_unlawful};

/// Nothing unlawful is found in the lines of journals exactly where each of them is lawful.
pub fn journals_are_judged_whole()
    ensures { (journals : List (ℕ × List Item)) → (first_unlawful 0 [] (journal_lines journals) ≡ None) ↔ AllByRecursion (λ j. IsLawful j.1) journals }
{}
