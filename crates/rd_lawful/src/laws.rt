//! Laws of the rules, as contracts of functions that do nothing.

ghost use Rattle.std.specs.Prelude.{◌≡◌, ◌↔◌, ◌<◌, List, [], ◌∷◌, ◌++◌, false, None, Some};
ghost use Rattle.rd_base.specs.declared.journal.Cause.TheVariants as Cause;
ghost use Rattle.rd_base.specs.declared.journal.Item.{Item};
ghost use Rattle.rd_base.specs.declared.journal.Item.TheVariants as entry;
ghost use Rattle.rd_base.specs.Lawful.{EachEntry, FewUnsent, IsLawful};
ghost use Rattle.rd_lawful.specs.declared.rule.Rule.{Rule};
ghost use Rattle.rd_lawful.specs.declared.rule.Rule.TheVariants as rule;
ghost use Rattle.rd_lawful.specs.Rules.{IsLawfulSoFar, KeepsRule, rule_broken, rule_number};
ghost use Rattle.rd_lawful.specs.Worked.{key_at, many_come, next_came, one_dropped, one_removed, one_waits};

/// A journal is judged entry by entry: it is lawful so far exactly where no entry breaks a rule, and lawful where, besides, it may end.
pub fn journals_are_judged_by_entries()
    ensures first { IsLawfulSoFar [] }
    ensures next { (items : List Item) (entry : Item) → (IsLawfulSoFar items × (rule_broken items entry ≡ None)) ↔ IsLawfulSoFar (items ++ entry ∷ []) }
    ensures whole { (items : List Item) → IsLawful items ↔ (IsLawfulSoFar items × FewUnsent items) }
{}

/// The rule that is named is broken, in whatever journal begins with these entries, so that this isn't lawful; and each lower one is kept.
pub fn lowest_rules_are_broken()
    ensures broken { (items : List Item) (entry : Item) (rule : Rule) → rule_broken items entry ≡ Some rule → ¬ (KeepsRule rule items entry) }
    ensures whole { (items : List Item) (entry : Item) (rest : List Item) (rule : Rule) → rule_broken items entry ≡ Some rule → ¬ (EachEntry (KeepsRule rule) (items ++ entry ∷ rest)) }
    ensures unlawful { (items : List Item) (entry : Item) (rest : List Item) (rule : Rule) → rule_broken items entry ≡ Some rule → ¬ (IsLawful (items ++ entry ∷ rest)) }
    ensures lower { (items : List Item) (entry : Item) (rule : Rule) (lower : Rule) → rule_broken items entry ≡ Some rule → rule_number lower < rule_number rule → KeepsRule lower items entry }
    ensures lower_whole { (items : List Item) (entry : Item) (rule : Rule) (lower : Rule) → IsLawfulSoFar items → rule_broken items entry ≡ Some rule → rule_number lower < rule_number rule
        → EachEntry (KeepsRule lower) (items ++ entry ∷ []) }
{}

/// The rules at work.
pub fn rules_are_as_listed()
    // A key comes twice, or after a greater one; another channel comes before its end.
    ensures came_twice { rule_broken one_waits (entry.Came (key_at 1 1)) ≡ Some rule.KeysRise }
    ensures came_late { rule_broken next_came (entry.Came (key_at 1 7)) ≡ Some rule.KeysRise }
    ensures next_channel { rule_broken one_waits (entry.Came (key_at 2 0)) ≡ None }
    // A request runs twice, or without coming.
    ensures ran_twice { rule_broken one_waits (entry.Ran (key_at 1 0) 5 false false) ≡ Some rule.RunsOnce }
    ensures ran_unheard { rule_broken one_waits (entry.Ran (key_at 1 2) 5 false false) ≡ Some rule.RunsOnce }
    ensures ran { rule_broken one_waits (entry.Ran (key_at 1 1) 5 false false) ≡ None }
    // What was left waiting is sent after another ran or a cut, and once.
    ensures sent_waiting { rule_broken one_waits (entry.Sent (key_at 1 0)) ≡ Some rule.SentOnce }
    ensures sent { rule_broken (one_waits ++ entry.Ran (key_at 1 1) 5 false false ∷ []) (entry.Sent (key_at 1 0)) ≡ None }
    ensures sent_removed { rule_broken one_removed (entry.Sent (key_at 1 0)) ≡ None }
    ensures sent_twice { rule_broken (one_removed ++ entry.Sent (key_at 1 0) ∷ []) (entry.Sent (key_at 1 0)) ≡ Some rule.SentOnce }
    ensures sent_unrun { rule_broken one_waits (entry.Sent (key_at 1 1)) ≡ Some rule.SentOnce }
    // What a removal overtook is cancelled, and doesn't run; a drop does neither.
    ensures cancelled { rule_broken one_removed (entry.Cancelled (key_at 1 1)) ≡ None }
    ensures ran_removed { rule_broken one_removed (entry.Ran (key_at 1 1) 5 false false) ≡ Some rule.NoRunAfterCut }
    ensures cancelled_unremoved { rule_broken one_dropped (entry.Cancelled (key_at 1 1)) ≡ Some rule.CancelledAfterRemoval }
    // What came before a drop, or on an earlier channel, is named no more.
    ensures sent_dropped { rule_broken one_dropped (entry.Sent (key_at 1 0)) ≡ Some rule.DropForgets }
    ensures sent_earlier { rule_broken next_came (entry.Sent (key_at 1 0)) ≡ Some rule.DropForgets }
    // At a cut at most 128 wait.
    ensures cut { rule_broken (many_come 128) (entry.Cut Cause.Dropped) ≡ None }
    ensures cut_full { rule_broken (many_come 129) (entry.Cut Cause.Removed) ≡ Some rule.FewUnsent }
    // The lowest rule is named: this one breaks the first and the sixth, that the second and the fourth.
    ensures lowest { rule_broken one_dropped (entry.Came (key_at 1 0)) ≡ Some rule.KeysRise }
    ensures lower { rule_broken one_removed (entry.Ran (key_at 1 0) 5 false false) ≡ Some rule.RunsOnce }
{}
