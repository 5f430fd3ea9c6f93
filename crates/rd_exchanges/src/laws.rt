//! Which calls of a host's table may change places, as contracts of functions that do nothing.

ghost use Rattle.std.specs.Prelude.{◌≡◌, ◌↔◌, ◌++◌, ◌∷◌, ℕ, List, [], Ok, Err, reverse};
ghost use Rattle.rd_pending.specs.declared.calls.LiveNo.TheVariants as LiveNo;
ghost use Rattle.rd_pending.specs.declared.calls.SubmitNo.TheVariants as SubmitNo;
ghost use Rattle.rd_pending.specs.declared.calls.TakeNo.TheVariants as TakeNo;
ghost use Rattle.rd_pending.specs.declared.calls.Target.TheVariants as Target;
ghost use Rattle.rd_pending.specs.History.{Call, Holds, IsReachedTable, accepted_in, after, takes};
ghost use Rattle.rd_pending.specs.Table.{TableState, live, remove, submit, take};
ghost use Rattle.rd_pending.specs.Worked.{opening};
ghost use Rattle.rd_exchanges.specs.Exchanges.{AreAllAsks, AsksFollow, AsksPart, MayGo, MayGoBetween, accepted_along, accepted_between, all_after, answers_between, answers_of, asks_in, devices_in, goes, handed_along, handed_between, submissions_among, takes_among};
ghost use Rattle.rd_exchanges.specs.Worked.{asked_table, bare_table, lost_in, root_asked, with_lives, with_removals};

/// What applications ask between lives and between removals, in its order and in another.
pub fn exchanges_are_as_listed()
    // Devices 1 and 2 begin lives, and device 1 can't once more, whether what is asked comes between or behind.
    ensures lives { answers_between live bare_table with_lives ≡ Ok 1 ∷ Ok 2 ∷ Err LiveNo.Already ∷ [] }
    ensures lives_first { answers_of live bare_table (1 ∷ 2 ∷ 1 ∷ []) ≡ Ok 1 ∷ Ok 2 ∷ Err LiveNo.Already ∷ [] }
    ensures asked_behind { accepted_along (all_after live bare_table (devices_in with_lives)) (root_asked 1 1 ∷ root_asked 2 2 ∷ []) ≡ accepted_between live bare_table with_lives }
    // No request is accepted before its device's life, and none behind its removal; no outcome is known before it.
    ensures not_before { (submit bare_table 1 (Target.Device 1) opening).1 ≡ Err SubmitNo.NoDevice }
    ensures not_behind { (submit (remove asked_table 1).0 1 (Target.Device 1) opening).1 ≡ Err SubmitNo.NoDevice }
    ensures not_yet { (take asked_table 1).1 ≡ Err TakeNo.NotYet }
    // Two requests are lost by the removals of their devices, the second of which is accepted after the first removal.
    ensures parts { submissions_among (asks_in with_removals) ≡ root_asked 2 2 ∷ [] }
    ensures taken { takes_among (asks_in with_removals) ≡ takes 1 ∷ takes 2 ∷ [] }
    ensures between { handed_between remove asked_table with_removals ≡ (1, lost_in 1 1) ∷ (2, lost_in 2 2) ∷ [] }
    ensures behind { handed_along (all_after remove (goes asked_table (root_asked 2 2 ∷ [])) (1 ∷ 2 ∷ [])) (takes 1 ∷ takes 2 ∷ []) ≡ (1, lost_in 1 1) ∷ (2, lost_in 2 2) ∷ [] }
{}

/// Calls one after the other make the history in which the newest of them comes first: it leads where they do, it holds exactly where each of them does
/// something, and it has accepted what they have, behind what was accepted before.
pub fn calls_make_histories()
    ensures leads { (h cs : List Call) → after (reverse cs ++ h) ≡ goes (after h) cs }
    ensures holds { (h cs : List Call) → Holds (reverse cs ++ h) ↔ (Holds h × MayGo (after h) cs) }
    ensures accepted { (h cs : List Call) → accepted_in (reverse cs ++ h) ≡ accepted_in h ++ accepted_along (after h) cs }
{}

/// A table that is reached stays so: whatever calls do something, and whichever devices begin lives or are gone.
pub fn tables_stay_reached()
    ensures goes { (t : TableState) (cs : List Call) → IsReachedTable t → MayGo t cs → IsReachedTable (goes t cs) }
    ensures lives { (t : TableState) (devices : List ℕ) → IsReachedTable t → IsReachedTable (all_after live t devices) }
    ensures removes { (t : TableState) (devices : List ℕ) → IsReachedTable t → IsReachedTable (all_after remove t devices) }
{}

/// What applications ask between the lives of devices may be asked behind all of them.
pub fn asks_follow_lives()
    ensures { (t : TableState) (more : List (ℕ × List Call)) → AreAllAsks more → MayGoBetween live t more → AsksFollow live t more }
{}

/// Of what applications ask between the removals of devices the submissions may come before all of them, and the takes behind.
pub fn asks_part_at_removals()
    ensures { (t : TableState) (more : List (ℕ × List Call)) → IsReachedTable t → AreAllAsks more → MayGoBetween remove t more → AsksPart remove t more }
{}
