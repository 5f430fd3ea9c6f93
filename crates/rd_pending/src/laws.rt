//! The definitions at work, as contracts of functions that do nothing: the checker computes each case.

ghost use Rattle.std.specs.Prelude.{◌≡◌, ◌∷◌, ◌++◌, [], suc, false, true, length, List, None, Some, Ok, Err};
ghost use Rattle.rd_base.specs.declared.journal.Cause.TheVariants as Cause;
ghost use Rattle.rd_base.specs.declared.bad.Why.TheVariants as Why;
ghost use Rattle.rd_irp.specs.declared.op.Op.TheVariants as Op;
ghost use Rattle.rd_pending.specs.declared.calls.CompleteNo.TheVariants as CompleteNo;
ghost use Rattle.rd_pending.specs.declared.calls.Completed.TheVariants as Completed;
ghost use Rattle.rd_pending.specs.declared.calls.LiveNo.TheVariants as LiveNo;
ghost use Rattle.rd_pending.specs.declared.calls.Outcome.TheVariants as Outcome;
ghost use Rattle.rd_pending.specs.declared.calls.SubmitNo.TheVariants as SubmitNo;
ghost use Rattle.rd_pending.specs.declared.calls.TakeNo.TheVariants as TakeNo;
ghost use Rattle.rd_pending.specs.declared.calls.Target.TheVariants as Target;
ghost use Rattle.rd_pending.specs.History as Call;
ghost use Rattle.rd_pending.specs.History.{AreOutcomes, Call, ContinuesTo, HandsOut, Holds, IsReachedTable, accepted_in, after, done_by, outcome_in};
ghost use Rattle.rd_irp.specs.declared.completion.Reply.{Reply};
ghost use Rattle.rd_irp.specs.Fits.{kind_of};
ghost use Rattle.rd_pending.specs.Known.{IsReplyOf};
ghost use Rattle.rd_pending.specs.Outcomes.{Accepted, Agrees, accepted_outcome};
ghost use Rattle.rd_pending.specs.Table as Table;
ghost use Rattle.rd_pending.specs.Table.{AreSlots, TableCall, TableState, TableStep, begin, complete, drop_channel, drop_sent, fate_at, live, new_table, next_id, remove, stage, submit, take, untaken_at};
ghost use Rattle.rd_pending.specs.Worked.{asked_of, asked_once, first, full_table, handle_of, hears_begin, hears_refusal, hears_removal, open_table, opening, refusal_of, refused, success_of};

/// What a table accepts, and what it makes of what comes back.
pub fn tables_are_as_listed()
    ensures no_channel { (submit new_table 1 (Target.Device 1) opening).1 ≡ Err SubmitNo.NoChannel }
    ensures no_life { (live new_table 1).1 ≡ Err LiveNo.NoChannel }
    ensures open { (begin open_table 2).1 ≡ false }
    ensures already { (live open_table 1).1 ≡ Err LiveNo.Already }
    ensures lives { (live open_table 3).1 ≡ Ok 3 }
    ensures no_device { (submit open_table 1 (Target.Device 3) opening).1 ≡ Err SubmitNo.NoDevice }
    ensures stale { (submit open_table 1 (handle_of 2 1) Op.Close).1 ≡ Err (SubmitNo.StaleHandle 1 2) }
    ensures numbers { (submit open_table 1 (Target.Device 1) opening).1 ≡ Ok 1 }
    // A removed device's request is lost, and its completion id is held until its completion came.
    ensures lost { (take (remove (asked_of 1 1 open_table) 1).0 1).1 ≡ Ok (record { device = 1; life = 1; outcome = Outcome.Lost Cause.Removed }) }
    ensures once { (take (take (remove (asked_of 1 1 open_table) 1).0 1).0 1).1 ≡ Err TakeNo.Unknown }
    ensures held { next_id (remove (asked_of 1 1 open_table) 1).0 ≡ 1 }
    ensures late { (complete (remove (asked_of 1 1 open_table) 1).0 (refusal_of 1 0) []).1 ≡ Ok (Completed.Late 1) }
    ensures free { next_id (complete (remove (asked_of 1 1 open_table) 1).0 (refusal_of 1 0) []).0 ≡ 0 }
    // A completion is that of the request with its device and completion id.
    ensures stray { (complete (asked_of 1 1 open_table) (refusal_of 1 1) []).1 ≡ Err (CompleteNo.Stray 1 1) }
    ensures other { (complete (asked_of 1 1 open_table) (refusal_of 2 0) []).1 ≡ Err (CompleteNo.Stray 2 0) }
    ensures short { (complete (asked_of 1 1 open_table) (success_of 1 0) []).1 ≡ Err (CompleteNo.BodyBad (record { at = 0; why = Why.Short })) }
    ensures gave { (complete (asked_of 1 1 open_table) (refusal_of 1 0) []).1 ≡ Ok (Completed.Gave 1) }
    ensures done { (take (complete (asked_of 1 1 open_table) (refusal_of 1 0) []).0 1).1 ≡ Ok (record { device = 1; life = 1; outcome = Outcome.Done refused }) }
    ensures not_yet { (take (asked_of 1 1 open_table) 1).1 ≡ Err TakeNo.NotYet }
    // The channel's end loses what isn't completed, and frees all.
    ensures dropped { (take (drop_channel (asked_of 1 1 open_table)) 1).1 ≡ Ok (record { device = 1; life = 1; outcome = Outcome.Lost Cause.Dropped }) }
    ensures all_free { next_id (drop_channel (asked_of 1 1 open_table)) ≡ 0 }
    ensures unsent { (drop_sent (asked_of 1 1 open_table)).1 ≡ false }
    // What was handed out isn't kept, and the numbers go on.
    ensures kept { untaken_at (remove (asked_of 1 2 open_table) 1).0 1 ≡ Some (record { device = 1; life = 1; fate = Table.known (Outcome.Lost Cause.Removed) }) }
    ensures not_kept { untaken_at (take (remove (asked_of 1 2 open_table) 1).0 1).0 1 ≡ None }
    ensures next_number { (submit (take (remove (asked_of 1 2 open_table) 1).0 1).0 1 (Target.Device 2) opening).1 ≡ Ok 3 }
    ensures counts { stage open_table ≡ record { channel = true; lives = 2 } }
{}

/// Where a table is asked for what may not be it says so, and nothing changes.
pub fn steps_are_as_listed()
    ensures unfit { TableStep open_table (Table.begins_unfit 1) open_table }
    ensures refused { TableStep open_table (Table.begins 2 false) open_table }
    ensures staged { TableStep open_table (Table.stages (record { channel = true; lives = 2 })) open_table }
    // What a history has of a step.
    ensures ended { done_by open_table Table.drops ≡ Call.drops ∷ [] }
    ensures ended_before { done_by new_table Table.drops ≡ [] }
    ensures starved { done_by open_table (Table.lives 3 (Err LiveNo.Memory)) ≡ [] }
{}

/// No further completion id than 1,024.
pub fn slots_are_few()
    ensures full { (submit full_table 1 (Target.Device 1) opening).1 ≡ Err (SubmitNo.Full 1024) }
    ensures freed { next_id (complete full_table (refusal_of 1 7) []).0 ≡ 7 }
{}

/// What came of a request, by what was heard.
pub fn outcomes_are_as_listed()
    ensures done { accepted_outcome [] first 0 (hears_begin ∷ hears_refusal ∷ hears_removal ∷ []) true ≡ Some (Outcome.Done refused) }
    ensures removed { accepted_outcome [] first 0 (hears_begin ∷ hears_removal ∷ hears_refusal ∷ []) true ≡ Some (Outcome.Lost Cause.Removed) }
    ensures dropped { accepted_outcome [] first 0 (hears_begin ∷ []) true ≡ Some (Outcome.Lost Cause.Dropped) }
    ensures awaited { accepted_outcome [] first 0 (hears_begin ∷ []) false ≡ None }
    // The first completion is that of an earlier request with the same id.
    ensures second { accepted_outcome (first ∷ []) first 0 (hears_begin ∷ hears_refusal ∷ []) true ≡ Some (Outcome.Lost Cause.Dropped) }
    // A removal before the life began ends another life.
    ensures next_life { accepted_outcome [] first 0 (hears_begin ∷ hears_removal ∷ hears_begin ∷ hears_refusal ∷ []) true ≡ Some (Outcome.Lost Cause.Removed) }
    ensures own_life { accepted_outcome [] (record first { life = 2 }) 0 (hears_begin ∷ hears_removal ∷ hears_begin ∷ hears_refusal ∷ []) true ≡ Some (Outcome.Done refused) }
{}

/// What a history has accepted, and what it hands out.
pub fn histories_are_as_listed()
    ensures first { accepted_in asked_once ≡ first ∷ [] }
    ensures lost { outcome_in (Call.drops ∷ asked_once) [] first ≡ Some (Outcome.Lost Cause.Dropped) }
    ensures removed { outcome_in (Call.drops ∷ Call.takes 1 ∷ Call.removes 1 ∷ asked_once) [] first ≡ Some (Outcome.Lost Cause.Removed) }
    ensures same { accepted_in (Call.drops ∷ Call.takes 1 ∷ Call.removes 1 ∷ asked_once) ≡ first ∷ [] }
    ensures none_kept { fate_at (after (Call.drops ∷ Call.takes 1 ∷ Call.removes 1 ∷ asked_once)) 1 ≡ None }
{}

/// What always holds of a table: of a new one, and of each after a step.
pub fn steps_keep_slots()
    ensures new { AreSlots new_table }
    ensures step { (old new : TableState) (call : TableCall) → AreSlots old → TableStep old call new → AreSlots new }
{}

/// Whatever was called, in its order: what always holds of a table does, and each request that was accepted has the outcome that the lives, removals and
/// completions heard on its channel, and the channel's end, give it.
pub fn histories_tell_outcomes()
    ensures slots { (h : List Call) → Holds h → AreSlots (after h) }
    ensures outcomes { (h : List Call) → Holds h → AreOutcomes h }
    ensures count { (h : List Call) → Holds h → (after h).count ≡ length (accepted_in h) }
{}

/// What is handed out for a number is what came of its request, with its device and life, and stays so whatever is called later.
pub fn outcomes_are_handed_out()
    ensures handed { (later before : List Call) (call : Call) → Holds (later ++ call ∷ before) → HandsOut (later ++ call ∷ before) before call }
{}

/// A new table is reached, and a history goes on with each step: so where a table is reached each step reaches another.
pub fn steps_reach_tables()
    ensures new { IsReachedTable new_table }
    ensures goes { (h : List Call) (call : TableCall) (new : TableState) → Holds h → TableStep (after h) call new → ContinuesTo h call new }
    ensures step { (old new : TableState) (call : TableCall) → IsReachedTable old → TableStep old call new → IsReachedTable new }
{}

/// Of a table that is reached what always holds of a table does, and it has the outcome of each request that what was heard gives it, in any
/// history that led to it.
pub fn reached_tables_tell_outcomes()
    ensures slots { (t : TableState) → IsReachedTable t → AreSlots t }
    ensures outcomes { (t : TableState) (reached : IsReachedTable t) (earlier : List Accepted) (a : Accepted) (later : List Accepted) → accepted_in reached.history ≡ earlier ++ a ∷ later
        → Agrees (fate_at t (suc (length earlier))) (outcome_in reached.history earlier a) }
    ensures count { (t : TableState) (reached : IsReachedTable t) → t.count ≡ length (accepted_in reached.history) }
{}

/// A reply that came of a request has the layout of its operation's completion.
pub fn replies_are_of_their_requests()
    ensures { (h : List Call) (earlier : List Accepted) (a : Accepted) (reply : Reply) → outcome_in h earlier a ≡ Some (Outcome.Done reply) → IsReplyOf (kind_of a.op) reply }
{}
