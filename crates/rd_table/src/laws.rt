//! What holds of every history of a table, whichever passes made its calls. These functions do nothing: their clauses are laws.

ghost use Rattle.std.specs.Prelude.{◌≡◌, ◌≢◌, ◌++◌, ◌∷◌, ℕ, suc, List, [], length, false, true, Contains, AllPairs, None, Some, Ok};
ghost use mathlib.Core.List.{IsPrefix};
ghost use Rattle.rd_irp.specs.declared.op.Op.{Op};
ghost use Rattle.rd_pending.specs.declared.calls.Stage.{Stage};
ghost use Rattle.rd_pending.specs.declared.calls.Taken.{Taken};
ghost use Rattle.rd_pending.specs.declared.calls.Target.{Target};
ghost use Rattle.rd_pending.specs.History as Call;
ghost use Rattle.rd_pending.specs.History.{Call, Holds, IsReachedTable, accepted_in, after, outcome_in};
ghost use Rattle.rd_pending.specs.Outcomes.{Accepted};
ghost use Rattle.rd_pending.specs.Table.{TableState, new_table, untaken_at};
ghost use Rattle.rd_pending.specs.Worked.{asked_once, open_table};
ghost use Rattle.rd_turn.specs.declared.object.Entry.{Entry};
ghost use Rattle.rd_turn.specs.History.{Leads, calls_of, entry};
ghost use Rattle.rd_table.specs.declared.calls.PendingCall.{PendingCall};
ghost use Rattle.rd_table.specs.declared.calls.PendingCall.TheVariants as Ask;
ghost use Rattle.rd_table.specs.declared.calls.PendingReply.{PendingReply};
ghost use Rattle.rd_table.specs.declared.calls.PendingReply.TheVariants as Reply;
ghost use Rattle.rd_table.specs.Calls.{PendingStep};
ghost use Rattle.rd_table.specs.Histories.{Accepts, HasOutcome, handed_in, table_history, lives_begun, on_channel, taken_of};
ghost use Rattle.rd_table.specs.Worked.{in_use, lost, lost_twice};

/// Replies that a table gives, and some that it doesn't; and what entries tell.
pub fn replies_are_as_listed()
    // A channel that may not begin is said to be unfit, and no other.
    ensures unfit { PendingStep open_table (Ask.Begin 1) Reply.Unfit open_table }
    ensures not_unfit { ¬ (PendingStep open_table (Ask.Begin 2) Reply.Unfit open_table) }
    ensures open { PendingStep open_table (Ask.Begin 2) (Reply.Begun false) open_table }
    ensures not_begun { ¬ (PendingStep open_table (Ask.Begin 1) (Reply.Begun false) open_table) }
    ensures other_reply { ¬ (PendingStep open_table Ask.Outbox (Reply.Removed false) open_table) }
    ensures stands { PendingStep open_table Ask.Stage (Reply.Stands (record { channel = true; lives = 2 })) open_table }
    // Of two passes' calls the history has those that did something, the newest first; and a number is handed out once.
    ensures history { table_history in_use ≡ Call.takes 1 ∷ Call.removes 1 ∷ asked_once }
    ensures handed { handed_in in_use ≡ (1, lost) ∷ [] }
    ensures begun { lives_begun (table_history in_use) ≡ 1 }
    ensures on { on_channel (table_history in_use) ≡ true }
    ensures not_twice { ¬ (AllPairs (λ x y. x.0 ≢ y.0) (handed_in lost_twice)) }
{}

/// A legal history of a new table is one of the table's own calls: those that did something hold one after the other, and lead to it. So what always
/// holds of a table holds of it, whatever threads made the calls. What is done later leaves what was done.
pub fn tables_go_by_their_calls()
    ensures history { (entries : List (Entry PendingCall PendingReply)) (t : TableState) → Leads PendingStep new_table entries t → Holds (table_history entries) × (after (table_history entries) ≡ t) }
    ensures reached { (s t : TableState) (entries : List (Entry PendingCall PendingReply)) → IsReachedTable s → Leads PendingStep s entries t → IsReachedTable t }
    ensures grows { (before later : List (Entry PendingCall PendingReply)) → (more : List Call) × (table_history (before ++ later) ≡ more ++ table_history before) }
{}

/// Each request that was accepted, one entry accepted, under the number of its place among them, and no other entry has that number; and each number that
/// was answered stands for the request of its entry.
pub fn requests_are_accepted_once()
    ensures numbered { (entries : List (Entry PendingCall PendingReply)) (t : TableState) (number : ℕ) (a : Accepted) → Leads PendingStep new_table entries t → (one : Accepts entries number a)
        → (more : List Accepted) × (accepted_in (table_history entries) ≡ accepted_in (table_history one.before) ++ a ∷ more) × (number ≡ suc (length (accepted_in (table_history one.before)))) }
    ensures accepted { (entries : List (Entry PendingCall PendingReply)) (t : TableState) (earlier later : List Accepted) (a : Accepted) → Leads PendingStep new_table entries t
        → accepted_in (table_history entries) ≡ earlier ++ a ∷ later → Accepts entries (suc (length earlier)) a }
    ensures once { (entries : List (Entry PendingCall PendingReply)) (t : TableState) (number : ℕ) (a b : Accepted) → Leads PendingStep new_table entries t
        → (one : Accepts entries number a) (other : Accepts entries number b) → (one.before ≡ other.before) × (one.by ≡ other.by) × (a ≡ b) }
{}

/// What a look at the table tells: how many lives were given since the last channel began, and whether that is open still.
pub fn looks_tell_the_channel()
    ensures { (entries before later : List (Entry PendingCall PendingReply)) (t : TableState) (by : ℕ) (stage : Stage) → Leads PendingStep new_table entries t
        → entries ≡ before ++ entry by Ask.Stage (Reply.Stands stage) ∷ later → (stage.lives ≡ lives_begun (table_history before)) × (stage.channel ≡ on_channel (table_history before)) }
{}

/// No number's outcome is handed out twice, by whichever passes. What is handed out for a number is what came of the request that was accepted under it, by
/// what was heard on its channel, with its device and life. Where the table has no more of a request that was accepted, its outcome was handed out.
pub fn outcomes_are_handed_out_once()
    ensures once { (entries : List (Entry PendingCall PendingReply)) (t : TableState) → Leads PendingStep new_table entries t → AllPairs (λ x y. x.0 ≢ y.0) (handed_in entries) }
    ensures own { (entries : List (Entry PendingCall PendingReply)) (t : TableState) (number : ℕ) (a : Accepted) (taken : Taken) → Leads PendingStep new_table entries t → (one : Accepts entries number a)
        → Contains (handed_in entries) (number, taken) → (outcome_in (table_history entries) (accepted_in (table_history one.before)) a ≡ Some taken.outcome) × (taken ≡ taken_of a taken.outcome) }
    ensures accepted { (entries : List (Entry PendingCall PendingReply)) (t : TableState) (number : ℕ) (taken : Taken) → Leads PendingStep new_table entries t
        → Contains (handed_in entries) (number, taken) → (a : Accepted) × Accepts entries number a }
    ensures all { (entries : List (Entry PendingCall PendingReply)) (t : TableState) (earlier later : List Accepted) (a : Accepted) → Leads PendingStep new_table entries t
        → accepted_in (table_history entries) ≡ earlier ++ a ∷ later → untaken_at t (suc (length earlier)) ≡ None → (taken : Taken) × Contains (handed_in entries) (suc (length earlier), taken) }
{}

/// Once no channel is open each request that was accepted has one outcome, and that was handed out or is still there to be handed out.
pub fn ended_tables_have_all_outcomes()
    ensures { (entries : List (Entry PendingCall PendingReply)) (t : TableState) (earlier later : List Accepted) (a : Accepted) → Leads PendingStep new_table entries t → t.channel ≡ None
        → accepted_in (table_history entries) ≡ earlier ++ a ∷ later → HasOutcome entries t earlier a }
{}

/// What the calls of one pass accept and hand out, the whole history does.
pub fn passes_make_the_history()
    ensures handed { (entries : List (Entry PendingCall PendingReply)) (pass number : ℕ) (taken : Taken) → Contains (handed_in (calls_of pass entries)) (number, taken) → Contains (handed_in entries) (number, taken) }
    ensures accepts { (entries own rest : List (Entry PendingCall PendingReply)) (pass application number : ℕ) (named : Target) (o : Op)
        → calls_of pass entries ≡ own ++ entry pass (Ask.Submit application named o) (Reply.Submitted (Ok number)) ∷ rest
        → (a : Accepted) × (one : Accepts entries number a) × (calls_of pass one.before ≡ own) × (one.by ≡ pass) × (one.application ≡ application) × (one.named ≡ named) × (one.op ≡ o) }
{}

/// Where the calls of one pass stand among all calls: behind what had been seen when that pass had made none, as it has when it is split; and within what had
/// been seen when that pass had made all of its own, as pass 0 has when it was joined.
pub fn passes_stand_in_order()
    ensures behind { (entries seen before later : List (Entry PendingCall PendingReply)) (e : Entry PendingCall PendingReply) → IsPrefix seen entries → calls_of e.by seen ≡ []
        → entries ≡ before ++ e ∷ later → IsPrefix seen before }
    ensures within { (entries seen before later : List (Entry PendingCall PendingReply)) (e : Entry PendingCall PendingReply) → IsPrefix seen entries → calls_of e.by seen ≡ calls_of e.by entries
        → entries ≡ before ++ e ∷ later → IsPrefix (before ++ e ∷ []) seen }
{}
