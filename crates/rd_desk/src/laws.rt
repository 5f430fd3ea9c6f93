//! What holds of every history of a desk. These functions do nothing: their clauses are laws.

ghost use Rattle.std.specs.Prelude.{◌≡◌, ◌≤◌, ◌++◌, ◌∷◌, ℕ, List, [], All, true, false, None, Some};
ghost use Rattle.std.specs.List.{AllByRecursion};
ghost use Rattle.rd_base.specs.declared.journal.Key.{Key};
ghost use Rattle.rd_base.specs.Lawful.{RunsAt};
ghost use Rattle.rd_irp.specs.declared.op.Op.{Op};
ghost use Rattle.rd_irp.specs.declared.op.Op.TheVariants as Op;
ghost use Rattle.rd_irp.specs.declared.request.Request.{Request};
ghost use Rattle.rd_drive.specs.declared.plan.Job.{Job};
ghost use Rattle.rd_drive.specs.Stepped.{Settled, Stepped};
ghost use Rattle.rd_station.specs.declared.answers.Applied.TheVariants as Applied;
ghost use Rattle.rd_station.specs.declared.answers.Given.TheVariants as Given;
ghost use Rattle.rd_station.specs.Station.{puts, takes, StationCall, StationState, StationSteps, new_station};
ghost use Rattle.rd_station.specs.Tied.{IsKept, IsReached, IsRunBy, IsTied, RunsOwn};
ghost use Rattle.rd_station.specs.Worked.{close, closes_to, counts_cut, counts_parked, counts_run, key, notification, with_jobs, with_taken};
ghost use Rattle.rd_turn.specs.declared.object.Entry.{Entry};
ghost use Rattle.rd_turn.specs.History.{Leads, calls_of};
ghost use Rattle.rd_desk.specs.declared.calls.DeskCall.{DeskCall};
ghost use Rattle.rd_desk.specs.declared.calls.DeskCall.TheVariants as Call;
ghost use Rattle.rd_desk.specs.declared.calls.DeskReply.{DeskReply};
ghost use Rattle.rd_desk.specs.declared.calls.DeskReply.TheVariants as Reply;
ghost use Rattle.rd_desk.specs.Desk.{DeskStep, runs_of, told_calls};
ghost use Rattle.rd_desk.specs.Own.{GivesBackAt, GivesOwnBack, IsOwnJob, PutsOwn, WereGiven, jobs_back, jobs_given, request_put};
ghost use Rattle.rd_desk.specs.Worked.{five_wait, gave, given, none_wait, one_ran, one_taken, one_waits, run, took};

use rd_drive::Device;

/// Replies that a desk gives, and some that it doesn't.
pub fn desks_are_as_listed()
    // A hand is given four jobs, and one is left; never five.
    ensures four { DeskStep counts_run counts_parked counts_cut five_wait (Call.Work []) (Reply.Worked (record (given (closes_to 4)) { left = true })) (with_taken 4 five_wait) }
    ensures not_five { ¬ (DeskStep counts_run counts_parked counts_cut five_wait (Call.Work []) (Reply.Worked (given (closes_to 5))) (with_taken 5 five_wait)) }
    ensures not_forgotten { ¬ (DeskStep counts_run counts_parked counts_cut five_wait (Call.Work []) (Reply.Worked (given (closes_to 4))) (with_taken 4 five_wait)) }
    // None is given where none waits, and only there; no job twice.
    ensures none { DeskStep counts_run counts_parked counts_cut none_wait (Call.Work []) (Reply.Worked (given [])) none_wait }
    ensures not_kept { ¬ (DeskStep counts_run counts_parked counts_cut one_waits (Call.Work []) (Reply.Worked (record (given []) { left = true })) one_waits) }
    ensures not_twice { ¬ (DeskStep counts_run counts_parked counts_cut one_waits (Call.Work []) (Reply.Worked (given (close 0 7 ∷ close 0 7 ∷ []))) one_taken) }
    // A plan that is given back is run, and the reply says so; it isn't dropped, nor said to be stale.
    ensures runs { DeskStep counts_run counts_parked counts_cut one_taken (Call.Work (run (close 0 7) ∷ [])) (Reply.Worked (record (given []) { applied = Applied.Ran ∷ []; ready = true })) one_ran }
    ensures not_dropped { ¬ (DeskStep counts_run counts_parked counts_cut one_taken (Call.Work (run (close 0 7) ∷ [])) (Reply.Worked (given [])) one_taken) }
    ensures not_stale { ¬ (DeskStep counts_run counts_parked counts_cut one_taken (Call.Work (run (close 0 7) ∷ [])) (Reply.Worked (record (given []) { applied = Applied.Stale ∷ [] })) one_taken) }
    // A job that may not come is given back.
    ensures unfit { DeskStep counts_run counts_parked counts_cut (with_jobs none_wait (close 1 7 ∷ [])) (Call.Put (close 0 8)) (Reply.Unfit (close 0 8)) (with_jobs none_wait (close 1 7 ∷ [])) }
    ensures other_reply { ¬ (DeskStep counts_run counts_parked counts_cut none_wait Call.Collect (Reply.Removed false) none_wait) }
    // What an entry tells.
    ensures tells { told_calls (took 1 (close 0 7 ∷ []) ∷ []) ≡ takes (Given.Job (close 0 7)) ∷ takes Given.Nothing ∷ [] }
    // A pass gives back what it was given before, and nothing else.
    ensures own { GivesOwnBack (took 1 (close 0 7 ∷ []) ∷ gave 1 (close 0 7) ∷ []) }
    ensures not_own { ¬ (GivesOwnBack (took 1 (close 0 7 ∷ []) ∷ gave 1 (close 1 8) ∷ [])) }
    ensures not_later { ¬ (GivesOwnBack (gave 1 (close 0 7) ∷ took 1 (close 0 7 ∷ []) ∷ [])) }
    ensures requests { (request_put (puts (close 0 7) None ∷ puts (notification 1 8) None ∷ []) (key 1)).op ≡ Op.Notify false 1 }
{}

/// A legal history of a desk is one of its station: the calls that its entries tell, one after the other, lead the station from one value to the other.
/// So over a station that is reached another is, and what always holds of a station holds of it, whatever threads made the calls.
pub fn desks_are_stations<D: Device>()
    ensures steps { (s : StationState D) (t : StationState D) (entries : List (Entry DeskCall DeskReply)) → Leads (DeskStep D.runs D.parked D.cuts) s entries t
        → StationSteps D.runs D.parked D.cuts s (told_calls entries) t }
    ensures reached { (s : StationState D) (t : StationState D) (entries : List (Entry DeskCall DeskReply)) → IsReached D.runs D.parked D.cuts s → Leads (DeskStep D.runs D.parked D.cuts) s entries t
        → IsReached D.runs D.parked D.cuts t }
    ensures kept { (s : StationState D) (t : StationState D) (entries : List (Entry DeskCall DeskReply)) → IsReached D.runs D.parked D.cuts s → Leads (DeskStep D.runs D.parked D.cuts) s entries t
        → IsKept D.parked t }
{}

/// Where the calls of each pass give back jobs that earlier calls of the same pass were given, and no pass has a number above `most`, each run of the whole
/// history is of its key's request, whatever these are, where each job that comes is. Over a new station they are those of the jobs that came, since
/// each key has one; so over a device that a step and a cut compute the station is tied to its journal. Where the calls of each pass give back at the
/// moment that was told, each run is at that moment.
pub fn jobs_run_as_they_came<D: Device>()
    ensures own { (requests : Key → Request) (s : StationState D) (t : StationState D) (entries : List (Entry DeskCall DeskReply)) (most : ℕ) → Leads (DeskStep D.runs D.parked D.cuts) s entries t
        → All (λ e. e.by ≤ most) entries → ((number : ℕ) → number ≤ most → GivesOwnBack (calls_of number entries))
        → AllByRecursion (IsOwnJob requests) s.waiting → AllByRecursion (PutsOwn requests) (told_calls entries) → AllByRecursion (RunsOwn requests) (told_calls entries) }
    ensures put { (calls : List StationCall) (s : StationState D) (t : StationState D) → StationSteps D.runs D.parked D.cuts s calls t → AllByRecursion (PutsOwn (request_put calls)) calls }
    ensures tied { (step : D → Key → ℕ → Op → ℕ → Stepped D) (cut : D → Settled D) (device : D) (t : StationState D) (entries : List (Entry DeskCall DeskReply)) (most : ℕ) → IsRunBy step cut D.runs D.parked D.cuts
        → D.parked device ≡ [] → Leads (DeskStep D.runs D.parked D.cuts) (new_station device) entries t → All (λ e. e.by ≤ most) entries → ((number : ℕ) → number ≤ most → GivesOwnBack (calls_of number entries))
        → IsTied step cut (request_put (told_calls entries)) device t }
    ensures moments { (told : ℕ) (s : StationState D) (t : StationState D) (entries : List (Entry DeskCall DeskReply)) (most : ℕ) → Leads (DeskStep D.runs D.parked D.cuts) s entries t → All (λ e. e.by ≤ most) entries
        → ((number : ℕ) → number ≤ most → GivesBackAt (Some told) (calls_of number entries)) → All (RunsAt told) s.journal → All (RunsAt told) t.journal }
{}

/// The calls of a pass that made none give back what they were given, and so they do with one more that gives back what earlier ones were given; what
/// that is given was given then.
pub fn hands_give_back_their_own()
    ensures none { GivesOwnBack [] }
    ensures more { (own : List (Entry DeskCall DeskReply)) (e : Entry DeskCall DeskReply) → GivesOwnBack own → WereGiven own (jobs_back e.call) → GivesOwnBack (own ++ e ∷ []) }
    ensures idle { (own : List (Entry DeskCall DeskReply)) (e : Entry DeskCall DeskReply) → GivesOwnBack own → runs_of e.call ≡ [] → GivesOwnBack (own ++ e ∷ []) }
    ensures given { (own : List (Entry DeskCall DeskReply)) (e : Entry DeskCall DeskReply) → WereGiven (own ++ e ∷ []) (jobs_given e.reply) }
    ensures earlier { (own : List (Entry DeskCall DeskReply)) (later : List (Entry DeskCall DeskReply)) (jobs : List Job) → WereGiven own jobs → WereGiven (own ++ later) jobs }
{}
