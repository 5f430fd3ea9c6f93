//! What every run of a script's lines comes to, as contracts of functions that do nothing.

ghost use Rattle.std.specs.Prelude.{◌≡◌, ◌≢◌, ℕ, ◌≤◌, Bool, false, true, List, [], ◌∷◌, filter_map, reverse, None, Ok, Some};
ghost use Rattle.rd_base.specs.History.{History};
ghost use Rattle.rd_base.specs.declared.journal.Key.{Key};
ghost use Rattle.rd_base.specs.Lawful.{EachEntry, SendsFirst, SettlesFirst};
ghost use Rattle.rd_headline.specs.Wrong.{closed_bytes, earlier_accepted, first_key, head_of_both, knows_first, later_accepted, lost_untaken, other_file, ran_twice, removing_lines, replied_done, replied_refused, sent_unrun, unheard};
ghost use Rattle.rd_irp.specs.Written.{request_bytes};
ghost use Rattle.rd_loads.specs.AllPremises.{MeetPremises};
ghost use Rattle.rd_outcomes.specs.Opened.{ChannelsOpen};
ghost use Rattle.rd_pending.specs.Outcomes.{accepted_outcome};
ghost use Rattle.rd_pending.specs.Outcomes.Tidings.{begins, completes, removes};
ghost use Rattle.rd_pending.specs.declared.calls.Outcome.TheVariants.{Done};
ghost use Rattle.rd_pending.specs.declared.calls.Target.{Target};
ghost use Rattle.rd_script.specs.Load.{load_script};
ghost use Rattle.rd_script.specs.Report.{report_of};
ghost use Rattle.rd_script.specs.Script.{script_of};
ghost use Rattle.rd_script.specs.declared.keyword.Mode.TheVariants as mode;
ghost use Rattle.rd_script.specs.declared.line.NumberedLine.{NumberedLine};
ghost use Rattle.rd_script.specs.declared.outcome.Outcomes.{Outcomes};
ghost use Rattle.rd_script.specs.declared.script.Script.{Script};
ghost use Rattle.rd_script.specs.declared.outcome.Outcome.{Outcome};
ghost use Rattle.rd_world.specs.Acts.{act_by, control_by};
ghost use Rattle.rd_declared.specs.Devices.{Declared};
ghost use Rattle.rd_deeds.specs.HostDeeds.{MayDo, side_after};
ghost use Rattle.rd_deeds.specs.Joining.{HasReply, IsOwnReply};
ghost use Rattle.rd_world.specs.Lines.{IsAccepted, LinesEnd, Waits};
ghost use Rattle.rd_declared.specs.Declaring.{bare_lines, declared_devices};
ghost use Rattle.rd_world.specs.Recording.{recording_of_deeds};
ghost use Rattle.rd_world.specs.Run.{Most};
ghost use Rattle.rd_world.specs.Session.{IsRun, IsWholeSession};
ghost use Rattle.rd_deeds.specs.Talk.{Deed, client_reads, host_begins, takes};
ghost use Rattle.rd_deeds.specs.Told.{Replies};
ghost use Rattle.rd_world.specs.World.{ApplicationState, Asked};

/// Each channel opens before the next line passes.
pub fn channels_open_in_time()
    ensures { (lines : List NumberedLine) (starves : Key → Bool) (most : Most) → MeetPremises lines → ChannelsOpen lines starves most }
{}

/// Whatever a script's lines come to is a whole session: its recording, the journals in its books, what is told of it and its report.
pub fn runs_are_whole()
    ensures { (script : Script) (books : List (ℕ × History)) (told : Outcomes) (deeds : List Deed) → MeetPremises script.lines → IsRun script books told deeds
        → IsWholeSession script (recording_of_deeds deeds) books told (report_of script told books) }
{}

/// So it is for each script that was read for both sides.
pub fn scripts_are_whole()
    ensures { (text : List ℕ) (script : Script) (books : List (ℕ × History)) (told : Outcomes) (deeds : List Deed) → script_of mode.Both text ≡ Ok script → IsRun script books told deeds
        → IsWholeSession script (recording_of_deeds deeds) books told (report_of script told books) }
{}

/// So it is for each load.
pub fn loads_are_whole()
    ensures { (number : ℕ) (books : List (ℕ × History)) (told : Outcomes) (deeds : List Deed) → number ≤ 1000 → IsRun (load_script number) books told deeds
        → IsWholeSession (load_script number) (recording_of_deeds deeds) books told (report_of (load_script number) told books) }
{}

/// What the words of the promise refuse, each a wrong run at the clause that has the word.
pub fn wrong_runs_are_refused()
    // One legal history: a completion is handed out of a request that never ran.
    ensures unrun { ¬ (EachEntry SendsFirst sent_unrun) }
    // Each request in it at most once: a request runs again, whose completion isn't collected.
    ensures again { ¬ (EachEntry SettlesFirst ran_twice) }
    // The replies of it: a request has another reply than the one that the journal gives.
    ensures other_reply { ¬ (HasReply ((first_key, replied_done) ∷ []) first_key replied_refused) }
    // Against the file it named: another file's id is read under the request's key.
    ensures other_file { (replies : Replies) → ¬ (IsOwnReply replies (client_reads 1 (request_bytes other_file) ∷ []) earlier_accepted replied_done) }
    // Exactly one outcome: a line has none, or one line has two.
    ensures no_outcome { (devices : List (ℕ × Declared)) (deeds : List Deed) (holds : ApplicationState) (x : Waits) (from : List Deed) → ¬ (LinesEnd devices deeds 1 holds (x ∷ []) [] (λ later. Unit {0}) from) }
    ensures two_outcomes { (devices : List (ℕ × Declared)) (deeds : List Deed) (holds : ApplicationState) (x : Waits) (o other : Outcome) (from : List Deed) → ¬ (LinesEnd devices deeds 1 holds (x ∷ []) (o ∷ other ∷ []) (λ later. Unit {0}) from) }
    // Which its application receives, once: an outcome is never handed out, or is handed out twice.
    ensures never_taken { (devices : List (ℕ × Declared)) (holds : ApplicationState) (x : Asked) (o : Outcome) (before : List Deed) (named : Target) (count : ℕ)
        → ¬ (IsAccepted devices lost_untaken 1 holds x o (λ next received after. LinesEnd devices lost_untaken 1 next [] [] received after) before named count) }
    ensures taken_twice { MayDo knows_first (takes 1) × ¬ (MayDo (side_after knows_first (takes 1)) (takes 1)) }
    // Its own completion: an outcome is told of a request of which nothing was heard, or the completion of an earlier request with its id ends it.
    ensures never_heard { (devices : List (ℕ × Declared)) (holds : ApplicationState) (x : Asked) (o : Outcome) (before : List Deed) (named : Target)
        → ¬ (IsAccepted devices unheard 1 holds x o (λ next received after. Unit {0}) before named 0) }
    ensures earlier_completion { accepted_outcome (earlier_accepted ∷ []) later_accepted 0 (begins 1 ∷ completes head_of_both closed_bytes ∷ []) false ≡ None }
    // Lost only where its device was removed or its channel dropped first: another device was removed, or nothing was, or the completion was heard before.
    ensures lost_by_another { accepted_outcome [] earlier_accepted 0 (begins 1 ∷ removes 2 ∷ []) false ≡ None }
    ensures lost_while_open { accepted_outcome [] earlier_accepted 0 (begins 1 ∷ []) false ≡ None }
    ensures lost_though_heard { accepted_outcome [] earlier_accepted 0 (begins 1 ∷ completes head_of_both closed_bytes ∷ removes 1 ∷ []) true ≡ Some (Done replied_done) }
    // Whatever removals do: a line removes a device, and it isn't done.
    ensures not_removed { filter_map act_by (reverse (host_begins 1 ∷ [])) ≢ (control_by (declared_devices (bare_lines removing_lines)) removing_lines).acts }
{}
