//! What the control lines of a script do in every run, as contracts of functions that do nothing.

ghost use Rattle.std.specs.Prelude.{◌≡◌, ℕ, Bool, List, Ok, Some, map};
ghost use Rattle.rd_base.specs.declared.journal.Key.{Key};
ghost use Rattle.rd_controls.specs.Controls.{AreOrderedLines, DoAsSaid, RestWhereSettled};
ghost use Rattle.rd_runs.specs.Premises.{RunPremises};
ghost use Rattle.rd_script.specs.Script.{script_of};
ghost use Rattle.rd_script.specs.declared.keyword.Mode.TheVariants as Mode;
ghost use Rattle.rd_script.specs.declared.line.NumberedLine.{NumberedLine};
ghost use Rattle.rd_script.specs.declared.script.Script.{Script};
ghost use Rattle.rd_declared.specs.Devices.{Declared};
ghost use Rattle.rd_declared.specs.Declaring.{declared_devices};
ghost use Rattle.rd_world.specs.Run.{Most, WorldRun, run_of};
ghost use Rattle.rd_world.specs.World.{WorldState, marks_of};

/// In every run of lines whose numbers rise, and which remove and add devices of theirs, channels begin and end, devices are removed and added and printers
/// are told of by the control lines alone, in their order and as follows from the lines alone, whatever is drawn; and the lines that did nothing are those that
/// then do nothing, beside `do` lines, each once. The channel that is open
/// after everything ends last where a request of it waits.
pub fn control_lines_do_as_said()
    ensures { (lines : List NumberedLine) (starves : Key → Bool) (most : Most) (w : WorldState)
        → let ids = map (λ (e : ℕ × Declared). e.0) (declared_devices (map (λ (x : NumberedLine). x.line) lines)) in
        AreOrderedLines ids lines → RunPremises lines → run_of most starves lines ≡ Some w → DoAsSaid ids lines starves w }
{}

/// Where a `settle` line of theirs ends nothing can happen by itself, and its control lines so far have done what follows from these; what was done by then
/// is a beginning of all that is done.
pub fn settle_lines_rest()
    ensures { (lines : List NumberedLine) (starves : Key → Bool) (most : Most) (w : WorldState)
        → let ids = map (λ (e : ℕ × Declared). e.0) (declared_devices (map (λ (x : NumberedLine). x.line) lines)) in
        AreOrderedLines ids lines → RunPremises lines → run_of most starves lines ≡ Some w → RestWhereSettled ids lines starves w.deeds }
{}

/// The lines of a script that was read for both sides are such lines.
pub fn scripts_are_ordered()
    ensures { (text : List ℕ) (script : Script) → script_of Mode.Both text ≡ Ok script
        → AreOrderedLines (map (λ (e : ℕ × Declared). e.0) (declared_devices (map (λ (l : NumberedLine). l.line) script.lines))) script.lines }
{}

/// So in every session of a script the control lines do what follows from its lines, and its `settle` lines rest.
pub fn sessions_do_as_said()
    ensures said { (text : List ℕ) (script : Script) (w : WorldState) → script_of Mode.Both text ≡ Ok script → WorldRun script.lines w
        → DoAsSaid (map (λ (e : ℕ × Declared). e.0) (declared_devices (map (λ (l : NumberedLine). l.line) script.lines))) script.lines (marks_of w) w }
    ensures settled { (text : List ℕ) (script : Script) (w : WorldState) → script_of Mode.Both text ≡ Ok script → WorldRun script.lines w
        → RestWhereSettled (map (λ (e : ℕ × Declared). e.0) (declared_devices (map (λ (l : NumberedLine). l.line) script.lines))) script.lines (marks_of w) w.deeds }
{}
