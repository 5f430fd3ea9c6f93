//! That runs end, and what comes of one that is cut off, as contracts of functions that do nothing.

ghost use Rattle.std.specs.Io.KnownBytes.{Appends};
ghost use Rattle.std.specs.Prelude.{◌≡◌, ℕ, Bool, List, Ok, Option, Some};
ghost use Rattle.rd_base.specs.declared.journal.Key.{Key};
ghost use Rattle.rd_opening.specs.OrdersOrders.{DeclaresWritable};
ghost use Rattle.rd_told.specs.RunsMoves.{Reached};
ghost use Rattle.rd_told.specs.RunsPremises.{RunPremises};
ghost use Rattle.rd_script.specs.declared.keyword.Mode.{Mode};
ghost use Rattle.rd_script.specs.declared.line.NumberedLine.{NumberedLine};
ghost use Rattle.rd_script.specs.declared.script.Script.{Script};
ghost use Rattle.rd_script.specs.Script.{script_of};
ghost use Rattle.rd_declared.specs.Marks.{MarksAgree};
ghost use Rattle.rd_world.specs.Run.{Most, WorldRun, run_of};
ghost use Rattle.rd_world.specs.Session.{IsCutOff};
ghost use Rattle.rd_world.specs.Stations.{AreStations};
ghost use Rattle.rd_world.specs.Wire.{IsCutRun};
ghost use Rattle.rd_world.specs.World.{WorldState, journals_in, marks_of};

/// Every run ends: whichever runs of jobs find no memory, some draws and rounds do for the session of these lines, and so for that of every script. However many are given, a
/// run that ends comes to one world alone.
pub fn runs_end()
    ensures lines { (lines : List NumberedLine) (starves : Key → Bool) → RunPremises lines → DeclaresWritable lines → (most : Most) × (w : WorldState) × (run_of most starves lines ≡ Some w) }
    ensures scripts { (m : Mode) (text : List ℕ) (script : Script) (starves : Key → Bool) → script_of m text ≡ Ok script → (most : Most) × (w : WorldState) × (run_of most starves script.lines ≡ Some w) }
    ensures one { (lines : List NumberedLine) (starves : Key → Bool) (most : Most) (more : Most) (w : WorldState) (v : WorldState) → run_of most starves lines ≡ Some w → run_of more starves lines ≡ Some v → v ≡ w }
{}

/// In each world that lines come to the ids of the stations rise and no key is named at two of them; so its runs found no memory of which its journals say so, and no others.
pub fn journals_mark_their_runs()
    ensures stand { (lines : List NumberedLine) (starves : Key → Bool) (w : WorldState) → RunPremises lines → Reached lines starves w → AreStations w.stations }
    ensures marks { (lines : List NumberedLine) (starves : Key → Bool) (w : WorldState) → RunPremises lines → Reached lines starves w → MarksAgree (marks_of w) (journals_in w) }
{}

/// What a run comes to, it comes to where those runs find no memory of which its own journals say so: it is the session of its lines.
pub fn runs_are_of_their_marks()
    ensures same { (lines : List NumberedLine) (starves : Key → Bool) (most : Most) (w : WorldState) → RunPremises lines → DeclaresWritable lines → run_of most starves lines ≡ Some w → run_of most (marks_of w) lines ≡ Some w }
    ensures session { (lines : List NumberedLine) (starves : Key → Bool) (most : Most) (w : WorldState) → RunPremises lines → DeclaresWritable lines → run_of most starves lines ≡ Some w → WorldRun lines w }
{}

/// What was written where a run stopped early is a beginning of the recording that the session of its lines comes to, where some runs find no memory.
pub fn cut_runs_are_cut_off()
    ensures lines { (lines : List NumberedLine) (start held : Option (List ℕ)) (x : WorldState) → RunPremises lines → DeclaresWritable lines → IsCutRun start held lines x
        → (written : List ℕ) × Appends start held written × IsCutOff lines written }
    ensures scripts { (m : Mode) (text : List ℕ) (script : Script) (start held : Option (List ℕ)) (x : WorldState) → script_of m text ≡ Ok script → IsCutRun start held script.lines x
        → (written : List ℕ) × Appends start held written × IsCutOff script.lines written }
{}
