//! What came of the lines of applications, as contracts of functions that do nothing.

ghost use Rattle.std.specs.List.{flat_map, range_with_len};
ghost use Rattle.std.specs.Prelude.{◌≡◌, ℕ, Bool, List, [], None, Some, filter, map, true};
ghost use Rattle.rd_base.specs.declared.journal.Key.{Key};
ghost use Rattle.rd_script.specs.Report.{numbered_from};
ghost use Rattle.rd_script.specs.Rows.{max_applications};
ghost use Rattle.rd_script.specs.declared.line.NumberedLine.{NumberedLine};
ghost use Rattle.rd_controls.specs.Controls.{AreOrderedLines};
ghost use Rattle.rd_outcomes.specs.Opened.{ChannelsOpen};
ghost use Rattle.rd_pending.specs.Table.{awaits};
ghost use Rattle.rd_controls.specs.RunsMoves.{Reached};
ghost use Rattle.rd_controls.specs.RunsPremises.{RunPremises};
ghost use Rattle.rd_deeds.specs.Host.{next_message};
ghost use Rattle.rd_world.specs.Applications.{AreNumbered};
ghost use Rattle.rd_declared.specs.Devices.{Declared};
ghost use Rattle.rd_world.specs.Lines.{LinesEnd, submitted, waits_of};
ghost use Rattle.rd_declared.specs.Declaring.{bare_lines, declared_devices};
ghost use Rattle.rd_world.specs.Report.{outcomes_of};
ghost use Rattle.rd_world.specs.Run.{Most, run_of};
ghost use Rattle.rd_deeds.specs.Talk.{EndsWith, host_wrote, is_request, open_channel};
ghost use Rattle.rd_world.specs.World.{WorldState, application_at, new_application};

/// The requests that stand on a channel are those that were accepted there, in order; all of them are on the open channel, where the host has nothing to send.
pub fn requests_are_sent()
    ensures requests { (lines : List NumberedLine) (starves : Key → Bool) (w : WorldState) → RunPremises lines → Reached lines starves w → (c : ℕ) → EndsWith (submitted c w.deeds) (filter is_request (host_wrote c w.deeds)) }
    ensures all { (lines : List NumberedLine) (starves : Key → Bool) (w : WorldState) → RunPremises lines → Reached lines starves w → next_message w.side ≡ None → (c : ℕ) → open_channel w.deeds ≡ Some c → filter is_request (host_wrote c w.deeds) ≡ submitted c w.deeds }
{}

/// What is told of the lines of applications, by application and line, are the outcomes of each application, from its first line on.
pub fn outcomes_are_numbered()
    ensures { (lines : List NumberedLine) (starves : Key → Bool) (w : WorldState) → AreNumbered lines → Reached lines starves w
        → outcomes_of w ≡ flat_map (λ (a : ℕ). numbered_from a 1 (application_at w a).outcomes) (range_with_len 1 max_applications) }
{}

/// Between two moves no application awaits an outcome that its host knows.
pub fn known_outcomes_are_taken()
    ensures { (lines : List NumberedLine) (starves : Key → Bool) (w : WorldState) → Reached lines starves w → (a n : ℕ) → (application_at w a).awaits ≡ Some n → awaits (w.side).table n ≡ true }
{}

/// Where a run ends the lines of an application that awaits nothing have come out, one after the other, each issued where it was due; it takes that each channel
/// opens before the next line passes.
pub fn lines_come_out()
    ensures { (lines : List NumberedLine) (starves : Key → Bool) (most : Most) (w : WorldState) → RunPremises lines → AreOrderedLines (map (λ (e : ℕ × Declared). e.0) (declared_devices (map (λ (l : NumberedLine). l.line) lines))) lines
        → ChannelsOpen lines starves most → run_of most starves lines ≡ Some w → (a : ℕ) → (application_at w a).awaits ≡ None
        → LinesEnd (declared_devices (bare_lines lines)) w.deeds a new_application (waits_of (declared_devices (bare_lines lines)) a lines) (application_at w a).outcomes (λ later. Unit {0}) [] }
{}
