//! What every run tells, as contracts of functions that do nothing.

ghost use Rattle.std.specs.Prelude.{◌≡◌, ℕ, Bool, List};
ghost use Rattle.rd_base.specs.declared.journal.Key.{Key};
ghost use Rattle.std.specs.List.{flat_map};
ghost use Rattle.rd_script.specs.declared.line.NumberedLine.{NumberedLine};
ghost use Rattle.rd_joined.specs.JournalsStations.{AreFit};
ghost use Rattle.rd_joined.specs.RunsMoves.{Reached};
ghost use Rattle.rd_joined.specs.RunsPremises.{RunPremises};
ghost use Rattle.rd_told.specs.Left.{AreLeft};
ghost use Rattle.rd_declared.specs.Declaring.{bare_lines, declared_devices};
ghost use Rattle.rd_world.specs.Session.{IsPlain, IsStoredOpen, documents_of, printed_in};
ghost use Rattle.rd_deeds.specs.Talk.{EachAfter};
ghost use Rattle.rd_world.specs.World.{WorldState};

/// An entry that names a key is stored while that key's channel is open.
pub fn entries_are_stored_open()
    ensures { (lines : List NumberedLine) (starves : Key → Bool) (w : WorldState) → RunPremises lines → Reached lines starves w → EachAfter IsStoredOpen w.deeds }
{}

/// Each completion is what this project's writer makes of the reply with which it completes its request.
pub fn completions_are_plain()
    ensures { (lines : List NumberedLine) (starves : Key → Bool) (w : WorldState) → AreFit (declared_devices (bare_lines lines)) → RunPremises lines → Reached lines starves w → EachAfter IsPlain w.deeds }
{}

/// Each device is as its journal leaves it, by the requests that were written; so the documents of printers are those that the journals leave.
pub fn devices_are_left()
    ensures left { (lines : List NumberedLine) (starves : Key → Bool) (w : WorldState) → RunPremises lines → Reached lines starves w → AreLeft (declared_devices (bare_lines lines)) w.stations w.deeds }
    ensures documents { (lines : List NumberedLine) (starves : Key → Bool) (w : WorldState) → RunPremises lines → Reached lines starves w → flat_map printed_in w.stations ≡ flat_map (documents_of w.deeds) (declared_devices (bare_lines lines)) }
{}
