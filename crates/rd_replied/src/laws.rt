//! Whose replies completions tell in every run, as contracts of functions that do nothing.

ghost use Rattle.std.specs.Prelude.{◌≡◌, Bool, List};
ghost use Rattle.rd_base.specs.declared.journal.Key.{Key};
ghost use Rattle.rd_script.specs.declared.line.NumberedLine.{NumberedLine};
ghost use Rattle.rd_journals.specs.RunsMoves.{Reached};
ghost use Rattle.rd_journals.specs.RunsPremises.{RunPremises};
ghost use Rattle.rd_declared.specs.Declaring.{bare_lines, declared_devices};
ghost use Rattle.rd_world.specs.Session.{replies_in};
ghost use Rattle.rd_deeds.specs.Talk.{EachAfter};
ghost use Rattle.rd_world.specs.World.{WorldState};
ghost use Rattle.rd_replied.specs.Replied.{AnswersBy};
ghost use Rattle.rd_replied.specs.Removals.{TellsGone};
ghost use Rattle.rd_replied.specs.Since.{AnswersSince};

/// Each completion that a client wrote tells the reply that the device's journal gives to its key by what it says before the key was sent, with the requests that the
/// host wrote until now; or CANCELLED, or a refusal.
pub fn completions_are_replied()
    ensures { (lines : List NumberedLine) (starves : Key → Bool) (w : WorldState) → RunPremises lines → Reached lines starves w → EachAfter (AnswersBy (replies_in (declared_devices (bare_lines lines)) w.deeds)) w.deeds }
{}

/// Where a device was cut off, since it was removed, after a key came, the key's completion is written after that was told: the removal is written on the key's channel
/// after the read of its request.
pub fn removals_are_told()
    ensures { (lines : List NumberedLine) (starves : Key → Bool) (w : WorldState) → RunPremises lines → Reached lines starves w → EachAfter TellsGone w.deeds }
{}

/// Each completion that a client wrote tells the reply that the device's journal gives to its key, and where a cut alone gives it the device was removed since, as is told;
/// or CANCELLED, where it was, too; or it never came, and is refused.
pub fn completions_are_answered()
    ensures { (lines : List NumberedLine) (starves : Key → Bool) (w : WorldState) → RunPremises lines → Reached lines starves w → EachAfter (AnswersSince (replies_in (declared_devices (bare_lines lines)) w.deeds)) w.deeds }
{}
