//! That the lines which a program plays are as statements on every run take them, as contracts of functions that do nothing.

ghost use Rattle.std.specs.Prelude.{◌≡◌, ℕ, ◌≤◌, List, Ok};
ghost use Rattle.rd_loads.specs.AllPremises.{MeetPremises};
ghost use Rattle.rd_script.specs.Load.{load_script};
ghost use Rattle.rd_script.specs.Script.{script_of};
ghost use Rattle.rd_script.specs.declared.keyword.Mode.TheVariants as Mode;
ghost use Rattle.rd_script.specs.declared.script.Script.{Script};

/// The lines of every script that was read for both sides meet them.
pub fn scripts_meet_all_premises()
    ensures { (text : List ℕ) (script : Script) → script_of Mode.Both text ≡ Ok script → MeetPremises script.lines }
{}

/// So do the lines of each load.
pub fn loads_meet_all_premises()
    ensures { (count : ℕ) → count ≤ 1000 → MeetPremises (load_script count).lines }
{}
