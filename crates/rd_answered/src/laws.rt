//! What clients tell in every session, and that both sides are joined, as contracts of functions that do nothing.

ghost use Rattle.std.specs.Prelude.{◌≡◌, ℕ, ◌≤◌, Bool, List, Ok, length};
ghost use Rattle.rd_base.specs.declared.journal.Key.{Key};
ghost use Rattle.rd_script.specs.Script.{script_of};
ghost use Rattle.rd_script.specs.declared.keyword.Mode.{Mode};
ghost use Rattle.rd_script.specs.declared.line.NumberedLine.{NumberedLine};
ghost use Rattle.rd_script.specs.declared.script.Script.{Script};
ghost use Rattle.rd_refused.specs.RunsMoves.{Reached};
ghost use Rattle.rd_refused.specs.RunsPremises.{RunPremises};
ghost use Rattle.rd_refused.specs.Refused.{RefusesDirectly};
ghost use Rattle.rd_deeds.specs.Joining.{AreJoined, Joins};
ghost use Rattle.rd_declared.specs.Declaring.{bare_lines, declared_devices};
ghost use Rattle.rd_world.specs.Recording.{client_id};
ghost use Rattle.rd_world.specs.Session.{replies_in};
ghost use Rattle.rd_deeds.specs.Talk.{EachAfter};
ghost use Rattle.rd_deeds.specs.Told.{AreAnswered};
ghost use Rattle.rd_world.specs.World.{WorldState};
ghost use Rattle.rd_answered.specs.Refusing.{DeclareInRoom, IsLiveIn, IsSaying};

/// Between any two events what a client said of its devices is what its marks say, and a device that the host was told of last has a live station.
pub fn clients_say_who_is_there()
    ensures saying { (lines : List NumberedLine) (starves : Key → Bool) (w : WorldState) → RunPremises lines → DeclareInRoom lines → length lines ≤ 1000000 → Reached lines starves w → IsSaying w }
    ensures live { (lines : List NumberedLine) (starves : Key → Bool) (w : WorldState) → RunPremises lines → DeclareInRoom lines → length lines ≤ 1000000 → Reached lines starves w → IsLiveIn w }
{}

/// So each refusal of a request that never came is the one that is called for.
pub fn refusals_are_called_for()
    ensures { (lines : List NumberedLine) (starves : Key → Bool) (w : WorldState) → RunPremises lines → DeclareInRoom lines → length lines ≤ 1000000 → Reached lines starves w → EachAfter RefusesDirectly w.deeds }
{}

/// What a client tells is what its journals say: the completions of keys that came in their order, the others in the order of reading, and each the answer to its own request.
pub fn clients_answer()
    ensures { (lines : List NumberedLine) (starves : Key → Bool) (w : WorldState) → RunPremises lines → DeclareInRoom lines → length lines ≤ 1000000 → Reached lines starves w
        → AreAnswered (replies_in (declared_devices (bare_lines lines)) w.deeds) w.deeds }
{}

/// So both sides are joined, and what the joining law says holds.
pub fn sessions_are_joined()
    ensures joined { (lines : List NumberedLine) (starves : Key → Bool) (w : WorldState) → RunPremises lines → DeclareInRoom lines → length lines ≤ 1000000 → Reached lines starves w
        → AreJoined client_id (replies_in (declared_devices (bare_lines lines)) w.deeds) w.deeds }
    ensures joins { (lines : List NumberedLine) (starves : Key → Bool) (w : WorldState) → RunPremises lines → DeclareInRoom lines → length lines ≤ 1000000 → Reached lines starves w
        → Joins client_id (replies_in (declared_devices (bare_lines lines)) w.deeds) w.deeds }
{}

/// The lines of every script are so: the numbers of the devices that they declare have room in their fields.
pub fn scripts_declare_writable()
    ensures { (m : Mode) (text : List ℕ) (script : Script) → script_of m text ≡ Ok script → DeclareInRoom script.lines }
{}

/// So it is in every session of a script, between any two events.
pub fn scripts_are_joined()
    ensures answered { (m : Mode) (text : List ℕ) (script : Script) (starves : Key → Bool) (w : WorldState) → script_of m text ≡ Ok script → Reached script.lines starves w
        → AreAnswered (replies_in (declared_devices (bare_lines script.lines)) w.deeds) w.deeds }
    ensures joined { (m : Mode) (text : List ℕ) (script : Script) (starves : Key → Bool) (w : WorldState) → script_of m text ≡ Ok script → Reached script.lines starves w
        → AreJoined client_id (replies_in (declared_devices (bare_lines script.lines)) w.deeds) w.deeds }
    ensures joins { (m : Mode) (text : List ℕ) (script : Script) (starves : Key → Bool) (w : WorldState) → script_of m text ≡ Ok script → Reached script.lines starves w
        → Joins client_id (replies_in (declared_devices (bare_lines script.lines)) w.deeds) w.deeds }
{}
