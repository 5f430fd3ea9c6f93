//! How both sides of every session of a script are joined, as contracts of functions that do nothing.

ghost use Rattle.std.specs.Prelude.{◌≡◌, ℕ, ◌+◌, ◌<◌, ◌≤◌, All, Bool, IfSome, List, Ok, Some, ◌++◌, ◌∷◌, length, map, reverse};
ghost use Rattle.rd_base.specs.declared.journal.Key.{Key};
ghost use Rattle.rd_base.specs.declared.journal.Item.{Item};
ghost use Rattle.rd_base.specs.History.{History};
ghost use Rattle.rd_base.specs.Lawful.{RunsAt};
ghost use Rattle.rd_chunk.specs.Carrier.{IsMessage};
ghost use Rattle.rd_drive.specs.Replies.{AreToldBy};
ghost use Rattle.rd_journals.specs.Reads.{cuts, reads_count};
ghost use Rattle.rd_journals.specs.Stations.{AreFit};
ghost use Rattle.rd_journals.specs.RunsMoves.{Reached};
ghost use Rattle.rd_journals.specs.RunsPremises.{RunPremises};
ghost use Rattle.rd_pending.specs.History.{AreOutcomes, Call, HandsOut};
ghost use Rattle.rd_script.specs.declared.keyword.Mode.{Mode};
ghost use Rattle.rd_script.specs.declared.line.NumberedLine.{NumberedLine};
ghost use Rattle.rd_script.specs.declared.script.Script.{Script};
ghost use Rattle.rd_script.specs.Script.{script_of};
ghost use Rattle.rd_joined.specs.Joined.{AreTied};
ghost use Rattle.rd_declared.specs.Devices.{Declared, device_cut, device_step};
ghost use Rattle.rd_deeds.specs.HostDeeds.{calls_of};
ghost use Rattle.rd_deeds.specs.Joining.{AreJoined, Joins, RunsInOrder};
ghost use Rattle.rd_declared.specs.Declaring.{bare_lines, declared_devices};
ghost use Rattle.rd_world.specs.Recording.{client_channel, client_id, request_of, written_by};
ghost use Rattle.rd_world.specs.Session.{IsOfDevice, journals_of, replies_in, world_moment};
ghost use Rattle.rd_deeds.specs.Talk.{Deed, EachAfter, journal, open_channel};
ghost use Rattle.rd_deeds.specs.Told.{AreAnswered, Replies, worn_entries};
ghost use Rattle.rd_world.specs.World.{WorldState, journals_in};

/// A device is cut off no more often than there are lines and two.
pub fn cuts_are_few()
    ensures { (lines : List NumberedLine) (starves : Key → Bool) (w : WorldState) → AreFit (declared_devices (bare_lines lines)) → Reached lines starves w → (device : ℕ) → cuts (journal device w.deeds) ≤ length lines + 2 }
{}

/// A client reads_count no more requests than there are lines and two.
pub fn reads_are_few()
    ensures { (lines : List NumberedLine) (starves : Key → Bool) (w : WorldState) → RunPremises lines → Reached lines starves w → reads_count w.deeds ≤ length lines + 2 }
{}

/// So in no run of a script a device's journal is worn.
pub fn journals_have_room()
    ensures { (m : Mode) (text : List ℕ) (script : Script) (starves : Key → Bool) (w : WorldState) → script_of m text ≡ Ok script → Reached script.lines starves w → (device : ℕ) → length (journal device w.deeds) < worn_entries }
{}

/// In every session of a script messages are carried, the host keeps its table, and the client its journals; so both sides are joined where the client tells what its
/// journals say.
pub fn sessions_are_tied()
    ensures tied { (m : Mode) (text : List ℕ) (script : Script) (starves : Key → Bool) (w : WorldState) → script_of m text ≡ Ok script → Reached script.lines starves w → AreTied client_id (replies_in (declared_devices (bare_lines script.lines)) w.deeds) w.deeds }
    ensures joined { (client : ℕ) (replies : Replies) (deeds : List Deed) → AreTied client replies deeds → AreAnswered replies deeds → AreJoined client replies deeds }
{}

/// In every session of a script, between any two events: the books hold one journal of each device, in the order of their ids; what it names are requests of that device that the
/// host wrote; its runs are at the session's moment; and its marks are those of the device's runs.
pub fn sessions_keep_journals()
    ensures each { (m : Mode) (text : List ℕ) (script : Script) (starves : Key → Bool) (w : WorldState) → script_of m text ≡ Ok script → Reached script.lines starves w → (books : List (ℕ × History)) → journals_of books ≡ journals_in w
        → journals_of books ≡ map {B = ℕ × List Item} (λ (d : ℕ × Declared). (d.0, reverse (journal d.0 w.deeds))) (declared_devices (bare_lines script.lines)) }
    ensures named { (m : Mode) (text : List ℕ) (script : Script) (starves : Key → Bool) (w : WorldState) → script_of m text ≡ Ok script → Reached script.lines starves w → (device : ℕ) → All (IsOfDevice w.deeds device) (journal device w.deeds) }
    ensures still_clock { (m : Mode) (text : List ℕ) (script : Script) (starves : Key → Bool) (w : WorldState) → script_of m text ≡ Ok script → Reached script.lines starves w → (device : ℕ) → All (RunsAt (world_moment script.lines)) (journal device w.deeds) }
    ensures marked { (m : Mode) (text : List ℕ) (script : Script) (starves : Key → Bool) (w : WorldState) → script_of m text ≡ Ok script → Reached script.lines starves w
        → All (λ (d : ℕ × Declared). AreToldBy device_step device_cut (request_of w.deeds) (d.1).state (reverse (journal d.0 w.deeds))) (declared_devices (bare_lines script.lines)) }
{}

/// So in every session of a script, whatever the client tells: what was completed before a request was written ran before it, each outcome that the host holds is what came of its request
/// by what was heard, and the host hands out what came of it. With what the client tells, all that the joining law says holds.
pub fn sessions_run_in_order()
    ensures in_order { (m : Mode) (text : List ℕ) (script : Script) (starves : Key → Bool) (w : WorldState) → script_of m text ≡ Ok script → Reached script.lines starves w → RunsInOrder w.deeds }
    ensures outcomes { (m : Mode) (text : List ℕ) (script : Script) (starves : Key → Bool) (w : WorldState) → script_of m text ≡ Ok script → Reached script.lines starves w → AreOutcomes (calls_of client_id w.deeds) }
    ensures handed_out { (m : Mode) (text : List ℕ) (script : Script) (starves : Key → Bool) (w : WorldState) → script_of m text ≡ Ok script → Reached script.lines starves w
        → (later before : List Call) (call : Call) → calls_of client_id w.deeds ≡ later ++ call ∷ before → HandsOut (calls_of client_id w.deeds) before call }
    ensures joins { (m : Mode) (text : List ℕ) (script : Script) (starves : Key → Bool) (w : WorldState) → script_of m text ≡ Ok script → Reached script.lines starves w
        → let replies = replies_in (declared_devices (bare_lines script.lines)) w.deeds in
        AreAnswered replies w.deeds → Joins client_id replies w.deeds }
{}

/// What is written in every session of a script is of a message's size, and the client reads_count and writes on the channel that is open: two fields of what a recording holds.
pub fn sessions_are_recorded()
    ensures fit { (m : Mode) (text : List ℕ) (script : Script) (starves : Key → Bool) (w : WorldState) → script_of m text ≡ Ok script → Reached script.lines starves w → All (λ deed. IfSome (written_by deed) IsMessage) w.deeds }
    ensures on_open { (m : Mode) (text : List ℕ) (script : Script) (starves : Key → Bool) (w : WorldState) → script_of m text ≡ Ok script → Reached script.lines starves w → EachAfter (λ before deed. IfSome (client_channel deed) (λ c. open_channel before ≡ Some c)) w.deeds }
{}
