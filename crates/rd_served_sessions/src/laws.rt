//! What a client's session over a socket comes to, as a contract of a function that does nothing.

ghost use Rattle.std.specs.Prelude.{◌≡◌, ◌≢◌, ℕ, Bool, true, List, Ok};
ghost use Rattle.rd_base.specs.History.{History};
ghost use Rattle.rd_carry.specs.declared.ended.Ended.{Ended};
ghost use Rattle.rd_carry.specs.declared.ended.Ended.TheVariants as ended;
ghost use Rattle.rd_script.specs.Script.{script_of};
ghost use Rattle.rd_script.specs.declared.keyword.Mode.{Mode};
ghost use Rattle.rd_script.specs.declared.line.NumberedLine.{NumberedLine};
ghost use Rattle.rd_script.specs.declared.script.Script.{Script};
ghost use Rattle.rd_declared.specs.Declaring.{bare_lines};
ghost use Rattle.rd_sharing.specs.ServedOpening.{AreServedDevices, HadNoTrouble, ServedDeclared, ToldFolders};
ghost use Rattle.rd_workers.specs.Channels.{LinkerTold, channels_of};
ghost use Rattle.rd_workers.specs.Lines.{at_lines};
ghost use Rattle.rd_workers.specs.Served.{ServesBooks};
ghost use Rattle.rd_served_sessions.specs.Sessions.{AreServable, IsToldSession};

/// The lines of each script that was read are so.
pub fn scripts_are_servable()
    ensures { (m : Mode) (text : List ℕ) (script : Script) → script_of m text ≡ Ok script → AreServable script.lines }
{}

/// Where a session of a script's lines was served over these devices and its journals are in the books, and it didn't end for want of memory, there are deeds of the client that its bytes and its journals come from. Where no folder that
/// was closed had a fault (`calm`), the replies of the drives over folders that told their nodes are those of drives; of the others they are what their desks handed out.
pub fn sessions_are_told()
    ensures { (calm : Bool) (lines : List NumberedLine) (devices : List (ℕ × ServedDeclared)) (by : Ended) (books : List (ℕ × History)) (old new : LinkerTold) (before after : ToldFolders) → AreServable lines → by ≢ ended.Memory
        → AreServedDevices (bare_lines lines) before.opened after.opened devices → (calm ≡ true → HadNoTrouble before after)
        → (serves : ServesBooks devices (at_lines lines) (channels_of lines) by books old new before after)
        → IsToldSession calm devices lines (channels_of lines) by serves.journals.front.entries books old new }
{}
