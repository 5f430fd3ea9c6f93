//! What a host's session comes to, as contracts of functions that do nothing.

ghost use Rattle.std.specs.Prelude.{◌≢◌, ℕ, List, Contains, Option, Some};
ghost use Rattle.rd_carry.specs.declared.ended.Ended.{Ended};
ghost use Rattle.rd_carry.specs.declared.ended.Ended.TheVariants as ended;
ghost use Rattle.rd_host_channel.specs.Calls.{HostEntry};
ghost use Rattle.rd_host_session.specs.Channels.{LinkedTold};
ghost use Rattle.rd_host_session.specs.Hosted.{Hosts};
ghost use Rattle.rd_host_front.specs.HostFront.{HostFrontStep};
ghost use Rattle.rd_host_front.specs.State.{HostFrontState};
ghost use Rattle.rd_host_threads.specs.Calls.{AreHostsCalls};
ghost use Rattle.rd_host_turns.specs.Turns.{PartsAlong, TableEntry, TablePart};
ghost use Rattle.rd_turn.specs.History.{Leads};
ghost use Rattle.rd_pending.specs.declared.calls.Taken.{Taken};
ghost use Rattle.rd_runs.specs.Premises.{AreSubmittable};
ghost use Rattle.rd_script.specs.declared.line.NumberedLine.{NumberedLine};
ghost use Rattle.rd_script.specs.declared.outcome.Outcome.{Outcome};
ghost use Rattle.rd_table.specs.Histories.{handed_in};
ghost use Rattle.rd_hosted.specs.Kept.{CameOf, KeepsTable, calls_of_front, calls_of_table};

use rd_host_front::TableTurn;

/// The calls of a host's front, one after the other, make parts of its pass of the table: so what `only_quiet_calls_stand_between` of `rd_host_turns` says holds of every session.
pub fn fronts_make_parts<W: TableTurn>()
    ensures { (entries : List (HostEntry W)) (here there : HostFrontState) → AreHostsCalls entries → Leads HostFrontStep here entries there
        → (parts : List (List TablePart)) × PartsAlong here.table entries parts there.table }
{}

/// Where the lines of a script that was read were played (`scripts_ask_in_range` of `rd_host_lines`), and the session didn't end for want of memory: there are deeds of the host by which it keeps its table; on each channel
/// those messages were read and written that its front's one history has, and of requests and outcomes they have what the table's one history has. Where no thread ended a channel
/// for its peer's sake or by a fault, nothing was left to send as it ended.
pub fn hosts_keep_their_tables()
    ensures { (lines : List NumberedLine) (other : Option Ended) (told : List ((ℕ × ℕ) × Outcome)) (old new : LinkedTold) → AreSubmittable lines → other ≢ Some ended.Memory
        → (hosts : Hosts lines other told old new) → KeepsTable (calls_of_table lines other told old new hosts) (calls_of_front lines other told old new hosts) }
{}

/// Each outcome that was handed out, by whichever thread, is that of the request that was accepted under its number, by what the deeds tell: by what was heard on its channel.
pub fn outcomes_are_those_of_the_deeds<W>()
    ensures { (seen : List TableEntry) (entries : List (HostEntry W)) (number : ℕ) (taken : Taken) → (keeps : KeepsTable seen entries)
        → Contains (handed_in seen) (number, taken) → CameOf keeps.deeds number taken }
{}
