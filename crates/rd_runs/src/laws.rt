//! What holds of each world that a script's lines come to, as contracts of functions that do nothing.

ghost use Rattle.std.specs.Prelude.{◌≡◌, ◌⊎◌, ℕ, ◌+◌, ◌≤◌, [], All, Bool, IfSome, List, None, Ok, Some, length};
ghost use Rattle.rd_base.specs.declared.journal.Key.{Key};
ghost use Rattle.rd_chunk.specs.Carrier.{IsMessage};
ghost use Rattle.rd_pending.specs.declared.calls.Handle.{Handle};
ghost use Rattle.rd_script.specs.declared.keyword.Mode.{Mode};
ghost use Rattle.rd_script.specs.declared.line.NumberedLine.{NumberedLine};
ghost use Rattle.rd_script.specs.declared.script.Script.{Script};
ghost use Rattle.rd_script.specs.Script.{script_of};
ghost use Rattle.rd_runs.specs.Counts.{accepted_count};
ghost use Rattle.rd_runs.specs.Moves.{Reached};
ghost use Rattle.rd_runs.specs.Premises.{IsHandleInRange, RunPremises};
ghost use Rattle.rd_deeds.specs.Host.{next_message};
ghost use Rattle.rd_deeds.specs.HostDeeds.{MayDo, side_of};
ghost use Rattle.rd_deeds.specs.Joining.{IsCarried};
ghost use Rattle.rd_world.specs.Recording.{client_channel, client_id, written_by};
ghost use Rattle.rd_world.specs.Run.{Most, WorldRun, choices, run_of};
ghost use Rattle.rd_deeds.specs.Talk.{AtEachPoint, EachAfter, client_read, client_wrote, host_read, host_wrote, open_channel};
ghost use Rattle.rd_world.specs.World.{WorldState, application_at, handle_named, marks_of};

/// A run is moves, one after the other: events that can happen, lines that are queued, lines that did nothing, and draws. Where it ends nothing more can
/// happen by itself.
pub fn runs_are_moves()
    ensures steps { (most : Most) (starves : Key → Bool) (lines : List NumberedLine) (w : WorldState) → run_of most starves lines ≡ Some w → Reached lines starves w }
    ensures session { (lines : List NumberedLine) (w : WorldState) → WorldRun lines w → Reached lines (marks_of w) w }
    ensures rest { (most : Most) (starves : Key → Bool) (lines : List NumberedLine) (w : WorldState) → run_of most starves lines ≡ Some w → choices w ≡ [] }
{}

/// What was done leads to the host's side, which might do each deed: it begins a channel above those before it, accepts what may be submitted, hands out what
/// is known, sends what is next, and tells, writes and reads while a channel is open. The channel that is open is the last that began; and a request has room for the
/// numbers of each handle.
pub fn runs_keep_hosts()
    ensures side { (lines : List NumberedLine) (starves : Key → Bool) → RunPremises lines → (w : WorldState) → Reached lines starves w → side_of client_id w.deeds ≡ w.side }
    ensures may { (lines : List NumberedLine) (starves : Key → Bool) → RunPremises lines → (w : WorldState) → Reached lines starves w → EachAfter (λ before deed. MayDo (side_of client_id before) deed) w.deeds }
    ensures channel { (lines : List NumberedLine) (starves : Key → Bool) → RunPremises lines → (w : WorldState) → Reached lines starves w → (w.side.table.channel ≡ open_channel w.deeds) × ((open_channel w.deeds ≡ None) ⊎ (open_channel w.deeds ≡ Some w.channels)) }
    ensures handles { (lines : List NumberedLine) (starves : Key → Bool) → RunPremises lines → (w : WorldState) → Reached lines starves w → (a : ℕ) (name : List ℕ) (h : Handle) → handle_named (application_at w a) name ≡ Some h → IsHandleInRange h }
{}

/// What each end has read is what the other began to write, at each point and on each channel, however the bytes between them were cut; all that was written is of a
/// message's size; and a client reads and writes on the channel that is open.
pub fn runs_carry()
    ensures carried { (lines : List NumberedLine) (starves : Key → Bool) → RunPremises lines → (w : WorldState) → Reached lines starves w → AtEachPoint IsCarried w.deeds }
    ensures fit { (lines : List NumberedLine) (starves : Key → Bool) → RunPremises lines → (w : WorldState) → Reached lines starves w → All (λ deed. IfSome (written_by deed) IsMessage) w.deeds }
    ensures on_open { (lines : List NumberedLine) (starves : Key → Bool) → RunPremises lines → (w : WorldState) → Reached lines starves w → EachAfter (λ before deed. IfSome (client_channel deed) (λ c. open_channel before ≡ Some c)) w.deeds }
{}

/// Where a run ends on a channel that is still open, neither end has something to send, the host has read all that the client wrote there, and the client all that the
/// host wrote, unless it keeps a job back.
pub fn runs_come_to_rest()
    ensures sent { (most : Most) (starves : Key → Bool) (lines : List NumberedLine) (w : WorldState) → run_of most starves lines ≡ Some w → (next_message w.side ≡ None) × (w.client.core.outbox ≡ []) }
    ensures heard { (most : Most) (starves : Key → Bool) (lines : List NumberedLine) (w : WorldState) → RunPremises lines → run_of most starves lines ≡ Some w → open_channel w.deeds ≡ Some w.channels → host_read w.channels w.deeds ≡ client_wrote w.channels w.deeds }
    ensures read { (most : Most) (starves : Key → Bool) (lines : List NumberedLine) (w : WorldState) → RunPremises lines → run_of most starves lines ≡ Some w → open_channel w.deeds ≡ Some w.channels → w.kept ≡ None → client_read w.channels w.deeds ≡ host_wrote w.channels w.deeds }
{}

/// A run has no more channels, and its host accepts no more requests, than there are lines and two.
pub fn runs_count_lines()
    ensures channels { (lines : List NumberedLine) (starves : Key → Bool) (w : WorldState) → Reached lines starves w → w.channels ≤ length lines + 2 }
    ensures requests { (lines : List NumberedLine) (starves : Key → Bool) (w : WorldState) → Reached lines starves w → accepted_count w.deeds ≤ length lines + 2 }
{}

/// The lines of every script are as the statements above take them, so these hold of each session of a script.
pub fn scripts_meet_premises()
    ensures { (m : Mode) (text : List ℕ) (script : Script) → script_of m text ≡ Ok script → RunPremises script.lines }
{}
