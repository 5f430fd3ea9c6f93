//! What holds of the order of messages in every run, as contracts of functions that do nothing.

ghost use Rattle.std.specs.Prelude.{◌≡◌, ℕ, Bool, List, Ok, Some, reverse};
ghost use Rattle.std.specs.List.{AllByRecursion};
ghost use Rattle.rd_base.specs.declared.journal.Key.{Key};
ghost use Rattle.rd_client.specs.Core.{ClientDevice};
ghost use Rattle.rd_client.specs.Order.{ClientOrder};
ghost use Rattle.rd_host.specs.Order.{HostOrder};
ghost use Rattle.rd_pending.specs.History.{lives_before};
ghost use Rattle.rd_controls.specs.RunsMoves.{Reached};
ghost use Rattle.rd_controls.specs.RunsPremises.{RunPremises};
ghost use Rattle.rd_script.specs.Script.{script_of};
ghost use Rattle.rd_script.specs.declared.keyword.Mode.{Mode};
ghost use Rattle.rd_script.specs.declared.line.NumberedLine.{NumberedLine};
ghost use Rattle.rd_script.specs.declared.script.Script.{Script};
ghost use Rattle.rd_deeds.specs.HostDeeds.{calls_of};
ghost use Rattle.rd_declared.specs.Declaring.{bare_lines, declared_devices};
ghost use Rattle.rd_world.specs.Recording.{IsRecorded, announced_of, client_id, is_gone_at, recording_of_deeds};
ghost use Rattle.rd_world.specs.Run.{WorldRun};
ghost use Rattle.rd_deeds.specs.Talk.{client_moves, host_moves, is_removed, open_channel};
ghost use Rattle.rd_world.specs.World.{WorldState};
ghost use Rattle.rd_orders.specs.Orders.{ClientStandsIn, DeclaresWritable, HostStandsIn, IsFine};

/// What either end read and wrote on each channel is in order: `host_order` and `client_order` of a recording.
pub fn sessions_are_in_order()
    ensures host { (lines : List NumberedLine) (starves : Key → Bool) (w : WorldState) → RunPremises lines → DeclaresWritable lines → Reached lines starves w → (c : ℕ)
        → HostOrder client_id (lives_before c (calls_of client_id w.deeds)) (reverse (host_moves c w.deeds)) }
    ensures client { (lines : List NumberedLine) (starves : Key → Bool) (w : WorldState) → RunPremises lines → DeclaresWritable lines → Reached lines starves w → (c : ℕ)
        → ClientOrder (announced_of (declared_devices (bare_lines lines))) (is_gone_at c w.deeds) (reverse (client_moves c w.deeds)) }
{}

/// On the open channel nothing was wrong with any message, and both ends stand where their messages lead.
pub fn ends_stand()
    ensures fine { (lines : List NumberedLine) (starves : Key → Bool) (w : WorldState) → RunPremises lines → DeclaresWritable lines → Reached lines starves w → open_channel w.deeds ≡ Some w.channels → IsFine w }
    ensures client { (lines : List NumberedLine) (starves : Key → Bool) (w : WorldState) → RunPremises lines → DeclaresWritable lines → Reached lines starves w → open_channel w.deeds ≡ Some w.channels
        → ClientStandsIn (declared_devices (bare_lines lines)) w }
    ensures host { (lines : List NumberedLine) (starves : Key → Bool) (w : WorldState) → RunPremises lines → DeclaresWritable lines → Reached lines starves w → open_channel w.deeds ≡ Some w.channels → HostStandsIn w }
{}

/// A client has its devices marked as removed where they were, and not added since.
pub fn removals_are_marked()
    ensures { (lines : List NumberedLine) (starves : Key → Bool) (w : WorldState) → Reached lines starves w → AllByRecursion (λ (d : ClientDevice). d.removed ≡ is_removed (d.announce).id w.deeds) (w.client).devices }
{}

/// What a script that was read declares can be written: so both of every session of a script.
pub fn scripts_are_writable()
    ensures { (m : Mode) (text : List ℕ) (script : Script) → script_of m text ≡ Ok script → DeclaresWritable script.lines }
{}

/// What was done is recorded, at every point: so is what is done in a session of a script.
pub fn runs_are_recorded()
    ensures points { (lines : List NumberedLine) (starves : Key → Bool) (w : WorldState) → RunPremises lines → DeclaresWritable lines → Reached lines starves w
        → IsRecorded (declared_devices (bare_lines lines)) (recording_of_deeds w.deeds) w.deeds }
    ensures sessions { (m : Mode) (text : List ℕ) (script : Script) (w : WorldState) → script_of m text ≡ Ok script → WorldRun script.lines w
        → IsRecorded (declared_devices (bare_lines script.lines)) (recording_of_deeds w.deeds) w.deeds }
{}
