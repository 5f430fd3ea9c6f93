//! What was left to be said when a channel ended, as contracts of functions that do nothing.

ghost use Rattle.std.specs.Prelude.{◌≡◌, ℕ, ◌≤◌, Bool, true, List, [], Ok, Some, length, map};
ghost use Rattle.rd_acted.specs.Acted.{control_by_deeds};
ghost use Rattle.rd_acted.specs.AnsweredRefusing.{DeclareInRoom};
ghost use Rattle.rd_base.specs.declared.journal.Key.{Key};
ghost use Rattle.rd_orders.specs.Orders.{DeclaresWritable};
ghost use Rattle.rd_acted.specs.RunsMoves.{Reached};
ghost use Rattle.rd_acted.specs.RunsPremises.{RunPremises};
ghost use Rattle.rd_said.specs.Rest.{deeds_then};
ghost use Rattle.rd_script.specs.Script.{script_of};
ghost use Rattle.rd_script.specs.declared.keyword.Mode.{Mode};
ghost use Rattle.rd_script.specs.declared.line.NumberedLine.{NumberedLine};
ghost use Rattle.rd_script.specs.declared.script.Script.{Script};
ghost use Rattle.rd_declared.specs.Devices.{Declared};
ghost use Rattle.rd_declared.specs.Declaring.{bare_lines, declared_devices};
ghost use Rattle.rd_world.specs.Session.{IsLeftOver, replies_in};
ghost use Rattle.rd_deeds.specs.Talk.{Deed, has_ended, open_channel};
ghost use Rattle.rd_world.specs.World.{WorldState};

/// Of each channel that ended something was left to be said, maybe nothing, with which no request there was passed over but for the last, and by which no more was told of devices than is due by what was done.
pub fn ended_channels_are_left_so()
    ensures { (lines : List NumberedLine) (starves : Key → Bool) (w : WorldState) → RunPremises lines → DeclareInRoom lines → DeclaresWritable lines → length lines ≤ 1000000 → Reached lines starves w
        → let devices = declared_devices (bare_lines lines) in
        (c : ℕ) → has_ended c w.deeds ≡ true → (rest : List Deed) × IsLeftOver devices (control_by_deeds (map (λ (d : ℕ × Declared). d.0) devices) w.deeds).told (replies_in devices w.deeds) c w.deeds rest }
{}

/// On the channel that is open what the client has to send is what would be left so if the channel ended.
pub fn what_waits_is_told()
    ensures { (lines : List NumberedLine) (starves : Key → Bool) (w : WorldState) → RunPremises lines → DeclareInRoom lines → DeclaresWritable lines → length lines ≤ 1000000 → Reached lines starves w
        → let devices = declared_devices (bare_lines lines) in
        (c : ℕ) → open_channel w.deeds ≡ Some c → IsLeftOver devices (control_by_deeds (map (λ (d : ℕ × Declared). d.0) devices) w.deeds).told (replies_in devices w.deeds) c w.deeds (deeds_then c w.client.core.outbox []) }
{}

/// What was left of channels that ended is so in every session of a script, between any two events; nothing is assumed of it but that the script was read.
pub fn scripts_leave_channels_so()
    ensures { (m : Mode) (text : List ℕ) (script : Script) (starves : Key → Bool) (w : WorldState) → script_of m text ≡ Ok script → Reached script.lines starves w
        → let devices = declared_devices (bare_lines script.lines) in
        (c : ℕ) → has_ended c w.deeds ≡ true → (rest : List Deed) × IsLeftOver devices (control_by_deeds (map (λ (d : ℕ × Declared). d.0) devices) w.deeds).told (replies_in devices w.deeds) c w.deeds rest }
{}
