//! What a session has done where nothing can happen by itself, as contracts of functions that do nothing.

ghost use Rattle.std.specs.Prelude.{◌≡◌, ◌⊎◌, ℕ, ◌≤◌, ◌&&◌, if◌then◌else◌, [], Bool, IfSome, List, None, Ok, Some, length, map};
ghost use Rattle.rd_base.specs.declared.journal.Key.{Key};
ghost use Rattle.rd_script.specs.declared.line.NumberedLine.{NumberedLine};
ghost use Rattle.rd_script.specs.Script.{script_of};
ghost use Rattle.rd_script.specs.declared.keyword.Mode.TheVariants as Mode;
ghost use Rattle.rd_script.specs.declared.script.Script.{Script};
ghost use Rattle.rd_answered.specs.RunsMoves.{Reached};
ghost use Rattle.rd_answered.specs.RunsPremises.{RunPremises};
ghost use Rattle.rd_station.specs.Station.{StationState};
ghost use Rattle.rd_world.specs.Acts.{control_by, left_open, some_wait, waiting_keys};
ghost use Rattle.rd_declared.specs.Declaring.{bare_lines, declared_devices};
ghost use Rattle.rd_world.specs.Run.{Most, WorldRun, choices, run_of, some_left};
ghost use Rattle.rd_world.specs.Session.{IsStill};
ghost use Rattle.rd_deeds.specs.Talk.{Has, answered, asked, open_channel};
ghost use Rattle.rd_world.specs.World.{WorldState, marks_of, station_at};
ghost use Rattle.rd_declared.specs.declared.device.SessionDevice.{SessionDevice};
ghost use Rattle.rd_answered.specs.Refusing.{DeclareInRoom};
ghost use Rattle.rd_answered.specs.DirectsTurns.{InTurn};
ghost use Rattle.rd_controls.specs.Controls.{AreOrderedLines, DoAsSaid};
ghost use Rattle.rd_world.specs.Control.{Control};
ghost use Rattle.rd_declared.specs.Devices.{Declared};
ghost use Rattle.rd_world.specs.Events.{is_channel_open};
ghost use Rattle.rd_rest.specs.Ending.{EndsAtRest, IsToldAll};
ghost use Rattle.rd_rest.specs.Rest.{AreInHands, AreLeftParked, AreOver, IsAtRest};

/// Each job that a station gave to a hand is in one. So where nothing can happen by itself what a station holds waits inside its device.
pub fn hands_hold_what_is_taken()
    ensures held { (lines : List NumberedLine) (starves : Key → Bool) (w : WorldState) → Reached lines starves w → AreInHands w }
    ensures rest { (lines : List NumberedLine) (starves : Key → Bool) (w : WorldState) → RunPremises lines → Reached lines starves w → choices w ≡ []
        → (d : ℕ) (s : StationState SessionDevice) → station_at w d ≡ Some s → IsAtRest s }
{}

/// Where a device was cut off last since a channel ended, its journal names keys of earlier channels only.
pub fn dropped_journals_are_over()
    ensures { (lines : List NumberedLine) (starves : Key → Bool) (w : WorldState) → RunPremises lines → Reached lines starves w → AreOver w }
{}

/// Each request that never came to its station is in line to be answered directly.
pub fn requests_are_in_turn()
    ensures { (lines : List NumberedLine) (starves : Key → Bool) (w : WorldState) → RunPremises lines → DeclareInRoom lines → length lines ≤ 1000000 → Reached lines starves w → InTurn w }
{}

/// Where nothing can happen by itself, each request that was read on the open channel was answered, or waits in its device, unless something is wrong at the client.
pub fn requests_are_completed()
    ensures { (lines : List NumberedLine) (starves : Key → Bool) (w : WorldState) → RunPremises lines → DeclareInRoom lines → length lines ≤ 1000000 → Reached lines starves w → choices w ≡ []
        → open_channel w.deeds ≡ Some w.channels → w.client.core.fault ≡ None → (device id index : ℕ) → Has index (asked w.channels device id w.deeds)
        → Has index (answered w.channels device id w.deeds) ⊎ Has (record { channel = w.channels; index = index }) (waiting_keys (declared_devices (bare_lines lines)) w.deeds) }
{}

/// What waits inside a device ran, and its journal says that it was left waiting.
pub fn waiting_requests_were_left()
    ensures parked { (lines : List NumberedLine) (starves : Key → Bool) (w : WorldState) → Reached lines starves w → AreLeftParked w }
{}

/// Where nothing can happen by itself, the journals leave a request of the open channel waiting just where one waits in a device.
pub fn what_is_left_waits()
    ensures { (lines : List NumberedLine) (starves : Key → Bool) (w : WorldState) → RunPremises lines → Reached lines starves w → choices w ≡ [] → open_channel w.deeds ≡ Some w.channels
        → some_left w ≡ some_wait (declared_devices (bare_lines lines)) w.deeds w.channels }
{}

/// Where nothing can happen by itself no job is kept back.
pub fn none_is_kept_back()
    ensures { (lines : List NumberedLine) (starves : Key → Bool) (w : WorldState) → RunPremises lines → Reached lines starves w → choices w ≡ [] → w.kept ≡ None }
{}

/// After the last line of a run nothing can happen by itself at some world; and then the run ends, or a channel on which a request waits ends, and no application is given anything more.
pub fn runs_end_at_rest()
    ensures { (lines : List NumberedLine) (starves : Key → Bool) (most : Most) (w : WorldState) → AreOrderedLines (map (λ (e : ℕ × Declared). e.0) (declared_devices (bare_lines lines))) lines → RunPremises lines
        → run_of most starves lines ≡ Some w → EndsAtRest lines starves (control_by (declared_devices (bare_lines lines)) lines) w }
{}

/// The channel that is left open after the last line, by the deeds at a run's end, is the one on which the journals left a request waiting when nothing more could happen by itself.
pub fn left_channel_is_open()
    ensures { (lines : List NumberedLine) (starves : Key → Bool) (said : Control) (w : WorldState) → RunPremises lines → (ends : EndsAtRest lines starves said w)
        → left_open (declared_devices (bare_lines lines)) w.deeds said ≡ (if is_channel_open ends.last && some_left ends.last then said.current else None) }
{}

/// Where nothing can happen by itself the open channel is still, if all that was accepted was sent, and all was told and replied to.
pub fn rests_are_still()
    ensures { (lines : List NumberedLine) (starves : Key → Bool) (control : Control) (w : WorldState) → RunPremises lines → DeclareInRoom lines → length lines ≤ 1000000 → Reached lines starves w → choices w ≡ []
        → open_channel w.deeds ≡ Some w.channels → w.client.core.fault ≡ None → IsToldAll control w.deeds w.channels → IsStill (declared_devices (bare_lines lines)) control w.deeds w.channels }
{}

/// So it is at a run's end, of the channel that is left open after the last line and ends then.
pub fn left_channels_are_still()
    ensures { (lines : List NumberedLine) (starves : Key → Bool) (said : Control) (w : WorldState) → RunPremises lines → (ends : EndsAtRest lines starves said w)
        → (open_channel ends.last.deeds ≡ Some ends.last.channels → IsStill (declared_devices (bare_lines lines)) said ends.last.deeds ends.last.channels)
        → IfSome (left_open (declared_devices (bare_lines lines)) w.deeds said) (IsStill (declared_devices (bare_lines lines)) said w.deeds) }
{}

/// The channel that ended after everything is the one that the lines leave open, where by the deeds at the run's end a request waits on it.
pub fn left_channel_is_said()
    ensures { (lines : List NumberedLine) (starves : Key → Bool) (w : WorldState) → RunPremises lines → EndsAtRest lines starves (control_by (declared_devices (bare_lines lines)) lines) w
        → (does : DoAsSaid (map (λ (d : ℕ × Declared). d.0) (declared_devices (bare_lines lines))) lines starves w)
        → left_open (declared_devices (bare_lines lines)) w.deeds (control_by (declared_devices (bare_lines lines)) lines) ≡ does.left }
{}

/// So it is in every session of a script: it comes to rest after its last line, and then ends, or its open channel ends, on which the journals leave a request waiting.
pub fn sessions_end_at_rest()
    ensures { (text : List ℕ) (script : Script) (w : WorldState) → script_of Mode.Both text ≡ Ok script → WorldRun script.lines w
        → EndsAtRest script.lines (marks_of w) (control_by (declared_devices (bare_lines script.lines)) script.lines) w }
{}
