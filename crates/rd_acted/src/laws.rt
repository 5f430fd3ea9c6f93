//! What the control lines of a script did, as contracts of functions that do nothing.

ghost use Rattle.std.specs.Prelude.{◌≡◌, ℕ, ◌≤◌, All, Bool, true, false, List, Ok, Option, Some, [], ◌∷◌, ◌++◌, filter_map, length, map, reverse};
ghost use Rattle.std.specs.List.{range_with_len};
ghost use Rattle.std.specs.Option.{option_map_or};
ghost use Rattle.rd_acted.specs.Acted.{AreReadWell, EndsTold, GoWell, HaveActed, SayFirst, control_after, control_by_deeds, due_on, notices_due, there_of, without_idle};
ghost use Rattle.rd_acted.specs.Waiting.{notices_waiting, tellings_waiting};
ghost use Rattle.rd_base.specs.declared.journal.Key.{Key};
ghost use Rattle.rd_client.specs.Order.{ClientOrder, is_client_ready};
ghost use Rattle.rd_rest.specs.ControlsControls.{AreOrderedLines, DoAsSaid, control_with};
ghost use Rattle.rd_printer.specs.Notice.{notice_bytes};
ghost use Rattle.rd_rest.specs.RunsMoves.{Reached};
ghost use Rattle.rd_rest.specs.RunsPremises.{RunPremises};
ghost use Rattle.rd_script.specs.Script.{script_of};
ghost use Rattle.rd_script.specs.declared.keyword.Mode.TheVariants as Mode;
ghost use Rattle.rd_script.specs.declared.script.Script.{Script};
ghost use Rattle.rd_script.specs.declared.line.NumberedLine.{NumberedLine};
ghost use Rattle.rd_world.specs.Acts.{AreActed, AreSaid, IsCutThere, IsDone, IsToldInTime, Opens, Tells, act_by, cache_after, cause_in, control_by, is_settled_host, left_open, notices_on, of_channel, tellings_on};
ghost use Rattle.rd_world.specs.Control.{control_of, lists};
ghost use Rattle.rd_declared.specs.Devices.{Declared};
ghost use Rattle.rd_declared.specs.Declaring.{bare_lines, declared_devices};
ghost use Rattle.rd_world.specs.Recording.{announced_of, host_stand, is_gone_at};
ghost use Rattle.rd_world.specs.Run.{Most, WorldRun, choices, run_of};
ghost use Rattle.rd_deeds.specs.Talk.{AtEachPoint, Deed, EachAfter, client_moves, has_ended, journal, open_channel};
ghost use Rattle.rd_world.specs.World.{WorldState};

/// What control lines do is a function of their acts, but for which lines do nothing: so is what a channel's end after everything adds. What is told on a channel, of devices and of
/// printers, is what is due there by what was done.
pub fn control_lines_are_by_acts()
    ensures acts { (devices : List ℕ) (lines : List NumberedLine) (left : Option ℕ) → without_idle (control_with left (control_of devices lines)) ≡ control_after devices (control_with left (control_of devices lines)).acts }
    ensures deeds { (devices : List ℕ) (deeds : List Deed) → control_after devices (filter_map act_by (reverse deeds)) ≡ control_by_deeds devices deeds }
    ensures told { (devices : List ℕ) (c : ℕ) (deeds : List Deed) → of_channel c (control_by_deeds devices deeds).told ≡ due_on devices c deeds }
    ensures notices { (devices : List ℕ) (c : ℕ) (deeds : List Deed) → of_channel c (control_by_deeds devices deeds).notices ≡ notices_due c deeds }
{}

/// Where nothing that a client read was wrong, it keeps for printers what it read of them.
pub fn caches_keep_what_is_read()
    ensures { (lines : List NumberedLine) (starves : Key → Bool) (w : WorldState) → RunPremises lines → Reached lines starves w → AreReadWell w.deeds → w.cache ≡ cache_after w.deeds }
{}

/// What a client told of its devices on a channel says what was due there first, and no more is told than is due. On the open channel that and what waits to be sent say all that is due, once the client is ready; before
/// it told nothing, and only the first list is due.
pub fn runs_tell_in_time()
    ensures told { (lines : List NumberedLine) (starves : Key → Bool) (w : WorldState) → RunPremises lines → Reached lines starves w → AreReadWell w.deeds → (c : ℕ)
        → let devices = declared_devices (bare_lines lines) in
        SayFirst (Tells devices w.deeds c) (tellings_on c w.deeds) (due_on (map (λ (d : ℕ × Declared). d.0) devices) c w.deeds) }
    ensures waiting { (lines : List NumberedLine) (starves : Key → Bool) (w : WorldState) → RunPremises lines → Reached lines starves w → AreReadWell w.deeds → (c : ℕ) → open_channel w.deeds ≡ Some c → is_client_ready w.client.core.shake ≡ true
        → let devices = declared_devices (bare_lines lines) in
        let due = due_on (map (λ (d : ℕ × Declared). d.0) devices) c w.deeds in
        SayFirst (Tells devices w.deeds c) (tellings_on c w.deeds ++ tellings_waiting w.client.core.outbox) due × (length (tellings_on c w.deeds ++ tellings_waiting w.client.core.outbox) ≡ length due) }
    ensures unready { (lines : List NumberedLine) (starves : Key → Bool) (w : WorldState) → RunPremises lines → Reached lines starves w → AreReadWell w.deeds → (c : ℕ) → open_channel w.deeds ≡ Some c → is_client_ready w.client.core.shake ≡ false
        → let ids = map (λ (d : ℕ × Declared). d.0) (declared_devices (bare_lines lines)) in
        (tellings_on c w.deeds ≡ []) × (due_on ids c w.deeds ≡ lists (there_of ids w.deeds) ∷ []) }
    ensures in_time { (lines : List NumberedLine) (starves : Key → Bool) (w : WorldState) → RunPremises lines → Reached lines starves w → AreReadWell w.deeds → AtEachPoint IsToldInTime w.deeds }
{}

/// What the host told of printers on a channel are the notices that were due there first; on the open channel those and what waits to be sent are all.
pub fn runs_tell_of_printers()
    ensures told { (lines : List NumberedLine) (starves : Key → Bool) (w : WorldState) → RunPremises lines → Reached lines starves w → (c : ℕ) → SayFirst (λ n message. message ≡ notice_bytes n) (notices_on c w.deeds) (notices_due c w.deeds) }
    ensures waiting { (lines : List NumberedLine) (starves : Key → Bool) (w : WorldState) → RunPremises lines → Reached lines starves w → (c : ℕ) → open_channel w.deeds ≡ Some c
        → SayFirst (λ n message. message ≡ notice_bytes n) (notices_on c w.deeds ++ notices_waiting w.side.core.core.outbox) (notices_due c w.deeds) × (length (notices_on c w.deeds ++ notices_waiting w.side.core.core.outbox) ≡ length (notices_due c w.deeds)) }
{}

/// A device is cut off as it is removed, and those that are there as their channel ends, where channels end only after their devices were told of; and its cuts are those that follow from what was done.
pub fn runs_cut_devices()
    ensures there { (lines : List NumberedLine) (starves : Key → Bool) (w : WorldState) → RunPremises lines → Reached lines starves w → GoWell w.deeds → EachAfter (IsCutThere (declared_devices (bare_lines lines))) w.deeds }
    ensures all { (lines : List NumberedLine) (starves : Key → Bool) (w : WorldState) → RunPremises lines → Reached lines starves w → GoWell w.deeds → IsDone w.deeds }
    ensures cuts { (lines : List NumberedLine) (starves : Key → Bool) (w : WorldState) → RunPremises lines → Reached lines starves w → GoWell w.deeds → (device : ℕ)
        → filter_map cause_in (reverse (journal device w.deeds)) ≡ of_channel device (control_by_deeds (map (λ (d : ℕ × Declared). d.0) (declared_devices (bare_lines lines))) w.deeds).cuts }
{}

/// So in every run of so few lines the control lines did what they say: what was told of devices and of printers is what they told, and not before, and devices were cut where they say.
pub fn runs_act()
    ensures { (lines : List NumberedLine) (starves : Key → Bool) (most : Most) (w : WorldState)
        → let devices = declared_devices (bare_lines lines) in
        let ids = map (λ (d : ℕ × Declared). d.0) devices in
        RunPremises lines → length lines ≤ 1000000 → AreOrderedLines ids lines → run_of most starves lines ≡ Some w → AreReadWell w.deeds → EachAfter EndsTold w.deeds
        → HaveActed devices lines w.idle w.deeds }
{}

/// Where a client's moves are in order on each channel, nothing that it read was wrong.
pub fn orders_read_well()
    ensures { (devices : List (ℕ × Declared)) (deeds : List Deed) → ((c : ℕ) → ClientOrder (announced_of devices) (is_gone_at c deeds) (reverse (client_moves c deeds))) → AreReadWell deeds }
{}

/// Where each channel that began opened, a channel ends only where something was told of devices on it. How many channels began follows from what was done.
pub fn channels_end_told()
    ensures told { (lines : List NumberedLine) (starves : Key → Bool) (w : WorldState) → RunPremises lines → Reached lines starves w → AreReadWell w.deeds
        → ((c : ℕ) → 1 ≤ c → c ≤ w.channels → Opens (declared_devices (bare_lines lines)) w.deeds c) → EachAfter EndsTold w.deeds }
    ensures channels { (lines : List NumberedLine) (starves : Key → Bool) (w : WorldState) → RunPremises lines → Reached lines starves w → AreReadWell w.deeds → (ids : List ℕ) → (control_by_deeds ids w.deeds).channels ≡ w.channels }
{}

/// Where nothing can happen by itself, and the client is ready on the channel that is open, all that is due is told on each channel that didn't end, and on each that did a beginning.
pub fn rests_tell_all()
    ensures told { (lines : List NumberedLine) (starves : Key → Bool) (w : WorldState) → RunPremises lines → Reached lines starves w → choices w ≡ [] → AreReadWell w.deeds
        → ((c : ℕ) → open_channel w.deeds ≡ Some c → is_client_ready w.client.core.shake ≡ true) → (c : ℕ)
        → let devices = declared_devices (bare_lines lines) in
        AreSaid (Tells devices w.deeds c) (due_on (map (λ (d : ℕ × Declared). d.0) devices) c w.deeds) (tellings_on c w.deeds) (has_ended c w.deeds) }
    ensures notices { (lines : List NumberedLine) (starves : Key → Bool) (w : WorldState) → RunPremises lines → Reached lines starves w → choices w ≡ [] → (c : ℕ)
        → AreSaid (λ n message. message ≡ notice_bytes n) (notices_due c w.deeds) (notices_on c w.deeds) (has_ended c w.deeds) }
{}

/// So in every session of a script. With where both ends stand as channels open and at the end this is all that the control lines did.
pub fn sessions_act()
    ensures acted { (text : List ℕ) (script : Script) (w : WorldState) → script_of Mode.Both text ≡ Ok script → WorldRun script.lines w
        → let devices = declared_devices (bare_lines script.lines) in
        AreReadWell w.deeds → EachAfter EndsTold w.deeds → HaveActed devices script.lines w.idle w.deeds }
    ensures whole { (devices : List (ℕ × Declared)) (lines : List NumberedLine) (idle : List ℕ) (deeds : List Deed) → (acted : HaveActed devices lines idle deeds)
        → All (Opens devices deeds) (range_with_len 1 acted.control.channels) → All (λ c. has_ended c deeds ≡ false → option_map_or is_settled_host (host_stand deeds c) false ≡ true) (range_with_len 1 acted.control.channels)
        → AreActed devices lines idle deeds }
{}
