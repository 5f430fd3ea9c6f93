//! What holds of the openings of channels in every run, as contracts of functions that do nothing.

ghost use Rattle.std.specs.Prelude.{◌≡◌, ◌⊎◌, ◌+◌, ◌≤◌, ℕ, All, Bool, List, [], Some, None, IfSome, filter, length, true, false};
ghost use Rattle.std.specs.List.{range_with_len};
ghost use Rattle.std.specs.Option.{option_map_or};
ghost use Rattle.rd_base.specs.declared.journal.Key.{Key};
ghost use Rattle.rd_client.specs.Order.{is_client_ready};
ghost use Rattle.rd_host.specs.Order.{is_host_ready};
ghost use Rattle.rd_orders.proofs.RunsResting.{IsQuiet};
ghost use Rattle.rd_orders.specs.RunsMoves.{Reached, ReachedWithin};
ghost use Rattle.rd_orders.specs.RunsPremises.{RunPremises};
ghost use Rattle.rd_script.specs.declared.line.NumberedLine.{NumberedLine};
ghost use Rattle.rd_world.specs.Acts.{HasOpened, Opens, is_settled_client, is_settled_host};
ghost use Rattle.rd_world.specs.Events.{connect, is_enabled};
ghost use Rattle.rd_world.specs.Lines.{last_begun, submitted};
ghost use Rattle.rd_declared.specs.Declaring.{bare_lines, declared_devices};
ghost use Rattle.rd_world.specs.Recording.{client_stand, host_stand};
ghost use Rattle.rd_world.specs.Run.{Most, choices, connects_on, run_of};
ghost use Rattle.rd_deeds.specs.Talk.{EachAfter, EndsWith, client_wrote, has_ended, host_read, host_wrote, is_request, open_channel};
ghost use Rattle.rd_world.specs.World.{WorldState};
ghost use Rattle.rd_orders.specs.Orders.{DeclaresWritable};
ghost use Rattle.rd_opening.specs.Issued.{ComesOpened};

/// Each channel opens by the rounds of its begin: then both ends are ready, the client has listed its devices once, the host has heard all of that and replied, and no request and no
/// notice stands before.
pub fn channels_open()
    ensures begun { (lines : List NumberedLine) (starves : Key → Bool) (most : Most) (v : WorldState) → RunPremises lines → DeclaresWritable lines → ReachedWithin (length lines + 1) lines starves v
        → is_enabled v connect ≡ true → IfSome (connects_on starves most v) (λ w. HasOpened (declared_devices (bare_lines lines)) w.deeds w.channels) }
    // So in every run each channel that began opened.
    ensures runs { (lines : List NumberedLine) (starves : Key → Bool) (most : Most) (w : WorldState) → RunPremises lines → DeclaresWritable lines → run_of most starves lines ≡ Some w
        → All (Opens (declared_devices (bare_lines lines)) w.deeds) (range_with_len 1 w.channels) }
    // And at its end the host owes nothing on a channel that didn't end.
    ensures settled { (lines : List NumberedLine) (starves : Key → Bool) (most : Most) (w : WorldState) → RunPremises lines → DeclaresWritable lines → run_of most starves lines ≡ Some w
        → All (λ c. has_ended c w.deeds ≡ false → option_map_or is_settled_host (host_stand w.deeds c) false ≡ true) (range_with_len 1 w.channels) }
{}

/// In every run each request is accepted after the opening of the channel that began last.
pub fn requests_come_opened()
    ensures { (lines : List NumberedLine) (starves : Key → Bool) (most : Most) (w : WorldState) → RunPremises lines → DeclaresWritable lines → run_of most starves lines ≡ Some w
        → EachAfter (ComesOpened (declared_devices (bare_lines lines))) w.deeds }
{}

/// The channel that began last is the one with the world's number, and all that began but the open one ended.
pub fn channels_are_numbered()
    ensures last { (lines : List NumberedLine) (starves : Key → Bool) (w : WorldState) → RunPremises lines → Reached lines starves w → last_begun w.deeds ≡ w.channels }
    ensures ended { (lines : List NumberedLine) (starves : Key → Bool) (w : WorldState) → RunPremises lines → Reached lines starves w → (c : ℕ) → 1 ≤ c → c ≤ w.channels
        → (open_channel w.deeds ≡ Some c) ⊎ (has_ended c w.deeds ≡ true) }
{}

/// Where neither end of the open channel has something to send or to read, both are ready, the host has read all that the client wrote, and neither owes a message: the
/// client no list, the host no reply. So it is wherever nothing can happen by itself.
pub fn ends_settle()
    ensures ready { (lines : List NumberedLine) (starves : Key → Bool) (w : WorldState) → RunPremises lines → DeclaresWritable lines → Reached lines starves w → open_channel w.deeds ≡ Some w.channels → IsQuiet w
        → (is_client_ready ((w.client).core).shake ≡ true) × (is_host_ready (((w.side).core).core).shake ≡ true) }
    ensures heard { (lines : List NumberedLine) (starves : Key → Bool) (w : WorldState) → RunPremises lines → DeclaresWritable lines → Reached lines starves w → open_channel w.deeds ≡ Some w.channels → IsQuiet w
        → host_read w.channels w.deeds ≡ client_wrote w.channels w.deeds }
    ensures client { (lines : List NumberedLine) (starves : Key → Bool) (w : WorldState) → RunPremises lines → DeclaresWritable lines → Reached lines starves w → open_channel w.deeds ≡ Some w.channels → IsQuiet w
        → option_map_or is_settled_client (client_stand (declared_devices (bare_lines lines)) w.deeds w.channels) false ≡ true }
    ensures host { (lines : List NumberedLine) (starves : Key → Bool) (w : WorldState) → RunPremises lines → DeclaresWritable lines → Reached lines starves w → open_channel w.deeds ≡ Some w.channels → IsQuiet w
        → option_map_or is_settled_host (host_stand w.deeds w.channels) false ≡ true }
    ensures rests { (lines : List NumberedLine) (starves : Key → Bool) (w : WorldState) → RunPremises lines → DeclaresWritable lines → Reached lines starves w → open_channel w.deeds ≡ Some w.channels → choices w ≡ []
        → (option_map_or is_settled_client (client_stand (declared_devices (bare_lines lines)) w.deeds w.channels) false ≡ true) × (option_map_or is_settled_host (host_stand w.deeds w.channels) false ≡ true) }
{}

/// The requests that stand on a channel are those that were accepted there, in order, but for some that were still to be sent when it ended, or are; none is left where neither end of the open
/// channel has something to send or to read. So at a run's end all were sent on a channel that didn't end, and the host has heard all that the client wrote there.
pub fn requests_are_sent()
    ensures stand { (lines : List NumberedLine) (starves : Key → Bool) (w : WorldState) → RunPremises lines → DeclaresWritable lines → Reached lines starves w → (c : ℕ)
        → EndsWith (submitted c w.deeds) (filter is_request (host_wrote c w.deeds)) }
    ensures sent { (lines : List NumberedLine) (starves : Key → Bool) (w : WorldState) → RunPremises lines → DeclaresWritable lines → Reached lines starves w → open_channel w.deeds ≡ Some w.channels → IsQuiet w
        → filter is_request (host_wrote w.channels w.deeds) ≡ submitted w.channels w.deeds }
    ensures runs { (lines : List NumberedLine) (starves : Key → Bool) (most : Most) (w : WorldState) → RunPremises lines → DeclaresWritable lines → run_of most starves lines ≡ Some w → (c : ℕ)
        → has_ended c w.deeds ≡ false → filter is_request (host_wrote c w.deeds) ≡ submitted c w.deeds }
    ensures heard { (lines : List NumberedLine) (starves : Key → Bool) (most : Most) (w : WorldState) → RunPremises lines → DeclaresWritable lines → run_of most starves lines ≡ Some w → (c : ℕ)
        → has_ended c w.deeds ≡ false → host_read c w.deeds ≡ client_wrote c w.deeds }
{}
