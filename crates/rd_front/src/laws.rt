//! What the calls of a front keep. These functions do nothing: their clauses are laws.

ghost use Rattle.std.specs.Prelude.{◌≡◌, ◌<◌, List, false, length};
ghost use Rattle.rd_turn.specs.declared.object.Entry.{Entry};
ghost use Rattle.rd_turn.specs.History.{IsLegal, Leads};
ghost use Rattle.rd_front.specs.declared.calls.FrontCall.{FrontCall};
ghost use Rattle.rd_front.specs.declared.calls.FrontReply.{FrontReply};
ghost use Rattle.rd_front.specs.Front.{FrontStep, is_front_full};
ghost use Rattle.rd_front.specs.Kept.{DesksGoOn, IsCounted};
ghost use Rattle.rd_front.specs.State.{FrontState};
ghost use Rattle.rd_front.specs.Worked.{bare_front, worked_history};

/// No more messages stand in the core's outbox than a front counts, whatever was called: so where it isn't full, fewer than 1,024 do.
pub fn fronts_count_messages()
    ensures kept { (old new : FrontState) (call : FrontCall) (reply : FrontReply) → FrontStep old call reply new → IsCounted old → IsCounted new }
    ensures always { (old new : FrontState) (entries : List (Entry FrontCall FrontReply)) → Leads FrontStep old entries new → IsCounted old → IsCounted new }
    ensures few { (s : FrontState) → IsCounted s → is_front_full s ≡ false → length s.client.core.outbox < 1024 }
{}

/// Each device keeps its id and its turn, and the front's pass of its desk its numbers; what that pass does is a list of calls that take no jobs and give
/// none back.
pub fn fronts_call_desks()
    ensures step { (old new : FrontState) (call : FrontCall) (reply : FrontReply) → FrontStep old call reply new → DesksGoOn old new }
    ensures always { (old new : FrontState) (entries : List (Entry FrontCall FrontReply)) → Leads FrontStep old entries new → DesksGoOn old new }
{}

/// There is a history of a front, so its definitions can be met: a channel begins and opens, a request is answered without its device, the writer takes
/// what there is, and the channel and the session end.
pub fn a_front_is_there()
    ensures { IsLegal FrontStep bare_front worked_history }
{}
