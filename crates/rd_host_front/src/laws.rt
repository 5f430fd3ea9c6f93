//! What the calls of a host's front keep, what they make of pass 0 of the table, and which calls of the table a message asks for. These functions do nothing:
//! their clauses are laws.

ghost use Rattle.std.specs.Prelude.{◌≡◌, ◌<◌, Bool, ℕ, List, false, true, length};
ghost use Rattle.rd_room.specs.Room.{MessageRoom};
ghost use Rattle.rd_turn.specs.declared.object.Entry.{Entry};
ghost use Rattle.rd_turn.specs.History.{Leads};
ghost use Rattle.rd_host_front.specs.declared.calls.HostFrontCall.{HostFrontCall};
ghost use Rattle.rd_host_front.specs.declared.calls.HostFrontCall.TheVariants as Call;
ghost use Rattle.rd_host_front.specs.declared.calls.HostFrontReply.{HostFrontReply};
ghost use Rattle.rd_host_front.specs.HostFront.{HostFrontStep, has_many_unsent, is_channel_on};
ghost use Rattle.rd_host_front.specs.Kept.{BeginsBack, CountsUnsent, DropsBack};
ghost use Rattle.rd_host_front.specs.Parts.{AsksTable, FrontGoesOn, HandsOut};
ghost use Rattle.rd_host_front.specs.State.{HostFrontState, PassOfTable};

use crate::first_pass::TableTurn;

/// No more messages stand in the core's outbox than a front counts, whatever was called: so where it isn't full, fewer than 1,024 do.
pub fn host_fronts_count_messages<W: TableTurn>()
    ensures kept { (old new : HostFrontState) (call : HostFrontCall W) (reply : HostFrontReply W) → HostFrontStep old call reply new → CountsUnsent old → CountsUnsent new }
    ensures always { (old new : HostFrontState) (entries : List (Entry (HostFrontCall W) (HostFrontReply W))) → Leads HostFrontStep old entries new → CountsUnsent old → CountsUnsent new }
    ensures few { (s : HostFrontState) → CountsUnsent s → has_many_unsent s ≡ false → length s.core.core.outbox < 1024 }
{}

/// Pass 0 comes back from the calls that it is handed with, with as many passes out as before, and at most two more made. Where the front's pass was renewed,
/// what comes back has seen all that it had, and the new one has seen all that comes back.
pub fn host_fronts_hand_back<W: TableTurn>()
    ensures begins { (old new : HostFrontState) (channel : ℕ) (first : PassOfTable) (reply : HostFrontReply W) → first.number ≡ 0
        → HostFrontStep old (Call.Begin channel first) reply new → BeginsBack first old reply new }
    ensures drops { (old new : HostFrontState) (first : PassOfTable) (anew : Bool) (reply : HostFrontReply W) → first.number ≡ 0
        → HostFrontStep old (Call.DropSent first anew) reply new → DropsBack anew first old reply new }
{}

/// A message that is heard asks the table for the calls that the front's pass makes then, in order, and for no others.
pub fn host_fronts_ask_the_table<W: TableTurn>()
    ensures { (old new : HostFrontState) (channel : ℕ) (message : List ℕ) (reply : HostFrontReply W) → is_channel_on old channel ≡ true → has_many_unsent old ≡ false
        → HostFrontStep old (Call.Hear channel message) reply new → AsksTable old message reply new }
{}

/// What a front does, call by call, is a list of parts: calls of its core, calls of the table by its own pass, and how that is renewed. Its turn stays, and what its
/// pass had seen the pass that it has then has seen, with the table's calls of these parts in their order.
pub fn host_fronts_go_on<W: TableTurn>()
    ensures step { (old new : HostFrontState) (call : HostFrontCall W) (reply : HostFrontReply W) → HostFrontStep old call reply new → FrontGoesOn old new }
    ensures always { (old new : HostFrontState) (entries : List (Entry (HostFrontCall W) (HostFrontReply W))) → Leads HostFrontStep old entries new → FrontGoesOn old new }
{}

/// The messages that a writer is given are those that its call's parts hand out: the core's, and, where it has none, the table's.
pub fn host_fronts_hand_out<W: TableTurn>()
    ensures { (old new : HostFrontState) (channel : ℕ) (room : MessageRoom) (reply : HostFrontReply W) → is_channel_on old channel ≡ true
        → HostFrontStep old (Call.Next channel room) reply new → HandsOut old room reply new }
{}
