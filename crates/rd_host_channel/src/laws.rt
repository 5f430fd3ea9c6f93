//! What came on a channel and what was heard of it. These functions do nothing: their clauses are laws.

ghost use Rattle.std.specs.Prelude.{◌≡◌, ◌++◌, ℕ, List};
ghost use Rattle.rd_host_front.specs.HostFront.{HostFrontStep};
ghost use Rattle.rd_host_front.specs.State.{HostFrontState};
ghost use Rattle.rd_host_front.specs.declared.calls.HostFrontCall.{HostFrontCall};
ghost use Rattle.rd_host_front.specs.declared.calls.HostFrontReply.{HostFrontReply};
ghost use Rattle.rd_turn.specs.History.{Leads, calls_of};
ghost use Rattle.rd_host_channel.specs.Calls.{AllGiveBack, GivesBack, HostEntry, messages_heard};
ghost use Rattle.rd_host_channel.specs.Reading.{AreGiven};

use rd_host_front::TableTurn;

/// A host's front gives back the message for which it has no room. So what came on a channel is what its front heard of it, in order, and then what it didn't.
pub fn messages_are_heard_in_order<W: TableTurn>()
    ensures step { (old new : HostFrontState) (does : HostFrontCall W) (back : HostFrontReply W) → HostFrontStep old does back new → GivesBack does back }
    ensures history { (old new : HostFrontState) (entries : List (HostEntry W)) (number : ℕ) → Leads HostFrontStep old entries new → AllGiveBack (calls_of number entries) }
    ensures heard { (channel : ℕ) (calls : List (HostEntry W)) (came rest : List (List ℕ)) → AreGiven channel calls came rest → AllGiveBack calls → came ≡ messages_heard channel calls ++ rest }
{}
