//! What the one history of a host's front comes to, as a contract of a function that does nothing.

ghost use Rattle.std.specs.Prelude.{◌≢◌, List, Option, Some};
ghost use Rattle.rd_carry.specs.declared.ended.Ended.{Ended};
ghost use Rattle.rd_carry.specs.declared.ended.Ended.TheVariants as ended;
ghost use Rattle.rd_host_front.specs.State.{PassOfTable, TurnOfTable};
ghost use Rattle.rd_host_session.specs.Channels.{LinkedTold};
ghost use Rattle.rd_host_session.specs.Hosted.{PlaysOver};
ghost use Rattle.rd_issuer.specs.declared.issuer.Issuer.{Issuer};
ghost use Rattle.rd_script.specs.declared.line.NumberedLine.{NumberedLine};
ghost use Rattle.rd_host_threads.specs.Threads.{AreThreadsCalls, front_calls, played_calls, played_stops};

use rd_host_front::TableTurn;

/// Where a session didn't end for want of memory: each call in the history of the front is one that a host makes, by the thread that makes such calls; and so of each
/// channel it is known by that history what was heard on it and handed out for it, and what became of its halves.
pub fn threads_make_the_calls<W: TableTurn>()
    ensures { (turn : TurnOfTable) (lines : List NumberedLine) (other : Option Ended) (issuers : List Issuer) (first last : PassOfTable) (old new : LinkedTold)
        → other ≢ Some ended.Memory
        → (plays : PlaysOver W turn lines other issuers first last old new)
        → AreThreadsCalls (front_calls turn lines other issuers first last old new plays) (played_calls turn lines other issuers first last old new plays)
        (played_stops turn lines other issuers first last old new plays) other old new }
{}
