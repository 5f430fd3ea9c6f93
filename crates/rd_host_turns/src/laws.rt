//! What a host's front sees of the table between its own calls, as a contract of a function that does nothing.

ghost use Rattle.std.specs.Prelude.{◌≡◌, ◌++◌, List, [], Option};
ghost use Rattle.std.specs.declared.marker.Brand.{Brand};
ghost use Rattle.rd_carry.specs.declared.ended.Ended.{Ended};
ghost use Rattle.rd_host_front.specs.State.{PassOfTable, TurnOfTable};
ghost use Rattle.rd_host_session.specs.Channels.{LinkedTold};
ghost use Rattle.rd_host_session.specs.Hosted.{PlaysOver, front_over};
ghost use Rattle.rd_issuer.specs.declared.issuer.Issuer.{Issuer};
ghost use Rattle.rd_script.specs.declared.line.NumberedLine.{NumberedLine};
ghost use Rattle.rd_turn.specs.Pass.{first_pass};
ghost use Rattle.rd_host_turns.specs.Turns.{AreQuiet, PartsAlong, SeenAlong, TableEntry, TablePart, all_parts};

/// Where lines were played, and its calls make parts of the front's pass of the table, between these parts stand only quiet calls, and behind the last one too.
pub fn only_quiet_calls_stand_between()
    ensures { (turn : TurnOfTable) (lines : List NumberedLine) (other : Option Ended) (issuers : List Issuer) (last : PassOfTable) (old new : LinkedTold)
        → (plays : PlaysOver Brand turn lines other issuers (first_pass turn) last old new)
        → (parts : List (List TablePart)) → PartsAlong (front_over turn (first_pass turn)).table ((plays.ends).play).front.seen parts (plays.closed).table
        → SeenAlong [] (all_parts parts) ((plays.closed).table).pass.seen
        × ((rest : List TableEntry) × (last.seen ≡ ((plays.closed).table).pass.seen ++ rest) × AreQuiet rest) }
{}
