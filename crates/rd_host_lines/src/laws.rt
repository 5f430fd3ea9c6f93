//! What the lines of a host's script asked its table for, what came of each, and where these calls stand, as contracts of functions that do nothing.

ghost use Rattle.std.specs.Prelude.{◌≡◌, ◌∷◌, ℕ, List, [], Ok, Option, false, true};
ghost use Rattle.rd_carry.specs.declared.ended.Ended.{Ended};
ghost use Rattle.rd_host_session.specs.Channels.{LinkedTold};
ghost use Rattle.rd_host_session.specs.Hosted.{Hosts};
ghost use Rattle.rd_issuer.specs.Issues.{is_patient};
ghost use Rattle.rd_runs.specs.Premises.{AreSubmittable};
ghost use Rattle.rd_script.specs.declared.keyword.Mode.{Mode};
ghost use Rattle.rd_script.specs.declared.line.NumberedLine.{NumberedLine};
ghost use Rattle.rd_script.specs.declared.outcome.Outcome.{Outcome};
ghost use Rattle.rd_script.specs.declared.script.Script.{Script};
ghost use Rattle.rd_script.specs.Script.{script_of};
ghost use Rattle.rd_table.specs.declared.calls.PendingCall.TheVariants as Ask;
ghost use Rattle.rd_table.specs.declared.calls.PendingReply.TheVariants as Reply;
ghost use Rattle.rd_table.specs.Worked.{in_use};
ghost use Rattle.rd_world.specs.World.{Asked, new_application};
ghost use Rattle.rd_host_lines.specs.Outcomes.{AllCame, IsAllTold};
ghost use Rattle.rd_host_lines.specs.Places.{AllRest, EndsOnce, HasBegun, IsAwaitedStill, IsPlayedAlong, LinesCameSoFar, control_calls, drop_call};
ghost use Rattle.rd_host_lines.specs.Requests.{AreInRange};

/// What the lines of a script ask for fits its requests.
pub fn scripts_ask_in_range()
    ensures { (m : Mode) (text : List ℕ) (script : Script) → script_of m text ≡ Ok script → AreSubmittable script.lines }
{}

/// Where what lines ask for fits requests, each request that was accepted by the table of a host that played them has numbers that its message has room for.
pub fn requests_have_room()
    ensures { (lines : List NumberedLine) (other : Option Ended) (told : List ((ℕ × ℕ) × Outcome)) (old new : LinkedTold) → AreSubmittable lines
        → (hosts : Hosts lines other told old new) → AreInRange hosts.last.seen }
{}

/// What came of each line of a script, along the one history of the table of a host that played it: the line was refused since its handle held nothing; or its one request was refused, for that cause; or it was
/// accepted under a number, for which the outcome was taken. The applications asked for nothing else, and no other application for anything.
pub fn lines_have_their_outcomes()
    ensures came { (lines : List NumberedLine) (other : Option Ended) (told : List ((ℕ × ℕ) × Outcome)) (old new : LinkedTold) → (hosts : Hosts lines other told old new)
        → AllCame lines hosts.issuers hosts.last.seen }
    // These are told, each once, and nothing else.
    ensures all_told { (lines : List NumberedLine) (other : Option Ended) (told : List ((ℕ × ℕ) × Outcome)) (old new : LinkedTold) → (hosts : Hosts lines other told old new)
        → IsAllTold lines hosts.issuers told }
{}

/// Where the calls of applications stand among those by which the host acts `drop`, `connect` and the script's end, along the one history of its table. Before each of these the lines before have their outcomes, by calls that stand
/// there, and nothing else was asked for; then it is acted, and no application calls meanwhile; and what the lines behind it ask for stands behind that. Where a line is patient and its outcome isn't there, it is passed: this
/// and the application's lines behind it are left for later.
pub fn scripts_go_along_histories()
    ensures { (lines : List NumberedLine) (other : Option Ended) (told : List ((ℕ × ℕ) × Outcome)) (old new : LinkedTold) → (hosts : Hosts lines other told old new)
        → IsPlayedAlong lines hosts.issuers hosts.last.seen }
{}

/// What may be told of the calls of `in_use` of `rd_table`, and what not: a channel begins, on which one device begins a life; a request of application 1 is accepted, looked for in vain once, and found lost in the end.
pub fn places_are_as_listed()
    // A channel began, and one device is there, but not two.
    ensures begun { HasBegun 1 in_use }
    ensures waited { ¬ (HasBegun 2 in_use) }
    ensures control { control_calls in_use ≡ (Ask.Begin 1, Reply.Begun true) ∷ [] }
    // An application calls, so no line is acted meanwhile; and where the script came to no line of it, none of its requests stands there.
    ensures meanwhile { ¬ (AllRest in_use) }
    ensures early { ¬ (LinesCameSoFar 1 new_application [] [] in_use) }
    // A line that isn't patient isn't passed; and neither is one whose outcome was found.
    ensures late { (x : Asked) → is_patient x.op ≡ false → ¬ (LinesCameSoFar 1 new_application (x ∷ []) [] in_use) }
    ensures found { ¬ (IsAwaitedStill 1 in_use) }
    // A channel ends once.
    ensures ends { EndsOnce (drop_call false ∷ drop_call true ∷ []) }
    ensures not_twice { ¬ (EndsOnce (drop_call true ∷ drop_call true ∷ [])) }
    ensures not_never { ¬ (EndsOnce (drop_call false ∷ [])) }
{}
