//! What holds of desks that were closed, and of passes that make calls. These functions do nothing: their clauses are laws.

ghost use Rattle.std.specs.Prelude.{◌≡◌, ◌≢◌, ◌++◌, ℕ, List, [], suc, map, All, Option, Some};
ghost use Rattle.std.specs.List.{AllByRecursion};
ghost use Rattle.rd_base.specs.Lawful.{RunsAt};
ghost use Rattle.rd_base.specs.declared.journal.Key.{Key};
ghost use Rattle.rd_irp.specs.declared.op.Op.{Op};
ghost use Rattle.rd_irp.specs.declared.request.Request.{Request};
ghost use Rattle.rd_drive.specs.Stepped.{Settled, Stepped};
ghost use Rattle.rd_station.specs.Station.{StationState, StationSteps, new_station};
ghost use Rattle.rd_station.specs.Tied.{IsKept, IsReached, IsRunBy, IsTied, RunsOwn};
ghost use Rattle.rd_turn.specs.declared.object.Entry.{Entry};
ghost use Rattle.rd_turn.specs.Pass.{Belongs, Called, IsSamePass, after_split};
ghost use Rattle.rd_desk.specs.declared.calls.DeskCall.{DeskCall};
ghost use Rattle.rd_desk.specs.declared.calls.DeskReply.{DeskReply};
ghost use Rattle.rd_desk.specs.Desk.{job_put, runs_of, told_calls};
ghost use Rattle.rd_desk.specs.Own.{IsOwnJob, PutsOwn, request_put};
ghost use Rattle.rd_pool.specs.Desks.{AllByHandBut, CameHome, DeskPass, DeskTurn, IsByHand, IsByHandBut, IsClosed, IsFirst, IsJoined, IsOther, KeepsMoment};

use rd_drive::Device;

/// Of a turn that was closed, whatever threads made its calls: its station went by the calls that its history tells (`steps`), so it is reached where it began
/// so (`reached`), and what always holds of stations holds of it: its journal is lawful (`kept`). Each job that ran is that of its key's request, where
/// each that came is (`own`); so over a new station of a device that a step and a cut compute it is tied to its journal (`tied`). Where all passes gave back
/// at the moment that was told, each run is at that moment (`moments`).
pub fn stations_are_as_their_calls_left_them<D: Device>()
    ensures steps { (turn : DeskTurn D) (p : DeskPass D) (s : StationState D) → IsClosed D.runs D.parked D.cuts (turn, p) s → StationSteps D.runs D.parked D.cuts turn.opening (told_calls p.seen) s }
    ensures reached { (turn : DeskTurn D) (p : DeskPass D) (s : StationState D) → IsReached D.runs D.parked D.cuts turn.opening → IsClosed D.runs D.parked D.cuts (turn, p) s → IsReached D.runs D.parked D.cuts s }
    ensures kept { (turn : DeskTurn D) (p : DeskPass D) (s : StationState D) → IsReached D.runs D.parked D.cuts turn.opening → IsClosed D.runs D.parked D.cuts (turn, p) s → IsKept D.parked s }
    ensures own { (requests : Key → Request) (turn : DeskTurn D) (p : DeskPass D) (s : StationState D) → IsClosed D.runs D.parked D.cuts (turn, p) s
        → AllByRecursion (IsOwnJob requests) turn.opening.waiting → AllByRecursion (PutsOwn requests) (told_calls p.seen) → AllByRecursion (RunsOwn requests) (told_calls p.seen) }
    ensures tied { (step : D → Key → ℕ → Op → ℕ → Stepped D) (cut : D → Settled D) (device : D) (turn : DeskTurn D) (p : DeskPass D) (s : StationState D) → IsRunBy step cut D.runs D.parked D.cuts
        → D.parked device ≡ [] → turn.opening ≡ new_station device → IsClosed D.runs D.parked D.cuts (turn, p) s → IsTied step cut (request_put (told_calls p.seen)) device s }
    ensures moments { (told : ℕ) (turn : DeskTurn D) (p : DeskPass D) (s : StationState D) → IsClosed D.runs D.parked D.cuts (turn, p) s → KeepsMoment (Some told) p
        → All (RunsAt told) turn.opening.journal → All (RunsAt told) s.journal }
{}

/// A pass that makes a call which gives nothing back is still one whose calls give back what they were given, and at the moment that was told.
pub fn calls_keep_passes<D: Device>()
    ensures other { (turn : DeskTurn D) (p : DeskPass D) (q : DeskPass D) (call : DeskCall) (reply : DeskReply) → IsOther turn p → Belongs turn q → IsSamePass p q → Called p call reply q → runs_of call ≡ [] → IsOther turn q }
    ensures first { (turn : DeskTurn D) (p : DeskPass D) (q : DeskPass D) (call : DeskCall) (reply : DeskReply) → IsFirst turn p → Belongs turn q → IsSamePass p q → Called p call reply q → runs_of call ≡ [] → IsFirst turn q }
    ensures moments { (told : Option ℕ) (p : DeskPass D) (q : DeskPass D) (call : DeskCall) (reply : DeskReply) → IsSamePass p q → Called p call reply q → runs_of call ≡ [] → KeepsMoment told p → KeepsMoment told q }
{}

/// Each call of a pass is a hand's or its own (`one`). A pass that is joined came home (`joined`), and stays so with the next join (`stays`). So of a turn that
/// was closed, where one pass came home and all other calls are hands', the history is what that pass has seen, of which the calls of others are hands'
/// (`hands`), and then calls of hands, by which no job comes (`later`).
pub fn all_but_one_are_hands<D: Device>()
    ensures one { (number : ℕ) (q : DeskPass D) → number ≢ 0 → q.number ≡ number → AllByHandBut number q }
    ensures joined { (p : DeskPass D) (q : DeskPass D) (new : DeskPass D) → IsJoined (p, q) new → CameHome new q }
    ensures stays { (p : DeskPass D) (q : DeskPass D) (other : DeskPass D) (new : DeskPass D) → p.number ≡ 0 → CameHome p q → IsJoined (p, other) new → CameHome new q }
    ensures hands { (turn : DeskTurn D) (p : DeskPass D) (q : DeskPass D) (s : StationState D) → IsClosed D.runs D.parked D.cuts (turn, p) s → AllByHandBut q.number p → CameHome p q → All (IsByHandBut q.number) q.seen }
    ensures later { (turn : DeskTurn D) (p : DeskPass D) (q : DeskPass D) (s : StationState D) → IsClosed D.runs D.parked D.cuts (turn, p) s → AllByHandBut q.number p → CameHome p q
        → (later : List (Entry DeskCall DeskReply)) × (p.seen ≡ q.seen ++ later) × All IsByHand later × All (λ e. job_put e.call ≡ []) later }
{}

/// Once passes that were split were joined again, and as many were out before the join as after the split, none is out where none was.
pub fn passes_come_home<D: Device>()
    ensures { (first : List (DeskPass D)) (split : List (DeskPass D)) (old : List (DeskPass D)) (new : List (DeskPass D)) → split ≡ map after_split first → map (λ p. p.out) old ≡ map (λ p. p.out) split
        → map (λ p. suc p.out) new ≡ map (λ p. p.out) old → All (λ p. p.out ≡ 0) first → All (λ p. p.out ≡ 0) new }
{}
