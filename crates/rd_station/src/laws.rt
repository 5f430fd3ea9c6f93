//! The definitions at work, as contracts of functions that do nothing: the checker computes each case.

ghost use Rattle.std.specs.Prelude.{◌≡◌, ℕ, List, ◌++◌, ◌∷◌, [], false, true, None, Some, Ok, Err};
ghost use Rattle.std.specs.List.{AllByRecursion};
ghost use Rattle.rd_base.specs.declared.journal.Cause.TheVariants as Cause;
ghost use Rattle.rd_base.specs.declared.journal.Item.TheVariants as Item;
ghost use Rattle.rd_irp.specs.declared.completion.Kind.TheVariants as Kind;
ghost use Rattle.rd_base.specs.declared.journal.Key.{Key};
ghost use Rattle.rd_irp.specs.declared.op.Op.{Op};
ghost use Rattle.rd_irp.specs.declared.request.Request.{Request};
ghost use Rattle.rd_drive.specs.Answered.{drive_cuts, drive_parked, drive_runs};
ghost use Rattle.rd_drive.specs.DriveStep.{drive_cut, drive_step};
ghost use Rattle.rd_drive.specs.Stepped.{Settled, Stepped};
ghost use Rattle.rd_station.specs.declared.answers.Applied.TheVariants as Applied;
ghost use Rattle.rd_station.specs.declared.answers.Given.TheVariants as Given;
ghost use Rattle.rd_station.specs.declared.refusals.AnnounceNo.TheVariants as AnnounceNo;
ghost use Rattle.rd_station.specs.declared.refusals.PutWhy.TheVariants as PutWhy;
ghost use Rattle.rd_station.specs.Station.{announce, applies, apply, collect, drop_channel, end, new_station, put, puts_unfit, remove, take, PutRefused, StationCall, StationMade, StationState, StationStep, StationSteps};
ghost use Rattle.rd_station.specs.Tied.{IsKept, IsReached, IsRunBy, IsTied, RunsOwn};
ghost use Rattle.rd_station.specs.Worked.{both_ready, close, closed, closes, closes_to, counts_cut, counts_parked, counts_run, counts_settled, counts_step, given_up, key, notified, removed, request_at, told, untold, waiting, waits, with_jobs, with_taken};

use rd_drive::Device;

/// What a station takes, keeps and hands out.
pub fn stations_are_as_listed()
    // The host is told of a device once; without that no job comes.
    ensures live { (announce told).1 ≡ Err AnnounceNo.Live }
    ensures gone { (put untold (close 0 7)).1 ≡ Some PutWhy.Gone }
    // Two jobs that are held don't have the same completion id.
    ensures duplicate { (put (with_jobs told (close 0 7 ∷ [])) (close 1 7)).1 ≡ Some (PutWhy.Duplicate (key 0)) }
    ensures refused { PutRefused (with_jobs told (close 0 7 ∷ [])) (close 1 7) (PutWhy.Duplicate (key 0)) (with_jobs told (close 0 7 ∷ [])) }
    ensures starved { PutRefused told (close 0 7) PutWhy.Memory told }
    // A station that isn't made gives its device back.
    ensures made { StationMade {S = ℕ} 3 (Ok (new_station 3)) }
    ensures not_made { StationMade {S = ℕ} 3 (Err (record { device = 3 })) }
    // 128 jobs are held, and no more.
    ensures last { (put (with_jobs told (closes_to 127)) (close 127 127)).1 ≡ None }
    ensures full { (put (with_jobs told (closes_to 128)) (close 128 128)).1 ≡ Some (PutWhy.Full 128) }
    // What came first is taken first.
    ensures takes { (take (with_jobs told (close 0 7 ∷ close 1 8 ∷ []))).1 ≡ Given.Job (close 0 7) }
    ensures nothing { (take told).1 ≡ Given.Nothing }
    ensures over { (take (end told 0)).1 ≡ Given.Over }
    // What waits in the device has no completion until a later job ends it; that job's own completion is ready before.
    ensures waits { waiting.ready ≡ [] }
    ensures ends { both_ready.ready ≡ closed 1 8 ∷ notified 0 7 ∷ [] }
    ensures none_parked { both_ready.parked ≡ [] }
    ensures told { both_ready.journal ≡ Item.Came (key 0) ∷ Item.Came (key 1) ∷ Item.Ran (key 0) 5 false true ∷ Item.Ran (key 1) 6 false false ∷ [] }
    ensures collects { (collect both_ready).1 ≡ Some (closed 1 8) }
    // A removal cancels what waits in the device, then what no hand took; what is in a hand is cancelled when it comes back.
    ensures cancels { removed.ready ≡ given_up 0 7 Kind.Buffer ∷ given_up 2 9 Kind.Close ∷ [] }
    ensures cuts { removed.device ≡ 10 }
    ensures late { (apply removed (close 1 8) 6 (closes 2 [])).1 ≡ Applied.Cancelled }
    ensures unrun { (apply removed (close 1 8) 6 (closes 2 [])).0.device ≡ 10 }
    ensures once { (apply (apply removed (close 1 8) 6 (closes 2 [])).0 (close 1 8) 6 (closes 2 [])).1 ≡ Applied.Stale }
    // Where the channel ended nothing is held any more.
    ensures stale { (apply (drop_channel waiting 10) (close 1 8) 6 (closes 2 [])).1 ≡ Applied.Stale }
    ensures dropped { (collect (drop_channel both_ready 10)).1 ≡ None }
    ensures cut { (drop_channel waiting 10).journal ≡ waiting.journal ++ Item.Cut Cause.Dropped ∷ [] }
    ensures removed_before { (drop_channel removed 10).journal ≡ removed.journal }
{}

/// A job that is run, and one that may not come, as steps of a station.
pub fn station_steps_are_as_listed()
    ensures runs { StationStep counts_run counts_parked counts_cut (with_taken 1 (with_jobs told (close 0 7 ∷ []))) (applies (record { job = close 0 7; starved = false }) 5 Applied.Ran)
        (apply (with_taken 1 (with_jobs told (close 0 7 ∷ []))) (close 0 7) 5 (closes 1 [])).0 }
    ensures unfit { StationStep counts_run counts_parked counts_cut (with_jobs told (close 1 7 ∷ [])) (puts_unfit (close 0 8) (close 0 8)) (with_jobs told (close 1 7 ∷ [])) }
{}

/// A station that is tied to its journal; one whose device is in another state, and one that has another reply ready, aren't.
pub fn ties_are_as_listed()
    ensures tied { IsTied counts_step counts_settled request_at 0 both_ready }
    ensures other_state { ¬ (IsTied counts_step counts_settled request_at 0 (record both_ready { device = 3 })) }
    ensures other_reply { ¬ (IsTied counts_step counts_settled request_at 0 (record both_ready { ready = given_up 0 7 Kind.Buffer ∷ [] })) }
{}

/// Whatever calls a station over a device is given, one after the other, what always holds of it holds.
pub fn stations_are_kept<D: Device>()
    ensures calls { (device : D) (calls : List StationCall) (s : StationState D) → D.parked device ≡ [] → StationSteps D.runs D.parked D.cuts (new_station device) calls s → IsKept D.parked s }
    ensures reached { (s : StationState D) → IsReached D.runs D.parked D.cuts s → IsKept D.parked s }
{}

/// A new station over a device in which nothing is parked is reached, and where one is reached each call reaches another.
pub fn calls_reach_stations<D: Device>()
    ensures first { (device : D) → D.parked device ≡ [] → IsReached D.runs D.parked D.cuts (new_station device) }
    ensures next { (old : StationState D) (new : StationState D) (call : StationCall) → IsReached D.runs D.parked D.cuts old → StationStep D.runs D.parked D.cuts old call new → IsReached D.runs D.parked D.cuts new }
{}

/// Whatever calls a station over a device that a step and a cut compute is given, it stays tied to its journal, where each job that is run is that of
/// its key's request; so does each that is reached, by the calls that led to it.
pub fn stations_stay_tied<D: Device>()
    ensures reached { (step : D → Key → ℕ → Op → ℕ → Stepped D) (cut : D → Settled D) (requests : Key → Request) (s : StationState D) (is : IsReached D.runs D.parked D.cuts s)
        → IsRunBy step cut D.runs D.parked D.cuts → AllByRecursion (RunsOwn requests) is.calls → IsTied step cut requests is.device s }
    ensures calls { (step : D → Key → ℕ → Op → ℕ → Stepped D) (cut : D → Settled D) (requests : Key → Request) (device : D) (calls : List StationCall) (s : StationState D)
        → IsRunBy step cut D.runs D.parked D.cuts → D.parked device ≡ [] → AllByRecursion (RunsOwn requests) calls → StationSteps D.runs D.parked D.cuts (new_station device) calls s
        → IsTied step cut requests device s }
{}

/// What a drive's runs and cuts relate is what the definition of a drive computes.
pub fn drives_are_run_by_their_step()
    ensures { IsRunBy drive_step drive_cut drive_runs drive_parked drive_cuts }
{}
