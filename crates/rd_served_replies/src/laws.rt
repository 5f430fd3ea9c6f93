//! Whose replies a client's front tells, as contracts of functions that do nothing.

ghost use Rattle.std.specs.Prelude.{◌≡◌, ◌≤◌, ◌++◌, ℕ, Bool, true, List, [], All, Some, slice_get};
ghost use Rattle.std.specs.List.{AllByRecursion};
ghost use Rattle.std.specs.Map.{lookup};
ghost use Rattle.std.specs.Ordering.{nat_cmp};
ghost use Rattle.std.specs.BTreeMap.{is_at};
ghost use Rattle.rd_base.specs.declared.journal.Item.TheVariants.{Came};
ghost use Rattle.rd_base.specs.declared.journal.Key.{Key};
ghost use Rattle.rd_desk.specs.Desk.{job_put, told_calls};
ghost use Rattle.rd_desk.specs.Own.{GivesOwnBack, PutsOwn, request_put};
ghost use Rattle.rd_desk.specs.declared.calls.DeskCall.{DeskCall};
ghost use Rattle.rd_desk.specs.declared.calls.DeskReply.{DeskReply};
ghost use Rattle.rd_front.specs.State.{DeviceDeskState, SessionDeskStep, SessionStation};
ghost use Rattle.rd_front.specs.declared.calls.FrontCall.{FrontCall};
ghost use Rattle.rd_front.specs.declared.calls.FrontReply.{FrontReply};
ghost use Rattle.rd_station.specs.Tied.{RunsOwn};
ghost use Rattle.rd_turn.specs.History.{Leads, calls_of};
ghost use Rattle.rd_turn.specs.declared.object.Entry.{Entry};
ghost use Rattle.rd_declared.specs.Replies.{request_read};
ghost use Rattle.rd_deeds.specs.Talk.{EachAfter, Has};
ghost use Rattle.rd_deeds.specs.Told.{Answers};
ghost use Rattle.rd_declared.specs.declared.device.SessionDevice.{SessionDevice};
ghost use Rattle.rd_refused.specs.RepliedRemovals.{TellsGone};
ghost use Rattle.rd_refused.specs.RepliedReplied.{AnswersBy};
ghost use Rattle.rd_refused.specs.RepliedSince.{AnswersSince};
ghost use Rattle.rd_refused.specs.Refused.{RefusesDirectly};
ghost use Rattle.rd_served.specs.Deeds.{deeds_of_calls};
ghost use Rattle.rd_served.specs.Histories.{BeginsNew, HistoryGoes};
ghost use Rattle.rd_served.specs.Parts.{FrontPart};
ghost use Rattle.rd_served.specs.Served.{IsStationed, Served};
ghost use Rattle.rd_served.specs.ServedDevices.{ServedDeviceState};
ghost use Rattle.rd_front.specs.Calls.{HearBytes};
ghost use Rattle.rd_served_replies.specs.Given.{HadNoFault, HadNoFaults, IsTiedAs, known_as, replies_served};
ghost use Rattle.rd_served_replies.specs.Premises.{AreOpened, GiveOwn, GivesOwn, NamesAlike};

/// All that the front's pass of each desk has seen leads to the desk's station, and the turn of each desk opened as it did.
pub fn passes_lead_stations()
    ensures stationed { (old new : Served) (entries : List (Entry FrontCall FrontReply)) (parts : List (List FrontPart)) → BeginsNew old
        → HistoryGoes old entries parts new → (place : ℕ) (d : DeviceDeskState) (s : SessionStation) → slice_get (new.front).desks place ≡ Some d → slice_get new.stations place ≡ Some s → IsStationed d s }
    ensures opened { (devices : List (ℕ × ServedDeviceState)) (old new : Served) (entries : List (Entry FrontCall FrontReply)) (parts : List (List FrontPart)) → BeginsNew old → AreOpened devices (old.front).desks
        → HistoryGoes old entries parts new → AreOpened devices (new.front).desks }
{}

/// Each job that came to a desk is that of its key's request, as it was read; also where calls follow by which none comes. Where each pass gives back its own, each run is of its key's request.
pub fn jobs_come_as_read()
    ensures put { (old new : Served) (entries : List (Entry FrontCall FrontReply)) (parts : List (List FrontPart)) → BeginsNew old
        → HistoryGoes old entries parts new → (place : ℕ) (d : DeviceDeskState) → slice_get (new.front).desks place ≡ Some d
        → AllByRecursion (PutsOwn (request_read (deeds_of_calls parts []))) (told_calls (d.pass).seen) }
    ensures later { (old new : Served) (entries : List (Entry FrontCall FrontReply)) (parts : List (List FrontPart)) → BeginsNew old
        → HistoryGoes old entries parts new → (place : ℕ) (d : DeviceDeskState) → slice_get (new.front).desks place ≡ Some d
        → (later : List (Entry DeskCall DeskReply)) → All (λ (e : Entry DeskCall DeskReply). job_put e.call ≡ []) later
        → AllByRecursion (PutsOwn (request_read (deeds_of_calls parts []))) (told_calls ((d.pass).seen ++ later)) }
    ensures run { (old new : Served) (entries : List (Entry FrontCall FrontReply)) (parts : List (List FrontPart)) → BeginsNew old
        → HistoryGoes old entries parts new → GiveOwn (new.front).desks → (place : ℕ) (d : DeviceDeskState) (s : SessionStation) → slice_get (new.front).desks place ≡ Some d → slice_get new.stations place ≡ Some s
        → AllByRecursion (RunsOwn (request_read (deeds_of_calls parts []))) (told_calls (d.pass).seen) }
{}

/// The requests that are read off the jobs which were put at a desk name the same file and the same operation as those that the client read, for each key that came there;
/// also where calls follow by which none comes.
pub fn requests_put_were_read()
    ensures { (old new : Served) (entries : List (Entry FrontCall FrontReply)) (parts : List (List FrontPart)) → BeginsNew old
        → HistoryGoes old entries parts new → (place : ℕ) (d : DeviceDeskState) → slice_get (new.front).desks place ≡ Some d
        → (later : List (Entry DeskCall DeskReply)) (s : SessionStation) → All (λ (e : Entry DeskCall DeskReply). job_put e.call ≡ []) later → Leads SessionDeskStep (d.turn).opening ((d.pass).seen ++ later) s
        → (key : Key) → Has (Came key) s.journal → NamesAlike (request_put (told_calls ((d.pass).seen ++ later))) (request_read (deeds_of_calls parts [])) key }
{}

/// Calls of which each pass gives back its own began with such calls. It is enough to know it of the passes whose numbers aren't above any that made a call, as of a desk that was closed.
pub fn passes_gave_their_own()
    ensures before { (seen later : List (Entry DeskCall DeskReply)) → GivesOwn (seen ++ later) → GivesOwn seen }
    ensures closed { (seen : List (Entry DeskCall DeskReply)) (most : ℕ) → All (λ (e : Entry DeskCall DeskReply). e.by ≤ most) seen → ((number : ℕ) → number ≤ most → GivesOwnBack (calls_of number seen)) → GivesOwn seen }
{}

/// So each station of a device of which it is known what it does is tied to its journal, as that device's, by the requests that were read. Where its own folder had no fault, it is known of a drive over a folder that told its nodes.
pub fn stations_are_tied()
    ensures { (calm : Bool) (devices : List (ℕ × ServedDeviceState)) (old new : Served) (entries : List (Entry FrontCall FrontReply)) (parts : List (List FrontPart)) → BeginsNew old → AreOpened devices (old.front).desks
        → HistoryGoes old entries parts new → GiveOwn (new.front).desks → (place : ℕ) (d : DeviceDeskState) (s : SessionStation) → slice_get (new.front).desks place ≡ Some d → slice_get new.stations place ≡ Some s → (calm ≡ true → HadNoFault s.device)
        → (x : ServedDeviceState) (y : SessionDevice) → lookup (is_at (nat_cmp d.id)) devices ≡ Some x → known_as calm x ≡ Some y → IsTiedAs (request_read (deeds_of_calls parts [])) y s }
{}

/// Each completion that was written completes in bytes the request of its key, which had been read, and tells the reply that the device's journal gives to the key by what it says before
/// the key was sent; or CANCELLED, where the journal says so; or the key never came, and it is a refusal. Of a device of which it isn't known what it does the reply is one to the key that its desk handed out.
pub fn completions_are_replied()
    ensures { (calm : Bool) (devices : List (ℕ × ServedDeviceState)) (old new : Served) (entries : List (Entry FrontCall FrontReply)) (parts : List (List FrontPart)) → BeginsNew old → AreOpened devices (old.front).desks
        → HistoryGoes old entries parts new → GiveOwn (new.front).desks → (calm ≡ true → HadNoFaults new.stations) → HearBytes entries
        → EachAfter (AnswersBy (replies_served calm devices parts (deeds_of_calls parts []))) (deeds_of_calls parts []) }
{}

/// Where a device was cut off, since it was removed, after a key came, the key's completion is written after that was told: the removal is written on the key's channel
/// after the read of its request.
pub fn removals_are_told()
    ensures { (old new : Served) (entries : List (Entry FrontCall FrontReply)) (parts : List (List FrontPart)) → BeginsNew old
        → HistoryGoes old entries parts new → HearBytes entries → EachAfter TellsGone (deeds_of_calls parts []) }
{}

/// Each completion is replied so, and where a cut alone gives its reply, or its request was cancelled, the device was removed since, as is told.
pub fn completions_are_answered()
    ensures { (calm : Bool) (devices : List (ℕ × ServedDeviceState)) (old new : Served) (entries : List (Entry FrontCall FrontReply)) (parts : List (List FrontPart)) → BeginsNew old → AreOpened devices (old.front).desks
        → HistoryGoes old entries parts new → GiveOwn (new.front).desks → (calm ≡ true → HadNoFaults new.stations) → HearBytes entries
        → EachAfter (AnswersSince (replies_served calm devices parts (deeds_of_calls parts []))) (deeds_of_calls parts []) }
{}

/// Where each refusal of a request that never came is the one that its device's removal or journal calls for, each completion is the answer to its key.
pub fn answers_are_complete()
    ensures { (calm : Bool) (devices : List (ℕ × ServedDeviceState)) (old new : Served) (entries : List (Entry FrontCall FrontReply)) (parts : List (List FrontPart)) → BeginsNew old → AreOpened devices (old.front).desks
        → HistoryGoes old entries parts new → GiveOwn (new.front).desks → (calm ≡ true → HadNoFaults new.stations) → HearBytes entries
        → EachAfter RefusesDirectly (deeds_of_calls parts []) → EachAfter (Answers (replies_served calm devices parts (deeds_of_calls parts []))) (deeds_of_calls parts []) }
{}
