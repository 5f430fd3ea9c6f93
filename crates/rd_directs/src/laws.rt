//! What holds of a client's direct answers in every run, as contracts of functions that do nothing.

ghost use Rattle.std.specs.Prelude.{◌≡◌, ℕ, ◌<◌, Bool, List, ◌∷◌, Some, length, reverse};
ghost use Rattle.rd_base.specs.declared.journal.Key.{Key};
ghost use Rattle.rd_base.specs.Lawful.{IsLawful};
ghost use Rattle.rd_script.specs.declared.line.NumberedLine.{NumberedLine};
ghost use Rattle.rd_irp.specs.declared.request.Request.{Request};
ghost use Rattle.rd_journals.proofs.RunsParts.{IsBehind};
ghost use Rattle.rd_journals.specs.RunsMoves.{Reached};
ghost use Rattle.rd_journals.specs.RunsPremises.{RunPremises};
ghost use Rattle.rd_deeds.specs.Joining.{IsAlone};
ghost use Rattle.rd_deeds.specs.Talk.{Deed, EachAfter, EndsWith, client_read, client_reads, journal, request_in};
ghost use Rattle.rd_deeds.specs.Told.{Answers, ComesUnworn, Replies, requests_to, told, unserved, worn_entries};
ghost use Rattle.rd_world.specs.World.{Kept, WorldState};
ghost use Rattle.rd_directs.specs.Turns.{MeetNone, NoneHeld};

/// Where no request meets a job at its station that is held with its completion id: of each device on each channel the answers to requests that never came
/// are in the order of reading, up to some.
pub fn direct_answers_are_in_order()
    ensures { (lines : List NumberedLine) (starves : Key → Bool) (w : WorldState) → RunPremises lines → MeetNone lines starves → Reached lines starves w → (c device : ℕ)
        → EndsWith (unserved c device w.deeds (requests_to device (client_read c w.deeds))) (unserved c device w.deeds (told c device w.deeds)) }
{}

/// Whatever deeds answer each request as its journal says, where no journal is worn: none is refused for a worn journal, so each request comes behind none that was.
pub fn requests_come_unworn()
    ensures { (replies : Replies) (deeds : List Deed) → EachAfter (Answers replies) deeds → ((device : ℕ) → IsLawful (reverse (journal device deeds))) → ((device : ℕ) → length (journal device deeds) < worn_entries)
        → EachAfter ComesUnworn deeds }
{}

/// A request that is alone when it is read, as those of joined sides are, meets no job that is held with its completion id.
pub fn alone_requests_meet_none()
    ensures { (lines : List NumberedLine) (starves : Key → Bool) (w : WorldState) (channel : ℕ) (m : List ℕ) → RunPremises lines → IsBehind lines starves w → ((w.side).table).channel ≡ Some channel
        → IsAlone (client_reads w.channels m ∷ w.deeds) w.deeds (client_reads w.channels m) → (r : Request) → request_in m ≡ Some r → NoneHeld w r.device r.completion }
{}

/// Where each request was alone when it was read, a job that is kept back meets none that is held with its completion id.
pub fn kept_jobs_meet_none()
    ensures { (lines : List NumberedLine) (starves : Key → Bool) (w : WorldState) (k : Kept) → RunPremises lines → IsBehind lines starves w → w.kept ≡ Some k → EachAfter (IsAlone w.deeds) w.deeds
        → NoneHeld w k.device k.job.completion }
{}
