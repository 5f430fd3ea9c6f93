//! What holds of every history of a front, as contracts of functions that do nothing.

ghost use Rattle.std.specs.Prelude.{◌≡◌, ◌≢◌, ◌++◌, ℕ, List, [], All, Some, filter_map, reverse, slice_get};
ghost use Rattle.std.specs.List.{AllByRecursion};
ghost use Rattle.rd_front.specs.Front.{FrontStep};
ghost use Rattle.rd_front.specs.State.{DeviceDeskState, FrontState, SessionStation};
ghost use Rattle.rd_front.specs.declared.calls.FrontCall.{FrontCall};
ghost use Rattle.rd_front.specs.declared.calls.FrontReply.{FrontReply};
ghost use Rattle.rd_front.specs.declared.calls.FrontReply.TheVariants as reply;
ghost use Rattle.rd_turn.specs.declared.object.Entry.{Entry};
ghost use Rattle.rd_turn.specs.History.{Leads};
ghost use Rattle.rd_deeds.specs.Joining.{Stands};
ghost use Rattle.rd_deeds.specs.Talk.{Deed, EachAfter, journal};
ghost use Rattle.rd_journals.specs.Reads.{ComesRead};
ghost use Rattle.rd_base.specs.Lawful.{IsLawful};
ghost use Rattle.rd_served.specs.Deeds.{AreCaused, AreInOrder, EachOnChannel, deeds_after, deeds_of_calls, message_read, message_written};
ghost use Rattle.rd_front.specs.Calls.{RanOut};
ghost use Rattle.rd_served.specs.Histories.{AreStationed, BeginsNew, HistoryGoes, IsNewFront};
ghost use Rattle.rd_served.specs.Parts.{FrontPart, handed_by, heard_in};
ghost use Rattle.rd_served.specs.Served.{Served, idle};

/// Where each desk has a station after a history, the history goes by parts, call by call, from stations before it.
pub fn histories_go_by_parts()
    ensures { (old new : FrontState) (entries : List (Entry FrontCall FrontReply)) (after : List SessionStation) → Leads FrontStep old entries new → AreStationed new.desks after
        → (before : List SessionStation) × AreStationed old.desks before × ((parts : List (List FrontPart))
        × HistoryGoes (record { front = old; asking = idle; stations = before }) entries parts (record { front = new; asking = idle; stations = after })) }
{}

/// The deeds of parts tell the messages that were heard and handed out by them; and where a history began with a front over new desks, its deeds tell the journal of each station.
pub fn deeds_tell_histories()
    ensures read { (parts : List FrontPart) (before : List Deed) → filter_map message_read (deeds_after parts before) ≡ reverse (filter_map heard_in parts) ++ filter_map message_read before }
    ensures written { (parts : List FrontPart) (before : List Deed) → filter_map message_written (deeds_after parts before) ≡ reverse (filter_map handed_by parts) ++ filter_map message_written before }
    ensures journals { (old new : Served) (entries : List (Entry FrontCall FrontReply)) (parts : List (List FrontPart)) → BeginsNew old
        → HistoryGoes old entries parts new → (place : ℕ) (d : DeviceDeskState) (s : SessionStation) → slice_get new.front.desks place ≡ Some d → slice_get new.stations place ≡ Some s
        → journal d.id (deeds_of_calls parts []) ≡ reverse s.journal }
{}

/// No history of a front over new desks answers that a job may not come to its desk, or that the client may not be asked.
pub fn fronts_never_answer_unfit()
    ensures { (old new : FrontState) (entries : List (Entry FrontCall FrontReply)) (after : List SessionStation) → IsNewFront old → Leads FrontStep old entries new → AreStationed new.desks after
        → All (λ (e : Entry FrontCall FrontReply). e.reply ≢ reply.Unfit) entries }
{}

/// Where a front over new desks says that a completion id is in use, an earlier request to the same device has it, which came there and whose completion wasn't handed out.
pub fn duplicates_have_a_cause()
    ensures { (old new : Served) (entries : List (Entry FrontCall FrontReply)) (parts : List (List FrontPart)) → BeginsNew old
        → HistoryGoes old entries parts new → AreCaused [] entries parts }
{}

/// Each key comes to its desk after the read of its request, which names the desk's device; and each journal is lawful.
pub fn keys_come_after_their_requests()
    ensures read { (old new : Served) (entries : List (Entry FrontCall FrontReply)) (parts : List (List FrontPart)) → BeginsNew old
        → HistoryGoes old entries parts new → EachAfter ComesRead (deeds_of_calls parts []) }
    ensures lawful { (old new : Served) (entries : List (Entry FrontCall FrontReply)) (parts : List (List FrontPart)) → BeginsNew old
        → HistoryGoes old entries parts new → (place : ℕ) (s : SessionStation) → slice_get new.stations place ≡ Some s → IsLawful s.journal }
{}

/// A key comes before its completion, which is written after the key was sent, where the key came at all; nothing else that is written is a completion.
pub fn completions_stand_after_their_keys()
    ensures { (old new : Served) (entries : List (Entry FrontCall FrontReply)) (parts : List (List FrontPart)) → BeginsNew old
        → HistoryGoes old entries parts new → EachAfter Stands (deeds_of_calls parts []) }
{}

/// Where no reply says that no memory was found for the completion that was collected last, the completions of the keys that came to a device are those that its journal sent, in its order.
pub fn completions_keep_the_order_of_journals()
    ensures { (old new : Served) (entries : List (Entry FrontCall FrontReply)) (parts : List (List FrontPart)) → BeginsNew old
        → HistoryGoes old entries parts new → AllByRecursion (λ (e : Entry FrontCall FrontReply). ¬ (RanOut e.reply)) entries → AreInOrder (deeds_of_calls parts []) }
{}

/// What is read is read, and what is written is written, on the channel that began last: a completion answers a request of it.
pub fn messages_are_on_their_channel()
    ensures { (old new : Served) (entries : List (Entry FrontCall FrontReply)) (parts : List (List FrontPart)) → BeginsNew old
        → (goes : HistoryGoes old entries parts new) → EachOnChannel old entries parts new goes }
{}
