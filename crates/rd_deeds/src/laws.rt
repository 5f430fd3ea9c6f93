//! What holds of joined sides, as contracts of functions that do nothing.

ghost use Rattle.std.specs.Prelude.{◌≡◌, ◌∷◌, ℕ, List, [], Some, filter_map};
ghost use Rattle.rd_base.specs.declared.journal.Cause.TheVariants.{Dropped, Removed};
ghost use Rattle.rd_pending.specs.declared.calls.Outcome.TheVariants.{Done, Lost};
ghost use Rattle.rd_deeds.specs.Example.{close_reply, example_deeds, example_outcomes, example_replies, left_waiting, read_reply, watch, watch_reply};
ghost use Rattle.rd_deeds.specs.Joining.{AreJoined, Joins};
ghost use Rattle.rd_deeds.specs.Talk.{Deed, journal};
ghost use Rattle.rd_deeds.specs.Told.{Replies};

/// The joining law: whatever both ends do whose messages are carried, whose host keeps its table and whose client tells what its journals say,
/// completions answer their own requests and are taken, what was completed before a request was written ran before it, the host hands out what came of
/// each request, and one that is done has the reply that its device's journal gives to it, and none that a cut alone gives.
pub fn joined_sides_agree()
    ensures { (client : ℕ) (replies : Replies) (deeds : List Deed) → AreJoined client replies deeds → Joins client replies deeds }
{}

/// What that law takes is met by a session with two devices and two channels, a request that waits, a removal under work, and a drop.
pub fn a_session_is_joined()
    ensures joined { AreJoined 1 example_replies example_deeds }
    // Of each request the channel and the device, and what came of it.
    ensures outcomes { example_outcomes ≡ (1, 1, Some (Done read_reply)) ∷ (1, 2, Some (Done watch_reply)) ∷ (1, 2, Some (Done close_reply)) ∷ (1, 1, Some (Lost Removed)) ∷ (1, 1, Some (Lost Removed)) ∷ (1, 2, Some (Lost Dropped)) ∷ (2, 2, Some (Done read_reply)) ∷ [] }
    // The second one was left waiting inside its device when it ran.
    ensures waiting { filter_map left_waiting (journal 2 example_deeds) ≡ watch.key ∷ [] }
{}
