//! What holds of the order of messages in every history of a front, as contracts of functions that do nothing.

ghost use Rattle.std.specs.Prelude.{◌≡◌, ℕ, true, List, [], ◌∷◌};
ghost use Rattle.std.specs.List.{AllByRecursion};
ghost use Rattle.rd_acted.specs.Acted.{SayFirst};
ghost use Rattle.rd_devices.specs.declared.list.Announce.{Announce};
ghost use Rattle.rd_front.specs.Front.{is_front_ready};
ghost use Rattle.rd_front.specs.declared.calls.FrontCall.{FrontCall};
ghost use Rattle.rd_front.specs.declared.calls.FrontReply.{FrontReply};
ghost use Rattle.rd_turn.specs.declared.object.Entry.{Entry};
ghost use Rattle.rd_world.specs.Acts.{tellings_on};
ghost use Rattle.rd_world.specs.Control.{begun};
ghost use Rattle.rd_deeds.specs.Talk.{client_moves};
ghost use Rattle.rd_served.specs.Deeds.{deeds_of_calls};
ghost use Rattle.rd_front.specs.Calls.{RanOut};
ghost use Rattle.rd_served.specs.Histories.{BeginsNew, HistoryGoes};
ghost use Rattle.rd_served.specs.Parts.{FrontPart};
ghost use Rattle.rd_served.specs.Served.{Served};
ghost use Rattle.rd_served_order.specs.Orders.{AreMovesInOrder, BeginsWith, is_gone_until};
ghost use Rattle.rd_served_order.specs.Sent.{AreSentInOrder, HaveRoom};
ghost use Rattle.rd_served_order.specs.Tellings.{SaysAct, TellsReady, acts_on, told_or_waiting};

/// What a client read and wrote on each channel is in order; from a message that was wrong on, what it wrote is.
pub fn messages_are_in_order()
    ensures { (devices : List Announce) (old new : Served) (entries : List (Entry FrontCall FrontReply)) (parts : List (List FrontPart)) → BeginsWith devices old
        → HistoryGoes old entries parts new → (c : ℕ) → AreMovesInOrder devices (is_gone_until parts c) (client_moves c (deeds_of_calls parts [])) }
{}

/// Where no reply says that no memory was found for the completion that was collected last, the completions that read as a device's, of the keys that came to it, are those that its journal sent, in its order.
pub fn completions_are_sent_in_order()
    ensures { (old new : Served) (entries : List (Entry FrontCall FrontReply)) (parts : List (List FrontPart)) → BeginsNew old
        → HistoryGoes old entries parts new → AllByRecursion (λ (e : Entry FrontCall FrontReply). ¬ (RanOut e.reply)) entries → HaveRoom (old.front).desks → AreSentInOrder (deeds_of_calls parts []) }
{}

/// What is told of devices on each channel says its begin first, by the list of those that weren't gone then, and after that what the front was told to tell there, in order; and on the channel that is on what was told and what waits to be told say all of it, once the client is ready.
pub fn tellings_are_those_of_calls()
    ensures first { (devices : List Announce) (old new : Served) (entries : List (Entry FrontCall FrontReply)) (parts : List (List FrontPart)) → BeginsWith devices old
        → (goes : HistoryGoes old entries parts new) → (c : ℕ)
        → SayFirst (SaysAct devices (is_gone_until parts c)) (tellings_on c (deeds_of_calls parts [])) (begun c ∷ acts_on c old entries parts new goes) }
    ensures all { (devices : List Announce) (old new : Served) (entries : List (Entry FrontCall FrontReply)) (parts : List (List FrontPart)) → BeginsWith devices old
        → (goes : HistoryGoes old entries parts new) → (new.front).on ≡ true
        → TellsReady (is_front_ready new.front) devices (is_gone_until parts (new.front).channel) (new.front).channel (told_or_waiting new (deeds_of_calls parts [])) (acts_on (new.front).channel old entries parts new goes) }
{}
