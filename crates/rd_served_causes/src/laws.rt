//! What holds of the refusals of a front, as contracts of functions that do nothing.

ghost use Rattle.std.specs.Prelude.{◌≡◌, ◌++◌, ℕ, Bool, List, [], true, false};
ghost use Rattle.rd_served_order.specs.AnsweredRefusing.{SaysMarks, written_then};
ghost use Rattle.rd_devices.specs.declared.list.Announce.{Announce};
ghost use Rattle.rd_front.specs.declared.calls.FrontCall.{FrontCall};
ghost use Rattle.rd_front.specs.declared.calls.FrontReply.{FrontReply};
ghost use Rattle.rd_served_order.specs.RefusedRefused.{RefusesDirectly};
ghost use Rattle.rd_turn.specs.declared.object.Entry.{Entry};
ghost use Rattle.rd_deeds.specs.Talk.{Deed, EachAfter, client_wrote};
ghost use Rattle.rd_deeds.specs.Told.{Answers, ComesUnworn};
ghost use Rattle.rd_served_order.specs.ServedDeeds.{deeds_of_calls};
ghost use Rattle.rd_served_order.specs.ServedDevices.{ServedDeviceState};
ghost use Rattle.rd_served_order.specs.ServedHistories.{HistoryGoes};
ghost use Rattle.rd_served_order.specs.ServedParts.{FrontPart};
ghost use Rattle.rd_served_order.specs.ServedServed.{Served};
ghost use Rattle.rd_served_order.specs.Orders.{BeginsWith, is_gone_until};
ghost use Rattle.rd_served_order.specs.Tellings.{acts_on};
ghost use Rattle.rd_served_refusals.specs.Heeding.{HearUnhindered, left_by};
ghost use Rattle.rd_front.specs.Calls.{HearBytes};
ghost use Rattle.rd_served_replies.specs.Given.{HadNoFaults, replies_served};
ghost use Rattle.rd_served_replies.specs.Premises.{AreOpened, GiveOwn};
ghost use Rattle.rd_served_causes.specs.Causes.{HaveDesks, StartUnhindered, hindered_after};
ghost use Rattle.rd_served_causes.specs.Cuts.{CutsRemoved};
ghost use Rattle.rd_served_causes.specs.Left.{IsLeftOf, rest_of};
ghost use Rattle.rd_served_causes.specs.Open.{IsOpen};

/// Where a message is heard, or a job tried again, only where no reply hindered since the channel began, no message is heard anywhere else.
pub fn starts_are_heard_unhindered()
    ensures { (entries : List (Entry FrontCall FrontReply)) → StartUnhindered false entries → HearUnhindered false entries }
{}

/// While a channel is on, what was last said of each device, once all that waits is written, is what the client's marks say. And where no reply hindered since the channel began, a device that the
/// host was told of last has a live station, or one whose journal is worn; no other is live.
pub fn fronts_say_who_is_there()
    ensures said { (devices : List Announce) (old new : Served) (entries : List (Entry FrontCall FrontReply)) (parts : List (List FrontPart)) → BeginsWith devices old → HaveDesks devices old.front.desks
        → HistoryGoes old entries parts new → HearBytes entries → StartUnhindered false entries → new.front.on ≡ true
        → SaysMarks new.front.client (written_then new.front.client.core.outbox (client_wrote new.front.channel (deeds_of_calls parts []))) }
    ensures open { (devices : List Announce) (old new : Served) (entries : List (Entry FrontCall FrontReply)) (parts : List (List FrontPart)) → BeginsWith devices old → HaveDesks devices old.front.desks
        → HistoryGoes old entries parts new → HearBytes entries → StartUnhindered false entries → hindered_after false entries ≡ false → IsOpen new }
{}

/// Each refusal of a request that never came is the one that is called for: the client had said that its device is gone, or the device's journal is worn.
pub fn fronts_refuse_as_they_said()
    ensures { (devices : List Announce) (old new : Served) (entries : List (Entry FrontCall FrontReply)) (parts : List (List FrontPart)) → BeginsWith devices old → HaveDesks devices old.front.desks
        → HistoryGoes old entries parts new → HearBytes entries → StartUnhindered false entries → EachAfter RefusesDirectly (deeds_of_calls parts []) }
{}

/// No request comes to a device on a channel after one was refused there for the device's worn journal.
pub fn requests_come_unworn_to_fronts()
    ensures { (devices : List Announce) (old new : Served) (entries : List (Entry FrontCall FrontReply)) (parts : List (List FrontPart)) → BeginsWith devices old → HaveDesks devices old.front.desks
        → HistoryGoes old entries parts new → HearBytes entries → StartUnhindered false entries → EachAfter ComesUnworn (deeds_of_calls parts []) }
{}

/// And each completion is the answer to its key: of those that were written, and of those that still stand in the core's outbox, once they are written.
pub fn fronts_answer()
    ensures written { (calm : Bool) (announced : List Announce) (devices : List (ℕ × ServedDeviceState)) (old new : Served) (entries : List (Entry FrontCall FrontReply)) (parts : List (List FrontPart)) → BeginsWith announced old
        → HaveDesks announced old.front.desks → AreOpened devices old.front.desks → HistoryGoes old entries parts new → GiveOwn new.front.desks → (calm ≡ true → HadNoFaults new.stations) → HearBytes entries → StartUnhindered false entries
        → EachAfter (Answers (replies_served calm devices parts (deeds_of_calls parts []))) (deeds_of_calls parts []) }
    ensures left { (calm : Bool) (announced : List Announce) (devices : List (ℕ × ServedDeviceState)) (old new : Served) (entries : List (Entry FrontCall FrontReply)) (parts : List (List FrontPart)) → BeginsWith announced old
        → HaveDesks announced old.front.desks → AreOpened devices old.front.desks → HistoryGoes old entries parts new → GiveOwn new.front.desks → (calm ≡ true → HadNoFaults new.stations) → HearBytes entries → StartUnhindered false entries
        → EachAfter (Answers (replies_served calm devices parts (deeds_of_calls parts []))) (left_by new.front ++ deeds_of_calls parts []) }
{}

/// With what stood in the outbox as a channel ended, or stands there now, no request was passed over there but the last, each completion is the answer to its key, and what was told of devices is all that the front was told to tell.
pub fn fronts_leave_answers()
    ensures { (calm : Bool) (announced : List Announce) (devices : List (ℕ × ServedDeviceState)) (old new : Served) (entries : List (Entry FrontCall FrontReply)) (parts : List (List FrontPart)) → BeginsWith announced old
        → HaveDesks announced old.front.desks → AreOpened devices old.front.desks → (goes : HistoryGoes old entries parts new) → GiveOwn new.front.desks → (calm ≡ true → HadNoFaults new.stations) → HearBytes entries → StartUnhindered false entries → (c : ℕ)
        → IsLeftOf (replies_served calm devices parts (deeds_of_calls parts [])) announced (is_gone_until parts c) (acts_on c old entries parts new goes) c (deeds_of_calls parts []) (rest_of old entries parts new goes c) }
{}

/// A device is cut off as one that is gone only after it was removed, once for each removal.
pub fn devices_are_cut_where_removed()
    ensures { (devices : List Announce) (old new : Served) (entries : List (Entry FrontCall FrontReply)) (parts : List (List FrontPart)) → BeginsWith devices old
        → HistoryGoes old entries parts new → EachAfter CutsRemoved (deeds_of_calls parts []) }
{}
