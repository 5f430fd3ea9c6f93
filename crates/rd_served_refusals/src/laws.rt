//! What holds of the answers that a front gives without its devices, as contracts of functions that do nothing.

ghost use Rattle.std.specs.Prelude.{◌≡◌, ℕ, List, [], true, false};
ghost use Rattle.rd_base.specs.Layout.{AreBytes};
ghost use Rattle.rd_front.specs.declared.calls.FrontCall.{FrontCall};
ghost use Rattle.rd_front.specs.declared.calls.FrontReply.{FrontReply};
ghost use Rattle.rd_turn.specs.declared.object.Entry.{Entry};
ghost use Rattle.rd_deeds.specs.Talk.{Deed};
ghost use Rattle.rd_served.specs.Deeds.{deeds_of_calls};
ghost use Rattle.rd_served.specs.Histories.{BeginsNew, HistoryGoes};
ghost use Rattle.rd_served.specs.Parts.{FrontPart};
ghost use Rattle.rd_served.specs.Served.{Served};
ghost use Rattle.rd_served_refusals.specs.Heeding.{AreDirectInOrder, CallsHearBefore, EachEndsHeeded, HearInRoom, HearUnhindered, NamesInRoom, PassesNone, left_by};

/// A message of bytes names no device whose number has no room in its field.
pub fn messages_of_bytes_name_in_room()
    ensures { (message : List ℕ) → AreBytes message → NamesInRoom message }
{}

/// Where no message is heard on a channel once a reply hindered, nothing is heard there after a part that stops it.
pub fn nothing_is_heard_too_late()
    ensures { (old new : Served) (entries : List (Entry FrontCall FrontReply)) (parts : List (List FrontPart)) → HistoryGoes old entries parts new → HearUnhindered false entries → CallsHearBefore false parts }
{}

/// Where so it is: of each device on each channel the answers to requests that never came to its station are in the order of reading, up to some.
pub fn fronts_answer_in_order()
    ensures { (old new : Served) (entries : List (Entry FrontCall FrontReply)) (parts : List (List FrontPart)) → BeginsNew old → HistoryGoes old entries parts new
        → HearInRoom entries → HearUnhindered false entries → AreDirectInOrder (deeds_of_calls parts []) }
{}

/// And each request on it that never came, but for the last that was read there, was answered: where the channel ended by what was written or stood in the outbox then, and while it is on by what was written or stands there now. So there is such a rest of each channel.
pub fn fronts_pass_over_none()
    ensures ended { (old new : Served) (entries : List (Entry FrontCall FrontReply)) (parts : List (List FrontPart)) → BeginsNew old → (goes : HistoryGoes old entries parts new)
        → HearInRoom entries → HearUnhindered false entries → EachEndsHeeded old [] entries parts new goes }
    ensures now { (old new : Served) (entries : List (Entry FrontCall FrontReply)) (parts : List (List FrontPart)) → BeginsNew old → HistoryGoes old entries parts new
        → HearInRoom entries → HearUnhindered false entries → new.front.on ≡ true → PassesNone new.front.channel (deeds_of_calls parts []) (left_by new.front) }
    ensures each { (old new : Served) (entries : List (Entry FrontCall FrontReply)) (parts : List (List FrontPart)) → BeginsNew old → HistoryGoes old entries parts new
        → HearInRoom entries → HearUnhindered false entries → (c : ℕ) → (rest : List Deed) × PassesNone c (deeds_of_calls parts []) rest }
{}
