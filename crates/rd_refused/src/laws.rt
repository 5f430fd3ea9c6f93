//! Which refusal is given to a request that never came, as contracts of functions that do nothing.

ghost use Rattle.std.specs.Prelude.{◌≡◌, ℕ, true, ◌==◌, ◌<◌, ◌^◌, ◌||◌, ◌&&◌, not, Bool, List, ◌∷◌, []};
ghost use Rattle.std.specs.List.{list_any};
ghost use Rattle.rd_base.specs.declared.journal.Key.{Key};
ghost use Rattle.rd_devices.specs.DeviceList.{SpellsList, list_bytes};
ghost use Rattle.rd_devices.specs.Removal.{removal_bytes};
ghost use Rattle.rd_devices.specs.declared.list.Announce.{Announce};
ghost use Rattle.rd_hello.specs.Hello.{hello_bytes};
ghost use Rattle.rd_hello.specs.declared.hello.Hello.{Hello};
ghost use Rattle.rd_irp.specs.declared.completion.Body.{Body};
ghost use Rattle.rd_irp.specs.declared.completion.Head.{Head};
ghost use Rattle.rd_irp.specs.declared.completion.Kind.{Kind};
ghost use Rattle.rd_irp.specs.Written.{completion_bytes};
ghost use Rattle.rd_script.specs.declared.line.NumberedLine.{NumberedLine};
ghost use Rattle.rd_replied.specs.RunsMoves.{Reached};
ghost use Rattle.rd_replied.specs.RunsPremises.{RunPremises};
ghost use Rattle.rd_declared.specs.Declaring.{bare_lines, declared_devices};
ghost use Rattle.rd_world.specs.Session.{replies_in};
ghost use Rattle.rd_deeds.specs.Talk.{EachAfter};
ghost use Rattle.rd_deeds.specs.Told.{Answers, is_said_gone};
ghost use Rattle.rd_world.specs.World.{WorldState};
ghost use Rattle.rd_client.specs.Core.{AreDevices, ClientCoreState, announces, listed, listed_one, refresh, tell_added, tell_removed};
ghost use Rattle.rd_refused.specs.Refused.{MarksSay, RefusesDirectly};

/// Where each refusal of a request that never came is the one that its device's removal or journal calls for, each completion is the answer to its key.
pub fn refusals_are_left()
    ensures { (lines : List NumberedLine) (starves : Key → Bool) (w : WorldState) → RunPremises lines → Reached lines starves w → EachAfter RefusesDirectly w.deeds
        → EachAfter (Answers (replies_in (declared_devices (bare_lines lines)) w.deeds)) w.deeds }
{}

/// What a client writes says of each device what it is meant to: a removal that its device is gone, a list that its devices are there, and a completion or a message of the opening nothing.
pub fn messages_say_who_is_gone()
    ensures removal { (d e : ℕ) (older : List (List ℕ)) → e < 2 ^ 32 → is_said_gone d (removal_bytes (e ∷ []) ∷ older) ≡ (e == d || is_said_gone d older) }
    ensures list { (d : ℕ) (list : List Announce) (older : List (List ℕ)) → SpellsList list 0 (list_bytes list)
        → is_said_gone d (list_bytes list ∷ older) ≡ (not (list_any (λ (a : Announce). a.id == d) list) && is_said_gone d older) }
    ensures completion { (d : ℕ) (kind : Kind) (head : Head) (body : Body) (older : List (List ℕ)) → is_said_gone d (completion_bytes kind head body ∷ older) ≡ is_said_gone d older }
    ensures opening { (d : ℕ) (x : Hello) (older : List (List ℕ)) → is_said_gone d (hello_bytes x ∷ older) ≡ is_said_gone d older }
{}

/// So what a client says of its devices is what its marks say, where that was so before: after a removal, after a device is there again, and after its data is another.
/// And so it is after the first list, before which nothing was said of any.
pub fn marks_are_said()
    ensures removed { (c : ClientCoreState) (device : ℕ) (older : List (List ℕ)) → device < 2 ^ 32 → MarksSay c older → MarksSay (tell_removed c device) (removal_bytes (device ∷ []) ∷ older) }
    ensures added { (c : ClientCoreState) (device : ℕ) (older : List (List ℕ)) → SpellsList (listed_one c device) 0 (list_bytes (listed_one c device)) → MarksSay c older
        → MarksSay (tell_added c device) (list_bytes (listed_one c device) ∷ older) }
    ensures first { (c : ClientCoreState) (older : List (List ℕ)) → AreDevices (announces c) → SpellsList (listed c) 0 (list_bytes (listed c)) → ((device : ℕ) → is_said_gone device older ≡ true)
        → MarksSay c (list_bytes (listed c) ∷ older) }
    ensures refreshed { (c : ClientCoreState) (device : ℕ) (body : List ℕ) (older : List (List ℕ)) → MarksSay c older → MarksSay (refresh c device body) older }
{}
