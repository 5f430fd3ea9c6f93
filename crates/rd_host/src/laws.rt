//! The definitions at work, as contracts of functions that do nothing: the checker computes each case; and what holds of every host.

ghost use Rattle.std.specs.Prelude.{◌≡◌, ◌++◌, ◌∷◌, ℕ, List, [], replicate, None, Some, Result, Err, Ok};
ghost use Rattle.std.specs.List.{flat_map};
ghost use Rattle.rd_devices.specs.Removal.{removal_bytes};
ghost use Rattle.rd_devices.specs.DeviceReply.{reply_bytes};
ghost use Rattle.rd_base.specs.Statuses.{insufficient_resources, not_supported, object_name_collision, success};
ghost use Rattle.rd_base.specs.Limits.{max_devices};
ghost use Rattle.rd_hello.specs.declared.hello.Hello.TheVariants as Hello;
ghost use Rattle.rd_hello.specs.declared.host.HostState.TheVariants as HostState;
ghost use Rattle.rd_hello.specs.declared.end_fault.EndFault.{EndFault};
ghost use Rattle.rd_hello.specs.declared.end_fault.EndFault.TheVariants as EndFault;
ghost use Rattle.rd_hello.specs.Hello.{hello_bytes};
ghost use Rattle.rd_hello.specs.Moves.{reads, writes};
ghost use Rattle.rd_hello.specs.Own.{host_announce, host_sets};
ghost use Rattle.rd_pending.specs.Table.{max_lives};
ghost use Rattle.rd_host.specs.declared.act.Act.{Act};
ghost use Rattle.rd_host.specs.declared.act.Act.TheVariants as Act;
ghost use Rattle.rd_host.specs.Core.{KeepsHostChannel, HostCall, HostCoreState, HostStep, IsHostKept, hears, host_begin, host_hear, reply};
ghost use Rattle.rd_host.specs.Order.{HostOrder, HostStanding, Replying, host_at_first, none_due, stand_after};
ghost use Rattle.rd_host.specs.Events.{AreDue, HostStandsAt, HostEvent, HostEventStep, HostEvents, due_after, host_event_moves, host_waiting_moves};
ghost use Rattle.rd_host.specs.Served.{code_for};
ghost use Rattle.rd_host.specs.Worked.{after, again, announced_event, closed, closed_head, closing, confirmed, drive, due_of, host, listed, many, named, offered, opening_moves, own_reply, ready, removed, replied_stand, replied_event, served, served_events, short_head, stand_of, unsupported};

/// How a host becomes ready.
pub fn hosts_open_as_listed()
    ensures announces { (host.core).outbox ≡ hello_bytes (host_announce 1) ∷ [] }
    ensures ready { (ready.core).shake ≡ HostState.Ready }
    ensures writes { (ready.core).outbox ≡ hello_bytes (host_announce 1) ∷ hello_bytes host_sets ∷ hello_bytes (Hello.Confirm (record { minor = 12; client = 1 })) ∷ hello_bytes Hello.LoggedOn ∷ [] }
    ensures replies { ((reply ready 1 success).core).outbox ≡ (ready.core).outbox ++ reply_bytes (record { id = 1; code = success }) ∷ [] }
{}

/// What a host hears.
pub fn hosts_hear_as_listed()
    ensures early { (host_hear host listed).1 ≡ Err (EndFault.Order 0 0x4441) }
    ensures twice { (host_hear (after host (confirmed ∷ [])) confirmed).1 ≡ Err (EndFault.Order 1 0x4343) }
    ensures stays { (host_hear (after host (listed ∷ [])) confirmed).1 ≡ Err (EndFault.Order 0 0x4441) }
    ensures announced { (host_hear ready listed).1 ≡ Ok (Act.Announced (drive ∷ [])) }
    ensures removed { (host_hear ready removed).1 ≡ Ok (Act.Removed (1 ∷ [])) }
    ensures completed { (host_hear ready closed).1 ≡ Ok (Act.Complete closed_head (replicate 4 0)) }
{}

/// Which messages a host may read and write in which order.
pub fn hosts_write_in_order()
    ensures opens { stand_of [] ≡ Some (replied_stand [] 0) }
    ensures replies { stand_of (reads listed ∷ writes own_reply ∷ []) ≡ Some (replied_stand (1 ∷ []) 1) }
    // A reply is to a device that was announced and has none yet.
    ensures unannounced { stand_of (writes own_reply ∷ []) ≡ None }
    ensures twice { stand_of (reads listed ∷ writes own_reply ∷ writes own_reply ∷ []) ≡ None }
    // Its code is the one that is due.
    ensures code { stand_of (reads listed ∷ writes unsupported ∷ []) ≡ None }
    ensures no_room { stand_of (reads listed ∷ writes (reply_bytes (record { id = 1; code = insufficient_resources })) ∷ []) ≡ None }
    // A device that has a life and is announced again owes a collision; one that was removed begins another life.
    ensures collides { stand_of (reads listed ∷ reads listed ∷ writes own_reply ∷ writes again ∷ []) ≡ Some (replied_stand (1 ∷ []) 1) }
    ensures no_second { stand_of (reads listed ∷ reads listed ∷ writes own_reply ∷ writes own_reply ∷ []) ≡ None }
    ensures next_life { stand_of (reads listed ∷ reads removed ∷ reads listed ∷ writes own_reply ∷ writes own_reply ∷ []) ≡ Some (replied_stand (1 ∷ []) 2) }
    ensures silent { stand_after (host_at_first 1 0) (writes own_reply ∷ []) ≡ None }
{}

/// With which code a host replies to a device, by the devices that have a life and by how many lives were given.
pub fn hosts_reply_by_lives()
    ensures begins { code_for [] 0 8 1 ≡ success }
    ensures unserved { code_for [] 0 1 1 ≡ not_supported }
    ensures again { code_for (1 ∷ []) 1 4 1 ≡ object_name_collision }
    ensures full { code_for (many max_devices) 0 8 1000 ≡ insufficient_resources }
    ensures worn { code_for [] max_lives 8 1 ≡ insufficient_resources }
{}

/// Which replies are due to devices, by the events of a host alone.
pub fn hosts_reply_as_due()
    ensures begins { due_of (announced_event ∷ replied_event success ∷ []) ≡ Some (record { due = []; alive = 1 ∷ []; given = 1 }) }
    ensures collides { due_of (announced_event ∷ announced_event ∷ replied_event success ∷ replied_event object_name_collision ∷ []) ≡ Some (record { due = []; alive = 1 ∷ []; given = 1 }) }
    ensures unannounced { due_of (replied_event success ∷ []) ≡ None }
    ensures twice { due_of (announced_event ∷ replied_event success ∷ replied_event success ∷ []) ≡ None }
    ensures code { due_of (announced_event ∷ replied_event not_supported ∷ []) ≡ None }
{}

/// A host's events from the begin of a channel until it asks a device, with what it reads and writes then.
pub fn hosts_go_as_listed()
    ensures events { HostEvents host served_events served }
    ensures due { AreDue (none_due 0) served_events }
    ensures moves { flat_map host_event_moves served_events ≡ opening_moves ++ reads listed ∷ writes own_reply ∷ writes closing ∷ [] }
{}

/// All that a host reads and writes from the begin of a channel on is in order, where each reply that it is given is the next one that is due.
pub fn hosts_keep_order()
    ensures ordered { (old new : HostCoreState) (events : List HostEvent) (given : ℕ) → HostEvents (host_begin old) events new → AreDue (none_due given) events →
        HostOrder old.client given (flat_map host_event_moves events) }
    // So is what it still has to send.
    ensures waits { (old new : HostCoreState) (events : List HostEvent) (given : ℕ) → HostEvents (host_begin old) events new → AreDue (none_due given) events →
        HostOrder old.client given (flat_map host_event_moves events ++ host_waiting_moves new) }
{}

/// Where a host stands on a channel: it stands somewhere at the begin, and each event's moves lead from where it stands to where it stands then.
pub fn hosts_stand()
    ensures begins { (old : HostCoreState) (given : ℕ) → HostStandsAt (host_at_first old.client given) (none_due given) (host_begin old) }
    ensures step { (s : HostStanding) (r q : Replying) (old new : HostCoreState) (event : HostEvent) →
        HostStandsAt s r old → HostEventStep old event new → due_after r event ≡ Some q →
        (t : HostStanding) × (stand_after s (host_event_moves event) ≡ Some t) × HostStandsAt t q new }
{}

/// Each call keeps what always holds of a host: what it has to send fits a message.
pub fn hosts_keep()
    ensures { (old new : HostCoreState) (call : HostCall) → IsHostKept old → HostStep old call new → IsHostKept new }
{}

/// What was wrong with a message stays the answer until a channel begins, whatever else is called.
pub fn hosts_stay_wrong()
    ensures stays { (old new : HostCoreState) (call : HostCall) (fault : EndFault) → HostStep old call new → KeepsHostChannel call → (old.core).fault ≡ Some fault → (new.core).fault ≡ Some fault }
    ensures answers { (old new : HostCoreState) (message : List ℕ) (answer : Result Act EndFault) (fault : EndFault) →
        HostStep old (hears message answer) new → (old.core).fault ≡ Some fault → answer ≡ Err fault }
{}

/// Where memory may be wanting while a message is heard.
pub fn hosts_want_memory()
    ensures list { HostStep ready (hears listed (Err EndFault.Memory)) ready }
    // The head of a completion is read before memory is asked for, and a packet that isn't read in the state asks for none.
    ensures short_head { HostStep ready (hears short_head (Err EndFault.Memory)) ready → ⊥ }
    ensures unread { HostStep host (hears listed (Err EndFault.Memory)) host → ⊥ }
{}
