//! The definitions at work, as contracts of functions that do nothing: the checker computes each case; and what holds of every client.

ghost use Rattle.std.specs.Prelude.{◌≡◌, ◌++◌, ◌∷◌, ℕ, List, [], Bool, true, None, Some, Result, Err, Ok, take};
ghost use Rattle.std.specs.List.{flat_map};
ghost use Rattle.rd_base.specs.declared.bad.Why.TheVariants as Why;
ghost use Rattle.rd_base.specs.Statuses.{no_such_device};
ghost use Rattle.rd_devices.specs.declared.list.Announce.{Announce};
ghost use Rattle.rd_devices.specs.DeviceList.{list_bytes};
ghost use Rattle.rd_devices.specs.Removal.{removal_bytes};
ghost use Rattle.rd_hello.specs.declared.client.ClientState.TheVariants as ClientState;
ghost use Rattle.rd_hello.specs.declared.end_fault.EndFault.{EndFault};
ghost use Rattle.rd_hello.specs.declared.end_fault.EndFault.TheVariants as EndFault;
ghost use Rattle.rd_hello.specs.Hello.{hello_bytes};
ghost use Rattle.rd_hello.specs.Moves.{reads, writes};
ghost use Rattle.rd_hello.specs.Own.{client_confirm, client_name, client_sets};
ghost use Rattle.rd_irp.specs.declared.op.Op.TheVariants as Op;
ghost use Rattle.rd_client.specs.declared.heard.Heard.{Heard};
ghost use Rattle.rd_client.specs.declared.heard.Heard.TheVariants as Heard;
ghost use Rattle.rd_client.specs.Core.{AreDevices, KeepsClientChannel, ClientCall, ClientCoreState, ClientStep, IsClientKept, announces, client_begin, client_hear, client_send, direct, direct_bytes, hears, is_gone, plain, refresh, tell_added, tell_removed};
ghost use Rattle.rd_client.specs.Order.{ClientOrder, ClientStanding, client_at_first, stand_after};
ghost use Rattle.rd_client.specs.Events.{AreWritable, ClientEvent, ClientEvents, ClientStandsAt, ClientEventStep, client_event_moves, client_waiting_moves};
ghost use Rattle.rd_client.specs.Worked.{after, announced, client, close_bytes, close_job, confirmed, device_replied, drive, emptied, listed_stand, logged_on, offered, opened_moves, opening, own_completion, own_confirm, own_list, own_name, ready, second_list, stand_of, stand_without, written};

/// How a client becomes ready, and what it announces then.
pub fn clients_open_as_listed()
    ensures ready { (ready.core).shake ≡ ClientState.Ready }
    ensures writes { written ready ≡ hello_bytes (client_confirm (record { minor = 12; client = 1 })) ∷ hello_bytes client_name ∷ hello_bytes client_sets ∷ list_bytes (drive 1 ∷ drive 2 ∷ []) ∷ [] }
    // The confirm may come before the sets.
    ensures confirm_first { after client (announced ∷ confirmed ∷ offered ∷ logged_on ∷ []) ≡ ready }
    // It announces its devices once, and not before the log-on of which the host's sets told.
    ensures waiting { ((after client (announced ∷ offered ∷ confirmed ∷ [])).core).shake ≡ ClientState.Waiting }
    ensures once { written (after ready (logged_on ∷ [])) ≡ written ready }
    // A device that was removed isn't announced on the next channel.
    ensures next_channel { written (after (client_begin (tell_removed ready 1) 2) opening) ≡ hello_bytes (client_confirm (record { minor = 12; client = 1 })) ∷ hello_bytes client_name ∷ hello_bytes client_sets ∷ list_bytes (drive 2 ∷ []) ∷ [] }
    ensures gone { is_gone (client_begin (tell_removed ready 1) 2) 1 ≡ true }
    ensures tells_removed { written (tell_removed ready 1) ≡ written ready ++ removal_bytes (1 ∷ []) ∷ [] }
    ensures tells_added { written (tell_added (tell_removed ready 1) 1) ≡ written ready ++ removal_bytes (1 ∷ []) ∷ list_bytes (drive 1 ∷ []) ∷ [] }
    // Which devices are removed is said at each, so their order leaves no trace.
    ensures no_trace { (tell_removed (tell_removed ready 1) 2).devices ≡ (tell_removed (tell_removed ready 2) 1).devices }
    ensures refreshes { announces (refresh ready 2 (7 ∷ [])) ≡ drive 1 ∷ record (drive 2) { body = 7 ∷ [] } ∷ [] }
{}

/// A completion that no device gives stands beside the key that it answers; no other message has one.
pub fn clients_answer_by_key()
    ensures key { (client_send (direct (emptied ready) close_job 1 no_such_device)).1 ≡ Some (record { message = direct_bytes close_job 1 no_such_device; answers = Some (record { channel = 1; index = 4 }) }) }
    ensures plain { (client_send (tell_removed (emptied ready) 1)).1 ≡ Some (plain (removal_bytes (1 ∷ []))) }
{}

/// What a client hears.
pub fn clients_hear_as_listed()
    ensures short { (client_hear client []).1 ≡ Err (EndFault.Grammar (record { at = 0; why = Why.Short })) }
    ensures unasked { (client_hear client (close_bytes 5)).1 ≡ Err (EndFault.Order 0 0x4952) }
    ensures twice { (client_hear (after client (announced ∷ [])) announced).1 ≡ Err (EndFault.Order 1 0x496e) }
    // After a message that is wrong none is heard, until a channel begins.
    ensures stays { (client_hear (after client (close_bytes 5 ∷ [])) announced).1 ≡ Err (EndFault.Order 0 0x4952) }
    ensures again { (client_hear (client_begin (after client (close_bytes 5 ∷ [])) 2) announced).1 ≡ Ok Heard.Nothing }
    ensures ignores { client_hear ready device_replied ≡ (ready, Ok Heard.Nothing) }
    // A request's key is that of the channel and of its place there.
    ensures asks { (client_hear ready (close_bytes 5)).1 ≡ Ok (Heard.Ask 1 (record { key = record { channel = 1; index = 0 }; file = 3; completion = 5; op = Op.Close })) }
    ensures second { (client_hear (after ready (close_bytes 5 ∷ [])) (close_bytes 6)).1 ≡ Ok (Heard.Ask 1 (record { key = record { channel = 1; index = 1 }; file = 3; completion = 6; op = Op.Close })) }
{}

/// Which messages a client may read and write in which order.
pub fn clients_write_in_order()
    ensures opens { stand_of (opened_moves ++ writes own_list ∷ []) ≡ Some (listed_stand (1 ∷ 2 ∷ [])) }
    // Nothing is written that wasn't asked for, and no device is told of before the list.
    ensures unasked { stand_of (writes own_confirm ∷ []) ≡ None }
    ensures other_order { stand_of (reads announced ∷ writes own_name ∷ []) ≡ None }
    ensures early { stand_of (opened_moves ++ writes (removal_bytes (1 ∷ [])) ∷ []) ≡ None }
    // The first list has just the devices that aren't gone.
    ensures too_short { stand_of (opened_moves ++ writes second_list ∷ []) ≡ None }
    ensures without { stand_without (opened_moves ++ writes second_list ∷ []) ≡ Some (listed_stand (2 ∷ [])) }
    ensures too_long { stand_without (opened_moves ++ writes own_list ∷ []) ≡ None }
    // A completion may be written as soon as a request may come, before the list too.
    ensures completes { stand_of (take 6 opened_moves ++ writes own_completion ∷ []) ≡ stand_of (take 6 opened_moves) }
    ensures completes_before { stand_of (take 5 opened_moves ++ writes own_completion ∷ []) ≡ None }
    // A message that a client ignores is read in order.
    ensures ignores { stand_of (opened_moves ++ writes own_list ∷ reads device_replied ∷ []) ≡ Some (listed_stand (1 ∷ 2 ∷ [])) }
    // A device is removed that is announced, and announced where it isn't.
    ensures removes { stand_of (opened_moves ++ writes own_list ∷ writes (removal_bytes (1 ∷ [])) ∷ []) ≡ Some (listed_stand (2 ∷ [])) }
    ensures removed_before { stand_of (opened_moves ++ writes own_list ∷ writes (removal_bytes (1 ∷ [])) ∷ writes (removal_bytes (1 ∷ [])) ∷ []) ≡ None }
    ensures adds { stand_of (opened_moves ++ writes own_list ∷ writes (removal_bytes (1 ∷ [])) ∷ writes (list_bytes (drive 1 ∷ [])) ∷ []) ≡ Some (listed_stand (2 ∷ 1 ∷ [])) }
    ensures announced_before { stand_of (opened_moves ++ writes own_list ∷ writes (list_bytes (drive 1 ∷ [])) ∷ []) ≡ None }
    ensures foreign { stand_of (opened_moves ++ writes own_list ∷ writes (list_bytes (drive 3 ∷ [])) ∷ []) ≡ None }
{}

/// What a client reads and writes on a channel is in order, whatever is called there, and so it is with all that waits to be sent.
pub fn clients_keep_order()
    ensures ordered { (old new : ClientCoreState) (channel : ℕ) (events : List ClientEvent) → AreDevices (announces old) → AreWritable (announces old) →
        ClientEvents (client_begin old channel) events new → ClientOrder (announces old) (is_gone old) (flat_map client_event_moves events) }
    ensures waits { (old new : ClientCoreState) (channel : ℕ) (events : List ClientEvent) → AreDevices (announces old) → AreWritable (announces old) →
        ClientEvents (client_begin old channel) events new → ClientOrder (announces old) (is_gone old) (flat_map client_event_moves events ++ client_waiting_moves new) }
    // Event by event: where a client stands at first, and where after an event.
    ensures first { (old : ClientCoreState) (channel : ℕ) → AreDevices (announces old) → AreWritable (announces old) →
        ClientStandsAt (announces old) (is_gone old) client_at_first (client_begin old channel) }
    ensures event { (devices : List Announce) (gone : ℕ → Bool) (s : ClientStanding) (old new : ClientCoreState) (event : ClientEvent) →
        ClientStandsAt devices gone s old → ClientEventStep old event new → (t : ClientStanding) × (stand_after devices gone s (client_event_moves event) ≡ Some t) × ClientStandsAt devices gone t new }
{}

/// Each call keeps what always holds of a client: its devices, and that what it has to send fits a message.
pub fn clients_keep()
    ensures { (old new : ClientCoreState) (call : ClientCall) → IsClientKept old → ClientStep old call new → IsClientKept new }
{}

/// What was wrong with a message stays the answer until a channel begins, whatever else is called.
pub fn clients_stay_wrong()
    ensures stays { (old new : ClientCoreState) (call : ClientCall) (fault : EndFault) → ClientStep old call new → KeepsClientChannel call → (old.core).fault ≡ Some fault → (new.core).fault ≡ Some fault }
    ensures answers { (old new : ClientCoreState) (message : List ℕ) (answer : Result Heard EndFault) (fault : EndFault) →
        ClientStep old (hears message answer) new → (old.core).fault ≡ Some fault → answer ≡ Err fault }
{}

/// Where memory may be wanting while a message is heard.
pub fn clients_want_memory()
    ensures request { ClientStep ready (hears (close_bytes 5) (Err EndFault.Memory)) ready }
    // The head of a request is read before.
    ensures short { ClientStep ready (hears (take 10 (close_bytes 5)) (Err EndFault.Memory)) ready → ⊥ }
    // A reply to a device is read without memory, and a packet that isn't read in the state asks for none.
    ensures reply { ClientStep ready (hears device_replied (Err EndFault.Memory)) ready → ⊥ }
    ensures unread { ClientStep client (hears (close_bytes 5) (Err EndFault.Memory)) client → ⊥ }
{}
