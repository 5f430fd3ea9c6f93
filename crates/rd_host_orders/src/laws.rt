//! What holds of the messages of a host that keeps its table, as contracts of functions that do nothing.

ghost use Rattle.std.specs.Prelude.{◌≡◌, ◌++◌, ◌∷◌, ℕ, List, [], Some, filter_map, reverse};
ghost use mathlib.Core.List.{IsPrefix};
ghost use Rattle.rd_hello.specs.Moves.{writes};
ghost use Rattle.rd_host.specs.Order.{HostOrder};
ghost use Rattle.rd_pending.specs.History.{lives_before};
ghost use Rattle.rd_deeds.specs.HostDeeds.{MayDo, calls_of, side_of};
ghost use Rattle.rd_world.specs.Lines.{submitted};
ghost use Rattle.rd_world.specs.Recording.{client_id};
ghost use Rattle.rd_deeds.specs.Talk.{Deed, EachAfter, host_ends, host_moves, host_wrote};
ghost use Rattle.rd_host_orders.specs.Requests.{accepted_messages, sent_requests};
ghost use Rattle.rd_host_orders.specs.SoundMoves.{IsSoundOn, sound_moves, written_in};
ghost use Rattle.rd_host_orders.specs.Worked.{greeting, wrong_at_once};

/// What a host that keeps its table reads and writes on each channel is in order, whatever comes: a message that is wrong isn't counted, nor is one that is read after it on the channel, and what is written after it is in order still.
pub fn hosts_keep_the_order()
    ensures order { (deeds : List Deed) → EachAfter (λ before deed. MayDo (side_of client_id before) deed) deeds → (c : ℕ)
        → HostOrder client_id (lives_before c (calls_of client_id deeds)) (reverse (sound_moves c deeds)) }
    // All that it wrote is counted.
    ensures written { (deeds : List Deed) (c : ℕ) → filter_map written_in (sound_moves c deeds) ≡ host_wrote c deeds }
    // And all that it read, where nothing was wrong.
    ensures sound { (deeds : List Deed) (c : ℕ) → EachAfter (IsSoundOn c) deeds → sound_moves c deeds ≡ host_moves c deeds }
{}

/// The requests that a host that keeps its table wrote on a channel are the first of those that it accepted there, in order, each with its own device, file, completion id and operation.
pub fn requests_are_those_accepted()
    ensures first { (deeds : List Deed) → EachAfter (λ before deed. MayDo (side_of client_id before) deed) deeds → (c : ℕ) → IsPrefix (sent_requests c deeds) (accepted_messages c deeds) }
    // On the open channel the others are to be sent.
    ensures others { (deeds : List Deed) → EachAfter (λ before deed. MayDo (side_of client_id before) deed) deeds → (c : ℕ) → ((side_of client_id deeds).table).channel ≡ Some c
        → accepted_messages c deeds ≡ sent_requests c deeds ++ ((side_of client_id deeds).table).outbox }
    // Where a channel ended while none was to be sent, all were written.
    ensures all { (later before : List Deed) (c : ℕ) → EachAfter (λ before deed. MayDo (side_of client_id before) deed) (later ++ host_ends c ∷ before) → ((side_of client_id before).table).outbox ≡ []
        → sent_requests c (later ++ host_ends c ∷ before) ≡ accepted_messages c (later ++ host_ends c ∷ before) }
    // They are those that were submitted while the channel was open.
    ensures submitted { (deeds : List Deed) → EachAfter (λ before deed. MayDo (side_of client_id before) deed) deeds → (c : ℕ) → reverse (submitted c deeds) ≡ accepted_messages c deeds }
{}

/// A host may write its greeting behind a message that is wrong: that is in order without the message, and not with it.
pub fn one_wrong_message()
    ensures kept { EachAfter (λ before deed. MayDo (side_of client_id before) deed) wrong_at_once }
    ensures counted { sound_moves 1 wrong_at_once ≡ writes greeting ∷ [] }
    ensures not_all { ¬ (HostOrder client_id 0 (reverse (host_moves 1 wrong_at_once))) }
{}
