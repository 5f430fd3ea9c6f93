//! What follows where all that was read is handled, and all that was put written. These functions do nothing: their clauses are laws.

ghost use Rattle.std.specs.Prelude.{◌≡◌, ℕ, List, [], Option, Some};
ghost use Rattle.std.specs.Io.KnownBytes.{Appends, Consumes, IsAtEnd};
ghost use Rattle.rd_base.specs.Prefixes.{AppendsPrefix};
ghost use Rattle.rd_chunk.specs.Carrier.{carrier_stream};
ghost use Rattle.rd_chunk.specs.Streams.{IsStream};
ghost use Rattle.rd_carry.specs.Incoming.{IncomingState, HasHeard};
ghost use Rattle.rd_carry.specs.Outgoing.{HasWritten, OutgoingState};

/// Where all that was read is handled, it is the messages handed out, in their frames, and then a part that is no whole message. There is
/// one such list of messages (`one_reading` of `rd_chunk`).
pub fn all_handled()
    ensures { (s : IncomingState) → HasHeard s → s.unhandled ≡ [] → IsStream s.messages s.read }
{}

/// So where the source tells its bytes and was read to its end, that is what it had from the half's beginning on.
pub fn read_to_the_end()
    ensures { (s : IncomingState) (bytes : List ℕ) → HasHeard s → s.unhandled ≡ [] → Consumes (Some bytes) s.left s.read → IsAtEnd s.left
        → IsStream s.messages bytes }
{}

/// Of the frames of all messages put a prefix was written, in order; and all of them where no write failed and nothing waits.
pub fn frames_are_written()
    ensures prefix { (began : Option (List ℕ)) (messages : List (List ℕ)) (s : OutgoingState) → HasWritten began messages s
        → AppendsPrefix began s.held (carrier_stream messages) }
    ensures all { (began : Option (List ℕ)) (messages : List (List ℕ)) (s : OutgoingState) → HasWritten began messages s → s.faults ≡ 0 → s.pending ≡ []
        → Appends began s.held (carrier_stream messages) }
{}
