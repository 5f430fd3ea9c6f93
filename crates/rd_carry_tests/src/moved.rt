//! A half that is written goes from thread to thread: it is `Send` where its sink is.

ghost use Rattle.std.specs.Prelude.{◌≡◌, [], ℕ, List, Option};
ghost use Rattle.rd_carry.specs.Outgoing.{HasWritten};

use rd_carry::Outgoing;
use rd_link::Hang;
use std::thread::{Threads, join};

/// Writes all that waits.
fn flushed<K: Hang>(mut output: Outgoing<K>) -> Outgoing<K>
    ensures pending { result.pending ≡ [] }
    ensures since { (began : Option (List ℕ)) (messages : List (List ℕ)) → HasWritten began messages output → HasWritten began messages result }
{
    output.flush();
    output
}

/// Moves the half into another thread, which writes all that waits and gives the half back.
pub fn flush_in_thread<T: Threads, K: Hang + Send + Drop>(
    rt: &T,
    output: Outgoing<K>,
) -> Outgoing<K>
    ensures pending { result.pending ≡ [] }
    ensures since { (began : Option (List ℕ)) (messages : List (List ℕ)) → HasWritten began messages output → HasWritten began messages result }
{
    let (output, ()) = join(rt, move || flushed(output), || ());
    output
}

/// Does nothing: its bound is the test.
fn is_send<T: Send>() {}

/// An `Outgoing` is `Send` where its sink is, be that one `Drop` or not. It does nothing.
pub fn outgoing_is_send<K: Hang + Send>() {
    is_send::<Outgoing<K>>()
}
