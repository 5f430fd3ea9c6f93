//! The summary of a load.
//!
//! Cost: one pass over the outcomes and the bytes that were read, of which nothing is copied.

ghost use Rattle.std.specs.Prelude.{◌≡◌, ◌+◌, ◌*◌, ◌<◌, ◌≤◌, ◌^◌, if◌then◌else◌, length, IfOk, string_bytes};
ghost use Rattle.std.specs.List.{sum};
ghost use Rattle.rd_irp.specs.Fits.{IsCountableBody};
ghost use Rattle.rd_script.specs.Report.{AreCountable, IsCountableOutcome};
ghost use Rattle.rd_cli.specs.Summary.{buffer_of, bytes_read_by, bytes_read, count_done, count_lost, was_done, was_lost, summary_of};

use rd_irp::Body;
use rd_script::{Outcome, Outcomes};
use std::alloc::{AllocError, Global};

/// What lines came to.
struct Tally {
    /// How many are done, and how many lost.
    done: u64,
    lost: u64,
    /// How many bytes were read, and their sum.
    bytes: u128,
    sum: u128,
}

impl Tally {
    /// One line more.
    fn add(&mut self, outcome: &Outcome)
        requires countable { IsCountableOutcome outcome.now }
        requires done { self.old.done + 1 < 2 ^ 64 }
        requires lost { self.old.lost + 1 < 2 ^ 64 }
        requires bytes { self.old.bytes + 2 ^ 64 ≤ 2 ^ 128 }
        requires sum { self.old.sum + 2 ^ 64 ≤ 2 ^ 128 }
        ensures done { self.new.done ≡ self.old.done + (if was_done outcome.now then 1 else 0) }
        ensures lost { self.new.lost ≡ self.old.lost + (if was_lost outcome.now then 1 else 0) }
        ensures bytes { self.new.bytes ≡ self.old.bytes + length (bytes_read_by outcome.now) }
        ensures sum { self.new.sum ≡ self.old.sum + sum (bytes_read_by outcome.now) }
        ensures few { length (bytes_read_by outcome.now) < 2 ^ 64 }
        ensures small { sum (bytes_read_by outcome.now) < 2 ^ 64 }
    {
        match outcome {
            Outcome::Done(reply) => {
                let bytes = buffer_of(&reply.body);
                self.done += 1;
                self.bytes += bytes.len() as u128;
                self.sum += u128::from(sum_of(bytes));
            }
            Outcome::Lost(_) => self.lost += 1,
            Outcome::Refused(_) => {}
        }
    }
}

/// The bytes of a body that is a buffer.
fn buffer_of(body: &Body) -> &[u8]
    requires { IsCountableBody body.now }
    ensures bytes { result.now ≡ buffer_of body.now }
    ensures few { length result.now < 2 ^ 32 }
{
    match body {
        Body::Buffer(bytes) => bytes.as_slice(),
        _ => &[],
    }
}

/// The sum of bytes.
fn sum_of(bytes: &[u8]) -> u64
    requires { length bytes.now < 2 ^ 32 }
    ensures { result ≡ sum bytes.now }
{
    let mut sum = 0u64;
    for byte in bytes {
        sum += u64::from(*byte);
    }
    sum
}

/// What the lines came to.
fn tally_of(told: &Outcomes) -> Tally
    requires { AreCountable told.now.lines.entries }
    ensures done { result.done ≡ count_done told.now.lines.entries }
    ensures lost { result.lost ≡ count_lost told.now.lines.entries }
    ensures bytes { result.bytes ≡ length (bytes_read told.now.lines.entries) }
    ensures sum { result.sum ≡ sum (bytes_read told.now.lines.entries) }
{
    let mut tally = Tally {
        done: 0,
        lost: 0,
        bytes: 0,
        sum: 0,
    };
    for (_, outcome) in told.lines.iter() {
        tally.add(outcome);
    }
    tally
}

/// The line that says what a load came to.
pub fn summary_of(alloc: Global, number: u32, told: &Outcomes) -> Result<String, AllocError>
    requires { AreCountable told.now.lines.entries }
    ensures { IfOk result (λ line. string_bytes line ≡ summary_of number told.now.lines.entries) }
{
    let Tally {
        done,
        lost,
        bytes,
        sum,
    } = tally_of(told);
    let accepted = u128::from(done) + u128::from(lost);
    format!(in alloc;
        "load {number} accepted {accepted} done {done} lost {lost} bytes {bytes} sum {sum}\n"
    )
}
