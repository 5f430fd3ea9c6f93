//! Hearing a recording, entry by entry.

ghost use Rattle.std.specs.Prelude.{◌≡◌, ◌+◌, ◌<◌, ◌^◌, Ok, IfOk, IfErr, length};
ghost use Rattle.rd_decode.specs.declared.fault.FaultWhy.TheVariants as fault;
ghost use Rattle.rd_recorded.specs.declared.no.RecordingNo.TheVariants as no;
ghost use Rattle.rd_recorded.specs.Entries.{recorded_channels};
ghost use Rattle.rd_recorded.specs.Kept.{RefusedFor};

use crate::channel::HeardChannel;
use crate::hearing::Hearing;
use crate::no::RecordingNo;
use rd_base::Why;
use rd_decode::{Fault, FaultWhy, LineNo};
use std::alloc::Global;

/// With what a recording begins.
const MAGIC: &[u8] = b"RDRREC01";

/// The channels of a recording, whose first byte has this place in the file that holds it.
pub fn recorded_channels<'a>(
    alloc: Global,
    bytes: &'a [u8],
    at: u64,
) -> Result<Vec<HeardChannel<'a>>, RecordingNo>
    requires { at + length bytes.now < 2 ^ 62 }
    ensures heard { IfOk result (λ channels. recorded_channels at bytes.now ≡ Ok channels.items) }
    ensures refused { IfErr result (RefusedFor (recorded_channels at bytes.now)) }
{
    if bytes.len() < MAGIC.len() || !bytes.starts_with(MAGIC) {
        return Err(bad(at, Why::Value));
    }
    let mut hearing = Hearing::new(alloc);
    let mut taken = MAGIC.len();
    while taken < bytes.len() {
        let place = at + taken as u64;
        match hearing.take(&bytes[taken..]) {
            Ok(Some(size)) => taken += size,
            Ok(None) => return Err(bad(place + 1, Why::Short)),
            Err(LineNo::Bad(fault)) => {
                return Err(RecordingNo::Bad(Fault {
                    at: place + u64::from(fault.offset),
                    why: fault.why,
                }));
            }
            Err(LineNo::Memory) => return Err(RecordingNo::Memory),
        }
    }
    Ok(hearing.finish()?)
}

/// A fault of the recording itself, at this place.
fn bad(at: u64, why: Why) -> RecordingNo
    ensures { result ≡ no.Bad (record { at = at; why = fault.Field why }) }
{
    let why = FaultWhy::Field(why);
    RecordingNo::Bad(Fault { at, why })
}
