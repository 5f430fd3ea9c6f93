//! Why a channel is read no further.

ghost use Rattle.std.specs.Prelude.{◌≡◌, ◌+◌, ◌-◌};
ghost use Rattle.rd_carry.specs.declared.ended.EndWhy.TheVariants as Why;
ghost use Rattle.rd_host_channel.specs.Reading.{body_place, id_place, ending_by, wrong_at};
ghost use Rattle.rd_host_channel.specs.declared.ending.Ending.TheVariants as Ended;

use rd_base::Bad;
use rd_carry::{CarryNo, EndWhy};
use rd_hello::EndFault;

/// The places of a completion's id and of its body in its message.
const ID_PLACE: u64 = 8;

const BODY_PLACE: u64 = 16;

/// Why a channel is read no further.
#[derive(Clone, Copy)]
pub enum Ending {
    /// The input came to its end.
    Input,
    /// A read failed.
    Unread,
    /// What the client sent is wrong: at this place of the stream for a fault of the frames, where `message` is 0; else at this place of the message behind so many.
    Fault { at: u64, message: u64, why: EndWhy },
    /// So many bytes were read as are read at most, 2^40.
    Long,
    /// No memory was found.
    Memory,
    /// The channel had ended before, by the script.
    Over,
}

/// Why a channel is read no further whose input can't be.
pub(crate) fn ending_by(no: CarryNo) -> Ending
    ensures { result ≡ ending_by no }
{
    match no {
        CarryNo::Failed => Ending::Unread,
        CarryNo::Bad(bad) => Ending::Fault {
            at: bad.at,
            message: 0,
            why: EndWhy::Chunk(bad.why),
        },
        CarryNo::Long => Ending::Long,
        CarryNo::Memory => Ending::Memory,
    }
}

/// The last of so many messages is wrong.
pub(crate) fn wrong(fault: EndFault, heard: u64) -> Ending
    ensures { result ≡ Ended.Fault (wrong_at fault) (heard - 1) (Why.Message fault) }
{
    Ending::Fault {
        at: wrong_at(fault),
        message: heard.saturating_sub(1),
        why: EndWhy::Message(fault),
    }
}

/// Where a message has its fault.
fn wrong_at(fault: EndFault) -> u64
    ensures { result ≡ wrong_at fault }
{
    match fault {
        EndFault::Grammar(bad) => u64::from(bad.at),
        _ => 0,
    }
}

/// The last of so many messages is a completion that belongs to no request.
pub(crate) fn stray(heard: u64) -> Ending
    ensures { result ≡ Ended.Fault id_place (heard - 1) Why.Stray }
{
    Ending::Fault {
        at: ID_PLACE,
        message: heard.saturating_sub(1),
        why: EndWhy::Stray,
    }
}

/// The last of so many messages is a completion with a body that isn't one for its request.
pub(crate) fn body_bad(bad: Bad, heard: u64) -> Ending
    ensures { result ≡ Ended.Fault (body_place + bad.at) (heard - 1) (Why.BodyBad bad.why) }
{
    Ending::Fault {
        at: BODY_PLACE + u64::from(bad.at),
        message: heard.saturating_sub(1),
        why: EndWhy::BodyBad(bad.why),
    }
}
