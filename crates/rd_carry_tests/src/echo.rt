//! A caller of any two halves: it writes back each message that comes in.

ghost use Rattle.std.specs.Prelude.{◌≡◌, [], OnOk};
ghost use Rattle.rd_carry.specs.Incoming.{HasHeard, new_incoming};
ghost use Rattle.rd_carry.specs.Outgoing.{new_outgoing};
ghost use Rattle.rd_carry_tests.specs.Echo.{Echoes, EchoedAll};

use rd_base::Source;
use rd_carry::{CarryNo, Incoming, Outgoing};
use rd_link::Hang;

/// Puts all messages of what was read.
fn put_all<S: Source, K: Hang>(
    input: &mut Incoming<S>,
    output: &mut Outgoing<K>,
) -> Result<(), CarryNo>
    ensures handled { OnOk result (input.new.unhandled ≡ []) }
    ensures heard { OnOk result (HasHeard input.new) }
    ensures echoes { OnOk result (Echoes input.old input.new output.old output.new) }
{
    while let Some(message) = input.message()? {
        if output.put(message.as_slice()).is_err() {
            return Err(CarryNo::Memory);
        }
    }
    Ok(())
}

/// Puts each message that comes in until the end, and writes what was put after each read.
pub fn echo_all<S: Source, K: Hang>(
    input: &mut Incoming<S>,
    output: &mut Outgoing<K>,
) -> Result<(), CarryNo>
    requires input { input.old ≡ new_incoming input.old.left input.old.faults input.old.room }
    requires output { output.old ≡ new_outgoing output.old.held output.old.capacity }
    // Where no write failed, and the input tells its bytes, what was written are the frames of its messages.
    ensures echoed { OnOk result (EchoedAll input.old.left output.old.held output.new) }
{
    for _ in 0..u64::MAX {
        put_all(input, output)?;
        output.flush();
        if !input.read()? {
            return Ok(());
        }
    }
    Err(CarryNo::Long)
}
