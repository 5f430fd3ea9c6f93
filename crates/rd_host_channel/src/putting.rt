//! Messages are put to the half of a channel that is written to.

ghost use Rattle.std.specs.Prelude.{◌≡◌, ◌∷◌, [], false, true, not};
ghost use Rattle.rd_chunk.specs.Carrier.{IsMessage};
ghost use Rattle.rd_host_channel.specs.Putting.{PutsOn, PutsTo};

use rd_base::Bytes;
use rd_carry::Outgoing;
use rd_chunk::MAX_MESSAGE;
use rd_link::Hang;
use rd_room::Room;

/// Puts the messages of a room, where memory was found for each one so far. Where it isn't found for one of them all that was put is written, and the half hung up.
pub(crate) fn put_room<K: Hang>(room: Room, output: &mut Outgoing<K>, starved: &mut bool) -> Room
    ensures { PutsOn starved.old starved.new room.messages output.old output.new }
{
    if *starved {
        return room;
    }
    let (room, wanting) = put_all(room, output);
    if wanting {
        starve(output, starved);
    }
    room
}

/// No memory was found for a message, so nothing more is written.
pub(crate) fn starve<K: Hang>(output: &mut Outgoing<K>, starved: &mut bool)
    ensures starved { starved.new ≡ true }
    ensures put { PutsTo false [] output.old output.new }
{
    *starved = true;
    output.flush();
    output.hang_up();
}

/// Puts messages to those that wait to be written, which are written where they are many; up to one for which no memory was found, if there is one.
fn put_all<K: Hang>(room: Room, output: &mut Outgoing<K>) -> (Room, bool)
    ensures { PutsTo result.1 room.messages output.old output.new }
{
    let mut room = room;
    while let Some(message) = room.pop() {
        if !put(output, &message) {
            return (room, true);
        }
    }
    (room, false)
}

/// Puts a message to those that wait. Whether memory was found for it; one that is empty or longer than a message may be is taken for want of memory.
fn put<K: Hang>(output: &mut Outgoing<K>, message: &Bytes) -> bool
    ensures { PutsTo (not result) (message.now ∷ []) output.old output.new }
{
    let message = message.as_slice();
    if message.is_empty() || message.len() > MAX_MESSAGE {
        return false;
    }
    flush_if(output.is_full(), output);
    put_one(output, message)
}

/// Puts a message that may be one.
fn put_one<K: Hang>(output: &mut Outgoing<K>, message: &[u8]) -> bool
    requires { IsMessage message.now }
    ensures { PutsTo (not result) (message.now ∷ []) output.old output.new }
{
    output.put(message).is_ok()
}

/// Writes all that waits, where that is wanted.
fn flush_if<K: Hang>(is_wanted: bool, output: &mut Outgoing<K>)
    ensures { PutsTo false [] output.old output.new }
{
    if is_wanted {
        output.flush();
    }
}
