//! How the end of a host hears a message (MS-RDPEFS 3.3.5).

ghost use Rattle.std.specs.Prelude.{◌≡◌, ◌≢◌, IsTrue, IfErr, IfOk, OnOk, Some, None, Ok, Err};
ghost use Rattle.rd_base.specs.declared.packet.Packet.{Packet};
ghost use Rattle.rd_base.specs.declared.packet.Packet.TheVariants as packet;
ghost use Rattle.rd_hello.specs.declared.end_fault.EndFault.TheVariants as fault;
ghost use Rattle.rd_hello.specs.HostTable.{host_step};
ghost use Rattle.rd_hello.specs.Moves.{packet_in};
ghost use Rattle.rd_core.specs.Hearing.{MayLack, by_row, hear_said, is_hello};
ghost use Rattle.rd_core.specs.Expected.{IsComing, ReadsBefore};
ghost use Rattle.rd_base.specs.Position.{at_start};
ghost use Rattle.rd_devices.specs.DeviceList.{device_list};
ghost use Rattle.rd_devices.specs.Removal.{removal};
ghost use Rattle.rd_host.specs.Core.{host_reads_in, host_side};
ghost use Rattle.rd_host.specs.Heard.{HostEndHears, HasBody, answer_of};

use crate::act::LentAct;
use rd_base::{Bad, Bytes, Cursor, Packet, ReadNo, read_count32, read_header};
use rd_core::{EndCore, read_opening, write_opening};
use rd_devices::{MAX_DEVICES, read_list, read_removal};
use rd_hello::{EndFault, Hello, HostState, ShakeNo, host_row};
use rd_irp::{COMPLETION_HEAD_LEN, read_head};
use std::alloc::Global;

/// The end of a host: what waits to be sent are messages.
pub type HostEnd = EndCore<HostState, Bytes>;

/// Hears a message of the client. The bytes after a completion's head stay in the message.
pub fn listen<'m>(
    end: &mut HostEnd,
    alloc: Global,
    message: &'m [u8],
) -> Result<LentAct<'m>, EndFault>
    ensures step { HostEndHears end.old message.now (answer_of result) end.new }
    ensures lacking { IfOk result (λ heard. HasBody heard → MayLack host_side end.old message.now × (end.new ≡ end.old)) }
    ensures lent { packet_in message.now ≡ Some packet.IoCompletion → result ≢ Err fault.Memory }
{
    let state = end.state();
    let packet = match end.expect(state.number(), reads_in(state), message) {
        Ok(packet) => packet,
        Err(fault) => return Err(fault),
    };
    match packet {
        Packet::DeviceListAnnounce => hear_list(end, alloc, message),
        Packet::DeviceListRemove => hear_removal(end, alloc, message),
        Packet::IoCompletion => hear_completion(end, message),
        _ => hear_opening(end, alloc, message),
    }
}

/// The packets that are read in a state.
fn reads_in(state: HostState) -> &'static [Packet]
    ensures { result.now ≡ host_reads_in state }
{
    match state {
        HostState::Start => &[Packet::ClientIdConfirm],
        HostState::Confirmed(_) => &[Packet::ClientName],
        HostState::Offered => &[Packet::ClientCapability],
        HostState::Ready => &[
            Packet::DeviceListAnnounce,
            Packet::DeviceListRemove,
            Packet::IoCompletion,
        ],
    }
}

/// Hears a message of the opening.
fn hear_opening<'m>(
    end: &mut HostEnd,
    alloc: Global,
    message: &'m [u8],
) -> Result<LentAct<'m>, EndFault>
    requires { (p : Packet) × IsComing host_side end.old message.now p × IsTrue (is_hello p) }
    ensures step { HostEndHears end.old message.now (answer_of result) end.new }
    ensures lacking { IfOk result (λ heard. HasBody heard → MayLack host_side end.old message.now × (end.new ≡ end.old)) }
{
    let hello = match read_opening(alloc, message) {
        Ok(hello) => hello,
        Err(ReadNo::Bad(bad)) => return Err(end.fail(bad)),
        Err(ReadNo::Memory) => return Err(EndFault::Memory),
    };
    match go_on(end, alloc, &hello) {
        Ok(()) => Ok(LentAct::Nothing),
        Err(fault) => Err(fault),
    }
}

/// Goes on by the row of a message of the opening, where the table has one.
fn go_on(end: &mut HostEnd, alloc: Global, hello: &Hello) -> Result<(), EndFault>
    ensures ok { OnOk result (hear_said host_side end.old (by_row host_side (host_step end.old.shake hello.now)) ≡ (end.new, Ok None)) }
    ensures err { IfErr result (λ wrong. (wrong ≡ fault.Memory) × (end.new ≡ end.old)) }
{
    let (first, second, next) = match host_row(alloc, end.state(), hello) {
        Ok(row) => row,
        Err(ShakeNo::OutOfOrder { .. }) => return Ok(()),
        Err(ShakeNo::Memory) => return Err(EndFault::Memory),
    };
    let first = write_opening(alloc, &first)?;
    let second = write_opening(alloc, &second)?;
    end.open(next, first, second, None)?;
    Ok(())
}

/// Hears a list of devices.
fn hear_list<'m>(
    end: &mut HostEnd,
    alloc: Global,
    message: &'m [u8],
) -> Result<LentAct<'m>, EndFault>
    requires { IsComing host_side end.old message.now packet.DeviceListAnnounce }
    ensures step { HostEndHears end.old message.now (answer_of result) end.new }
    ensures lacking { IfOk result (λ heard. HasBody heard → MayLack host_side end.old message.now × (end.new ≡ end.old)) }
{
    match read_list(alloc, message) {
        Ok((devices, _tail)) => Ok(LentAct::Announced(devices)),
        Err(ReadNo::Bad(bad)) => Err(end.fail(bad)),
        Err(ReadNo::Memory) => match before_devices(message) {
            Ok(()) => Err(EndFault::Memory),
            Err(bad) => Err(end.fail(bad)),
        },
    }
}

/// Reads what stands before the devices of a list: nothing is wrong there, or this is the first fault.
#[tactic(auto, unfolding(rd_devices::specs::DeviceList::device_list, rd_base::specs::Counted::counted))]
fn before_devices(message: &[u8]) -> Result<(), Bad>
    ensures { ReadsBefore 8 device_list (at_start message.now) result }
{
    let mut cursor = Cursor::new(message);
    read_header(&mut cursor, Packet::DeviceListAnnounce)?;
    read_count32(&mut cursor, MAX_DEVICES)?;
    Ok(())
}

/// Hears a removal of devices.
fn hear_removal<'m>(
    end: &mut HostEnd,
    alloc: Global,
    message: &'m [u8],
) -> Result<LentAct<'m>, EndFault>
    requires { IsComing host_side end.old message.now packet.DeviceListRemove }
    ensures step { HostEndHears end.old message.now (answer_of result) end.new }
    ensures lacking { IfOk result (λ heard. HasBody heard → MayLack host_side end.old message.now × (end.new ≡ end.old)) }
{
    match read_removal(alloc, message) {
        Ok((ids, _tail)) => Ok(LentAct::Removed(ids)),
        Err(ReadNo::Bad(bad)) => Err(end.fail(bad)),
        Err(ReadNo::Memory) => match before_ids(message) {
            Ok(()) => Err(EndFault::Memory),
            Err(bad) => Err(end.fail(bad)),
        },
    }
}

/// Reads what stands before the ids of a removal: nothing is wrong there, or this is the first fault.
#[tactic(auto, unfolding(rd_devices::specs::Removal::removal, rd_base::specs::Counted::counted))]
fn before_ids(message: &[u8]) -> Result<(), Bad>
    ensures { ReadsBefore 8 removal (at_start message.now) result }
{
    let mut cursor = Cursor::new(message);
    read_header(&mut cursor, Packet::DeviceListRemove)?;
    read_count32(&mut cursor, MAX_DEVICES)?;
    Ok(())
}

/// Hears a completion, whose bytes after the head are lent.
fn hear_completion<'m>(end: &mut HostEnd, message: &'m [u8]) -> Result<LentAct<'m>, EndFault>
    requires { IsComing host_side end.old message.now packet.IoCompletion }
    ensures step { HostEndHears end.old message.now (answer_of result) end.new }
    ensures lacking { IfOk result (λ heard. HasBody heard → MayLack host_side end.old message.now × (end.new ≡ end.old)) }
    ensures lent { result ≢ Err fault.Memory }
{
    match read_head(message) {
        Ok(head) => Ok(LentAct::Complete {
            head,
            body: &message[COMPLETION_HEAD_LEN..],
        }),
        Err(bad) => Err(end.fail(bad)),
    }
}
