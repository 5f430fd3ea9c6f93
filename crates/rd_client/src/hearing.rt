//! How the end of a client hears a message (MS-RDPEFS 3.2.5).

ghost use Rattle.std.specs.Prelude.{◌≡◌, ◌≤◌, List, IsTrue, IfErr, IfNone, IfOk, IfSome, OnOk, Some, Ok};
ghost use Rattle.rd_base.specs.Reading.{Reads};
ghost use Rattle.rd_base.specs.declared.bad.Bad.{Bad};
ghost use Rattle.rd_base.specs.declared.packet.Packet.{Packet};
ghost use Rattle.rd_base.specs.declared.packet.Packet.TheVariants as packet;
ghost use Rattle.rd_base.specs.Layout.{met};
ghost use Rattle.rd_base.specs.Position.{Position, at_start};
ghost use Rattle.rd_core.specs.Expected.{IsComing, ReadsBefore};
ghost use Rattle.rd_core.specs.Hearing.{by_row, is_hello};
ghost use Rattle.rd_hello.specs.declared.end_fault.EndFault.TheVariants as fault;
ghost use Rattle.rd_hello.specs.ClientTable.{client_step};
ghost use Rattle.rd_hello.specs.Moves.{packet_in};
ghost use Rattle.rd_irp.specs.Request.{request_head};
ghost use Rattle.rd_printer.specs.Notice.{FirstFaultOfNotice, cache_data, notice, using_xps};
ghost use Rattle.rd_client.specs.Core.{AreDevices, ClientDevice, becomes_ready, client_reads_in, client_side};
ghost use Rattle.rd_client.specs.Heard.{ClientEndHears, EndGoesOn, IsNotice, client_devices, first_list};

use crate::heard::Came;
use crate::listing::write_told;
use crate::outgoing::Outgoing;
use rd_base::{Bad, Cursor, Packet, ReadNo, Why, read_header, read_header_among};
use rd_core::{EndCore, read_opening, write_opening};
use rd_devices::{Announce, read_reply};
use rd_hello::{ClientState, EndFault, Hello, ShakeNo, client_row};
use rd_irp::read_request;
use rd_printer::{Notice, read_notice};
use std::alloc::{AllocError, Global};
use std::collections::BTreeSet;

/// The end of a client.
pub type ClientEnd = EndCore<ClientState, Outgoing>;

/// The packets of notices.
const NOTICES: [Packet; 2] = [Packet::PrinterCacheData, Packet::PrinterUsingXps];

/// Hears a message of the host, for a client with these devices, of which those with the ids in `gone` are removed.
pub fn listen(
    end: &mut ClientEnd,
    alloc: Global,
    devices: &[Announce],
    gone: &BTreeSet<u32>,
    message: &[u8],
) -> Result<Came, EndFault>
    requires { AreDevices devices.now }
    ensures { ClientEndHears (client_devices devices.now gone.now) end.old message.now result end.new }
{
    let state = end.state();
    let packet = match end.expect(state.number(), reads_in(state), message) {
        Ok(packet) => packet,
        Err(fault) => return Err(fault),
    };
    match packet {
        Packet::IoRequest => hear_request(end, alloc, message),
        Packet::DeviceReply => hear_reply(end, message),
        Packet::PrinterCacheData | Packet::PrinterUsingXps => hear_notice(end, alloc, message),
        _ => hear_opening(end, alloc, devices, gone, message),
    }
}

/// The packets that are read in a state.
fn reads_in(state: ClientState) -> &'static [Packet]
    ensures { result.now ≡ client_reads_in state }
{
    match state {
        ClientState::Start => &[Packet::ServerAnnounce],
        ClientState::Named => &[Packet::ClientIdConfirm, Packet::ServerCapability],
        ClientState::Confirmed => &[Packet::ServerCapability],
        ClientState::Offered(_) => &[Packet::ClientIdConfirm],
        ClientState::Waiting | ClientState::Ready => &[
            Packet::UserLoggedOn,
            Packet::IoRequest,
            Packet::DeviceReply,
            Packet::PrinterCacheData,
            Packet::PrinterUsingXps,
        ],
    }
}

/// Hears a message of the opening.
fn hear_opening(
    end: &mut ClientEnd,
    alloc: Global,
    devices: &[Announce],
    gone: &BTreeSet<u32>,
    message: &[u8],
) -> Result<Came, EndFault>
    requires coming { (p : Packet) × IsComing client_side end.old message.now p × IsTrue (is_hello p) }
    requires devices { AreDevices devices.now }
    ensures { ClientEndHears (client_devices devices.now gone.now) end.old message.now result end.new }
{
    let hello = match read_opening(alloc, message) {
        Ok(hello) => hello,
        Err(ReadNo::Bad(bad)) => return Err(end.fail(bad)),
        Err(ReadNo::Memory) => return Err(EndFault::Memory),
    };
    match go_on(end, alloc, devices, gone, &hello) {
        Ok(()) => Ok(Came::Nothing),
        Err(fault) => Err(fault),
    }
}

/// Goes on by the row of a message of the opening, where the table has one. Where the client becomes ready it announces its devices.
fn go_on(
    end: &mut ClientEnd,
    alloc: Global,
    devices: &[Announce],
    gone: &BTreeSet<u32>,
    hello: &Hello,
) -> Result<(), EndFault>
    requires { AreDevices devices.now }
    ensures ok { OnOk result (EndGoesOn (client_devices devices.now gone.now) end.old (by_row client_side (client_step end.old.shake hello.now)) end.new) }
    ensures err { IfErr result (λ wrong. (wrong ≡ fault.Memory) × (end.new ≡ end.old)) }
{
    let state = end.state();
    let (first, second, next) = match client_row(alloc, state, hello) {
        Ok(row) => row,
        Err(ShakeNo::OutOfOrder { .. }) => return Ok(()),
        Err(ShakeNo::Memory) => return Err(EndFault::Memory),
    };
    let first = Outgoing::plain_if(write_opening(alloc, &first)?);
    let second = Outgoing::plain_if(write_opening(alloc, &second)?);
    let list = first_list(alloc, devices, gone, becomes_ready(state, next))?;
    end.open(next, first, second, list)?;
    Ok(())
}

/// The list that a client announces its devices with where it becomes ready.
fn first_list(
    alloc: Global,
    devices: &[Announce],
    gone: &BTreeSet<u32>,
    ready: bool,
) -> Result<Option<Outgoing>, AllocError>
    requires { AreDevices devices.now }
    ensures { IfOk result (λ list. list ≡ first_list (client_devices devices.now gone.now) ready) }
{
    if !ready {
        return Ok(None);
    }
    let message = write_told(alloc, devices, gone, None)?;
    Ok(Some(Outgoing::plain(message)))
}

/// Whether the client becomes ready by a row of its table.
fn becomes_ready(state: ClientState, next: ClientState) -> bool
    ensures { result ≡ becomes_ready state next }
{
    match (state, next) {
        (ClientState::Ready, _) => false,
        (_, ClientState::Ready) => true,
        _ => false,
    }
}

/// Hears a request.
fn hear_request(end: &mut ClientEnd, alloc: Global, message: &[u8]) -> Result<Came, EndFault>
    requires { IsComing client_side end.old message.now packet.IoRequest }
    ensures { (devices : List ClientDevice) → ClientEndHears devices end.old message.now result end.new }
{
    match read_request(alloc, message) {
        Ok((request, _tail)) => Ok(Came::Ask(request)),
        Err(ReadNo::Bad(bad)) => Err(end.fail(bad)),
        Err(ReadNo::Memory) => match before_body(message) {
            Ok(()) => Err(EndFault::Memory),
            Err(bad) => Err(end.fail(bad)),
        },
    }
}

/// Reads the head of a request, before its body: nothing is wrong there, or this is the first fault.
#[tactic(auto, unfolding(rd_irp::specs::Request::request_head))]
fn before_body(message: &[u8]) -> Result<(), Bad>
    ensures { ReadsBefore 24 request_head (at_start message.now) result }
{
    let mut cursor = Cursor::new(message);
    read_header(&mut cursor, Packet::IoRequest)?;
    cursor.u32()?;
    cursor.u32()?;
    cursor.u32()?;
    cursor.u32()?;
    cursor.u32()?;
    Ok(())
}

/// Hears the host's reply to a device, which asks nothing.
fn hear_reply(end: &mut ClientEnd, message: &[u8]) -> Result<Came, EndFault>
    requires { IsComing client_side end.old message.now packet.DeviceReply }
    ensures { (devices : List ClientDevice) → ClientEndHears devices end.old message.now result end.new }
{
    match read_reply(message) {
        Ok(_) => Ok(Came::Nothing),
        Err(bad) => Err(end.fail(bad)),
    }
}

/// Hears what the host tells of a printer.
fn hear_notice(end: &mut ClientEnd, alloc: Global, message: &[u8]) -> Result<Came, EndFault>
    requires { (p : Packet) × IsComing client_side end.old message.now p × IsNotice p }
    ensures { (devices : List ClientDevice) → ClientEndHears devices end.old message.now result end.new }
{
    match read_notice(alloc, message) {
        Ok((notice, _tail)) => Ok(Came::Print(notice)),
        Err(ReadNo::Bad(bad)) => Err(end.fail(bad)),
        Err(ReadNo::Memory) => match without_memory(message) {
            Ok(Some(notice)) => Ok(Came::Print(notice)),
            Ok(None) => Err(EndFault::Memory),
            Err(bad) => Err(end.fail(bad)),
        },
    }
}

/// Reads of a notice what takes no memory: a whole notice of XPS, and of any other what stands before its data.
#[tactic(auto, unfolding(rd_printer::specs::Notice::notice))]
fn without_memory(message: &[u8]) -> Result<Option<Notice>, Bad>
    ensures refused { IfErr result (FirstFaultOfNotice message.now) }
    ensures whole { IfOk result (λ found. IfSome found (λ n. (rest : Position) × (met notice (at_start message.now) ≡ Ok (n, rest)))) }
    ensures before { IfOk result (λ found. IfNone found ((p : Packet) → packet_in message.now ≡ Some p →
        (p ≡ packet.PrinterCacheData) × ((bad : Bad) → FirstFaultOfNotice message.now bad → 8 ≤ bad.at))) }
{
    let mut cursor = Cursor::new(message);
    match read_header_among(&mut cursor, &NOTICES)? {
        Packet::PrinterUsingXps => Ok(Some(read_using_xps(&mut cursor)?)),
        _ => {
            before_data(&mut cursor)?;
            Ok(None)
        }
    }
}

#[tactic(auto, unfolding(rd_printer::specs::Notice::using_xps))]
fn read_using_xps(cursor: &mut Cursor<'_>) -> Result<Notice, Bad>
    ensures { Reads (λ n. n) using_xps cursor.old cursor.new result }
{
    let printer = cursor.u32()?;
    let flags = cursor.u32()?;
    Ok(Notice::UsingXps { printer, flags })
}

/// Reads the event of a notice, before its data.
#[tactic(auto, unfolding(rd_printer::specs::Notice::cache_data))]
fn before_data(cursor: &mut Cursor<'_>) -> Result<(), Bad>
    requires { cursor.old.at ≡ 4 }
    ensures { ReadsBefore 8 cache_data cursor.old result }
{
    let at = cursor.place();
    let event = cursor.u32()?;
    if event < 1 || 4 < event {
        return Err(Bad {
            at,
            why: Why::Value,
        });
    }
    Ok(())
}
