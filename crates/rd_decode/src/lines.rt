//! The lines that are printed of messages.

ghost use Rattle.std.specs.Prelude.{◌≡◌, ◌++◌, [], IsTrue, OnOk, codes};
ghost use Rattle.std.specs.String.{string_bytes};
ghost use Rattle.rd_decode.specs.Lines.{completion_shown, line, line_end, line_start, may_send, packet_name, request_shown};
ghost use Rattle.rd_base.specs.declared.packet.Packet.TheVariants as packet;

use crate::side::Side;
use rd_base::Packet;
use rd_irp::{Head, RequestHead};
use std::alloc::AllocError;

/// Appends the line of a message of so many bytes, of which its packet shows nothing but its name.
#[tactic(auto, using(std::proofs::Common::append_assoc))]
pub fn put_plain_line(
    text: &mut String,
    side: Side,
    packet: Packet,
    len: usize,
    tail: u32,
) -> Result<(), AllocError>
    ensures { OnOk result (string_bytes text.new ≡ string_bytes text.old ++ line side packet len [] tail) }
{
    put_start(text, side, packet, len)?;
    put_end(text, tail)
}

/// Appends the line of a request.
#[tactic(auto, using(std::proofs::Common::append_assoc))]
pub fn put_request_line(
    text: &mut String,
    side: Side,
    len: usize,
    head: RequestHead,
    tail: u32,
) -> Result<(), AllocError>
    ensures { OnOk result (string_bytes text.new
        ≡ string_bytes text.old ++ line side packet.IoRequest len (request_shown head) tail) }
{
    put_start(text, side, Packet::IoRequest, len)?;
    put_request(text, head)?;
    put_end(text, tail)
}

/// Appends the line of a completion.
#[tactic(auto, using(std::proofs::Common::append_assoc))]
pub fn put_completion_line(
    text: &mut String,
    side: Side,
    len: usize,
    head: Head,
    tail: u32,
) -> Result<(), AllocError>
    ensures { OnOk result (string_bytes text.new
        ≡ string_bytes text.old ++ line side packet.IoCompletion len (completion_shown head) tail) }
{
    put_start(text, side, Packet::IoCompletion, len)?;
    put_completion(text, head)?;
    put_end(text, tail)
}

fn put_start(text: &mut String, side: Side, packet: Packet, len: usize) -> Result<(), AllocError>
    ensures { OnOk result (string_bytes text.new ≡ string_bytes text.old ++ line_start side packet len) }
{
    let name = packet_name(packet);
    write!(text, "{side} {len} {name}")
}

fn put_request(text: &mut String, head: RequestHead) -> Result<(), AllocError>
    ensures { OnOk result (string_bytes text.new ≡ string_bytes text.old ++ request_shown head) }
{
    let RequestHead {
        device,
        file,
        completion,
        major,
        ..
    } = head;
    write!(
        text,
        " device {device} id {completion} major {major} file {file}"
    )
}

fn put_completion(text: &mut String, head: Head) -> Result<(), AllocError>
    ensures { OnOk result (string_bytes text.new ≡ string_bytes text.old ++ completion_shown head) }
{
    let Head {
        device,
        completion,
        status,
    } = head;
    write!(text, " device {device} id {completion} status {status}")
}

fn put_end(text: &mut String, tail: u32) -> Result<(), AllocError>
    ensures { OnOk result (string_bytes text.new ≡ string_bytes text.old ++ line_end tail) }
{
    writeln!(text, " tail {tail}")
}

/// The name of a packet (MS-RDPEFS 2.2.1.1).
fn packet_name(packet: Packet) -> &'static str
    ensures { result.now ≡ packet_name packet }
{
    match packet {
        Packet::ServerAnnounce => "SERVER_ANNOUNCE",
        Packet::ClientIdConfirm => "CLIENTID_CONFIRM",
        Packet::ClientName => "CLIENT_NAME",
        Packet::ServerCapability => "SERVER_CAPABILITY",
        Packet::ClientCapability => "CLIENT_CAPABILITY",
        Packet::UserLoggedOn => "USER_LOGGEDON",
        Packet::DeviceListAnnounce => "DEVICELIST_ANNOUNCE",
        Packet::DeviceReply => "DEVICE_REPLY",
        Packet::DeviceListRemove => "DEVICELIST_REMOVE",
        Packet::IoRequest => "DEVICE_IOREQUEST",
        Packet::IoCompletion => "DEVICE_IOCOMPLETION",
        Packet::PrinterCacheData => "PRN_CACHE_DATA",
        Packet::PrinterUsingXps => "PRN_USING_XPS",
    }
}

/// Whether a side sends a packet (MS-RDPEFS 2.2.2 and 2.2.3, MS-RDPEPC 2.2.2).
pub fn may_send(side: Side, packet: Packet) -> bool
    ensures { result ≡ may_send side packet }
{
    match packet {
        Packet::ClientIdConfirm => true,
        Packet::ClientName
        | Packet::ClientCapability
        | Packet::DeviceListAnnounce
        | Packet::DeviceListRemove
        | Packet::IoCompletion => side == Side::Client,
        Packet::ServerAnnounce
        | Packet::ServerCapability
        | Packet::UserLoggedOn
        | Packet::DeviceReply
        | Packet::IoRequest
        | Packet::PrinterCacheData
        | Packet::PrinterUsingXps => side == Side::Host,
    }
}
