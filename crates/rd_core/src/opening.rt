//! The messages of the opening, as both ends read and write them (MS-RDPEFS 2.2.2.2 to 2.2.2.8).

ghost use Rattle.std.specs.Prelude.{◌≡◌, ◌≤◌, Some, IfErr, IfOk, IfSome, OnOk, Ok, Err};
ghost use Rattle.std.specs.Option.{option_map};
ghost use Rattle.rd_base.specs.declared.bad.Bad.{Bad};
ghost use Rattle.rd_base.specs.declared.bad.ReadNo.TheVariants as no;
ghost use Rattle.rd_base.specs.declared.packet.Packet.{Packet};
ghost use Rattle.rd_base.specs.Position.{Position, at_start};
ghost use Rattle.rd_base.specs.Layout.{met};
ghost use Rattle.rd_base.specs.Reading.{ForBad};
ghost use Rattle.rd_hello.specs.Capability.{sets};
ghost use Rattle.rd_hello.specs.Hello.{FirstFaultOfHello, IsWritableHello, hello, hello_bytes, name, version};
ghost use Rattle.rd_hello.specs.Moves.{packet_in};
ghost use Rattle.rd_core.specs.Expected.{ReadsBefore, opening_asks_at};

use rd_base::{
    Bad, Bytes, Cursor, Packet, ReadNo, Why, read_count16, read_count32, read_header_among,
};
use rd_hello::{Hello, MAX_NAME_BYTES, MAX_SETS, read_hello, write_hello};
use std::alloc::{AllocError, Global};

/// The packets that open a channel.
const HELLOS: [Packet; 6] = [
    Packet::ServerAnnounce,
    Packet::ClientIdConfirm,
    Packet::ClientName,
    Packet::ServerCapability,
    Packet::ClientCapability,
    Packet::UserLoggedOn,
];

/// Reads a message of the opening. Memory is wanting only where nothing is wrong before the place at which it is asked for.
pub fn read_opening(alloc: Global, message: &[u8]) -> Result<Hello, ReadNo>
    ensures spelled { IfOk result (λ h. (rest : Position) × (met hello (at_start message.now) ≡ Ok (h, rest))) }
    ensures refused { IfErr result (ForBad (FirstFaultOfHello message.now)) }
    ensures lacking { (p : Packet) → packet_in message.now ≡ Some p → result ≡ Err no.Memory →
        (bad : Bad) → FirstFaultOfHello message.now bad → opening_asks_at p ≤ bad.at }
{
    match read_hello(alloc, message) {
        Ok((hello, _tail)) => Ok(hello),
        Err(ReadNo::Bad(bad)) => Err(ReadNo::Bad(bad)),
        Err(ReadNo::Memory) => {
            read_before(message)?;
            Err(ReadNo::Memory)
        }
    }
}

/// Reads what stands before the place at which memory is asked for: nothing is wrong there, or this is the first fault.
#[tactic(auto, unfolding(rd_hello::specs::Hello::hello))]
fn read_before(message: &[u8]) -> Result<(), Bad>
    ensures refused { IfErr result (FirstFaultOfHello message.now) }
    ensures before { OnOk result ((p : Packet) → packet_in message.now ≡ Some p →
        (bad : Bad) → FirstFaultOfHello message.now bad → opening_asks_at p ≤ bad.at) }
{
    let mut cursor = Cursor::new(message);
    match read_header_among(&mut cursor, &HELLOS)? {
        Packet::ServerAnnounce | Packet::ClientIdConfirm => before_end_of_version(&mut cursor),
        Packet::ClientName => before_name(&mut cursor),
        Packet::ServerCapability | Packet::ClientCapability => before_sets(&mut cursor),
        _ => Ok(()),
    }
}

/// The version, of which no part asks for memory.
#[tactic(auto, unfolding(rd_hello::specs::Hello::version))]
fn before_end_of_version(cursor: &mut Cursor<'_>) -> Result<(), Bad>
    requires { cursor.old.at ≡ 4 }
    ensures { ReadsBefore 12 version cursor.old result }
{
    let at = cursor.place();
    let major = cursor.u16()?;
    if major != 1 {
        return Err(Bad {
            at,
            why: Why::Value,
        });
    }
    cursor.u16()?;
    cursor.u32()?;
    Ok(())
}

/// What stands before a name.
#[tactic(auto, unfolding(rd_hello::specs::Hello::name))]
fn before_name(cursor: &mut Cursor<'_>) -> Result<(), Bad>
    requires { cursor.old.at ≡ 4 }
    ensures { ReadsBefore 16 name cursor.old result }
{
    cursor.u32()?;
    cursor.u32()?;
    read_count32(cursor, MAX_NAME_BYTES)?;
    Ok(())
}

/// What stands before the sets.
#[tactic(auto, unfolding(rd_hello::specs::Capability::sets))]
fn before_sets(cursor: &mut Cursor<'_>) -> Result<(), Bad>
    requires { cursor.old.at ≡ 4 }
    ensures { ReadsBefore 8 sets cursor.old result }
{
    read_count16(cursor, MAX_SETS)?;
    cursor.take(2)?;
    Ok(())
}

/// Writes a message of the opening, where there is one.
pub fn write_opening(alloc: Global, reply: &Option<Hello>) -> Result<Option<Bytes>, AllocError>
    requires { IfSome reply.now IsWritableHello }
    ensures { IfOk result (λ message. message ≡ option_map hello_bytes reply.now) }
{
    match reply {
        Some(hello) => Ok(Some(write_hello(alloc, hello)?)),
        None => Ok(None),
    }
}
