//! The six messages that open a channel (MS-RDPEFS 2.2.2.2 to 2.2.2.8).

ghost use Rattle.std.specs.Prelude.{◌≡◌, ◌+◌, ◌<◌, ◌≤◌, ◌^◌, ◌↔◌, ◌++◌, IsTrue, IfOk, IfErr, OnErr, OnOk, Some, length, vec_capacity, vec_len};
ghost use Rattle.rd_base.specs.Reading.{Reads, ReadsInto, WithTail, ForBad};
ghost use Rattle.rd_base.specs.Spelling.{IsSpelling};
ghost use Rattle.rd_hello.specs.Hello.{version, name, hello_body, most_name_bytes, version_bytes, name_bytes, hello_body_bytes, hello_bytes, packet_of_hello, IsWritableHello, SpellsHello, FirstFaultOfHello};

use crate::capability::{Caps, can_write_sets, put_sets, read_sets, size_of_sets};
use rd_base::{
    Bad, Bytes, Cursor, Format, HEADER_LEN, Packet, ReadNo, Why, append_message, put_counted_bytes,
    put_header, put_u16, put_u32, read_bytes, read_count32, read_header_among, read_message,
    write_message,
};
use std::alloc::{AllocError, Global};

/// The most bytes of a computer's name.
pub const MAX_NAME_BYTES: u32 = 512;

/// The packets that open a channel.
const HELLOS: [Packet; 6] = [
    Packet::ServerAnnounce,
    Packet::ClientIdConfirm,
    Packet::ClientName,
    Packet::ServerCapability,
    Packet::ClientCapability,
    Packet::UserLoggedOn,
];

/// What an announce and a confirm say. VersionMajor is always 1.
#[derive(Clone, Copy, Debug, PartialEq, Eq)]
pub struct Version {
    /// VersionMinor.
    pub minor: u16,
    /// ClientId, which the host gives.
    pub client: u32,
}

/// A message that opens a channel.
#[derive(Debug, Drop)]
pub enum Hello {
    /// The host announces itself (2.2.2.2).
    Announce(Version),
    /// The client confirms the announce (2.2.2.3), and the host the client (2.2.2.6).
    Confirm(Version),
    /// The client names itself (2.2.2.4).
    Name {
        /// UnicodeFlag: 1 where the name is UTF-16.
        unicode: u32,
        /// CodePage, always 0.
        page: u32,
        /// ComputerName with its final zero, kept unread.
        name: Bytes,
    },
    /// What the host can do (2.2.2.7).
    ServerCaps(Caps),
    /// What the client can do (2.2.2.8).
    ClientCaps(Caps),
    /// The user is logged on (2.2.2.5).
    LoggedOn,
}

impl Hello {
    /// Its packet.
    pub fn packet(&self) -> Packet
        ensures { result ≡ packet_of_hello self.now }
    {
        match self {
            Hello::Announce(_) => Packet::ServerAnnounce,
            Hello::Confirm(_) => Packet::ClientIdConfirm,
            Hello::Name { .. } => Packet::ClientName,
            Hello::ServerCaps(_) => Packet::ServerCapability,
            Hello::ClientCaps(_) => Packet::ClientCapability,
            Hello::LoggedOn => Packet::UserLoggedOn,
        }
    }
}

impl Format for Hello {
    ghost use Rattle.rd_hello.specs.Hello.{hello, hello_bytes, IsWritableHello};

    ghost layout = { hello };

    ghost bytes = { hello_bytes };

    ghost fits = { IsWritableHello };

    #[tactic(auto, unfolding(crate::specs::Hello::hello))]
    fn read(alloc: Global, cursor: &mut Cursor<'_>) -> Result<Hello, ReadNo> {
        let packet = read_header_among(cursor, &HELLOS)?;
        read_body(alloc, cursor, packet)
    }

    #[tactic(auto, using(crate::proofs::HelloLemmas::logged_on_spelled, std::proofs::Common::append_assoc))]
    fn put(&self, out: &mut Vec<u8>) {
        put_header(out, self.packet());
        match self {
            Hello::Announce(version) => put_version(out, version.minor, version.client),
            Hello::Confirm(version) => put_version(out, version.minor, version.client),
            Hello::Name {
                unicode,
                page,
                name,
            } => put_name(out, *unicode, *page, name),
            Hello::ServerCaps(caps) => put_sets(out, caps),
            Hello::ClientCaps(caps) => put_sets(out, caps),
            Hello::LoggedOn => {}
        }
    }

    fn size(&self) -> usize {
        match self {
            Hello::Announce(_) | Hello::Confirm(_) => HEADER_LEN + 8,
            Hello::Name { name, .. } => HEADER_LEN + 12 + name.as_slice().len(),
            Hello::ServerCaps(caps) | Hello::ClientCaps(caps) => HEADER_LEN + size_of_sets(caps),
            Hello::LoggedOn => HEADER_LEN,
        }
    }
}

/// Reads what stands after the header of a packet.
fn read_body(alloc: Global, cursor: &mut Cursor<'_>, packet: Packet) -> Result<Hello, ReadNo>
    ensures { ReadsInto (λ hello. hello) (hello_body (Some packet)) cursor.old cursor.new result }
{
    match packet {
        Packet::ServerAnnounce => Ok(Hello::Announce(read_version(cursor)?)),
        Packet::ClientIdConfirm => Ok(Hello::Confirm(read_version(cursor)?)),
        Packet::ClientName => read_name(alloc, cursor),
        Packet::ServerCapability => Ok(Hello::ServerCaps(read_sets(alloc, cursor)?)),
        Packet::ClientCapability => Ok(Hello::ClientCaps(read_sets(alloc, cursor)?)),
        _ => Ok(Hello::LoggedOn),
    }
}

#[tactic(auto, unfolding(crate::specs::Hello::version))]
fn read_version(cursor: &mut Cursor<'_>) -> Result<Version, Bad>
    ensures { Reads (λ v. v) version cursor.old cursor.new result }
{
    let at = cursor.place();
    let major = cursor.u16()?;
    if major != 1 {
        return Err(Bad {
            at,
            why: Why::Value,
        });
    }
    let minor = cursor.u16()?;
    let client = cursor.u32()?;
    Ok(Version { minor, client })
}

#[tactic(auto, unfolding(crate::specs::Hello::name))]
fn read_name(alloc: Global, cursor: &mut Cursor<'_>) -> Result<Hello, ReadNo>
    ensures { ReadsInto (λ hello. hello) name cursor.old cursor.new result }
{
    let unicode = cursor.u32()?;
    let page = cursor.u32()?;
    let count = read_count32(cursor, MAX_NAME_BYTES)?;
    let name = read_bytes(alloc, cursor, count)?;
    Ok(Hello::Name {
        unicode,
        page,
        name,
    })
}

/// Appends VersionMajor, VersionMinor and ClientId.
#[tactic(auto, unfolding(rd_base::specs::Fields::bytes16, rd_base::specs::Fields::bytes32), using(std::proofs::Common::append_assoc))]
fn put_version(out: &mut Vec<u8>, minor: u16, client: u32)
    requires { vec_len out.old + 8 ≤ vec_capacity out.old }
    ensures bytes { out.new.items
        ≡ out.old.items ++ version_bytes (record { minor = minor; client = client }) }
    ensures fits { (minor < 2 ^ 16) × (client < 2 ^ 32) }
    ensures room { vec_capacity out.old ≤ vec_capacity out.new }
{
    put_u16(out, 1);
    put_u16(out, minor);
    put_u32(out, client);
}

/// Appends what the client's name has after its header.
#[tactic(auto, unfolding(rd_base::specs::Fields::bytes32), using(std::proofs::Common::append_assoc))]
fn put_name(out: &mut Vec<u8>, unicode: u32, page: u32, name: &Bytes)
    requires short { length name.now ≤ most_name_bytes }
    requires room { vec_len out.old + 12 + length name.now ≤ vec_capacity out.old }
    ensures bytes { out.new.items ≡ out.old.items ++ name_bytes unicode page name.now }
    ensures fits { (unicode < 2 ^ 32) × (page < 2 ^ 32) }
    ensures room { vec_capacity out.old ≤ vec_capacity out.new }
{
    put_u32(out, unicode);
    put_u32(out, page);
    put_counted_bytes(out, name.as_slice());
}

/// Reads a message that opens a channel, and counts the ignored bytes after it.
pub fn read_hello(alloc: Global, bytes: &[u8]) -> Result<(Hello, u32), ReadNo>
    ensures spelled { IfOk result (λ read.
        WithTail read.1 (λ tail. SpellsHello read.0 tail bytes.now)) }
    ensures refused { IfErr result (ForBad (FirstFaultOfHello bytes.now)) }
{
    read_message(alloc, bytes)
}

/// Writes a message that opens a channel.
pub fn write_hello(alloc: Global, hello: &Hello) -> Result<Bytes, AllocError>
    requires { IsWritableHello hello.now }
    ensures spelled { IfOk result (SpellsHello hello.now 0) }
    ensures written { IfOk result (λ message. message ≡ hello_bytes hello.now) }
{
    write_message(alloc, hello)
}

/// Appends a message that opens a channel. Where there is no memory for all of it, nothing is appended.
pub fn put_hello(out: &mut Vec<u8>, hello: &Hello) -> Result<(), AllocError>
    requires { IsWritableHello hello.now }
    ensures bytes { OnOk result (out.new.items ≡ out.old.items ++ hello_bytes hello.now) }
    ensures err { OnErr result (out.new.items ≡ out.old.items) }
{
    append_message(out, hello)
}

/// Whether a message that opens a channel can be written: its name isn't too long, and its sets can be.
pub fn can_write_hello(hello: &Hello) -> bool
    ensures { IsTrue result ↔ IsWritableHello hello.now }
{
    match hello {
        Hello::Name { name, .. } => name.as_slice().len() <= MAX_NAME_BYTES as usize,
        Hello::ServerCaps(caps) | Hello::ClientCaps(caps) => can_write_sets(caps),
        Hello::Announce(_) | Hello::Confirm(_) | Hello::LoggedOn => true,
    }
}
