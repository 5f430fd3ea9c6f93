//! Completions (MS-RDPEFS 2.2.1.5).

ghost use Rattle.std.specs.Prelude.{◌≡◌, ◌+◌, ◌-◌, ◌^◌, ◌<◌, ◌≤◌, ◌↔◌, [], ◌++◌, IsTrue, drop, length, replicate, IfOk, IfErr, IsOk, OnErr, OnOk, vec_capacity, vec_len};
ghost use Rattle.rd_base.specs.Fields.{missing_pad};
ghost use Rattle.rd_base.specs.Layout.{met};
ghost use Rattle.rd_base.specs.Position.{at_start};
ghost use Rattle.rd_base.specs.Reading.{Reads, ReadsInto, WithTail, ForBad};
ghost use Rattle.rd_irp.specs.Completion.{completion_head, success_body, completion_body, SpellsHead, FirstFaultOfHead, SpellsBody, FirstFaultOfBody, KeepsBytes, OnMemory};
ghost use Rattle.rd_irp.specs.Written.{completion_bytes, head_bytes, body_bytes, body_tail, IsBodyInRange};
ghost use Rattle.rd_base.specs.declared.status.Status.{Status};
ghost use Rattle.rd_irp.specs.Fits.{BodyFits, IsCountableBody, IsOfKind, body_length, completion_head_len, fault_length, kind_of, kind_of_major};

use crate::op::{CLOSE, CREATE, LOCK, Op, SET_FILE, SET_VOLUME, WRITE};
use rd_base::{
    Bad, Bytes, Cursor, Packet, ReadNo, Status, put_bytes, put_counted_bytes, put_header, put_u8,
    put_u32, read_header, tail_len,
};
use std::alloc::{AllocError, Global};

/// The bytes of a completion's head; its body comes after them.
pub const COMPLETION_HEAD_LEN: usize = 16;

/// Which layout the body of a completion has.
#[derive(Clone, Copy, Debug, PartialEq, Eq)]
pub enum Kind {
    /// A file id and an information byte (MS-RDPEFS 2.2.1.5.1).
    Create,
    /// Padding alone (2.2.1.5.2).
    Close,
    /// A count of bytes (2.2.1.5.4).
    Count,
    /// A count and that many bytes (2.2.1.5.3).
    Buffer,
    /// Padding alone (2.2.3.4.12).
    Lock,
}

/// What a completion says beside its status.
#[derive(Debug, Drop)]
pub enum Body {
    Created { file: u32, information: u8 },
    Closed,
    Count(u32),
    Buffer(Bytes),
    Locked,
    /// The body of every status other than success.
    Fault,
}

/// What a device replies to a request.
#[derive(Debug, Drop)]
pub struct Reply {
    pub status: Status,
    pub body: Body,
}

/// The head of a completion, which names its request.
#[derive(Clone, Copy, Debug, PartialEq, Eq)]
pub struct Head {
    pub device: u32,
    /// The completion id of the request.
    pub completion: u32,
    pub status: Status,
}

/// The layout of the completion of a request with this operation. A `Malformed` request has that of its function.
pub fn kind_of(op: &Op) -> Kind
    ensures { result ≡ kind_of op.now }
{
    match op {
        Op::Create { .. } => Kind::Create,
        Op::Close => Kind::Close,
        Op::Write { .. } | Op::SetFile { .. } | Op::SetVolume { .. } => Kind::Count,
        Op::Read { .. }
        | Op::QueryFile { .. }
        | Op::QueryVolume { .. }
        | Op::QueryDir { .. }
        | Op::Notify { .. }
        | Op::Control { .. }
        | Op::Unknown { .. } => Kind::Buffer,
        Op::Lock { .. } => Kind::Lock,
        Op::Malformed { major, .. } => kind_of_major(*major),
    }
}

/// The layout of the completion of a request with this MajorFunction, whatever comes after its head.
pub fn kind_of_major(major: u32) -> Kind
    ensures { result ≡ kind_of_major major }
{
    match major {
        CREATE => Kind::Create,
        CLOSE => Kind::Close,
        WRITE | SET_FILE | SET_VOLUME => Kind::Count,
        LOCK => Kind::Lock,
        _ => Kind::Buffer,
    }
}

/// Reads the head of a completion, its first 16 bytes.
pub fn read_head(bytes: &[u8]) -> Result<Head, Bad>
    ensures spelled { IfOk result (λ head. SpellsHead head (length bytes.now - completion_head_len) bytes.now) }
    ensures refused { IfErr result (FirstFaultOfHead bytes.now) }
    ensures enough { OnOk result (completion_head_len ≤ length bytes.now) }
{
    let mut cursor = Cursor::new(bytes);
    head_of(&mut cursor)
}

#[tactic(auto, unfolding(crate::specs::Completion::completion_head))]
fn head_of(cursor: &mut Cursor<'_>) -> Result<Head, Bad>
    ensures { Reads (λ head. head) completion_head cursor.old cursor.new result }
{
    read_header(cursor, Packet::IoCompletion)?;
    let device = cursor.u32()?;
    let completion = cursor.u32()?;
    let status = Status(cursor.u32()?);
    Ok(Head {
        device,
        completion,
        status,
    })
}

/// Reads the bytes after a completion's head, and counts the ignored ones. Padding may be missing.
pub fn read_body(
    alloc: Global,
    kind: Kind,
    status: Status,
    bytes: &[u8],
) -> Result<(Body, u32), ReadNo>
    ensures fits { IfOk result (λ read. BodyFits kind status read.0) }
    ensures spelled { IfOk result (λ read.
        WithTail read.1 (λ tail. SpellsBody kind status read.0 tail bytes.now)) }
    ensures refused { IfErr result (ForBad (FirstFaultOfBody kind status bytes.now)) }
    ensures starved { IfErr result (OnMemory (IsOk (met (completion_body kind status) (at_start bytes.now)) × KeepsBytes kind status)) }
{
    let mut cursor = Cursor::new(bytes);
    let body = body_of(alloc, kind, status, &mut cursor)?;
    Ok((body, tail_len(cursor.rest())))
}

/// Of a status other than success nothing is read.
#[tactic(auto, unfolding(crate::specs::Completion::completion_body))]
fn body_of(
    alloc: Global,
    kind: Kind,
    status: Status,
    cursor: &mut Cursor<'_>,
) -> Result<Body, ReadNo>
    ensures read { ReadsInto (λ body. body) (completion_body kind status) cursor.old cursor.new result }
    ensures fits { IfOk result (λ body. BodyFits kind status body) }
    ensures starved { IfErr result (OnMemory (IsOk (met (completion_body kind status) cursor.old) × KeepsBytes kind status)) }
{
    if status.0 != 0 {
        return Ok(Body::Fault);
    }
    success_of(alloc, kind, cursor)
}

#[tactic(auto, unfolding(crate::specs::Completion::success_body, rd_base::specs::Counted::counted_bytes))]
fn success_of(alloc: Global, kind: Kind, cursor: &mut Cursor<'_>) -> Result<Body, ReadNo>
    ensures read { ReadsInto (λ body. body) (success_body kind) cursor.old cursor.new result }
    ensures fits { IfOk result (λ body. IsOfKind kind body × IsCountableBody body) }
    ensures starved { IfErr result (OnMemory (IsOk (met (success_body kind) cursor.old) × (kind ≡ Kind.Buffer))) }
{
    match kind {
        Kind::Create => {
            let file = cursor.u32()?;
            let information = cursor.u8()?;
            Ok(Body::Created { file, information })
        }
        Kind::Close => {
            skip_pad(cursor, 4)?;
            Ok(Body::Closed)
        }
        Kind::Count => {
            let count = cursor.u32()?;
            skip_pad(cursor, 1)?;
            Ok(Body::Count(count))
        }
        Kind::Buffer => {
            let count = cursor.u32()?;
            let bytes = cursor.take(count)?;
            Ok(Body::Buffer(Bytes::of(Vec::from_slice(alloc, bytes)?)))
        }
        Kind::Lock => {
            skip_pad(cursor, 5)?;
            Ok(Body::Locked)
        }
    }
}

/// Skips as much of the padding as is there.
pub fn skip_pad(cursor: &mut Cursor<'_>, count: u32) -> Result<(), Bad>
    ensures { Reads (λ u. u) (missing_pad count) cursor.old cursor.new result }
{
    let present = cursor.rest().len().min(count as usize);
    cursor.take(present as u32)?;
    Ok(())
}

/// Whether a completion of this kind and status can be written with this body.
pub fn body_fits(kind: Kind, status: Status, body: &Body) -> bool
    ensures { IsTrue result ↔ BodyFits kind status body.now }
{
    let fits = match status.0 {
        0 => is_of_kind(kind, body),
        _ => matches!(body, Body::Fault),
    };
    fits && is_countable(body)
}

/// Whether a body is that of a success of this kind.
fn is_of_kind(kind: Kind, body: &Body) -> bool
    ensures { IsTrue result ↔ IsOfKind kind body.now }
{
    match kind {
        Kind::Create => matches!(body, Body::Created { .. }),
        Kind::Close => matches!(body, Body::Closed),
        Kind::Count => matches!(body, Body::Count(_)),
        Kind::Buffer => matches!(body, Body::Buffer(_)),
        Kind::Lock => matches!(body, Body::Locked),
    }
}

/// Whether the length of a body's buffer fits its 32-bit field.
pub fn is_countable(body: &Body) -> bool
    ensures { IsTrue result ↔ IsCountableBody body.now }
{
    match body {
        Body::Buffer(bytes) => u32::try_from(bytes.as_slice().len()).is_ok(),
        Body::Created { .. } | Body::Closed | Body::Count(_) | Body::Locked | Body::Fault => true,
    }
}

/// Writes a completion whose body fits the kind and the status (`body_fits`).
pub fn write_completion(
    alloc: Global,
    kind: Kind,
    head: &Head,
    body: &Body,
) -> Result<Bytes, AllocError>
    requires { BodyFits kind head.now.status body.now }
    ensures head { IfOk result (SpellsHead head.now (body_length kind body.now)) }
    ensures body { IfOk result (λ message.
        SpellsBody kind head.now.status body.now (body_tail kind body.now) (drop completion_head_len message)) }
    ensures written { IfOk result (λ message. message ≡ completion_bytes kind head.now body.now) }
    ensures length { IfOk result (λ message. length message ≡ completion_head_len + body_length kind body.now) }
{
    let room = Vec::with_capacity(alloc, COMPLETION_HEAD_LEN + body_length(kind, body))?;
    Ok(written_in(room, kind, head, body))
}

/// A completion in a buffer that has room for it and for no byte more.
fn written_in(room: Vec<u8>, kind: Kind, head: &Head, body: &Body) -> Bytes
    requires fits { BodyFits kind head.now.status body.now }
    requires empty { room.items ≡ [] }
    requires exact { vec_capacity room ≡ completion_head_len + body_length kind body.now }
    ensures head { SpellsHead head.now (body_length kind body.now) result }
    ensures body { SpellsBody kind head.now.status body.now (body_tail kind body.now) (drop completion_head_len result) }
    ensures written { result ≡ completion_bytes kind head.now body.now }
    ensures length { length result ≡ completion_head_len + body_length kind body.now }
{
    let mut out = room;
    append(&mut out, kind, head, body);
    Bytes::of(out)
}

/// Appends a completion whose body fits the kind and the status. Where there is no memory for all of it, nothing is appended.
pub fn put_completion(
    out: &mut Vec<u8>,
    kind: Kind,
    head: &Head,
    body: &Body,
) -> Result<(), AllocError>
    requires { BodyFits kind head.now.status body.now }
    ensures bytes { OnOk result (out.new.items ≡ out.old.items ++ completion_bytes kind head.now body.now) }
    ensures head { OnOk result (SpellsHead head.now (body_length kind body.now) (completion_bytes kind head.now body.now)) }
    ensures body { OnOk result (SpellsBody kind head.now.status body.now (body_tail kind body.now) (body_bytes kind body.now)) }
    ensures length { OnOk result (length (completion_bytes kind head.now body.now) ≡ completion_head_len + body_length kind body.now) }
    ensures err { OnErr result (out.new.items ≡ out.old.items) }
{
    out.try_reserve(COMPLETION_HEAD_LEN + body_length(kind, body))?;
    append(out, kind, head, body);
    Ok(())
}

/// Appends a completion to bytes that have room for it.
fn append(out: &mut Vec<u8>, kind: Kind, head: &Head, body: &Body)
    requires fits { BodyFits kind head.now.status body.now }
    requires room { vec_len out.old + completion_head_len + body_length kind body.now ≤ vec_capacity out.old }
    ensures bytes { out.new.items ≡ out.old.items ++ completion_bytes kind head.now body.now }
    ensures head { SpellsHead head.now (body_length kind body.now) (completion_bytes kind head.now body.now) }
    ensures body { SpellsBody kind head.now.status body.now (body_tail kind body.now) (body_bytes kind body.now) }
    ensures length { length (completion_bytes kind head.now body.now) ≡ completion_head_len + body_length kind body.now }
{
    put_head(out, head);
    append_body(out, kind, body);
}

#[tactic(auto, unfolding(rd_base::specs::Fields::bytes32), using(std::proofs::Common::append_assoc))]
fn put_head(out: &mut Vec<u8>, head: &Head)
    requires { vec_len out.old + completion_head_len ≤ vec_capacity out.old }
    ensures bytes { out.new.items ≡ out.old.items ++ head_bytes head.now }
    ensures device { head.now.device < 2 ^ 32 }
    ensures completion { head.now.completion < 2 ^ 32 }
    ensures status { head.now.status.0 < 2 ^ 32 }
    ensures len { vec_len out.new ≡ vec_len out.old + completion_head_len }
    ensures room { vec_capacity out.old ≤ vec_capacity out.new }
{
    put_header(out, Packet::IoCompletion);
    put_u32(out, head.device);
    put_u32(out, head.completion);
    put_u32(out, head.status.0);
}

/// Writes the body of a completion alone, as it comes after the head. Its length field has to count it (`is_countable`).
pub fn write_body(alloc: Global, kind: Kind, body: &Body) -> Result<Bytes, AllocError>
    requires { IsCountableBody body.now }
    ensures spelled { IfOk result (λ bytes.
        (status : Status) → BodyFits kind status body.now
        → SpellsBody kind status body.now (body_tail kind body.now) bytes) }
    ensures written { IfOk result (λ bytes. bytes ≡ body_bytes kind body.now) }
{
    let mut out = Vec::with_capacity(alloc, body_length(kind, body))?;
    append_body(&mut out, kind, body);
    Ok(Bytes::of(out))
}

/// How many bytes a body is written in.
fn body_length(kind: Kind, body: &Body) -> usize
    requires { IsCountableBody body.now }
    ensures { result ≡ body_length kind body.now }
{
    match body {
        Body::Created { .. } | Body::Count(_) | Body::Locked => 5,
        Body::Closed => 4,
        Body::Buffer(bytes) => 4 + bytes.as_slice().len(),
        Body::Fault => fault_padding(kind).len(),
    }
}

/// Beside a status other than success stand zeros, as many as a success of the kind has bytes without its buffer.
fn fault_padding(kind: Kind) -> &'static [u8]
    ensures zeros { result.now ≡ replicate (fault_length kind) 0 }
    ensures length { length result.now ≡ fault_length kind }
{
    match kind {
        Kind::Close | Kind::Buffer => &[0; 4],
        Kind::Create | Kind::Count | Kind::Lock => &[0; 5],
    }
}

/// Appends the body of a completion alone. Where there is no memory for all of it, nothing is appended.
pub fn put_body(out: &mut Vec<u8>, kind: Kind, body: &Body) -> Result<(), AllocError>
    requires { IsCountableBody body.now }
    ensures bytes { OnOk result (out.new.items ≡ out.old.items ++ body_bytes kind body.now) }
    ensures in_range { OnOk result (IsBodyInRange body.now) }
    ensures err { OnErr result (out.new.items ≡ out.old.items) }
{
    out.try_reserve(body_length(kind, body))?;
    append_body(out, kind, body);
    Ok(())
}

/// Appends the body of a completion to bytes that have room for it.
#[tactic(auto, unfolding(rd_base::specs::Fields::bytes8, rd_base::specs::Fields::bytes32), using(std::proofs::Common::append_assoc))]
fn append_body(out: &mut Vec<u8>, kind: Kind, body: &Body)
    requires countable { IsCountableBody body.now }
    requires room { vec_len out.old + body_length kind body.now ≤ vec_capacity out.old }
    ensures bytes { out.new.items ≡ out.old.items ++ body_bytes kind body.now }
    ensures in_range { IsBodyInRange body.now }
{
    match body {
        Body::Created { file, information } => {
            put_u32(out, *file);
            put_u8(out, *information);
        }
        Body::Closed => put_bytes(out, &[0; 4]),
        Body::Count(count) => {
            put_u32(out, *count);
            put_u8(out, 0);
        }
        Body::Buffer(bytes) => put_counted_bytes(out, bytes.as_slice()),
        Body::Locked => put_bytes(out, &[0; 5]),
        Body::Fault => put_bytes(out, fault_padding(kind)),
    }
}
