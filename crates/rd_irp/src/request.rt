//! Requests (MS-RDPEFS 2.2.1.4).

ghost use Rattle.std.specs.Prelude.{◌≡◌, ◌+◌, ◌^◌, ◌<◌, ◌≤◌, [], ◌++◌, IfOk, IfErr, OnErr, OnOk, length, vec_capacity, vec_len};
ghost use Rattle.rd_base.specs.Reading.{Reads, ReadsInto, WithTail, ForBad};
ghost use Rattle.rd_irp.specs.Op.{op_body};
ghost use Rattle.rd_irp.specs.Request.{request_head, SpellsRequest, FirstFaultOfRequest};
ghost use Rattle.rd_irp.specs.Written.{request_bytes, request_head_bytes, op_bytes, IsOpInRange};
ghost use Rattle.rd_irp.specs.Fits.{Fits, op_length, request_head_len};

use crate::classes::{
    put_queried, put_set, read_query_file, read_query_volume, read_set_file, read_set_volume,
};
use crate::directory::{put_notify, put_query_dir, read_directory};
use crate::files::{
    put_close, put_control, put_create, put_read, put_three, put_write, read_close, read_control,
    read_create, read_read, read_write,
};
use crate::lock::{put_lock, read_lock};
use crate::op::{
    CLOSE, CONTROL, CREATE, DIRECTORY, LOCK, Op, QUERY_FILE, QUERY_VOLUME, READ, SET_FILE,
    SET_VOLUME, WRITE, major_of, minor_of, op_length,
};
use rd_base::{Bad, Bytes, Cursor, Packet, ReadNo, put_header, put_u32, read_header, tail_len};
use std::alloc::{AllocError, Global};

/// The bytes of a request's head.
const REQUEST_HEAD_LEN: usize = 24;

/// A request of the host for a device.
#[derive(Debug, Drop)]
pub struct Request {
    pub device: u32,
    /// The file id that a `Create` gave; of a `Create` itself it means nothing.
    pub file: u32,
    pub completion: u32,
    pub op: Op,
}

/// What the first 24 bytes of a request say.
#[derive(Clone, Copy, Debug, PartialEq, Eq)]
pub struct RequestHead {
    pub device: u32,
    pub file: u32,
    pub completion: u32,
    pub major: u32,
    pub minor: u32,
}

/// Reads a request, and counts the ignored bytes after it. A fault in its head is `Bad`, at its place in the message.
/// A fault in its body makes it `Malformed`; then all bytes after the head are ignored.
pub fn read_request(alloc: Global, bytes: &[u8]) -> Result<(Request, u32), ReadNo>
    ensures spelled { IfOk result (λ read.
        WithTail read.1 (λ tail. SpellsRequest read.0 tail bytes.now)) }
    ensures refused { IfErr result (ForBad (FirstFaultOfRequest bytes.now)) }
{
    let mut cursor = Cursor::new(bytes);
    let head = head_of(&mut cursor)?;
    let after_head = tail_len(cursor.rest());
    let RequestHead {
        device,
        file,
        completion,
        major,
        minor,
    } = head;
    let (op, tail) = match read_op(alloc, major, minor, &mut cursor) {
        Ok(op) => (op, tail_len(cursor.rest())),
        Err(ReadNo::Bad(bad)) => (Op::Malformed { major, minor, bad }, after_head),
        Err(ReadNo::Memory) => return Err(ReadNo::Memory),
    };
    let request = Request {
        device,
        file,
        completion,
        op,
    };
    Ok((request, tail))
}

#[tactic(auto, unfolding(crate::specs::Request::request_head))]
pub fn head_of(cursor: &mut Cursor<'_>) -> Result<RequestHead, Bad>
    ensures { Reads (λ head. head) request_head cursor.old cursor.new result }
{
    read_header(cursor, Packet::IoRequest)?;
    let device = cursor.u32()?;
    let file = cursor.u32()?;
    let completion = cursor.u32()?;
    let major = cursor.u32()?;
    let minor = cursor.u32()?;
    Ok(RequestHead {
        device,
        file,
        completion,
        major,
        minor,
    })
}

/// Reads the body of a request with this function.
#[tactic(auto, unfolding(crate::specs::Op::op_body))]
fn read_op(alloc: Global, major: u32, minor: u32, cursor: &mut Cursor<'_>) -> Result<Op, ReadNo>
    ensures { ReadsInto (λ op. op) (op_body major minor) cursor.old cursor.new result }
{
    match major {
        CREATE => read_create(alloc, cursor),
        CLOSE => read_close(cursor),
        READ => read_read(cursor),
        WRITE => read_write(alloc, cursor),
        QUERY_FILE => read_query_file(cursor),
        SET_FILE => read_set_file(alloc, cursor),
        QUERY_VOLUME => read_query_volume(cursor),
        SET_VOLUME => read_set_volume(alloc, cursor),
        DIRECTORY => read_directory(alloc, major, minor, cursor),
        CONTROL => read_control(alloc, cursor),
        LOCK => read_lock(alloc, cursor),
        _ => Ok(Op::Unknown { major, minor }),
    }
}

/// Writes a request whose operation fits.
pub fn write_request(alloc: Global, request: &Request) -> Result<Bytes, AllocError>
    requires { Fits request.now.op }
    ensures spelled { IfOk result (SpellsRequest request.now 0) }
    ensures written { IfOk result (λ message. message ≡ request_bytes request.now) }
    ensures length { IfOk result (λ message. length message ≡ request_head_len + op_length request.now.op) }
{
    let room = Vec::with_capacity(alloc, REQUEST_HEAD_LEN + op_length(&request.op))?;
    Ok(written_in(room, request))
}

/// A request in a buffer that has room for it and for no byte more.
fn written_in(room: Vec<u8>, request: &Request) -> Bytes
    requires fits { Fits request.now.op }
    requires empty { room.items ≡ [] }
    requires exact { vec_capacity room ≡ request_head_len + op_length request.now.op }
    ensures spelled { SpellsRequest request.now 0 result }
    ensures written { result ≡ request_bytes request.now }
    ensures length { length result ≡ request_head_len + op_length request.now.op }
{
    let mut out = room;
    append(&mut out, request);
    Bytes::of(out)
}

/// Appends a request whose operation fits. Where there is no memory for all of it, nothing is appended.
pub fn put_request(out: &mut Vec<u8>, request: &Request) -> Result<(), AllocError>
    requires { Fits request.now.op }
    ensures bytes { OnOk result (out.new.items ≡ out.old.items ++ request_bytes request.now) }
    ensures spelled { OnOk result (SpellsRequest request.now 0 (request_bytes request.now)) }
    ensures length { OnOk result (length (request_bytes request.now) ≡ request_head_len + op_length request.now.op) }
    ensures err { OnErr result (out.new.items ≡ out.old.items) }
{
    out.try_reserve(REQUEST_HEAD_LEN + op_length(&request.op))?;
    append(out, request);
    Ok(())
}

/// Appends a request to bytes that have room for it.
fn append(out: &mut Vec<u8>, request: &Request)
    requires fits { Fits request.now.op }
    requires room { vec_len out.old + request_head_len + op_length request.now.op ≤ vec_capacity out.old }
    ensures bytes { out.new.items ≡ out.old.items ++ request_bytes request.now }
    ensures spelled { SpellsRequest request.now 0 (request_bytes request.now) }
    ensures length { length (request_bytes request.now) ≡ request_head_len + op_length request.now.op }
{
    put_request_head(out, request);
    put_op(out, &request.op);
}

#[tactic(auto, unfolding(rd_base::specs::Fields::bytes32), using(std::proofs::Common::append_assoc))]
fn put_request_head(out: &mut Vec<u8>, request: &Request)
    requires { vec_len out.old + request_head_len ≤ vec_capacity out.old }
    ensures bytes { out.new.items ≡ out.old.items ++ request_head_bytes request.now }
    ensures device { request.now.device < 2 ^ 32 }
    ensures file { request.now.file < 2 ^ 32 }
    ensures completion { request.now.completion < 2 ^ 32 }
    ensures len { vec_len out.new ≡ vec_len out.old + request_head_len }
    ensures room { vec_capacity out.old ≤ vec_capacity out.new }
{
    put_header(out, Packet::IoRequest);
    put_three(out, request.device, request.file, request.completion);
    put_u32(out, major_of(&request.op));
    put_u32(out, minor_of(&request.op));
}

/// Appends the body of an operation that fits.
fn put_op(out: &mut Vec<u8>, op: &Op)
    requires fits { Fits op.now }
    requires room { vec_len out.old + op_length op.now ≤ vec_capacity out.old }
    ensures bytes { out.new.items ≡ out.old.items ++ op_bytes op.now }
    ensures in_range { IsOpInRange op.now }
{
    match op {
        Op::Create {
            access,
            allocation,
            attributes,
            share,
            disposition,
            options,
            path,
        } => put_create(
            out,
            *access,
            *allocation,
            *attributes,
            *share,
            *disposition,
            *options,
            path.as_slice(),
        ),
        Op::Close => put_close(out),
        Op::Read { offset, length } => put_read(out, *offset, *length),
        Op::Write { offset, bytes } => put_write(out, *offset, bytes.as_slice()),
        Op::QueryFile { class } | Op::QueryVolume { class } => put_queried(out, *class),
        Op::SetFile { class, bytes } | Op::SetVolume { class, bytes } => {
            put_set(out, *class, bytes.as_slice())
        }
        Op::QueryDir {
            class,
            initial,
            path,
        } => put_query_dir(out, *class, *initial, path.as_slice()),
        Op::Notify { tree, filter } => put_notify(out, *tree, *filter),
        Op::Control {
            output,
            code,
            bytes,
        } => put_control(out, *output, *code, bytes.as_slice()),
        Op::Lock {
            operation,
            wait,
            ranges,
        } => put_lock(out, *operation, *wait, ranges.as_slice()),
        Op::Unknown { .. } | Op::Malformed { .. } => unreachable!(),
    }
}
