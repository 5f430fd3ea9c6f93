//! Each ending that a row can give, and what is written. Want of memory never comes, as no test takes the memory away.

use crate::handing::written;
use crate::one_channel::on_one_table;
use rd_base::{Bytes, Calls};
use rd_carry::{Incoming, Outgoing};
use rd_chunk::{MAX_MESSAGE, put_frames};
use rd_host_channel::Ending;
use rd_link::{Linker, MemLinker};
use std::alloc::{AllocError, Global};
use std::marker::Brand;
use std::test::Fail;

/// What a client says to a host that announced itself (MS-RDPEFS 2.2.2.3, 2.2.2.4, 2.2.2.8).
const CONFIRM: &[u8] = b"rDCC\x01\0\x0c\0\x01\0\0\0";

const NAME: &[u8] = b"rDNC\x01\0\0\0\0\0\0\0\x08\0\0\0R\0D\0R\0\0\0";

const SETS: &[u8] =
    b"rDPC\x03\0\0\0\x01\0\x2c\0\x02\0\0\0\x02\0\0\0\0\0\0\0\x01\0\x0c\0\xff\xff\0\0\0\0\0\0\x05\0\0\0\x01\0\0\0\0\0\0\0\0\0\0\0\x02\0\x08\0\x01\0\0\0\x04\0\x08\0\x02\0\0\0";

/// A list with too many devices, and a completion of no request.
const LONG: &[u8] = b"rDAD\x01\x01\0\0\x08\0\0\0\x01\0\0\0DATA\0\0\0\0\0\0\0\0";

const STRAY: &[u8] = b"rDCI\x01\0\0\0\0\0\0\0\x0d\0\0\xc0\0\0\0\0";

const FRAME: &[u8] = b"\x0c\0\0\0\x04\0\0\0\x03\0\0\0rDLU";

/// What comes on a channel: messages, and then bytes; the reads that fail; the number that is listened to; and the ending that is told.
#[derive(Clone, Copy)]
struct Row {
    messages: &'static [&'static [u8]],
    bytes: &'static [u8],
    fails: &'static [u64],
    channel: u32,
    told: (&'static [u8], u64, u64),
}

/// An ending's name, the place of its fault, and how many messages came before.
fn told(ending: Ending) -> (&'static [u8], u64, u64) {
    match ending {
        Ending::Input => (b"Input", 0, 0),
        Ending::Unread => (b"Unread", 0, 0),
        Ending::Fault {
            at,
            message,
            why: _,
        } => (b"Fault", at, message),
        Ending::Long => (b"Long", 0, 0),
        Ending::Memory => (b"Memory", 0, 0),
        Ending::Over => (b"Over", 0, 0),
    }
}

/// The frames of messages, and then bytes.
fn stream_of(alloc: Global, messages: &[&[u8]], bytes: &[u8]) -> Result<Bytes, AllocError> {
    let mut stream = Vec::new(alloc);
    for message in messages {
        if !message.is_empty() && message.len() <= MAX_MESSAGE {
            put_frames(&mut stream, message)?;
        }
    }
    stream.extend_from_slice(bytes)?;
    Ok(Bytes::of(stream))
}

/// A linker of one channel of these bytes, where these reads and writes fail.
fn linker(
    alloc: Global,
    bytes: Bytes,
    reads: &[u64],
    writes: &[u64],
) -> Result<MemLinker, AllocError> {
    let mut channels = Vec::with_capacity(alloc, 1)?;
    channels.push(bytes)?;
    let none = Calls::of(Vec::new(alloc));
    let reads = Calls::of(reads.to_vec(alloc)?);
    let writes = Calls::of(writes.to_vec(alloc)?);
    MemLinker::with_fails(alloc, channels, none, reads, writes)
}

#[test]
fn listens_to_the_end(rt: HostRuntime) -> Result<(), Fail> {
    let alloc = rt.alloc();
    let rows = [
        Row {
            messages: &[CONFIRM, NAME, SETS],
            bytes: b"",
            fails: &[],
            channel: 1,
            told: (b"Input", 0, 0),
        },
        Row {
            messages: &[CONFIRM],
            bytes: b"",
            fails: &[1],
            channel: 1,
            told: (b"Unread", 0, 0),
        },
        Row {
            messages: &[CONFIRM, NAME, SETS, STRAY],
            bytes: b"",
            fails: &[],
            channel: 1,
            told: (b"Fault", 8, 3),
        },
        Row {
            messages: &[CONFIRM, NAME, SETS, LONG],
            bytes: b"",
            fails: &[],
            channel: 1,
            told: (b"Fault", 4, 3),
        },
        Row {
            messages: &[CONFIRM],
            bytes: b"\x08\0\0\0",
            fails: &[],
            channel: 1,
            told: (b"Fault", 24, 0),
        },
        Row {
            messages: &[CONFIRM],
            bytes: b"",
            fails: &[],
            channel: 2,
            told: (b"Over", 0, 0),
        },
    ];
    for row in &rows {
        let bytes = stream_of(alloc, row.messages, row.bytes)?;
        let mut linker = linker(alloc, bytes, row.fails, &[])?;
        let (input, _) = linker.connect().ok().ok_or("no channel")?;
        let incoming = Incoming::new(alloc, input, vec![in alloc; 0; 64]?);
        let ending = on_one_table(&rt, alloc, row.channel, incoming).ok_or("no memory")?;
        assert_eq!(rt; told(ending), row.told);
    }
    Ok(())
}

/// Two rooms of a message each are written. Where the first write fails all is taken, and nothing written.
#[test]
fn writes_what_it_is_handed(rt: HostRuntime) -> Result<(), Fail> {
    let alloc = rt.alloc();
    let mut twice = FRAME.to_vec(alloc)?;
    twice.extend_from_slice(FRAME)?;
    let rows: [(&[u64], &[u8], u64); 2] = [(&[], twice.as_slice(), 0), (&[1], b"", 1)];
    for (fails, expected, faults) in &rows {
        let none = Bytes::of(Vec::new(alloc));
        let mut linker = linker(alloc, none, &[], fails)?;
        let (input, output) = linker.connect().ok().ok_or("no channel")?;
        let output = Outgoing::new(output, Vec::new(alloc));
        let (output, starved) = written::<Brand, _>(&rt, alloc, 2, output).ok_or("no memory")?;
        let (output, _) = output.into_parts();
        linker.settle(input, output);
        assert!(rt; !starved);
        for settled in linker.settled() {
            assert!(rt; settled.written.as_slice() == *expected && settled.write_faults == *faults);
        }
    }
    Ok(())
}
