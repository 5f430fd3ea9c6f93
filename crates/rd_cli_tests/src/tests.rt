//! What ends a command, and what it leaves: the report, the recording, the journal and the notes.
use crate::outside::{Failing, Kind, Outside, Remains, strings};
use rd_base::{Books, Cause, Item, Key};
use std::alloc::{AllocError, Global};
use std::process::Abort;
use std::sync::Wait;
use std::test::Fail;
use std::thread::Threads;

/// A file is opened, read and closed.
const SCRIPT: &[u8] =
    b"drive 1 DATA\nfile 1 \\a.txt 68656c6c6f\n1 open h 1 \\a.txt\n1 read h 0 5\n1 close h\n";

const REPORT: &[u8] =
    b"1.1 done 00000000 0100000001\n1.2 done 00000000 0500000068656c6c6f\n1.3 done 00000000 00000000\ndevice 1 ran 3\n";

/// The recording: the magic, the channel's begin, and each message in a frame of its own after its sender's mark: the opening, and the requests.
const RECORDING: &str = "5244525245433031\
02\
00140000000c00000003000000\
72446e4901000c0001000000\
01140000000c00000003000000\
7244434301000c0001000000\
01200000001800000003000000\
72444e430100000000000000080000005200440052000000\
004c0000004400000003000000\
724450530300000001002c0002000000020000000000000001000c00ffff0000000000000500000000000000000000000000000002000800\
010000000400080002000000\
00140000000c00000003000000\
7244434301000c0001000000\
014c0000004400000003000000\
724450430300000001002c0002000000020000000000000001000c00ffff0000000000000500000001000000000000000000000002000800\
010000000400080002000000\
000c0000000400000003000000\
72444c55\
01240000001c00000003000000\
72444144010000000800000001000000444154410000000000000000\
00140000000c00000003000000\
724472640100000000000000\
00\
4e0000004600000003000000\
724452490100000000000000000000000000000000000000\
00000080000000000000000000000000070000000100000000000000\
0e0000005c0061002e007400780074000000\
01\
1d0000001500000003000000\
72444349010000000000000000000000\
0100000001\
00\
400000003800000003000000\
724452490100000001000000000000000300000000000000\
0500000000000000000000000000000000000000000000000000000000000000\
01\
210000001900000003000000\
72444349010000000000000000000000\
0500000068656c6c6f\
00\
400000003800000003000000\
724452490100000001000000000000000200000000000000\
0000000000000000000000000000000000000000000000000000000000000000\
01\
1c0000001400000003000000\
72444349010000000000000000000000\
00000000";

/// No call on the outside fails.
const NEVER: &[Failing] = &[];

/// What a command leaves of a script.
fn command(
    rt: &(impl Threads + Wait + Sync + AllocGlobal),
    words: &[&str],
    script: &[u8],
    fails: &[Failing],
) -> Result<Remains, AllocError> {
    let alloc = rt.alloc();
    let words = strings(alloc, words)?;
    let outside = Outside::new(alloc, script, &[], fails)?;
    Ok(outside.run(rt, alloc, words.as_slice()))
}

/// The entries of the drive's journal.
fn entries(books: &Books) -> &[Item] {
    let Some(journal) = books.journal(1) else {
        return &[];
    };
    journal.items()
}

/// A command ends with this status, this output and this recording.
fn ends(
    rt: &(impl Abort + Threads + Wait + Sync + AllocGlobal),
    words: &[&str],
    script: &[u8],
    fails: &[Failing],
    wanted: (u8, &[u8], &[u8]),
) -> Result<(), Fail> {
    let left = command(rt, words, script, fails)?;
    assert_eq!(rt;
        (left.status, left.output.bytes(), left.recording.bytes()),
        wanted,
        "{words:?}, {fails:?}"
    );
    Ok(())
}

/// Where there is ample memory it is found, and a file goes through frames.
#[test]
fn finds_memory(rt: HostRuntime) -> Result<(), Fail> {
    let recording = hex::decode(rt.alloc(), RECORDING)?;
    let wanted = (0, REPORT, recording.as_slice());
    ends(&rt, &["both"], SCRIPT, NEVER, wanted)
}

/// The entries of a request that ran.
fn completed(index: u64) -> [Item; 3] {
    let key = Key { channel: 1, index };
    let ended = Item::Ran {
        key,
        moment: 0,
        starved: false,
        parked: false,
    };
    [Item::Came(key), ended, Item::Sent(key)]
}

#[test]
fn keeps_a_journal(rt: HostRuntime) -> Result<(), Fail> {
    let left = command(&rt, &["both"], SCRIPT, NEVER)?;
    let wanted = [completed(0), completed(1), completed(2)];
    assert_eq!(rt; entries(&left.books), wanted.as_flattened());
    Ok(())
}

/// Only one call fails: a write that was tried again, or another after it, would come through, and be seen.
#[test]
fn ends_where_the_outside_fails(rt: HostRuntime) -> Result<(), Fail> {
    let recording = hex::decode(rt.alloc(), RECORDING)?;
    // What fails, the status, and how many bytes are recorded by then.
    for (fails, status, recorded) in [
        ((Kind::Input, 1), 2, 0),
        ((Kind::Input, 2), 2, 0),
        ((Kind::Output, 1), 3, 692),
        ((Kind::Recording, 1), 3, 0),
    ] {
        let prefix = recording.get(..recorded).unwrap_or_default();
        for word in ["both", "trace"] {
            let wanted = (status, b"".as_slice(), prefix);
            ends(&rt, &[word], SCRIPT, &[fails], wanted)?;
        }
    }
    Ok(())
}

/// A command comes to this status, and writes this to the output.
fn comes_to(
    rt: &(impl Abort + Threads + Wait + Sync + AllocGlobal),
    words: &[&str],
    script: &[u8],
    wanted: (u8, &[u8]),
) -> Result<Remains, Fail> {
    let left = command(rt, words, script, NEVER)?;
    assert_eq!(rt; (left.status, left.output.bytes()), wanted, "{words:?}");
    Ok(left)
}

/// Two applications, a drive and a printer. The drive is removed, and then the channel ends.
const WHOLE: &[u8] = b"drive 1 DATA
printer 2 PRN1 Driver Office
file 1 \\a 61
1 open h 1 \\a
2 create p 2 - 1 0x40000000 0 0 0
2 write p 0 6869
2 close p
settle
remove 1
settle
1 read h 0 1
settle
drop
2 create p 2 - 1 0x40000000 0 0 0
";

const WHOLE_REPORT: &[u8] = b"1.1 done 00000000 0100000001
1.2 refused nodevice
2.1 done 00000000 0100000000
2.2 done 00000000 0200000000
2.3 done 00000000 00000000
2.4 refused nochannel
device 1 ran 1
device 2 ran 3
document 2.1 6869
";

#[test]
fn plays_whole_sessions(rt: HostRuntime) -> Result<(), Fail> {
    let left = comes_to(&rt, &["both"], WHOLE, (0, WHOLE_REPORT))?;
    // The drive's journal ends with the removal.
    assert!(rt; matches!(entries(&left.books), [.., Item::Cut(Cause::Removed)]));
    // The channel's end is what is recorded last.
    assert!(rt; left.recording.bytes().ends_with(b"\x03"));
    Ok(())
}

/// What a load of two rounds comes to.
const LOAD: &[u8] = b"load 2 accepted 24 done 24 lost 0 bytes 32768 sum 98304\n";

#[test]
fn plays_a_load(rt: HostRuntime) -> Result<(), Fail> {
    let words = ["load", "2"];
    let left = comes_to(&rt, &words, b"nothing is read", (0, LOAD))?;
    assert_eq!(rt; left.recording.bytes().len(), 68_855);
    // What is recorded goes out in pieces: where the first can't be written, the second isn't.
    let first = &[(Kind::Input, 1), (Kind::Recording, 1)];
    ends(&rt, &words, b"", first, (3, b"", b""))?;
    // Where the second can't be, the first has been.
    let second = &[(Kind::Input, 1), (Kind::Recording, 2)];
    let cut = command(&rt, &words, b"", second)?;
    let written = cut.recording.bytes().len();
    assert_eq!(rt; (cut.status, cut.output.bytes()), (3, b"".as_slice()));
    assert!(rt; 65_536 <= written && written < 68_855, "{written}");
    assert!(rt; left.recording.bytes().starts_with(cut.recording.bytes()));
    Ok(())
}

/// An input is read in pieces, one call each, and once more to see its end: a third call, which would fail, isn't made.
#[test]
fn reads_no_more_than_the_input(rt: HostRuntime) -> Result<(), Fail> {
    let recording = hex::decode(rt.alloc(), RECORDING)?;
    let third = &[(Kind::Input, 3)];
    let played = (0, REPORT, recording.as_slice());
    ends(&rt, &["both"], SCRIPT, third, played)?;
    let printed = (0, ANNOUNCE_LINE, b"".as_slice());
    ends(&rt, &["decode"], ANNOUNCE, third, printed)
}

/// A recording of so many messages of four bytes.
fn long_recording(alloc: Global, messages: usize) -> Result<Vec<u8>, AllocError> {
    let mut recording = Vec::from_slice(alloc, b"RDRREC01\x02")?;
    for _ in 0..messages {
        recording.extend_from_slice(b"\0\x0c\0\0\0\x04\0\0\0\x03\0\0\0rDLU")?;
    }
    Ok(recording)
}

/// What is printed is written as it comes: of lines that fill more than one write the second fails, and the first has been written.
#[test]
fn writes_lines_in_pieces(rt: HostRuntime) -> Result<(), Fail> {
    let recording = long_recording(rt.alloc(), 8000)?;
    let second = &[(Kind::Output, 2)];
    let left = command(&rt, &["decode"], recording.as_slice(), second)?;
    assert_eq!(rt; left.status, 3);
    let written = left.output.bytes().len();
    assert!(rt; 0 < written && written < 200_000, "{written}");
    Ok(())
}

/// Words, or a script, are refused with this line, and nothing is recorded.
fn refuses(
    rt: &(impl Abort + Threads + Wait + Sync + AllocGlobal),
    words: &[&str],
    script: &[u8],
    line: &[u8],
) -> Result<(), Fail> {
    ends(rt, words, script, NEVER, (1, line, b""))
}

#[test]
fn names_the_first_line_that_is_refused(rt: HostRuntime) -> Result<(), Fail> {
    for (script, line) in [
        (
            b"1 open h 1 \\a\n".as_slice(),
            b"line 1 device\n".as_slice(),
        ),
        (b"# only\n\ndrive 1 DATA\ndrive 1 DATA", b"line 4 device\n"),
        (b"drive 1 DATABASE", b"line 1 name\n"),
        (b"drive 1 DATA\nfile 1 \\a 6", b"line 2 hex\n"),
        (b"drive 1 DATA\nfile 1 \\.. 61", b"line 2 path\n"),
        (b"drive 1 DATA\n1 read h 01 5", b"line 2 number\n"),
        (b"drive 1 DATA\n\xff", b"line 2 words\n"),
        // Lines of a client's script alone, and of a host's.
        (b"drive 1 DATA\nat 1 5 remove 1", b"line 2 words\n"),
        (b"devices 3", b"line 1 words\n"),
        // Of two the earlier is named.
        (
            b"drive 1 DATA\n1 read h 01 5\nsettle now",
            b"line 2 number\n",
        ),
    ] {
        refuses(&rt, &["both"], script, line)?;
    }
    Ok(())
}

#[test]
fn holds_scripts_to_their_most_lines(rt: HostRuntime) -> Result<(), Fail> {
    for (lines, wanted) in [
        (1_000_001, (1, b"line 1000001 many\n".as_slice())),
        (1_000_000, (0, b"")),
    ] {
        let script = vec![in rt.alloc(); b'\n'; lines]?;
        let left = comes_to(&rt, &["both"], script.as_slice(), wanted)?;
        assert_eq!(rt; left.recording.bytes().is_empty(), left.status != 0);
    }
    Ok(())
}

#[test]
fn knows_each_command_by_its_words(rt: HostRuntime) -> Result<(), Fail> {
    for words in [
        [].as_slice(),
        &[""],
        &["Both"],
        &["both", "both"],
        &["both", "decode"],
        &["trace", "both"],
        &["audit", "trace"],
        &["trace", "-"],
        &["decode", ""],
        &["help"],
        &["help", "both"],
        &["both", "help"],
        &["-"],
        &["--"],
        &["--", "both"],
        &["both", "--"],
        &["--help"],
        &["decode", "-h"],
        &["--version"],
        &["load"],
        &["load", ""],
        &["load", "0"],
        &["load", "01"],
        &["load", "1001"],
        &["load", "0x10"],
        &["load", "-1"],
        &["load", "1", "2"],
        &["1", "load"],
        &["client"],
        &["client", ""],
        &["client", "-"],
        &["client", "a", "b"],
        &["a", "client"],
        &["host"],
        &["host", ""],
        &["host", "-"],
        &["host", "a", "b"],
        &["a", "host"],
    ] {
        refuses(&rt, words, SCRIPT, b"bad words\n")?;
    }
    // The line can't be written, and the status stays. Nothing is read.
    let unsaid = &[(Kind::Input, 1), (Kind::Output, 1)];
    ends(&rt, &["help"], SCRIPT, unsaid, (1, b"", b""))
}

/// A recording in which the host announces itself, and what is printed of it.
const ANNOUNCE: &[u8] = b"RDRREC01\x02\0\x14\0\0\0\x0c\0\0\0\x03\0\0\0rDnI\x01\0\x0c\0\x01\0\0\0";

const ANNOUNCE_LINE: &[u8] = b"host 12 SERVER_ANNOUNCE tail 0\n";

/// The same, cut inside the frame.
const CUT: &[u8] = b"RDRREC01\x02\0\x14\0\0\0\x0c\0\0\0\x03\0\0\0rDnI\x01\0\x0c\0\x01\0\0";

const CUT_LINE: &[u8] = b"fault at 10 Short\n";

#[test]
fn decodes_a_recording(rt: HostRuntime) -> Result<(), Fail> {
    for (recording, fails, status, output) in [
        (ANNOUNCE, NEVER, 0, ANNOUNCE_LINE),
        (CUT, NEVER, 4, CUT_LINE),
        (b"", NEVER, 4, b"fault at 0 Value\n"),
        (ANNOUNCE, &[(Kind::Input, 1)], 2, b""),
        (ANNOUNCE, &[(Kind::Output, 1)], 3, b""),
        // The line can't be written, and the status stays.
        (CUT, &[(Kind::Output, 1)], 4, b""),
        // Nothing is recorded, so no failure of the recording is met.
        (ANNOUNCE, &[(Kind::Recording, 1)], 0, ANNOUNCE_LINE),
    ] {
        let wanted = (status, output, b"".as_slice());
        ends(&rt, &["decode"], recording, fails, wanted)?;
    }
    Ok(())
}

#[test]
fn tells_people_what_is_wrong(rt: HostRuntime) -> Result<(), Fail> {
    for (words, script, told) in [
        (["--help"], SCRIPT, "usage: rdr both < SCRIPT"),
        (["help"], SCRIPT, "rdr decode < RECORDING"),
        (["help"], SCRIPT, "rdr load N"),
        (["help"], SCRIPT, "rdr client PATH < SCRIPT"),
        (["help"], SCRIPT, "rdr host PATH < SCRIPT"),
        (["decode"], CUT, ""),
        (
            ["both"],
            b"drive 1 DATA\n1 raed h 0 5\n".as_slice(),
            "rdr: line 2: 1 raed h 0 5\nrdr: raed can't stand there\n",
        ),
        (
            ["both"],
            b"drive 1 DATA\n1 raed h 0 5\n",
            "rdr: expected read of: A read H OFFSET LENGTH\n",
        ),
        (["both"], b"\xffpeek", "no line begins with that word"),
        (
            ["both"],
            b"drop\ndrop\n",
            "rdr: line 2 did nothing: no channel is open\n",
        ),
        (["both"], SCRIPT, ""),
    ] {
        let left = command(&rt, &words, script, NEVER)?;
        let notes = std::str::from_utf8(left.notes.bytes())?;
        assert!(rt;
            notes.contains(told) && notes.is_empty() == told.is_empty(),
            "{notes}"
        );
    }
    Ok(())
}
