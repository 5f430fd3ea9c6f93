//! The commands `client` and `host` over channels and folders in memory: their statuses, what they print, and what their notes say.
use crate::frames::{
    ANNOUNCE, CLIENT_SETS, COMPLETION, CONFIRM, CREATE, CUT_HEAD, CUT_READ, HOST_SETS, LIST,
    LOGGED_ON, LONG_LIST, NAME,
};
use crate::outside::{Kind, Outside, Remains, strings};
use std::alloc::AllocError;
use std::process::Abort;
use std::sync::Wait;
use std::test::Fail;
use std::thread::Threads;

const DRIVE: &[u8] = b"drive 1 DATA\n";

/// A drive, and two channels.
const TWO_CHANNELS: &[u8] = b"drive 1 DATA\nchannels 2\n";

const RAN: &[u8] = b"device 1 ran 0\n";

/// Two drives over folders, the second one's line first.
const TWO_FOLDERS: &[u8] = b"real 2 TWO photos\nreal 1 ONE notes\n";

/// A frame that ends a message which didn't begin.
const LAST: &[u8] = b"\x09\0\0\0\x01\0\0\0\x02\0\0\0a";

const LAST_LINES: &[u8] = b"device 1 ran 0\nchannel 1 at 8 NoFirst\n";

const OPEN: &[u8] = b"1 open h 1 \\a.txt\n";

const REFUSED: &[u8] = b"1.1 refused nochannel\n";

/// What a client sends: its opening, a list of one drive, and a completion of no request.
const STRAY: &[&[u8]] = &[CONFIRM, NAME, CLIENT_SETS, LIST, COMPLETION];

/// What a command is run on, its status, and what it prints. A channel is a list of frames. The calls with these numbers fail, of which there is none with 0.
#[derive(Clone, Copy)]
struct Row {
    word: &'static str,
    script: &'static [u8],
    channels: &'static [&'static [&'static [u8]]],
    input: u64,
    output: u64,
    connect: u64,
    opening: u64,
    status: u8,
    printed: &'static [u8],
}

/// A client's script whose channels come to their end.
const OVER: Row = Row {
    word: "client",
    script: DRIVE,
    channels: &[&[]],
    input: 0,
    output: 0,
    connect: 0,
    opening: 0,
    status: 0,
    printed: RAN,
};

/// A host's script, whose device never comes.
const PLAYED: Row = Row {
    word: "host",
    script: OPEN,
    printed: REFUSED,
    ..OVER
};

const ROWS: [Row; 21] = [
    OVER,
    Row {
        script: TWO_CHANNELS,
        channels: &[&[], &[]],
        ..OVER
    },
    // A write of the output fails.
    Row {
        output: 1,
        status: 3,
        printed: b"",
        ..OVER
    },
    // What came on the channel is wrong, and that stays so where it can't be said.
    Row {
        channels: &[&[LAST]],
        status: 4,
        printed: LAST_LINES,
        ..OVER
    },
    Row {
        channels: &[&[LAST]],
        output: 1,
        status: 4,
        printed: b"",
        ..OVER
    },
    // A request before the host announced itself, and an announce after another.
    Row {
        channels: &[&[CREATE]],
        status: 4,
        printed: b"device 1 ran 0\nchannel 1 at 0 Order in 0\n",
        ..OVER
    },
    Row {
        channels: &[&[ANNOUNCE, ANNOUNCE]],
        status: 4,
        printed: b"device 1 ran 0\nchannel 1 at 0 Order in 1\n",
        ..OVER
    },
    // An announce whose frame is cut: the channel ends there, and nothing is wrong.
    Row {
        channels: &[&[b"\x14\0\0\0\x0c\0\0\0\x03\0\0\0rDnI\x01\0\x0c\0\x01\0\0"]],
        ..OVER
    },
    // One of another component, of a packet that there isn't, and of another version.
    Row {
        channels: &[&[b"\x14\0\0\0\x0c\0\0\0\x03\0\0\0sDnI\x01\0\x0c\0\x01\0\0\0"]],
        status: 4,
        printed: b"device 1 ran 0\nchannel 1 at 0 Component in 0\n",
        ..OVER
    },
    Row {
        channels: &[&[b"\x14\0\0\0\x0c\0\0\0\x03\0\0\0rD\0\0\x01\0\x0c\0\x01\0\0\0"]],
        status: 4,
        printed: b"device 1 ran 0\nchannel 1 at 2 Packet in 0\n",
        ..OVER
    },
    Row {
        channels: &[&[b"\x14\0\0\0\x0c\0\0\0\x03\0\0\0rDnI\x02\0\x0c\0\x01\0\0\0"]],
        status: 4,
        printed: b"device 1 ran 0\nchannel 1 at 4 Value in 0\n",
        ..OVER
    },
    // A request whose head is cut.
    Row {
        channels: &[&[ANNOUNCE, HOST_SETS, CONFIRM, LOGGED_ON, CUT_HEAD]],
        status: 4,
        printed: b"device 1 ran 0\nchannel 1 at 20 Short in 4\n",
        ..OVER
    },
    // Frames without a byte, behind one that has some.
    Row {
        channels: &[&[ANNOUNCE, b"\x08\0\0\0\x08\0\0\0"]],
        status: 4,
        printed: b"device 1 ran 0\nchannel 1 at 24 Empty\n",
        ..OVER
    },
    // A channel can't be had: the first, and the second. Then a write fails too.
    Row {
        connect: 1,
        status: 5,
        ..OVER
    },
    Row {
        script: TWO_CHANNELS,
        status: 5,
        ..OVER
    },
    Row {
        connect: 1,
        output: 1,
        status: 3,
        printed: b"",
        ..OVER
    },
    // A line of a session that has both sides.
    Row {
        script: b"drive 1 DATA\ndrop\n",
        status: 1,
        printed: b"line 2 words\n",
        ..OVER
    },
    // A device that wasn't declared.
    Row {
        script: b"at 1 0 remove 1\n",
        status: 1,
        printed: b"line 1 device\n",
        ..OVER
    },
    // A read of the input fails.
    Row {
        input: 1,
        status: 2,
        printed: b"",
        ..OVER
    },
    // Folders that are opened, and closed whatever happens then.
    Row {
        script: TWO_FOLDERS,
        printed: b"device 1 ran 0\ndevice 2 ran 0\n",
        ..OVER
    },
    Row {
        script: TWO_FOLDERS,
        connect: 1,
        output: 1,
        status: 3,
        printed: b"",
        ..OVER
    },
];

/// The same of a host.
const HOST_ROWS: [Row; 10] = [
    PLAYED,
    // A second channel, which can't be had then.
    Row {
        script: b"connect\n1 open h 1 \\a.txt\n",
        channels: &[&[], &[]],
        ..PLAYED
    },
    Row {
        script: b"connect\n1 open h 1 \\a.txt\n",
        status: 5,
        ..PLAYED
    },
    Row {
        output: 1,
        status: 3,
        printed: b"",
        ..PLAYED
    },
    Row {
        channels: &[&[LAST]],
        status: 4,
        printed: b"1.1 refused nochannel\nchannel 1 at 8 NoFirst\n",
        ..PLAYED
    },
    // Capabilities before a confirm, and a confirm after another.
    Row {
        channels: &[&[CLIENT_SETS]],
        status: 4,
        printed: b"1.1 refused nochannel\nchannel 1 at 0 Order in 0\n",
        ..PLAYED
    },
    Row {
        channels: &[&[CONFIRM, CONFIRM]],
        status: 4,
        printed: b"1.1 refused nochannel\nchannel 1 at 0 Order in 1\n",
        ..PLAYED
    },
    // A list of more devices than there may be.
    Row {
        channels: &[&[CONFIRM, NAME, CLIENT_SETS, LONG_LIST]],
        status: 4,
        printed: b"1.1 refused nochannel\nchannel 1 at 4 Count in 3\n",
        ..PLAYED
    },
    // A device that is declared.
    Row {
        script: DRIVE,
        status: 1,
        printed: b"line 1 words\n",
        ..PLAYED
    },
    Row {
        input: 1,
        status: 2,
        printed: b"",
        ..PLAYED
    },
];

/// What a command leaves of a row.
fn left_by(
    rt: &(impl Threads + Wait + Sync + AllocGlobal),
    row: &Row,
) -> Result<Remains, AllocError> {
    let alloc = rt.alloc();
    let words = strings(alloc, &[row.word, "rdr.sock"])?;
    let fails = [
        (Kind::Input, row.input),
        (Kind::Output, row.output),
        (Kind::Connect, row.connect),
        (Kind::Opening, row.opening),
    ];
    let outside = Outside::new(alloc, row.script, row.channels, &fails)?;
    Ok(outside.run(rt, alloc, words.as_slice()))
}

#[test]
fn ends_as_its_channels_do(rt: HostRuntime) -> Result<(), Fail> {
    for row in &ROWS {
        let left = left_by(&rt, row)?;
        assert_eq!(rt;
            (left.status, left.output.bytes(), left.recording.bytes()),
            (row.status, row.printed, b"".as_slice())
        );
    }
    Ok(())
}

#[test]
fn ends_a_host_as_its_channels_do(rt: HostRuntime) -> Result<(), Fail> {
    for row in &HOST_ROWS {
        let left = left_by(&rt, row)?;
        assert_eq!(rt;
            (left.status, left.output.bytes(), left.recording.bytes()),
            (row.status, row.printed, b"".as_slice())
        );
    }
    Ok(())
}

/// A request whose body is cut is refused by its device, and nothing is wrong. The channel may end before the device has run it.
#[test]
fn goes_on_after_a_cut_request(rt: HostRuntime) -> Result<(), Fail> {
    let row = Row {
        channels: &[&[ANNOUNCE, HOST_SETS, CONFIRM, LOGGED_ON, CUT_READ]],
        ..OVER
    };
    let left = left_by(&rt, &row)?;
    let output = std::str::from_utf8(left.output.bytes())?;
    let is_told = output == "device 1 ran 1\n" || output == "device 1 ran 0\n";
    assert!(rt; left.status == 0 && is_told, "{output}");
    Ok(())
}

/// What a client sent is wrong. The application's line may have been issued before that or not.
#[test]
fn names_what_a_client_sent(rt: HostRuntime) -> Result<(), Fail> {
    let row = Row {
        channels: &[STRAY],
        ..PLAYED
    };
    let left = left_by(&rt, &row)?;
    let output = std::str::from_utf8(left.output.bytes())?;
    assert!(rt; left.status == 4 && output.ends_with("channel 1 at 8 Stray in 4\n"));
    let notes = std::str::from_utf8(left.notes.bytes())?;
    assert!(rt;
        notes.contains("rdr: channel 1: after 4 messages the client sent"),
        "{notes}"
    );
    Ok(())
}

/// The notes say which channel was wrong, and where.
#[test]
fn tells_people_of_a_channel(rt: HostRuntime) -> Result<(), Fail> {
    let row = Row {
        channels: &[&[LAST]],
        ..OVER
    };
    let left = left_by(&rt, &row)?;
    let notes = std::str::from_utf8(left.notes.bytes())?;
    assert!(rt;
        notes.contains("rdr: channel 1: in the frame at byte 8 of what the host sent"),
        "{notes}"
    );
    Ok(())
}

/// A folder that can't be opened ends a client before anything is connected. The notes say which it is; the first by its id is asked for first.
#[test]
fn ends_with_8_without_its_first_folder(rt: HostRuntime) -> Result<(), Fail> {
    let row = Row {
        script: TWO_FOLDERS,
        opening: 1,
        ..OVER
    };
    let left = left_by(&rt, &row)?;
    assert!(rt; left.status == 8 && left.output.bytes().is_empty());
    assert!(rt; left.books.journal(1).is_none());
    assert!(rt; left.folders.closed().len() == 0);
    let notes = std::str::from_utf8(left.notes.bytes())?;
    assert!(rt;
        notes == "rdr: device 1: the folder notes can't be opened\n",
        "{notes}"
    );
    Ok(())
}

/// Where the second one can't be opened the first is closed.
#[test]
fn ends_with_8_without_its_second_folder(rt: HostRuntime) -> Result<(), Fail> {
    let row = Row {
        script: TWO_FOLDERS,
        opening: 2,
        ..OVER
    };
    let left = left_by(&rt, &row)?;
    assert!(rt; left.status == 8 && left.output.bytes().is_empty());
    assert!(rt; left.books.journal(1).is_none());
    assert!(rt; left.folders.closed().len() == 1);
    let notes = std::str::from_utf8(left.notes.bytes())?;
    assert!(rt;
        notes == "rdr: device 2: the folder photos can't be opened\n",
        "{notes}"
    );
    Ok(())
}
