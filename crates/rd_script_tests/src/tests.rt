//! The table of lines: each form good once, and bad in each of its words; and what no clause says: with ample memory each call goes
//! through.

ghost use Rattle.std.specs.Prelude.{◌≡◌, [], IfOk};

use rd_base::{Books, Bytes, Items};
use rd_script::{LineWhy, Mode, Outcomes, ScriptNo, load_script, read_script, report};
use std::alloc::{AllocError, Global};
use std::process::Abort;

/// The lines before each line of the table for both ends.
const BOTH: &str = "drive 1 ONE\ndrivefold 2 TWO\nprinter 3 PRN D P\nfolder 1 \\a\n";

/// The lines before each line of the table for a client.
const CLIENT: &str = "drive 1 ONE\ndrivefold 2 TWO\nreal 3 REAL /tmp\nfolder 1 \\a\n";

/// A line and why it is bad, if it is.
type Row = (&'static str, Option<LineWhy>);

/// Lines for both ends in one process.
const BOTH_ROWS: &[Row] = &[
    ("seed 18446744073709551615", None),
    ("seed", Some(LineWhy::Words)),
    ("seed 18446744073709551616", Some(LineWhy::Number)),
    ("seed 01", Some(LineWhy::Number)),
    ("seed 0X1F", Some(LineWhy::Number)),
    ("seed 0x1F", Some(LineWhy::Number)),
    ("seed 0x", Some(LineWhy::Number)),
    ("seed 1 ", Some(LineWhy::Words)),
    ("seed 1 2", Some(LineWhy::Words)),
    ("clock 0x0001f", None),
    ("clock -", Some(LineWhy::Number)),
    ("piece 65536", None),
    ("piece 0", Some(LineWhy::Number)),
    ("piece 65537", Some(LineWhy::Number)),
    ("workers 16", None),
    ("workers 0", Some(LineWhy::Number)),
    ("workers 17", Some(LineWhy::Number)),
    ("channels 64", Some(LineWhy::Words)),
    ("devices 256", Some(LineWhy::Words)),
    ("drive 4 ABCDEFG", None),
    ("drive 0 A", Some(LineWhy::Number)),
    ("drive x", Some(LineWhy::Number)),
    ("drive 4294967296 A", Some(LineWhy::Number)),
    ("drive 1 A", Some(LineWhy::Device)),
    ("drive 4", Some(LineWhy::Words)),
    ("drive 4 ABCDEFGH", Some(LineWhy::Name)),
    ("drive 4 \x7f", Some(LineWhy::Name)),
    ("drive 4  ", Some(LineWhy::Name)),
    ("drive 4 A b", Some(LineWhy::Words)),
    ("drivefold 4 A", None),
    ("drivefold y A", Some(LineWhy::Number)),
    ("drivefold 3 A", Some(LineWhy::Device)),
    ("drivefold 4 ", Some(LineWhy::Name)),
    ("drivefold 4 A b", Some(LineWhy::Words)),
    ("real 4 A /tmp", Some(LineWhy::Words)),
    ("folder 1 \\a\\b", None),
    ("folder 9 \\b", Some(LineWhy::Device)),
    ("folder 3 \\b", Some(LineWhy::Device)),
    ("folder 1 b%00E9", Some(LineWhy::Path)),
    ("folder 1 \\a\\..", Some(LineWhy::Path)),
    ("folder 1 \\c\\b", Some(LineWhy::Path)),
    ("folder 1 \\a", Some(LineWhy::Path)),
    ("folder 1 -", Some(LineWhy::Path)),
    ("folder 1 \\b c", Some(LineWhy::Words)),
    ("file 1 \\b 00ff", None),
    ("file 0 \\b -", Some(LineWhy::Number)),
    ("file 9 \\b -", Some(LineWhy::Device)),
    ("file 3 \\b -", Some(LineWhy::Device)),
    ("file 1 \\a -", Some(LineWhy::Path)),
    ("file 1 \\%0000 -", Some(LineWhy::Path)),
    ("file 1 \\b", Some(LineWhy::Words)),
    ("file 1 \\b 0", Some(LineWhy::Hex)),
    ("file 1 \\b 0F", Some(LineWhy::Hex)),
    ("file 1 \\b - -", Some(LineWhy::Words)),
    ("fill 2 \\b 16777216 255", None),
    ("fill 9 \\b 1 1", Some(LineWhy::Device)),
    ("fill 2 b: 1 1", Some(LineWhy::Path)),
    ("fill 2 \\b x 1", Some(LineWhy::Number)),
    ("fill 2 \\b 16777217 1", Some(LineWhy::Many)),
    ("fill 2 \\b 18446744073709551616 1", Some(LineWhy::Number)),
    ("fill 2 \\b 1 256", Some(LineWhy::Number)),
    ("fill 2 \\b 1 1 1", Some(LineWhy::Words)),
    ("printer 4 PRN1 Driver -", None),
    ("printer 3 P D O", Some(LineWhy::Device)),
    ("printer 4 PRINTERS D O", Some(LineWhy::Name)),
    ("printer 4 P %000 O", Some(LineWhy::Name)),
    ("printer 4 P D %0000", Some(LineWhy::Name)),
    ("printer 4 P D", Some(LineWhy::Words)),
    ("printer 4 P D O o", Some(LineWhy::Words)),
    ("at 1 0 remove 1", Some(LineWhy::Words)),
    ("settle", None),
    ("settle 1", Some(LineWhy::Words)),
    ("remove 1", None),
    ("remove x", Some(LineWhy::Number)),
    ("remove 9", Some(LineWhy::Device)),
    ("remove 1 2", Some(LineWhy::Words)),
    ("add 3", None),
    ("add", Some(LineWhy::Words)),
    ("add 9", Some(LineWhy::Device)),
    ("add 3 ", Some(LineWhy::Words)),
    ("do issue 64", None),
    ("do", Some(LineWhy::Words)),
    ("do it", Some(LineWhy::Words)),
    ("do issue 65", Some(LineWhy::Number)),
    ("do issue 1 2", Some(LineWhy::Words)),
    ("do send", None),
    ("do send 1", Some(LineWhy::Words)),
    ("do read", None),
    ("do read 1", Some(LineWhy::Words)),
    ("do answer", None),
    ("do answer 1", Some(LineWhy::Words)),
    ("do back", None),
    ("do back 1", Some(LineWhy::Words)),
    ("do take 1 0", None),
    ("do take 9 1", Some(LineWhy::Device)),
    ("do take 1 x", Some(LineWhy::Number)),
    ("do take 1", Some(LineWhy::Words)),
    ("do apply 4294967295", None),
    ("do apply 4294967296", Some(LineWhy::Number)),
    ("do collect 3", None),
    ("do collect 9", Some(LineWhy::Device)),
    ("cache add PRN1 D O 0102", None),
    ("cache", Some(LineWhy::Words)),
    ("cache sub P D O -", Some(LineWhy::Words)),
    ("cache add ABCDEFGH D O -", Some(LineWhy::Name)),
    ("cache add P % O -", Some(LineWhy::Name)),
    ("cache add P D %0000 -", Some(LineWhy::Name)),
    ("cache add P D O x", Some(LineWhy::Hex)),
    ("cache add P D O", Some(LineWhy::Words)),
    ("cache update O -", None),
    ("cache update %00zz -", Some(LineWhy::Name)),
    ("cache update O 1", Some(LineWhy::Hex)),
    ("cache update O - -", Some(LineWhy::Words)),
    ("cache delete O", None),
    ("cache delete %", Some(LineWhy::Name)),
    ("cache delete O P", Some(LineWhy::Words)),
    ("cache rename O P", None),
    ("cache rename % P", Some(LineWhy::Name)),
    ("cache rename O %1", Some(LineWhy::Name)),
    ("cache rename O P Q", Some(LineWhy::Words)),
    ("drop", None),
    ("drop 1", Some(LineWhy::Words)),
    ("1 open h 1 \\a", None),
    ("0 open h 1 \\a", Some(LineWhy::Number)),
    ("65 open h 1 \\a", Some(LineWhy::Number)),
    ("01 open h 1 \\a", Some(LineWhy::Number)),
    ("1 opens h 1 \\a", Some(LineWhy::Words)),
    ("1", Some(LineWhy::Words)),
    ("1 open H 1 \\a", Some(LineWhy::Name)),
    ("1 open abcdefghi 1 \\a", Some(LineWhy::Name)),
    ("1 open h x \\a", Some(LineWhy::Number)),
    ("1 open h 9 \\a", Some(LineWhy::Device)),
    ("1 open h 1 \\%0000", Some(LineWhy::Path)),
    ("1 open h 1 \\a b", Some(LineWhy::Words)),
    ("1 create h 1 \\a 4294967295 0xffffffff 7 0 0", None),
    ("1 create h_ 1 \\a 1 1 1 1 1", Some(LineWhy::Name)),
    ("1 create h 9 \\a 1 1 1 1 1", Some(LineWhy::Device)),
    ("1 create h 1 %z 1 1 1 1 1", Some(LineWhy::Path)),
    ("1 create h 1 \\a 4294967296 1 1 1 1", Some(LineWhy::Number)),
    ("1 create h 1 \\a 1 x 1 1 1", Some(LineWhy::Number)),
    ("1 create h 1 \\a 1 1 x 1 1", Some(LineWhy::Number)),
    ("1 create h 1 \\a 1 1 1 x 1", Some(LineWhy::Number)),
    ("1 create h 1 \\a 1 1 1 1 x", Some(LineWhy::Number)),
    ("1 create h 1 \\a 1 1 1 1", Some(LineWhy::Words)),
    ("1 create h 1 \\a 1 1 1 1 1 1", Some(LineWhy::Words)),
    ("0x1 close h", None),
    ("1 close -", Some(LineWhy::Name)),
    ("1 close", Some(LineWhy::Words)),
    ("1 close h h", Some(LineWhy::Words)),
    ("1 read h 18446744073709551615 4294967295", None),
    ("1 read  1 1", Some(LineWhy::Name)),
    ("1 read h x 1", Some(LineWhy::Number)),
    ("1 read h 0 4294967296", Some(LineWhy::Number)),
    ("1 read h 0", Some(LineWhy::Words)),
    ("1 read h 0 1 2", Some(LineWhy::Words)),
    ("1 write h 0 -", None),
    ("1 write H 0 -", Some(LineWhy::Name)),
    ("1 write h - -", Some(LineWhy::Number)),
    ("1 write h 0 g0", Some(LineWhy::Hex)),
    ("1 write h 0", Some(LineWhy::Words)),
    ("1 write h 0 - -", Some(LineWhy::Words)),
    ("1 query h 0x23", None),
    ("1 query H 5", Some(LineWhy::Name)),
    ("1 query h x", Some(LineWhy::Number)),
    ("1 query h 5 5", Some(LineWhy::Words)),
    ("1 set h 13 00", None),
    ("1 set H 13 00", Some(LineWhy::Name)),
    ("1 set h x 00", Some(LineWhy::Number)),
    ("1 set h 13 000", Some(LineWhy::Hex)),
    ("1 set h 13", Some(LineWhy::Words)),
    ("1 volume h 5", None),
    ("1 volume H 5", Some(LineWhy::Name)),
    ("1 volume h x", Some(LineWhy::Number)),
    ("1 volume h 5 5", Some(LineWhy::Words)),
    ("1 setvolume h 2 -", None),
    ("1 setvolume H 2 -", Some(LineWhy::Name)),
    ("1 setvolume h x -", Some(LineWhy::Number)),
    ("1 setvolume h 2 --", Some(LineWhy::Hex)),
    ("1 dir h 12 1 \\*", None),
    ("1 dir H 12 1 -", Some(LineWhy::Name)),
    ("1 dir h x 1 -", Some(LineWhy::Number)),
    ("1 dir h 12 2 -", Some(LineWhy::Number)),
    ("1 dir h 12 0x1 -", Some(LineWhy::Number)),
    ("1 dir h 12 1 %", Some(LineWhy::Path)),
    ("1 dir h 12 1", Some(LineWhy::Words)),
    ("1 lock h 2 0 0:1,0x3:18446744073709551615", None),
    ("1 lock H 2 0 0:1", Some(LineWhy::Name)),
    ("1 lock h x 0 0:1", Some(LineWhy::Number)),
    ("1 lock h 2 x 0:1", Some(LineWhy::Number)),
    ("1 lock h 2 0 0", Some(LineWhy::Number)),
    ("1 lock h 2 0 0:1,", Some(LineWhy::Number)),
    ("1 lock h 2 0 0:1:2", Some(LineWhy::Number)),
    ("1 lock h 2 0 -", Some(LineWhy::Number)),
    ("1 lock h 2 0", Some(LineWhy::Words)),
    ("1 control h 1 0 -", None),
    ("1 control H 1 0 -", Some(LineWhy::Name)),
    ("1 control h x 0 -", Some(LineWhy::Number)),
    ("1 control h 1 x -", Some(LineWhy::Number)),
    ("1 control h 1 0 x", Some(LineWhy::Hex)),
    ("1 control h 1 0", Some(LineWhy::Words)),
    ("1 notify h 1 0x17", None),
    ("1 notify H 1 1", Some(LineWhy::Name)),
    ("1 notify h x 1", Some(LineWhy::Number)),
    ("1 notify h 1 x", Some(LineWhy::Number)),
    ("1 notify h 1 1 1", Some(LineWhy::Words)),
    ("# frobnicate", None),
    ("frobnicate", Some(LineWhy::Words)),
    (" ", Some(LineWhy::Words)),
    ("Seed 1", Some(LineWhy::Words)),
    ("1  h", Some(LineWhy::Words)),
    ("\t", Some(LineWhy::Words)),
];

/// Lines for a client.
const CLIENT_ROWS: &[Row] = &[
    ("seed 18446744073709551615", Some(LineWhy::Words)),
    ("clock 0x0001f", Some(LineWhy::Words)),
    ("piece 65536", Some(LineWhy::Words)),
    ("channels 64", None),
    ("channels 0", Some(LineWhy::Number)),
    ("channels 65", Some(LineWhy::Number)),
    ("devices 256", Some(LineWhy::Words)),
    ("real 4 A /tmp", None),
    ("real 4 A", Some(LineWhy::Words)),
    ("real 1 A /", Some(LineWhy::Device)),
    ("real 4 ABCDEFGH /", Some(LineWhy::Name)),
    ("real 4 A ", Some(LineWhy::Path)),
    ("real 4 A / b", Some(LineWhy::Words)),
    ("at 1 0 remove 1", None),
    ("at x 0 remove 1", Some(LineWhy::Number)),
    ("at 1 y remove 1", Some(LineWhy::Number)),
    ("at 1 0 move 1", Some(LineWhy::Words)),
    ("at 1 0 remove 9", Some(LineWhy::Device)),
    ("at 1 0 remove 1 2", Some(LineWhy::Words)),
    ("at 4294967295 18446744073709551615 add 1", None),
    ("at 1 0 add 0", Some(LineWhy::Number)),
    ("at 1 0 add 9", Some(LineWhy::Device)),
    ("at 0 0 drop", None),
    ("at 1 0", Some(LineWhy::Words)),
    ("at 1 0 drop 1", Some(LineWhy::Words)),
    ("settle", Some(LineWhy::Words)),
    ("remove 1", Some(LineWhy::Words)),
    ("add 3", Some(LineWhy::Words)),
    ("do issue 64", Some(LineWhy::Words)),
    ("cache add PRN1 D O 0102", Some(LineWhy::Words)),
    ("drop", Some(LineWhy::Words)),
    ("connect", Some(LineWhy::Words)),
    ("1 open h 1 \\a", Some(LineWhy::Words)),
    (
        "1 create h 1 \\a 4294967295 0xffffffff 7 0 0",
        Some(LineWhy::Words),
    ),
    ("0x1 close h", Some(LineWhy::Words)),
    (
        "1 read h 18446744073709551615 4294967295",
        Some(LineWhy::Words),
    ),
    ("1 write h 0 -", Some(LineWhy::Words)),
    ("1 query h 0x23", Some(LineWhy::Words)),
    ("1 set h 13 00", Some(LineWhy::Words)),
    ("1 volume h 5", Some(LineWhy::Words)),
    ("1 setvolume h 2 -", Some(LineWhy::Words)),
    ("1 dir h 12 1 \\*", Some(LineWhy::Words)),
    (
        "1 lock h 2 0 0:1,0x3:18446744073709551615",
        Some(LineWhy::Words),
    ),
    ("1 control h 1 0 -", Some(LineWhy::Words)),
    ("1 notify h 1 0x17", Some(LineWhy::Words)),
];

/// Lines for a host.
const HOST_ROWS: &[Row] = &[
    ("seed 18446744073709551615", Some(LineWhy::Words)),
    ("clock 0x0001f", Some(LineWhy::Words)),
    ("piece 65536", Some(LineWhy::Words)),
    ("workers 16", Some(LineWhy::Words)),
    ("channels 64", Some(LineWhy::Words)),
    ("devices 256", None),
    ("devices 257", Some(LineWhy::Number)),
    ("devices -1", Some(LineWhy::Number)),
    ("drive 4 ABCDEFG", Some(LineWhy::Words)),
    ("drivefold 4 A", Some(LineWhy::Words)),
    ("real 4 A /tmp", Some(LineWhy::Words)),
    ("folder 1 \\a\\b", Some(LineWhy::Words)),
    ("file 1 \\b 00ff", Some(LineWhy::Words)),
    ("fill 2 \\b 16777216 255", Some(LineWhy::Words)),
    ("printer 4 PRN1 Driver -", Some(LineWhy::Words)),
    ("at 1 0 remove 1", Some(LineWhy::Words)),
    ("settle", Some(LineWhy::Words)),
    ("remove 1", Some(LineWhy::Words)),
    ("add 3", Some(LineWhy::Words)),
    ("do issue 64", Some(LineWhy::Words)),
    ("cache add PRN1 D O 0102", Some(LineWhy::Words)),
    ("connect", None),
    ("connect 1", Some(LineWhy::Words)),
    ("64 open h 9 -", None),
    ("64 open h 0 -", Some(LineWhy::Number)),
];

/// The number of the first bad line of a text, and why it is.
fn first_bad(rt: &(impl Abort + AllocGlobal), mode: Mode, text: &str) -> Option<(u32, LineWhy)> {
    match read_script(rt.alloc(), mode, text.as_bytes()) {
        Ok(_) => None,
        Err(ScriptNo::BadLine { line, why }) => Some((line, why)),
        Err(ScriptNo::Memory) => Some((0, LineWhy::Many)),
    }
}

/// Each row, after some lines.
fn check(rt: &(impl Abort + AllocGlobal), mode: Mode, before: &str, number: u32, rows: &[Row]) {
    for (line, why) in rows {
        let text = format!(in rt.alloc(); "{before}{line}\n").expect(rt, "memory");
        let expected = match why {
            Some(why) => Some((number, *why)),
            None => None,
        };
        assert_eq!(rt; first_bad(rt, mode, text.as_str()), expected, "{line}");
    }
}

#[test]
fn lines_of_both(rt: HostRuntime) {
    check(&rt, Mode::Both, BOTH, 5, BOTH_ROWS);
}

#[test]
fn lines_of_a_client(rt: HostRuntime) {
    check(&rt, Mode::Client, CLIENT, 5, CLIENT_ROWS);
}

#[test]
fn lines_of_a_host(rt: HostRuntime) {
    check(&rt, Mode::Host, "", 1, HOST_ROWS);
}

fn bytes(alloc: Global, text: &[u8]) -> Result<Bytes, AllocError> {
    Ok(Bytes::of(Vec::from_slice(alloc, text)?))
}

/// An idle line, a printer with two documents, and what is kept for it.
fn outcomes(alloc: Global) -> Result<Outcomes, AllocError>
    ensures { IfOk result (λ all. all.lines.entries ≡ []) }
{
    let mut all = Outcomes::new(alloc);
    all.idle.push(5)?;
    let mut documents = Vec::new(alloc);
    documents.push(bytes(alloc, b"abc")?)?;
    documents.push(bytes(alloc, b"")?)?;
    all.documents.insert(2, Items::of(documents))?;
    let name = bytes(alloc, b"P")?.into_vec();
    all.cache.insert(name, bytes(alloc, b"")?)?;
    Ok(all)
}

const REPORT: &str = "line 5 idle\ndocument 2.1 616263\ndocument 2.2 -\ncache 50 -\n";

#[test]
fn report_beside_lines(rt: HostRuntime) {
    let alloc = rt.alloc();
    let script = read_script(alloc, Mode::Both, b"").expect(&rt, "a script");
    let outcomes = outcomes(alloc).expect(&rt, "memory");
    let text = report(alloc, &script, &outcomes, &Books::new(alloc)).expect(&rt, "memory");
    assert_eq!(&rt; text.as_slice(), REPORT.as_bytes());
}

#[test]
fn load_of_two(rt: HostRuntime) {
    let load = load_script(rt.alloc(), 2).expect(&rt, "memory");
    assert_eq!(&rt; load.lines.as_slice().len(), 28);
}
