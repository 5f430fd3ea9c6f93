//! What sockets and the clock do, of which no clause speaks. Each test has a path of its own.

use rd_base::{Failed, Sink, Source, write_all};
use rd_link::{Clock, Hang, Linker};
use rd_unix::{SystemClock, UnixLinker};
use std::io::{Error, ErrorKind};
use std::os::unix::fs::PermissionsExt;
use std::os::unix::net::UnixListener;
use std::process::Abort;
use std::test::Fail;
use std::thread::join;
use std::time::Duration;
use std::{fs, thread};

/// 2020-01-01 UTC, in 100 ns since 1601-01-01 UTC.
const YEAR_2020: u64 = 132_223_104_000_000_000;

/// In milliseconds, longer than a linker waits before it says so.
const LATE: u64 = 1_200;

/// The kind of an error, where there is one.
fn kind(error: Option<&Error>) -> Option<ErrorKind> {
    error.map(Error::kind)
}

/// Five bytes go from one half to another, as one piece.
fn passes<S: Source, K: Sink>(rt: &impl Abort, output: &mut K, input: &mut S, piece: &[u8; 5]) {
    let mut room = [0; 8];
    assert_eq!(rt; write_all(output, piece), Ok(()));
    assert_eq!(rt; input.read(&mut room), Ok(5));
    assert!(rt; room.starts_with(piece));
}

/// The input has come to its end.
fn has_ended<S: Source>(rt: &impl Abort, input: &mut S) {
    assert_eq!(rt; input.read(&mut [0; 8]), Ok(0));
}

fn look<C: Clock + Sync>(clock: &C) -> u64 {
    clock.now()
}

/// One side hangs up: reads end on both, and a write is a fault.
#[test]
fn sockets_carry_bytes(rt: HostRuntime) -> Result<(), Fail> {
    let path = "echo.sock";
    let mut host = UnixLinker::listen(&rt, path);
    let mut client = UnixLinker::dial(&rt, path);
    let (mut client_input, mut client_output) = client
        .connect()
        .expect(&rt, "the client's channel");
    let (mut host_input, mut host_output) = host.connect().expect(&rt, "the host's channel");
    passes(&rt, &mut client_output, &mut host_input, b"hello");
    passes(&rt, &mut host_output, &mut client_input, b"again");
    host_output.hang_up();
    has_ended(&rt, &mut host_input);
    has_ended(&rt, &mut client_input);
    assert_eq!(rt; client_output.write(b"lost"), Err(Failed));
    assert_eq!(rt;
        kind(client_output.last_error()),
        Some(ErrorKind::BrokenPipe)
    );
    assert_eq!(rt; kind(host_input.last_error()), None);
    client.settle(client_input, client_output);
    host.settle(host_input, host_output);
    assert_eq!(rt;
        (kind(client.last_error()), kind(host.last_error())),
        (Some(ErrorKind::BrokenPipe), None)
    );
    drop(host);
    assert!(rt; !fs::exists(&rt, path)?);
    Ok(())
}

/// A path that is served, or is no socket, is left alone, and what isn't there can't be dialed.
#[test]
fn refused_paths_fail_at_connect(rt: HostRuntime) -> Result<(), Fail> {
    let path = "taken.sock";
    let _first = UnixLinker::listen(&rt, path);
    let mut second = UnixLinker::listen(&rt, path);
    assert!(rt; second.connect().is_err() && second.connect().is_err());
    assert_eq!(rt; kind(second.last_error()), Some(ErrorKind::AddrInUse));
    fs::write(&rt, "file.sock", b"mine")?;
    let mut file = UnixLinker::listen(&rt, "file.sock");
    assert!(rt; file.connect().is_err() && fs::exists(&rt, "file.sock")?);
    let mut nowhere = UnixLinker::dial(&rt, "nowhere.sock");
    assert!(rt; nowhere.connect().is_err());
    assert_eq!(rt; kind(nowhere.last_error()), Some(ErrorKind::NotFound));
    Ok(())
}

/// A socket's file that nobody serves is replaced, and only its owner may use the new one.
#[test]
fn left_over_files_are_replaced(rt: HostRuntime) -> Result<(), Fail> {
    let path = "left.sock";
    drop(UnixListener::bind(&rt, path)?);
    assert!(rt; fs::exists(&rt, path)?);
    let mut host = UnixLinker::listen(&rt, path);
    assert_eq!(rt;
        fs::metadata(&rt, path)?.permissions().mode() & 0o777,
        0o600
    );
    let mut client = UnixLinker::dial(&rt, path);
    assert!(rt; client.connect().is_ok() && host.connect().is_ok());
    Ok(())
}

/// Who comes late is taken still.
#[test]
fn the_late_are_taken(rt: HostRuntime) {
    let path = "late.sock";
    let mut host = UnixLinker::listen(&rt, path);
    let mut client = UnixLinker::dial(&rt, path);
    let (taken, dialed) = join(
        &rt,
        || host.connect().is_ok(),
        || {
            thread::sleep(&rt, Duration::from_millis(LATE));
            client.connect().is_ok()
        },
    );
    assert!(rt; taken && dialed);
}

#[test]
fn the_clock_is_of_this_century(rt: HostRuntime) {
    assert!(rt; look(&SystemClock::new(&rt)) > YEAR_2020);
}
