//! A socket's file that is served.

use std::fs::Permissions;
use std::io::{Eprint, ErrorKind};
use std::net::Net;
use std::os::fd::OwnedFd;
use std::os::unix::fs::{FileTypeExt, PermissionsExt};
use std::os::unix::net::{UnixListener, UnixStream};
use std::rt::Files;
use std::time::Duration;
use std::{fs, io};

/// Read and write for the owner, nothing for others.
const OWNER_ONLY: u32 = 0o600;

/// How many seconds the other side has before the standard error says that it is awaited.
const PATIENCE: u64 = 1;

/// A listener with its file, which goes with it.
pub struct Listening<'a, R: Files + Net + Eprint> {
    rt: &'a R,
    path: &'a str,
    listener: UnixListener,
}

impl<'a, R: Files + Net + Eprint> Listening<'a, R> {
    pub fn new(rt: &'a R, path: &'a str) -> io::Result<Self> {
        if is_left_over(rt, path) {
            fs::remove_file(rt, path)?;
        }
        let listener = UnixListener::bind(rt, path)?;
        let listening = Listening { rt, path, listener };
        fs::set_permissions(rt, path, Permissions::from_mode(OWNER_ONLY))?;
        Ok(listening)
    }

    /// Waits for the other side, and says so once where that takes long.
    pub fn accept(&self) -> io::Result<UnixStream> {
        match self.accept_within(Some(Duration::from_secs(PATIENCE))) {
            Err(error) if error.kind() == ErrorKind::WouldBlock => {
                let _ = eprintln!(self.rt; "rdr: waiting for a client at {}", self.path);
                self.accept_within(None)
            }
            accepted => accepted,
        }
    }

    /// `ErrorKind::WouldBlock` where nobody comes within the limit. A limit is a socket's, so any descriptor of it sets it.
    fn accept_within(&self, limit: Option<Duration>) -> io::Result<UnixStream> {
        let other = UnixStream::from(OwnedFd::from(self.listener.try_clone()?));
        other.set_read_timeout(limit)?;
        let (stream, _) = self.listener.accept()?;
        Ok(stream)
    }
}

impl<'a, R: Files + Net + Eprint> Drop for Listening<'a, R> {
    fn drop(self) {
        let Self { rt, path, listener } = self;
        drop(listener);
        let _ = fs::remove_file(rt, path);
    }
}

/// Whether a socket's file stands there that nobody serves. Of one that is served it dials once.
fn is_left_over<R: Files + Net>(rt: &R, path: &str) -> bool {
    let Ok(found) = fs::symlink_metadata(rt, path) else {
        return false;
    };
    if !found.file_type().is_socket() {
        return false;
    }
    match UnixStream::connect(rt, path) {
        Ok(_) => false,
        Err(error) => error.kind() == ErrorKind::ConnectionRefused,
    }
}
