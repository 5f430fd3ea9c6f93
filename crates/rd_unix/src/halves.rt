//! The halves of a channel over a socket. They tell nothing of their bytes.

ghost use Rattle.std.specs.Prelude.{◌≡◌, IfOk, None};

use crate::faults::Faults;
use rd_base::{Failed, Sink, Source};
use rd_link::Hang;
use std::io;
use std::io::{Error, ErrorKind, Read, Write};
use std::net::Shutdown;
use std::os::unix::net::UnixStream;

/// The half of a socket that is read from. A read waits until there is something, or the other side has hung up.
#[derive(Drop)]
pub struct UnixIn {
    stream: UnixStream,
    faults: Faults,
}

impl UnixIn {
    /// The system's reason for the last fault, if there was one.
    pub fn last_error(&self) -> Option<&Error> {
        self.faults.last()
    }

    pub(crate) fn faults(&self) -> &Faults
        ensures { result.now ≡ ⟦<UnixIn as Source>⟧.faults self.now }
    {
        &self.faults
    }
}

impl Source for UnixIn {
    ghost left = { λ _. None };

    ghost faults = { λ s. s.faults };

    fn read(&mut self, into: &mut [u8]) -> Result<usize, Failed> {
        match self.stream.read(into) {
            Ok(count) => Ok(count),
            Err(error) => Err(self.faults.add(error)),
        }
    }
}

/// The half of a socket that is written to.
#[derive(Drop)]
pub struct UnixOut {
    stream: UnixStream,
    faults: Faults,
}

impl UnixOut {
    /// The system's reason for the last fault, if there was one.
    pub fn last_error(&self) -> Option<&Error> {
        self.faults.last()
    }

    pub(crate) fn faults(&self) -> &Faults
        ensures { result.now ≡ ⟦<UnixOut as Sink>⟧.faults self.now }
    {
        &self.faults
    }
}

impl Sink for UnixOut {
    ghost held = { λ _. None };

    ghost faults = { λ s. s.faults };

    fn write(&mut self, piece: &[u8]) -> Result<usize, Failed> {
        match self.stream.write(piece) {
            Ok(0) if !piece.is_empty() => {
                self.faults.add(Error::from(ErrorKind::WriteZero));
                Ok(0)
            }
            Ok(count) => Ok(count),
            Err(error) => Err(self.faults.add(error)),
        }
    }
}

impl Hang for UnixOut {
    /// Shuts the socket both ways, so that a read that waits on the other half ends, and the other side's does. Where the system refuses,
    /// the socket is no more connected.
    fn hang_up(&mut self) {
        let _ = self.stream.shutdown(Shutdown::Both);
    }
}

/// Two descriptors of one socket: one half for who reads, the other for who writes.
pub fn halves_of(stream: UnixStream) -> io::Result<(UnixIn, UnixOut)>
    ensures { IfOk result (λ halves. (⟦<UnixIn as Source>⟧.faults halves.0 ≡ 0) × (⟦<UnixOut as Sink>⟧.faults halves.1 ≡ 0)) }
{
    let other = stream.try_clone()?;
    let input = UnixIn {
        stream,
        faults: Faults::new(),
    };
    let output = UnixOut {
        stream: other,
        faults: Faults::new(),
    };
    Ok((input, output))
}
