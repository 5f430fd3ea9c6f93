//! A linker over Unix sockets.

ghost use Rattle.std.specs.Prelude.{◌≡◌, None};

use crate::faults::Faults;
use crate::halves::{UnixIn, UnixOut, halves_of};
use crate::listening::Listening;
use rd_base::Failed;
use rd_link::Linker;
use std::io;
use std::io::{Eprint, Error};
use std::net::Net;
use std::os::unix::net::UnixStream;
use std::rt::Files;

/// Where a linker's sockets come from.
#[derive(Drop)]
enum Place<'a, R: Files + Net + Eprint> {
    /// The other side dials.
    Bound(Listening<'a, R>),
    /// The other side can't dial, for this reason.
    Unbound(Error),
    /// The other side listens at this path.
    Dialed(&'a str),
}

impl<R: Files + Net + Eprint> Place<'_, R> {
    fn stream(&self, rt: &R) -> io::Result<UnixStream> {
        match self {
            Place::Bound(listening) => listening.accept(),
            Place::Unbound(error) => Err(*error),
            Place::Dialed(path) => UnixStream::connect(rt, *path),
        }
    }
}

/// A linker whose channels are sockets at one path. It tells nothing of them.
#[derive(Drop)]
pub struct UnixLinker<'a, R: Files + Net + Eprint> {
    rt: &'a R,
    place: Place<'a, R>,
    failures: Faults,
    trouble: Faults,
}

impl<'a, R: Files + Net + Eprint> UnixLinker<'a, R> {
    /// A linker that listens at the path. It makes a socket's file there at once, which its owner alone may use (mode 0600), and which is
    /// taken away when the linker is dropped. A socket's file that nobody serves any more is replaced. Where it can't listen, as where the
    /// path is served or is no socket, each call of `connect` fails with that reason. `connect` waits for the other side. Where that takes a
    /// second, a line on the standard error says so.
    pub fn listen(rt: &'a R, path: &'a str) -> Self
        ensures failures { ⟦<UnixLinker<'a, R> as Linker>⟧.failures result ≡ 0 }
        ensures trouble { ⟦<UnixLinker<'a, R> as Linker>⟧.trouble result ≡ 0 }
        ensures linked { ⟦<UnixLinker<'a, R> as Linker>⟧.linked result ≡ None }
    {
        let place = match Listening::new(rt, path) {
            Ok(listening) => Place::Bound(listening),
            Err(error) => Place::Unbound(error),
        };
        UnixLinker {
            rt,
            place,
            failures: Faults::new(),
            trouble: Faults::new(),
        }
    }

    /// A linker that dials the path at each `connect`, which fails where nobody listens there.
    pub fn dial(rt: &'a R, path: &'a str) -> Self
        ensures failures { ⟦<UnixLinker<'a, R> as Linker>⟧.failures result ≡ 0 }
        ensures trouble { ⟦<UnixLinker<'a, R> as Linker>⟧.trouble result ≡ 0 }
        ensures linked { ⟦<UnixLinker<'a, R> as Linker>⟧.linked result ≡ None }
    {
        UnixLinker {
            rt,
            place: Place::Dialed(path),
            failures: Faults::new(),
            trouble: Faults::new(),
        }
    }

    /// The system's reason for the last `connect` that failed, and where none did, for the last fault of settled halves, if they had one.
    /// Where both halves of a channel had one, it is that of the output half.
    pub fn last_error(&self) -> Option<&Error> {
        self.failures.last().or(self.trouble.last())
    }
}

impl<R: Files + Net + Eprint> Linker for UnixLinker<'_, R> {
    type In = UnixIn;

    type Out = UnixOut;

    ghost linked = { λ _. None };

    ghost failures = { λ l. l.failures };

    ghost trouble = { λ l. l.trouble };

    fn count_failures(&self) -> u64 {
        self.failures.count()
    }

    fn count_trouble(&self) -> u64 {
        self.trouble.count()
    }

    fn connect(&mut self) -> Result<(UnixIn, UnixOut), Failed> {
        match self.place.stream(self.rt).and_then(halves_of) {
            Ok(halves) => Ok(halves),
            Err(error) => Err(self.failures.add(error)),
        }
    }

    /// Closes both descriptors.
    fn settle(&mut self, input: UnixIn, output: UnixOut) {
        let mut faults = Faults::new();
        faults.add_all(input.faults());
        faults.add_all(output.faults());
        self.trouble.add_all(&faults);
    }
}
