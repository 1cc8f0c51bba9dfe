//! The sockets, clocks and files that the tests make, which fail where a test tells them to.

use m17_net::{Wire, address_of};
use m17_values::Peer;
use std::cell::Cell;
use std::io::{self, Error, ErrorKind, Write};
use std::net::SocketAddr;
use std::time::{Clock, Duration};

// What a socket or a file answers to one call.
#[derive(Clone, Copy)]
pub(crate) enum Answer {
    Gives(&'static [u8]),
    Fails(ErrorKind),
}

pub(crate) use Answer::{Fails, Gives};

// The answer to the call of this number, from 0: the last one comes to all further calls.
fn answer_to(answers: &[Answer], call: usize) -> Answer {
    match answers.get(call).or(answers.last()) {
        Some(answer) => *answer,
        None => Gives(b""),
    }
}

// What a test sees of a device that it made.
#[derive(Drop)]
pub(crate) struct Seen {
    pub(crate) calls: Cell<usize>,
    pub(crate) sent: Cell<Option<(SocketAddr, usize)>>,
    pub(crate) slept: Cell<u64>,
    pub(crate) reads: Cell<u64>,
    pub(crate) offered: Cell<usize>,
    pub(crate) waits: Cell<(u64, u64)>,
}

pub(crate) fn nothing_seen() -> Seen {
    Seen {
        calls: Cell::new(0),
        sent: Cell::new(None),
        slept: Cell::new(0),
        reads: Cell::new(0),
        offered: Cell::new(0),
        waits: Cell::new((0, 0)),
    }
}

// A socket, or a file, that answers so.
#[derive(Drop)]
pub(crate) struct Scripted<'a> {
    pub(crate) answers: &'a [Answer],
    pub(crate) seen: &'a Seen,
}

impl Scripted<'_> {
    fn next(&mut self) -> Answer {
        let call = self.seen.calls.get();
        self.seen.calls.set(call.saturating_add(1));
        answer_to(self.answers, call)
    }
}

// Where its datagrams come from.
fn sender() -> SocketAddr {
    address_of(&peer(9), false)
}

impl Wire for Scripted<'_> {
    ghost use Rattle.std.specs.Prelude.{None};

    ghost taken = { λ _. None };

    ghost sent = { λ _. None };

    ghost broken = { λ _. None };

    ghost unsent = { λ _. None };

    ghost waits = { λ _. None };

    fn take(&mut self, into: &mut [u8]) -> io::Result<(usize, SocketAddr)> {
        match self.next() {
            Gives(bytes) => {
                let n = bytes.len().min(into.len());
                into[..n].copy_from_slice(&bytes[..n]);
                Ok((n, sender()))
            }
            Fails(kind) => Err(Error::from(kind)),
        }
    }

    fn send(&mut self, bytes: &[u8], to: SocketAddr) -> io::Result<()> {
        match self.next() {
            Gives(_) => {
                self.seen.sent.set(Some((to, bytes.len())));
                Ok(())
            }
            Fails(kind) => Err(Error::from(kind)),
        }
    }

    fn wait_at_most(&mut self, ms: u64) {
        let (_, told) = self.seen.waits.get();
        self.seen.waits.set((ms, told.saturating_add(1)));
    }
}

// As a file it takes as many bytes at a call as its answer has.
impl Write for Scripted<'_> {
    fn write(&mut self, buf: &[u8]) -> io::Result<usize> {
        let offered = self.seen.offered.get();
        self.seen.offered.set(offered.saturating_add(buf.len()));
        match self.next() {
            Gives(bytes) => Ok(bytes.len().min(buf.len())),
            Fails(kind) => Err(Error::from(kind)),
        }
    }

    fn flush(&mut self) -> io::Result<()> {
        Ok(())
    }
}

// A clock that goes on by 10 ms at each reading, and fails from the reading `until` on.
#[derive(Clone, Copy)]
pub(crate) struct Beats<'a> {
    pub(crate) seen: &'a Seen,
    pub(crate) until: u64,
}

impl Clock for Beats<'_> {
    fn monotonic(&self) -> io::Result<Duration> {
        let reads = self.seen.reads.get();
        if reads >= self.until {
            return Err(Error::from(ErrorKind::Other));
        }
        self.seen.reads.set(reads.saturating_add(1));
        Ok(Duration::from_millis(reads.saturating_mul(10)))
    }

    fn since_1970(&self) -> io::Result<Duration> {
        Err(Error::from(ErrorKind::Unsupported))
    }

    fn sleep(&self, duration: Duration) {
        let more = u64::try_from(duration.as_millis()).unwrap_or(u64::MAX);
        self.seen
            .slept
            .set(self.seen.slept.get().saturating_add(more));
    }
}

// A clock that reads these one after the other, in nanoseconds, and the last of them from then on.
#[derive(Clone, Copy)]
pub(crate) struct Hands<'a> {
    pub(crate) nanos: &'a [u64],
    pub(crate) seen: &'a Seen,
}

impl Clock for Hands<'_> {
    fn monotonic(&self) -> io::Result<Duration> {
        let reads = self.seen.reads.get();
        self.seen.reads.set(reads.saturating_add(1));
        let at = usize::try_from(reads).unwrap_or(usize::MAX);
        match self.nanos.get(at).or(self.nanos.last()) {
            Some(nanos) => Ok(Duration::from_nanos(*nanos)),
            None => Err(Error::from(ErrorKind::Other)),
        }
    }

    fn since_1970(&self) -> io::Result<Duration> {
        Err(Error::from(ErrorKind::Unsupported))
    }
}

// A peer of IPv4.
pub(crate) fn peer(last: u8) -> Peer {
    let mut ip = [0; 16];
    ip[0] = 10;
    ip[3] = last;
    Peer {
        six: false,
        ip,
        port: 17_000,
    }
}

pub(crate) const REFUSED: Answer = Fails(ErrorKind::ConnectionRefused);

pub(crate) const INTERRUPTED: Answer = Fails(ErrorKind::Interrupted);

pub(crate) const WAITED: Answer = Fails(ErrorKind::WouldBlock);

pub(crate) const LATE: Answer = Fails(ErrorKind::TimedOut);

pub(crate) const BROKEN: Answer = Fails(ErrorKind::Other);

pub(crate) const INVALID: Answer = Fails(ErrorKind::InvalidInput);

pub(crate) const FULL: Answer = Fails(ErrorKind::StorageFull);

// It goes out, as a datagram; none of it is taken, as a write.
pub(crate) const EMPTY: Answer = Gives(b"");

// What a call tells of a datagram to which there was no way.
pub(crate) const NO_HOST: Answer = Fails(ErrorKind::HostUnreachable);

pub(crate) const NO_NETWORK: Answer = Fails(ErrorKind::NetworkUnreachable);

pub(crate) const NETWORK_DOWN: Answer = Fails(ErrorKind::NetworkDown);
