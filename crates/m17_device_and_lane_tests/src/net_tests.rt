//! Mouths, books and clocks over sockets and files that a test makes, which fail where it tells them to, and the peers of
//! addresses.
use crate::bench::must;
use crate::net_bench::{
    Answer, Beats, EMPTY, FULL, Gives, INTERRUPTED, INVALID, LATE, NETWORK_DOWN, NO_HOST,
    NO_NETWORK, REFUSED, Scripted, WAITED, nothing_seen, peer,
};
use m17_net::{FileBook, Timer, UdpMouth, address_of, peer_at};
use m17_ports::{Book, Mouth};
use m17_values::{Failed, Peer};
use std::io::{self, Error, ErrorKind};
use std::net::SocketAddr;
use std::process::Abort;
use std::time::{Duration, Instant};

type Said = Result<(), Failed>;

// What a socket answers, what becomes of each of two datagrams, and how often the mouth called the socket.
const SAID: [(&[Answer], [Said; 2], usize); 11] = [
    (&[EMPTY], [Ok(()), Ok(())], 2),
    (&[WAITED, EMPTY], [Err(Failed), Ok(())], 2),
    (&[INVALID, EMPTY], [Err(Failed), Ok(())], 2),
    (&[INTERRUPTED, REFUSED, EMPTY], [Ok(()), Ok(())], 4),
    (&[REFUSED], [Err(Failed), Err(Failed)], 32),
    (&[NO_HOST, EMPTY], [Err(Failed), Ok(())], 2),
    (&[REFUSED, NO_HOST, EMPTY], [Err(Failed), Ok(())], 3),
    (&[NO_NETWORK, EMPTY], [Err(Failed), Ok(())], 2),
    (&[REFUSED, NO_NETWORK, EMPTY], [Err(Failed), Ok(())], 3),
    (&[NETWORK_DOWN, EMPTY], [Err(Failed), Ok(())], 2),
    (&[REFUSED, NETWORK_DOWN, EMPTY], [Err(Failed), Ok(())], 3),
];

// Says two datagrams: what became of each, and how often the socket was called.
fn say_twice(answers: &[Answer]) -> ([Said; 2], usize) {
    let seen = nothing_seen();
    let wire = Scripted {
        answers,
        seen: &seen,
    };
    let mut mouth = UdpMouth::new(wire, false, 0);
    let said = [mouth.say(&peer(1), b"PING"), mouth.say(&peer(1), b"PING")];
    (said, seen.calls.get())
}

// A full buffer, or an address to which nothing goes, loses that datagram alone, after one call.
#[test]
fn a_mouth_that_fails_loses_one_datagram(rt: HostRuntime) {
    for (answers, said, calls) in SAID {
        assert!(rt; say_twice(answers) == (said, calls));
    }
}

// A text of an address, its peer, and the address to which a socket of the text's family sends what goes to that peer.
fn expect_peer<R: Abort>(rt: &R, text: &str, six: bool, ip: [u8; 16]) {
    let address = must(rt, text.parse::<SocketAddr>());
    let at = peer_at(address);
    let wanted = Peer {
        six,
        ip,
        port: 17_000,
    };
    assert!(rt;
        at == wanted && address_of(&at, address.is_ipv6()) == address,
        "{text}"
    );
}

#[test]
fn an_ipv4_peer_is_the_same_on_each_socket(rt: HostRuntime) {
    let four = [44, 128, 0, 9, 0, 0, 0, 0, 0, 0, 0, 0, 0, 0, 0, 0];
    let six = [0x20, 1, 0xD, 0xB8, 0, 0, 0, 0, 0, 0, 0, 0, 0, 0, 0, 9];
    expect_peer(&rt, "44.128.0.9:17000", false, four);
    expect_peer(&rt, "[::ffff:44.128.0.9]:17000", false, four);
    expect_peer(&rt, "[2001:db8::9]:17000", true, six);
}

// What a file answers, what becomes of a write of six bytes, how often the file was called, and how many bytes it was
// offered.
const WRITTEN: [(&[Answer], Said, usize, usize); 6] = [
    (&[Gives(b"0123456789")], Ok(()), 1, 6),
    (
        &[Gives(b"01"), INTERRUPTED, INTERRUPTED, Gives(b"0123")],
        Ok(()),
        4,
        18,
    ),
    (&[INTERRUPTED, WAITED, Gives(b"012345")], Err(Failed), 2, 12),
    (&[LATE, Gives(b"012345")], Err(Failed), 1, 6),
    (
        &[Gives(b"01"), FULL, Gives(b"0123456789")],
        Err(Failed),
        2,
        10,
    ),
    (
        &[Gives(b"01"), EMPTY, Gives(b"0123456789")],
        Err(Failed),
        2,
        10,
    ),
];

// Writes six bytes: what became of them, how often the file was called, and how many bytes it was offered.
fn write_once(answers: &[Answer]) -> (Said, usize, usize) {
    let seen = nothing_seen();
    let file = Scripted {
        answers,
        seen: &seen,
    };
    let mut book = FileBook::new(file, 0);
    let written = book.write(b"record");
    (written, seen.calls.get(), seen.offered.get())
}

// A write is made whole in several calls where it must be, by further calls after an interruption, and a failure in the
// middle of it is told. The file is offered what is left at each call, and nothing after a failure, though it would take
// that.
#[test]
fn a_book_tells_a_write_that_failed_in_the_middle(rt: HostRuntime) {
    for (answers, written, calls, offered) in WRITTEN {
        assert!(rt; write_once(answers) == (written, calls, offered));
    }
}

// A clock that reads two instants, and then fails. It tells its readings.
#[derive(Drop)]
struct ScriptedTimer {
    first: Instant,
    second: Instant,
    at: u64,
}

impl Timer for ScriptedTimer {
    ghost use Rattle.std.specs.Prelude.{take, None, Some, ◌∷◌, []};

    ghost readings = { λ t. Some (take t.at (t.first ∷ t.second ∷ [])) };

    ghost unread = { λ _. None };

    fn read(&mut self) -> io::Result<Instant> {
        if self.at == 0 {
            self.at = 1;
            Ok(self.first)
        } else if self.at == 1 {
            self.at = 2;
            Ok(self.second)
        } else {
            Err(Error::from(ErrorKind::Other))
        }
    }

    fn rest(&self, _pause: Duration) {}
}

// The contract of a clock can be met with content: this one tells exactly what it read.
#[test]
fn a_clock_may_tell_its_readings(rt: HostRuntime) {
    let seen = nothing_seen();
    let clock = Beats {
        seen: &seen,
        until: 100,
    };
    let first = must(&rt, Instant::now(&clock));
    let second = must(&rt, Instant::now(&clock));
    let mut timer = ScriptedTimer {
        first,
        second,
        at: 0,
    };
    let read = [timer.read().ok(), timer.read().ok(), timer.read().ok()];
    assert!(rt; read == [Some(first), Some(second), None]);
}
