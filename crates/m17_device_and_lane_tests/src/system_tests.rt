//! The devices of the system: sockets over the loopback, and files.
use crate::bench::must;
use m17_disk::{Hand, Unsettled, settle};
use m17_net::{FileBook, LateFile, UdpEar, UdpMouth, UdpPorts, peer_at, sockets};
use m17_ports::{Book, Ear, Mouth, Ports};
use m17_values::{Failed, Heard, Peer};
use std::alloc::{AllocGlobal, Global};
use std::env::Env;
use std::fs::File;
use std::net::{Net, SocketAddr, UdpSocket};
use std::path::PathBuf;
use std::process::Abort;
use std::rt::Files;
use std::sync::Wait;
use std::thread::Threads;
use std::time::{Clock, Duration, Instant};
use std::{env, fs, io, process, thread};

// A link that is bound there.
fn link<
    R: Net
        + Files<File = File>
        + Clock
        + AllocGlobal
        + Threads
        + Wait
        + Copy
        + Drop
        + Send
        + Abort
        + 'static,
>(rt: R, bind: &str, until: Option<u64>) -> (UdpEar<R>, UdpMouth) {
    must(&rt, UdpPorts::new(rt, false).link(bind, until))
}

// A socket of a test, which waits for a second at the most, and its peer.
fn friend<R: Net + Abort>(rt: &R, at: &str) -> (UdpSocket, Peer) {
    let socket = must(rt, UdpSocket::bind(rt, at));
    must(rt, socket.set_read_timeout(Some(Duration::from_secs(1))));
    let peer = peer_at(must(rt, socket.local_addr()));
    (socket, peer)
}

// The mouth says a datagram to the friend, who learns where the link is.
fn address_of_link<R: Abort>(
    rt: &R,
    mouth: &mut UdpMouth,
    socket: &UdpSocket,
    peer: &Peer,
) -> SocketAddr {
    let mut bytes = [0; 16];
    let said = mouth.say(peer, b"PING");
    let (len, from) = must(rt, socket.recv_from(&mut bytes));
    assert!(rt; said.is_ok() && &bytes[..len] == b"PING".as_slice());
    from
}

// Whether the ear hears a datagram of these bytes from this peer next.
fn hears<C: Clock + Drop>(ear: &mut UdpEar<C>, peer: &Peer, wanted: &[u8]) -> bool {
    match ear.hear() {
        Heard::Datagram { from, bytes, .. } => from == *peer && bytes.bytes() == wanted,
        _ => false,
    }
}

// Whether the ear hears nothing for as long as its socket waits.
fn hears_nothing<C: Clock + Drop>(ear: &mut UdpEar<C>) -> bool {
    matches!(ear.hear(), Heard::Quiet { .. })
}

// A datagram goes out of a link to a friend, and one comes back: whether the ear hears that.
fn exchange<R: Abort, C: Clock + Drop>(
    rt: &R,
    ear: &mut UdpEar<C>,
    mouth: &mut UdpMouth,
    socket: &UdpSocket,
    peer: &Peer,
) -> bool {
    let at = address_of_link(rt, mouth, socket, peer);
    must(rt, socket.send_to(b"PONG", at));
    hears(ear, peer, b"PONG")
}

// The same of a link that is bound here and a friend who is bound there.
fn expect_exchange<
    R: Net
        + Files<File = File>
        + Clock
        + AllocGlobal
        + Threads
        + Wait
        + Copy
        + Drop
        + Send
        + Abort
        + 'static,
>(rt: R, here: &str, there: &str) {
    let (mut ear, mut mouth) = link(rt, here, None);
    let (socket, peer) = friend(&rt, there);
    let came = exchange(&rt, &mut ear, &mut mouth, &socket, &peer);
    assert!(rt; came && hears_nothing(&mut ear));
}

#[test]
fn an_ear_and_a_mouth_share_a_socket_of_ipv4(rt: HostRuntime) {
    expect_exchange(rt, "127.0.0.1:0", "127.0.0.1:0");
}

// Where the machine has no IPv6 there is nothing to show.
#[test]
fn a_socket_of_ipv6_has_peers_of_both(rt: HostRuntime) {
    if UdpSocket::bind(&rt, "[::1]:0").is_ok() {
        expect_exchange(rt, "[::1]:0", "[::1]:0");
        expect_exchange(rt, "[::]:0", "127.0.0.1:0");
    }
}

// Of a datagram that is longer than any packet the first 64 bytes are heard; none of them ends the link.
#[test]
fn datagrams_of_every_length_are_heard(rt: HostRuntime) {
    let (mut ear, mut mouth) = link(rt, "127.0.0.1:0", None);
    let (socket, peer) = friend(&rt, "127.0.0.1:0");
    let at = address_of_link(&rt, &mut mouth, &socket, &peer);
    let all = [0x4D; 2_000];
    for len in 0..=all.len() {
        must(&rt, socket.send_to(&all[..len], at));
        assert!(rt; hears(&mut ear, &peer, &all[..len.min(64)]), "{len}");
    }
}

// A peer that was there and is gone.
fn nobody<R: Net + Abort>(rt: &R) -> Peer {
    friend(rt, "127.0.0.1:0").1
}

// What becomes of datagrams to a port 0 and to IPv6.
fn say_in_vain(mouth: &mut UdpMouth, peer: Peer) -> [Result<(), Failed>; 2] {
    let six = Peer { six: true, ..peer };
    let port_0 = Peer { port: 0, ..peer };
    [mouth.say(&port_0, b"PING"), mouth.say(&six, b"PING")]
}

// Whether a link goes on that says 40 datagrams to this peer, who isn't there.
fn goes_on<C: Clock + Drop>(ear: &mut UdpEar<C>, mouth: &mut UdpMouth, nobody: &Peer) -> bool {
    for _ in 0..40 {
        if mouth.say(nobody, b"PING").is_err() || !hears_nothing(ear) {
            return false;
        }
    }
    true
}

// What cannot be sent, to a port 0 and to IPv6 by a socket of IPv4, is lost alone; and where nobody is at the other end
// the link goes on.
#[test]
fn a_datagram_that_cannot_be_sent_is_lost_alone(rt: HostRuntime) {
    let (mut ear, mut mouth) = link(rt, "127.0.0.1:0", None);
    let (socket, peer) = friend(&rt, "127.0.0.1:0");
    let lost = say_in_vain(&mut mouth, peer);
    let on = goes_on(&mut ear, &mut mouth, &nobody(&rt));
    let came = exchange(&rt, &mut ear, &mut mouth, &socket, &peer);
    assert!(rt; lost == [Err(Failed), Err(Failed)] && on && came);
}

// How often an ear is quiet before its end, at moments in order and below this one; none where it hears anything else.
fn quiet_until<C: Clock + Drop>(ear: &mut UdpEar<C>, until: u64) -> Option<u64> {
    let mut last = 0;
    for count in 0..400 {
        match ear.hear() {
            Heard::Quiet { at } if last <= at && at < until => last = at,
            Heard::End => return Some(count),
            _ => return None,
        }
    }
    None
}

// Moments are of the ports' clock, and an ear ends at its own, though nothing comes: its socket waits no longer than an
// ear may, so each call of it comes back, and it is Quiet before its End.
#[test]
fn an_ear_ends_in_time(rt: HostRuntime) {
    let (mut ear, _mouth) = link(rt, "127.0.0.1:0", Some(400));
    let start = must(&rt, Instant::now(&rt));
    let quiet = quiet_until(&mut ear, 400);
    let ended = matches!(ear.hear(), Heard::End);
    let passed = must(&rt, start.elapsed(&rt));
    assert!(rt; ended && passed >= Duration::from_millis(50));
    assert!(rt; quiet.is_some() && quiet != Some(0), "{quiet:?}");
}

// Texts of which none is an address to bind.
const NO_ADDRESSES: [&str; 9] = [
    "",
    "x",
    "127.0.0.1",
    "127.0.0.1:",
    "127.0.0.1:65536",
    "localhost:17000",
    "::1:17000",
    "[::1]",
    " 127.0.0.1:0",
];

// Whether ports give a link that is bound there.
fn gives_link<P: Ports>(ports: &mut P, bind: &str) -> bool
where
    P::Ear: Drop,
    P::Mouth: Drop,
{
    ports.link(bind, None).is_ok()
}

// Whether ports give no link for any of the texts that are no addresses.
fn give_no_link<P: Ports>(ports: &mut P) -> bool
where
    P::Ear: Drop,
    P::Mouth: Drop,
{
    for bind in NO_ADDRESSES {
        if gives_link(ports, bind) {
            return false;
        }
    }
    true
}

// The text of the address of a socket.
fn text_of<R: Abort>(rt: &R, alloc: Global, socket: &UdpSocket) -> String {
    let address = must(rt, socket.local_addr());
    must(rt, format!(in alloc; "{address}"))
}

#[test]
fn a_port_in_use_and_other_texts_give_no_link(rt: HostRuntime) {
    let (socket, _) = friend(&rt, "127.0.0.1:0");
    let taken = text_of(&rt, rt.alloc(), &socket);
    let mut ports = UdpPorts::new(rt, false);
    assert!(rt; !gives_link(&mut ports, taken.as_str()) && give_no_link(&mut ports));
    assert!(rt; gives_link(&mut ports, "127.0.0.1:0"));
}

// Where a book of this process may be made.
fn place_of_book<R: AllocGlobal + Env + Abort>(rt: &R, id: u32) -> PathBuf {
    let name = must(rt, format!(in rt.alloc(); "m17_net_{id}.book"));
    let mut path = must(rt, env::temp_dir(rt));
    must(rt, path.push(name.as_str()));
    path
}

// Whether a file holds these bytes.
fn holds<R: AllocGlobal + Files + Abort>(rt: &R, path: &str, wanted: &[u8]) -> bool {
    must(rt, fs::read(rt, path)).as_slice() == wanted
}

// Writes to a book three times: what becomes of each write.
fn write_thrice<B: Book>(book: &mut B) -> [Result<(), Failed>; 3] {
    [
        book.write(b"header"),
        book.write(b""),
        book.write(b"record"),
    ]
}

// Has ports make a book there, and writes to it: whether that went well.
fn writes_anew<P: Ports, R: Abort>(rt: &R, ports: &mut P, path: &str) -> bool
where
    P::Book: Drop,
{
    let mut book = must(rt, ports.book(path));
    write_thrice(&mut book) == [Ok(()); 3]
}

// Whether ports make a book there.
fn makes_book<P: Ports>(ports: &mut P, path: &str) -> bool
where
    P::Book: Drop,
{
    ports.book(path).is_ok()
}

// Brings the thread of a book to its end: what is said of it.
fn settled<R: Threads + Wait + Clock + Abort>(
    rt: &R,
    alloc: Global,
    hand: Hand<FileBook<LateFile>>,
) -> Result<(), Unsettled> {
    let mut hands = must(rt, Vec::with_capacity(alloc, 1));
    hands.push_reserved(hand);
    let mut ended = must(rt, Vec::with_capacity(alloc, 1));
    settle(rt, &mut hands, &mut ended)
}

#[test]
fn a_book_is_made_anew_and_holds_what_was_written(rt: HostRuntime) {
    let mut path = place_of_book(&rt, process::id(rt.process()));
    must(
        &rt,
        fs::write(&rt, path.as_path(), "what stood there before"),
    );
    let mut ports = UdpPorts::new(rt, false);
    let hand = must(&rt, ports.staff());
    let written = writes_anew(&rt, &mut ports, path.as_str());
    let settled = settled(&rt, rt.alloc(), hand).is_ok();
    let anew = written && settled && holds(&rt, path.as_str(), b"headerrecord");
    must(&rt, fs::remove_file(&rt, path.as_path()));
    must(&rt, path.push("below"));
    for _other in 0..3 {
        let _hand = must(&rt, ports.staff());
    }
    let below = makes_book(&mut ports, path.as_str());
    let other = makes_book(&mut ports, "") || makes_book(&mut ports, "a\0b");
    assert!(rt; anew && !below && !other);
}

// A file of this process's folder of books, by the text behind the folder's name.
fn place_in<R: AllocGlobal + Env + Abort>(rt: &R, id: u32, name: &str) -> String {
    let folder = place_of_book(rt, id);
    let folder = folder.as_str();
    must(rt, format!(in rt.alloc(); "{folder}{name}"))
}

// Ports that lock the folder of this process, with threads for three books.
fn locking_ports<
    R: Net
        + Files<File = File>
        + Clock
        + AllocGlobal
        + Threads
        + Wait
        + Env
        + Copy
        + Drop
        + Send
        + Abort
        + 'static,
>(rt: R, id: u32) -> UdpPorts<R> {
    let mut ports = UdpPorts::new(rt, false).locking(place_in(&rt, id, "/lock"));
    for _book in 0..3 {
        let _hand = must(&rt, ports.staff());
    }
    ports
}

// A folder that one run has locked is no other's, until that has ended; and none opens a file twice, by whatever name.
#[test]
fn a_folder_is_one_runs_and_a_file_is_opened_once(rt: HostRuntime) {
    let id = process::id(rt.process());
    let file = place_in(&rt, id, "/a");
    must(&rt, fs::create_dir(&rt, place_in(&rt, id, "").as_str()));
    must(
        &rt,
        fs::write(&rt, file.as_str(), "what stood there before"),
    );
    let mut second = locking_ports(rt, id);
    let mut ports = locking_ports(rt, id);
    let first = makes_book(&mut ports, place_in(&rt, id, "/b").as_str());
    let locked = makes_book(&mut second, file.as_str());
    let kept = holds(&rt, file.as_str(), b"what stood there before");
    let made = makes_book(&mut ports, file.as_str()) && holds(&rt, file.as_str(), b"");
    let again = makes_book(&mut ports, place_in(&rt, id, "/./b").as_str());
    drop(ports);
    let after = makes_book(&mut second, file.as_str());
    must(&rt, fs::remove_dir_all(&rt, place_in(&rt, id, "").as_str()));
    assert!(rt; first && !locked && kept && made && !again && after);
}

// A link whose ear the end of a file stops, which comes at once where the file has none of what a FIFO has; and none where
// there is no file.
#[test]
fn the_end_of_a_file_stops_an_ear(rt: HostRuntime) {
    let name = place_in(&rt, process::id(rt.process()), ".stop");
    let mut none = UdpPorts::new(rt, true).stopping(rt, must(&rt, name.clone()));
    let missing = gives_link(&mut none, "127.0.0.1:0");
    must(&rt, fs::write(&rt, name.as_str(), "x"));
    let mut ports = UdpPorts::new(rt, false).stopping(rt, must(&rt, name.clone()));
    let (mut ear, _mouth) = must(&rt, ports.link("127.0.0.1:0", None));
    let ended = quiet_until(&mut ear, u64::MAX).is_some();
    must(&rt, fs::remove_file(&rt, name.as_str()));
    assert!(rt; !missing && ended);
}

// Writes once to a device that is always full, and then until that fails, a second at the most: whether it came to fail.
fn write_to_full<P: Ports, R: Clock + Abort>(rt: &R, ports: &mut P) -> bool
where
    P::Book: Drop,
{
    let mut book = must(rt, ports.book("/dev/full"));
    for _try in 0..1000 {
        if book.write(b"record").is_err() {
            return true;
        }
        thread::sleep(rt, Duration::from_millis(1));
    }
    false
}

// The same with one write: whether it was taken.
fn write_once_to_full<P: Ports, R: Abort>(rt: &R, ports: &mut P) -> bool
where
    P::Book: Drop,
{
    must(rt, ports.book("/dev/full")).write(b"record").is_ok()
}

// A device that is always full: a later write fails, and so does the end. For a third book there is no thread.
#[test]
fn a_book_on_a_full_device_fails(rt: HostRuntime) {
    if fs::metadata(&rt, "/dev/full").is_ok() {
        let mut ports = UdpPorts::new(rt, false);
        let hands = [must(&rt, ports.staff()), must(&rt, ports.staff())];
        let failed = write_to_full(&rt, &mut ports);
        let taken = write_once_to_full(&rt, &mut ports);
        let more = makes_book(&mut ports, "/dev/full");
        let ends = hands.map(|hand| settled(&rt, rt.alloc(), hand));
        assert!(rt; failed && taken && !more && ends == [Err(Unsettled::Failed); 2]);
    }
}

// Whether there is a limit to how long a call waits: the 20 ms of an ear, or what the system makes of them.
fn is_short(limit: io::Result<Option<Duration>>) -> bool {
    matches!(limit, Ok(Some(limit)) if limit <= Duration::from_millis(40))
}

// Over the loopback no send buffer is ever full, so what is seen here is the limit itself.
#[test]
fn a_mouth_waits_at_a_full_buffer_no_longer_than_an_ear(rt: HostRuntime) {
    let at = must(&rt, "127.0.0.1:0".parse::<SocketAddr>());
    let (ear, mouth) = must(&rt, sockets(&rt, at));
    let both = [&ear, &mouth];
    for half in both {
        assert!(rt; is_short(half.read_timeout()) && is_short(half.write_timeout()));
    }
}
