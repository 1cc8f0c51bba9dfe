//! The values that the words of a command line stand for: each of them once, in either spelling, and what is left out.
//! Which words are taken, and which are refused, is in `conformance/words.txt`.
use crate::bench::must;
use m17_callsign::{CallAddress, encode};
use m17_control::{ModuleLetter, Modules};
use m17_values::Peer;
use m17_words::{BridgeOrder, Command, ServeOrder, TalkOrder, read_words};
use std::alloc::Global;
use std::process::Abort;

fn text<R: Abort>(rt: &R, alloc: Global, text: &str) -> String {
    must(rt, String::from_str(alloc, text))
}

fn call<R: Abort>(rt: &R, text: &str) -> CallAddress {
    CallAddress::new(must(rt, encode(text))).expect(rt, "a callsign")
}

fn letter<R: Abort>(rt: &R, byte: u8) -> ModuleLetter {
    ModuleLetter::new(byte).expect(rt, "a module")
}

// The peer at 10.0.0.9, with this port.
fn peer(port: u16) -> Peer {
    let mut ip = [0; 16];
    ip[0] = 10;
    ip[3] = 9;
    Peer {
        six: false,
        ip,
        port,
    }
}

// Whether the words of a line, between single spaces, are read as this command.
fn is_read_as<R: Abort>(rt: &R, alloc: Global, line: &str, wanted: &Command) -> bool {
    let mut words = Vec::new(alloc);
    for word in line.split(' ') {
        must(rt, words.push(text(rt, alloc, word)));
    }
    match read_words(alloc, words.as_slice()) {
        Ok(command) => command == *wanted,
        Err(_) => false,
    }
}

// Demands that each of these lines is read as this.
fn expect<R: Abort>(rt: &R, alloc: Global, lines: &[&str], wanted: &Command) {
    for line in lines {
        assert!(rt; is_read_as(rt, alloc, line, wanted), "{line}");
    }
}

#[test]
fn a_replay_has_its_values(rt: HostRuntime) {
    const SAID: [&str; 2] = [
        "replay --call=-A --modules ZB --parrots Z --places 256 --summary --limit 0 --threads",
        "replay --threads --limit=0 --summary --places=00256 --parrots=Z --modules=ZB --call=-A",
    ];
    let said = Command::Replay {
        call: call(&rt, "-A"),
        modules: must(&rt, Modules::read("ZB")),
        parrots: must(&rt, Modules::read("Z")),
        places: 256,
        summary: true,
        limit: 0,
        threads: true,
    };
    expect(&rt, rt.alloc(), &SAID, &said);
    let unsaid = Command::Replay {
        call: call(&rt, "M17-TST"),
        modules: must(&rt, Modules::read("ABC")),
        parrots: Modules::none(),
        places: 64,
        summary: false,
        limit: 180_000,
        threads: false,
    };
    expect(&rt, rt.alloc(), &["replay", "replay --"], &unsaid);
}

#[test]
fn a_reflector_has_its_values(rt: HostRuntime) {
    const SAID: [&str; 2] = [
        "serve --call M17-TST --modules AZ --parrots Z --places 256 --for 1000000 --book d --limit 86400 --rules --board e --fill-crc --no-guard --pace 100000 --stop f a b c d",
        "serve a --stop=f --no-guard --limit=086400 --for=1000000 --rules b --pace=0100000 --fill-crc --board=e --book=d --parrots=Z c --modules=ZA --places=256 d --call=M17-TST",
    ];
    let alloc = rt.alloc();
    let binds = ["a", "b", "c", "d"].map(|bind| text(&rt, alloc, bind));
    let said = Command::Serve(ServeOrder {
        call: call(&rt, "M17-TST"),
        modules: must(&rt, Modules::read("AZ")),
        parrots: must(&rt, Modules::read("Z")),
        places: 256,
        seconds: Some(1_000_000),
        book: Some(text(&rt, alloc, "d")),
        binds: must(&rt, Vec::from_array(alloc, binds)),
        limit: 86_400_000,
        rules: true,
        board: Some(text(&rt, alloc, "e")),
        fill: true,
        guard: false,
        pace: 100_000,
        stop: Some(text(&rt, alloc, "f")),
    });
    expect(&rt, alloc, &SAID, &said);
}

#[test]
fn what_a_reflector_is_not_told_has_its_value(rt: HostRuntime) {
    let alloc = rt.alloc();
    let unsaid = Command::Serve(ServeOrder {
        call: call(&rt, "M17-TST"),
        modules: must(&rt, Modules::read("ABC")),
        parrots: Modules::none(),
        places: 64,
        seconds: None,
        book: None,
        binds: must(&rt, Vec::from_array(alloc, [text(&rt, alloc, "x")])),
        limit: 180_000,
        rules: false,
        board: None,
        fill: false,
        guard: true,
        pace: 100,
        stop: None,
    });
    expect(&rt, alloc, &["serve x --call=M17-TST"], &unsaid);
}

#[test]
fn a_talk_and_a_bridge_have_their_values(rt: HostRuntime) {
    const TALK: &str =
        "talk --book=b --to=10.0.0.9:17000 --stay=0250 --bind=x --listen --module=A --call=AB1CD";
    const BRIDGE: &str =
        "bridge --stop=f --for=01000000 --far-module=B --far-peer=10.0.0.9:17001 --far=y --near-module=A --near-peer=10.0.0.9:17000 --near=x --call=AB1CD";
    let alloc = rt.alloc();
    let talk = Command::Talk(TalkOrder {
        call: call(&rt, "AB1CD"),
        letter: letter(&rt, b'A'),
        listen: true,
        bind: text(&rt, alloc, "x"),
        to: peer(17_000),
        stay: 250,
        book: Some(text(&rt, alloc, "b")),
    });
    expect(&rt, alloc, &[TALK], &talk);
    let bridge = Command::Bridge(BridgeOrder {
        call: call(&rt, "AB1CD"),
        near: text(&rt, alloc, "x"),
        near_peer: peer(17_000),
        near_letter: letter(&rt, b'A'),
        far: text(&rt, alloc, "y"),
        far_peer: peer(17_001),
        far_letter: letter(&rt, b'B'),
        seconds: Some(1_000_000),
        stop: Some(text(&rt, alloc, "f")),
    });
    expect(&rt, alloc, &[BRIDGE], &bridge);
}
