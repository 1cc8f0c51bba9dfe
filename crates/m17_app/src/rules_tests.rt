//! `serve` by rules of callsigns, from its words to its status, over ports and devices in memory.
use crate::serve_tests::{DISC_OF_TST, JOIN, Serve, evening, let_go, packet, ports, were_told};
use crate::talk_tests::came;
use crate::tests::{must, run_over, sink_that};
use m17_crew::StdCrew;
use m17_streams::BytesSource;
use m17_values::Heard;
use std::alloc::Global;
use std::process::Abort;
use std::sync::Wait;
use std::thread::Threads;
use std::time::Clock;

pub(crate) const RULED: &[&str] = &[
    "serve",
    "--rules",
    "--call",
    "M17-TST",
    "--modules",
    "A",
    "x",
];

const FILLED: &[&str] = &[
    "serve",
    "--rules",
    "--fill-crc",
    "--call",
    "M17-TST",
    "--modules",
    "A",
    "x",
];

// Serves what is heard by these words and rules: what it came to, and whether that has this text.
fn served<R: Threads + Wait + Clock + Abort + Copy + Drop + Send + 'static>(
    rt: &R,
    alloc: Global,
    given: &[&str],
    rules: &str,
    heard: Vec<Heard>,
    text: &str,
) -> (Serve<R>, bool) {
    let ports = ports(rt, alloc, heard);
    let rules = must(rt, rules.as_bytes().to_vec(alloc));
    let mut source = BytesSource::new(rules, Vec::new(alloc));
    let (mut sink, mut crew) = (sink_that(rt, alloc, 100, &[]), StdCrew::new());
    let done = run_over(rt, alloc, given, ports, &mut crew, &mut source, &mut sink);
    let as_wanted = done.status == 0 && sink.bytes() == text.as_bytes();
    (done, as_wanted)
}

const JOINED: [&[u8]; 2] = [b"ACKN", DISC_OF_TST];

// Serves the evening by these rules, and demands this line, and that the listener was told just these.
fn demand<R: Threads + Wait + Clock + Abort + Copy + Drop + Send + 'static>(
    rt: &R,
    alloc: Global,
    rules: &str,
    text: &str,
    listener: &[&[u8]],
) {
    let (done, as_wanted) = served(rt, alloc, RULED, rules, evening(rt, alloc), text);
    let is_told = were_told(&done, &JOINED, listener);
    let_go(done);
    assert!(rt; as_wanted && is_told, "{rules}");
}

// Without a rule that denies all is as ever. Who is denied gets no answer, but for a DISC of its own, of which no rule
// speaks. A talker that is denied is let in and not heard.
#[test]
fn who_is_denied_is_not_heard_and_gets_no_answer(rt: HostRuntime) {
    let alloc = rt.alloc();
    let (first, second) = (packet(1), packet(2));
    let (heard, unheard) = ("A admitted 4 missed 0\n", "A admitted 0 missed 0\n");
    let some = "allow any * *\ndeny any * *";
    demand(&rt, alloc, "", heard, &[b"ACKN", &first, &second, b"DISC"]);
    demand(
        &rt,
        alloc,
        some,
        heard,
        &[b"ACKN", &first, &second, b"DISC"],
    );
    demand(&rt, alloc, "deny any * N0*", heard, &[b"DISC"]);
    demand(
        &rt,
        alloc,
        "deny talk * AB1CD",
        unheard,
        &[b"ACKN", b"DISC"],
    );
}

// AB1CD joins module A, and says a frame whose CRC is 0000.
fn without_crc(rt: &impl Abort, alloc: Global) -> Vec<Heard> {
    let mut bytes = packet(0);
    bytes[52] = 0;
    bytes[53] = 0;
    let heard = [came(0, 1, &JOIN), came(40, 1, &bytes)];
    must(rt, Vec::from_array(alloc, heard))
}

// What fills in CRCs stands before the gate: by then the frame is a stream packet, and its sender is denied as any other. A
// gate before it would have let bytes pass that are no packet.
#[test]
fn who_leaves_the_crc_out_is_denied_too(rt: HostRuntime) {
    const ROWS: [(&str, &str); 3] = [
        ("", "A admitted 1 missed 0\n"),
        ("deny talk * N0CALL", "A admitted 1 missed 0\n"),
        ("deny talk * AB1CD", "A admitted 0 missed 0\n"),
    ];
    let alloc = rt.alloc();
    for (rules, text) in ROWS {
        let heard = without_crc(&rt, alloc);
        let (done, as_wanted) = served(&rt, alloc, FILLED, rules, heard, text);
        let is_told = were_told(&done, &JOINED, &[]);
        let_go(done);
        assert!(rt; as_wanted && is_told, "{rules}");
    }
}
