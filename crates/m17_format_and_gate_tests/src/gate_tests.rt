use crate::bench::must;
use m17_callsign::{CallAddress, encode};
use m17_control::{Control, ModuleLetter, Packet, write};
use m17_gate::{Gate, LinkRules, Reason, Rules, RulesRefusal, allowed, read_rules};
use m17_port_memory::ScriptEar;
use m17_ports::Ear;
use m17_samples::frame;
use m17_stream::StreamPacket;
use m17_streams::BytesSource;
use m17_values::{Gram, Heard, Peer};
use std::alloc::Global;
use std::process::Abort;

const PEER: Peer = Peer {
    six: false,
    ip: [10, 0, 0, 1, 0, 0, 0, 0, 0, 0, 0, 0, 0, 0, 0, 0],
    port: 17_000,
};

fn read<R: Abort>(
    rt: &R,
    alloc: Global,
    text: &[u8],
    fails: &[u64],
) -> Result<Rules, RulesRefusal> {
    let bytes = must(rt, text.to_vec(alloc));
    let mut source = BytesSource::new(bytes, must(rt, fails.to_vec(alloc)));
    read_rules(alloc, &mut source)
}

fn reason_of<R: Abort>(rt: &R, alloc: Global, text: &str) -> Option<(u64, Reason)> {
    match read(rt, alloc, text.as_bytes(), &[]) {
        Err(RulesRefusal::Line { line, reason }) => Some((line, reason)),
        _ => None,
    }
}

/// Rule texts with the line and the part that is refused, if one is.
const TEXTS: [(&str, Option<(u64, Reason)>); 34] = [
    ("", None),
    ("\n\r\n; nothing here\n;", None),
    ("deny talk A N0CALL", Some((0, Reason::Modules))),
    ("allow", Some((0, Reason::Kind))),
    ("deny conn A ", Some((0, Reason::Pattern))),
    ("deny conn A", Some((0, Reason::Pattern))),
    ("deny conn", Some((0, Reason::Modules))),
    ("deny any * N0*\nallow any * *", None),
    ("deny any * N0*\r\nallow any * *\r\n", None),
    ("allow any * *\n\nreject any * *\n", Some((2, Reason::Act))),
    ("Allow any * *", Some((0, Reason::Act))),
    (" allow any * *", Some((0, Reason::Act))),
    ("allow  any * *", Some((0, Reason::Kind))),
    ("allow listen * *", Some((0, Reason::Kind))),
    ("allow conn ABA *", Some((0, Reason::Modules))),
    ("allow conn A* *", Some((0, Reason::Modules))),
    ("allow lstn ZA *", None),
    ("allow any AB *", None),
    ("allow talk * *", None),
    ("allow conn a *", Some((0, Reason::Modules))),
    ("allow any * AB1CD", None),
    ("allow any * AB1CD X", None),
    ("allow any * AB1CD  ", Some((0, Reason::Pattern))),
    ("allow any * ab1cd", Some((0, Reason::Pattern))),
    ("allow any *  *", None),
    ("allow any * A *", None),
    ("allow any * #", Some((0, Reason::Pattern))),
    ("allow any * #*", None),
    ("allow any * A#*", Some((0, Reason::Pattern))),
    ("allow any * #ABCDEFGH*", None),
    ("allow any * #ABCDEFGHI*", Some((0, Reason::Pattern))),
    ("allow any * ABCDEFGHIJ*", Some((0, Reason::Pattern))),
    ("allow any * A**", Some((0, Reason::Pattern))),
    ("allow any * *\r\r\n", Some((0, Reason::Pattern))),
];

#[test]
fn the_first_refused_part_of_the_first_refused_line_is_named(rt: HostRuntime) {
    for (text, wanted) in TEXTS {
        assert!(rt; reason_of(&rt, rt.alloc(), text) == wanted, "{text}");
    }
}

/// The start of a text of so many bytes: lines that are passed over.
fn long_text<R: Abort>(rt: &R, alloc: Global, count: usize) -> Result<Rules, RulesRefusal> {
    let text = must(rt, vec![in alloc; b'\n'; count]);
    read(rt, alloc, text.as_slice(), &[])
}

fn refusal_of(answer: Result<Rules, RulesRefusal>) -> Option<RulesRefusal> {
    answer.err()
}

#[test]
fn a_text_that_is_large_or_breaks_off_is_refused(rt: HostRuntime) {
    let large = Some(RulesRefusal::Large { at: 65_536 });
    assert!(rt; refusal_of(long_text(&rt, rt.alloc(), 65_536)).is_none());
    assert!(rt; refusal_of(long_text(&rt, rt.alloc(), 65_537)) == large);
    let fault = Some(RulesRefusal::ReadFault);
    assert!(rt; refusal_of(read(&rt, rt.alloc(), b"allow", &[0])) == fault);
    assert!(rt; refusal_of(read(&rt, rt.alloc(), b"allow any * *\n", &[1])) == fault);
}

/// What a packet asks in a row: to connect, to listen, or to speak.
#[derive(Clone, Copy)]
enum Wants {
    Connect(u8),
    Listen(u8),
    Speak,
}

fn packet<R: Abort>(rt: &R, wants: Wants, callsign: &str) -> Packet {
    let address = must(rt, encode(callsign));
    let from = CallAddress::new(address).expect(rt, "a callsign");
    match wants {
        Wants::Connect(letter) => Packet::Control(Control::Conn {
            from,
            module: ModuleLetter::new(letter).expect(rt, "a module"),
        }),
        Wants::Listen(letter) => Packet::Control(Control::Lstn {
            from,
            module: ModuleLetter::new(letter).expect(rt, "a module"),
        }),
        Wants::Speak => {
            let mut spoken = frame(1, 0, false);
            spoken.lsd.src = address;
            Packet::Stream(spoken)
        }
    }
}

fn is_allowed<R: Abort>(rt: &R, alloc: Global, text: &str, wants: Wants, callsign: &str) -> bool {
    let rules = must(rt, read(rt, alloc, text.as_bytes(), &[]));
    allowed(&rules, &packet(rt, wants, callsign))
}

const CLOSED: &str = "allow any * #CLUB\nallow any * AB1CD\nallow any * N0*\ndeny any * *";

/// Rules, what is asked by whom, and whether it is allowed.
const ASKED: [(&str, Wants, &str, bool); 24] = [
    ("", Wants::Connect(b'A'), "AB1CD", true),
    ("deny any * *", Wants::Listen(b'A'), "AB1CD", false),
    (CLOSED, Wants::Connect(b'A'), "AB1CD", true),
    (CLOSED, Wants::Speak, "N0CALL", true),
    (CLOSED, Wants::Speak, "N1CALL", false),
    (CLOSED, Wants::Connect(b'B'), "#CLUB", true),
    (CLOSED, Wants::Connect(b'B'), "CLUB", false),
    ("deny conn * *", Wants::Connect(b'A'), "AB1CD", false),
    ("deny conn * *", Wants::Listen(b'A'), "AB1CD", true),
    ("deny conn * *", Wants::Speak, "AB1CD", true),
    ("deny lstn * *", Wants::Listen(b'A'), "AB1CD", false),
    ("deny lstn * *", Wants::Connect(b'A'), "AB1CD", true),
    ("deny talk * AB1CD", Wants::Speak, "AB1CD", false),
    ("deny talk * AB1CD", Wants::Speak, "AB1C", true),
    ("deny talk * AB1CD", Wants::Connect(b'A'), "AB1CD", true),
    ("deny any B *", Wants::Connect(b'B'), "AB1CD", false),
    ("deny any B *", Wants::Connect(b'A'), "AB1CD", true),
    ("deny any B *", Wants::Speak, "AB1CD", true),
    ("deny any * N0*", Wants::Speak, "N0CALL", false),
    ("deny any * N0*", Wants::Speak, "AN0CALL", true),
    ("deny any * AB1CD*", Wants::Speak, "AB1CD", false),
    ("deny any * AB1CDE*", Wants::Speak, "AB1CD", true),
    ("deny any * AB1CD *", Wants::Speak, "AB1CD P", false),
    (
        "allow any * AB1CD\ndeny any * AB1CD",
        Wants::Speak,
        "AB1CD",
        true,
    ),
];

#[test]
fn the_first_rule_that_fits_decides(rt: HostRuntime) {
    for (text, wants, callsign, wanted) in ASKED {
        assert!(rt;
            is_allowed(&rt, rt.alloc(), text, wants, callsign) == wanted,
            "{text} {callsign}"
        );
    }
}

fn bytes_of(packet: &Packet) -> Gram {
    match packet {
        Packet::Stream(spoken) => Gram::of(&m17_stream::write(spoken)),
        Packet::Control(control) => Gram::of(write(control).as_slice()),
    }
}

fn datagram<R: Abort>(rt: &R, at: u64, wants: Wants, callsign: &str) -> Heard {
    Heard::Datagram {
        from: PEER,
        at,
        bytes: bytes_of(&packet(rt, wants, callsign)),
    }
}

/// The moments of the entries that a gate over an ear with this script tells, each with whether
/// it is a datagram.
fn heard_behind<R: Abort>(
    rt: &R,
    alloc: Global,
    text: &str,
    script: Vec<Heard>,
) -> [Option<(u64, bool)>; 6] {
    let rules = must(rt, read(rt, alloc, text.as_bytes(), &[]));
    let mut gate = must(rt, Gate::make(alloc, ScriptEar::new(script), &rules));
    let mut told = [None; 6];
    for place in 0..6 {
        told[place] = match gate.hear() {
            Heard::Datagram { at, .. } => Some((at, true)),
            Heard::Quiet { at } => Some((at, false)),
            _ => None,
        };
    }
    let _ear = gate.into_inner();
    told
}

#[test]
fn in_place_of_what_is_denied_nothing_is_heard(rt: HostRuntime) {
    let script = [
        datagram(&rt, 1, Wants::Connect(b'A'), "AB1CD"),
        datagram(&rt, 2, Wants::Connect(b'A'), "N0CALL"),
        datagram(&rt, 3, Wants::Speak, "N0CALL"),
        datagram(&rt, 4, Wants::Speak, "AB1CD"),
        Heard::Quiet { at: 5 },
    ];
    let script = must(&rt, Vec::from_array(rt.alloc(), script));
    let told = heard_behind(&rt, rt.alloc(), "deny any * N0*", script);
    let wanted = [
        Some((1, true)),
        Some((2, false)),
        Some((3, false)),
        Some((4, true)),
        Some((5, false)),
        None,
    ];
    assert!(rt; told == wanted);
}

/// The moments that the ears of two links behind these rules tell first, each with whether it is a
/// datagram, where the first says N0CALL and then AB1CD, and so does the second.
fn heard_on_links<R: Abort>(
    rt: &R,
    alloc: Global,
    rules: LinkRules,
) -> [[Option<(u64, bool)>; 2]; 2] {
    let mut rules = rules;
    let mut told = [[None; 2]; 2];
    for link in 0..2 {
        let script = [
            datagram(rt, 1, Wants::Speak, "N0CALL"),
            datagram(rt, 2, Wants::Speak, "AB1CD"),
        ];
        let ear = ScriptEar::new(must(rt, Vec::from_array(alloc, script)));
        let mut gate = rules.before(ear);
        for place in 0..2 {
            told[link][place] = match gate.hear() {
                Heard::Datagram { at, .. } => Some((at, true)),
                Heard::Quiet { at } => Some((at, false)),
                _ => None,
            };
        }
    }
    told
}

#[test]
fn a_link_beyond_its_rules_hears_nobody(rt: HostRuntime) {
    let alloc = rt.alloc();
    let all = [Some((1, true)), Some((2, true))];
    let one = [Some((1, false)), Some((2, true))];
    let nobody = [Some((1, false)), Some((2, false))];
    let rules = must(&rt, read(&rt, alloc, b"deny any * N0*", &[]));
    let first = must(&rt, LinkRules::make(alloc, &rules, 1));
    assert!(rt; heard_on_links(&rt, alloc, LinkRules::none(alloc)) == [all, all]);
    assert!(rt; heard_on_links(&rt, alloc, first) == [one, nobody]);
}
