//! Runs of a client over an ear, a mouth and a book: what was said, what is kept, and how each run ends.
use crate::bench::{
    Entry, Word, book, callsign, ear, is, is_said, module_a, mouth, must, reflector,
};
use Entry::{End, Fault, Hears, Other, Quiet};
use Word::{Ackn, Conn, Disc, Frame, Nack, Part};
use m17_client::{Client, Ending, State, TalkEnd, is_in_order, talk};
use m17_port_memory::{ListBook, ListMouth, ScriptEar};
use m17_ports::Ear;
use m17_samples::frame;
use m17_stream::{StreamPacket, write};
use std::alloc::Global;
use std::process::Abort;
use std::sync::Wait;

/// A stay that no test outlasts.
const LONG: u64 = 86_400_000;

/// The calls at which the mouth and the book of a run fail.
#[derive(Clone, Copy)]
struct Fails {
    mouth: Option<u64>,
    book: Option<u64>,
}

const NONE: Fails = Fails {
    mouth: None,
    book: None,
};

/// What a run came to, and the devices then.
#[derive(Drop)]
struct Told {
    end: TalkEnd,
    ear: ScriptEar,
    mouth: ListMouth,
    book: ListBook,
}

/// Runs AB1CD, who asks for module A, over what the ear hears, with a script and a stay.
fn run<R: Abort + Wait>(
    rt: &R,
    alloc: Global,
    heard: &[Entry],
    script: &[(u64, StreamPacket)],
    stay: u64,
    fails: Fails,
) -> Told {
    let mut ear = ear(rt, alloc, heard);
    let mut mouth = mouth(rt, alloc, fails.mouth);
    let mut book = book(rt, alloc, fails.book);
    let client = Client::new(callsign(rt), module_a(rt), false);
    assert!(rt; is_in_order(script));
    let end = talk(
        rt,
        &mut ear,
        &mut mouth,
        &mut book,
        &reflector(),
        client,
        script,
        stay,
    );
    Told {
        end,
        ear,
        mouth,
        book,
    }
}

/// The end of a run, whether these datagrams were said, and whether this is what the ear hears next.
fn seen(told: Told, said: &[Word], next: Entry) -> (TalkEnd, bool, bool) {
    let mut told = told;
    let heard = told.ear.hear();
    (told.end, is_said(&told.mouth, said), is(heard, next))
}

/// The end of a run whose client is in this state.
fn end(state: State, ended: bool) -> TalkEnd {
    TalkEnd {
        state,
        kept: 0,
        ended,
        lost: false,
        book_failed: false,
    }
}

/// The end of a run whose client is closed.
fn closed(why: Ending) -> TalkEnd {
    end(State::Closed(why), false)
}

/// The client asks, is acknowledged, and is told to go.
const EVENING: [Entry; 3] = [Quiet(0), Hears(10, Ackn), Hears(20, Disc)];

#[test]
fn a_client_says_its_packet_and_leaves(rt: HostRuntime) {
    let script = [(0, frame(0x1234, 0, false))];
    let told = run(&rt, rt.alloc(), &EVENING, &script, 0, NONE);
    let seen = seen(told, &[Conn, Frame(0x1234, 0, false), Part], End);
    assert!(rt; seen == (closed(Ending::Asked), true, true));
}

const CUT_OFF: [Entry; 3] = [Quiet(0), End, Hears(10, Ackn)];

#[test]
fn an_end_ends_a_run_at_once(rt: HostRuntime) {
    let script = [(0, frame(0x1234, 0, false))];
    let told = run(&rt, rt.alloc(), &CUT_OFF, &script, 0, NONE);
    let seen = seen(told, &[Conn], Hears(10, Ackn));
    assert!(rt; seen == (end(State::Connecting { tries: 1 }, true), true, true));
}

const UNANSWERED: [Entry; 7] = [
    Quiet(0),
    Quiet(1_000),
    Quiet(2_000),
    Quiet(3_000),
    Quiet(4_000),
    Quiet(5_000),
    Quiet(6_000),
];

#[test]
fn a_client_without_an_answer_is_closed(rt: HostRuntime) {
    let told = run(&rt, rt.alloc(), &UNANSWERED, &[], LONG, NONE);
    let seen = seen(told, &[Conn; 5], Quiet(6_000));
    assert!(rt; seen == (closed(Ending::NoAnswer), true, true));
}

const SILENT: [Entry; 3] = [
    Quiet(0),
    Hears(500, Ackn),
    Hears(30_500, Frame(1, 1, false)),
];

const REFUSED: [Entry; 3] = [Quiet(0), Hears(500, Nack), Quiet(501)];

#[test]
fn silence_and_nack_close_a_client_for_good(rt: HostRuntime) {
    let told = run(&rt, rt.alloc(), &SILENT, &[], LONG, NONE);
    assert!(rt; seen(told, &[Conn], End) == (closed(Ending::Lost), true, true));
    let told = run(&rt, rt.alloc(), &REFUSED, &[], LONG, NONE);
    assert!(rt; seen(told, &[Conn], Quiet(501)) == (closed(Ending::Refused), true, true));
}

/// What an ear gives, up to an entry, and how many datagrams were said then.
const IN_TIME: [(Entry, usize); 8] = [
    (Quiet(0), 1),
    (Hears(10, Ackn), 2),
    (Quiet(49), 2),
    (Quiet(50), 4),
    (Quiet(109), 4),
    (Quiet(110), 5),
    (Quiet(129), 5),
    (Quiet(130), 6),
];

/// How many datagrams a run said, and whether its ear said End.
fn count_said(told: Told) -> (usize, bool) {
    (told.mouth.list().len(), told.end.ended)
}

/// A record goes out when its moment has come since the ACKN at 10, and the client leaves 20 ms after the last one.
#[test]
fn records_and_leave_come_in_time(rt: HostRuntime) {
    let script = [
        (0, frame(7, 0, false)),
        (40, frame(7, 0, false)),
        (40, frame(7, 0, false)),
        (100, frame(7, 0, false)),
    ];
    let mut heard = Vec::new(rt.alloc());
    for (entry, count) in IN_TIME {
        must(&rt, heard.push(entry));
        let told = run(&rt, rt.alloc(), &heard, &script, 20, NONE);
        assert!(rt; count_said(told) == (count, true), "{count}");
    }
}

const LEFT_OPEN: [Entry; 2] = [Quiet(0), Hears(10, Ackn)];

#[test]
fn a_script_goes_out_at_once_with_the_leave(rt: HostRuntime) {
    let script = [
        (0, frame(7, 0, false)),
        (0, frame(7, 1, false)),
        (0, frame(7, 2, true)),
    ];
    let said = [
        Conn,
        Frame(7, 0, false),
        Frame(7, 1, false),
        Frame(7, 2, true),
        Part,
    ];
    let told = run(&rt, rt.alloc(), &LEFT_OPEN, &script, 0, NONE);
    assert!(rt; seen(told, &said, End) == (end(State::Leaving, true), true, true));
}

#[test]
fn sixteen_faults_in_a_row_end_a_run(rt: HostRuntime) {
    let mut heard = [Fault; 33];
    heard[15] = Quiet(0);
    heard[32] = Hears(10, Ackn);
    let told = run(&rt, rt.alloc(), &heard, &[], LONG, NONE);
    let wanted = TalkEnd {
        lost: true,
        ..end(State::Connecting { tries: 1 }, false)
    };
    assert!(rt; seen(told, &[Conn], Hears(10, Ackn)) == (wanted, true, true));
}

/// A client without a script leaves 20 ms after its ACKN at 10, and not before.
#[test]
fn a_client_without_a_script_stays_as_long(rt: HostRuntime) {
    let inside = State::Connected { heard_at: 10 };
    for (at, state, count) in [
        (29, inside, 1),
        (30, State::Leaving, 2),
        (31, State::Leaving, 2),
    ] {
        let heard = [Quiet(0), Hears(10, Ackn), Quiet(at)];
        let told = run(&rt, rt.alloc(), &heard, &[], 20, NONE);
        let seen = seen(told, &[Conn, Part][..count], End);
        assert!(rt; seen == (end(state, true), true, true), "{at}");
    }
}

/// The end of a run, whether these datagrams were said, and whether its mouth counts three calls and one failure.
fn seen_at_mouth<R: Abort>(
    rt: &R,
    alloc: Global,
    told: Told,
    said: &[Word],
) -> (TalkEnd, bool, bool) {
    let mouth = must(rt, format!(in alloc; "{:?}", told.mouth));
    let counts = mouth.ends_with(" next_call: 3, faults: 1, number: 0 }");
    (told.end, is_said(&told.mouth, said), counts)
}

/// Each of its three calls in turn: the rest is said, the mouth counts one failure, and the client is closed as ever.
#[test]
fn a_datagram_that_the_mouth_fails_to_send_is_lost(rt: HostRuntime) {
    let script = [(0, frame(0x1234, 0, false))];
    let packet = Frame(0x1234, 0, false);
    for (call, said) in [(0, [packet, Part]), (1, [Conn, Part]), (2, [Conn, packet])] {
        let fails = Fails {
            mouth: Some(call),
            book: None,
        };
        let told = run(&rt, rt.alloc(), &EVENING, &script, 0, fails);
        let seen = seen_at_mouth(&rt, rt.alloc(), told, &said);
        assert!(rt; seen == (closed(Ending::Asked), true, true));
    }
}

/// The end of a run, and whether its book holds these bytes.
fn seen_at_book(told: Told, bytes: &[u8]) -> (TalkEnd, bool) {
    (told.end, told.book.bytes() == bytes)
}

const FRAMES: [Entry; 7] = [
    Quiet(0),
    Hears(10, Ackn),
    Hears(0x123, Frame(7, 1, false)),
    Hears(0x124, Frame(7, 1, false)),
    Hears(0x125, Frame(7, 2, false)),
    Hears(0x126, Frame(7, 3, false)),
    Hears(0x127, Disc),
];

#[test]
fn a_book_that_failed_is_written_no_more(rt: HostRuntime) {
    let fails = Fails {
        mouth: None,
        book: Some(1),
    };
    let told = run(&rt, rt.alloc(), &FRAMES, &[], LONG, fails);
    let mut bytes = [0; 64];
    bytes[6] = 1;
    bytes[7] = 0x23;
    bytes[10..].copy_from_slice(&write(&frame(7, 1, false)));
    let wanted = TalkEnd {
        kept: 3,
        book_failed: true,
        ..closed(Ending::Dropped)
    };
    assert!(rt; seen_at_book(told, &bytes) == (wanted, true));
}

const OTHERS: [Entry; 6] = [
    Quiet(0),
    Other(10, Ackn),
    Other(1_000, Nack),
    Hears(1_010, Ackn),
    Other(1_020, Frame(7, 1, false)),
    Other(1_030, Disc),
];

#[test]
fn another_peer_is_not_heard(rt: HostRuntime) {
    let told = run(&rt, rt.alloc(), &OTHERS, &[], LONG, NONE);
    let inside = State::Connected { heard_at: 1_010 };
    assert!(rt; seen(told, &[Conn, Conn], End) == (end(inside, true), true, true));
}
