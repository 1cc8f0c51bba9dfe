//! The client's table, row by row: what is said and the state at each step.
use crate::bench::{Word, callsign, module_a, spell};
use arrayvec::ArrayVec;
use m17_client::{Action, Client, Ending, Input, MOST_ACTIONS, State};
use std::process::Abort;

/// What a client meets: a datagram at this moment, no datagram until this moment, or a user who leaves.
#[derive(Clone, Copy)]
enum Meets {
    Hears(u64, Word),
    Quiet(u64),
    Leave,
}

use Meets::{Hears, Leave, Quiet};
use State::{Closed, Connected, Connecting, Leaving};
use Word::{Ackn, Conn, Disc, Frame, Lstn, Nack, Part, Ping, Pink, Pong};

/// What a client meets, the datagram that it says then, if any, and its state afterwards.
type Step = (Meets, Option<Word>, State);

/// It has said its first CONN or LSTN.
const ASKING: State = Connecting { tries: 1 };

const ASKS: Step = (Quiet(0), Some(Conn), ASKING);

const ASKS_TO_LISTEN: Step = (Quiet(0), Some(Lstn), ASKING);

const DROPPED: State = Closed(Ending::Dropped);

const ASKED: State = Closed(Ending::Asked);

fn client(rt: &impl Abort, listen: bool) -> Client {
    Client::new(callsign(rt), module_a(rt), listen)
}

fn input(meets: Meets) -> Input {
    match meets {
        Hears(at, word) => Input::Datagram {
            at,
            bytes: spell(word),
        },
        Quiet(at) => Input::Quiet { at },
        Leave => Input::Leave,
    }
}

/// Whether these actions say this datagram and no other; none where none is given.
fn say(actions: &ArrayVec<Action, MOST_ACTIONS>, wanted: Option<Word>) -> bool {
    let mut all: ArrayVec<u8, 64> = ArrayVec::new();
    for action in actions.as_slice() {
        if let Action::Say(bytes) = action {
            if all.try_extend_from_slice(bytes.as_slice()).is_err() {
                return false;
            }
        }
    }
    match wanted {
        Some(word) => all.as_slice() == spell(word).bytes(),
        None => all.is_empty(),
    }
}

/// Steps once: how many things are asked for, whether this is said, and the state.
fn step(client: &mut Client, meets: Meets, said: Option<Word>) -> (usize, bool, State) {
    let mut out = ArrayVec::new();
    let state = client.step(&input(meets), &mut out);
    (out.len(), say(&out, said), state)
}

/// Takes a client through these steps, and demands what is said and the state at each. A step that fails is named by its
/// table, the row there and its own number.
fn go_on(rt: &impl Abort, table: &str, row: usize, client: &mut Client, steps: &[Step]) {
    for (i, (meets, said, wanted)) in steps.iter().enumerate() {
        let (_, says, state) = step(client, *meets, *said);
        let as_wanted = says && state == *wanted && client.state() == *wanted;
        assert!(rt; as_wanted, "{table} {row}, step {i}");
    }
}

/// The same for a client that was idle before.
fn play(rt: &impl Abort, table: &str, row: usize, listen: bool, steps: &[Step]) {
    let mut client = client(rt, listen);
    go_on(rt, table, row, &mut client, steps);
}

const UNANSWERED: [Step; 6] = [
    ASKS,
    (Quiet(1_000), Some(Conn), Connecting { tries: 2 }),
    (Quiet(2_000), Some(Conn), Connecting { tries: 3 }),
    (Quiet(3_000), Some(Conn), Connecting { tries: 4 }),
    (Quiet(4_000), Some(Conn), Connecting { tries: 5 }),
    (Quiet(5_000), None, Closed(Ending::NoAnswer)),
];

#[test]
fn five_conns_go_unanswered(rt: HostRuntime) {
    play(&rt, "unanswered", 0, false, &UNANSWERED);
}

const LOST: [Step; 4] = [
    ASKS,
    (Hears(500, Ackn), None, Connected { heard_at: 500 }),
    (Quiet(30_499), None, Connected { heard_at: 500 }),
    (Hears(30_500, Ackn), None, Closed(Ending::Lost)),
];

const REFUSED: [Step; 2] = [
    ASKS_TO_LISTEN,
    (Hears(500, Nack), None, Closed(Ending::Refused)),
];

#[test]
fn silence_and_nack_close_a_client(rt: HostRuntime) {
    play(&rt, "lost", 0, false, &LOST);
    play(&rt, "refused", 0, true, &REFUSED);
}

const ANSWERS: [Step; 4] = [
    (Hears(7, Ackn), Some(Conn), ASKING),
    (Hears(10, Ackn), None, Connected { heard_at: 10 }),
    (Hears(20, Ping), Some(Pong), Connected { heard_at: 20 }),
    (Hears(30, Pink), None, Connected { heard_at: 20 }),
];

/// Frames by stream and number, and how many things are asked for at each.
const FRAMES: [(u16, u16, usize); 6] = [
    (5, 5, 1),
    (5, 5, 0),
    (5, 4, 0),
    (5, 6, 1),
    (6, 0, 1),
    (5, 7, 1),
];

const LEAVES: [Step; 2] = [(Leave, Some(Part), Leaving), (Hears(50, Disc), None, ASKED)];

#[test]
fn a_connected_client_answers_pings_and_keeps_packets(rt: HostRuntime) {
    let mut client = client(&rt, false);
    go_on(&rt, "answers", 0, &mut client, &ANSWERS);
    for (sid, number, kept) in FRAMES {
        let meets = Hears(40, Frame(sid, number, false));
        assert!(rt;
            step(&mut client, meets, None).0 == kept,
            "frame {number} of {sid}"
        );
    }
    go_on(&rt, "leaves", 0, &mut client, &LEAVES);
}

const INSIDE: State = Connected { heard_at: 3 };

/// Packets, each with the state that follows where the client asks, inside, and where it leaves, and with what it says
/// inside.
const PACKETS: [(Word, State, State, State, Option<Word>); 9] = [
    (Ackn, INSIDE, INSIDE, Leaving, None),
    (Nack, Closed(Ending::Refused), INSIDE, Leaving, None),
    (Disc, DROPPED, DROPPED, ASKED, None),
    (Part, DROPPED, DROPPED, ASKED, None),
    (Ping, ASKING, INSIDE, Leaving, Some(Pong)),
    (Pong, ASKING, INSIDE, Leaving, None),
    (Conn, ASKING, INSIDE, Leaving, None),
    (Lstn, ASKING, INSIDE, Leaving, None),
    (Frame(1, 1, false), ASKING, INSIDE, Leaving, None),
];

/// Each state with each packet: what is said, and the state afterwards.
#[test]
fn each_state_meets_each_packet(rt: HostRuntime) {
    for row in 0..PACKETS.len() {
        let (packet, joined, after, left, said) = PACKETS[row];
        let asking = [ASKS_TO_LISTEN, (Hears(3, packet), None, joined)];
        play(&rt, "asking", row, true, &asking);
        let inside = [
            ASKS_TO_LISTEN,
            (Hears(1, Ackn), None, Connected { heard_at: 1 }),
            (Hears(3, packet), said, after),
        ];
        play(&rt, "inside", row, true, &inside);
        let leaving = [
            ASKS_TO_LISTEN,
            (Leave, Some(Part), Leaving),
            (Hears(3, packet), None, left),
            (Quiet(1_000), None, ASKED),
            (Hears(1_001, packet), None, ASKED),
        ];
        play(&rt, "leaving", row, true, &leaving);
    }
}

/// A packet finds an idle client on its way in: it says its CONN, and nothing comes of the packet.
#[test]
fn an_idle_client_minds_no_packet(rt: HostRuntime) {
    for row in 0..PACKETS.len() {
        let mut idle = client(&rt, false);
        let came = step(&mut idle, Hears(7, PACKETS[row].0), Some(Conn));
        assert!(rt; came == (1, true, ASKING), "idle {row}");
    }
}

/// Packets that close a client, how, and a moment at which it is still closed.
const CLOSING: [(Word, State, u64); 4] = [
    (Nack, Closed(Ending::Refused), 1),
    (Nack, Closed(Ending::Refused), 1_001),
    (Disc, DROPPED, 30_001),
    (Disc, DROPPED, u64::MAX),
];

#[test]
fn a_closed_client_stays_closed(rt: HostRuntime) {
    for row in 0..CLOSING.len() {
        let (packet, closed, at) = CLOSING[row];
        let steps = [
            ASKS,
            (Hears(1, packet), None, closed),
            (Quiet(at), None, closed),
        ];
        play(&rt, "closing", row, false, &steps);
    }
}

const WAITS: [Step; 10] = [
    (Quiet(5), Some(Conn), ASKING),
    (Quiet(1_004), None, ASKING),
    (Quiet(1_005), Some(Conn), Connecting { tries: 2 }),
    (Quiet(2_004), None, Connecting { tries: 2 }),
    (Hears(2_004, Ackn), None, Connected { heard_at: 2_004 }),
    (Quiet(32_003), None, Connected { heard_at: 2_004 }),
    (Leave, Some(Part), Leaving),
    (Quiet(33_002), None, Leaving),
    (Quiet(33_003), None, ASKED),
    (Quiet(99_999), None, ASKED),
];

const WAITS_INSIDE: [Step; 4] = [
    ASKS,
    (Hears(0, Ackn), None, Connected { heard_at: 0 }),
    (Quiet(29_999), None, Connected { heard_at: 0 }),
    (Quiet(30_000), None, Closed(Ending::Lost)),
];

/// Nothing is heard in each state, up to a millisecond before its wait is over, and then at that moment.
#[test]
fn each_wait_is_over_at_its_moment(rt: HostRuntime) {
    play(&rt, "waits", 0, false, &WAITS);
    play(&rt, "waits inside", 0, false, &WAITS_INSIDE);
}
