//! Steps of a bridge: what is said on each side at each of them, and how many packets passed in the
//! end.
ghost use Rattle.std.specs.Prelude.{◌≡◌, false};
ghost use Rattle.m17_client.specs.Steps.{is_send};

use crate::bridge_tests_bench::{Word, client, spell};
use Side::{Far, Near};
use Word::{Ackn, Conn, Disc, Frame, Part, Ping, Pong};
use arrayvec::ArrayVec;
use m17_client::{Bridge, Cross, Ending, Input, MOST_CROSSES, Side, State};
use std::process::Abort;

/// What the client of a side meets: a datagram at this moment, no datagram until this moment, or
/// that it leaves.
#[derive(Clone, Copy)]
enum Meets {
    Hears(u64, Word),
    Quiet(u64),
    Leave,
}

use Meets::{Hears, Leave, Quiet};

/// The side that is stepped, what its client meets, and the datagram that is said then, if any, and
/// on which side.
type Row = (Side, Meets, Option<(Side, Word)>);

fn input(meets: Meets) -> Input
    ensures { is_send result ≡ false }
{
    match meets {
        Hears(at, word) => Input::Datagram {
            at,
            bytes: spell(word),
        },
        Quiet(at) => Input::Quiet { at },
        Leave => Input::Leave,
    }
}

/// Whether just this is to be said.
fn is_wanted(crosses: &ArrayVec<Cross, MOST_CROSSES>, wanted: Option<(Side, Word)>) -> bool {
    match (crosses.as_slice(), wanted) {
        ([], None) => true,
        ([cross], Some((side, word))) => {
            cross.side == side && cross.bytes.as_slice() == spell(word).bytes()
        }
        _ => false,
    }
}

/// Steps once, and answers whether just this was to be said.
fn step(bridge: &mut Bridge, row: &Row) -> bool {
    let (side, meets, wanted) = row;
    let mut out = ArrayVec::new();
    bridge.step(*side, &input(*meets), &mut out);
    is_wanted(&out, *wanted)
}

/// Takes a bridge through these rows, and demands what is said at each.
fn go_on(rt: &impl Abort, table: &str, bridge: &mut Bridge, rows: &[Row]) {
    for (i, row) in rows.iter().enumerate() {
        let as_wanted = step(bridge, row);
        assert!(rt; as_wanted, "{table}, row {i}");
    }
}

/// Both ask, and both are let in at 10.
const IN: [Row; 4] = [
    (Near, Quiet(0), Some((Near, Conn))),
    (Far, Quiet(0), Some((Far, Conn))),
    (Near, Hears(10, Ackn), None),
    (Far, Hears(10, Ackn), None),
];

/// Takes a new bridge, whose clients are let in first, through these rows, and demands how many
/// packets passed from each side.
fn play(rt: &impl Abort, table: &str, rows: &[Row], near: u64, far: u64) -> (State, State) {
    let mut bridge = Bridge::new(client(rt), client(rt));
    go_on(rt, "let in", &mut bridge, &IN);
    go_on(rt, table, &mut bridge, rows);
    let passed = (bridge.passed(Near), bridge.passed(Far));
    assert!(rt; passed == (near, far), "{table}");
    (bridge.state(Near), bridge.state(Far))
}

const A0: Word = Frame(0x1234, 0, false);

const A1: Word = Frame(0x1234, 1, false);

const A1_LAST: Word = Frame(0x1234, 1, true);

const A2: Word = Frame(0x1234, 2, false);

const A3: Word = Frame(0x1234, 3, false);

const B0: Word = Frame(0x0005, 0, false);

const B1: Word = Frame(0x0005, 1, false);

const B2: Word = Frame(0x0005, 2, false);

const ENDED: [Row; 6] = [
    (Near, Hears(40, A0), Some((Far, A0))),
    (Far, Quiet(40), None),
    (Near, Hears(80, A1_LAST), Some((Far, A1_LAST))),
    (Far, Hears(45, B0), Some((Near, B0))),
    (Near, Leave, Some((Near, Part))),
    (Far, Leave, Some((Far, Part))),
];

#[test]
fn the_other_side_speaks_behind_an_end(rt: HostRuntime) {
    let states = play(&rt, "ended", &ENDED, 2, 1);
    assert!(rt; states == (State::Leaving, State::Leaving));
}

const HELD: [Row; 6] = [
    (Near, Hears(40, A0), Some((Far, A0))),
    (Far, Quiet(40), None),
    (Near, Hears(80, A1), Some((Far, A1))),
    (Far, Hears(45, B0), None),
    (Near, Leave, Some((Near, Part))),
    (Far, Leave, Some((Far, Part))),
];

#[test]
fn a_stream_that_goes_on_holds_the_way(rt: HostRuntime) {
    let states = play(&rt, "held", &HELD, 2, 0);
    assert!(rt; states == (State::Leaving, State::Leaving));
}

/// A side is silent for 1,599 ms and then for 1,600; the moment is the bridge's, which the other
/// side may bring up to date; and what didn't pass holds nothing.
const GIVEN_UP: [Row; 8] = [
    (Near, Hears(40, A0), Some((Far, A0))),
    (Far, Hears(1_639, B0), None),
    (Near, Quiet(1_640), None),
    (Far, Hears(50, B1), Some((Near, B1))),
    (Near, Hears(1_650, A1), None),
    (Far, Hears(1_650, B2), Some((Near, B2))),
    (Near, Hears(3_249, A2), None),
    (Near, Hears(3_250, A3), Some((Far, A3))),
];

#[test]
fn a_silent_side_gives_the_way_up(rt: HostRuntime) {
    let states = play(&rt, "given up", &GIVEN_UP, 2, 2);
    let connected = (
        State::Connected { heard_at: 3_250 },
        State::Connected { heard_at: 1_650 },
    );
    assert!(rt; states == connected);
}

/// Packets to a side that is not connected don't pass, and hold nothing; a ping is answered on its
/// own side; a copy is not kept, so it doesn't pass.
const LEFT: [Row; 7] = [
    (Near, Hears(20, Ping), Some((Near, Pong))),
    (Far, Hears(20, B0), Some((Near, B0))),
    (Far, Hears(30, B0), None),
    (Far, Hears(40, Disc), None),
    (Near, Hears(1_700, A0), None),
    (Far, Leave, None),
    (Near, Leave, Some((Near, Part))),
];

#[test]
fn nothing_passes_to_a_side_that_left(rt: HostRuntime) {
    let states = play(&rt, "left", &LEFT, 0, 1);
    assert!(rt; states == (State::Leaving, State::Closed(Ending::Dropped)));
}
