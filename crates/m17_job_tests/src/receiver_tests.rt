//! What no clause says: that a receiver goes through with ample memory, that it ends by itself, and what it does in the
//! order that its documents say.
ghost use Rattle.std.specs.Prelude.{None};
ghost use Rattle.m17_ports.specs.Told.{StartsEmpty};

use crate::bench::must;
use crate::receiver_bench::{
    Bench, Plan, conn, disc, go, is_plan, make_bench, ping, run_by, run_through, voice,
};
use m17_control::{Body, Control, ModuleLetter};
use m17_crew::Order;
use m17_directory::{Act, LinkVerdict};
use m17_lane::Bell;
use m17_port_memory::{ListBook, ScriptEar};
use m17_ports::{Book, Ear, Shelf};
use m17_samples::{member, peer};
use m17_values::{Failed, Heard, Member, Peer};
use std::alloc::Global;
use std::process::Abort;
use std::sync::Wait;

const ONE_MODULE: Plan = Plan {
    letters: "A",
    places: 2,
    patient: false,
    room: 256,
    door: 256,
    cells: 8,
};

const PATIENT: Plan = Plan {
    letters: "A",
    places: 2,
    patient: true,
    room: 256,
    door: 256,
    cells: 8,
};

fn routed(rt: &impl Abort, letter: u8, act: Act) -> Option<LinkVerdict> {
    let module = ModuleLetter::new(letter).expect(rt, "a module");
    Some(LinkVerdict::Routed { module, act })
}

fn not_served(rt: &impl Abort, letter: u8) -> Option<LinkVerdict> {
    let module = ModuleLetter::new(letter).expect(rt, "a module");
    Some(LinkVerdict::NotServed { module })
}

// The letter of an event's kind.
fn kind_of(body: &Body) -> u8 {
    match body {
        Body::Join { .. } => b'J',
        Body::Leave { .. } => b'L',
        Body::Packet { .. } => b'P',
        Body::Reply { .. } => b'R',
        Body::Tick => b'T',
        Body::Stop => b'S',
    }
}

// A cell of the tape.
fn cell<E: Drop, B: Drop>(b: &Bench<E, B>, n: usize) -> Option<LinkVerdict> {
    *b.receiver.tape.as_slice().get(n)?
}

// Nine events of the one inbox, each by the letter of its kind; a dot where there was none.
fn popped<E: Drop, B: Drop, R: Wait>(rt: &R, b: &mut Bench<E, B>) -> [u8; 9] {
    let mut kinds = [b'.'; 9];
    if let Some(inbox) = b.inboxes.first_mut() {
        for kind in kinds.iter_mut() {
            if let Some(event) = inbox.try_pop(rt) {
                *kind = kind_of(&event.body);
            }
        }
    }
    kinds
}

// The next reply at the door: to whom, and what.
fn replied<E: Drop, B: Drop, R: Wait>(rt: &R, b: &mut Bench<E, B>) -> Option<(Peer, Control)> {
    let direct = b.door.try_pop(rt)?;
    Some((direct.peer, direct.control))
}

// An evening of one link: a peer joins, speaks, asks whether the reflector is there, and leaves; another one asks for a
// module that isn't served.
fn an_evening(rt: &impl Abort, alloc: Global) -> Vec<Heard> {
    let heard = [
        conn(rt, peer(1), 0, b'A'),
        voice(peer(1), 40, 7),
        ping(rt, peer(1), 60),
        conn(rt, peer(2), 60, b'B'),
        disc(rt, peer(1), 61),
        Heard::Quiet { at: 61 },
    ];
    must(rt, Vec::from_array(alloc, heard))
}

// A receiver of one module that has gone over the evening.
fn after_the_evening<R: Abort + Wait>(rt: &R, alloc: Global) -> Bench<ScriptEar, ListBook> {
    let heard = an_evening(rt, alloc);
    run_through(rt, alloc, &ONE_MODULE, heard, Vec::new(alloc))
}

// The tape of eight cells.
fn taped<E: Drop, B: Drop>(b: &Bench<E, B>) -> [Option<LinkVerdict>; 8] {
    let mut cells = [None; 8];
    for (at, taped) in cells.iter_mut().enumerate() {
        *taped = cell(b, at);
    }
    cells
}

#[test]
fn each_entry_has_its_verdict_on_the_tape(rt: HostRuntime) {
    let b = after_the_evening(&rt, rt.alloc());
    let (cells, taped) = (b.receiver.tape.len(), taped(&b));
    drop(b);
    let verdicts = [
        routed(&rt, b'A', Act::Join),
        routed(&rt, b'A', Act::Packet),
        routed(&rt, b'A', Act::Pong),
        not_served(&rt, b'B'),
        routed(&rt, b'A', Act::Leave),
        Some(LinkVerdict::Timed),
        Some(LinkVerdict::Ended),
        None,
    ];
    assert!(rt; cells == 8 && taped == verdicts);
}

#[test]
fn events_and_replies_come_in_order(rt: HostRuntime) {
    let mut b = after_the_evening(&rt, rt.alloc());
    let kinds = popped(&rt, &mut b);
    let reply = replied(&rt, &mut b);
    let left = b.receiver.notes.try_pop(&rt);
    drop(b);
    assert!(rt; kinds == *b"JTPTRLS..");
    assert!(rt; reply == Some((peer(2), Control::Nack)));
    assert!(rt; left.is_none(), "notes are taken before an entry is heard");
}

// Of a trace: whether it begins as one, and how much it holds.
fn traced(b: &Bench<ScriptEar, ListBook>) -> (bool, usize) {
    let bytes = b.receiver.trace.bytes();
    (bytes.starts_with(b"M17TRACE"), bytes.len())
}

// Whether the link was lost, and whether its trace failed.
fn failed<E: Drop, B: Drop>(b: &Bench<E, B>) -> (bool, bool) {
    (b.receiver.lost, b.receiver.trace_failed)
}

#[test]
fn the_trace_holds_what_was_heard(rt: HostRuntime) {
    let b = after_the_evening(&rt, rt.alloc());
    let (traced, failed) = (traced(&b), failed(&b));
    drop(b);
    assert!(rt; traced == (true, 8 + 5 * 17 + 11 + 54 + 10 + 11 + 10 + 9));
    assert!(rt; failed == (false, false));
}

// A trace that keeps nothing and says so, and counts its writes.
#[derive(Drop)]
struct UnkeptTrace {
    writes: u64,
}

impl Book for UnkeptTrace {
    ghost use Rattle.std.proofs.Common.{lit≤};

    type Label = ();

    ghost told = { λ _. record {
      written = None;
      faults = 0;
      device = record { mark = None; label = tt };
    } };

    ghost faults_fit = { λ _. lit≤ tt };

    fn is_kept(&self) -> bool {
        false
    }

    fn write(&mut self, _bytes: &[u8]) -> Result<(), Failed> {
        self.writes = self.writes.saturating_add(1);
        Ok(())
    }
}

// A receiver that has gone over what was heard, with this trace.
fn run_into<B: Book + Drop + Send + 'static, R: Abort + Wait>(
    rt: &R,
    alloc: Global,
    heard: Vec<Heard>,
    bell: &Bell,
    trace: B,
) -> Bench<ScriptEar, B>
    requires { StartsEmpty (B.told trace).written }
{
    assert!(rt; is_plan(&ONE_MODULE));
    let ear = ScriptEar::new(heard);
    let b = make_bench(rt, alloc, &ONE_MODULE, bell, ear, trace);
    go(rt, b, Order::Go)
}

// The same on a shelf, over the evening.
fn shelved<B: Book + Drop + Send + 'static, R: Abort + Wait>(
    rt: &R,
    alloc: Global,
    trace: B,
) -> Bench<ScriptEar, Shelf<B>>
    requires { StartsEmpty (B.told trace).written }
{
    let bell = must(rt, Bell::make_marked(alloc, 1));
    let inner = Some(trace);
    run_into(rt, alloc, an_evening(rt, alloc), &bell, Shelf { inner })
}

// How often the trace on the shelf was written.
fn writes(b: &Bench<ScriptEar, Shelf<UnkeptTrace>>) -> Option<u64> {
    Some(b.receiver.trace.inner.as_ref()?.writes)
}

#[test]
fn a_trace_that_keeps_nothing_is_never_written(rt: HostRuntime) {
    let b = shelved(&rt, rt.alloc(), UnkeptTrace { writes: 0 });
    let (writes, failed, last) = (writes(&b), b.receiver.trace_failed, cell(&b, 6));
    drop(b);
    assert!(rt; writes == Some(0) && !failed);
    assert!(rt; last == Some(LinkVerdict::Ended));
}

// Whether both traces hold the same.
fn hold_the_same(
    shelved: &Bench<ScriptEar, Shelf<ListBook>>,
    alone: &Bench<ScriptEar, ListBook>,
) -> bool {
    match &shelved.receiver.trace.inner {
        Some(trace) => trace.bytes() == alone.receiver.trace.bytes(),
        None => false,
    }
}

#[test]
fn a_shelf_with_a_trace_holds_what_was_heard(rt: HostRuntime) {
    let alloc = rt.alloc();
    let trace = must(&rt, ListBook::make(alloc, 1_000, Vec::new(alloc)));
    let on_a_shelf = shelved(&rt, alloc, trace);
    let alone = after_the_evening(&rt, alloc);
    let same = hold_the_same(&on_a_shelf, &alone);
    drop(on_a_shelf);
    drop(alone);
    assert!(rt; same);
}

// A trace that keeps nothing, and sees at each write whether the door was pushed to since the last one.
#[derive(Drop)]
struct WatchingTrace {
    door: Bell,
    first: Option<bool>,
    second: Option<bool>,
}

impl Book for WatchingTrace {
    ghost use Rattle.std.proofs.Common.{lit≤};

    type Label = ();

    ghost told = { λ _. record {
      written = None;
      faults = 0;
      device = record { mark = None; label = tt };
    } };

    ghost faults_fit = { λ _. lit≤ tt };

    fn write(&mut self, _bytes: &[u8]) -> Result<(), Failed> {
        let pushed = self.door.take_marks(0) != 0;
        if self.first.is_none() {
            self.first = Some(pushed);
        } else if self.second.is_none() {
            self.second = Some(pushed);
        }
        Ok(())
    }
}

// What the trace saw at its first and its second write.
fn seen<E: Drop>(b: &Bench<E, WatchingTrace>) -> (Option<bool>, Option<bool>) {
    (b.receiver.trace.first, b.receiver.trace.second)
}

// A receiver that has gone over what was heard, with a trace that watches its door.
fn watched<R: Abort + Wait>(
    rt: &R,
    alloc: Global,
    heard: Vec<Heard>,
) -> Bench<ScriptEar, WatchingTrace> {
    let bell = must(rt, Bell::make_marked(alloc, 1));
    let trace = WatchingTrace {
        door: must(rt, bell.share()),
        first: None,
        second: None,
    };
    run_into(rt, alloc, heard, &bell, trace)
}

// The first entry is in the trace before its reply is at the door, and the second one behind that.
#[test]
fn an_entry_is_written_before_what_it_posts_is_pushed(rt: HostRuntime) {
    let heard = [conn(&rt, peer(1), 0, b'B'), Heard::Quiet { at: 5 }];
    let heard = must(&rt, Vec::from_array(rt.alloc(), heard));
    let b = watched(&rt, rt.alloc(), heard);
    let seen = seen(&b);
    drop(b);
    assert!(rt; seen == (Some(false), Some(true)));
}

// After Quit: how much was written, the first cell, the note that came before, and whether the entry is to be heard yet.
fn left<R: Wait>(
    rt: &R,
    b: &mut Bench<ScriptEar, ListBook>,
) -> (usize, Option<LinkVerdict>, Option<Member>, bool) {
    (
        b.receiver.trace.bytes().len(),
        cell(b, 0),
        b.receiver.notes.try_pop(rt),
        b.receiver.ear.hear() == Heard::Quiet { at: 5 },
    )
}

// After Quit nothing was heard, written, pushed or noted.
#[test]
fn quit_leaves_all_as_it_was(rt: HostRuntime) {
    let alloc = rt.alloc();
    let heard = must(&rt, Vec::from_array(alloc, [Heard::Quiet { at: 5 }]));
    let mut b = run_by(&rt, alloc, &ONE_MODULE, heard, Vec::new(alloc), Order::Quit);
    let pushed = popped(&rt, &mut b);
    let left = left(&rt, &mut b);
    drop(b);
    assert!(rt; pushed == [b'.'; 9]);
    assert!(rt; left == (0, None, Some(member(9, 9)), true));
}

// Three quiet moments, and a trace whose write with this number fails: the last cell, whether the trace failed, and how
// much it holds.
fn fails_at<R: Abort + Wait>(
    rt: &R,
    alloc: Global,
    call: u64,
) -> (Option<LinkVerdict>, bool, usize) {
    let heard = [
        Heard::Quiet { at: 1 },
        Heard::Quiet { at: 2 },
        Heard::Quiet { at: 3 },
    ];
    let heard = must(rt, Vec::from_array(alloc, heard));
    let fails = must(rt, Vec::from_array(alloc, [call]));
    let b = run_through(rt, alloc, &ONE_MODULE, heard, fails);
    let (last, failed, traced) = (cell(&b, 3), b.receiver.trace_failed, traced(&b));
    drop(b);
    (last, failed, traced.1)
}

// Which write fails, whether one does, and how much is written at least and at most.
const FAILS: [(u64, bool, usize, usize); 4] = [
    (0, true, 0, 16),
    (1, true, 17, 25),
    (2, true, 26, 34),
    (3, false, 35, 35),
];

// Whichever write of the trace fails, the link goes on to its end, and the trace is written no more.
#[test]
fn a_trace_fails_at_each_write(rt: HostRuntime) {
    for (call, fails, least, most) in FAILS {
        let (last, failed, written) = fails_at(&rt, rt.alloc(), call);
        assert!(rt; last == Some(LinkVerdict::Ended), "write {call} fails");
        assert!(rt;
            failed == fails && least <= written && written <= most,
            "write {call} fails"
        );
    }
}

// So many faults, and then the end: whether the link was lost, and how much its trace holds.
fn faults<R: Abort + Wait>(rt: &R, alloc: Global, count: usize) -> (bool, usize) {
    let mut heard = Vec::new(alloc);
    for _fault in 0..count {
        must(rt, heard.push(Heard::Fault));
    }
    let b = run_through(rt, alloc, &ONE_MODULE, heard, Vec::new(alloc));
    let (lost, traced) = (b.receiver.lost, traced(&b));
    drop(b);
    (lost, traced.1)
}

// The sixteenth failure in a row ends the link, and it is lost; after fifteen the end ends it, and it is not.
#[test]
fn a_link_is_lost_by_sixteen_failures(rt: HostRuntime) {
    for (count, lost, written) in [(15, false, 23), (16, true, 24), (17, true, 24)] {
        assert!(rt;
            faults(&rt, rt.alloc(), count) == (lost, written),
            "{count} failures"
        );
    }
}

// Three peers ask where there are two places: what becomes of the third, and whom the door answers.
fn third_of_two<R: Abort + Wait>(
    rt: &R,
    alloc: Global,
    plan: &Plan,
) -> (Option<LinkVerdict>, [Option<Peer>; 2]) {
    let heard = [
        conn(rt, peer(1), 0, b'A'),
        conn(rt, peer(2), 0, b'A'),
        conn(rt, peer(3), 0, b'A'),
    ];
    let heard = must(rt, Vec::from_array(alloc, heard));
    let mut b = run_through(rt, alloc, plan, heard, Vec::new(alloc));
    let third = cell(&b, 2);
    let answered = [next_answered(rt, &mut b), next_answered(rt, &mut b)];
    drop(b);
    (third, answered)
}

// Whom the next reply at the door goes to.
fn next_answered<E: Drop, B: Drop, R: Wait>(rt: &R, b: &mut Bench<E, B>) -> Option<Peer> {
    Some(b.door.try_pop(rt)?.peer)
}

#[test]
fn a_full_roll_turns_away(rt: HostRuntime) {
    for plan in [&ONE_MODULE, &PATIENT] {
        let (third, answered) = third_of_two(&rt, rt.alloc(), plan);
        assert!(rt; third == Some(LinkVerdict::Full));
        assert!(rt; answered == [Some(peer(3)), None]);
    }
}
