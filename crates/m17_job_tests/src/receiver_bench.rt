//! A receiver for tests, with the other ends of its lanes.
ghost use Rattle.std.specs.Prelude.{◌≡◌, ◌<◌, ◌≤◌, false, [], All, IfOk, IsTrue, None, length};
ghost use Rattle.m17_lane.specs.Ends.{PushEnd};
ghost use Rattle.m17_ports.specs.Told.{StartsEmpty};
ghost use Rattle.m17_roll.specs.Seat.{HasLists};
ghost use Rattle.m17_control.specs.Modules.{letters_of};
ghost use Rattle.m17_directory.specs.StandsFor.{StandsFor};
ghost use Rattle.m17_lane.specs.Rows.{IsNewPopper, IsNewPusher, IsNewRow};
ghost use Rattle.m17_receiver.specs.Ready.{IsReady};

use crate::bench::must;
use m17_callsign::{CallAddress, encode};
use m17_control::{Control, Direct, Event, ModuleLetter, Modules, write};
use m17_crew::{Crew, Order, Running, StdCrew, Work};
use m17_directory::{Directory, LinkVerdict, Post};
use m17_lane::{Bell, Popper, Pusher, make_one, make_one_marked};
use m17_port_memory::{ListBook, ScriptEar};
use m17_ports::{Book, Ear};
use m17_receiver::Receiver;
use m17_roll::RollSeat;
use m17_samples::{frame, member};
use m17_values::{Gram, Heard, Member, NoMemory, Peer};
use std::alloc::{AllocError, Global};
use std::process::Abort;
use std::sync::Wait;
use std::thread::Threads;

/// What a receiver is made with, the capacity of its inboxes and of its door among it.
#[derive(Drop)]
pub(crate) struct Plan {
    pub(crate) letters: &'static str,
    pub(crate) places: u32,
    pub(crate) patient: bool,
    pub(crate) room: u32,
    pub(crate) door: u32,
    pub(crate) cells: usize,
}

/// A receiver, and the other ends of its lanes, and another seat at its roll.
#[derive(Drop)]
pub(crate) struct Bench<E, B> {
    pub(crate) receiver: Receiver<E, B>,
    pub(crate) inboxes: Vec<Popper<Event>>,
    pub(crate) door: Popper<Direct>,
    pub(crate) notes: Pusher<Member>,
    pub(crate) orders: Pusher<Order>,
    pub(crate) other: RollSeat,
}

// So many inboxes.
fn inboxes<R: Abort>(
    rt: &R,
    alloc: Global,
    count: u32,
    room: u32,
) -> (Vec<Pusher<Event>>, Vec<Popper<Event>>)
    requires { 0 < room }
    ensures count { length result.0.items ≡ count }
    ensures unused { IsNewRow result.0.items }
{
    let mut pushers = Vec::new(alloc);
    let mut poppers = Vec::new(alloc);
    'inboxes: for _made in 0..count {
        let (pusher, popper) = must(rt, make_one(alloc, room));
        must(rt, pushers.push(pusher));
        must(rt, poppers.push(popper));
    }
    (pushers, poppers)
}

// A tape with so many cells.
fn empty_tape(alloc: Global, cells: usize) -> Result<Vec<Option<LinkVerdict>>, AllocError>
    ensures { IfOk result (λ tape. All (λ cell. cell ≡ None) tape.items) }
{
    let mut tape = Vec::new(alloc);
    'cells: for _cell in 0..cells {
        tape.push(None)?;
    }
    Ok(tape)
}

// Two seats at one roll, of which the first has done nothing.
fn seats(alloc: Global, places: u32) -> Result<(RollSeat, RollSeat), NoMemory>
    requires { (0 < places) × (places ≤ 256) }
    ensures places { IfOk result (λ r. r.0.places ≡ places) }
    ensures unused { IfOk result (λ r. HasLists [] [] [] r.0) }
{
    let mut all = m17_roll::make(alloc, places, 2)?;
    match (all.pop(), all.pop()) {
        (Some(first), Some(second)) => Ok((first, second)),
        _ => Err(NoMemory),
    }
}

// The lanes of a receiver, with their other ends.
#[derive(Drop)]
struct Ends {
    inboxes: Vec<Pusher<Event>>,
    from_inboxes: Vec<Popper<Event>>,
    door: Pusher<Direct>,
    from_door: Popper<Direct>,
    notes: Popper<Member>,
    to_notes: Pusher<Member>,
    order: Popper<Order>,
    orders: Pusher<Order>,
}

// Lanes of a receiver of these modules. A push on its door sets mark 0 of the bell.
fn make_ends<R: Abort>(rt: &R, alloc: Global, modules: Modules, plan: &Plan, bell: &Bell) -> Ends
    requires room { 0 < plan.now.room }
    requires door { 0 < plan.now.door }
    ensures count { length result.inboxes.items ≡ length (letters_of modules) }
    ensures inboxes { IsNewRow result.inboxes.items }
    ensures door { IsNewPusher result.door }
    ensures notes { IsNewPopper result.notes }
    ensures order { IsNewPopper result.order }
{
    let (inboxes, from_inboxes) = inboxes(rt, alloc, modules.count(), plan.room);
    let (door, from_door) = must(rt, make_one_marked(alloc, bell, 0, plan.door));
    let (to_notes, notes) = must(rt, make_one(alloc, 512));
    let (orders, order) = must(rt, make_one(alloc, 2));
    Ends {
        inboxes,
        from_inboxes,
        door,
        from_door,
        notes,
        to_notes,
        order,
        orders,
    }
}

// The directory of link 0, which has heard nothing.
fn directory_of<R: Abort>(rt: &R, alloc: Global, plan: &Plan, modules: Modules) -> Directory
    requires { (0 < plan.now.places) × (plan.now.places ≤ 256) }
    ensures link { result.setup.link ≡ 0 }
    ensures places { result.setup.places ≡ plan.now.places }
    ensures modules { result.setup.modules ≡ modules }
    ensures stands { StandsFor result [] }
    ensures idle { (result.asked ≡ None) × (result.departing ≡ []) × (result.ended ≡ false) }
{
    let name = CallAddress::new(must(rt, encode("M17-TST")));
    let name = name.expect(rt, "a callsign");
    must(rt, Directory::make(alloc, 0, name, plan.places, modules))
}

/// A receiver that can be started. A push on its door sets mark 0 of the bell.
pub(crate) fn make_bench<E: Ear + Drop, B: Book + Drop, R: Abort>(
    rt: &R,
    alloc: Global,
    plan: &Plan,
    bell: &Bell,
    ear: E,
    trace: B,
) -> Bench<E, B>
    requires ear { StartsEmpty (E.told ear).heard }
    requires trace { StartsEmpty (B.told trace).written }
    requires places { (0 < plan.now.places) × (plan.now.places ≤ 256) }
    requires room { 0 < plan.now.room }
    requires door { 0 < plan.now.door }
    ensures { IsReady E.told B.told result.receiver }
{
    let modules = must(rt, Modules::read(plan.letters));
    let directory = directory_of(rt, alloc, plan, modules);
    let post = must(rt, Post::make(alloc));
    let ends = make_ends(rt, alloc, modules, plan, bell);
    let (seat, other) = must(rt, seats(alloc, plan.places));
    let tape = must(rt, empty_tape(alloc, plan.cells));
    let Ends {
        inboxes,
        from_inboxes,
        door,
        from_door,
        notes,
        to_notes,
        order,
        orders,
    } = ends;
    let receiver = Receiver {
        link: 0,
        modules,
        places: plan.places,
        patient: plan.patient,
        ear,
        trace,
        directory,
        post,
        inboxes,
        door,
        notes,
        order,
        seat,
        tape,
        lost: false,
        trace_failed: false,
    };
    Bench {
        receiver,
        inboxes: from_inboxes,
        door: from_door,
        notes: to_notes,
        orders,
        other,
    }
}

/// A trace of the tests has room for so many bytes.
const ROOM: usize = 65_536;

/// A receiver that has gone over what was heard, with the write of its trace that is to fail.
pub(crate) fn run_through<R: Wait + Abort>(
    rt: &R,
    alloc: Global,
    plan: &Plan,
    heard: Vec<Heard>,
    fails: Vec<u64>,
) -> Bench<ScriptEar, ListBook> {
    run_by(rt, alloc, plan, heard, fails, Order::Go)
}

/// The same with this order, behind a Stop.
pub(crate) fn run_by<R: Wait + Abort>(
    rt: &R,
    alloc: Global,
    plan: &Plan,
    heard: Vec<Heard>,
    fails: Vec<u64>,
    order: Order,
) -> Bench<ScriptEar, ListBook> {
    assert!(rt; is_plan(plan));
    let bell = must(rt, Bell::make_marked(alloc, 1));
    let ear = ScriptEar::new(heard);
    let trace = must(rt, ListBook::make(alloc, ROOM, fails));
    let b = make_bench(rt, alloc, plan, &bell, ear, trace);
    go(rt, b, order)
}

/// Has the receiver go by this order, behind a Stop, with a note that is there before it.
pub(crate) fn go<E: Ear + Drop + Send + 'static, B: Book + Drop + Send + 'static, R: Wait>(
    rt: &R,
    bench: Bench<E, B>,
    order: Order,
) -> Bench<E, B>
    requires { IsReady E.told B.told bench.receiver }
{
    let mut bench = bench;
    bench.notes.push_waiting(rt, member(9, 9));
    bench.orders.push_waiting(rt, Order::Stop);
    bench.orders.push_waiting(rt, order);
    let Bench {
        receiver,
        inboxes,
        door,
        notes,
        orders,
        other,
    } = bench;
    Bench {
        receiver: done(rt, receiver),
        inboxes,
        door,
        notes,
        orders,
        other,
    }
}

// Does a job, by what a job is.
fn done<W: Work, R: Wait>(rt: &R, job: W) -> W
    requires { W.ready job }
{
    let mut job = job;
    job.go(rt);
    job
}

/// Whether there is a place, and no more than a roll has, and room in each lane.
pub(crate) fn is_plan(plan: &Plan) -> bool
    ensures { IsTrue result → (0 < plan.now.places) × (plan.now.places ≤ 256)
        × (0 < plan.now.room) × (0 < plan.now.door) }
{
    plan.places > 0 && plan.places <= 256 && plan.room > 0 && plan.door > 0
}

/// A receiver in a thread of its own, and what the test has of it: one inbox, its door, the notes, another seat at its
/// roll, and the place that this seat holds.
#[derive(Drop)]
pub(crate) struct Started {
    pub(crate) running: Running<Receiver<ScriptEar, ListBook>>,
    pub(crate) inbox: Popper<Event>,
    pub(crate) door: Popper<Direct>,
    pub(crate) notes: Pusher<Member>,
    pub(crate) other: RollSeat,
    pub(crate) held: Option<Member>,
}

/// Starts a receiver over what is heard, after the other seat has claimed, where it is to.
pub(crate) fn start_over<R: Threads + Wait + Abort + Copy + Send + 'static>(
    rt: &R,
    alloc: Global,
    plan: &Plan,
    heard: Vec<Heard>,
    claims: bool,
) -> Started {
    assert!(rt; is_plan(plan));
    let bell = must(rt, Bell::make_marked(alloc, 1));
    let ear = ScriptEar::new(heard);
    let trace = must(rt, ListBook::make(alloc, ROOM, Vec::new(alloc)));
    let mut b = make_bench(rt, alloc, plan, &bell, ear, trace);
    b.orders.push_waiting(rt, Order::Go);
    let inbox = b.inboxes.pop().expect(rt, "an inbox");
    let held = if claims { b.other.claim(99) } else { None };
    let mut crew = StdCrew::new();
    let running = must(rt, crew.start(rt, alloc, b.receiver));
    Started {
        running,
        inbox,
        door: b.door,
        notes: b.notes,
        other: b.other,
        held,
    }
}

/// Joins a receiver that was started, and lets go of all that the test had of it.
pub(crate) fn join<R: Threads + Wait>(rt: &R, started: Started) {
    let _receiver = started.running.join(rt);
}

fn call(rt: &impl Abort) -> CallAddress {
    let address = encode("AB1CD").ok().expect(rt, "an address");
    CallAddress::new(address).expect(rt, "a callsign")
}

fn said(from: Peer, at: u64, control: &Control) -> Heard {
    Heard::Datagram {
        from,
        at,
        bytes: Gram::of(write(control).as_slice()),
    }
}

/// It asks for a module.
pub(crate) fn conn(rt: &impl Abort, from: Peer, at: u64, letter: u8) -> Heard {
    let module = ModuleLetter::new(letter).expect(rt, "a module");
    let control = Control::Conn {
        from: call(rt),
        module,
    };
    said(from, at, &control)
}

/// It asks whether the reflector is there.
pub(crate) fn ping(rt: &impl Abort, from: Peer, at: u64) -> Heard {
    said(from, at, &Control::Ping { from: call(rt) })
}

/// It leaves.
pub(crate) fn disc(rt: &impl Abort, from: Peer, at: u64) -> Heard {
    said(
        from,
        at,
        &Control::Disc {
            from: Some(call(rt)),
        },
    )
}

/// It says a voice frame.
pub(crate) fn voice(from: Peer, at: u64, number: u16) -> Heard {
    Heard::Datagram {
        from,
        at,
        bytes: Gram::of(&m17_stream::write(&frame(1, number, false))),
    }
}
