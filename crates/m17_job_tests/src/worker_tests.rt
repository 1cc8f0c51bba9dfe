//! What no clause says of a worker: that it ends where each link was stopped, that its book, tape and queues hold what
//! they should for a list of events that was worked out by hand, and what becomes of a book that fails at one write.
ghost use Rattle.std.specs.Prelude.{◌↔◌, IsTrue, None};
ghost use Rattle.m17_ports.specs.Told.{StartsEmpty};
ghost use Rattle.m17_book.specs.Records.{IsLow};

use crate::bench::must;
use crate::worker_bench::{Bench, LIMIT, callsign, event, join, lay, leaves, let_go, run, sends};
use arrayvec::ArrayVec;
use m17_book::{Head, Record, write_header, write_record};
use m17_control::{Body, Event, Item, ModuleLetter, Said, Tag, Why};
use m17_crew::Order;
use m17_floor::Verdict;
use m17_lane::{Popper, Pusher};
use m17_port_memory::ListBook;
use m17_ports::{Book, Shelf};
use m17_samples::{frame, member};
use m17_values::{Failed, Member};
use std::alloc::Global;
use std::process::Abort;
use std::sync::Wait;

// What happens: a join, a frame with this number, a leave, a tick, or the link's stop.
enum What {
    Joins,
    Sends(u16),
    Leaves(Why),
    Ticks,
    Stops,
}

// An event: its link, the index of its entry, its moment, the place and the generation of its member, and what happens.
type EventRow = (u8, u64, u64, (u32, u64), What);

// The events of a worker with one link and two places. Three of them name what isn't there, and one stands behind the
// last Stop.
const EVENTS: [EventRow; 14] = [
    (0, 0, 1_000, (0, 0), What::Joins),
    (0, 0, 1_001, (1, 0), What::Joins),
    (0, 1, 1_010, (0, 0), What::Sends(0)),
    (0, 2, 1_005, (1, 5), What::Sends(0)),
    (0, 3, 1_010, (1, 5), What::Leaves(Why::Asked)),
    (1, 0, 1_012, (0, 0), What::Stops),
    (0, 7, 1_013, (2, 0), What::Joins),
    (0, 8, 1_014, (300, 0), What::Leaves(Why::Asked)),
    (0, 4, 1_015, (0, 0), What::Ticks),
    (0, 4, 1_020, (0, 1), What::Joins),
    (0, 3, 1_030, (0, 1), What::Sends(1)),
    (0, 5, 1_040, (0, 1), What::Leaves(Why::Replaced)),
    (0, 6, 1_050, (0, 0), What::Stops),
    (0, 6, 1_060, (0, 0), What::Ticks),
];

fn event_of(rt: &impl Abort, row: &EventRow) -> Event {
    let (link, index, at, (place, generation), what) = row;
    let who = member(*place, *generation);
    let mut made = match what {
        What::Joins => join(rt, *index, *at, who),
        What::Sends(number) => sends(*index, *at, who, *number),
        What::Leaves(why) => leaves(*index, *at, who, *why),
        What::Ticks => event(*index, *at, Body::Tick),
        What::Stops => event(*index, *at, Body::Stop),
    };
    made.tag.link = *link;
    made
}

// What a record says: a join, a leave of one that was replaced, or a frame with this number and what became of it.
enum Line {
    Joined,
    Left,
    Sent(u16, Verdict),
}

// A record of link 0: the index of its entry, its moment, the place and the generation of its member, and what it says.
type RecordRow = (u64, u64, (u32, u64), Line);

// What the book has to say of the events.
const RECORDS: [RecordRow; 8] = [
    (0, 1_000, (0, 0), Line::Joined),
    (0, 1_001, (1, 0), Line::Joined),
    (1, 1_010, (0, 0), Line::Sent(0, Verdict::Opened)),
    (2, 1_010, (1, 5), Line::Sent(0, Verdict::NotMember)),
    (4, 1_020, (0, 0), Line::Left),
    (4, 1_020, (0, 1), Line::Joined),
    (3, 1_030, (0, 1), Line::Sent(1, Verdict::Opened)),
    (5, 1_040, (0, 1), Line::Left),
];

fn record_of(rt: &impl Abort, row: &RecordRow) -> Record {
    let (index, moment, (place, generation), line) = row;
    let (tag, moment) = (event(*index, 0, Body::Tick).tag, *moment);
    let member = member(*place, *generation);
    match line {
        Line::Joined => Record::Join {
            tag,
            moment,
            member,
            listen: false,
            callsign: callsign(rt),
        },
        Line::Left => Record::Leave {
            tag,
            moment,
            member,
            why: Why::Replaced,
        },
        Line::Sent(number, verdict) => Record::Packet {
            tag,
            moment,
            member,
            verdict: *verdict,
            packet: frame(7, *number, false),
        },
    }
}

fn is_low(tag: Tag, member: Member) -> bool
    ensures { IsTrue result ↔ IsLow tag member }
{
    tag.link < 4 && member.place < 256
}

// The bytes of a record of low links and places, whose verdict has no value.
fn spell(line: &Record) -> Option<ArrayVec<u8, 97>> {
    match *line {
        Record::Join { tag, member, .. } if is_low(tag, member) => Some(write_record(line)),
        Record::Leave { tag, member, .. } if is_low(tag, member) => Some(write_record(line)),
        Record::Packet {
            tag,
            member,
            verdict: Verdict::Opened | Verdict::NotMember,
            ..
        } if is_low(tag, member) => Some(write_record(line)),
        _ => None,
    }
}

// The bytes of the first so many writes of the book: its header, and then the records.
fn written<R: Abort>(rt: &R, alloc: Global, writes: usize) -> Vec<u8> {
    let mut bytes = Vec::new(alloc);
    if writes == 0 {
        return bytes;
    }
    let head = Head {
        module: ModuleLetter::new(b'A').expect(rt, "a letter"),
        limit: LIMIT,
    };
    must(rt, bytes.extend_from_slice(&write_header(&head)));
    for row in RECORDS.iter().take(writes - 1) {
        let line = spell(&record_of(rt, row)).expect(rt, "a record of low places");
        must(rt, bytes.extend_from_slice(line.as_slice()));
    }
    bytes
}

// Whether these are the bytes of the first so many writes of the book.
fn are_written<R: Abort>(rt: &R, alloc: Global, bytes: &[u8], writes: usize) -> bool {
    bytes == written(rt, alloc, writes).as_slice()
}

fn push_events<R: Wait + Abort>(rt: &R, events: &mut Pusher<Event>) {
    for row in &EVENTS {
        must(rt, events.try_push(rt, event_of(rt, row)));
    }
}

// A worker with this book that has gone over the events by this order; place 0 was claimed before.
fn go<B: Book + Drop + Send + 'static, R: Wait + Abort>(
    rt: &R,
    alloc: Global,
    book: B,
    order: Order,
) -> Bench<B>
    requires { StartsEmpty (B.told book).written }
{
    let mut bench = lay(rt, alloc, 2, book, false);
    push_events(rt, &mut bench.events);
    must(rt, bench.orders.try_push(rt, order));
    assert!(rt; bench.other_seat.claim(0) == Some(member(0, 0)));
    let Bench {
        worker,
        queues,
        events,
        orders,
        other_seat,
    } = bench;
    Bench {
        worker: run(rt, worker),
        queues,
        events,
        orders,
        other_seat,
    }
}

// The same with a book in memory, whose write with this number fails, if there is one.
fn go_with_a_list<R: Wait + Abort>(
    rt: &R,
    alloc: Global,
    failing: Option<u64>,
    order: Order,
) -> Bench<ListBook> {
    let mut fails = Vec::new(alloc);
    if let Some(call) = failing {
        must(rt, fails.push(call));
    }
    let book = must(rt, ListBook::make(alloc, 2_000, fails));
    go(rt, alloc, book, order)
}

// Whether this stands in a queue, oldest first, and no more.
fn holds<R: Wait>(rt: &R, queue: &mut Popper<Item>, wanted: &[(Member, Said)]) -> bool {
    for next in wanted {
        match queue.try_pop(rt) {
            Some(item) if (item.member, item.body) == *next => {}
            _ => return false,
        }
    }
    queue.try_pop(rt).is_none()
}

// The same of the queue of a place.
fn queue_holds<B, R: Wait + Abort>(
    rt: &R,
    bench: &mut Bench<B>,
    place: usize,
    wanted: &[(Member, Said)],
) -> bool {
    let queue = bench.queues.get_mut(place).expect(rt, "a queue");
    holds(rt, queue, wanted)
}

// Whether these are the cells of the tape.
fn tape_holds<B>(bench: &Bench<B>, cells: &[Option<Verdict>; 4]) -> bool {
    let tape = &bench.worker.tape;
    let seen = [tape.get(0), tape.get(1), tape.get(2), tape.get(3)];
    seen.as_slice() == cells.as_slice()
}

// Whether the book failed, and how many events were admitted.
fn counts<B>(bench: &Bench<B>) -> (bool, u64) {
    (bench.worker.book_failed, bench.worker.module.admitted())
}

#[test]
fn book_and_tape_hold_what_was_decided(rt: HostRuntime) {
    let bench = go_with_a_list(&rt, rt.alloc(), None, Order::Go);
    let whole = are_written(&rt, rt.alloc(), bench.worker.book.bytes(), 9);
    let opened = Some(Verdict::Opened);
    let stranger = Some(Verdict::NotMember);
    let taped = tape_holds(&bench, &[None, opened, stranger, opened]);
    let counts = counts(&bench);
    let_go(bench);
    assert!(rt; whole && taped && counts == (false, 2));
}

fn a_frame(position: u64, number: u16) -> Said {
    Said::Frame {
        position,
        packet: frame(7, number, false),
    }
}

#[test]
fn queues_hold_what_was_given(rt: HostRuntime) {
    let mut bench = go_with_a_list(&rt, rt.alloc(), None, Order::Go);
    let bye = Said::Bye { why: Why::Replaced };
    let hello = Said::Hello { after: 0 };
    let first = [
        (member(0, 0), hello),
        (member(0, 0), bye),
        (member(0, 1), hello),
        (member(0, 1), bye),
    ];
    let second = [
        (member(1, 0), hello),
        (member(1, 0), a_frame(2, 0)),
        (member(1, 0), a_frame(7, 1)),
    ];
    let one = queue_holds(&rt, &mut bench, 0, &first);
    let other = queue_holds(&rt, &mut bench, 1, &second);
    let_go(bench);
    assert!(rt; one && other);
}

// The words of both places at the roll.
fn words<B>(bench: &mut Bench<B>) -> [Option<u64>; 2] {
    [bench.other_seat.look(0), bench.other_seat.look(1)]
}

#[test]
fn a_place_is_given_back_and_what_is_behind_the_stop_stays(rt: HostRuntime) {
    let mut bench = go_with_a_list(&rt, rt.alloc(), None, Order::Go);
    let words = words(&mut bench);
    let behind = bench.worker.inbox.try_pop(&rt);
    let end = bench.worker.inbox.try_pop(&rt);
    let_go(bench);
    assert!(rt;
        words == [Some(2), Some(0)],
        "one place was given back, once, and the other never claimed"
    );
    assert!(rt; behind == Some(event(6, 1_060, Body::Tick)) && end.is_none());
}

// A book that keeps nothing and says so, and counts its writes.
#[derive(Drop)]
struct UnkeptBook {
    writes: u64,
}

impl Book for UnkeptBook {
    ghost use Rattle.std.proofs.Common.{lit≤};

    type Label = ();

    ghost told = { λ _. record {
      written = None;
      faults = 0;
      device = record { mark = None; label = tt };
    } };

    ghost faults_fit = { λ _. lit≤ tt };

    fn is_kept(&self) -> bool {
        false
    }

    fn write(&mut self, _bytes: &[u8]) -> Result<(), Failed> {
        self.writes = self.writes.saturating_add(1);
        Ok(())
    }
}

// How often the book on the shelf was written.
fn writes(shelf: &Shelf<UnkeptBook>) -> Option<u64> {
    shelf.inner.as_ref().map(|book| book.writes)
}

#[test]
fn a_book_that_keeps_nothing_is_never_written(rt: HostRuntime) {
    let inner = Some(UnkeptBook { writes: 0 });
    let bench = go(&rt, rt.alloc(), Shelf { inner }, Order::Go);
    let seen = (writes(&bench.worker.book), counts(&bench));
    let_go(bench);
    assert!(rt; seen == (Some(0), (false, 2)));
}

// Whether the book on the shelf holds its first so many writes.
fn shelf_holds<R: Abort>(rt: &R, alloc: Global, shelf: &Shelf<ListBook>, writes: usize) -> bool {
    match &shelf.inner {
        Some(book) => are_written(rt, alloc, book.bytes(), writes),
        None => false,
    }
}

#[test]
fn a_shelf_with_a_book_holds_what_was_decided(rt: HostRuntime) {
    let alloc = rt.alloc();
    let inner = Some(must(&rt, ListBook::make(alloc, 2_000, Vec::new(alloc))));
    let bench = go(&rt, alloc, Shelf { inner }, Order::Go);
    let whole = shelf_holds(&rt, alloc, &bench.worker.book, 9);
    let_go(bench);
    assert!(rt; whole);
}

// A book whose write with this number fails: whether it holds its first so many writes and no more, whether it failed,
// and how many events were admitted.
fn fails_at<R: Wait + Abort>(
    rt: &R,
    alloc: Global,
    failing: u64,
    holds: usize,
) -> (bool, (bool, u64)) {
    let bench = go_with_a_list(rt, alloc, Some(failing), Order::Go);
    let whole = are_written(rt, alloc, bench.worker.book.bytes(), holds);
    let counts = counts(&bench);
    let_go(bench);
    (whole, counts)
}

// The worker goes on without its book.
#[test]
fn a_book_that_fails_is_written_no_more(rt: HostRuntime) {
    for failing in 0..10u64 {
        let seen = fails_at(&rt, rt.alloc(), failing, (failing as usize).min(9));
        assert!(rt; seen == (true, (failing < 9, 2)), "{failing}");
    }
}

#[test]
fn a_worker_that_quits_leaves_all_as_it_was(rt: HostRuntime) {
    let mut bench = go_with_a_list(&rt, rt.alloc(), None, Order::Quit);
    let unwritten = are_written(&rt, rt.alloc(), bench.worker.book.bytes(), 0);
    let untaped = tape_holds(&bench, &[None; 4]);
    let empty = queue_holds(&rt, &mut bench, 0, &[]);
    let words = words(&mut bench);
    let first = bench.worker.inbox.try_pop(&rt);
    let failed = bench.worker.book_failed;
    let_go(bench);
    assert!(rt; unwritten && untaped && empty && !failed && words == [Some(1), Some(0)]);
    assert!(rt; first == Some(join(&rt, 0, 1_000, member(0, 0))));
}
