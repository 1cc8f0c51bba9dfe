//! What no clause says: in which order a sender gets to things, that it ends and sleeps, and what its mouths hold then.
ghost use Rattle.std.specs.Prelude.{◌<◌};
ghost use Rattle.m17_sender.specs.Ready.{IsReady};

use crate::bench::must;
use crate::sender_bench::{
    Far, Laid, answer, bye, done, hello, item, lay, let_far_go, let_sender_go, ping, push_five,
    reply,
};
use m17_control::{Direct, Item, Said};
use m17_crew::Order;
use m17_lane::{Popper, Pusher};
use m17_port_memory::ListMouth;
use m17_samples::frame;
use m17_sender::Sender;
use m17_stream::{FRAME_NUMBERS, StreamPacket, write};
use m17_values::Member;
use std::alloc::Global;
use std::process::Abort;
use std::sync::Wait;
use std::thread;
use std::thread::Threads;
use std::time::{Clock, Duration};

// What is for a member: a PING, an answer, a Bye, or a Hello that waits for so many notes.
enum What {
    Ping,
    Answer,
    Bye,
    Hello(u64),
}

// An item: its queue, 0 to 2, the place and the link of its member, and what it is.
type ItemRow = (u8, u32, u8, What);

// What a datagram is to show: the port that it went to, and how it begins.
type Start = (u16, [u8; 4]);

// What a sender of one link finds when it starts, and what is to be seen when it has ended.
#[derive(Drop)]
struct Scene {
    // Its orders.
    orders: &'static [Order],
    // The calls of its mouth that fail.
    fails: &'static [u64],
    // What its queues hold.
    items: &'static [ItemRow],
    // The links and ports of what its door holds.
    replies: &'static [(u8, u16)],
    // All datagrams that are said, in order.
    said: &'static [Start],
    // The places of the members that are noted, in order.
    noted: &'static [u32],
    // How many items are left in each queue, and whether a Hello is held back there.
    left: [(u32, bool); 3],
}

// A sender is told to go and to stop, with nothing queued, and says nothing.
const QUIET: Scene = Scene {
    orders: &[Order::Go, Order::Stop],
    fails: &[],
    items: &[],
    replies: &[],
    said: &[],
    noted: &[],
    left: [(0, false); 3],
};

fn item_of(row: &ItemRow) -> Item {
    let (_, place, link, what) = row;
    match what {
        What::Ping => ping(*place),
        What::Answer => answer(*place),
        What::Bye => bye(*place, *link),
        What::Hello(after) => hello(*place, *link, *after),
    }
}

fn push_item<R: Wait>(rt: &R, far: &mut Far, row: &ItemRow) {
    let queue = match row.0 {
        0 => &mut far.first,
        1 => &mut far.second,
        _ => &mut far.third,
    };
    queue.push_waiting(rt, item_of(row));
}

// Pushes all that the sender is to find.
fn push_all<R: Wait>(rt: &R, far: &mut Far, scene: &Scene) {
    for order in scene.orders {
        far.orders.push_waiting(rt, *order);
    }
    for row in scene.items {
        push_item(rt, far, row);
    }
    for (link, port) in scene.replies {
        far.door.push_waiting(rt, reply(*link, *port));
    }
}

// A sender with a mouth that keeps what it says, and fails at these calls.
fn lay_list<R: Abort>(rt: &R, alloc: Global, fails: &[u64], door: u32) -> Laid<ListMouth>
    requires { 0 < door }
    ensures { IsReady result.sender }
{
    let fails = must(rt, Vec::from_slice(alloc, fails));
    let mouth = must(rt, ListMouth::make(alloc, 4000, fails));
    lay(rt, alloc, mouth, 512, door)
}

// What a sender said by its link: of each datagram the port it went to and how it begins.
fn said_by(sender: &Sender<ListMouth>, at: usize) -> Option<(u16, [u8; 4])> {
    let mouth = sender.mouths.first()?;
    let (to, gram) = mouth.list().get(at)?;
    match gram.bytes() {
        [a, b, c, d, ..] => Some((to.port, [*a, *b, *c, *d])),
        _ => None,
    }
}

// It said these datagrams and no more.
fn check_said<R: Abort>(rt: &R, sent: &Sender<ListMouth>, wanted: &[Start]) {
    for (at, next) in wanted.iter().enumerate() {
        assert!(rt; said_by(sent, at) == Some(*next), "datagram {at}");
    }
    assert!(rt; said_by(sent, wanted.len()).is_none());
}

// The members of these places are noted, and no more.
fn check_noted<R: Wait + Abort>(rt: &R, notes: &mut Popper<Member>, wanted: &[u32]) {
    for place in wanted {
        assert!(rt; notes.try_pop(rt).map(|member| member.place) == Some(*place));
    }
    assert!(rt; notes.try_pop(rt).is_none());
}

// How many items are left in a queue.
fn count_left<R: Wait>(rt: &R, queue: &mut Popper<Item>) -> u32 {
    for left in 0..64 {
        if queue.try_pop(rt).is_none() {
            return left;
        }
    }
    64
}

// So many items are left in each queue, and a Hello is held back there or not.
fn check_left<R: Wait + Abort>(rt: &R, sent: &mut Sender<ListMouth>, wanted: &[(u32, bool); 3]) {
    let queues = sent.queues.first_mut().expect(rt, "one module");
    let cells = sent.held.first().expect(rt, "one module");
    for (at, next) in wanted.iter().enumerate() {
        let queue = queues.get_mut(at).expect(rt, "three places");
        let cell = cells.get(at).expect(rt, "three places");
        let seen = (count_left(rt, queue), cell.is_some());
        assert!(rt; seen == *next, "queue {at}");
    }
}

// Has a sender go, and looks at all that is to be seen then.
fn play<R: Wait + Abort>(rt: &R, alloc: Global, scene: &Scene) {
    let Laid { sender, mut far } = lay_list(rt, alloc, scene.fails, 256);
    push_all(rt, &mut far, scene);
    let mut sent = done(rt, sender);
    check_said(rt, &sent, scene.said);
    check_noted(rt, &mut far.notes, scene.noted);
    check_left(rt, &mut sent, &scene.left);
    let_sender_go(sent);
    let_far_go(far);
}

#[test]
fn a_bye_is_said_before_the_greeting_that_waits_for_it(rt: HostRuntime) {
    const SCENE: Scene = Scene {
        items: &[(0, 0, 0, What::Hello(1)), (1, 1, 0, What::Bye)],
        said: &[(1, *b"DISC"), (0, *b"ACKN")],
        noted: &[1],
        ..QUIET
    };
    play(&rt, rt.alloc(), &SCENE);
}

#[test]
fn other_queues_go_on_while_a_greeting_waits(rt: HostRuntime) {
    const SCENE: Scene = Scene {
        items: &[
            (0, 0, 0, What::Hello(2)),
            (0, 0, 0, What::Ping),
            (1, 1, 0, What::Ping),
            (1, 1, 0, What::Answer),
            (1, 1, 0, What::Bye),
            (2, 2, 0, What::Answer),
            (2, 2, 0, What::Ping),
            (2, 2, 0, What::Ping),
            (2, 2, 0, What::Bye),
        ],
        said: &[
            (1, *b"PING"),
            (2, *b"NACK"),
            (1, *b"NACK"),
            (2, *b"PING"),
            (1, *b"DISC"),
            (2, *b"PING"),
            (2, *b"DISC"),
            (0, *b"ACKN"),
            (0, *b"PING"),
        ],
        noted: &[1, 2],
        ..QUIET
    };
    play(&rt, rt.alloc(), &SCENE);
}

// The greeting is held back, and what is behind it was not popped.
#[test]
fn a_greeting_that_waits_in_vain_is_handed_back(rt: HostRuntime) {
    const SCENE: Scene = Scene {
        items: &[
            (0, 0, 0, What::Hello(1)),
            (0, 0, 0, What::Ping),
            (1, 1, 0, What::Hello(0)),
        ],
        said: &[(1, *b"ACKN")],
        left: [(1, true), (0, false), (0, false)],
        ..QUIET
    };
    play(&rt, rt.alloc(), &SCENE);
}

#[test]
fn a_sender_that_is_to_quit_touches_nothing(rt: HostRuntime) {
    const SCENE: Scene = Scene {
        orders: &[Order::Quit],
        items: &[(0, 0, 0, What::Ping), (0, 0, 0, What::Bye)],
        left: [(2, false), (0, false), (0, false)],
        ..QUIET
    };
    play(&rt, rt.alloc(), &SCENE);
}

// The lost Bye is noted too.
#[test]
fn a_datagram_that_a_mouth_fails_to_say_is_lost_alone(rt: HostRuntime) {
    const SCENE: Scene = Scene {
        fails: &[0, 2],
        items: &[
            (0, 0, 0, What::Ping),
            (0, 0, 0, What::Answer),
            (0, 0, 0, What::Bye),
            (0, 0, 0, What::Ping),
        ],
        said: &[(0, *b"NACK"), (0, *b"PING")],
        noted: &[0],
        ..QUIET
    };
    play(&rt, rt.alloc(), &SCENE);
}

#[test]
fn what_names_no_link_or_place_is_passed_over(rt: HostRuntime) {
    const SCENE: Scene = Scene {
        items: &[
            (0, 0, 1, What::Bye),
            (0, 3, 0, What::Bye),
            (0, 0, 255, What::Hello(9)),
            (0, 2, 0, What::Ping),
        ],
        replies: &[(1, 7), (0, 8), (200, 9)],
        said: &[(8, *b"NACK"), (2, *b"PING")],
        ..QUIET
    };
    play(&rt, rt.alloc(), &SCENE);
}

// Three hundred replies.
fn push_replies<R: Wait>(rt: &R, door: &mut Pusher<Direct>) {
    for _reply in 0..300u32 {
        door.push_waiting(rt, reply(0, 9));
    }
}

// After the stop order a turn in which the door alone had something is not the last: a turn takes 256 of the 300
// replies.
#[test]
fn a_turn_that_only_answers_is_not_the_last(rt: HostRuntime) {
    let Laid { sender, mut far } = lay_list(&rt, rt.alloc(), &[], 512);
    push_all(&rt, &mut far, &QUIET);
    push_replies(&rt, &mut far.door);
    let sent = done(&rt, sender);
    let last = [said_by(&sent, 299), said_by(&sent, 300)];
    let_sender_go(sent);
    let_far_go(far);
    assert!(rt; last == [Some((9, *b"NACK")), None]);
}

// Pushes bursts to the three queues and the door, each after a rest in which the sender falls asleep, and then the stop
// order, after one more rest.
fn feed<R: Wait + Clock>(rt: &R, far: Far, bursts: u32) -> Far {
    let mut far = far;
    far.orders.push_waiting(rt, Order::Go);
    for burst in 0..bursts {
        thread::sleep(rt, Duration::from_millis(1));
        push_five(rt, &mut far.first, 0);
        if burst % 2 == 0 {
            push_five(rt, &mut far.second, 1);
        }
        if burst % 3 == 0 {
            push_five(rt, &mut far.third, 2);
        }
        far.door.push_waiting(rt, reply(0, 9));
    }
    thread::sleep(rt, Duration::from_millis(5));
    far.orders.push_waiting(rt, Order::Stop);
    far
}

// Which port a datagram went to, and whether it is a PING.
fn kind_at(sender: &Sender<ListMouth>, at: usize) -> Option<(u16, bool)> {
    let mouth = sender.mouths.first()?;
    let (to, gram) = mouth.list().get(at)?;
    Some((to.port, matches!(gram.bytes(), [b'P', ..])))
}

// How many datagrams went to a port, where they are as `feed` gave them: every fifth is a PING, but at port 9 none. A
// thousand more for each that is not.
fn count_to(sender: &Sender<ListMouth>, port: u16) -> u32 {
    let mut count = 0u32;
    for at in 0..4000usize {
        if let Some((to, ping)) = kind_at(sender, at)
            && to == port
        {
            let wanted = count % 5 == 0 && port != 9;
            count = count.saturating_add(if ping == wanted { 1 } else { 1000 });
        }
    }
    count
}

// How many datagrams went to the ports of the three queues and of the door, where bursts come while the sender sleeps.
fn count_bursts<R: Threads + Wait + Clock + Abort + Sync>(rt: &R, alloc: Global) -> [u32; 4] {
    let Laid { sender, far } = lay_list(rt, alloc, &[], 256);
    let (_, sent) = thread::join(
        rt,
        move || feed(rt, far, 300),
        move || -> Sender<ListMouth>
            requires { IsReady sender }
        { done(rt, sender) },
    );
    [0, 1, 2, 9].map(|port| count_to(&sent, port))
}

// A missed wake-up leaves the sender asleep for ever: the gate stops a test after 60 seconds, and this one takes one.
#[test]
fn bursts_over_several_queues_wake_the_sender(rt: HostRuntime) {
    assert!(rt; count_bursts(&rt, rt.alloc()) == [1500, 750, 500, 300]);
}

// Whether the datagram at this place went to this port, and holds the packet's bytes and no more.
fn says_packet(sender: &Sender<ListMouth>, at: usize, port: u16, packet: &StreamPacket) -> bool {
    match sender.mouths.first().and_then(|mouth| mouth.list().get(at)) {
        Some((to, gram)) => to.port == port && gram.bytes() == write(packet).as_slice(),
        None => false,
    }
}

// It said these packets to these ports and no more.
fn check_packets<R: Abort>(rt: &R, sent: &Sender<ListMouth>, wanted: &[(u16, StreamPacket)]) {
    for (at, (port, packet)) in wanted.iter().enumerate() {
        assert!(rt; says_packet(sent, at, *port, packet), "datagram {at}");
    }
    assert!(rt; said_by(sent, wanted.len()).is_none());
}

// A frame for the member at a place, and an echo.
fn told(place: u32, packet: &StreamPacket) -> Item {
    let packet = *packet;
    item(
        place,
        0,
        Said::Frame {
            position: 0,
            packet,
        },
    )
}

fn echoed(place: u32, packet: &StreamPacket) -> Item {
    let packet = *packet;
    item(
        place,
        0,
        Said::Echo {
            position: 0,
            packet,
        },
    )
}

// A frame to three listeners, and to the first of them another one, the same again, and an echo.
fn push_frames<R: Wait>(rt: &R, far: &mut Far, one: &StreamPacket, other: &StreamPacket) {
    far.first.push_waiting(rt, told(0, one));
    far.first.push_waiting(rt, told(0, other));
    far.first.push_waiting(rt, told(0, one));
    far.first.push_waiting(rt, echoed(0, other));
    far.second.push_waiting(rt, told(1, one));
    far.third.push_waiting(rt, told(2, one));
}

#[test]
fn frames_and_echoes_are_said_with_their_bytes(rt: HostRuntime) {
    let Laid { sender, mut far } = lay_list(&rt, rt.alloc(), &[], 256);
    push_all(&rt, &mut far, &QUIET);
    let one = frame(0x1234, 7, false);
    let other = frame(!0x1234, 7, false);
    push_frames(&rt, &mut far, &one, &other);
    let sent = done(&rt, sender);
    check_packets(
        &rt,
        &sent,
        &[
            (0, one),
            (1, one),
            (2, one),
            (0, other),
            (0, one),
            (0, other),
        ],
    );
    let_sender_go(sent);
    let_far_go(far);
}

// A frame that differs from this one in one field.
fn unlike(packet: &StreamPacket, field: u32) -> StreamPacket {
    let mut other = *packet;
    match field {
        0 => other.sid = !other.sid,
        1 => other.number = (other.number + 1) % FRAME_NUMBERS,
        2 => other.last = !other.last,
        3 => other.payload[0] = 1,
        4 => other.payload[15] = 1,
        _ => {
            let mut lsd = other.lsd;
            match field {
                5 => lsd.dst = lsd.src,
                6 => lsd.src = lsd.dst,
                7 => lsd.kind = !lsd.kind,
                _ => lsd.meta[13] = 1,
            }
            other.lsd = lsd;
        }
    }
    other
}

// A frame nine times, and behind each another that is unlike it in one field.
fn push_unlike<R: Wait>(rt: &R, end: &mut Pusher<Item>, packet: &StreamPacket) {
    for field in 0..9u32 {
        end.push_waiting(rt, told(0, packet));
        end.push_waiting(rt, told(0, &unlike(packet, field)));
    }
}

// Both of each pair were said.
fn check_unlike<R: Abort>(rt: &R, sent: &Sender<ListMouth>, packet: &StreamPacket) {
    for field in 0..9u32 {
        let at = 2 * field as usize;
        assert!(rt; says_packet(sent, at, 0, packet), "before field {field}");
        let other = unlike(packet, field);
        assert!(rt; says_packet(sent, at + 1, 0, &other), "field {field}");
    }
}

#[test]
fn a_frame_unlike_the_last_in_one_field_is_said_as_it_is(rt: HostRuntime) {
    let Laid { sender, mut far } = lay_list(&rt, rt.alloc(), &[], 256);
    push_all(&rt, &mut far, &QUIET);
    let packet = frame(0x1234, 7, false);
    push_unlike(&rt, &mut far.first, &packet);
    let sent = done(&rt, sender);
    check_unlike(&rt, &sent, &packet);
    let_sender_go(sent);
    let_far_go(far);
}
