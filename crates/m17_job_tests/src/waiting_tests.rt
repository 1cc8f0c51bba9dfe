//! Waits of a receiver, each with the one who ends it in another thread.

use crate::bench::must;
use crate::receiver_bench::{Plan, Started, conn, disc, join, start_over, voice};
use m17_control::{Body, Direct, Event};
use m17_lane::{Popper, Pusher};
use m17_roll::RollSeat;
use m17_samples::{member, peer};
use m17_values::{Heard, Member, Peer};
use std::alloc::Global;
use std::process::Abort;
use std::sync::Wait;
use std::thread;
use std::thread::{Threads, yield_now};
use std::time::{Clock, Duration};

const ONE_PLACE: Plan = Plan {
    letters: "A",
    places: 1,
    patient: false,
    room: 256,
    door: 256,
    cells: 4,
};

const PATIENT: Plan = Plan {
    letters: "A",
    places: 1,
    patient: true,
    room: 256,
    door: 256,
    cells: 4,
};

const TWO_PLACES: Plan = Plan {
    letters: "A",
    places: 2,
    patient: true,
    room: 256,
    door: 256,
    cells: 4,
};

const NARROW: Plan = Plan {
    letters: "A",
    places: 1,
    patient: false,
    room: 2,
    door: 1,
    cells: 0,
};

// The place of a member that has left is free, and its leaving was said.
fn say_leaving<R: Wait>(rt: &R, started: &mut Started, member: Member) {
    started.other.give(member);
    started.notes.push_waiting(rt, member);
}

// A peer joins, leaves and joins again: how many notes its second Join waits for.
fn second_greeting<R: Abort + Threads + Wait + Copy + Send + 'static>(
    rt: &R,
    alloc: Global,
    plan: &Plan,
) -> u64 {
    let heard = [
        conn(rt, peer(1), 0, b'A'),
        disc(rt, peer(1), 1),
        conn(rt, peer(1), 2, b'A'),
    ];
    let heard = must(rt, Vec::from_array(alloc, heard));
    let mut started = start_over(rt, alloc, plan, heard, false);
    let mut after = 0;
    for _event in 0..5u8 {
        match started.inbox.pop_dozing(rt).body {
            Body::Leave { member, .. } => say_leaving(rt, &mut started, member),
            Body::Join { after: notes, .. } => after = notes,
            _ => {}
        }
    }
    join(rt, started);
    after
}

#[test]
fn a_peer_that_comes_again_waits_for_its_note(rt: HostRuntime) {
    for plan in [&ONE_PLACE, &PATIENT] {
        assert!(rt; second_greeting(&rt, rt.alloc(), plan) == 1);
    }
}

// A peer leaves the only place and asks for one again; the note of its leaving comes well before the place is given back. How
// often it joins.
fn joins_of_who_comes_again<R: Abort + Threads + Wait + Copy + Send + 'static>(
    rt: &R,
    alloc: Global,
) -> u32 {
    let heard = [
        conn(rt, peer(1), 0, b'A'),
        disc(rt, peer(1), 1),
        conn(rt, peer(1), 2, b'A'),
    ];
    let heard = must(rt, Vec::from_array(alloc, heard));
    let mut started = start_over(rt, alloc, &ONE_PLACE, heard, false);
    let mut joins = 0u32;
    for _event in 0..5u8 {
        match started.inbox.pop_dozing(rt).body {
            Body::Leave { member, .. } => give_late(rt, &mut started, member),
            Body::Join { .. } => joins = joins.saturating_add(1),
            _ => {}
        }
    }
    join(rt, started);
    joins
}

// The leaving was said, and a while later the place is free.
fn give_late<R: Wait>(rt: &R, started: &mut Started, member: Member) {
    started.notes.push_waiting(rt, member);
    for _turn in 0..1_000u32 {
        yield_now();
    }
    started.other.give(member);
}

#[test]
fn who_comes_again_is_not_turned_away_for_its_own_place(rt: HostRuntime) {
    let joins = joins_of_who_comes_again(&rt, rt.alloc());
    assert!(rt; joins == 2);
}

// Waits for the next event, a Join: its member.
fn next_joined<R: Wait>(rt: &R, started: &mut Started) -> Option<Member> {
    match started.inbox.pop_waiting(rt).body {
        Body::Join { member, .. } => Some(member),
        _ => None,
    }
}

// Nothing comes for a while; then the other seat gives the place back: who joins.
fn joined_behind<R: Abort + Wait>(rt: &R, started: &mut Started, given: Member) -> Option<Member> {
    for _turn in 0..1_000u32 {
        yield_now();
    }
    assert!(rt; started.inbox.try_pop(rt).is_none());
    assert!(rt; started.other.give(given));
    next_joined(rt, started)
}

// A patient receiver claims again until the place is given back that another seat has.
#[test]
fn a_patient_receiver_waits_for_a_place(rt: HostRuntime) {
    let heard = [conn(&rt, peer(1), 0, b'A')];
    let heard = must(&rt, Vec::from_array(rt.alloc(), heard));
    let mut started = start_over(&rt, rt.alloc(), &PATIENT, heard, true);
    let held = started.held;
    let joined = joined_behind(&rt, &mut started, member(0, 0));
    join(&rt, started);
    assert!(rt; held == Some(member(0, 0)) && joined == Some(member(0, 1)));
}

// A place that a known peer has is free at the roll, and a patient receiver waits for another one.
#[test]
fn a_patient_receiver_claims_no_known_place(rt: HostRuntime) {
    let heard = [conn(&rt, peer(1), 0, b'A'), conn(&rt, peer(2), 1, b'A')];
    let heard = must(&rt, Vec::from_array(rt.alloc(), heard));
    let mut started = start_over(&rt, rt.alloc(), &TWO_PLACES, heard, true);
    let held = started.held;
    let first = next_joined(&rt, &mut started);
    assert!(rt; started.other.give(member(1, 0)));
    let second = joined_behind(&rt, &mut started, member(0, 0));
    join(&rt, started);
    assert!(rt; held == Some(member(0, 0)) && first == Some(member(1, 0)));
    assert!(rt; second == Some(member(0, 1)));
}

// A peer comes to the module and says 300 frames.
fn many_frames(rt: &impl Abort, alloc: Global) -> Vec<Heard> {
    let mut heard = Vec::new(alloc);
    must(rt, heard.push(conn(rt, peer(1), 0, b'A')));
    for number in 0..300u16 {
        must(rt, heard.push(voice(peer(1), 1, number)));
    }
    heard
}

// Pops the 303 events of these frames: the number behind the last frame, each being one above the frame before it.
fn frames_in_order<R: Abort + Wait>(rt: &R, started: &mut Started) -> u16 {
    let mut next = 0u16;
    for _event in 0..303u16 {
        if let Body::Packet { packet, .. } = started.inbox.pop_waiting(rt).body {
            assert!(rt; packet.number == next, "frame {next}");
            next = packet.number.saturating_add(1);
        }
    }
    next
}

// An inbox with room for two events holds none up for ever and loses none, while its consumer pops.
#[test]
fn a_full_inbox_loses_nothing(rt: HostRuntime) {
    let heard = many_frames(&rt, rt.alloc());
    let mut started = start_over(&rt, rt.alloc(), &NARROW, heard, false);
    let next = frames_in_order(&rt, &mut started);
    join(&rt, started);
    assert!(rt; next == 300);
}

// A hundred peers ask for a module that isn't served.
fn many_askers(rt: &impl Abort, alloc: Global) -> Vec<Heard> {
    let mut heard = Vec::new(alloc);
    for host in 0..100u8 {
        must(rt, heard.push(conn(rt, peer(host), 0, b'B')));
    }
    heard
}

// To whom the next reply at the door goes.
fn next_peer<R: Wait>(rt: &R, started: &mut Started) -> Peer {
    started.door.pop_waiting(rt).peer
}

// A door with room for one reply is full while the test rests; the receiver goes on when the replies are popped, and
// loses none.
#[test]
fn a_full_door_loses_nothing(rt: HostRuntime) {
    let heard = many_askers(&rt, rt.alloc());
    let mut started = start_over(&rt, rt.alloc(), &NARROW, heard, false);
    thread::sleep(&rt, Duration::from_millis(20));
    for host in 0..100u8 {
        assert!(rt; next_peer(&rt, &mut started) == peer(host), "peer {host}");
    }
    join(&rt, started);
}

// A peer has a place. Two others ask for a module that isn't served, for whose second reply a door of one has no room. Then
// the first leaves, and comes again.
fn leaving_behind_a_full_door(rt: &impl Abort, alloc: Global) -> Vec<Heard> {
    let heard = [
        conn(rt, peer(1), 0, b'A'),
        conn(rt, peer(2), 1, b'B'),
        conn(rt, peer(3), 2, b'B'),
        disc(rt, peer(1), 3),
        conn(rt, peer(1), 4, b'A'),
    ];
    must(rt, Vec::from_array(alloc, heard))
}

// Pops both replies, after a while.
fn open_late<R: Wait + Clock>(rt: &R, door: Popper<Direct>) {
    let mut door = door;
    thread::sleep(rt, Duration::from_millis(20));
    for _reply in 0..2u8 {
        let _ = door.pop_waiting(rt);
    }
}

// What a worker that dozes makes of its inbox, up to the Stop: a place is free, and the leaving said, once it has the Leave.
// How often the peer joins.
fn doze_to_the_end<R: Wait>(
    rt: &R,
    inbox: Popper<Event>,
    notes: Pusher<Member>,
    other: RollSeat,
) -> u32 {
    let (mut inbox, mut notes, mut other) = (inbox, notes, other);
    let mut joins = 0u32;
    for _ in rt.forever() {
        match inbox.pop_dozing(rt).body {
            Body::Leave { member, .. } => {
                other.give(member);
                notes.push_waiting(rt, member);
            }
            Body::Join { .. } => joins = joins.saturating_add(1),
            Body::Stop => return joins,
            _ => {}
        }
    }
    unreachable!()
}

// The receiver of this plan stands at its full door until the worker dozes, and then says that the peer has left: how often
// that joins.
fn joins_behind_a_doze<R: Abort + Threads + Wait + Clock + Copy + Send + Sync + 'static>(
    rt: &R,
    alloc: Global,
    plan: &Plan,
) -> u32 {
    let heard = leaving_behind_a_full_door(rt, alloc);
    let Started {
        running,
        inbox,
        door,
        notes,
        other,
        held: _,
    } = start_over(rt, alloc, plan, heard, false);
    let (_, joins) = thread::join(
        rt,
        move || open_late(rt, door),
        move || doze_to_the_end(rt, inbox, notes, other),
    );
    let _receiver = running.join(rt);
    joins
}

// The receiver waits for what the Leave brings about. Where the Leave could wait for other events, this would never end.
#[test]
fn a_leave_wakes_a_worker_that_dozes(rt: HostRuntime) {
    for patient in [false, true] {
        let plan = Plan {
            patient,
            door: 1,
            ..ONE_PLACE
        };
        let joins = joins_behind_a_doze(&rt, rt.alloc(), &plan);
        assert!(rt; joins == 2, "{patient}");
    }
}
