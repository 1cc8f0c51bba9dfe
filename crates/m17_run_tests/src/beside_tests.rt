//! Modules are served beside each other, and links too; what is to be said goes out before the ears have ended, wherever it
//! is queued; a patient run waits at a full queue; what one link hears goes out by another; and a member keeps its place. The
//! devices wait for one another.

use crate::bench::{
    a_book, a_mouth, conn, disc, must, one_book, one_ear, pair_of_books, plan, two_books, two_ears,
};
use crate::meeting::{
    Awaiting, MeetingBook, MeetingEar, MeetingMouth, counts_of, new_count, pair_of_counts,
};
use m17_crew::StdCrew;
use m17_port_memory::{ListBook, ListMouth, ScriptEar};
use m17_reflect::{Returned, reflect};
use m17_samples::{frame, said};
use m17_values::Heard;
use std::alloc::Global;
use std::process::Abort;
use std::sync::Wait;
use std::thread::Threads;

// What comes back of a run with devices that meet.
type Met = Returned<MeetingEar, MeetingMouth, ListBook>;

// Runs two modules with these books over one link that hears nothing.
fn run_modules<R: Threads + Wait + Abort + Copy + Send + 'static>(
    rt: &R,
    alloc: Global,
    one: MeetingBook,
    two: MeetingBook,
) -> Returned<ScriptEar, ListMouth, MeetingBook> {
    let plan = plan(rt, "AB", 4);
    let ears = one_ear(rt, alloc, ScriptEar::new(Vec::new(alloc)));
    let mouths = a_mouth(rt, alloc, 64);
    let traces = one_book(rt, alloc, MeetingBook::alone());
    let books = two_books(rt, alloc, one, two);
    let modules = plan.modules.count();
    assert!(rt; books.len() == modules as usize);
    let mut crew = StdCrew::new();
    must(
        rt,
        reflect(rt, alloc, &plan, ears, mouths, traces, books, &mut crew),
    )
}

// Each module's book waits at its first write for the other module's first write.
#[test]
fn two_modules_at_once(rt: HostRuntime) {
    let (one, two) = pair_of_counts(&rt, rt.alloc());
    let done = run_modules(
        &rt,
        rt.alloc(),
        MeetingBook::new(one),
        MeetingBook::new(two),
    );
    assert!(rt; !done.book_failed && !done.lost);
    drop(done);
}

// Runs one module with so many places over two links with these ears and mouths.
fn run_links<R: Threads + Wait + Abort + Copy + Send + 'static>(
    rt: &R,
    alloc: Global,
    places: u32,
    ears: (MeetingEar, MeetingEar),
    mouths: (MeetingMouth, MeetingMouth),
) -> Met {
    let plan = plan(rt, "A", places);
    let ears = two_ears(rt, alloc, ears.0, ears.1);
    let mouths = must(rt, Vec::from_array(alloc, [mouths.0, mouths.1]));
    let traces = pair_of_books(rt, alloc, 8_192);
    let books = a_book(rt, alloc, 8_192);
    let modules = plan.modules.count();
    assert!(rt; books.len() == modules as usize);
    let mut crew = StdCrew::new();
    must(
        rt,
        reflect(rt, alloc, &plan, ears, mouths, traces, books, &mut crew),
    )
}

// Runs two links each of whose ears waits at its first call for the other one's first call.
fn run_ends<R: Threads + Wait + Abort + Copy + Send + 'static>(rt: &R, alloc: Global) -> Met {
    let (one, two) = pair_of_counts(rt, alloc);
    let (three, four) = pair_of_counts(rt, alloc);
    let first = must(rt, Vec::from_array(alloc, [(1, Heard::End)]));
    let second = must(rt, Vec::from_array(alloc, [(1, Heard::End)]));
    run_links(
        rt,
        alloc,
        4,
        (MeetingEar::new(first, one), MeetingEar::new(second, two)),
        (MeetingMouth::new(three, 0), MeetingMouth::new(four, 0)),
    )
}

#[test]
fn two_links_at_once(rt: HostRuntime) {
    let done = run_ends(&rt, rt.alloc());
    assert!(rt; !done.lost && !done.book_failed);
    drop(done);
}

// A peer comes to the module, says ten frames once the other count is so high, and leaves once it is as high as `until`.
fn ten_frames(
    rt: &impl Abort,
    alloc: Global,
    number: u8,
    awaited: u64,
    until: u64,
) -> Vec<Awaiting> {
    let mut entries = Vec::new(alloc);
    must(rt, entries.push((0, conn(rt, number, 0, b'A'))));
    for at in 0..10u16 {
        let bytes = m17_stream::write(&frame(u16::from(number), at, at == 9));
        must(rt, entries.push((awaited, said(number, 100, &bytes))));
    }
    must(rt, entries.push((until, disc(rt, number, 200))));
    must(rt, entries.push((until, Heard::End)));
    entries
}

// Runs two links in one module. The first link's peer talks once the second link's mouth has said its peer's ACKN, the
// second link's peer once that mouth has said ten frames; and the first leaves once it has said that the second has left.
fn run_crossing<R: Threads + Wait + Abort + Copy + Send + 'static>(rt: &R, alloc: Global) -> Met {
    let of_ears = new_count(rt, alloc);
    let of_first = new_count(rt, alloc);
    let of_second = new_count(rt, alloc);
    let by_first = ten_frames(rt, alloc, 1, 1, 12);
    let by_second = ten_frames(rt, alloc, 2, 11, 11);
    let first = MeetingEar::new(by_first, counts_of(rt, &of_ears, &of_second));
    let second = MeetingEar::new(by_second, counts_of(rt, &of_ears, &of_second));
    let mouths = (
        MeetingMouth::new(counts_of(rt, &of_first, &of_ears), 0),
        MeetingMouth::new(counts_of(rt, &of_second, &of_ears), 0),
    );
    run_links(rt, alloc, 4, (first, second), mouths)
}

#[test]
fn frames_cross_from_link_to_link(rt: HostRuntime) {
    let done = run_crossing(&rt, rt.alloc());
    assert!(rt; !done.lost && !done.book_failed);
    assert!(rt; done.admitted.as_slice() == [20].as_slice());
    for mouth in done.mouths.iter() {
        assert!(rt; mouth.said == 12 && mouth.frames == 10);
    }
    drop(done);
}

// Runs two links in one module that has one place. The second link's peer asks once the first link's is in, and that one
// speaks once the second link's mouth has answered.
fn run_one_place<R: Threads + Wait + Abort + Copy + Send + 'static>(rt: &R, alloc: Global) -> Met {
    let of_ears = new_count(rt, alloc);
    let of_first = new_count(rt, alloc);
    let of_second = new_count(rt, alloc);
    let spoken = said(1, 100, &m17_stream::write(&frame(7, 0, true)));
    let by_first = [(0, conn(rt, 1, 0, b'A')), (1, spoken), (1, Heard::End)];
    let by_second = [(1, conn(rt, 2, 50, b'A')), (1, Heard::End)];
    let by_first = must(rt, Vec::from_array(alloc, by_first));
    let by_second = must(rt, Vec::from_array(alloc, by_second));
    let first = MeetingEar::new(by_first, counts_of(rt, &of_ears, &of_second));
    let second = MeetingEar::new(by_second, counts_of(rt, &of_ears, &of_first));
    let mouths = (
        MeetingMouth::new(counts_of(rt, &of_first, &of_ears), 0),
        MeetingMouth::new(counts_of(rt, &of_second, &of_ears), 0),
    );
    run_links(rt, alloc, 1, (first, second), mouths)
}

// How much each of the two mouths said, and how many NACKs the second one.
fn by_both_mouths(done: &Met) -> Option<(u64, u64, u64)> {
    let first = done.mouths.first()?;
    let second = done.mouths.get(1)?;
    Some((first.said, second.said, second.nacks))
}

// The second link's peer is told a NACK and nothing else. The first link's keeps the place: it is told an ACKN, what it
// says then is admitted, and at the end of its link it is told to go.
#[test]
fn a_member_keeps_its_place_from_another_link(rt: HostRuntime) {
    let done = run_one_place(&rt, rt.alloc());
    assert!(rt; !done.lost && !done.book_failed);
    assert!(rt; done.admitted.as_slice() == [1].as_slice());
    let said = by_both_mouths(&done).expect(&rt, "two mouths");
    drop(done);
    assert!(rt; said == (2, 1, 1));
}

// Runs two modules over one link with these devices.
fn run_link<R: Threads + Wait + Abort + Copy + Send + 'static>(
    rt: &R,
    alloc: Global,
    places: u32,
    patient: bool,
    ear: MeetingEar,
    mouth: MeetingMouth,
) -> Met {
    let mut plan = plan(rt, "AB", places);
    plan.patient = patient;
    let ears = one_ear(rt, alloc, ear);
    let mouths = must(rt, Vec::from_array(alloc, [mouth]));
    let traces = a_book(rt, alloc, 100_000);
    let books = pair_of_books(rt, alloc, 100_000);
    let modules = plan.modules.count();
    assert!(rt; books.len() == modules as usize);
    let mut crew = StdCrew::new();
    must(
        rt,
        reflect(rt, alloc, &plan, ears, mouths, traces, books, &mut crew),
    )
}

// Who asks for which module: the answers come by queues of both modules and of several places, and by the door.
const ASKING: [(u8, u8); 4] = [(1, b'B'), (2, b'B'), (3, b'A'), (4, b'D')];

// Each CONN is heard once the mouth has answered those before it.
fn askers(rt: &impl Abort, alloc: Global) -> Vec<Awaiting> {
    let mut entries = Vec::new(alloc);
    for (at, (number, letter)) in ASKING.iter().enumerate() {
        must(rt, entries.push((at as u64, conn(rt, *number, 0, *letter))));
    }
    must(rt, entries.push((ASKING.len() as u64, Heard::End)));
    entries
}

// After each CONN the ear waits until the mouth has answered it.
#[test]
fn said_while_heard(rt: HostRuntime) {
    let (of_ear, of_mouth) = pair_of_counts(&rt, rt.alloc());
    let ear = MeetingEar::new(askers(&rt, rt.alloc()), of_ear);
    let mouth = MeetingMouth::new(of_mouth, 0);
    let done = run_link(&rt, rt.alloc(), 80, false, ear, mouth);
    assert!(rt; !done.lost && !done.book_failed);
    drop(done);
}

// Two peers are in a module, and the first says frames, each of which is heard once the mouth has said the one before.
fn frames_in_turn(rt: &impl Abort, alloc: Global) -> Vec<Awaiting> {
    let mut entries = Vec::new(alloc);
    must(rt, entries.push((0, conn(rt, 1, 0, b'A'))));
    must(rt, entries.push((1, conn(rt, 2, 0, b'A'))));
    for at in 0..4u16 {
        let bytes = m17_stream::write(&frame(7, at, at == 3));
        must(rt, entries.push((u64::from(at) + 2, said(1, 0, &bytes))));
    }
    must(rt, entries.push((6, Heard::End)));
    entries
}

// A frame wakes the worker of its module, which dozes where time alone passes.
#[test]
fn each_frame_is_said_before_the_next_is_heard(rt: HostRuntime) {
    let (of_ear, of_mouth) = pair_of_counts(&rt, rt.alloc());
    let ear = MeetingEar::new(frames_in_turn(&rt, rt.alloc()), of_ear);
    let mouth = MeetingMouth::new(of_mouth, 0);
    let done = run_link(&rt, rt.alloc(), 4, false, ear, mouth);
    assert!(rt; !done.lost && !done.book_failed);
    drop(done);
}

// So many frames are on their way where a mouth waits at the first one and nothing more can be heard: that one, 64 in the
// queue, one that the worker offers, 256 in the inbox, and one that the receiver pushes.
const ON_THE_WAY: u64 = 323;

// Two peers have both places, a third is turned away; the first says 330 frames, and the third comes when the second has
// left.
fn full_house(rt: &impl Abort, alloc: Global) -> Vec<Awaiting> {
    let mut entries = Vec::new(alloc);
    for number in 1..4u8 {
        must(rt, entries.push((0, conn(rt, number, 0, b'B'))));
    }
    for at in 0..330u16 {
        let bytes = m17_stream::write(&frame(7, at, at == 329));
        must(rt, entries.push((0, said(1, 0, &bytes))));
    }
    must(rt, entries.push((0, disc(rt, 2, 0))));
    must(rt, entries.push((0, conn(rt, 3, 0, b'B'))));
    must(rt, entries.push((0, disc(rt, 3, 0))));
    must(rt, entries.push((0, disc(rt, 1, 0))));
    must(rt, entries.push((0, Heard::End)));
    entries
}

// Runs the full house, where the mouth waits at the first frame until so many frames were heard.
fn run_full_house<R: Threads + Wait + Abort + Copy + Send + 'static>(
    rt: &R,
    alloc: Global,
    patient: bool,
    frames: u64,
) -> Met {
    let (of_ear, of_mouth) = pair_of_counts(rt, alloc);
    let ear = MeetingEar::new(full_house(rt, alloc), of_ear);
    let mouth = MeetingMouth::new(of_mouth, frames.saturating_add(3));
    run_link(rt, alloc, 2, patient, ear, mouth)
}

// Of the one mouth: whether what it waited for came, how much it said, and how many frames.
fn by_the_mouth(done: &Met) -> Option<(bool, u64, u64)> {
    let mouth = done.mouths.first()?;
    Some((mouth.met, mouth.said, mouth.frames))
}

// The mouth waits until all lanes on the way are full, or gives up after a while: a receiver that found the inbox full before
// the worker popped its first event sleeps until half of it is free. The queue is full by then in both cases, and in a patient
// run no frame is left out.
#[test]
fn a_patient_run_waits_at_full_queues(rt: HostRuntime) {
    let done = run_full_house(&rt, rt.alloc(), true, ON_THE_WAY);
    assert!(rt; !done.lost && !done.book_failed);
    assert!(rt; done.missed.as_slice() == [0, 0].as_slice());
    assert!(rt; done.admitted.as_slice() == [0, 330].as_slice());
    let (_, said, frames) = by_the_mouth(&done).expect(&rt, "a mouth");
    assert!(rt; said == 337 && frames == 330);
    drop(done);
}

// The mouth waits until all frames were heard, more than fit on the way. In another run some are left out, and counted.
#[test]
fn frames_are_left_out_at_full_queues_and_counted(rt: HostRuntime) {
    let done = run_full_house(&rt, rt.alloc(), false, 330);
    assert!(rt; !done.lost && !done.book_failed);
    assert!(rt; done.admitted.as_slice() == [0, 330].as_slice());
    let missed = *done.missed.get(1).expect(&rt, "a count");
    let (met, _, frames) = by_the_mouth(&done).expect(&rt, "a mouth");
    drop(done);
    assert!(rt; met && missed != 0, "the queue came to be full");
    assert!(rt; frames.saturating_add(missed) == 330);
}
