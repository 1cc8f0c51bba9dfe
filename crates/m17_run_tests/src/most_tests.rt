//! What no clause says: that there is memory for a run of the most links, modules and places. A body that finds none for
//! more queues than some number is proved. Here there are 6,656, and members have such beyond the first 4,096 as well.
ghost use Rattle.std.specs.Prelude.{◌≡◌, All, Some, vec_len};
ghost use Rattle.m17_ports.specs.Told.{StartsEmpty};

use crate::bench::{Ran, book, must, name, plan};
use m17_control::{Control, ModuleLetter, write};
use m17_crew::StdCrew;
use m17_port_memory::{ListBook, ListMouth, ScriptEar};
use m17_ports::Ear;
use m17_reflect::reflect;
use m17_values::{Gram, Heard, Peer};
use std::alloc::Global;
use std::process::Abort;
use std::sync::Wait;
use std::thread::Threads;

const LETTERS: &str = "ABCDEFGHIJKLMNOPQRSTUVWXYZ";

// One peer more than there are places.
const PEERS: u16 = 257;

fn asker(number: u16) -> Peer {
    Peer {
        six: false,
        ip: [0; 16],
        port: number,
    }
}

// A peer asks for a module: the first for Z, and each for the one before, A behind Z.
fn asks(rt: &impl Abort, number: u16) -> Heard {
    let letter = b'Z' - (number % 26) as u8;
    let module = ModuleLetter::new(letter).expect(rt, "a letter");
    let from = name(rt);
    Heard::Datagram {
        from: asker(number),
        at: 0,
        bytes: Gram::of(write(&Control::Conn { from, module }).as_slice()),
    }
}

// What the first link hears.
fn all_ask(rt: &impl Abort, alloc: Global) -> Vec<Heard> {
    let mut heard = Vec::new(alloc);
    for number in 0..PEERS {
        must(rt, heard.push(asks(rt, number)));
    }
    must(rt, heard.push(Heard::End));
    heard
}

fn four_ears<E: Ear + Drop, R: Abort>(rt: &R, alloc: Global, a: E, b: E, c: E, d: E) -> Vec<E>
    requires a { StartsEmpty (E.told a).heard }
    requires b { StartsEmpty (E.told b).heard }
    requires c { StartsEmpty (E.told c).heard }
    requires d { StartsEmpty (E.told d).heard }
    ensures count { vec_len result ≡ 4 }
    ensures new { All (λ ear. StartsEmpty (E.told ear).heard) result.items }
{
    let mut all = must(rt, Vec::with_capacity(alloc, 4));
    all.push_reserved(a);
    all.push_reserved(b);
    all.push_reserved(c);
    all.push_reserved(d);
    all
}

fn four_mouths(rt: &impl Abort, alloc: Global) -> Vec<ListMouth> {
    let mut mouths = Vec::new(alloc);
    for _made in 0..4 {
        let mouth = must(rt, ListMouth::make(alloc, 600, Vec::new(alloc)));
        must(rt, mouths.push(mouth));
    }
    mouths
}

fn books<R: Abort>(rt: &R, alloc: Global, count: u32) -> Vec<ListBook>
    ensures count { vec_len result ≡ count }
    ensures new { All (λ book. StartsEmpty (Some book.written)) result.items }
{
    let mut books = Vec::new(alloc);
    for _made in 0..count {
        must(rt, books.push(book(rt, alloc, 10_000)));
    }
    books
}

fn run<R: Threads + Wait + Abort + Copy + Send + 'static>(
    rt: &R,
    alloc: Global,
) -> Ran<ScriptEar, ListMouth, ListBook> {
    let plan = plan(rt, LETTERS, 256);
    let first = ScriptEar::new(all_ask(rt, alloc));
    let second = ScriptEar::new(Vec::new(alloc));
    let third = ScriptEar::new(Vec::new(alloc));
    let fourth = ScriptEar::new(Vec::new(alloc));
    let ears = four_ears(rt, alloc, first, second, third, fourth);
    let mouths = four_mouths(rt, alloc);
    let traces = books(rt, alloc, 4);
    let modules = plan.modules.count();
    let books = books(rt, alloc, modules);
    assert!(rt; mouths.len() == 4 && traces.len() == 4 && books.len() == modules as usize);
    let mut crew = StdCrew::new();
    reflect(rt, alloc, &plan, ears, mouths, traces, books, &mut crew)
}

// How many datagrams of a mouth begin so.
fn count_of(mouth: Option<&ListMouth>, begin: &[u8]) -> usize {
    match mouth {
        Some(mouth) => {
            let begins = |said: &&(Peer, Gram)| said.1.bytes().starts_with(begin);
            mouth.list().iter().filter(begins).count()
        }
        None => 0,
    }
}

// All places are taken, and each who has one is told so and, at the end, that it is out; one peer is turned away.
#[test]
fn a_run_has_26_modules_and_256_places(rt: HostRuntime) {
    let done = must(&rt, run(&rt, rt.alloc()));
    let mouth = done.mouths.first();
    let said = [
        count_of(mouth, b"ACKN"),
        count_of(mouth, b"NACK"),
        count_of(mouth, b"DISC"),
    ];
    let whole = !done.lost && !done.book_failed;
    drop(done);
    assert!(rt; whole && said == [256, 1, 256]);
}
