//! Plans, devices and entries for the tests of a run.
ghost use Rattle.std.specs.Prelude.{◌≡◌, All, Err, Ok, Some, false, vec_len};
ghost use Rattle.m17_ports.specs.Told.{StartsEmpty};
ghost use Rattle.m17_plan.specs.Planned.{IsPlan};

use m17_callsign::{Address, CallAddress};
use m17_control::{Control, ModuleLetter, Modules, write};
use m17_plan::Plan;
use m17_port_memory::{ListBook, ListMouth};
use m17_ports::{Book, Ear};
use m17_reflect::{Refused, Returned};
use m17_samples::{ab1cd, said};
use m17_values::Heard;
use std::alloc::Global;
use std::process::Abort;

// How a run ended.
pub(crate) type Ran<E, M, B> = Result<Returned<E, M, B>, Refused<E, M, B>>;

// What was made. Where it was not, the test ends.
pub(crate) fn must<T, E: Drop, R: Abort>(rt: &R, made: Result<T, E>) -> T
    ensures { made ≡ Ok result }
{
    made.ok().expect(rt, "made")
}

// What was refused. Where it was made, the test ends.
pub(crate) fn must_not<T: Drop, E, R: Abort>(rt: &R, made: Result<T, E>) -> E
    ensures { made ≡ Err result }
{
    made.err().expect(rt, "not made")
}

// The name of the reflector.
pub(crate) fn name(rt: &impl Abort) -> CallAddress {
    let address = Address::new(0x13_89F9_BAED).expect(rt, "an address");
    CallAddress::new(address).expect(rt, "a callsign")
}

// A plan of these modules and places that is not patient.
pub(crate) fn plan(rt: &impl Abort, letters: &str, places: u32) -> Plan
    ensures plan { IsPlan result }
    ensures patient { result.patient ≡ false }
{
    let modules = must(rt, Modules::read(letters));
    assert!(rt; modules.count() != 0);
    assert!(rt; 0 < places && places <= 256);
    Plan {
        name: name(rt),
        modules,
        parrots: Modules::none(),
        places,
        patient: false,
        entries: 2,
        limit: 180_000,
    }
}

pub(crate) fn one_ear<E: Ear + Drop, R: Abort>(rt: &R, alloc: Global, a: E) -> Vec<E>
    requires a { StartsEmpty (E.told a).heard }
    ensures count { vec_len result ≡ 1 }
    ensures new { All (λ ear. StartsEmpty (E.told ear).heard) result.items }
{
    let mut all = must(rt, Vec::with_capacity(alloc, 1));
    all.push_reserved(a);
    all
}

pub(crate) fn two_ears<E: Ear + Drop, R: Abort>(rt: &R, alloc: Global, a: E, b: E) -> Vec<E>
    requires a { StartsEmpty (E.told a).heard }
    requires b { StartsEmpty (E.told b).heard }
    ensures count { vec_len result ≡ 2 }
    ensures new { All (λ ear. StartsEmpty (E.told ear).heard) result.items }
{
    let mut all = must(rt, Vec::with_capacity(alloc, 2));
    all.push_reserved(a);
    all.push_reserved(b);
    all
}

pub(crate) fn one_book<B: Book + Drop, R: Abort>(rt: &R, alloc: Global, a: B) -> Vec<B>
    requires a { StartsEmpty (B.told a).written }
    ensures count { vec_len result ≡ 1 }
    ensures new { All (λ book. StartsEmpty (B.told book).written) result.items }
{
    let mut all = must(rt, Vec::with_capacity(alloc, 1));
    all.push_reserved(a);
    all
}

pub(crate) fn two_books<B: Book + Drop, R: Abort>(rt: &R, alloc: Global, a: B, b: B) -> Vec<B>
    requires a { StartsEmpty (B.told a).written }
    requires b { StartsEmpty (B.told b).written }
    ensures count { vec_len result ≡ 2 }
    ensures new { All (λ book. StartsEmpty (B.told book).written) result.items }
{
    let mut all = must(rt, Vec::with_capacity(alloc, 2));
    all.push_reserved(a);
    all.push_reserved(b);
    all
}

// A book with this room.
pub(crate) fn book<R: Abort>(rt: &R, alloc: Global, room: usize) -> ListBook
    ensures { StartsEmpty (Some result.written) }
{
    must(rt, ListBook::make(alloc, room, Vec::new(alloc)))
}

// Books with this room, for one link or module, two or three.
pub(crate) fn a_book<R: Abort>(rt: &R, alloc: Global, room: usize) -> Vec<ListBook>
    ensures count { vec_len result ≡ 1 }
    ensures new { All (λ book. StartsEmpty (Some book.written)) result.items }
{
    one_book(rt, alloc, book(rt, alloc, room))
}

pub(crate) fn pair_of_books<R: Abort>(rt: &R, alloc: Global, room: usize) -> Vec<ListBook>
    ensures count { vec_len result ≡ 2 }
    ensures new { All (λ book. StartsEmpty (Some book.written)) result.items }
{
    let one = book(rt, alloc, room);
    two_books(rt, alloc, one, book(rt, alloc, room))
}

pub(crate) fn three_books<R: Abort>(rt: &R, alloc: Global, room: usize) -> Vec<ListBook>
    ensures new { All (λ book. StartsEmpty (Some book.written)) result.items }
{
    let one = book(rt, alloc, room);
    let two = book(rt, alloc, room);
    let three = book(rt, alloc, room);
    must(rt, Vec::from_array(alloc, [one, two, three]))
}

// Mouths with this room, for one link or for two.
pub(crate) fn a_mouth<R: Abort>(rt: &R, alloc: Global, room: usize) -> Vec<ListMouth>
    ensures count { vec_len result ≡ 1 }
{
    let mouth = must(rt, ListMouth::make(alloc, room, Vec::new(alloc)));
    must(rt, Vec::from_array(alloc, [mouth]))
}

pub(crate) fn two_mouths<R: Abort>(rt: &R, alloc: Global, room: usize) -> Vec<ListMouth>
    ensures count { vec_len result ≡ 2 }
{
    let one = must(rt, ListMouth::make(alloc, room, Vec::new(alloc)));
    let two = must(rt, ListMouth::make(alloc, room, Vec::new(alloc)));
    must(rt, Vec::from_array(alloc, [one, two]))
}

pub(crate) fn conn(rt: &impl Abort, number: u8, at: u64, letter: u8) -> Heard {
    let from = CallAddress::new(ab1cd()).expect(rt, "a callsign");
    let module = ModuleLetter::new(letter).expect(rt, "a letter");
    said(
        number,
        at,
        write(&Control::Conn { from, module }).as_slice(),
    )
}

pub(crate) fn disc(rt: &impl Abort, number: u8, at: u64) -> Heard {
    let from = CallAddress::new(ab1cd()).expect(rt, "a callsign");
    said(
        number,
        at,
        write(&Control::Disc { from: Some(from) }).as_slice(),
    )
}
