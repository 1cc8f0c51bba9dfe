//! What no clause says of a run: that the last line of a board that is shown comes to the evening's records, with books and
//! without, and that without one there is no line.
ghost use Rattle.std.specs.Prelude.{◌≡◌, [], All, Err, Ok, false, vec_len};
ghost use Rattle.m17_ports.specs.Told.{StartsEmpty};
ghost use Rattle.m17_plan.specs.Planned.{IsPlan, module_count};
ghost use Rattle.m17_port_memory.specs.Tells.{list_book_told, script_ear_told};
ghost use Rattle.m17_board_run.specs.Kept.{told_of_shelf};

use crate::bench::{must, must_not};
use m17_board_run::{OnBoard, RefusedOnBoard, make_board, reflect_on_board};
use m17_callsign::{Address, CallAddress};
use m17_control::{Control, ModuleLetter, Modules, write};
use m17_crew::{Crew, RefusingCrew, StdCrew};
use m17_plan::Plan;
use m17_port_memory::{ListBook, ListMouth, ScriptEar};
use m17_ports::Shelf;
use m17_reflect::HouseRefusal;
use m17_samples::{ab1cd, frame, n0call, said};
use m17_values::Heard;
use std::alloc::Global;
use std::process::Abort;
use std::sync::Wait;
use std::thread::Threads;
use std::time::Clock;

const LAST_LINE: &[u8] = b"A records 8 admitted 4 at 160 talker none\n";

// How a run ended.
type Ended = OnBoard<ScriptEar, ListMouth, ListBook>;

type RefusedRun = RefusedOnBoard<ScriptEar, ListMouth, ListBook>;

fn packet(at: u64, number: u16) -> Heard {
    let bytes = m17_stream::write(&frame(0x1234, number, number == 3));
    said(1, at, &bytes)
}

// AB1CD joins module A and talks; N0CALL comes to listen, and leaves before the last packet.
fn evening(rt: &impl Abort, alloc: Global) -> Vec<Heard> {
    let talker = CallAddress::new(ab1cd()).expect(rt, "a callsign");
    let listener = CallAddress::new(n0call()).expect(rt, "a callsign");
    let module = ModuleLetter::new(b'A').expect(rt, "a letter");
    let joins = write(&Control::Conn {
        from: talker,
        module,
    });
    let listens = write(&Control::Lstn {
        from: listener,
        module,
    });
    let leaves = write(&Control::Disc {
        from: Some(listener),
    });
    let heard = [
        said(1, 0, joins.as_slice()),
        packet(40, 0),
        said(2, 50, listens.as_slice()),
        packet(80, 1),
        packet(120, 2),
        said(2, 130, leaves.as_slice()),
        packet(160, 3),
    ];
    must(rt, Vec::from_array(alloc, heard))
}

// The reflector M17-TST with module A over one link.
fn plan(rt: &impl Abort) -> Plan
    ensures plan { IsPlan result }
    ensures one { module_count result ≡ 1 }
    ensures patient { result.patient ≡ false }
{
    let address = Address::new(0x13_89F9_BAED).expect(rt, "an address");
    let modules = must(rt, Modules::read("A"));
    assert!(rt; modules.count() == 1);
    Plan {
        name: CallAddress::new(address).expect(rt, "a callsign"),
        modules,
        parrots: Modules::none(),
        places: 4,
        patient: false,
        entries: 0,
        limit: 180_000,
    }
}

// The one ear hears the evening.
fn ears<R: Abort>(rt: &R, alloc: Global) -> Vec<ScriptEar>
    ensures count { vec_len result ≡ 1 }
    ensures new { All (λ ear. StartsEmpty (script_ear_told ear).heard) result.items }
{
    let mut all = must(rt, Vec::with_capacity(alloc, 1));
    all.push_reserved(ScriptEar::new(evening(rt, alloc)));
    all
}

fn mouths<R: Abort>(rt: &R, alloc: Global) -> Vec<ListMouth>
    ensures count { vec_len result ≡ 1 }
{
    let mouth = must(rt, ListMouth::make(alloc, 32, Vec::new(alloc)));
    must(rt, Vec::from_array(alloc, [mouth]))
}

fn book<R: Abort>(rt: &R, alloc: Global) -> ListBook
    ensures { result.written ≡ [] }
{
    must(rt, ListBook::make(alloc, 2_000, Vec::new(alloc)))
}

// A shelf with a book, or without.
fn shelf<R: Abort>(rt: &R, alloc: Global, there: bool) -> Shelf<ListBook>
    ensures { StartsEmpty (told_of_shelf list_book_told result).written }
{
    Shelf {
        inner: if there { Some(book(rt, alloc)) } else { None },
    }
}

// The shelf of the one link or module.
fn shelves<R: Abort>(rt: &R, alloc: Global, there: bool) -> Vec<Shelf<ListBook>>
    ensures count { vec_len result ≡ 1 }
    ensures new { All (λ shelf. StartsEmpty (told_of_shelf list_book_told shelf).written)
        result.items }
{
    let mut all = must(rt, Vec::with_capacity(alloc, 1));
    all.push_reserved(shelf(rt, alloc, there));
    all
}

// Runs the evening with this crew, with a trace and a book or without, and with a board that is shown or not.
fn run<C: Crew, R: Threads + Wait + Clock + Abort + Copy + Drop + Send + 'static>(
    rt: &R,
    alloc: Global,
    there: bool,
    shown: bool,
    crew: &mut C,
) -> Result<Ended, RefusedRun> {
    let plan = plan(rt);
    let ears = ears(rt, alloc);
    let mouths = mouths(rt, alloc);
    let traces = shelves(rt, alloc, there);
    let books = shelves(rt, alloc, there);
    let lines = if shown { Some(book(rt, alloc)) } else { None };
    let board = must(rt, make_board(alloc, 1, 1, lines.is_some()));
    reflect_on_board(
        rt, alloc, &plan, ears, mouths, traces, books, lines, board, crew,
    )
}

// Whether the last line tells of the whole evening, if there is one, and the shelf of the module is as it was.
fn is_all_told(ran: &Ended, there: bool, shown: bool) -> bool {
    let lines = match &ran.lines {
        Some(lines) => shown && lines.bytes().ends_with(LAST_LINE),
        None => !shown,
    };
    let books = ran
        .house
        .books
        .iter()
        .all(|book| book.inner.is_some() == there);
    lines && books && !ran.lines_failed && !ran.house.book_failed
}

#[test]
fn the_last_line_tells_all_of_an_evening(rt: HostRuntime) {
    for (there, shown) in [(true, true), (false, true), (true, false), (false, false)] {
        let ran = must(&rt, run(&rt, rt.alloc(), there, shown, &mut StdCrew::new()));
        let told = is_all_told(&ran, there, shown);
        drop(ran);
        assert!(rt; told, "{there} {shown}");
    }
}

// The crew refuses the start with this number.
fn refused_at<R: Threads + Wait + Clock + Abort + Copy + Drop + Send + 'static>(
    rt: &R,
    alloc: Global,
    start: u64,
) -> RefusedRun {
    let numbers = must(rt, Vec::from_array(alloc, [start]));
    let mut crew = RefusingCrew::new(numbers);
    must_not(rt, run(rt, alloc, true, true, &mut crew))
}

// Whichever start the crew refuses. The first is that of the watch.
#[test]
fn a_crew_that_refuses_a_start_hands_all_back(rt: HostRuntime) {
    for start in 0..4 {
        let back = refused_at(&rt, rt.alloc(), start);
        assert!(rt; back.refused.why == HouseRefusal::Crew && back.lines.is_some() == (start > 0));
        assert!(rt; back.refused.books.len() == 1 && back.refused.traces.len() == 1);
        drop(back);
    }
}
