ghost use Rattle.std.specs.Prelude.{◌≡◌, ◌≢◌, ◌≤◌, Contains, IfOk, IsSome, None, is_some, length, vec_len};
ghost use Rattle.m17_control.specs.Modules.{letters_of};
ghost use Rattle.m17_print.specs.Endings.{Grows};
ghost use Rattle.m17_ports.specs.Ports.{FailsLast, next_number};
ghost use Rattle.m17_board_run.specs.Board.{IsMade};
ghost use Rattle.m17_serve.specs.Served.{around, counts, AreKnown, ComesToServe, HasCauses, IsServable, NeverAsked, NeverRan};
ghost use Rattle.m17_serve.specs.Steps.{AreNames, HasRooms};

use crate::carrying::carry_out;
use crate::letters::served_letters;
use crate::names::{Names, make_names};
use crate::opening::{Opened, make_rooms, open};
use crate::{ServeEnding, Served};
use m17_board_run::{Board, make_board};
use m17_client_commands::KnownPorts;
use m17_crew::Crew;
use m17_io::Sink;
use m17_ports::Book;
use m17_values::NoMemory;
use m17_words::ServeOrder;
use std::alloc::Global;
use std::sync::Wait;
use std::thread::Threads;
use std::time::Clock;

// What is made before the ports are asked for anything: the letters of the modules, the names of what is kept, room for the
// devices, and the board.
#[derive(Drop)]
struct Made<E, M, B: Book + Drop, R: Drop> {
    letters: Vec<u8>,
    names: Names,
    rooms: Opened<E, M, B>,
    board: Board<B, R>,
}

/// Runs the reflector as its words say: asks the ports for its links; where a folder is named, for the trace of each link
/// and the book of each module; and where a board is named, for the book of its lines. It runs the reflector over them, each
/// job in a thread of its own, and writes a line for each module, in order of letters. With a board a watch, which is started
/// before all other threads, looks ten times in a second and writes a line to that book for each module in which something
/// happened since, until the reflector has ended; then a last line for each module whose last line says less. A book of lines
/// that failed is told as a failed book is.
///
/// The answer says how it ended, and hands the devices back; the last line is the caller's to write. It waits as long as the
/// ears go on. Want of memory comes before anything was heard; the watch of a board may have been started then, and is joined.
pub fn serve<
    R: Threads + Wait + Clock + Copy + Drop + Send + 'static,
    P: KnownPorts,
    C: Crew,
    K: Sink,
>(
    rt: &R,
    alloc: Global,
    order: &ServeOrder,
    ports: &mut P,
    crew: &mut C,
    out: &mut K,
) -> Served<P::Ear, P::Mouth, P::Book>
where
    <P::Book as Book>::Label: 'static,
    requires servable { IsServable order.now }
    // A failure is told exactly where the count of what failed rose.
    ensures causes { HasCauses result.ending
        (counts (P.told ports.old).faults (C.refusals crew.old) (K.told out.old).faults)
        (counts (P.told ports.new).faults (C.refusals crew.new) (K.told out.new).faults) }
    // What the ending says of the ports and of what is handed back holds, the lines of a board show what was posted, and what
    // is printed stands written.
    ensures ended { ComesToServe order.now result.ending
        (around P.Ear.told P.Mouth.told P.Book.told (P.told ports.old) (P.told ports.new) result)
        (K.told out.old).written (K.told out.new).written }
    // What the ports say of their links is known of the devices that come back.
    ensures known { AreKnown (P.ears ports.old) (P.mouths ports.old)
        (around P.Ear.told P.Mouth.told P.Book.told (P.told ports.old) (P.told ports.new) result) }
    ensures appended { Grows (K.told out.old).written (K.told out.new).written }
    // Where the ports fail, that was the last question: until then their count of faults stands.
    ensures fails_last { FailsLast P.told ports.old ports.new }
    // Where the reflector never ran, the sink is as it was; and before a thread is started, so is the crew.
    ensures untouched { NeverRan result.ending → out.new ≡ out.old }
    ensures unasked { NeverAsked result.ending → result.board ≡ None → crew.new ≡ crew.old }
    // The book of the lines stays away of a refused run only where the crew refused the first start, that of the watch; and it
    // does where the crew withholds that, and where no board is named.
    ensures watch { result.refused ≢ None → IsSome order.now.board → result.board ≡ None
        → C.starts crew.new ≡ next_number (C.starts crew.old) }
    ensures withheld { Contains (C.refuses crew.old) (C.starts crew.old) → result.board ≡ None }
    ensures unnamed { order.now.board ≡ None → result.board ≡ None }
{
    let Ok(made) = make(alloc, order) else {
        return without(ServeEnding::NoMemory);
    };
    let Made {
        letters,
        names,
        rooms,
        board,
    } = made;
    let Ok(opened) = open(order, &names, letters.len(), ports, rooms) else {
        return without(ServeEnding::PortFailed);
    };
    carry_out(rt, alloc, order, &letters, opened, board, crew, out)
}

// What is made first.
fn make<E: Drop, M: Drop, B: Book + Drop, R: Drop>(
    alloc: Global,
    order: &ServeOrder,
) -> Result<Made<E, M, B, R>, NoMemory>
    requires { IsServable order.now }
    ensures letters { IfOk result (λ made. made.letters.items ≡ letters_of order.now.modules) }
    ensures names { IfOk result (λ made. AreNames order.now made.names) }
    ensures rooms { IfOk result (λ made.
        HasRooms (vec_len order.now.binds) (length (letters_of order.now.modules)) made.rooms) }
    ensures board { IfOk result (λ made. IsMade (vec_len order.now.binds)
        (length (letters_of order.now.modules)) (is_some order.now.board) made.board) }
{
    let letters = served_letters(alloc, order.modules)?;
    let names = make_names(alloc, order, &letters)?;
    let rooms = make_rooms(alloc, order.binds.len(), letters.len())?;
    let board = board_for(alloc, order)?;
    Ok(Made {
        letters,
        names,
        rooms,
        board,
    })
}

// A board for the links and the modules of the words, shown where they name one.
fn board_for<B: Book + Drop, R: Drop>(
    alloc: Global,
    order: &ServeOrder,
) -> Result<Board<B, R>, NoMemory>
    requires { IsServable order.now }
    ensures { IfOk result (λ board. IsMade (vec_len order.now.binds)
        (length (letters_of order.now.modules)) (is_some order.now.board) board) }
{
    make_board(
        alloc,
        order.binds.len() as u32,
        order.modules.count(),
        order.board.is_some(),
    )
}

// What the command came to where nothing is handed back.
fn without<E, M, B>(ending: ServeEnding) -> Served<E, M, B>
    ensures ending { result.ending ≡ ending }
    ensures house { result.house ≡ None }
    ensures refused { result.refused ≡ None }
    ensures board { result.board ≡ None }
{
    Served {
        ending,
        house: None,
        refused: None,
        board: None,
    }
}
