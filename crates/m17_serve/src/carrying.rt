//! A run of the reflector over devices that were handed out, and its lines.
ghost use Rattle.std.specs.Prelude.{◌≡◌, ◌≢◌, ◌||◌, ℕ, Contains, IfSome, IsSome, None, OnOk, OnErr, is_some, length, option_map, vec_len};
ghost use Rattle.m17_control.specs.Modules.{letters_of};
ghost use Rattle.m17_ports.specs.Ports.{next_number, PortsTold};
ghost use Rattle.m17_print.specs.Endings.{Grows};
ghost use Rattle.m17_board_run.specs.Board.{IsMade};
ghost use Rattle.m17_reflect.specs.Laws.{AreSameDevices};
ghost use Rattle.m17_reflect.specs.Views.{kinds_back, kinds_refused};
ghost use Rattle.m17_reflect.specs.declared.returned.HouseRefusal.TheVariants as refusals;
ghost use Rattle.m17_serve.specs.Devices.{house_told};
ghost use Rattle.m17_serve.specs.Served.{around, counts, ending_by, serve_plan, AreOpened, ComesToServe, HasCauses, IsServable, NeverAsked, NeverRan};
ghost use Rattle.m17_serve.specs.Steps.{kinds_opened, AreFresh};

use crate::line::print_modules;
use crate::opening::Opened;
use crate::{ServeEnding, Served};
use m17_board_run::{Board, reflect_on_board};
use m17_crew::Crew;
use m17_io::Sink;
use m17_plan::Plan;
use m17_ports::{Book, Ear, Mouth};
use m17_reflect::HouseRefusal;
use m17_values::Failed;
use m17_words::ServeOrder;
use std::alloc::Global;
use std::sync::Wait;
use std::thread::Threads;
use std::time::Clock;

// Runs the reflector of the words over new devices, with this board, each job in a thread of its own, and writes a line for
// each module, in order of these letters.
pub(crate) fn carry_out<
    R: Threads + Wait + Clock + Copy + Drop + Send + 'static,
    E: Ear + Drop + Send + 'static,
    M: Mouth + Drop + Send + 'static,
    B: Book + Drop + Send + 'static,
    C: Crew,
    K: Sink,
>(
    rt: &R,
    alloc: Global,
    order: &ServeOrder,
    letters: &[u8],
    opened: Opened<E, M, B>,
    board: Board<B, R>,
    crew: &mut C,
    out: &mut K,
) -> Served<E, M, B>
where
    B::Label: 'static,
    requires servable { IsServable order.now }
    requires letters { letters.now ≡ letters_of order.now.modules }
    requires fresh { AreFresh order.now (house_told E.told M.told B.told (kinds_opened opened)) }
    requires lines { is_some opened.lines ≡ is_some order.now.board }
    requires board { IsMade (vec_len order.now.binds) (length (letters_of order.now.modules))
        (is_some order.now.board) board }
    ensures causes { (ports : ℕ) → HasCauses result.ending
        (counts ports (C.refusals crew.old) (K.told out.old).faults)
        (counts ports (C.refusals crew.new) (K.told out.new).faults) }
    // What the ending says holds of ports that handed these devices out.
    ensures ended { (before after : PortsTold) → AreOpened order.now before after
        (house_told E.told M.told B.told (kinds_opened opened)) (option_map B.told opened.lines)
        → ComesToServe order.now result.ending (around E.told M.told B.told before after result)
        (K.told out.old).written (K.told out.new).written }
    // The devices that come back are those that were handed in.
    ensures same_devices { IfSome result.house (λ house.
        AreSameDevices (house_told E.told M.told B.told (kinds_opened opened))
        (house_told E.told M.told B.told (kinds_back house))) }
    ensures same { IfSome result.refused (λ refused. kinds_refused refused ≡ kinds_opened opened) }
    ensures appended { Grows (K.told out.old).written (K.told out.new).written }
    ensures untouched { NeverRan result.ending → out.new ≡ out.old }
    ensures unasked { NeverAsked result.ending → result.board ≡ None → crew.new ≡ crew.old }
    ensures watch { result.refused ≢ None → IsSome order.now.board → result.board ≡ None
        → C.starts crew.new ≡ next_number (C.starts crew.old) }
    ensures withheld { Contains (C.refuses crew.old) (C.starts crew.old) → result.board ≡ None }
    ensures unnamed { order.now.board ≡ None → result.board ≡ None }
{
    let plan = plan_of(order);
    let ran = reflect_on_board(
        rt,
        alloc,
        &plan,
        opened.ears,
        opened.mouths,
        opened.traces,
        opened.books,
        opened.lines,
        board,
        crew,
    );
    match ran {
        Ok(ran) => {
            let admitted = ran.house.admitted.as_slice();
            let missed = ran.house.missed.as_slice();
            let printed = print_modules(letters, admitted, missed, out);
            let book_failed = is_either(ran.house.book_failed, ran.lines_failed);
            Served {
                ending: ending_of(ran.house.lost, book_failed, printed),
                house: Some(ran.house),
                refused: None,
                board: ran.lines,
            }
        }
        Err(back) => Served {
            ending: ending_for(back.refused.why),
            house: None,
            refused: Some(back.refused),
            board: back.lines,
        },
    }
}

// The plan of the words.
fn plan_of(order: &ServeOrder) -> Plan
    ensures { result ≡ serve_plan order.now }
{
    Plan {
        name: order.call,
        modules: order.modules,
        parrots: order.parrots,
        places: order.places,
        patient: false,
        entries: 0,
        limit: order.limit,
    }
}

// How the command ends where the reflector ran.
fn ending_of(lost: bool, book_failed: bool, printed: Result<(), Failed>) -> ServeEnding
    ensures ok { OnOk printed (result ≡ ending_by lost book_failed) }
    ensures err { OnErr printed (result ≡ ServeEnding.WriteFailed) }
{
    if printed.is_err() {
        return ServeEnding::WriteFailed;
    }
    if lost {
        return ServeEnding::LinkLost;
    }
    if book_failed {
        return ServeEnding::BookFailed;
    }
    ServeEnding::Finished
}

// How it ends where the reflector refused to run.
fn ending_for(why: HouseRefusal) -> ServeEnding
    ensures crew { why ≡ refusals.Crew → result ≡ ServeEnding.CrewRefused }
    ensures memory { why ≡ refusals.NoMemory → result ≡ ServeEnding.NoMemory }
{
    match why {
        HouseRefusal::Crew => ServeEnding::CrewRefused,
        HouseRefusal::NoMemory => ServeEnding::NoMemory,
    }
}

// Whether one of the two holds.
fn is_either(one: bool, other: bool) -> bool
    ensures { result ≡ (one || other) }
{
    one || other
}
