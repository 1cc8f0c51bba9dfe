//! The devices of a run, as the ports hand them out.
ghost use Rattle.std.specs.Prelude.{◌≡◌, ◌↔◌, ◌≤◌, [], All, IfSome, IsSome, None, is_some, length, map, string_bytes, option_map, vec_len, vec_capacity, IfOk, OnOk};
ghost use Rattle.m17_control.specs.Modules.{letters_of};
ghost use Rattle.m17_ports.specs.declared.question.Question.TheVariants as questions;
ghost use Rattle.m17_ports.specs.Book.{IsNewBook};
ghost use Rattle.m17_ports.specs.Ear.{IsNewEar};
ghost use Rattle.m17_ports.specs.Mouth.{IsNewMouth};
ghost use Rattle.m17_ports.specs.Ports.{FailsLast};
ghost use Rattle.m17_serve.specs.Asked.{board_call, board_questions, call_after, device_questions, link_questions, questions_of, shelf_questions, until_of};
ghost use Rattle.m17_serve.specs.Devices.{AreNew, AreNewOnes, IsNewBoard, Known, ear_labels, house_told, mouth_labels, told_of_shelf};
ghost use Rattle.m17_serve.specs.Steps.{AreNames, Asks, HasRooms, kinds_opened};

use crate::letters::room;
use crate::names::Names;
use m17_client_commands::KnownPorts;
use m17_ports::{Ports, Shelf};
use m17_values::{Failed, NoMemory};
use m17_words::ServeOrder;
use std::alloc::Global;

/// How many milliseconds a second has.
const SECOND_MS: u64 = 1_000;

// The devices of a run: at first room for them, and then those that were handed out.
#[derive(Drop)]
pub(crate) struct Opened<E, M, B> {
    pub ears: Vec<E>,
    pub mouths: Vec<M>,
    pub traces: Vec<Shelf<B>>,
    pub books: Vec<Shelf<B>>,
    pub lines: Option<B>,
}

// Room for the devices of this number of links and of modules.
pub(crate) fn make_rooms<E: Drop, M: Drop, B: Drop>(
    alloc: Global,
    links: usize,
    modules: usize,
) -> Result<Opened<E, M, B>, NoMemory>
    ensures { IfOk result (HasRooms links modules) }
{
    Ok(Opened {
        ears: room(alloc, links)?,
        mouths: room(alloc, links)?,
        traces: room(alloc, links)?,
        books: room(alloc, modules)?,
        lines: None,
    })
}

// Opens the links of these places, in order.
pub(crate) fn open_links<P: KnownPorts>(
    binds: &[String],
    until: Option<u64>,
    ports: &mut P,
    ears: &mut Vec<P::Ear>,
    mouths: &mut Vec<P::Mouth>,
) -> Result<(), Failed>
    requires no_ears { ears.old.items ≡ [] }
    requires room_for_ears { length binds.now ≤ vec_capacity ears.old }
    requires no_mouths { mouths.old.items ≡ [] }
    requires room_for_mouths { length binds.now ≤ vec_capacity mouths.old }
    ensures asks { Asks result (link_questions (map string_bytes binds.now) until)
        (P.told ports.old) (P.told ports.new) }
    ensures ears { OnOk result (AreNewOnes IsNewEar (P.told ports.old).calls
        (length binds.now) (map P.Ear.told ears.new.items)) }
    ensures mouths { OnOk result (AreNewOnes IsNewMouth (P.told ports.old).calls
        (length binds.now) (map P.Mouth.told mouths.new.items)) }
    ensures known_ears { OnOk result (Known (P.ears ports.old)
        (ear_labels (map P.Ear.told ears.new.items))) }
    ensures known_mouths { OnOk result
        (Known (P.mouths ports.old)
        (mouth_labels (map P.Mouth.told mouths.new.items))) }
    ensures fails_last { FailsLast P.told ports.old ports.new }
{
    for bind in binds {
        let (ear, mouth) = match ports.known_link(bind.as_str(), until) {
            Ok(link) => link,
            Err(failed) => return Err(failed),
        };
        ears.push_reserved(ear);
        mouths.push_reserved(mouth);
    }
    Ok(())
}

// Opens the books of these names, in order.
pub(crate) fn open_books<P: Ports>(
    names: &[String],
    ports: &mut P,
    shelves: &mut Vec<Shelf<P::Book>>,
) -> Result<(), Failed>
    requires none { shelves.old.items ≡ [] }
    requires room { length names.now ≤ vec_capacity shelves.old }
    ensures asks { Asks result (map questions.Book (map string_bytes names.now))
        (P.told ports.old) (P.told ports.new) }
    ensures new { OnOk result (AreNewOnes IsNewBook (P.told ports.old).calls
        (length names.now) (map (told_of_shelf P.Book.told) shelves.new.items)) }
    ensures there { OnOk result (All (λ shelf. IsSome shelf.inner) shelves.new.items) }
    ensures fails_last { FailsLast P.told ports.old ports.new }
{
    for name in names {
        let book = match ports.book(name.as_str()) {
            Ok(book) => book,
            Err(failed) => return Err(failed),
        };
        shelves.push_reserved(Shelf { inner: Some(book) });
    }
    Ok(())
}

// Opens the traces and the books, where a folder is named, and leaves as many shelves empty where none is.
fn open_shelves<P: Ports>(
    order: &ServeOrder,
    names: &Names,
    modules: usize,
    ports: &mut P,
    traces: &mut Vec<Shelf<P::Book>>,
    books: &mut Vec<Shelf<P::Book>>,
) -> Result<(), Failed>
    requires names { AreNames order.now names.now }
    requires modules { modules ≡ length (letters_of order.now.modules) }
    requires no_traces { traces.old.items ≡ [] }
    requires room_for_traces { vec_len order.now.binds ≤ vec_capacity traces.old }
    requires no_books { books.old.items ≡ [] }
    requires room_for_books { modules ≤ vec_capacity books.old }
    ensures asks { Asks result (shelf_questions order.now (option_map string_bytes order.now.book))
        (P.told ports.old) (P.told ports.new) }
    ensures traces { OnOk result (AreNewOnes IsNewBook (P.told ports.old).calls
        (vec_len order.now.binds) (map (told_of_shelf P.Book.told) traces.new.items)) }
    ensures books { OnOk result (AreNewOnes IsNewBook
        (call_after (P.told ports.old).calls (vec_len order.now.binds))
        modules (map (told_of_shelf P.Book.told) books.new.items)) }
    ensures traces_there { OnOk result (All (λ shelf.
        IsSome shelf.inner ↔ IsSome order.now.book) traces.new.items) }
    ensures books_there { OnOk result (All (λ shelf.
        IsSome shelf.inner ↔ IsSome order.now.book) books.new.items) }
    ensures fails_last { FailsLast P.told ports.old ports.new }
{
    match &order.book {
        Some(_) => match open_books(names.traces.as_slice(), ports, traces) {
            Ok(()) => open_books(names.books.as_slice(), ports, books),
            Err(failed) => Err(failed),
        },
        None => {
            leave_empty(order.binds.len(), traces);
            leave_empty(modules, books);
            Ok(())
        }
    }
}

// Opens the book of the lines of a board, where one is named.
fn open_lines<P: Ports>(order: &ServeOrder, ports: &mut P) -> Result<Option<P::Book>, Failed>
    ensures asks { Asks result (board_questions (option_map string_bytes order.now.board))
        (P.told ports.old) (P.told ports.new) }
    ensures new { IfOk result (λ lines. IsNewBoard (option_map string_bytes order.now.board)
        (P.told ports.old).calls (option_map P.Book.told lines)) }
    ensures there { IfOk result (λ lines. is_some lines ≡ is_some order.now.board) }
    ensures fails_last { FailsLast P.told ports.old ports.new }
{
    match &order.board {
        Some(name) => match ports.book(name.as_str()) {
            Ok(lines) => Ok(Some(lines)),
            Err(failed) => Err(failed),
        },
        None => Ok(None),
    }
}

// The links and the shelves of a run.
fn open_devices<P: KnownPorts>(
    order: &ServeOrder,
    names: &Names,
    modules: usize,
    ports: &mut P,
    rooms: Opened<P::Ear, P::Mouth, P::Book>,
) -> Result<Opened<P::Ear, P::Mouth, P::Book>, Failed>
    requires names { AreNames order.now names.now }
    requires modules { modules ≡ length (letters_of order.now.modules) }
    requires rooms { HasRooms (vec_len order.now.binds) modules rooms }
    requires seconds { IfSome order.now.seconds (λ seconds. seconds ≤ 1000000) }
    ensures asks { Asks result (device_questions order.now)
        (P.told ports.old) (P.told ports.new) }
    ensures new { IfOk result (λ opened. AreNew order.now (P.told ports.old).calls
        (house_told P.Ear.told P.Mouth.told P.Book.told (kinds_opened opened))) }
    ensures known_ears { IfOk result (λ opened.
        Known (P.ears ports.old)
        (ear_labels (map P.Ear.told opened.ears.items))) }
    ensures known_mouths { IfOk result (λ opened.
        Known (P.mouths ports.old)
        (mouth_labels (map P.Mouth.told opened.mouths.items))) }
    ensures fails_last { FailsLast P.told ports.old ports.new }
{
    let mut rooms = rooms;
    let until = until_of(order.seconds);
    let binds = order.binds.as_slice();
    match open_links(binds, until, ports, &mut rooms.ears, &mut rooms.mouths) {
        Ok(()) => {}
        Err(failed) => return Err(failed),
    }
    match open_shelves(
        order,
        names,
        modules,
        ports,
        &mut rooms.traces,
        &mut rooms.books,
    ) {
        Ok(()) => Ok(rooms),
        Err(failed) => Err(failed),
    }
}

// The devices of a run, in the order of its questions, and the book of the lines of its board.
pub(crate) fn open<P: KnownPorts>(
    order: &ServeOrder,
    names: &Names,
    modules: usize,
    ports: &mut P,
    rooms: Opened<P::Ear, P::Mouth, P::Book>,
) -> Result<Opened<P::Ear, P::Mouth, P::Book>, Failed>
    requires names { AreNames order.now names.now }
    requires modules { modules ≡ length (letters_of order.now.modules) }
    requires rooms { HasRooms (vec_len order.now.binds) modules rooms }
    requires seconds { IfSome order.now.seconds (λ seconds. seconds ≤ 1000000) }
    ensures asks { Asks result (questions_of order.now)
        (P.told ports.old) (P.told ports.new) }
    ensures new { IfOk result (λ opened. AreNew order.now (P.told ports.old).calls
        (house_told P.Ear.told P.Mouth.told P.Book.told (kinds_opened opened))) }
    ensures board { IfOk result (λ opened. IsNewBoard (option_map string_bytes order.now.board)
        (board_call order.now (P.told ports.old).calls) (option_map P.Book.told opened.lines)) }
    ensures there { IfOk result (λ opened. is_some opened.lines ≡ is_some order.now.board) }
    ensures known_ears { IfOk result (λ opened.
        Known (P.ears ports.old)
        (ear_labels (map P.Ear.told opened.ears.items))) }
    ensures known_mouths { IfOk result (λ opened.
        Known (P.mouths ports.old)
        (mouth_labels (map P.Mouth.told opened.mouths.items))) }
    ensures fails_last { FailsLast P.told ports.old ports.new }
{
    let opened = match open_devices(order, names, modules, ports, rooms) {
        Ok(opened) => opened,
        Err(failed) => return Err(failed),
    };
    match open_lines(order, ports) {
        Ok(lines) => Ok(Opened {
            ears: opened.ears,
            mouths: opened.mouths,
            traces: opened.traces,
            books: opened.books,
            lines,
        }),
        Err(failed) => Err(failed),
    }
}

// When links end that serve for `seconds` seconds.
fn until_of(seconds: Option<u64>) -> Option<u64>
    requires { IfSome seconds (λ seconds. seconds ≤ 1000000) }
    ensures { result ≡ until_of seconds }
{
    match seconds {
        Some(seconds) => Some(SECOND_MS * seconds),
        None => None,
    }
}

// As many shelves without a book.
pub(crate) fn leave_empty<B>(count: usize, shelves: &mut Vec<Shelf<B>>)
    requires none { shelves.old.items ≡ [] }
    requires room { count ≤ vec_capacity shelves.old }
    ensures count { vec_len shelves.new ≡ count }
    ensures empty { All (λ shelf. shelf.inner ≡ None) shelves.new.items }
{
    for _left in 0..count {
        shelves.push_reserved(Shelf { inner: None });
    }
}
