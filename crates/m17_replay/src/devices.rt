//! The devices of a replay: one ear, one mouth, and books that keep nothing. All room for them is made before the run.
ghost use Rattle.std.specs.Prelude.{◌≡◌, ◌<◌, [], None, IfOk, All, vec_capacity, vec_len};
ghost use Rattle.m17_replay.specs.Rooms.{HasRooms};

use m17_port_memory::{ListBook, ScriptEar, TallyMouth};
use m17_ports::Shelf;
use m17_values::NoMemory;
use std::alloc::Global;

// Room for the devices of a run over one link: for its ear and its mouth, and the books.
#[derive(Drop)]
pub(crate) struct Rooms {
    // For the ear.
    pub ears: Vec<ScriptEar>,
    // For the mouth.
    pub mouths: Vec<TallyMouth>,
    // The trace of the link.
    pub traces: Vec<Shelf<ListBook>>,
    // The book of each module.
    pub books: Vec<Shelf<ListBook>>,
}

// Makes it, for this number of modules.
pub(crate) fn make_rooms(alloc: Global, modules: u32) -> Result<Rooms, NoMemory>
    ensures { IfOk result (HasRooms modules) }
{
    let ears = room_for_one(alloc)?;
    let mouths = room_for_one(alloc)?;
    let traces = no_books(alloc, 1)?;
    let books = no_books(alloc, modules)?;
    Ok(Rooms {
        ears,
        mouths,
        traces,
        books,
    })
}

// Room for one item.
fn room_for_one<T: Drop>(alloc: Global) -> Result<Vec<T>, NoMemory>
    ensures empty { IfOk result (λ v. v.items ≡ []) }
    ensures room { IfOk result (λ v. vec_len v < vec_capacity v) }
{
    match Vec::with_capacity(alloc, 1) {
        Ok(room) => Ok(room),
        Err(_) => Err(NoMemory),
    }
}

// `count` books that keep nothing.
fn no_books(alloc: Global, count: u32) -> Result<Vec<Shelf<ListBook>>, NoMemory>
    ensures count { IfOk result (λ books. vec_len books ≡ count) }
    ensures none { IfOk result (λ books. All (λ book. book.inner ≡ None) books.items) }
{
    let mut all: Vec<Shelf<ListBook>> = Vec::new(alloc);
    for _book in 0..count {
        match all.push(Shelf { inner: None }) {
            Ok(()) => {}
            Err(_) => return Err(NoMemory),
        }
    }
    Ok(all)
}
