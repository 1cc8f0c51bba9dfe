//! What a run needs beside its devices, made before anything is asked for.
ghost use Rattle.std.specs.Prelude.{◌≡◌, ◌≤◌, [], IfOk, replicate, vec_capacity};
ghost use Rattle.m17_board_run.specs.Board.{HasEnds, HasRooms, IsMade};

use crate::kept::Kept;
use m17_board::{Eye, Glance, Poster, make};
use m17_crew::Order;
use m17_lane::{Popper, Pusher, make_one};
use m17_ports::{Book, Shelf};
use m17_values::NoMemory;
use std::alloc::Global;

/// What a run of the reflector needs beside its devices: room for its books as they are kept and when they come back; and
/// where a board is shown, the posters of its modules and what its watch needs. From here on a run takes no memory for its
/// board but for the watch's thread.
#[derive(Drop)]
pub struct Board<B: Book + Drop, R: Drop> {
    pub(crate) posters: Vec<Poster>,
    pub(crate) rooms: Rooms<B, R>,
    pub(crate) desk: Option<Desk>,
}

// Room for the traces and books while they are kept, and when they come back.
#[derive(Drop)]
pub(crate) struct Rooms<B: Book + Drop, R: Drop> {
    pub(crate) kept_traces: Vec<Kept<B, R>>,
    pub(crate) kept_books: Vec<Kept<B, R>>,
    pub(crate) traces: Vec<Shelf<B>>,
    pub(crate) books: Vec<Shelf<B>>,
    pub(crate) posters: Vec<Poster>,
}

// What a watch needs: the eyes of the modules, how many records their last lines say, its orders, and room for last looks.
#[derive(Drop)]
pub(crate) struct Desk {
    pub(crate) eyes: Vec<Eye>,
    pub(crate) last: Vec<u64>,
    pub(crate) quit: Pusher<Order>,
    pub(crate) order: Popper<Order>,
    pub(crate) glances: Vec<Glance>,
}

/// A board for this number of links, 1 to 4, and of modules, 1 to 26, that is shown or is not. `NoMemory` where there is none
/// for it.
pub fn make_board<B: Book + Drop, R: Drop>(
    alloc: Global,
    links: u32,
    modules: u32,
    shown: bool,
) -> Result<Board<B, R>, NoMemory>
    requires links { (1 ≤ links) × (links ≤ 4) }
    requires modules { (1 ≤ modules) × (modules ≤ 26) }
    ensures { IfOk result (IsMade links modules shown) }
{
    let rooms = make_rooms(alloc, links, modules)?;
    if shown {
        let (posters, desk) = make_desk(alloc, modules)?;
        Ok(Board {
            posters,
            rooms,
            desk: Some(desk),
        })
    } else {
        Ok(Board {
            posters: Vec::new(alloc),
            rooms,
            desk: None,
        })
    }
}

fn make_rooms<B: Book + Drop, R: Drop>(
    alloc: Global,
    links: u32,
    modules: u32,
) -> Result<Rooms<B, R>, NoMemory>
    ensures { IfOk result (HasRooms links modules) }
{
    Ok(Rooms {
        kept_traces: room(alloc, links)?,
        kept_books: room(alloc, modules)?,
        traces: room(alloc, links)?,
        books: room(alloc, modules)?,
        posters: room(alloc, modules)?,
    })
}

fn make_desk(alloc: Global, modules: u32) -> Result<(Vec<Poster>, Desk), NoMemory>
    requires { (1 ≤ modules) × (modules ≤ 26) }
    ensures { IfOk result (λ made. HasEnds modules made.0.items made.1) }
{
    let (posters, eyes) = make(alloc, modules)?;
    let (quit, order) = make_one(alloc, 1)?;
    let desk = Desk {
        eyes,
        last: zeros(alloc, modules)?,
        quit,
        order,
        glances: room(alloc, modules)?,
    };
    Ok((posters, desk))
}

// An empty vector with room for `count` items.
fn room<T>(alloc: Global, count: u32) -> Result<Vec<T>, NoMemory>
    ensures empty { IfOk result (λ v. v.items ≡ []) }
    ensures room { IfOk result (λ v. count ≤ vec_capacity v) }
{
    match Vec::with_capacity(alloc, count as usize) {
        Ok(empty) => Ok(empty),
        Err(_) => Err(NoMemory),
    }
}

// `count` zeros: no line was written of any module.
fn zeros(alloc: Global, count: u32) -> Result<Vec<u64>, NoMemory>
    ensures { IfOk result (λ v. v.items ≡ replicate count 0) }
{
    let mut zeros = room(alloc, count)?;
    for _ in 0..count {
        zeros.push_reserved(0);
    }
    Ok(zeros)
}
