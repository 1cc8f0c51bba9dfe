//! How the lanes of a grid are made, before anything is started.
ghost use Rattle.std.specs.Prelude.{◌≡◌, ◌<◌, ◌≤◌, [], map, All, length, IfOk, vec_len, vec_capacity};
ghost use Rattle.m17_lane.specs.Laid.{IsLaid};

use crate::columns::deal;
use crate::{Popper, Pusher, make};
use m17_values::NoMemory;
use std::alloc::Global;

/// The ends of new lanes, and the empty vectors that `finish_each` wants.
#[derive(Drop)]
pub struct Laid<T> {
    /// For each producer its ends, one for each lane.
    pub columns: Vec<Vec<Pusher<T>>>,
    /// For each lane the end that pops.
    pub poppers: Vec<Popper<T>>,
    /// For each lane an empty vector with room for its pushers.
    pub shells: Vec<Vec<Pusher<T>>>,
}

/// Makes that many lanes, each for that many producers and with room for that many items, and deals their ends out: a
/// column for each producer. `NoMemory` where there is none for them; nothing else is refused.
pub fn lay<T: Drop>(
    alloc: Global,
    producers: u32,
    lanes: u32,
    capacity: u32,
) -> Result<Laid<T>, NoMemory>
    requires producers { 0 < producers }
    requires capacity { 0 < capacity }
    ensures laid { IfOk result (λ laid. IsLaid producers capacity
        (map (λ column. column.items) laid.columns.items) laid.poppers.items) }
    ensures lanes { IfOk result (λ laid. (vec_len laid.poppers ≡ lanes)
        × (vec_len laid.shells ≡ lanes)) }
    ensures shells { IfOk result (λ laid. All (λ shell. (shell.items ≡ [])
        × (producers ≤ vec_capacity shell)) laid.shells.items) }
{
    let mut columns = empty_columns(alloc, producers, lanes)?;
    let mut poppers = Vec::with_capacity(alloc, lanes as usize)?;
    let mut shells = Vec::with_capacity(alloc, lanes as usize)?;
    for _laid in 0..lanes {
        let (mut row, popper) = make(alloc, producers, capacity)?;
        deal(&mut columns, &mut row);
        poppers.push_reserved(popper);
        shells.push_reserved(row);
    }
    Ok(Laid {
        columns,
        poppers,
        shells,
    })
}

// That many empty columns with that much room.
fn empty_columns<T: Drop>(alloc: Global, count: u32, room: u32) -> Result<Vec<Vec<T>>, NoMemory>
    ensures count { IfOk result (λ columns. vec_len columns ≡ count) }
    ensures empty { IfOk result (λ columns. All (λ column. (column.items ≡ [])
        × (vec_capacity column ≡ room)) columns.items) }
{
    let mut columns = Vec::with_capacity(alloc, count as usize)?;
    for _made in 0..count {
        let column = Vec::with_capacity(alloc, room as usize)?;
        columns.push_reserved(column);
    }
    Ok(columns)
}
