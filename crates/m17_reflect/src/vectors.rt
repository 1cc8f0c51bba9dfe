//! Vectors that are made before anything is started: empty ones with room, and ones of empty cells.
ghost use Rattle.std.specs.Prelude.{◌≡◌, ◌+◌, ◌<◌, ◌++◌, ◌∷◌, [], All, IfOk, None, length, vec_len, vec_capacity};
ghost use Rattle.m17_reflect.specs.Rooms.{AreRooms, IsRoom};

use m17_values::NoMemory;
use std::alloc::Global;

/// An empty vector with room for `count` items.
pub(crate) fn room<T>(alloc: Global, count: u32) -> Result<Vec<T>, NoMemory>
    ensures { IfOk result (IsRoom count) }
{
    let empty = Vec::with_capacity(alloc, count as usize)?;
    Ok(empty)
}

/// `rows` empty vectors, each with room for `count` items.
pub(crate) fn rooms<T: Drop>(alloc: Global, rows: u32, count: u32) -> Result<Vec<Vec<T>>, NoMemory>
    ensures { IfOk result (λ all. AreRooms rows count all) }
{
    let mut all = room(alloc, rows)?;
    for _made in 0..rows {
        let row = room(alloc, count)?;
        all.push_reserved(row);
    }
    Ok(all)
}

/// So many cells, in which nothing is.
pub(crate) fn empty_cells<T: Drop>(alloc: Global, count: u32) -> Result<Vec<Option<T>>, NoMemory>
    ensures count { IfOk result (λ cells. length cells.items ≡ count) }
    ensures none { IfOk result (λ cells. All (λ cell. cell ≡ None) cells.items) }
{
    let mut cells = room(alloc, count)?;
    for _made in 0..count {
        cells.push_reserved(None);
    }
    Ok(cells)
}

/// `rows` rows of `count` cells, in which nothing is.
pub(crate) fn empty_rows<T: Drop>(
    alloc: Global,
    rows: u32,
    count: u32,
) -> Result<Vec<Vec<Option<T>>>, NoMemory>
    ensures rows { IfOk result (λ all. length all.items ≡ rows) }
    ensures each { IfOk result (λ all. All (λ row. (length row.items ≡ count)
        × All (λ cell. cell ≡ None) row.items) all.items) }
{
    let mut all = room(alloc, rows)?;
    for _made in 0..rows {
        let row = empty_cells(alloc, count)?;
        all.push_reserved(row);
    }
    Ok(all)
}

/// Takes the last out; there has to be one.
pub(crate) fn take_last<T>(from: &mut Vec<T>) -> T
    requires { 0 < vec_len from.old }
    ensures last { from.old.items ≡ from.new.items ++ result ∷ [] }
    ensures fewer { vec_len from.new + 1 ≡ vec_len from.old }
    ensures same_room { vec_capacity from.new ≡ vec_capacity from.old }
{
    match from.pop() {
        Some(last) => last,
        None => unreachable!(),
    }
}
