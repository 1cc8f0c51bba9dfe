//! How the lanes of one producer each are made.
ghost use Rattle.std.specs.Prelude.{◌≡◌, ◌+◌, ◌*◌, ◌^◌, ◌<◌, IfOk, map, length, vec_len, vec_capacity};
ghost use Rattle.m17_reflect.specs.Ends.{AreNewLines, IsNewLine};

use crate::vectors::room;
use m17_lane::{MarkedBell, Popper, Pusher, make_one};
use m17_values::NoMemory;
use std::alloc::Global;

/// The ends of lanes of one producer each: those of a lane have the same place.
#[derive(Drop)]
pub(crate) struct Line<T> {
    pub(crate) pushers: Vec<Pusher<T>>,
    pub(crate) poppers: Vec<Popper<T>>,
}

/// Rows of such lanes.
#[derive(Drop)]
pub(crate) struct Lines<T> {
    pub(crate) pushers: Vec<Vec<Pusher<T>>>,
    pub(crate) poppers: Vec<Vec<Popper<T>>>,
}

/// Makes `count` lanes, each with room for `capacity` items and a bell of its own.
pub(crate) fn lay_line<T: Drop>(
    alloc: Global,
    count: u32,
    capacity: u32,
) -> Result<Line<T>, NoMemory>
    requires { 0 < capacity }
    ensures line { IfOk result (λ line. IsNewLine capacity line.pushers.items line.poppers.items) }
    ensures count { IfOk result (λ line. length line.poppers.items ≡ count) }
{
    let mut pushers = room(alloc, count)?;
    let mut poppers = room(alloc, count)?;
    for _laid in 0..count {
        let (pusher, popper) = make_one(alloc, capacity)?;
        pushers.push_reserved(pusher);
        poppers.push_reserved(popper);
    }
    Ok(Line { pushers, poppers })
}

/// Makes `count` lanes that ring this bell, with marks from this first one on, which has to be the next one.
pub(crate) fn lay_marked_line<T: Drop>(
    alloc: Global,
    bell: &mut MarkedBell,
    first: u32,
    count: u32,
    capacity: u32,
) -> Result<Line<T>, NoMemory>
    requires capacity { 0 < capacity }
    requires next { first ≡ bell.old.laid }
    requires fits { first + count < 2 ^ 32 }
    ensures line { IfOk result (λ line. IsNewLine capacity line.pushers.items line.poppers.items) }
    ensures count { IfOk result (λ line. length line.poppers.items ≡ count) }
    ensures laid { IfOk result (λ _. bell.new.laid ≡ first + count) }
    ensures lanes { IfOk result (λ _. bell.new.lanes ≡ bell.old.lanes) }
{
    let mut pushers = room(alloc, count)?;
    let mut poppers = room(alloc, count)?;
    for laid in 0..count {
        let (pusher, popper) = bell.lay_one(alloc, first + laid, capacity)?;
        pushers.push_reserved(pusher);
        poppers.push_reserved(popper);
    }
    Ok(Line { pushers, poppers })
}

/// Makes `rows` rows of `count` lanes that ring this bell, the first that do: the lane at place q of row m has the mark
/// m * count + q.
pub(crate) fn lay_marked_lines<T: Drop>(
    alloc: Global,
    bell: &mut MarkedBell,
    rows: u32,
    count: u32,
    capacity: u32,
) -> Result<Lines<T>, NoMemory>
    requires capacity { 0 < capacity }
    requires first { bell.old.laid ≡ 0 }
    requires fits { rows * count < 2 ^ 32 }
    ensures lines { IfOk result (λ lines. AreNewLines capacity rows count
        (map (λ row. row.items) lines.pushers.items)
        (map (λ row. row.items) lines.poppers.items)) }
    ensures laid { IfOk result (λ _. bell.new.laid ≡ rows * count) }
    ensures lanes { IfOk result (λ _. bell.new.lanes ≡ bell.old.lanes) }
{
    let mut pushers = room(alloc, rows)?;
    let mut poppers = room(alloc, rows)?;
    for row in 0..rows {
        let line = lay_marked_line(alloc, bell, row * count, count, capacity)?;
        pushers.push_reserved(line.pushers);
        poppers.push_reserved(line.poppers);
    }
    Ok(Lines { pushers, poppers })
}
