//! Pushes and pops at one place of a row of ends, with what they come to for the whole row.
ghost use Rattle.std.specs.Prelude.{◌≡◌, ◌<◌, ◌≤◌, length, map, slice_get, slice_index, vec_len, vec_capacity, MatchOption, MatchResult, IfErr, IfSome};
ghost use Rattle.m17_lane.specs.Rows.{push_each, grow_each, pop_each, only, nowhere};
ghost use Rattle.m17_lane.specs.Grids.{pop_grid, only_in};

use crate::{Popper, Pusher};
use std::sync::Wait;

/// Pushes `item` at the end of the row with that index, and waits while its lane is full: see `Pusher::push_waiting`.
/// All other ends of the row are as they were.
pub fn push_at<T, R: Wait>(rt: &R, row: &mut Vec<Pusher<T>>, at: usize, item: T)
    requires { at < vec_len row.old }
    ensures row { row.new.items ≡ push_each (only at item) 0 row.old.items }
    ensures same_length { vec_len row.new ≡ vec_len row.old }
    ensures same_room { vec_capacity row.new ≡ vec_capacity row.old }
{
    row[at].push_waiting(rt, item);
}

/// `push_at` that wakes nobody unless it has to wait: see `Pusher::push_unrung`.
pub fn push_unrung_at<T, R: Wait>(rt: &R, row: &mut Vec<Pusher<T>>, at: usize, item: T)
    requires { at < vec_len row.old }
    ensures row { row.new.items ≡ push_each (only at item) 0 row.old.items }
    ensures same_length { vec_len row.new ≡ vec_len row.old }
    ensures same_room { vec_capacity row.new ≡ vec_capacity row.old }
{
    row[at].push_unrung(rt, item);
}

/// `push_at` of an item that can wait until `enough` are there: see `Pusher::push_quietly`.
pub fn push_quietly_at<T, R: Wait>(
    rt: &R,
    row: &mut Vec<Pusher<T>>,
    at: usize,
    item: T,
    enough: usize,
)
    requires { at < vec_len row.old }
    ensures row { row.new.items ≡ push_each (only at item) 0 row.old.items }
    ensures same_length { vec_len row.new ≡ vec_len row.old }
    ensures same_room { vec_capacity row.new ≡ vec_capacity row.old }
{
    row[at].push_quietly(rt, item, enough);
}

/// Pushes `item` at the end of the row with that index where there is room, and hands it back where the lane is full;
/// it then counts as refused at that end. It never waits, and wakes nobody: see `Pusher::try_push_unrung`. All other ends of
/// the row are as they were. In a lane of one producer a refusal comes only after at least `capacity` pushes.
pub fn try_push_at<T, R: Wait>(
    rt: &R,
    row: &mut Vec<Pusher<T>>,
    at: usize,
    item: T,
) -> Result<(), T>
    requires { at < vec_len row.old }
    ensures row { MatchResult result
        (λ _. row.new.items ≡ grow_each (only at item) nowhere 0 row.old.items)
        (λ back. (back ≡ item)
        × (row.new.items ≡ grow_each nowhere (only at item) 0 row.old.items)) }
    ensures full { IfErr result (λ _. IfSome (slice_get row.old.items at) (λ q.
        q.producers ≡ 1 → q.capacity ≤ length q.pushed)) }
    ensures same_length { vec_len row.new ≡ vec_len row.old }
    ensures same_room { vec_capacity row.new ≡ vec_capacity row.old }
{
    row[at].try_push_unrung(rt, item)
}

/// The oldest item of the lane whose end has that index in the row, or None where that lane is empty; it never waits.
/// All other ends of the row are as they were.
pub fn pop_at<T, R: Wait>(rt: &R, row: &mut Vec<Popper<T>>, at: usize) -> Option<T>
    requires { at < vec_len row.old }
    ensures row { MatchOption result (row.new.items ≡ row.old.items)
        (λ x. row.new.items ≡ pop_each (only at x) 0 row.old.items) }
    ensures same_length { vec_len row.new ≡ vec_len row.old }
    ensures same_room { vec_capacity row.new ≡ vec_capacity row.old }
{
    row[at].try_pop(rt)
}

/// `pop_at` in a row of rows: at the end with index `at` of the row with index `row`. All other ends of the grid are as
/// they were, and each row is as long as it was.
pub fn pop_in<T, R: Wait>(
    rt: &R,
    grid: &mut Vec<Vec<Popper<T>>>,
    row: usize,
    at: usize,
) -> Option<T>
    requires row { row < vec_len grid.old }
    requires at { at < slice_index (map (λ ends. vec_len ends) grid.old.items) row }
    ensures grid { let was = map (λ ends. ends.items) grid.old.items in
        let is = map (λ ends. ends.items) grid.new.items in
        MatchOption result (is ≡ was) (λ x. is ≡ pop_grid (only_in row at x) 0 was) }
    ensures same_lengths { map (λ ends. vec_len ends) grid.new.items
        ≡ map (λ ends. vec_len ends) grid.old.items }
    ensures same_length { vec_len grid.new ≡ vec_len grid.old }
    ensures same_room { vec_capacity grid.new ≡ vec_capacity grid.old }
{
    pop_at(rt, &mut grid[row], at)
}
