//! How the ends of many lanes come back together.
ghost use Rattle.std.specs.Prelude.{◌≡◌, ◌+◌, ◌<◌, ◌≤◌, [], map, All, length, vec_len, vec_capacity};
ghost use Rattle.m17_lane.specs.Columns.{each_with, lanes_of, lanes_popped, IsGrid};
ghost use Rattle.m17_lane.specs.Trails.{AreTrails, AreTrailsOfOnes};

use crate::columns::collect;
use crate::{Popper, Pusher, Trail, finish, finish_one};

/// Takes all ends of many lanes back: a column of pushers for each producer, with an end for each lane, and the poppers
/// of the lanes. It gives the lanes' trails, in the order of the poppers. `shells` are empty vectors with room for a
/// lane's pushers, one for each lane, and `trails` is to be empty with room for all. It waits for nothing, and
/// allocates nothing.
pub fn finish_each<T: Drop>(
    columns: &mut Vec<Vec<Pusher<T>>>,
    poppers: &mut Vec<Popper<T>>,
    shells: &mut Vec<Vec<Pusher<T>>>,
    trails: &mut Vec<Trail<T>>,
)
    requires grid { IsGrid (map (λ column. column.items) columns.old.items) poppers.old.items }
    requires shells { All (λ shell. (shell.items ≡ [])
        × (vec_len columns.old ≤ vec_capacity shell)) shells.old.items }
    requires enough { vec_len poppers.old ≤ vec_len shells.old }
    requires empty { trails.old.items ≡ [] }
    requires room { vec_len poppers.old ≤ vec_capacity trails.old }
    ensures trails { AreTrails (map (λ column. column.items) columns.old.items) poppers.old.items
        trails.new.items }
    ensures emptied { poppers.new.items ≡ [] }
{
    while let Some(popper) = poppers.pop() {
        let row = take_row(columns, shells);
        trails.push_reserved(finish(row, popper));
    }
    trails.reverse();
}

// The last end of each column, in one of the empty vectors.
fn take_row<T>(columns: &mut Vec<Vec<T>>, shells: &mut Vec<Vec<T>>) -> Vec<T>
    requires some { All (λ column. 0 < vec_len column) columns.old.items }
    requires shells { All (λ shell. (shell.items ≡ [])
        × (vec_len columns.old ≤ vec_capacity shell)) shells.old.items }
    requires enough { 0 < vec_len shells.old }
    ensures taken { map (λ column. column.items) columns.old.items
        ≡ each_with (map (λ column. column.items) columns.new.items) result.items }
    ensures count { vec_len result ≡ vec_len columns.old }
    ensures same_length { vec_len columns.new ≡ vec_len columns.old }
    ensures shells { All (λ shell. (shell.items ≡ [])
        × (vec_len columns.old ≤ vec_capacity shell)) shells.new.items }
    ensures fewer { vec_len shells.new + 1 ≡ vec_len shells.old }
{
    match shells.pop() {
        Some(shell) => {
            let mut row = shell;
            collect(columns, &mut row);
            row
        }
        None => unreachable!(),
    }
}

/// Takes the ends of lanes of one producer back: a pusher and a popper for each lane, in the same order. It gives the
/// lanes' trails in that order. `trails` is to be empty with room for all. It waits for nothing, and allocates nothing.
pub fn finish_row<T: Drop>(
    pushers: &mut Vec<Pusher<T>>,
    poppers: &mut Vec<Popper<T>>,
    trails: &mut Vec<Trail<T>>,
)
    requires lanes { lanes_of pushers.old.items ≡ lanes_popped poppers.old.items }
    requires alone { All (λ p. p.producers ≡ 1) poppers.old.items }
    requires empty { trails.old.items ≡ [] }
    requires room { vec_len poppers.old ≤ vec_capacity trails.old }
    ensures trails { AreTrailsOfOnes pushers.old.items poppers.old.items trails.new.items }
    ensures emptied { (pushers.new.items ≡ []) × (poppers.new.items ≡ []) }
{
    while let Some(popper) = poppers.pop() {
        match pushers.pop() {
            Some(pusher) => trails.push_reserved(finish_one(pusher, popper)),
            None => unreachable!(),
        }
    }
    trails.reverse();
}
