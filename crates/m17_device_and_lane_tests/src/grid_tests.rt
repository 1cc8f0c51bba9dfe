//! What no clause says: that the calls go through with ample memory, and that what is left in a lane comes out of the
//! trail of that lane.
ghost use Rattle.std.specs.Prelude.{◌≡◌, map, vec_len};
ghost use Rattle.m17_lane.specs.Columns.{IsGrid};

use m17_lane::rows_laws::{grids_stand, rows_push};
use m17_lane::{Laid, Popper, Pusher, finish_each, finish_row, lay, make_one, push_at};
use std::sync::Wait;
use std::test::Fail;

// Pushes at a lane's place of a column, where there is one.
fn push_in<R: Wait>(
    rt: &R,
    columns: &mut Vec<Vec<Pusher<u32>>>,
    poppers: &Vec<Popper<u32>>,
    place: (usize, usize),
    item: u32,
)
    requires grid { IsGrid (map (λ column. column.items) columns.old.items) poppers.now.items }
    ensures grid { IsGrid (map (λ column. column.items) columns.new.items) poppers.now.items }
    ensures same_length { vec_len columns.new ≡ vec_len columns.old }
{
    let _ = poppers;
    let (column, lane) = place;
    rows_push::<u32>();
    grids_stand::<u32>();
    if column < columns.len() && lane < columns[column].len() {
        push_at(rt, &mut columns[column], lane, item);
    }
}

#[test]
fn what_is_left_in_a_lane_comes_out_of_its_own_trail(rt: HostRuntime) -> Result<(), Fail> {
    let Laid {
        mut columns,
        mut poppers,
        mut shells,
    } = lay(rt.alloc(), 2, 3, 4)?;
    let mut trails = Vec::with_capacity(rt.alloc(), 3)?;
    push_in(&rt, &mut columns, &poppers, (1, 0), 20);
    push_in(&rt, &mut columns, &poppers, (0, 0), 10);
    push_in(&rt, &mut columns, &poppers, (0, 2), 30);
    finish_each(&mut columns, &mut poppers, &mut shells, &mut trails);
    let wanted = [(Some(20), Some(10)), (None, None), (Some(30), None)];
    assert_eq!(rt; trails.len(), wanted.len());
    for (trail, two) in trails.iter_mut().zip(wanted) {
        assert_eq!(rt; (trail.left(&rt), trail.left(&rt)), two);
        assert_eq!(rt; trail.left(&rt), None);
    }
    Ok(())
}

#[test]
fn lanes_of_one_producer_give_their_trails_in_order(rt: HostRuntime) -> Result<(), Fail> {
    let (mut first, from_first) = make_one(rt.alloc(), 2)?;
    let (mut second, mut from_second) = make_one(rt.alloc(), 2)?;
    first.push_waiting(&rt, 10u32);
    second.push_waiting(&rt, 20);
    second.push_waiting(&rt, 21);
    assert_eq!(rt; from_second.pop_waiting(&rt), 20);
    let mut pushers = vec![in rt.alloc(); first, second]?;
    let mut poppers = vec![in rt.alloc(); from_first, from_second]?;
    let mut trails = Vec::with_capacity(rt.alloc(), 2)?;
    finish_row(&mut pushers, &mut poppers, &mut trails);
    assert_eq!(rt; trails.len(), 2);
    for (trail, left) in trails.iter_mut().zip([10, 21]) {
        assert_eq!(rt; trail.left(&rt), Some(left));
        assert_eq!(rt; trail.left(&rt), None);
    }
    Ok(())
}
