//! How the ends of the queues come back together, row by row.
ghost use Rattle.std.specs.Prelude.{◌≡◌, ◌≤◌, [], map, All, length, vec_len, vec_capacity};
ghost use Rattle.std.specs.List.{AllZip};
ghost use Rattle.m17_reflect.specs.Rows.{AreOfOnes, AreRowsOfTrails};

use m17_lane::{Popper, Pusher, Trail, finish_row};

/// Takes the ends of rows of lanes of one producer back: in each row a pusher and a popper for each lane, in the same
/// order. It gives the trails of each row's lanes in that order. `trails` has an empty row with room for its trails for
/// each row of poppers. It waits for nothing, and allocates nothing.
pub fn finish_rows<T: Drop>(
    pushers: &mut Vec<Vec<Pusher<T>>>,
    poppers: &mut Vec<Vec<Popper<T>>>,
    trails: &mut Vec<Vec<Trail<T>>>,
)
    requires lanes { AllZip AreOfOnes (map (λ row. row.items) pushers.old.items)
        (map (λ row. row.items) poppers.old.items) }
    requires rooms { AllZip (λ row room. (room.items ≡ []) × (vec_len row ≤ vec_capacity room))
        poppers.old.items trails.old.items }
    ensures { AreRowsOfTrails (map (λ row. row.items) pushers.old.items)
        (map (λ row. row.items) poppers.old.items) (map (λ row. row.items) trails.new.items) }
{
    for row in 0..poppers.len() {
        let ends = &mut pushers[row];
        let others = &mut poppers[row];
        finish_row(ends, others, &mut trails[row]);
    }
}
