//! How what came to a row composes, which order a job obeys, and how grids, their rows and the orders of their lanes hang
//! together. Each function does nothing: its clause is the law, for ends of lanes of any items.
ghost use Rattle.m17_lane.specs.RowsLaws.{RowsPush, RowsGrow, RowsPop, GridsPop, FirstOrderDecides};
ghost use Rattle.m17_lane.specs.GridLaws.{GridsStand, RowsStand, OrderIsInterleaving};

use crate::laws::order_is_a_shuffle;

/// Pushes at a row's ends.
pub fn rows_push<T>()
    ensures { RowsPush T }
{}

/// Pushes and refusals at a row's ends.
pub fn rows_grow<T>()
    ensures { RowsGrow T }
{}

/// Pops at a row's ends.
pub fn rows_pop<T>()
    ensures { RowsPop T }
{}

/// Pops at a grid's ends.
pub fn grids_pop<T>()
    ensures { GridsPop T }
{}

/// A job obeys the first order of its lane.
pub fn first_order_decides()
    ensures { FirstOrderDecides }
{}

/// Columns are a grid from the first lane that is dealt to them on.
pub fn grids_stand<T>()
    ensures { GridsStand T }
{}

/// The rows of a grid.
pub fn rows_stand<T>()
    ensures { RowsStand T }
{}

/// The order of a finished lane is one interleaving of what its pushers pushed.
pub fn order_is_interleaving<T>()
    ensures { OrderIsInterleaving T }
{
    order_is_a_shuffle::<T>();
}
