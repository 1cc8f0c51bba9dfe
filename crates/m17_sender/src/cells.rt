//! The cells for Hellos that are held back: a row for each module, in it one for each place.
ghost use Rattle.std.specs.Prelude.{◌≡◌, ◌<◌, [], ◌∷◌, map, slice_set, length, None, Some, option_to_list};
ghost use Rattle.std.specs.Option.{option_copied};
ghost use Rattle.m17_control.specs.declared.item.Item.{Item};
ghost use Rattle.m17_sender.specs.Places.{held_at};
ghost use Rattle.m17_sender.specs.Cells.{HasPlace, HoldsMore};

use m17_control::Item;

/// The item that is held back at a place, if one is.
pub(crate) fn cell_at(cells: &Vec<Vec<Option<Item>>>, row: usize, at: usize) -> Option<&Item>
    requires { HasPlace (map (λ row. row.items) cells.now.items) row at }
    ensures { option_to_list (option_copied result)
        ≡ held_at (map (λ row. row.items) cells.now.items) row at }
{
    cells[row][at].as_ref()
}

/// Empties a place where an item is held back.
pub(crate) fn empty_cell(cells: &mut Vec<Vec<Option<Item>>>, row: usize, at: usize)
    requires { HasPlace (map (λ row. row.items) cells.old.items) row at }
    ensures { (item : Item) → held_at (map (λ row. row.items) cells.old.items) row at ≡ item ∷ []
        → HoldsMore (map (λ row. row.items) cells.new.items)
        (map (λ row. row.items) cells.old.items) row at item }
{
    put(&mut cells[row], at, None);
}

/// Puts an item into a place where none is held back.
pub(crate) fn fill_cell(cells: &mut Vec<Vec<Option<Item>>>, row: usize, at: usize, item: Item)
    requires place { HasPlace (map (λ row. row.items) cells.old.items) row at }
    requires free { held_at (map (λ row. row.items) cells.old.items) row at ≡ [] }
    ensures { HoldsMore (map (λ row. row.items) cells.old.items)
        (map (λ row. row.items) cells.new.items) row at item }
{
    put(&mut cells[row], at, Some(item));
}

fn put(row: &mut Vec<Option<Item>>, at: usize, cell: Option<Item>)
    requires { at < length row.old.items }
    ensures { row.new.items ≡ slice_set row.old.items at cell }
{
    row[at] = cell;
}
