//! What stands in the cells that are filled.
ghost use Rattle.std.specs.Prelude.{◌≡◌, ◌==◌, ◌-◌, true, false, length, nat_lt, slice_get};
ghost use Rattle.std.specs.Option.{option_map_or};
ghost use Rattle.m17_tape.specs.Cells.{AreRising, IsPlaceFor};

// What stands in the cell with this number.
#[derive(Drop)]
pub(crate) struct Note<T> {
    pub(crate) index: u32,
    pub(crate) what: T,
}

// How many of the notes are of cells before this one. Mostly they all are, so the last one is looked at first.
pub(crate) fn place_of<T: Copy>(notes: &[Note<T>], cells: u32, index: u64) -> usize
    requires { AreRising 0 cells notes.now }
    ensures { IsPlaceFor notes.now index result }
{
    if is_behind(notes, index) {
        return notes.len();
    }
    notes.partition_point(|note| u64::from(note.index) < index)
}

// Whether the last note, if there is one, is of a cell before this one.
fn is_behind<T: Copy>(notes: &[Note<T>], index: u64) -> bool
    ensures { result ≡ option_map_or (λ note. nat_lt note.index index)
        (slice_get notes.now (length notes.now - 1)) true }
{
    match notes.last() {
        Some(last) => u64::from(last.index) < index,
        None => true,
    }
}

// Whether the note at this place is of this cell.
pub(crate) fn is_of<T: Copy>(notes: &[Note<T>], place: usize, index: u64) -> bool
    ensures { result ≡ option_map_or (λ note. note.index == index) (slice_get notes.now place) false }
{
    match notes.get(place) {
        Some(note) => u64::from(note.index) == index,
        None => false,
    }
}
