ghost use Rattle.std.specs.Prelude.{◌≡◌, All, IfOk, Some, None, length, option_and_then, slice_get, slice_set};

use crate::notes::{Note, is_of, place_of};
use m17_values::NoMemory;
use std::alloc::Global;
use std::marker::Model;

/// Cells by number, of which few are filled: memory is touched only for those that are. Contracts see the list of cells.
#[derive(Drop)]
pub struct Tape<T> {
    cells: u32,
    notes: Vec<Note<T>>,
}

impl<T> Model for Tape<T> {
    ghost use Rattle.std.specs.Prelude.{List, Option, vec_capacity};

    ghost Value = { List (Option T) };

    ghost use Rattle.m17_tape.specs.Cells.{IsTape, cells_of};

    ghost view = { λ t. cells_of t.cells t.notes.items };

    ghost invariant = { λ t. IsTape t.cells (vec_capacity t.notes) t.notes.items };
}

impl<T> Tape<T> {
    /// `cells` cells, in which nothing is. It reserves room for what may come and touches none of it; there may be no
    /// memory.
    pub fn make(alloc: Global, cells: u32) -> Result<Tape<T>, NoMemory>
        ensures count { IfOk result (λ tape. length tape ≡ cells) }
        ensures none { IfOk result (λ tape. All (λ cell. cell ≡ None) tape) }
    {
        let notes = Vec::with_capacity(alloc, cells as usize)?;
        Ok(Tape { cells, notes })
    }
}

impl<T: Copy> Tape<T> {
    /// Puts this into the cell with this number, where there is one, in place of what was there.
    pub fn fill(&mut self, index: u64, what: T)
        ensures { self.new ≡ slice_set self.old index (Some what) }
    {
        if index >= u64::from(self.cells) {
            return;
        }
        let note = Note {
            index: index as u32,
            what,
        };
        let place = place_of(self.notes.as_slice(), self.cells, index);
        if is_of(self.notes.as_slice(), place, index) {
            self.notes[place] = note;
        } else {
            self.notes.insert(place, note).unwrap();
        }
    }

    /// What the cell with this number has; nothing where it is empty, or not there.
    pub fn get(&self, n: usize) -> Option<T>
        ensures { result ≡ option_and_then (λ cell. cell) (slice_get self.now n) }
    {
        let place = place_of(self.notes.as_slice(), self.cells, n as u64);
        if is_of(self.notes.as_slice(), place, n as u64) {
            Some(self.notes[place].what)
        } else {
            None
        }
    }
}
