//! The end by which a module is looked at.
ghost use Rattle.std.specs.Prelude.{◌≡◌, ◌++◌, List};
ghost use Rattle.m17_book.specs.declared.record.Record.{Record};
ghost use Rattle.m17_board.specs.Glance.{glance_of};
ghost use Rattle.m17_board.specs.Ends.{longer, seen_more};

use crate::glance::Glance;
use crate::note::Note;
use crate::rule::{Cell, Hears, Looks, Seen};
use std::alloc::Global;
use std::marker::Model;
use std::sync::{Arc, Wait};

/// Looks at what was posted of one module. There is one for each module of a board.
#[derive(Drop)]
pub struct Eye {
    pub(crate) cell: Arc<Cell, Global>,
    pub(crate) pass: Seen,
    pub(crate) number: u32,
}

impl Model for Eye {
    ghost use Rattle.m17_board.specs.Ends.{EyeEnd};

    ghost Value = { EyeEnd };

    ghost use Rattle.m17_board.specs.Models.{eye_end, IsWatching};

    ghost view = { eye_end };

    ghost invariant = { IsWatching };
}

impl Eye {
    ghost use Rattle.m17_board.specs.Ends.{EyeEnd};

    /// Tells the eye what was posted when the note was taken: its looks show that much from now on.
    pub fn told(&mut self, note: Note)
        requires { note.cell ≡ self.old.cell }
        ensures { self.new ≡ record self.old { known = longer self.old.known note.known } }
    {
        let Note { pass, number: _ } = note;
        self.cell.join_pass::<Hears>(&mut self.pass, pass);
    }

    /// The glance at a first part of what was posted, in one step: at all that this eye knew of, from its earlier looks
    /// and from notes, and maybe at more.
    pub fn look<R: Wait>(&mut self, rt: &R) -> Glance
        ensures { (more : List Record) × (self.new ≡ seen_more self.old more)
            × (result ≡ glance_of (self.old.known ++ more)) }
    {
        let words = self.cell.load_as::<Looks, R>(rt, &mut self.pass);
        Glance::of_words(&words)
    }
}
