//! The end by which a module's records are posted.
ghost use Rattle.std.specs.Prelude.{◌≡◌, ◌++◌, [], ◌∷◌};
ghost use Rattle.std.specs.Arc.{arc_value};
ghost use Rattle.crossbeam_utils.specs.Seq.{cell_view};
ghost use Rattle.m17_board.specs.Glance.{glance_of};

use crate::glance::Glance;
use crate::note::Note;
use crate::rule::{Cell, Posting, Posts, Seen, Takes, Taking, Tells};
use crate::sight::Sight;
use m17_book::Record;
use m17_values::Address;
use std::alloc::Global;
use std::marker::{Brand, Model};
use std::sync::{Arc, Wait};

/// Posts the records of one module, one after another. There is one for each module of a board.
#[derive(Drop)]
pub struct Poster {
    pub(crate) cell: Arc<Cell, Global>,
    pub(crate) pass: Seen,
    pub(crate) sight: Sight,
    pub(crate) nobody: Address,
    pub(crate) number: u32,
}

impl Model for Poster {
    ghost use Rattle.m17_board.specs.Ends.{PostEnd};

    ghost Value = { PostEnd };

    ghost use Rattle.m17_board.specs.Models.{post_end, IsPosting};

    ghost view = { post_end };

    ghost invariant = { IsPosting };
}

impl Poster {
    ghost use Rattle.m17_board.specs.Ends.{PostEnd, NoteEnd};

    /// Posts the record, in one step, behind all that was posted before. A board that has 2^64 - 1 records of a module
    /// waits for ever.
    pub fn post<R: Wait>(&mut self, rt: &R, one: &Record)
        ensures { self.new ≡ record self.old { posted = self.old.posted ++ one.now ∷ [] } }
    {
        self.put::<Brand, R>(rt, one);
    }

    // The same, with the record named for the step.
    fn put<A: Posting, R: Wait>(&mut self, rt: &R, one: &Record)
        requires { A.posted ≡ one.now ∷ [] }
        ensures { self.new ≡ record self.old { posted = self.old.posted ++ one.now ∷ [] } }
    {
        if self.sight.records == u64::MAX {
            for _never in rt.forever() {}
        }
        self.sight = self.sight.with_one(one);
        let words = self.sight.glance(self.nobody).to_words();
        self.cell.swap_as::<Posts<A>, R>(rt, &mut self.pass, words);
    }

    // Says to contracts that a book which posts by it took these bytes. When it runs it does nothing.
    pub(crate) fn take(&mut self, bytes: &[u8])
        ensures { self.new ≡ record self.old { taken = self.old.taken ++ bytes.now } }
    {
        self.take_named::<Brand>(bytes);
    }

    // The same, with the bytes named for the pass.
    fn take_named<A: Taking>(&mut self, _bytes: &[u8])
        requires { A.taken ≡ _bytes.now }
        ensures { self.new ≡ record self.old { taken = self.old.taken ++ _bytes.now } }
    {
        drop(self.cell.split_pass::<Takes<A>>(&mut self.pass));
    }

    /// What was posted so far, for an eye to be told.
    pub fn note(&mut self) -> Note
        ensures note { result ≡ record {
          cell = self.old.cell;
          number = self.old.number;
          known = self.old.posted;
        } }
        ensures same { self.new ≡ self.old }
    {
        let pass = self.cell.split_pass::<Tells>(&mut self.pass);
        Note {
            pass,
            number: self.number,
        }
    }

    /// The glance at all that was posted.
    pub fn glance(&self) -> Glance
        ensures { result ≡ glance_of self.now.posted }
    {
        self.sight.glance(self.nobody)
    }
}
