//! The one kind of book for the traces and the books of a run, whose board is shown or is not.
ghost use Rattle.std.specs.Prelude.{◌≡◌, None, false, true};
ghost use Rattle.m17_board_run.specs.Kept.{kept_told};
ghost use Rattle.m17_board_run.specs.Putting.{IsPosting};

use m17_board::{BoardBook, BoardLabel};
use m17_ports::{Book, Shelf};
use m17_values::Failed;
use std::sync::Wait;

/// Which book it is: what is said at the shelf alone, or at the book that posts. No value of it is made.
pub enum KeptLabel<L> {
    /// The label of the shelf.
    Plain(Option<L>),
    /// The label of the book that posts: that of the shelf below it, and its poster.
    Posting(BoardLabel<Option<L>>),
}

/// A trace or a book of a run: a shelf as it is, or a book over one that posts.
#[derive(Drop)]
pub enum Kept<B: Book + Drop, R: Drop> {
    /// It posts nothing.
    Plain(Shelf<B>),
    /// It posts each record that is written to it, whether there is a book on the shelf or none.
    Posting(BoardBook<Shelf<B>, R>),
}

impl<B: Book + Drop, R: Wait + Drop> Book for Kept<B, R> {
    ghost use Rattle.m17_board_run.specs.Kept.{kept-fits};

    type Label = KeptLabel<B::Label>;

    ghost told = { kept_told B.told };

    ghost faults_fit = { λ kept. kept-fits B.told B.faults_fit kept };

    // Without a board it keeps what its shelf keeps; what posts has to be written to all the same.
    fn is_kept(&self) -> bool
        ensures untold { result ≡ false → ((kept_told B.told self.now).written ≡ None)
            × ((kept_told B.told self.now).device.mark ≡ None) }
        ensures posting { IsPosting self.now → result ≡ true }
    {
        match self {
            Kept::Plain(shelf) => shelf.is_kept(),
            Kept::Posting(_) => true,
        }
    }

    fn write(&mut self, bytes: &[u8]) -> Result<(), Failed> {
        match self {
            Kept::Plain(shelf) => shelf.write(bytes),
            Kept::Posting(book) => book.write(bytes),
        }
    }
}
