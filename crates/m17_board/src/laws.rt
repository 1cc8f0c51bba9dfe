//! What follows for every book that posts and for every watch, for callers to cite by name. Each function does nothing: its
//! clause is the law.
ghost use Rattle.m17_board.specs.Laws as law;

use m17_book::laws::book_forms_are_exact;
use m17_ports::Book;
use m17_ports::laws::books_are_written_in_turn;

/// Which records stand whole in bytes is certain: one list at most, of a whole book just its records, and a first part of
/// what stands whole once more bytes have come. So what a `BoardBook` posted of a whole book is just its records.
pub fn one_list_stands_whole()
    ensures { law.OneListStandsWhole }
{
    book_forms_are_exact();
}

/// What a watch wrote whose book had not failed before is lines of its modules, each with what the module's eye saw, and the
/// numbers of a module's lines rise. `T` is the kind of the watch's clock.
pub fn numbers_of_lines_rise<B: Book, T>()
    ensures { law.NumbersRise T B.told }
{
    books_are_written_in_turn::<B::Label>();
}

/// Once the board has ended, each of these lines tells what is shown of a first part of what was posted of its module.
pub fn lines_tell_first_parts<B: Book, T>()
    ensures { law.LinesTellFirstParts T B.told }
{}

/// A watch that ended has the eyes that it had, of the same board, in the same places, and the same book.
pub fn ends_stay<B: Book, T>()
    ensures { law.EndsStay T B.told }
{}
