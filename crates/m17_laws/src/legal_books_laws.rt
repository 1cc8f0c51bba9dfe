//! What follows for the books of a run. Each function does nothing: its clause is the law.
ghost use Rattle.m17_laws.specs.LegalBooksLaws.{BooksOfRunsAreLegal, BooksOfServeAreLegal, CheckFindsBooksLegal};

/// The book of a module is legal, whatever its links heard: where it told nothing before the run and tells bytes after it,
/// and its count of faults didn't rise, these are its header, which names the plan's limit, and records that break no rule
/// under that limit. At most 256 places. `E`, `M` and `B` are the kinds of the labels of ears, mouths and books.
pub fn books_of_runs_are_legal<E, M, B>()
    ensures { BooksOfRunsAreLegal E M B }
{
    m17_worker::laws::books_are_legal();
}

/// A book that `serve` hands back, tells its bytes and has never failed is a legal book of its module, under the
/// limit of its header, whatever the links heard, and whether a board is shown or not. That is the limit of the words.
pub fn books_of_serve_are_legal<E, M, B>()
    ensures { BooksOfServeAreLegal E M B }
{
    books_of_runs_are_legal::<E, M, m17_board_run::KeptLabel<B>>();
}

/// `check` finds such a book legal, if it has at most 67,108,872 bytes: it is a book that `check` takes, and `check` refuses it
/// nowhere. So by its contract `check` writes the line of a legal book of these records, unless its source or its sink failed.
pub fn check_finds_books_legal<E, M, B>()
    ensures { CheckFindsBooksLegal E M B }
{
    m17_text_commands::check_laws::legal_books_are_not_refused();
}
