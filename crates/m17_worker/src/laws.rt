//! What holds of the records of every list of events. Each function does nothing: its clause is the law.
ghost use Rattle.m17_worker.specs.BookLaws as law;

/// The records of a module's events keep what its book is to keep of them, act by act; and where it has at most 256
/// places, they are a legal book.
pub fn books_are_legal()
    ensures acts { law.RecordsKeepTheActs }
    ensures legal { law.BooksAreLegal }
{
    m17_module::laws::records_are_legal();
}
