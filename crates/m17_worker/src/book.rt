//! What a worker writes to its module's book.
ghost use Rattle.std.specs.Prelude.{◌≡◌, ℕ, List, ◌++◌};
ghost use Rattle.std.specs.Option.{ForSome, option_to_list};
ghost use Rattle.std.specs.List.{flat_map};
ghost use Rattle.m17_ports.specs.Book.{BookTold, HasText};
ghost use Rattle.m17_book.specs.Records.{FitsRecord, IsWritable, record_bytes};
ghost use Rattle.m17_book.specs.declared.version.Version.TheVariants.{Two};

use m17_book::{Record, write_record};
use m17_ports::Book;

// Writes the bytes to the book, in one write. A book that failed is written no more.
pub(crate) fn write_whole<B: Book>(book: &mut B, failed: &mut bool, bytes: &[u8])
    ensures { (start : BookTold B.Label) (text : List ℕ) →
        HasText start text failed.old (B.told book.old) →
        HasText start (text ++ bytes.now) failed.new (B.told book.new) }
{
    m17_ports::laws::books_are_written_in_turn::<B::Label>();
    if !*failed {
        *failed = book.write(bytes).is_err();
    }
}

// Writes the record to the book, if there is one.
pub(crate) fn write_if<B: Book>(book: &mut B, failed: &mut bool, line: &Option<Record>)
    requires { ForSome line.now IsWritable }
    ensures text { (start : BookTold B.Label) (text : List ℕ) →
        HasText start text failed.old (B.told book.old) →
        HasText start (text ++ flat_map record_bytes (option_to_list line.now)) failed.new
        (B.told book.new) }
    ensures fits { ForSome line.now (FitsRecord Two) }
{
    if let Some(line) = line {
        write_whole(book, failed, write_record(line).as_slice());
    }
}
