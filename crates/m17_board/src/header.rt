//! Whether bytes are the header of a book.
ghost use Rattle.std.specs.Prelude.{◌↔◌, IsTrue};
ghost use Rattle.m17_board.specs.Whole.{IsHeader};

use m17_book::{Head, write_header};
use m17_control::ModuleLetter;
use m17_fields::get_64;

/// How many bytes a header has.
pub(crate) const HEADER_BYTES: usize = 17;

/// Where the letter of the module stands, and the limit.
const LETTER_AT: usize = 8;

const LIMIT_AT: usize = 9;

/// Whether the bytes are a header, all of them: it is spelled again and compared.
pub(crate) fn is_header(b: &[u8]) -> bool
    ensures { IsTrue result ↔ IsHeader b.now }
{
    m17_fields::laws::fields_of_64_bits_are_exact();
    if b.len() != HEADER_BYTES {
        return false;
    }
    let Some(module) = ModuleLetter::new(b[LETTER_AT]) else {
        return false;
    };
    let limit = get_64(b, LIMIT_AT);
    let spelled = write_header(&Head { module, limit });
    b == spelled.as_slice()
}
