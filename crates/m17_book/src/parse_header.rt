ghost use Rattle.std.specs.Prelude.{◌≡◌, ◌≢◌, ◌<◌, ◌≤◌, length, take, slice_index, MatchResult};
ghost use Rattle.m17_book.specs.Book.{MagicFlaw, BookHeaderFlaw};
ghost use Rattle.m17_book.specs.Versions.{book_header, header_size, FitsHeader};

use crate::form::MAGIC_BYTES;
use crate::version::Version;
use crate::{Flaw, Head};
use m17_control::ModuleLetter;

/// The header of a book of the version that the bytes begin with; else what is wrong first.
pub(crate) fn parse_header(version: Version, b: &[u8]) -> Result<Head, Flaw>
    ensures { MatchResult result (λ head. (header_size version ≤ length b.now) × FitsHeader version head
        × (take (header_size version) b.now ≡ book_header version head)) (BookHeaderFlaw version b.now) }
{
    parse_magic(&version.magic(), b)?;
    if b.len() <= MAGIC_BYTES {
        return Err(Flaw::Cut);
    }
    let Some(module) = ModuleLetter::new(b[MAGIC_BYTES]) else {
        return Err(Flaw::Field(MAGIC_BYTES));
    };
    if b.len() < version.header_bytes() {
        return Err(Flaw::Cut);
    }
    Ok(Head {
        module,
        limit: version.limit(b),
    })
}

/// Whether the bytes begin with this magic; else what is wrong first.
pub(crate) fn parse_magic(magic: &[u8; 8], b: &[u8]) -> Result<(), Flaw>
    ensures { MatchResult result (λ _. (8 ≤ length b.now) × (take 8 b.now ≡ magic.now))
        (MagicFlaw magic.now b.now) }
{
    if b.len() < MAGIC_BYTES {
        return Err(Flaw::Cut);
    }
    for place in 0..MAGIC_BYTES {
        if b[place] != magic[place] {
            return Err(Flaw::Field(place));
        }
    }
    Ok(())
}
