ghost use Rattle.std.specs.Prelude.{◌≡◌};
ghost use Rattle.m17_book.specs.Versions.{book_header, FitsHeader};
ghost use Rattle.m17_book.specs.declared.version.Version.TheVariants.{Two};

use crate::Head;
use crate::form::MAGIC_BYTES;
use crate::version::{LIMIT_AT, Version};
use m17_fields::put;

/// The 17 bytes that the book of a module begins with: `M17BOOK2`, its letter, and the limit under which it decided.
pub fn write_header(h: &Head) -> [u8; 17]
    ensures header { result ≡ book_header Two h.now }
    ensures in_range { FitsHeader Two h.now }
{
    let module = h.module;
    let limit = h.limit;
    let mut bytes = [0; 17];
    put(&mut bytes, 0, &Version::Two.magic());
    put(&mut bytes, MAGIC_BYTES, &[module.byte()]);
    put(&mut bytes, LIMIT_AT, &limit.to_be_bytes());
    bytes
}
