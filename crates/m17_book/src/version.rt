ghost use Rattle.std.specs.Prelude.{◌≡◌, ◌≤◌, ◌-◌, ◌↔◌, IsSome, IfSome, length};
ghost use Rattle.m17_fields.specs.Fields.{field_at};
ghost use Rattle.m17_book.specs.Versions.{book_magic, header_size, highest_verdict, most_book_bytes, limit_bytes, FitsLimit, MayJoin};

use m17_callsign::{CallAddress, END_OF_CALLSIGNS};
use m17_fields::get_64;
use m17_values::Address;

/// Where the limit begins in a header that has one.
pub(crate) const LIMIT_AT: usize = 9;

/// The versions of books. All that differs between them stands here.
#[derive(Clone, Copy, Debug, PartialEq, Eq)]
pub enum Version {
    /// `M17BOOK1`: without a limit on talking, and of stations alone.
    One,
    /// `M17BOOK2`: with the limit under which the module decided.
    Two,
}

impl Version {
    /// What a book of the version begins with.
    pub(crate) fn magic(self) -> [u8; 8]
        ensures { result ≡ book_magic self }
    {
        match self {
            Version::One => *b"M17BOOK1",
            Version::Two => *b"M17BOOK2",
        }
    }

    /// How many bytes the header has: the magic, the letter of the module, and the limit where there is one.
    pub(crate) fn header_bytes(self) -> usize
        ensures { result ≡ header_size self }
    {
        match self {
            Version::One => 9,
            Version::Two => 17,
        }
    }

    /// The most bytes of a book.
    pub(crate) fn most_bytes(self) -> u64
        ensures { result ≡ most_book_bytes self }
    {
        match self {
            Version::One => 67_108_864,
            Version::Two => 67_108_872,
        }
    }

    /// The highest byte of a verdict.
    pub(crate) fn highest_verdict(self) -> u8
        ensures { result ≡ highest_verdict self }
    {
        match self {
            Version::One => 8,
            Version::Two => 9,
        }
    }

    /// The limit that a header of the version tells.
    pub(crate) fn limit(self, header: &[u8]) -> u64
        requires { header_size self ≤ length header.now }
        ensures fits { FitsLimit self result }
        ensures bytes { limit_bytes self result ≡ field_at 9 (header_size self - 9) header.now }
    {
        match self {
            Version::One => 0,
            Version::Two => get_64(header, LIMIT_AT),
        }
    }

    /// The address as that of a member that joins; none where a Join of this version may not have it.
    pub(crate) fn joining(self, address: Address) -> Option<CallAddress>
        ensures in_range { IsSome result ↔ MayJoin self address }
        ensures same { IfSome result (λ call. call ≡ address) }
    {
        match self {
            Version::One if address.value() >= END_OF_CALLSIGNS => None,
            _ => CallAddress::new(address),
        }
    }
}
