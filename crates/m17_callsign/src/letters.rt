ghost use Rattle.std.specs.Prelude.{◌≡◌, ◌<◌, ◌↔◌, IsSome, IfSome};
ghost use Rattle.m17_callsign.specs.Callsign.{IsLetter, index_of};

/// How many letters the alphabet has.
pub(crate) const BASE: u64 = 40;

/// How many letters a callsign has at most.
pub(crate) const MAX_LETTERS: usize = 9;

/// The sign in front of the letters of a group, of which there are one fewer at most.
pub(crate) const GROUP_SIGN: u8 = b'#';

/// The 40 letters in the order of their indexes. M17 Protocol Specification, address encoding.
const ALPHABET: &[u8; 40] = b" ABCDEFGHIJKLMNOPQRSTUVWXYZ0123456789-/.";

/// The index of a letter, 0 to 39; none where the byte is no letter of the alphabet.
#[tactic(auto, using(crate::proofs::Alphabet::letters))]
pub(crate) fn letter_index(letter: u8) -> Option<u64>
    ensures letter { IsSome result ↔ IsLetter letter }
    ensures index { IfSome result (λ index. index ≡ index_of letter) }
    ensures below { IfSome result (λ index. index < 40) }
{
    match letter {
        b' ' => Some(0),
        b'A'..=b'Z' => Some(u64::from(letter - b'A') + 1),
        b'0'..=b'9' => Some(u64::from(letter - b'0') + 27),
        b'-' => Some(37),
        b'/' => Some(38),
        b'.' => Some(39),
        _ => None,
    }
}

/// The letter of an index below 40.
pub(crate) fn letter_at(index: u64) -> u8
    requires { index < 40 }
    ensures letter { IsLetter result }
    ensures index { index_of result ≡ index }
    ensures ascii { result < 128 }
{
    ALPHABET[index as usize]
}
