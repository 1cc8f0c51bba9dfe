ghost use Rattle.std.specs.Prelude.{◌≡◌, ℕ, ◌↔◌, ◌+◌, ◌%◌, ◌<◌, ◌^◌, true, false, [], ◌∷◌, drop, length, slice_index};
ghost use Rattle.m17_peer.specs.Text.{IsPeer, IsTextOf};
ghost use Rattle.m17_values.specs.declared.peer.Peer.{Peer};
ghost use Rattle.m17_peer.specs.Reading.{pair_value, nibble_value};

use crate::rest::Rest;
use crate::text;
use m17_values::Peer;

/// The peer whose text this is; none where it is the text of no peer, as one with a leading zero, a capital, a space, or
/// an IPv6 address that is cut short. The bytes behind an IPv4 address are 0.
pub fn read(words: &str) -> Option<Peer>
    ensures some { (p : Peer) → (result ≡ Some p) ↔ IsTextOf p words.now }
{
    let peer = guess(words.as_bytes());
    if text(&peer).as_str() == words {
        Some(peer)
    } else {
        None
    }
}

// The peer of a text that is one's, and any peer of another text.
fn guess(bytes: &[u8]) -> Peer
    ensures guessed { (p : Peer) → IsTextOf p bytes.now → result ≡ p }
    ensures is_peer { IsPeer result }
{
    if byte_at(bytes, 0) == b'[' {
        guess_six(bytes)
    } else {
        guess_four(bytes)
    }
}

// The byte at a place; 0 where there is none.
fn byte_at(bytes: &[u8], at: usize) -> u8
    ensures { result ≡ slice_index bytes.now at }
{
    bytes.get(at).copied().unwrap_or(0)
}

// The bytes from a place on.
fn rest_from(bytes: &[u8], at: usize) -> Rest<'_>
    ensures { result ≡ drop at bytes.now }
{
    if at <= bytes.len() {
        Rest::of(&bytes[at..])
    } else {
        Rest::of(&[])
    }
}

// The same of an IPv4 peer.
fn guess_four(bytes: &[u8]) -> Peer
    ensures guessed { (p : Peer) → p.six ≡ false → IsTextOf p bytes.now → result ≡ p }
    ensures is_peer { IsPeer result }
{
    let mut rest = Rest::of(bytes);
    let a = rest.number();
    rest.pass();
    let b = rest.number();
    rest.pass();
    let c = rest.number();
    rest.pass();
    let d = rest.number();
    rest.pass();
    let port = rest.number();
    Peer {
        six: false,
        ip: [
            low_byte(a),
            low_byte(b),
            low_byte(c),
            low_byte(d),
            0,
            0,
            0,
            0,
            0,
            0,
            0,
            0,
            0,
            0,
            0,
            0,
        ],
        port,
    }
}

// The low eight bits.
fn low_byte(number: u16) -> u8
    ensures { result ≡ number % 2 ^ 8 }
{
    (number % 256) as u8
}

// The same of an IPv6 peer.
fn guess_six(bytes: &[u8]) -> Peer
    ensures guessed { (p : Peer) → p.six ≡ true → IsTextOf p bytes.now → result ≡ p }
    ensures is_peer { IsPeer result }
{
    let [a, b, c, d] = two_groups(bytes, 1);
    let [e, f, g, h] = two_groups(bytes, 11);
    let [i, j, k, l] = two_groups(bytes, 21);
    let [m, n, o, p] = two_groups(bytes, 31);
    let mut rest = rest_from(bytes, 42);
    let port = rest.number();
    six_peer(&[a, b, c, d, e, f, g, h, i, j, k, l, m, n, o, p], port)
}

// The IPv6 peer of an address and a port.
fn six_peer(ip: &[u8], port: u16) -> Peer
    requires { length ip.now ≡ 16 }
    ensures six { result.six ≡ true }
    ensures ip { result.ip ≡ ip.now }
    ensures port { result.port ≡ port }
    ensures is_peer { IsPeer result }
{
    Peer {
        six: true,
        ip: *ip.as_array().unwrap(),
        port,
    }
}

// The four bytes of the two groups that begin at a place.
fn two_groups(bytes: &[u8], at: usize) -> [u8; 4]
    requires { at < 2 ^ 32 }
    ensures { result ≡ pair_value bytes.now at ∷ pair_value bytes.now (at + 2)
        ∷ pair_value bytes.now (at + 5) ∷ pair_value bytes.now (at + 7) ∷ [] }
{
    [
        pair(bytes, at),
        pair(bytes, at + 2),
        pair(bytes, at + 5),
        pair(bytes, at + 7),
    ]
}

// The byte of the two hex digits at a place.
fn pair(bytes: &[u8], at: usize) -> u8
    requires { at + 1 < 2 ^ 64 }
    ensures { result ≡ pair_value bytes.now at }
{
    16 * nibble(bytes, at) + nibble(bytes, at + 1)
}

// The value of the hex digit at a place.
fn nibble(bytes: &[u8], at: usize) -> u8
    ensures value { result ≡ nibble_value (slice_index bytes.now at) }
    ensures small { result < 16 }
{
    match byte_at(bytes, at) {
        digit @ b'0'..=b'9' => digit - b'0',
        letter @ b'a'..=b'f' => letter - b'a' + 10,
        _ => 0,
    }
}
