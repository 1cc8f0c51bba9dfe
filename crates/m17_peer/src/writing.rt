ghost use Rattle.std.specs.Prelude.{◌≡◌, [], ◌+◌, ◌/◌, ◌%◌, ◌<◌, ◌≤◌, ◌++◌, ◌∷◌, decimal};
ghost use Rattle.arrayvec.specs.ArrayString.{array_string_len};
ghost use Rattle.m17_peer.specs.Text.{address_of, four_text, group_at, half_at, hex_digit, pair_at, six_text, text_of};

use arrayvec::ArrayString;
use itoa::Buffer;
use m17_values::Peer;

/// How many bytes the text of a peer may have.
const MAX_TEXT: usize = 48;

/// The text of a peer: `a.b.c.d:port` with decimal numbers, or for IPv6 `[`, eight groups of four lower-case hex digits
/// joined by `:`, and `]:port`.
pub fn text(peer: &Peer) -> ArrayString<48>
    ensures text { result.bytes ≡ text_of peer.now }
{
    let mut text = ArrayString::new();
    put_address(&mut text, peer);
    put_char(&mut text, b':');
    put_number(&mut text, peer.port);
    text
}

// Appends the address, in brackets where it is one of IPv6.
fn put_address(text: &mut ArrayString<MAX_TEXT>, peer: &Peer)
    requires { array_string_len text.old ≡ 0 }
    ensures appended { text.new.bytes ≡ text.old.bytes ++ address_of peer.now }
    ensures longer { array_string_len text.new ≤ 41 }
{
    if peer.six {
        put_char(text, b'[');
        put_six(text, &peer.ip);
        put_char(text, b']');
    } else {
        put_four(text, &peer.ip);
    }
}

// Appends the numbers of an IPv4 address.
fn put_four(text: &mut ArrayString<MAX_TEXT>, ip: &[u8; 16])
    requires { array_string_len text.old ≡ 0 }
    ensures appended { text.new.bytes ≡ text.old.bytes ++ four_text ip.now }
    ensures longer { array_string_len text.new ≤ array_string_len text.old + 23 }
{
    put_number(text, u16::from(ip[0]));
    put_char(text, b'.');
    put_number(text, u16::from(ip[1]));
    put_char(text, b'.');
    put_number(text, u16::from(ip[2]));
    put_char(text, b'.');
    put_number(text, u16::from(ip[3]));
}

// Appends a number in decimal.
fn put_number(text: &mut ArrayString<MAX_TEXT>, number: u16)
    requires { array_string_len text.old + 5 ≤ 48 }
    ensures appended { text.new.bytes ≡ text.old.bytes ++ decimal number }
    ensures longer { array_string_len text.new ≤ array_string_len text.old + 5 }
{
    let mut digits = Buffer::new();
    text.push_str(digits.format(number));
}

// Appends the groups of an IPv6 address.
fn put_six(text: &mut ArrayString<MAX_TEXT>, ip: &[u8; 16])
    requires { array_string_len text.old ≡ 1 }
    ensures appended { text.new.bytes ≡ text.old.bytes ++ six_text ip.now }
    ensures longer { array_string_len text.new ≡ array_string_len text.old + 39 }
{
    put_half(text, ip, 0);
    put_char(text, b':');
    put_half(text, ip, 8);
}

// Appends four groups of an IPv6 address, from the byte at `k` on.
fn put_half(text: &mut ArrayString<MAX_TEXT>, ip: &[u8; 16], k: usize)
    requires in_address { k + 8 ≤ 16 }
    requires room { array_string_len text.old + 19 ≤ 48 }
    ensures appended { text.new.bytes ≡ text.old.bytes ++ half_at ip.now k }
    ensures longer { array_string_len text.new ≡ array_string_len text.old + 19 }
{
    put_pair(text, ip, k);
    put_char(text, b':');
    put_pair(text, ip, k + 4);
}

// Appends two groups, from the byte at `k` on.
fn put_pair(text: &mut ArrayString<MAX_TEXT>, ip: &[u8; 16], k: usize)
    requires in_address { k + 4 ≤ 16 }
    requires room { array_string_len text.old + 9 ≤ 48 }
    ensures appended { text.new.bytes ≡ text.old.bytes ++ pair_at ip.now k }
    ensures longer { array_string_len text.new ≡ array_string_len text.old + 9 }
{
    put_group(text, ip, k);
    put_char(text, b':');
    put_group(text, ip, k + 2);
}

// Appends a group: the byte at `k` and the next one.
fn put_group(text: &mut ArrayString<MAX_TEXT>, ip: &[u8; 16], k: usize)
    requires in_address { k + 1 < 16 }
    requires room { array_string_len text.old + 4 ≤ 48 }
    ensures appended { text.new.bytes ≡ text.old.bytes ++ group_at ip.now k }
    ensures longer { array_string_len text.new ≡ array_string_len text.old + 4 }
{
    put_byte(text, ip[k]);
    put_byte(text, ip[k + 1]);
}

// Appends a byte as two hex digits.
fn put_byte(text: &mut ArrayString<MAX_TEXT>, byte: u8)
    requires { array_string_len text.old + 2 ≤ 48 }
    ensures appended { text.new.bytes
        ≡ text.old.bytes ++ hex_digit (byte / 16) ∷ hex_digit (byte % 16) ∷ [] }
    ensures longer { array_string_len text.new ≡ array_string_len text.old + 2 }
{
    put_char(text, digit(byte / 16));
    put_char(text, digit(byte % 16));
}

// Appends a byte of ASCII.
fn put_char(text: &mut ArrayString<MAX_TEXT>, byte: u8)
    requires ascii { byte < 128 }
    requires room { array_string_len text.old + 1 ≤ 48 }
    ensures appended { text.new.bytes ≡ text.old.bytes ++ byte ∷ [] }
    ensures longer { array_string_len text.new ≡ array_string_len text.old + 1 }
{
    text.push(char::from(byte));
}

// A hex digit.
fn digit(value: u8) -> u8
    requires { value < 16 }
    ensures digit { result ≡ hex_digit value }
    ensures ascii { result < 128 }
{
    if value < 10 {
        b'0' + value
    } else {
        b'a' + (value - 10)
    }
}
