ghost use Rattle.std.specs.Prelude.{◌≡◌, ◌+◌, ◌<◌, ◌≤◌, ◌++◌, length, decimal};
ghost use Rattle.m17_lsd.specs.Lsd.{bits_at, data_of, mode_of, text_of_type};

use arrayvec::ArrayString;
use itoa::Buffer;

/// What TYPE says, as text: the mode, the data type, and the encryption type, the encryption subtype and the channel
/// access number in decimal, as `stream voice enc 0 sub 0 can 0`. Bits 11 to 15 are not printed. M17 Protocol
/// Specification, link setup data; the text is of this profile.
pub fn type_text(kind: u16) -> ArrayString<40>
    ensures { result.bytes ≡ text_of_type kind }
{
    let mut text = ArrayString::new();
    text.push_str(mode_text(kind));
    text.push_str(" ");
    text.push_str(data_text(kind));
    push_number(&mut text, " enc ", bits(kind, 3, 2));
    push_number(&mut text, " sub ", bits(kind, 5, 2));
    push_number(&mut text, " can ", bits(kind, 7, 4));
    text
}

/// So many bits, from this one on, as a number; bit 0 is the least significant.
fn bits(kind: u16, low: u32, count: u32) -> u8
    requires low_in { low < 16 }
    requires count_in { count ≤ 8 }
    ensures { result ≡ bits_at kind low count }
{
    ((kind >> low) % (1 << count)) as u8
}

/// The mode, bit 0.
fn mode_text(kind: u16) -> &'static str
    ensures mode { result.now ≡ mode_of kind }
    ensures short { length result.now ≤ 6 }
{
    if bits(kind, 0, 1) == 1 {
        "stream"
    } else {
        "packet"
    }
}

/// The data type, bits 1 and 2.
fn data_text(kind: u16) -> &'static str
    ensures data { result.now ≡ data_of kind }
    ensures short { length result.now ≤ 8 }
{
    match bits(kind, 1, 2) {
        0 => "reserved",
        1 => "data",
        2 => "voice",
        _ => "both",
    }
}

/// Writes a name and a number at the end.
fn push_number(text: &mut ArrayString<40>, name: &str, number: u8)
    requires { length text.old.bytes + length name.now + 3 ≤ 40 }
    ensures text { text.new.bytes ≡ text.old.bytes ++ name.now ++ decimal number }
    ensures short { length text.new.bytes ≤ length text.old.bytes + length name.now + 3 }
{
    text.push_str(name);
    text.push_str(Buffer::new().format(number));
}
