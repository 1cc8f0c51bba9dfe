ghost use Rattle.std.specs.Prelude.{◌≡◌, ◌+◌, ◌<◌, ◌≤◌, ◌^◌, ◌++◌, length, take, drop};
ghost use Rattle.m17_fields.specs.Fields.{be_48, IsBytes};

/// The six bytes of a number of 48 bits, big-endian. M17 Protocol Specification, address encoding.
#[inline]
pub fn bytes_48(number: u64) -> [u8; 6]
    requires { number < 2 ^ 48 }
    ensures { result ≡ be_48 number }
{
    let [_, _, b0, b1, b2, b3, b4, b5] = number.to_be_bytes();
    [b0, b1, b2, b3, b4, b5]
}

/// Writes a field at its place, and changes nothing else.
#[inline]
pub fn put(bytes: &mut [u8], place: usize, field: &[u8])
    requires { place + length field.now ≤ length bytes.old }
    ensures written { bytes.new
        ≡ take place bytes.old ++ field.now ++ drop (place + length field.now) bytes.old }
    // What stands before the end of the field, and that the length stays: what a writer from front to back needs.
    ensures front { take (place + length field.now) bytes.new ≡ take place bytes.old ++ field.now }
    ensures whole { length bytes.new ≡ length bytes.old }
    ensures bytes { IsBytes field.now }
{
    bytes[place..place + field.len()].copy_from_slice(field);
}
