ghost use Rattle.std.specs.Prelude.{◌≡◌, ◌+◌, ◌<◌, ◌≤◌, ◌^◌, length};
ghost use Rattle.m17_fields.specs.Fields.{be_16, be_32, be_48, be_64, field_at};

/// The number of 16 bits in the two bytes from this place on, big-endian. M17 Protocol Specification: all integers are
/// big-endian.
#[inline]
pub fn get_16(bytes: &[u8], place: usize) -> u16
    requires { place + 2 ≤ length bytes.now }
    ensures { be_16 result ≡ field_at place 2 bytes.now }
{
    u16::from_be_bytes([bytes[place], bytes[place + 1]])
}

/// The number of 32 bits in the four bytes from this place on, big-endian. This profile's files.
#[inline]
pub fn get_32(bytes: &[u8], place: usize) -> u32
    requires { place + 4 ≤ length bytes.now }
    ensures { be_32 result ≡ field_at place 4 bytes.now }
{
    let b = &bytes[place..place + 4];
    u32::from_be_bytes([b[0], b[1], b[2], b[3]])
}

/// The number of 48 bits in the six bytes from this place on, big-endian. M17 Protocol Specification, address encoding.
#[inline]
pub fn get_48(bytes: &[u8], place: usize) -> u64
    requires { place + 6 ≤ length bytes.now }
    ensures field { be_48 result ≡ field_at place 6 bytes.now }
    ensures within { result < 2 ^ 48 }
{
    let b = &bytes[place..place + 6];
    u64::from_be_bytes([0, 0, b[0], b[1], b[2], b[3], b[4], b[5]])
}

/// The number of 64 bits in the eight bytes from this place on, big-endian. This profile's files.
#[inline]
pub fn get_64(bytes: &[u8], place: usize) -> u64
    requires { place + 8 ≤ length bytes.now }
    ensures { be_64 result ≡ field_at place 8 bytes.now }
{
    let b = &bytes[place..place + 8];
    u64::from_be_bytes([b[0], b[1], b[2], b[3], b[4], b[5], b[6], b[7]])
}
