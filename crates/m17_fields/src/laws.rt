ghost use Rattle.m17_fields.specs.Fields.{Fields16AreExact, Fields32AreExact, Fields48AreExact, Fields64AreExact};

/// Numbers of 16 bits and two bytes give each other.
#[inline]
pub fn fields_of_16_bits_are_exact()
    ensures { Fields16AreExact }
{}

/// Numbers of 32 bits and four bytes give each other.
#[inline]
pub fn fields_of_32_bits_are_exact()
    ensures { Fields32AreExact }
{}

/// Numbers of 48 bits, as addresses are, and six bytes give each other. M17 Protocol Specification, address encoding.
#[inline]
pub fn fields_of_48_bits_are_exact()
    ensures { Fields48AreExact }
{}

/// Numbers of 64 bits and eight bytes give each other.
#[inline]
pub fn fields_of_64_bits_are_exact()
    ensures { Fields64AreExact }
{}
