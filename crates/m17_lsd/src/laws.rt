ghost use Rattle.m17_lsd.specs.Laws.{FieldsAreExact, Each28BytesAreLinkSetupData};

/// Link setup data with the same 28 bytes is the same. M17 Protocol Specification, link setup data.
#[inline]
pub fn fields_are_exact()
    ensures { FieldsAreExact }
{
    m17_fields::laws::fields_of_16_bits_are_exact();
    m17_fields::laws::fields_of_48_bits_are_exact();
}

/// Each 28 bytes are those of link setup data. M17 Protocol Specification, link setup data.
#[inline]
pub fn each_28_bytes_are_link_setup_data()
    ensures { Each28BytesAreLinkSetupData }
{
    m17_fields::laws::fields_of_16_bits_are_exact();
    m17_fields::laws::fields_of_48_bits_are_exact();
}
