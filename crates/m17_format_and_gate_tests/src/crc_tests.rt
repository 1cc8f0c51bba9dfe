use m17_crc::plain::crc_by_division;
use m17_crc::{Crc, crc};
use std::test::Fail;

#[test]
fn the_crc_of_known_texts(rt: HostRuntime) {
    let known: [(&[u8], u16); 3] = [(b"", 0xffff), (b"A", 0x206e), (b"123456789", 0x772b)];
    for (text, want) in known {
        assert_eq!(rt; crc(text), want, "of {text:?}");
        assert_eq!(rt; crc_by_division(text), want, "of {text:?}, by division");
    }
}

#[test]
fn the_crc_of_every_byte_in_order_at_once_and_in_pieces(rt: HostRuntime) -> Result<(), Fail> {
    let mut bytes = Vec::new(rt.alloc());
    for byte in 0..=255u8 {
        bytes.push(byte)?;
    }
    assert_eq!(rt; crc(&bytes), 0x1c31);

    for size in [1, 3, 8, 11, 52, 255] {
        let mut pieces = Crc::new();
        for piece in bytes.chunks(size) {
            pieces.feed(piece);
        }
        assert_eq!(rt; pieces.value(), 0x1c31, "in pieces of {size}");
    }
    Ok(())
}

#[test]
fn tables_and_division_agree_at_each_length(rt: HostRuntime) -> Result<(), Fail> {
    let mut bytes = Vec::new(rt.alloc());
    for place in 0..=70u8 {
        assert_eq!(rt; crc(&bytes), crc_by_division(&bytes), "of {place} bytes");
        bytes.push(place.wrapping_mul(151) ^ 0x5a)?;
    }
    Ok(())
}
