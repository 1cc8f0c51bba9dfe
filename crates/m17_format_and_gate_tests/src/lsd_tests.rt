use m17_lsd::{Lsd, read, type_text, write};
use m17_values::Address;
use std::test::Fail;

#[test]
fn link_setup_data_and_its_bytes_give_each_other(rt: HostRuntime) -> Result<(), Fail> {
    let bytes = [
        0xFF, 0xFF, 0xFF, 0xFF, 0xFF, 0xFF, // DST
        0x00, 0x00, 0x00, 0x9F, 0xDD, 0x51, // SRC
        0x07, 0x85, // TYPE
        1, 2, 3, 4, 5, 6, 7, 8, 9, 10, 11, 12, 13, 14, // META
    ];
    let lsd = Lsd {
        dst: Address::broadcast(),
        src: Address::new(0x9F_DD51).ok_or("no address")?,
        kind: 0x0785,
        meta: [1, 2, 3, 4, 5, 6, 7, 8, 9, 10, 11, 12, 13, 14],
    };
    assert_eq!(rt; read(&bytes), lsd);
    assert_eq!(rt; write(&lsd), bytes);
    Ok(())
}

#[test]
fn the_text_of_a_type_names_its_fields(rt: HostRuntime) {
    let texts = [
        (0x0005, "stream voice enc 0 sub 0 can 0"),
        (0x0785, "stream voice enc 0 sub 0 can 15"),
        (0x0000, "packet reserved enc 0 sub 0 can 0"),
        (0x0003, "stream data enc 0 sub 0 can 0"),
        (0xFACE, "packet both enc 1 sub 2 can 5"),
    ];
    for (kind, text) in texts {
        assert_eq!(rt; type_text(kind).as_str(), text);
    }
}
