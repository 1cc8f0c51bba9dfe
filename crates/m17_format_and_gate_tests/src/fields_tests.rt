use m17_fields::{bytes_48, get_16, get_32, get_48, get_64, put};

#[test]
fn fields_are_read_and_written_big_endian(rt: HostRuntime) {
    let bytes = [1, 2, 3, 4, 5, 6, 7, 8, 9];
    assert_eq!(rt; get_16(&bytes, 1), 0x0203);
    assert_eq!(rt; get_32(&bytes, 1), 0x0203_0405);
    assert_eq!(rt; get_48(&bytes, 1), 0x0203_0405_0607);
    assert_eq!(rt; get_64(&bytes, 1), 0x0203_0405_0607_0809);
    assert_eq!(rt; bytes_48(0x0203_0405_0607), [2, 3, 4, 5, 6, 7]);
    let mut into = [9; 5];
    put(&mut into, 1, &[1, 2]);
    assert_eq!(rt; into, [9, 1, 2, 9, 9]);
}
