use m17_lsd::Lsd;
use m17_stream::{StreamPacket, StreamRefusal, ahead, read, write};
use m17_values::Address;
use std::test::Fail;

/// Frame 5 of stream 1234 hex, to everyone, from 9FDD51 hex: TYPE 0005, META and payload zero.
fn sent() -> [u8; 54] {
    *b"M17 \x12\x34\xff\xff\xff\xff\xff\xff\x00\x00\x00\x9f\xdd\x51\x00\x05\
\x00\x00\x00\x00\x00\x00\x00\x00\x00\x00\x00\x00\x00\x00\x00\x05\
\x00\x00\x00\x00\x00\x00\x00\x00\x00\x00\x00\x00\x00\x00\x00\x00\x39\xe5"
}

fn packet(last: bool) -> Option<StreamPacket> {
    let src = Address::new(0x9f_dd51)?;
    let lsd = Lsd {
        dst: Address::broadcast(),
        src,
        kind: 5,
        meta: [0; 14],
    };
    Some(StreamPacket {
        sid: 0x1234,
        lsd,
        number: 5,
        last,
        payload: [0; 16],
    })
}

#[test]
fn a_packet_is_written_and_read_back(rt: HostRuntime) -> Result<(), Fail> {
    let packet = packet(false).ok_or("no address")?;
    assert_eq!(rt; write(&packet), sent());
    assert_eq!(rt; read(&sent()), Ok(packet));
    Ok(())
}

#[test]
fn the_end_bit_is_the_top_bit_of_the_number(rt: HostRuntime) -> Result<(), Fail> {
    let mut bytes = sent();
    bytes[34] = 0x80;
    bytes[52] = 0x74;
    bytes[53] = 0x30;
    let packet = packet(true).ok_or("no address")?;
    assert_eq!(rt; read(&bytes), Ok(packet));
    assert_eq!(rt; write(&packet), bytes);
    Ok(())
}

#[test]
fn other_bytes_are_refused(rt: HostRuntime) {
    let bytes = sent();
    assert_eq!(rt; read(&[0; 53]), Err(StreamRefusal::Length(53)));
    let mut other_magic = bytes;
    other_magic[3] = b'!';
    assert_eq!(rt; read(&other_magic), Err(StreamRefusal::Magic(*b"M17!")));
    let mut other_crc = bytes;
    other_crc[53] = 0xe4;
    assert_eq!(rt;
        read(&other_crc),
        Err(StreamRefusal::Crc {
            found: 0x39e4,
            expected: 0x39e5
        })
    );
}

#[test]
fn the_order_of_numbers_goes_round(rt: HostRuntime) {
    for (new, old, is_ahead) in [
        (1, 0, true),
        (0, 0, false),
        (16_383, 0, true),
        (16_384, 0, false),
        (0, 32_767, true),
        (32_767, 0, false),
    ] {
        assert_eq!(rt; ahead(new, old), is_ahead, "{new} after {old}");
    }
}
