use m17_callsign::{Address, CallAddress};
use m17_control::{
    Control, Item, ModuleLetter, Modules, ModulesRefusal, Packet, Refusal, Said, Why, decode,
    spell, write,
};
use m17_stream::StreamPacket;
use m17_values::{Member, Peer};
use std::test::Fail;

fn from(value: u64) -> Option<CallAddress> {
    CallAddress::new(Address::new(value)?)
}

/// A stream packet.
fn stream() -> [u8; 54] {
    *b"M17 \x12\x34\xff\xff\xff\xff\xff\xff\x00\x00\x00\x9f\xdd\x51\x00\x05\
\x00\x00\x00\x00\x00\x00\x00\x00\x00\x00\x00\x00\x00\x00\x00\x05\
\x00\x00\x00\x00\x00\x00\x00\x00\x00\x00\x00\x00\x00\x00\x00\x00\x39\xe5"
}

/// The bytes are read as the packet, and the packet is written as the bytes.
fn stands_for(bytes: &[u8], packet: Control) -> bool {
    write(&packet).as_slice() == bytes && decode(bytes) == Ok(Packet::Control(packet))
}

#[test]
fn control_packets_are_read_and_written(rt: HostRuntime) -> Result<(), Fail> {
    let near = from(0x9f_dd51).ok_or("no callsign")?;
    let far = from(0x4b13_d106).ok_or("no callsign")?;
    let group = from(0xee6b_2800_0051).ok_or("no callsign")?;
    let a = ModuleLetter::new(b'A').ok_or("no module")?;
    let z = ModuleLetter::new(b'Z').ok_or("no module")?;
    assert!(rt;
        stands_for(
            b"CONN\x00\x00\x00\x9f\xdd\x51A",
            Control::Conn {
                from: near,
                module: a
            }
        )
    );
    assert!(rt;
        stands_for(
            b"LSTN\x00\x00\x4b\x13\xd1\x06Z",
            Control::Lstn {
                from: far,
                module: z
            }
        )
    );
    assert!(rt;
        stands_for(
            b"CONN\xee\x6b\x28\x00\x00\x51A",
            Control::Conn {
                from: group,
                module: a
            }
        )
    );
    assert!(rt; stands_for(b"ACKN", Control::Ackn));
    assert!(rt; stands_for(b"NACK", Control::Nack));
    assert!(rt;
        stands_for(
            b"PING\x00\x00\x00\x9f\xdd\x51",
            Control::Ping { from: near }
        )
    );
    assert!(rt;
        stands_for(
            b"PONG\x00\x00\x00\x9f\xdd\x51",
            Control::Pong { from: near }
        )
    );
    assert!(rt;
        stands_for(
            b"DISC\x00\x00\x00\x9f\xdd\x51",
            Control::Disc { from: Some(near) }
        )
    );
    assert!(rt; stands_for(b"DISC", Control::Disc { from: None }));
    Ok(())
}

#[test]
fn a_stream_packet_is_read(rt: HostRuntime) -> Result<(), Fail> {
    let bytes = stream();
    match decode(&bytes) {
        Ok(Packet::Stream(packet)) => assert_eq!(rt; m17_stream::write(&packet), bytes),
        _ => return Err(Fail::from("no stream packet")),
    }
    Ok(())
}

#[test]
fn other_bytes_are_refused(rt: HostRuntime) {
    for (bytes, refusal) in [
        (b"".as_slice(), Refusal::Length(0)),
        (&[0; 53], Refusal::Length(53)),
        (&[0; 64], Refusal::Length(64)),
        (b"CONN\x00\x00\x00\x9f\xdd\x51", Refusal::Magic(*b"CONN")),
        (b"M17 \x00\x00\x00\x9f\xdd\x51A", Refusal::Magic(*b"M17 ")),
        (b"CONN\x00\x00\x00\x00\x00\x00A", Refusal::Address(0)),
        (
            b"CONN\xff\xff\xff\xff\xff\xffA",
            Refusal::Address(0xffff_ffff_ffff),
        ),
        (
            b"CONN\xee\x6b\x28\x00\x00\x00A",
            Refusal::Address(0xee6b_2800_0000),
        ),
        (
            b"CONN\xf4\x61\x09\x00\x00\x00A",
            Refusal::Address(0xf461_0900_0000),
        ),
        (b"CONN\x00\x00\x00\x00\x00\x00\x5b", Refusal::Address(0)),
        (b"CONN\x00\x00\x00\x9f\xdd\x51\x5b", Refusal::Module(0x5b)),
    ] {
        assert_eq!(rt; decode(bytes), Err(refusal));
    }
}

#[test]
fn other_bytes_as_long_as_a_stream_packet_are_refused(rt: HostRuntime) {
    let mut other_crc = stream();
    other_crc[53] = 0xe4;
    assert_eq!(rt;
        decode(&other_crc),
        Err(Refusal::Crc {
            found: 0x39e4,
            expected: 0x39e5
        })
    );
    let mut other_magic = stream();
    other_magic[0] = b'P';
    other_magic[1] = b'I';
    other_magic[2] = b'N';
    other_magic[3] = b'G';
    assert_eq!(rt; decode(&other_magic), Err(Refusal::Magic(*b"PING")));
}

#[test]
fn texts_name_modules(rt: HostRuntime) -> Result<(), Fail> {
    let some = Modules::read("CAZ")?;
    assert_eq!(rt; some.count(), 3);
    for (letter, has) in [
        (b'A', true),
        (b'B', false),
        (b'C', true),
        (b'Y', false),
        (b'Z', true),
        (b'@', false),
        (b'[', false),
        (b'a', false),
        (0, false),
        (255, false),
    ] {
        assert_eq!(rt; some.has(letter), has);
        assert_eq!(rt; some.rank(letter).is_some(), has);
    }
    let ranks = (some.rank(b'A'), some.rank(b'C'), some.rank(b'Z'));
    assert_eq!(rt; ranks, (Some(0), Some(1), Some(2)));
    assert_eq!(rt; Modules::read("ZYXWVUTSRQPONMLKJIHGFEDCBA")?.count(), 26);
    assert_eq!(rt; Modules::none().count(), 0);
    assert!(rt; !Modules::none().has(b'A'));
    Ok(())
}

#[test]
fn other_texts_name_no_modules(rt: HostRuntime) {
    for (text, refusal) in [
        ("", ModulesRefusal::Empty),
        ("a", ModulesRefusal::Letter(0)),
        ("AB C", ModulesRefusal::Letter(2)),
        ("ABA", ModulesRefusal::Twice(2)),
        ("AAa", ModulesRefusal::Twice(1)),
        ("AaA", ModulesRefusal::Letter(1)),
        ("AB1A", ModulesRefusal::Letter(2)),
    ] {
        assert!(rt; Modules::read(text) == Err(refusal));
    }
}

#[test]
fn an_item_spells_its_datagram(rt: HostRuntime) -> Result<(), Fail> {
    let name = from(0x13_89f9_baed).ok_or("no callsign")?;
    let long_disc = b"DISC\x00\x13\x89\xf9\xba\xed";
    let ackn = Said::Reply {
        control: Control::Ackn,
    };
    assert!(rt; spells(Said::Hello { after: 3 }, name, b"ACKN"));
    assert!(rt; spells(ackn, name, b"ACKN"));
    assert!(rt; spells(Said::Ping, name, b"PING\x00\x13\x89\xf9\xba\xed"));
    assert!(rt; spells(Said::Bye { why: Why::Asked }, name, b"DISC"));
    assert!(rt; spells(Said::Bye { why: Why::Silent }, name, long_disc));
    assert!(rt; spells(Said::Bye { why: Why::Stopped }, name, long_disc));
    assert!(rt; spell(&said(Said::Bye { why: Why::Moved }), name).is_none());
    assert!(rt; spell(&said(Said::Bye { why: Why::Replaced }), name).is_none());
    Ok(())
}

#[test]
fn frames_and_echoes_spell_their_packet(rt: HostRuntime) -> Result<(), Fail> {
    let name = from(0x13_89f9_baed).ok_or("no callsign")?;
    match decode(&stream()) {
        Ok(Packet::Stream(packet)) => assert!(rt; frame_and_echo(&packet, name)),
        _ => return Err(Fail::from("no stream packet")),
    }
    Ok(())
}

fn frame_and_echo(packet: &StreamPacket, name: CallAddress) -> bool {
    let frame = Said::Frame {
        position: 2,
        packet: *packet,
    };
    let echo = Said::Echo {
        position: 2,
        packet: *packet,
    };
    spells(frame, name, &stream()) && spells(echo, name, &stream())
}

fn spells(body: Said, name: CallAddress, bytes: &[u8]) -> bool {
    match spell(&said(body), name) {
        Some(datagram) => datagram.as_slice() == bytes,
        None => false,
    }
}

fn said(body: Said) -> Item {
    Item {
        member: Member {
            place: 0,
            generation: 0,
        },
        link: 0,
        peer: Peer {
            six: false,
            ip: [0; 16],
            port: 17000,
        },
        body,
    }
}
