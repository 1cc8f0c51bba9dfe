use m17_peer::{read, text};
use m17_values::Peer;
use std::test::Fail;

fn four(a: u8, b: u8, c: u8, d: u8, port: u16) -> Peer {
    Peer {
        six: false,
        ip: [a, b, c, d, 0, 0, 0, 0, 0, 0, 0, 0, 0, 0, 0, 0],
        port,
    }
}

fn six(ip: [u8; 16], port: u16) -> Peer {
    Peer {
        six: true,
        ip,
        port,
    }
}

#[test]
fn peers_and_their_texts_give_each_other(rt: HostRuntime) -> Result<(), Fail> {
    let near = [
        0x20, 0x01, 0x0d, 0xb8, 0, 0, 0, 0, 0, 0, 0, 0, 0, 0xab, 0xcd, 0xef,
    ];
    for (peer, shown) in [
        (four(10, 0, 0, 1, 17000), "10.0.0.1:17000"),
        (four(0, 0, 0, 0, 0), "0.0.0.0:0"),
        (four(255, 255, 255, 255, 65535), "255.255.255.255:65535"),
        (
            six(near, 17000),
            "[2001:0db8:0000:0000:0000:0000:00ab:cdef]:17000",
        ),
        (
            six([0; 16], 0),
            "[0000:0000:0000:0000:0000:0000:0000:0000]:0",
        ),
        (
            six([0xff; 16], 65535),
            "[ffff:ffff:ffff:ffff:ffff:ffff:ffff:ffff]:65535",
        ),
    ] {
        assert_eq!(rt; text(&peer).as_str(), shown);
        assert!(rt; read(shown) == Some(peer));
    }
    Ok(())
}

#[test]
fn other_texts_are_of_no_peer(rt: HostRuntime) {
    for other in [
        "",
        "10.0.0.1",
        "10.0.0.1:",
        "10.0.0.1:65536",
        "10.0.0.1:017000",
        "10.0.0.01:17000",
        "10.0.0.256:17000",
        "10.0.0:17000",
        "10.0.0.1.1:17000",
        "10.0.0.1:17000 ",
        " 10.0.0.1:17000",
        "+10.0.0.1:17000",
        "10.0.0.1:17000\n",
        "[::1]:17000",
        "[2001:0DB8:0000:0000:0000:0000:00ab:cdef]:17000",
        "[2001:0db8:0000:0000:0000:0000:00ab:cdef]:",
        "[2001:0db8:0000:0000:0000:0000:00ab:cdef:0000]:17000",
        "[0000:0000:0000:0000:0000:0000:0000:0000",
        "localhost:17000",
        "99999999999999999999.0.0.1:17000",
    ] {
        assert!(rt; read(other).is_none());
    }
}
