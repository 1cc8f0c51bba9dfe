use m17_values::{Address, Gram, Heard, Member, Peer};
use std::cmp::Ordering;
use std::process::Abort;
use std::test::Fail;

#[test]
fn a_datagram_is_its_first_64_bytes(rt: HostRuntime) {
    assert_eq!(rt; Gram::of(b"").bytes(), b"".as_slice());
    assert_eq!(rt; Gram::of(b"DISC").bytes(), b"DISC".as_slice());
    assert_eq!(rt; Gram::of(&[7; 64]).bytes(), [7; 64].as_slice());
    assert_eq!(rt; Gram::of(&[7; 65]).bytes(), [7; 64].as_slice());
}

#[test]
fn values_that_differ_in_one_field_are_unequal(rt: HostRuntime) -> Result<(), Fail> {
    let member = Member {
        place: 1,
        generation: 2,
    };
    assert!(rt; member != Member { place: 0, ..member });
    assert!(rt;
        member
            != Member {
                generation: 3,
                ..member
            }
    );
    let peer = Peer {
        six: false,
        ip: [0; 16],
        port: 17000,
    };
    let mut ip = [0; 16];
    ip[3] = 1;
    assert!(rt; peer != Peer { six: true, ..peer });
    assert!(rt; peer != Peer { ip, ..peer });
    assert!(rt;
        peer != Peer {
            port: 17001,
            ..peer
        }
    );
    assert!(rt; Address::new(1) != Address::new(2));
    let heard = Heard::Datagram {
        from: peer,
        at: 5,
        bytes: Gram::of(b"ACKN"),
    };
    let other = Peer { port: 1, ..peer };
    assert!(rt;
        heard
            != Heard::Datagram {
                from: other,
                at: 5,
                bytes: Gram::of(b"ACKN")
            }
    );
    assert!(rt;
        heard
            != Heard::Datagram {
                from: peer,
                at: 6,
                bytes: Gram::of(b"ACKN")
            }
    );
    assert!(rt;
        heard
            != Heard::Datagram {
                from: peer,
                at: 5,
                bytes: Gram::of(b"NACK")
            }
    );
    assert!(rt; Heard::Quiet { at: 5 } != Heard::Quiet { at: 6 });
    assert!(rt; Heard::Fault != Heard::End);
    Ok(())
}

#[test]
fn peers_are_ordered_by_family_address_and_port(rt: HostRuntime) {
    let low = Peer {
        six: false,
        ip: [0; 16],
        port: 9,
    };
    let mut ip = [0; 16];
    ip[15] = 1;
    let high = Peer { ip, port: 0, ..low };
    assert!(rt; low < high);
    assert!(rt;
        high < Peer {
            six: true,
            ip: [0; 16],
            port: 0
        }
    );
    assert!(rt; low < Peer { port: 10, ..low });
}

// The first stands before the second, by every comparison.
fn expect_order(rt: &impl Abort, low: &Peer, high: &Peer) {
    assert_eq!(rt; low.cmp(high), Ordering::Less);
    assert_eq!(rt; high.cmp(low), Ordering::Greater);
    assert_eq!(rt; low.partial_cmp(high), Some(Ordering::Less));
    assert!(rt; low != high);
    let same = *low;
    assert_eq!(rt; low.cmp(&same), Ordering::Equal);
    assert!(rt; *low == same);
}

#[test]
fn the_first_byte_that_differs_orders_two_addresses(rt: HostRuntime) {
    for place in 0..16 {
        // All that follows, the port too, would order them the other way round.
        let mut low = Peer {
            six: true,
            ip: [0xff; 16],
            port: u16::MAX,
        };
        let mut high = Peer {
            six: true,
            ip: [0; 16],
            port: 0,
        };
        for before in 0..place {
            low.ip[before] = 0x42;
            high.ip[before] = 0x42;
        }
        low.ip[place] = 0x7f;
        high.ip[place] = 0x80;
        expect_order(&rt, &low, &high);
        let next = Peer { ip: low.ip, ..high };
        expect_order(&rt, &next, &low);
    }
}

#[test]
fn the_family_comes_first_and_the_port_last(rt: HostRuntime) {
    let four = Peer {
        six: false,
        ip: [0xff; 16],
        port: 0x00ff,
    };
    expect_order(
        &rt,
        &four,
        &Peer {
            port: 0x0100,
            ..four
        },
    );
    expect_order(
        &rt,
        &four,
        &Peer {
            six: true,
            ip: [0; 16],
            port: 0,
        },
    );
}
