use m17_port_memory::{ListBook, ListMouth, ScriptEar, ScriptPorts, TallyMouth};
use m17_ports::{Book, Ear, Mouth, Ports, Shelf, Tally};
use m17_values::{Failed, Gram, Heard, Peer};
use std::test::Fail;

fn peer(last: u8) -> Peer {
    let mut ip = [0; 16];
    ip[0] = 10;
    ip[3] = last;
    Peer {
        six: false,
        ip,
        port: 17_000,
    }
}

#[test]
fn an_ear_hands_out_its_script_and_then_ends(rt: HostRuntime) -> Result<(), Fail> {
    let datagram = Heard::Datagram {
        from: peer(1),
        at: 7,
        bytes: Gram::of(b"ACKN"),
    };
    let script = [Heard::Quiet { at: 1 }, Heard::Fault, datagram];
    let mut ear = ScriptEar::new(Vec::from_array(rt.alloc(), script)?);
    assert_eq!(rt; ear.hear(), Heard::Quiet { at: 1 });
    assert_eq!(rt; ear.hear(), Heard::Fault);
    match ear.hear() {
        Heard::Datagram { from, at, bytes } => {
            assert_eq!(rt; from, peer(1));
            assert_eq!(rt; at, 7);
            assert_eq!(rt; bytes.bytes(), b"ACKN".as_slice());
        }
        _ => assert!(rt; false),
    }
    assert_eq!(rt; ear.hear(), Heard::End);
    assert_eq!(rt; ear.hear(), Heard::End);
    Ok(())
}

#[test]
fn a_mouth_counts_what_is_said_to_each_peer(rt: HostRuntime) -> Result<(), Fail> {
    let peers = [peer(2), peer(1), peer(2)];
    let mut mouth = TallyMouth::make(rt.alloc(), &peers)
        .ok()
        .ok_or("no memory")?;
    let texts: [&[u8]; 8] = [
        b"ACKN",
        b"NACK",
        b"PINGabcdef",
        b"PONG",
        b"DISC",
        b"M17 ",
        b"DISCabcdef",
        b"CONN",
    ];
    for text in texts {
        assert_eq!(rt; mouth.say(&peer(2), text), Ok(()));
        assert_eq!(rt; mouth.say(&peer(3), text), Ok(()));
    }
    let wanted = Tally {
        ackn: 1,
        nack: 1,
        ping: 1,
        pong: 1,
        disc: 2,
        frame: 1,
    };
    assert_eq!(rt; mouth.tally(&peer(2)), Some(wanted));
    assert_eq!(rt; mouth.tally(&peer(1)).ok_or("not named")?.ackn, 0);
    assert_eq!(rt; mouth.tally(&peer(3)), None);
    Ok(())
}

#[test]
fn lists_keep_what_fits_and_fail_where_they_were_told(rt: HostRuntime) -> Result<(), Fail> {
    let alloc = rt.alloc();
    let mut mouth = ListMouth::make(alloc, 2, [1].to_vec(alloc)?)
        .ok()
        .ok_or("no memory")?;
    assert_eq!(rt; mouth.say(&peer(1), b"ab"), Ok(()));
    assert_eq!(rt; mouth.say(&peer(1), b"cd"), Err(Failed));
    assert_eq!(rt; mouth.say(&peer(1), &[0; 65]), Err(Failed));
    assert_eq!(rt; mouth.say(&peer(2), &[0; 64]), Ok(()));
    assert_eq!(rt; mouth.say(&peer(2), b""), Err(Failed));
    assert_eq!(rt; mouth.list().len(), 2);
    assert_eq!(rt; mouth.list()[0].0, peer(1));
    assert_eq!(rt; mouth.list()[0].1.bytes(), b"ab".as_slice());
    let book = ListBook::make(alloc, 3, [0].to_vec(alloc)?)
        .ok()
        .ok_or("no memory")?;
    let mut shelf = Shelf { inner: Some(book) };
    assert_eq!(rt; shelf.write(b"ab"), Err(Failed));
    assert_eq!(rt; shelf.write(b"cd"), Ok(()));
    assert_eq!(rt; shelf.write(b"ef"), Err(Failed));
    let Shelf { inner } = shelf;
    assert_eq!(rt; inner.ok_or("no book")?.bytes(), b"cd".as_slice());
    let mut empty: Shelf<ListBook> = Shelf { inner: None };
    assert_eq!(rt; empty.write(b"ab"), Ok(()));
    Ok(())
}

#[test]
fn ports_hand_out_what_they_have_in_order(rt: HostRuntime) -> Result<(), Fail> {
    let alloc = rt.alloc();
    let mut links = Vec::new(alloc);
    for at in [1, 2] {
        let ear = ScriptEar::new(Vec::from_array(alloc, [Heard::Quiet { at }])?);
        let mouth = ListMouth::make(alloc, 1, Vec::new(alloc))
            .ok()
            .ok_or("no memory")?;
        assert!(rt; links.push((ear, mouth)).is_ok());
    }
    let mut ports = ScriptPorts::new(links, Vec::new(alloc), [1].to_vec(alloc)?);
    let (mut first, _) = ports.link("a", None).ok().ok_or("no link")?;
    assert_eq!(rt; first.hear(), Heard::Quiet { at: 1 });
    assert!(rt; ports.link("b", Some(5)).is_err());
    let (mut second, _) = ports.link("c", None).ok().ok_or("no link")?;
    assert_eq!(rt; second.hear(), Heard::Quiet { at: 2 });
    assert!(rt; ports.link("d", None).is_err());
    assert!(rt; ports.book("e").is_err());
    Ok(())
}
