//! `serve` with what may stand before its ear and behind its mouth: how much it hears and says by its words.
use crate::serve_tests::{JOIN, LISTEN, Serve, let_go, packet, served};
use crate::talk_tests::came;
use crate::tests::must;
use m17_samples::frame;
use m17_stream::write;
use m17_values::Heard;
use std::alloc::Global;
use std::process::Abort;
use std::time::Clock;

// A talker says two streams of one frame each, and both again byte for byte, as a circle of reflectors would; and then a frame
// whose CRC is 0000.
fn circle(rt: &impl Abort, alloc: Global) -> Vec<Heard> {
    let first = write(&frame(0x1111, 0, true));
    let second = write(&frame(0x2222, 0, true));
    let mut third = write(&frame(0x3333, 0, true));
    third[52] = 0;
    third[53] = 0;
    let heard = [
        came(0, 1, &JOIN),
        came(40, 1, &first),
        came(80, 1, &second),
        came(120, 1, &first),
        came(160, 1, &second),
        came(200, 1, &third),
    ];
    must(rt, Vec::from_array(alloc, heard))
}

// A guard doesn't hear the circle, unless the words leave it out; and the last frame is heard where they have CRCs filled in.
#[test]
fn what_stands_before_an_ear_is_by_the_words(rt: HostRuntime) {
    const ROWS: [(&[&str], &str); 4] = [
        (
            &["serve", "--call=M17-TST", "--modules=A", "x"],
            "A admitted 2 missed 0\n",
        ),
        (
            &["serve", "--call=M17-TST", "--modules=A", "--no-guard", "x"],
            "A admitted 4 missed 0\n",
        ),
        (
            &["serve", "--call=M17-TST", "--modules=A", "--fill-crc", "x"],
            "A admitted 3 missed 0\n",
        ),
        (
            &[
                "serve",
                "--call=M17-TST",
                "--modules=A",
                "--fill-crc",
                "--no-guard",
                "x",
            ],
            "A admitted 5 missed 0\n",
        ),
    ];
    let alloc = rt.alloc();
    for (words, text) in ROWS {
        let (done, as_wanted) = served(&rt, alloc, words, circle(&rt, alloc), (0, text));
        let_go(done);
        assert!(rt; as_wanted, "{text}");
    }
}

// A talk of four frames, and somebody who listens.
fn talk(rt: &impl Abort, alloc: Global) -> Vec<Heard> {
    let heard = [
        came(0, 1, &JOIN),
        came(10, 2, &LISTEN),
        came(40, 1, &packet(0)),
        came(80, 1, &packet(1)),
        came(120, 1, &packet(2)),
        came(160, 1, &packet(3)),
    ];
    must(rt, Vec::from_array(alloc, heard))
}

// How many frames the one mouth said that comes back.
fn frames_said<R: Clock + Copy + Drop>(done: &Serve<R>) -> usize {
    let Some(house) = &done.house else {
        return 0;
    };
    let [mouth] = house.mouths.as_slice() else {
        return 0;
    };
    let mut count: usize = 0;
    for (_, said) in mouth.inner().list() {
        if said.bytes().len() == 54 {
            count = count.saturating_add(1);
        }
    }
    count
}

// The listener is sent the whole talk where the bound of the words is no less, or where there is none. Where it is one frame in
// any second, the listener misses some: the talk is over in less than three seconds.
#[test]
fn a_mouth_keeps_the_pace_of_the_words(rt: HostRuntime) {
    const ROWS: [(&str, bool); 4] = [
        ("--pace=100", true),
        ("--pace=4", true),
        ("--pace=1", false),
        ("--pace=0", true),
    ];
    let alloc = rt.alloc();
    for (pace, is_whole) in ROWS {
        let words = ["serve", "--call=M17-TST", "--modules=A", pace, "x"];
        let wanted = (0, "A admitted 4 missed 0\n");
        let (done, as_wanted) = served(&rt, alloc, &words, talk(&rt, alloc), wanted);
        let count = frames_said(&done);
        let_go(done);
        assert!(rt;
            as_wanted && count > 0 && (count == 4) == is_whole,
            "{pace} {count}"
        );
    }
}
