//! Marks beyond the first 4,096. A bell has a bit for each mark, in words of 64. The 6,656 queues of 26 modules with 256 places,
//! the door and the orders have 105 such words.

use crate::thread_tests_bench::must;
use m17_lane::{Bell, make_one_marked};

// A mark, the number of its word, and the marks of the word.
type Shown = (u32, usize, u64);

const MARKS: [Shown; 6] = [
    (0, 0, 1),
    (4_095, 63, 1 << 63),
    (4_096, 64, 1),
    (4_159, 64, 1 << 63),
    (6_433, 100, 1 << 33),
    (6_657, 104, 1 << 1),
];

#[test]
fn a_mark_beyond_4096_shows_in_its_own_word(rt: HostRuntime) {
    let bell = must(&rt, Bell::make_marked(rt.alloc(), 6_658));
    assert!(rt; bell.words() == 105);
    for (mark, word, marks) in MARKS.iter() {
        let (mut pusher, _popper) = must(&rt, make_one_marked(rt.alloc(), &bell, *mark, 1));
        let pushed = pusher.try_push(&rt, 7u8);
        // No rest begins while a mark is set: one that did would hold the test up for ever.
        bell.rest(&rt);
        let taken = bell.take_marks(*word);
        assert!(rt; pushed == Ok(()) && taken == *marks, "mark {mark}");
    }
}
