//! What no clause says of the hint: that it names each queue that was pushed to and not found empty since, in order, and
//! passes over words in which none is.
use crate::bench::must;
use m17_lane::{Bell, make_one_marked};
use m17_sender::Hint;

/// A step: queues that are pushed to, queues that are found empty, and, of a number, the next queue that may have something.
#[derive(Clone, Copy)]
struct Step {
    pushed: [Option<u32>; 2],
    empty: Option<u32>,
    from: u32,
    next: Option<u32>,
}

fn make_step(pushed: [Option<u32>; 2], empty: Option<u32>, from: u32, next: Option<u32>) -> Step {
    Step {
        pushed,
        empty,
        from,
        next,
    }
}

// 300 queues lie in five words, of which the second and the fourth never have anything.
#[test]
fn the_next_queue_is_found_over_words_that_have_none(rt: HostRuntime) {
    let bell = must(&rt, Bell::make_marked(rt.alloc(), 300));
    let (mut low, _low) = must(&rt, make_one_marked(rt.alloc(), &bell, 3, 9));
    let (mut mid, _mid) = must(&rt, make_one_marked(rt.alloc(), &bell, 130, 9));
    let (mut high, _high) = must(&rt, make_one_marked(rt.alloc(), &bell, 299, 9));
    let mut hint = must(&rt, Hint::make(rt.alloc(), bell, 300));
    let none = [None, None];
    let steps = [
        make_step(none, None, 0, None),
        make_step([Some(299), None], None, 0, Some(299)),
        make_step(none, None, 299, Some(299)),
        make_step(none, None, 300, None),
        make_step([Some(130), Some(3)], None, 0, Some(3)),
        make_step(none, None, 4, Some(130)),
        make_step(none, Some(130), 4, Some(299)),
        make_step(none, Some(3), 0, Some(299)),
        make_step([Some(3), None], Some(299), 0, Some(3)),
        make_step(none, Some(3), 0, None),
        make_step(none, Some(70000), u32::MAX, None),
        make_step([Some(130), None], None, 64, Some(130)),
    ];
    for (at, step) in steps.iter().enumerate() {
        for queue in step.pushed.iter().flatten() {
            let pushed = match *queue {
                3 => low.try_push(&rt, 1u8),
                130 => mid.try_push(&rt, 1u8),
                _ => high.try_push(&rt, 1u8),
            };
            assert!(rt; pushed.is_ok());
        }
        hint.look();
        if let Some(queue) = step.empty {
            hint.clear(queue);
        }
        assert!(rt; hint.next(step.from) == step.next, "step {at}");
    }
}
