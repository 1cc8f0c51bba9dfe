//! How a job counts what it takes.
ghost use Rattle.std.specs.Prelude.{◌≡◌, ◌+◌};

use crossbeam_utils::sync::EventCount;
use std::sync::Wait;

/// One more than `count`. Where that is no number of 64 bits it waits for ever, asleep: a job that counts so before
/// it takes what it counts never takes more than 2^64 - 1.
pub fn count_one<R: Wait>(rt: &R, count: u64) -> u64
    ensures { result ≡ count + 1 }
{
    if count < u64::MAX {
        return count + 1;
    }
    let nobody = EventCount::new();
    for _ in rt.forever() {
        nobody.prepare_wait().wait(rt);
    }
    unreachable!()
}
