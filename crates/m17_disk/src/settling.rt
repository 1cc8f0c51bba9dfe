//! How the threads of books come to their end.
ghost use Rattle.std.specs.Prelude.{◌≡◌, ◌⊎◌, ◌↔◌, ◌+◌, ◌≤◌, [], reverse, Ok, Err, All, vec_len, vec_capacity};
ghost use Rattle.std.specs.List.{AllZip};
ghost use Rattle.m17_disk.specs.Queue.{IsSameEnd};
ghost use Rattle.m17_disk.specs.Writing.{EndsAs, IsWritten, FailsToWrite, SaysOf};

use crate::opening::Hand;
use crate::slip::Slip;
use crate::writer::Writer;
use m17_lane::Pusher;
use m17_ports::Book;
use std::alloc::Global;
use std::sync::atomic::{AtomicBool, Ordering};
use std::sync::{Arc, Wait};
use std::thread;
use std::thread::Threads;
use std::time::{Clock, Duration};

/// How long a rest is, in milliseconds.
const REST_MS: u64 = 1;

/// How many rests all threads together have to come to their end: five seconds.
const RESTS: u32 = 5_000;

/// How many one has at the least, where those before it took them all.
const FEWEST_RESTS: u32 = 100;

/// Why books are not known to be written.
#[derive(Clone, Copy, Debug, PartialEq, Eq)]
pub enum Unsettled {
    /// A thread ended, and a write of its book had failed.
    Failed,
    /// None of those that ended had failed to write, and one did not end in time.
    Late,
}

/// Brings the threads of these books to their end, when nothing is handed over any more, the last first, and takes them out
/// of the list. Their jobs are handed back in `ended`, done, which has to be empty and to have room for all; none stands
/// there for a thread that did not come to its end within five seconds, which all of them have together; each has a tenth
/// of a second at the least. Such a one is left behind: it ends with the program. `Unsettled` where one failed to write
/// what it took, or did not end.
pub fn settle<B: Book + Drop + Send + 'static, R: Threads + Wait + Clock>(
    rt: &R,
    hands: &mut Vec<Hand<B>>,
    ended: &mut Vec<Option<Writer<B>>>,
) -> Result<(), Unsettled>
    requires nothing { ended.old.items ≡ [] }
    requires room { vec_len ended.old + vec_len hands.old ≤ vec_capacity ended.old }
    ensures ended { AllZip (EndsAs B.told) (reverse hands.old.items) ended.new.items }
    ensures all { hands.new.items ≡ [] }
    ensures said { SaysOf ended.new.items result }
{
    let mut rests = RESTS;
    let mut said = Ok(());
    while let Some(hand) = hands.pop() {
        rests = rests.max(FEWEST_RESTS);
        let end = hand.end(rt, &mut rests);
        said = both(said_of(&end), said);
        ended.push_reserved(end);
    }
    said
}

// What is said of one thread.
fn said_of<B>(end: &Option<Writer<B>>) -> Result<(), Unsettled>
    ensures well { (result ≡ Ok tt) ↔ IsWritten end.now }
    ensures failed { (result ≡ Err Unsettled.Failed) ↔ FailsToWrite end.now }
{
    match end {
        Some(writer) if writer.failed => Err(Unsettled::Failed),
        Some(_writer) => Ok(()),
        None => Err(Unsettled::Late),
    }
}

// What is said of both together: that a write failed comes before that one did not end.
fn both(one: Result<(), Unsettled>, other: Result<(), Unsettled>) -> Result<(), Unsettled>
    ensures well { (result ≡ Ok tt) ↔ ((one ≡ Ok tt) × (other ≡ Ok tt)) }
    ensures failed { (result ≡ Err Unsettled.Failed)
        ↔ ((one ≡ Err Unsettled.Failed) ⊎ (other ≡ Err Unsettled.Failed)) }
{
    match (one, other) {
        (Ok(()), said) => said,
        (said, Ok(())) => said,
        (Err(Unsettled::Failed), _) => Err(Unsettled::Failed),
        (Err(Unsettled::Late), said) => said,
    }
}

impl<B: Book + Drop + Send + 'static> Hand<B> {
    /// Brings the thread to its end, when nothing is handed over any more, and gives its job, done. None where it doesn't
    /// come to its end within `rests` rests of a millisecond, of which it takes as many as it needs; it is left behind
    /// then.
    pub fn end<R: Threads + Wait + Clock>(self, rt: &R, rests: &mut u32) -> Option<Writer<B>>
        ensures { EndsAs B.told self result }
    {
        let Hand {
            running,
            mut marker,
            ended,
        } = self;
        if !ends_within(rt, &mut marker, &ended, rests) {
            return None;
        }
        // models/books.pml: joined
        let mut writer = running.join(rt);
        writer.marker = Some(marker);
        Some(writer)
    }
}

// Sends the mark as soon as there is room for it, rests until the flag is set, so often at the most, and says whether it is.
fn ends_within<R: Wait + Clock>(
    rt: &R,
    marker: &mut Pusher<Slip>,
    flag: &Arc<AtomicBool, Global>,
    rests: &mut u32,
) -> bool
    ensures same_lane { IsSameEnd marker.old marker.new }
    ensures marks { All (λ bytes. bytes ≡ []) marker.old.pushed
        → All (λ bytes. bytes ≡ []) marker.new.pushed }
{
    let mut sent = false;
    for _ in 0..RESTS + 1 {
        // models/books.pml: mark-sent
        if !sent {
            sent = marker.try_push(rt, Slip::mark()).is_ok();
        }
        // models/books.pml: end-awaited
        if flag.load(Ordering::SeqCst) {
            return true;
        }
        if *rests == 0 {
            return false;
        }
        // models/books.pml: wait-counted
        *rests -= 1;
        thread::sleep(rt, Duration::from_millis(REST_MS));
    }
    false
}
