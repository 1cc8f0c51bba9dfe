ghost use Rattle.std.specs.Prelude.{◌≡◌};
ghost use Rattle.m17_disk.specs.Writing.{IsReady, WriterDid};

use crate::slip::Slip;
use crate::writing::{Waited, write_next};
use m17_crew::Work;
use m17_lane::{Bell, Popper, Pusher};
use m17_ports::Book;
use std::alloc::Global;
use std::sync::atomic::{AtomicBool, Ordering};
use std::sync::{Arc, Wait};

/// The job of a book's thread: it takes what was handed over and writes it to its book, what waits together in one
/// write, and sleeps while nothing waits. It ends at the first write that fails, and where it takes the mark behind the
/// last write. Then it says so. It takes no memory.
#[derive(Drop)]
pub struct Writer<B> {
    /// What is to be written.
    pub slips: Popper<Slip>,
    /// Where it is written.
    pub book: B,
    /// Whether a write failed.
    pub failed: bool,
    /// Where it sleeps: what is handed over rings this bell.
    pub bell: Bell,
    /// Whether it has ended, for those who wait for that, and for the book.
    pub ended: Arc<AtomicBool, Global>,
    /// The end by which it was sent the mark, once it has ended.
    pub marker: Option<Pusher<Slip>>,
}

impl<B: Book + Drop + Send + 'static> Work for Writer<B> {
    ghost ready = { λ j. IsReady j };

    ghost does = { λ j k. WriterDid B.told j k };

    fn go<R: Wait>(&mut self, rt: &R) {
        self.work(rt);
        // models/books.pml: end-said
        self.ended.store(true, Ordering::SeqCst);
    }
}

impl<B: Book> Writer<B> {
    // Writes what comes, up to the end. It announces its sleep before it looks, so that nothing comes in between.
    fn work<R: Wait>(&mut self, rt: &R)
        requires { IsReady self.old }
        ensures { WriterDid B.told self.old self.new }
    {
        for _ in rt.forever() {
            // models/books.pml: sleep-announced
            let announced = self.bell.announce();
            // models/books.pml: slips-taken
            let waited = write_next(rt, &mut self.slips, &mut self.book, &mut self.failed);
            // models/books.pml: end-decided
            if self.failed || waited == Waited::Mark {
                return;
            }
            if waited == Waited::Nothing {
                // models/books.pml: slept
                announced.sleep(rt);
            }
        }
        unreachable!()
    }
}
