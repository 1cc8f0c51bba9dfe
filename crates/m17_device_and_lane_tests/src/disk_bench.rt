//! A book that waits at each write while it is shut, and checks that what is written is 0, 1, 2 and so on up to 250, again
//! and again.

use crate::bench::must;
use m17_ports::Book;
use m17_values::Failed;
use std::alloc::Global;
use std::process::Abort;
use std::sync::Arc;
use std::sync::atomic::{AtomicBool, AtomicU64, Ordering};
use std::thread;
use std::time::{Clock, Duration};

/// What a test and the book of a thread share: whether the book is shut and whether it fails, how many bytes were written
/// to it, and how many of them were not the next.
#[derive(Drop)]
pub(crate) struct Shared {
    pub(crate) shut: AtomicBool,
    pub(crate) fails: AtomicBool,
    pub(crate) written: AtomicU64,
    pub(crate) wrong: AtomicU64,
}

impl Shared {
    pub(crate) fn make<R: Abort>(rt: &R, alloc: Global, shut: bool) -> Arc<Shared, Global> {
        let shared = Shared {
            shut: AtomicBool::new(shut),
            fails: AtomicBool::new(false),
            written: AtomicU64::new(0),
            wrong: AtomicU64::new(0),
        };
        must(rt, Arc::new(alloc, shared))
    }

    // How many bytes were written, and how many of them were not the next.
    pub(crate) fn seen(&self) -> (u64, u64) {
        (
            self.written.load(Ordering::SeqCst),
            self.wrong.load(Ordering::SeqCst),
        )
    }

    fn note(&self, bytes: &[u8]) {
        for byte in bytes {
            let place = self.written.fetch_add(1, Ordering::SeqCst);
            if u64::from(*byte) != place % 251 {
                self.wrong.fetch_add(1, Ordering::SeqCst);
            }
        }
    }
}

#[derive(Drop)]
pub(crate) struct Gated<R: Drop> {
    rt: R,
    shared: Arc<Shared, Global>,
    faults: u64,
}

impl<R: Drop> Gated<R> {
    pub(crate) fn new(rt: R, shared: Arc<Shared, Global>) -> Gated<R> {
        Gated {
            rt,
            shared,
            faults: 0,
        }
    }
}

// Waits while the book is shut, for a minute at the most.
fn wait_until_open<R: Clock>(rt: &R, shared: &Shared) {
    for _rest in 0..60_000 {
        if !shared.shut.load(Ordering::SeqCst) {
            return;
        }
        thread::sleep(rt, Duration::from_millis(1));
    }
}

impl<R: Clock + Drop> Book for Gated<R> {
    ghost use Rattle.std.specs.Prelude.{◌-◌, ◌^◌, min, None};
    ghost use Rattle.std.proofs.Math.Nat.{min-le_right};

    type Label = ();

    ghost told = { λ b. record {
      written = None;
      faults = min b.faults (2 ^ 64 - 1);
      device = record { mark = None; label = tt };
    } };

    ghost faults_fit = { λ b. min-le_right b.faults (2 ^ 64 - 1) };

    fn write(&mut self, bytes: &[u8]) -> Result<(), Failed> {
        wait_until_open(&self.rt, &self.shared);
        if self.shared.fails.load(Ordering::SeqCst) {
            self.faults = self.faults.saturating_add(1);
            return Err(Failed);
        }
        self.shared.note(bytes);
        Ok(())
    }
}
