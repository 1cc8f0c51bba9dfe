ghost use Rattle.std.specs.Prelude.{◌≡◌, ◌++◌, ℕ, ◌-◌, ◌^◌, min, true, false, take, None, IsErr, OnOk, OnErr};
ghost use Rattle.m17_io.specs.Faults.{HasCause};
ghost use Rattle.m17_ports.specs.Told.{told_then};
ghost use Rattle.m17_ports.specs.Ports.{next_number};
ghost use Rattle.m17_disk.specs.Queue.{joined, queue_told, HandsOver, Hands, HasGround, IsSameEnd};

use crate::slip::Slip;
use m17_lane::Pusher;
use m17_ports::Book;
use m17_values::Failed;
use std::alloc::Global;
use std::marker::Model;
use std::sync::atomic::{AtomicBool, Ordering};
use std::sync::{Arc, Wait};
use std::thread;
use std::time::{Clock, Duration};

/// How long a rest at a full lane is, in milliseconds.
const REST_MS: u64 = 1;

/// How many rests a book may make there at the most, some quarter of a second. Each write that finds room at once gives one
/// back, so that a disk that is slow for long is not waited for.
pub(crate) const RESTS: u32 = 250;

/// A book that hands each write over to a thread of its own. Where the lane to it is full it rests, some quarter of a second
/// in all and a millisecond more for each write that found room, so that a flood is held back and a disk that hangs is
/// not waited for. It fails where the lane is full after that, where the thread has ended, since its own book failed,
/// and where a write has more than 112 bytes. From its first failure on it hands nothing over, so what it handed over is
/// a first part of what was to be written.
#[derive(Drop)]
pub struct QueuedBook<R: Drop> {
    pub(crate) rt: R,
    pub(crate) slips: Pusher<Slip>,
    pub(crate) ended: Arc<AtomicBool, Global>,
    pub(crate) rests: u32,
    // Whether it has seen that the thread has ended.
    pub(crate) over: bool,
    pub(crate) gave_up: bool,
    pub(crate) faults: u64,
    pub(crate) number: u64,
}

impl<R: Drop> Model for QueuedBook<R> {
    ghost use Rattle.std.specs.Prelude.{◌≤◌};
    ghost use Rattle.m17_disk.specs.Queue.{QueueKept};

    ghost Value = { QueueKept };

    ghost view = { λ b. record {
      slips = b.slips;
      rests = b.rests;
      over = b.over;
      gave_up = b.gave_up;
      faults = b.faults;
      number = b.number;
    } };

    ghost invariant = { λ b. b.rests ≤ 250 };
}

impl<R: Drop> QueuedBook<R> {
    ghost use Rattle.m17_disk.specs.Queue.{QueueKept};

    /// The same book with this number.
    pub fn numbered(self, number: u64) -> QueuedBook<R>
        ensures { result ≡ record self { number = number } }
    {
        let mut book = self;
        book.number = number;
        book
    }
}

impl<R: Wait + Clock + Drop> QueuedBook<R> {
    ghost use Rattle.m17_disk.specs.Queue.{QueueKept};

    // Hands the bytes over, and says whether it did. Where there are none there is nothing to hand over.
    fn hand_over(&mut self, bytes: &[u8]) -> bool
        ensures handed { result ≡ true → Hands bytes.now self.old self.new }
        ensures kept { result ≡ false → self.new.slips.pushed ≡ self.old.slips.pushed }
        ensures ground { result ≡ false → HasGround bytes.now self.old self.new }
        ensures same_lane { IsSameEnd self.old.slips self.new.slips }
        ensures same { self.new ≡ record self.old {
          slips = self.new.slips;
          rests = self.new.rests;
          over = self.new.over;
        } }
    {
        if bytes.is_empty() {
            return true;
        }
        // models/books.pml: ended-asked
        if self.is_over() {
            return false;
        }
        match Slip::of(bytes) {
            Some(slip) => self.push_soon(slip),
            None => false,
        }
    }

    // Whether the thread has ended.
    fn is_over(&mut self) -> bool
        ensures seen { result ≡ true → self.new.over ≡ true }
        ensures same { self.new ≡ record self.old { over = self.new.over } }
    {
        if self.ended.load(Ordering::SeqCst) {
            self.over = true;
        }
        self.over
    }

    // Puts the slip into the lane, and rests while that is full, as often as it may.
    fn push_soon(&mut self, slip: Slip) -> bool
        ensures handed { result ≡ true → HandsOver slip self.old self.new }
        ensures kept { result ≡ false → self.new.slips.pushed ≡ self.old.slips.pushed }
        ensures ground { result ≡ false → HasGround slip self.old self.new }
        ensures same_lane { IsSameEnd self.old.slips self.new.slips }
        ensures same { self.new ≡ record self.old {
          slips = self.new.slips;
          rests = self.new.rests;
          over = self.new.over;
        } }
    {
        let mut slip = slip;
        let most = self.rests;
        for rested in 0..most + 1 {
            // models/books.pml: slip-tried
            match self.slips.try_push(&self.rt, slip) {
                Ok(()) => {
                    if rested == 0 {
                        self.rests = self.rests.saturating_add(1).min(RESTS);
                    }
                    return true;
                }
                Err(back) => slip = back,
            }
            // models/books.pml: end-asked-again
            if self.rests == 0 || self.is_over() {
                return false;
            }
            // models/books.pml: rest-counted
            self.rests -= 1;
            // models/books.pml: rested
            thread::sleep(&self.rt, Duration::from_millis(REST_MS));
        }
        unreachable!()
    }
}

impl<R: Wait + Clock + Drop> Book for QueuedBook<R> {
    ghost use Rattle.std.proofs.Math.Nat.{min-le_right};

    type Label = ();

    ghost told = { queue_told };

    ghost faults_fit = { λ b. min-le_right b.faults (2 ^ 64 - 1) };

    fn write(&mut self, bytes: &[u8]) -> Result<(), Failed>
        ensures cause { HasCause (min self.old.faults (2 ^ 64 - 1))
            (min self.new.faults (2 ^ 64 - 1)) result }
        ensures appended { OnOk result (None ≡ told_then {A = ℕ} None bytes.now) }
        ensures prefix { OnErr result
            ((n : ℕ) × (None ≡ told_then {A = ℕ} None (take n bytes.now))) }
        ensures same_device { self.new.number ≡ self.old.number }

        // All of the bytes are handed over, behind those of the writes before, or nothing is. A write of no bytes hands nothing
        // over; any other is one more write, for which it rested as often as its lane refused it.
        ensures handed { OnOk result (Hands bytes.now self.old self.new) }
        ensures kept { OnErr result (self.new.slips.pushed ≡ self.old.slips.pushed) }
        ensures same_lane { IsSameEnd self.old.slips self.new.slips }

        // After its first failure it hands nothing over.
        ensures given_up { OnErr result (self.new.gave_up ≡ true) }
        ensures stays { self.old.gave_up ≡ true → IsErr result }
        ensures goes_on { OnOk result (self.new.gave_up ≡ false) }

        // The first failure has a ground.
        ensures ground { OnErr result
            (self.old.gave_up ≡ false → HasGround bytes.now self.old self.new) }

        // A failure is counted, and nothing else is.
        ensures counted { OnErr result (self.new.faults ≡ next_number self.old.faults) }
        ensures no_fault { OnOk result (self.new.faults ≡ self.old.faults) }
    {
        if !self.gave_up && self.hand_over(bytes) {
            return Ok(());
        }
        // models/books.pml: given-up
        self.gave_up = true;
        self.faults = self.faults.saturating_add(1);
        Err(Failed)
    }
}
