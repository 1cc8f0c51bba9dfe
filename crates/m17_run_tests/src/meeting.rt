//! Devices for tests that wait for one another. Each counts what it does, and one that waits gives up after a while; the
//! run then says so.
ghost use Rattle.std.specs.Prelude.{None};

use crate::bench::must;
use crossbeam_utils::Backoff;
use m17_ports::{Book, Ear, Mouth};
use m17_values::{Failed, Heard, Peer};
use std::alloc::Global;
use std::process::Abort;
use std::sync::Arc;
use std::sync::atomic::{AtomicU64, Ordering};

// So often a device looks at the other's count before it gives up.
const MOST_TURNS: u32 = 1_000_000;

// The length of a stream packet.
const FRAME_LENGTH: usize = 54;

// How often a device did what another may wait for.
pub(crate) type Count = Arc<AtomicU64, Global>;

// A device's own count, and the one that it waits for.
#[derive(Drop)]
pub(crate) struct Counts {
    own: Count,
    other: Count,
}

pub(crate) fn new_count<R: Abort>(rt: &R, alloc: Global) -> Count {
    must(rt, Arc::new(alloc, AtomicU64::new(0)))
}

pub(crate) fn counts_of<R: Abort>(rt: &R, own: &Count, other: &Count) -> Counts {
    Counts {
        own: must(rt, Arc::try_clone(own)),
        other: must(rt, Arc::try_clone(other)),
    }
}

// The counts of two devices that wait for each other.
pub(crate) fn pair_of_counts<R: Abort>(rt: &R, alloc: Global) -> (Counts, Counts) {
    let (a, b) = (new_count(rt, alloc), new_count(rt, alloc));
    (counts_of(rt, &a, &b), counts_of(rt, &b, &a))
}

impl Counts {
    // Shows the own count and waits until the other one is so high: whether that came.
    fn meet(&self, own: u64, awaited: u64) -> bool {
        self.own.store(own, Ordering::SeqCst);
        let backoff = Backoff::new();
        for _turn in 0..MOST_TURNS {
            if self.other.load(Ordering::SeqCst) >= awaited {
                return true;
            }
            backoff.snooze();
        }
        false
    }
}

// A book that keeps nothing. One of its writes shows its own count and waits for the other book's; where that doesn't come,
// that write fails and all that follow.
#[derive(Drop)]
pub(crate) struct MeetingBook {
    counts: Option<Counts>,
    // How many writes there are before that one.
    before: u64,
    awaited: u64,
    met: bool,
}

impl MeetingBook {
    // A book whose first write waits by these counts.
    pub(crate) fn new(counts: Counts) -> MeetingBook {
        MeetingBook::behind(counts, 0, 1)
    }

    // A book that waits so, behind so many writes, until the other count is so high.
    pub(crate) fn behind(counts: Counts, before: u64, awaited: u64) -> MeetingBook {
        MeetingBook {
            counts: Some(counts),
            before,
            awaited,
            met: true,
        }
    }

    // A book that waits for nobody.
    pub(crate) fn alone() -> MeetingBook {
        MeetingBook {
            counts: None,
            before: 0,
            awaited: 0,
            met: true,
        }
    }
}

impl Book for MeetingBook {
    ghost use Rattle.std.specs.Prelude.{◌-◌, ◌^◌};
    ghost use Rattle.std.proofs.Common.{lit≤};

    type Label = ();

    ghost told = { λ _. record {
      written = None;
      faults = 2 ^ 64 - 1;
      device = record { mark = None; label = tt };
    } };

    ghost faults_fit = { λ _. lit≤ tt };

    fn write(&mut self, _bytes: &[u8]) -> Result<(), Failed> {
        if self.before > 0 {
            self.before -= 1;
            return Ok(());
        }
        if let Some(counts) = self.counts.take() {
            self.met = counts.meet(1, self.awaited);
        }
        if self.met { Ok(()) } else { Err(Failed) }
    }
}

// An entry, and how high the other count has to be before it is heard.
pub(crate) type Awaiting = (u64, Heard);

// An ear that says its entries, each once the other count is so high, and Fault from then on where that didn't come. It
// counts its entries.
#[derive(Drop)]
pub(crate) struct MeetingEar {
    // The entries that are left, the last first.
    left: Vec<Awaiting>,
    counts: Counts,
    said: u64,
    met: bool,
}

impl MeetingEar {
    // An ear with these entries, that waits by these counts.
    pub(crate) fn new(entries: Vec<Awaiting>, counts: Counts) -> MeetingEar {
        let mut left = entries;
        left.reverse();
        MeetingEar {
            left,
            counts,
            said: 0,
            met: true,
        }
    }
}

impl Ear for MeetingEar {
    ghost use Rattle.std.specs.Prelude.{◌-◌, ◌^◌};
    ghost use Rattle.std.proofs.Common.{lit≤};
    ghost use Rattle.m17_ports.specs.Untold.{follows_none};

    type Label = ();

    ghost told = { λ _. record {
      heard = None;
      faults = 2 ^ 64 - 1;
      device = record { mark = None; label = tt };
    } };

    ghost faults_fit = { λ _. lit≤ tt };

    ghost follows_script = { λ _ script entries marked _. follows_none script entries marked };

    fn hear(&mut self) -> Heard {
        let next = self.left.pop();
        let (awaited, entry) = next.unwrap_or((0, Heard::End));
        self.said = self.said.saturating_add(1);
        self.met = self.met && self.counts.meet(self.said, awaited);
        if self.met { entry } else { Heard::Fault }
    }
}

// A mouth that keeps nothing. It counts what it says, and before the first stream packet it waits until the other count
// is so high.
#[derive(Drop)]
pub(crate) struct MeetingMouth {
    counts: Counts,
    awaited: u64,
    pub(crate) met: bool,
    pub(crate) said: u64,
    // How many of these are stream packets, and how many are NACKs.
    pub(crate) frames: u64,
    pub(crate) nacks: u64,
}

impl MeetingMouth {
    // A mouth that waits by these counts, until the other one is so high.
    pub(crate) fn new(counts: Counts, awaited: u64) -> MeetingMouth {
        MeetingMouth {
            counts,
            awaited,
            met: true,
            said: 0,
            frames: 0,
            nacks: 0,
        }
    }
}

impl Mouth for MeetingMouth {
    ghost use Rattle.std.proofs.Common.{lit≤};
    ghost use Rattle.m17_ports.specs.Untold.{names_nobody};

    type Label = ();

    ghost told = { λ _. record {
      said = None;
      tallies = λ _. None;
      faults = 0;
      device = record { mark = None; label = tt };
    } };

    ghost faults_fit = { λ _. lit≤ tt };

    ghost tells_named = { λ _. names_nobody };

    fn say(&mut self, _to: &Peer, bytes: &[u8]) -> Result<(), Failed> {
        if bytes.len() == FRAME_LENGTH {
            self.met = self.met && self.counts.meet(self.said, self.awaited);
            self.frames = self.frames.saturating_add(1);
        }
        if bytes.starts_with(b"NACK") {
            self.nacks = self.nacks.saturating_add(1);
        }
        self.said = self.said.saturating_add(1);
        self.met = self.met && self.counts.meet(self.said, 0);
        Ok(())
    }
}
