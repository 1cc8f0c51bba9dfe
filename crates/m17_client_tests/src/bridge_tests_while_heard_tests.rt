//! That a bridge says what its steps say before it hears anything more: its ears look, at each call, at how much was said
//! on both sides.
ghost use Rattle.std.specs.Prelude.{None, Some};

use crate::bridge_tests_bench::{Entry, Word, client, must, reflector, said_by_ear};
use Entry::{Hears, Quiet};
use Side::{Far, Near};
use Word::{Ackn, Disc, Frame, Ping};
use m17_client::{Bridge, BridgeEnd, Side, cross};
use m17_ports::{Ear, Mouth};
use m17_values::{Failed, Heard, Peer};
use std::alloc::Global;
use std::process::Abort;
use std::sync::atomic::{AtomicU64, Ordering};
use std::sync::{Arc, Wait};

/// How many datagrams were said on both sides, as the mouths show it to the ears.
type Count = Arc<AtomicU64, Global>;

/// An ear of a side that says these entries, each where just so many datagrams were said when it was called; else Fault,
/// and from then on.
#[derive(Drop)]
struct LookingEar {
    side: Side,
    // The entries that are left, the last first.
    left: Vec<(u64, Entry)>,
    count: Count,
    met: bool,
}

impl Ear for LookingEar {
    ghost use Rattle.std.specs.Prelude.{◌-◌, ◌^◌};
    ghost use Rattle.std.proofs.Common.{lit≤};
    ghost use Rattle.m17_ports.specs.Untold.{follows_none};

    type Label = ();

    ghost told = { λ _. record {
      heard = None;
      faults = 2 ^ 64 - 1;
      device = record { mark = None; label = tt };
    } };

    ghost faults_fit = { λ _. lit≤ tt };

    ghost follows_script = { λ _ script entries marked _. follows_none script entries marked };

    fn hear(&mut self) -> Heard {
        let (said, entry) = self.left.pop().unwrap_or((0, Entry::End));
        self.met = self.met && self.count.load(Ordering::SeqCst) == said;
        if self.met {
            said_by_ear(self.side, entry)
        } else {
            Heard::Fault
        }
    }
}

/// A mouth that keeps nothing, and counts what it says.
#[derive(Drop)]
struct CountingMouth {
    count: Count,
}

impl Mouth for CountingMouth {
    ghost use Rattle.std.proofs.Common.{lit≤};
    ghost use Rattle.m17_ports.specs.Untold.{names_nobody};

    type Label = ();

    ghost told = { λ _. record {
      said = None;
      tallies = λ _. None;
      faults = 0;
      device = record { mark = Some (record { number = 0; peers = None }); label = tt };
    } };

    ghost faults_fit = { λ _. lit≤ tt };

    ghost tells_named = { λ _. names_nobody };

    fn say(&mut self, _to: &Peer, _bytes: &[u8]) -> Result<(), Failed> {
        self.count.fetch_add(1, Ordering::SeqCst);
        Ok(())
    }
}

/// How many datagrams are to be said on both sides before each entry of near: none; both CONNs; the same; near's first
/// packet and far's PONG; and near's second one and far's.
const NEAR: [(u64, Entry); 5] = [
    (0, Quiet(0)),
    (2, Hears(10, Ackn)),
    (2, Hears(40, Frame(0x1234, 0, false))),
    (4, Hears(80, Frame(0x1234, 1, true))),
    (6, Hears(100, Disc)),
];

/// The same of far, which is heard behind near.
const FAR: [(u64, Entry); 4] = [
    (1, Quiet(0)),
    (2, Hears(10, Ackn)),
    (3, Hears(45, Ping)),
    (5, Hears(90, Frame(0x0005, 0, true))),
];

/// An ear of a side that says these, and a mouth.
fn devices<R: Abort, const N: usize>(
    rt: &R,
    alloc: Global,
    side: Side,
    entries: [(u64, Entry); N],
    count: &Count,
) -> (LookingEar, CountingMouth) {
    let mut left = must(rt, Vec::from_array(alloc, entries));
    left.reverse();
    let ear = LookingEar {
        side,
        left,
        count: must(rt, Arc::try_clone(count)),
        met: true,
    };
    let mouth = CountingMouth {
        count: must(rt, Arc::try_clone(count)),
    };
    (ear, mouth)
}

/// Runs a bridge over such ears: how it ends, and whether both ears always found what they looked for.
fn cross_of<R: Abort + Wait>(rt: &R, alloc: Global) -> (BridgeEnd, bool) {
    let count = must(rt, Arc::new(alloc, AtomicU64::new(0)));
    let (mut near_ear, mut near_mouth) = devices(rt, alloc, Near, NEAR, &count);
    let (mut far_ear, mut far_mouth) = devices(rt, alloc, Far, FAR, &count);
    let end = cross(
        rt,
        &mut near_ear,
        &mut near_mouth,
        &mut far_ear,
        &mut far_mouth,
        &reflector(Near),
        &reflector(Far),
        Bridge::new(client(rt), client(rt)),
    );
    (end, near_ear.met && far_ear.met)
}

#[test]
fn what_is_due_is_said_before_either_side_is_heard_again(rt: HostRuntime) {
    let (end, met) = cross_of(&rt, rt.alloc());
    let wanted = BridgeEnd {
        near: 2,
        far: 1,
        lost: false,
    };
    assert!(rt; met && end == wanted);
}
