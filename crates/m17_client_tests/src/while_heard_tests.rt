//! That a talk says what its steps say before it hears anything more: its ear looks, at each call, at how much was said.
ghost use Rattle.std.specs.Prelude.{None, Some};

use crate::bench::{Entry, Word, book, callsign, module_a, must, reflector, said_by_ear};
use Entry::{Hears, Quiet};
use m17_client::{Client, Ending, State, TalkEnd, is_in_order, talk};
use m17_ports::{Ear, Mouth};
use m17_samples::frame;
use m17_stream::StreamPacket;
use m17_values::{Failed, Heard, Peer};
use std::alloc::Global;
use std::process::Abort;
use std::sync::atomic::{AtomicU64, Ordering};
use std::sync::{Arc, Wait};

/// How many datagrams were said, as the mouth shows it to the ear.
type Count = Arc<AtomicU64, Global>;

/// An ear that says these entries, each where just so many datagrams were said when it was called; else Fault, and from
/// then on.
#[derive(Drop)]
struct LookingEar {
    // The entries that are left, the last first.
    left: Vec<(u64, Entry)>,
    count: Count,
    met: bool,
}

impl Ear for LookingEar {
    ghost use Rattle.std.specs.Prelude.{◌-◌, ◌^◌};
    ghost use Rattle.std.proofs.Common.{lit≤};
    ghost use Rattle.m17_ports.specs.Untold.{follows_none};

    type Label = ();

    ghost told = { λ _. record {
      heard = None;
      faults = 2 ^ 64 - 1;
      device = record { mark = None; label = tt };
    } };

    ghost faults_fit = { λ _. lit≤ tt };

    ghost follows_script = { λ _ script entries marked _. follows_none script entries marked };

    fn hear(&mut self) -> Heard {
        let (said, entry) = self.left.pop().unwrap_or((0, Entry::End));
        self.met = self.met && self.count.load(Ordering::SeqCst) == said;
        if self.met {
            said_by_ear(entry)
        } else {
            Heard::Fault
        }
    }
}

/// A mouth that keeps nothing, and shows how many datagrams it said.
#[derive(Drop)]
struct CountingMouth {
    said: u64,
    count: Count,
}

impl Mouth for CountingMouth {
    ghost use Rattle.std.proofs.Common.{lit≤};
    ghost use Rattle.m17_ports.specs.Untold.{names_nobody};

    type Label = ();

    ghost told = { λ _. record {
      said = None;
      tallies = λ _. None;
      faults = 0;
      device = record { mark = Some (record { number = 0; peers = None }); label = tt };
    } };

    ghost faults_fit = { λ _. lit≤ tt };

    ghost tells_named = { λ _. names_nobody };

    fn say(&mut self, _to: &Peer, _bytes: &[u8]) -> Result<(), Failed> {
        self.said = self.said.saturating_add(1);
        self.count.store(self.said, Ordering::SeqCst);
        Ok(())
    }
}

/// How many datagrams are to be said before each entry: none, the CONN, the first record, the PONG, and then the second
/// record and the DISC.
const AWAITING: [(u64, Entry); 5] = [
    (0, Quiet(0)),
    (1, Hears(10, Word::Ackn)),
    (2, Hears(20, Word::Ping)),
    (3, Quiet(50)),
    (5, Hears(60, Word::Disc)),
];

/// An ear that hears these, and a mouth whose count it looks at.
fn devices<R: Abort>(rt: &R, alloc: Global) -> (LookingEar, CountingMouth) {
    let count = must(rt, Arc::new(alloc, AtomicU64::new(0)));
    let mouth = CountingMouth {
        said: 0,
        count: must(rt, Arc::try_clone(&count)),
    };
    let mut left = must(rt, Vec::from_array(alloc, AWAITING));
    left.reverse();
    let ear = LookingEar {
        left,
        count,
        met: true,
    };
    (ear, mouth)
}

/// Talks by this script, over such an ear: how it ends, and whether the ear always found what it looked for.
fn talk_of<R: Abort + Wait>(
    rt: &R,
    alloc: Global,
    script: &[(u64, StreamPacket)],
) -> (TalkEnd, bool) {
    let (mut ear, mut mouth) = devices(rt, alloc);
    let mut book = book(rt, alloc, None);
    let client = Client::new(callsign(rt), module_a(rt), false);
    assert!(rt; is_in_order(script));
    let end = talk(
        rt,
        &mut ear,
        &mut mouth,
        &mut book,
        &reflector(),
        client,
        script,
        0,
    );
    (end, ear.met)
}

#[test]
fn what_is_due_is_said_before_more_is_heard(rt: HostRuntime) {
    let script = [(0, frame(7, 0, false)), (40, frame(7, 1, true))];
    let (end, met) = talk_of(&rt, rt.alloc(), &script);
    assert!(rt; met && end.state == State::Closed(Ending::Asked));
}
