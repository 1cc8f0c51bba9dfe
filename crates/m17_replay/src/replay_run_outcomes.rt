//! What each entry came to, read off the tapes of a run.
ghost use Rattle.std.specs.Prelude.{◌≡◌, ◌<◌, Some, count_by, is_some, length, slice_get};
ghost use Rattle.m17_replay.specs.Tapes.{cell_for, packet_by};

use m17_control::Modules;
use m17_directory::{Act, LinkVerdict};
use m17_floor::Verdict;
use m17_tape::Tape;
use std::marker::Model;

/// What each entry of a replay came to that was heard. It has the tapes of the run as they came back, and no list of its
/// own. Contracts see two lists: the verdict of each entry, and the floor rule's verdict on its packet, where it was
/// routed to a module as one.
#[derive(Drop)]
pub struct Outcomes {
    // The modules that are served.
    served: Modules,
    // The link's tape, whose first cells have the verdicts.
    link: Vec<Option<LinkVerdict>>,
    // The tape of each of them, in the order of letters.
    modules: Vec<Tape<Verdict>>,
}

impl Model for Outcomes {
    ghost use Rattle.m17_replay.specs.Tapes.{IsFilledInOrder, OutcomesKept, outcomes_on};

    ghost Value = { OutcomesKept };

    ghost view = { λ o. outcomes_on o.served o.link.items o.modules.items };

    ghost invariant = { λ o. IsFilledInOrder o.link.items };
}

impl Outcomes {
    ghost use Rattle.m17_replay.specs.Tapes.{IsFilledInOrder, outcomes_on};

    // What these tapes have, of a link and of the modules that are served.
    pub(crate) fn of(
        served: Modules,
        link: Vec<Option<LinkVerdict>>,
        modules: Vec<Tape<Verdict>>,
    ) -> Outcomes
        requires { IsFilledInOrder link.items }
        ensures { result ≡ outcomes_on served link.items modules.items }
    {
        Outcomes {
            served,
            link,
            modules,
        }
    }

    /// How many entries were heard.
    pub fn count(&self) -> usize
        ensures verdicts { result ≡ length self.now.verdicts }
        ensures packets { result ≡ length self.now.packets }
    {
        count_filled(&self.link)
    }

    /// What entry `n` came to, counted from 0.
    pub fn verdict(&self, n: usize) -> &LinkVerdict
        requires heard { n < length self.now.verdicts }
        ensures { slice_get self.now.verdicts n ≡ Some result.now }
    {
        match &self.link[n] {
            Some(verdict) => verdict,
            None => unreachable!(),
        }
    }

    /// The floor rule's verdict on the packet of entry `n`, counted from 0, where it was routed to a module as one.
    pub fn packet(&self, n: usize) -> Option<Verdict>
        requires heard { n < length self.now.packets }
        ensures { slice_get self.now.packets n ≡ Some result }
    {
        match &self.link[n] {
            Some(verdict) => packet_verdict(&self.served, &self.modules, n, verdict),
            None => unreachable!(),
        }
    }
}

// How many cells of a link's tape have a verdict.
fn count_filled(tape: &[Option<LinkVerdict>]) -> usize
    ensures { result ≡ count_by (λ cell. is_some cell) tape.now }
{
    tape.iter().filter(|cell| cell.is_some()).count()
}

// The verdict on the packet of entry `n`, which came to this.
fn packet_verdict(
    served: &Modules,
    tapes: &[Tape<Verdict>],
    n: usize,
    verdict: &LinkVerdict,
) -> Option<Verdict>
    ensures { result ≡ packet_by served.now tapes.now n verdict.now }
{
    match verdict {
        LinkVerdict::Routed {
            module,
            act: Act::Packet,
        } => cell_of_module(served, tapes, module.byte(), n),
        _ => None,
    }
}

// What the tape of the module with this letter has for entry `n`; nothing where it is not served.
fn cell_of_module(
    served: &Modules,
    tapes: &[Tape<Verdict>],
    letter: u8,
    n: usize,
) -> Option<Verdict>
    ensures { result ≡ cell_for served.now tapes.now letter n }
{
    match served.rank(letter) {
        Some(at) => match tapes.get(at) {
            Some(tape) => tape.get(n),
            None => None,
        },
        None => None,
    }
}
