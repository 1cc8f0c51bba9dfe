//! A run of `talk`, entry by entry.

ghost use Rattle.std.specs.Prelude.{◌≡◌, ◌↔◌, ◌⊎◌, ℕ, ◌+◌, ◌<◌, ◌≤◌, List, [], ◌∷◌, ◌++◌, IsTrue, true, false, MatchOption, if◌then◌else◌};
ghost use Rattle.m17_values.specs.declared.heard.Heard.{Heard};
ghost use Rattle.m17_client.specs.declared.state.Input.{Input};
ghost use Rattle.m17_client.specs.declared.state.State.{State};
ghost use Rattle.m17_client.specs.declared.state.Ending.{Ending};
ghost use Rattle.m17_client.specs.declared.talking.TalkEnd.{TalkEnd};
ghost use Rattle.m17_client.specs.Steps.{ClientStep, is_send};
ghost use Rattle.m17_client.specs.Talk.{IsHeardAs, IsInOrder, IsTurn, Turn, is_fault};
ghost use Rattle.m17_client.specs.TalkSoFar.{IsFresh, IsPlan, IsSoFar, IsStepless, Origin};

use crate::session::Session;
use crate::talking::TalkEnd;
use crate::{Client, Input, State};
use m17_ports::{Book, Mouth};
use m17_stream::StreamPacket;
use m17_values::{Heard, Peer};

/// The number of Faults in a row that ends a run.
pub const MOST_FAULTS: u32 = 16;

// Where a run stands: its client, how many Faults stand last in a row, and whether the ear said End.
#[derive(Debug, Drop)]
pub(crate) struct Run {
    pub(crate) session: Session,
    pub(crate) faults: u32,
    pub(crate) ended: bool,
}

impl Run {
    /// A run in which nothing was heard yet.
    pub(crate) fn new(client: Client) -> Run
        requires { client.state ≡ State.Idle }
        ensures fresh { IsFresh client result.session }
        ensures no_fault { result.faults ≡ 0 }
        ensures goes_on { result.ended ≡ false }
    {
        Run {
            session: Session::new(client),
            faults: 0,
            ended: false,
        }
    }

    /// Takes the turn of an entry.
    pub(crate) fn take<M: Mouth, B: Book>(
        &mut self,
        entry: Heard,
        to: &Peer,
        script: &[(u64, StreamPacket)],
        stay: u64,
        mouth: &mut M,
        book: &mut B,
    )
        requires in_order { IsInOrder script.now }
        requires faults { self.old.faults < 16 }
        ensures { (origin : Origin M.Label B.Label) (turns : List Turn)
            → IsPlan origin.plan to.now script.now stay
            → IsSoFar origin turns self.old (M.told mouth.old) (B.told book.old)
            → (steps : List ClientStep)
            × IsSoFar origin (turns ++ record { heard = entry; steps = steps } ∷ []) self.new
            (M.told mouth.new) (B.told book.new) }
    {
        self.ended = is_end(&entry);
        self.count_fault(is_fault(&entry));
        if let Some(input) = input_of(entry, to) {
            self.session.turn(&input, to, script, stay, mouth, book);
        }
    }

    /// Whether the run is over.
    pub(crate) fn is_over(&self) -> bool
        ensures { IsTrue result ↔ ((self.now.ended ≡ true) ⊎ ((16 ≤ self.now.faults)
            ⊎ ((why : Ending) × (self.now.session.progress.client.state ≡ State.Closed why)))) }
    {
        self.ended || self.faults >= MOST_FAULTS || self.is_closed()
    }

    /// What the run came to.
    pub(crate) fn end(&self) -> TalkEnd
        ensures state { result.state ≡ self.now.session.progress.client.state }
        ensures kept { result.kept ≡ self.now.session.log.kept }
        ensures ended { result.ended ≡ self.now.ended }
        ensures lost { IsTrue result.lost ↔ (16 ≤ self.now.faults) }
        ensures book_failed { result.book_failed ≡ self.now.session.log.failed }
    {
        TalkEnd {
            state: self.session.progress.client.state(),
            kept: self.session.log.kept,
            ended: self.ended,
            lost: self.faults >= MOST_FAULTS,
            book_failed: self.session.log.failed,
        }
    }

    // Whether the client is closed.
    fn is_closed(&self) -> bool
        ensures { IsTrue result
            ↔ ((why : Ending) × (self.now.session.progress.client.state ≡ State.Closed why)) }
    {
        matches!(self.session.progress.client.state(), State::Closed(_))
    }

    // Counts a Fault, or begins anew.
    fn count_fault(&mut self, fault: bool)
        requires { self.old.faults < 16 }
        ensures { self.new ≡ record self.old {
          faults = (if fault then self.old.faults + 1 else 0);
        } }
    {
        if fault {
            self.faults += 1;
        } else {
            self.faults = 0;
        }
    }
}

// Whether an entry is End.
fn is_end(entry: &Heard) -> bool
    ensures { IsTrue result ↔ (entry.now ≡ Heard.End) }
{
    matches!(entry, Heard::End)
}

// Whether an entry is a Fault.
fn is_fault(entry: &Heard) -> bool
    ensures { result ≡ is_fault entry.now }
{
    matches!(entry, Heard::Fault)
}

// What an entry is to the client, if it is anything: a datagram of the reflector, or a moment that went by.
fn input_of(entry: Heard, to: &Peer) -> Option<Input>
    ensures input { MatchOption result (IsStepless entry)
        (λ input. IsHeardAs to.now entry input × (is_send input ≡ false)) }
{
    match entry {
        Heard::Datagram { from, at, bytes } => {
            if from == *to {
                Some(Input::Datagram { at, bytes })
            } else {
                Some(Input::Quiet { at })
            }
        }
        Heard::Quiet { at } => Some(Input::Quiet { at }),
        Heard::Fault => None,
        Heard::End => None,
    }
}
