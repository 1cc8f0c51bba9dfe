//! The turn of a client at an entry of its ear.

ghost use Rattle.std.specs.Prelude.{◌≡◌, ℕ, ◌+◌, ◌<◌, ◌^◌, List, [], ◌∷◌, ◌++◌, map, drop, true, false};
ghost use Rattle.m17_stream.specs.declared.packet.StreamPacket.{StreamPacket};
ghost use Rattle.m17_values.specs.declared.heard.Heard.{Heard};
ghost use Rattle.m17_client.specs.declared.state.Input.{Input};
ghost use Rattle.m17_client.specs.declared.state.State.{State};
ghost use Rattle.m17_client.specs.Steps.{ClientStep, inputs_of, is_connected, is_send};
ghost use Rattle.m17_client.specs.Talk.{IsHeardAs, IsInOrder, TakesTurn, TalkPlan, due_records};
ghost use Rattle.m17_client.specs.TalkSoFar.{IsAt, IsFresh, IsPlan, Origin, due_now};

use crate::log::Log;
use crate::progress::Progress;
use crate::{Client, Input};
use arrayvec::ArrayVec;
use m17_ports::{Book, Mouth};
use m17_stream::StreamPacket;
use m17_values::Peer;

// A client with its script and its log.
#[derive(Debug, Drop)]
pub(crate) struct Session {
    pub(crate) progress: Progress,
    pub(crate) log: Log,
}

impl Session {
    /// Nothing was heard yet.
    pub(crate) fn new(client: Client) -> Session
        requires { client.state ≡ State.Idle }
        ensures { IsFresh client result }
    {
        Session {
            progress: Progress::new(client),
            log: Log::new(),
        }
    }

    /// The turn of an entry that the client steps on: this input, then all that is due, and then Leave, where it is
    /// time to.
    pub(crate) fn turn<M: Mouth, B: Book>(
        &mut self,
        input: &Input,
        to: &Peer,
        script: &[(u64, StreamPacket)],
        stay: u64,
        mouth: &mut M,
        book: &mut B,
    )
        requires in_order { IsInOrder script.now }
        requires no_send { is_send input.now ≡ false }
        ensures { (origin : Origin M.Label B.Label) (steps : List ClientStep) (entry : Heard)
            → IsPlan origin.plan to.now script.now stay → IsHeardAs to.now entry input.now
            → IsAt origin steps self.old (M.told mouth.old) (B.told book.old)
            → (more : List ClientStep) × TakesTurn origin.plan steps entry more
            × IsAt origin (steps ++ more) self.new (M.told mouth.new) (B.told book.new) }
    {
        self.step(input, to, mouth, book);
        self.send_due(to, script, mouth, book);
        if self.progress.is_time_to_leave(script.len(), stay) {
            self.step(&Input::Leave, to, mouth, book);
        }
    }

    // Sends all packets of the script that are due, in order.
    fn send_due<M: Mouth, B: Book>(
        &mut self,
        to: &Peer,
        script: &[(u64, StreamPacket)],
        mouth: &mut M,
        book: &mut B,
    )
        requires in_order { IsInOrder script.now }
        ensures { (origin : Origin M.Label B.Label) (steps : List ClientStep)
            → origin.plan.to ≡ to.now → origin.plan.script ≡ script.now
            → IsAt origin steps self.old (M.told mouth.old) (B.told book.old)
            → (sends : List ClientStep)
            × (inputs_of sends ≡ map (λ due. Input.Send due.1) (due_records origin.plan steps))
            × IsAt origin (steps ++ sends) self.new (M.told mouth.new) (B.told book.new) }
    {
        'due: while let Some(packet) = self.progress.next_due(script) {
            self.send(packet, to, mouth, book);
        }
    }

    // Steps on an input that is no packet of the user, and does what comes of it.
    fn step<M: Mouth, B: Book>(&mut self, input: &Input, to: &Peer, mouth: &mut M, book: &mut B)
        requires { is_send input.now ≡ false }
        ensures { (origin : Origin M.Label B.Label) (steps : List ClientStep) → origin.plan.to ≡ to.now
            → IsAt origin steps self.old (M.told mouth.old) (B.told book.old)
            → (step : ClientStep) × (step.input ≡ input.now)
            × IsAt origin (steps ++ step ∷ []) self.new (M.told mouth.new) (B.told book.new) }
    {
        let mut out = ArrayVec::new();
        self.progress.step(input, &mut out);
        let moment = self.progress.client.moment();
        self.log.carry_out(moment, out.as_slice(), to, mouth, book);
    }

    // Sends a packet of the script, while the client is connected.
    fn send<M: Mouth, B: Book>(
        &mut self,
        packet: StreamPacket,
        to: &Peer,
        mouth: &mut M,
        book: &mut B,
    )
        requires connected { is_connected self.old.progress.client.state ≡ true }
        requires room { self.old.progress.sent < 2 ^ 57 }
        ensures stepped { (origin : Origin M.Label B.Label) (steps : List ClientStep) → origin.plan.to ≡ to.now
            → IsAt origin steps self.old (M.told mouth.old) (B.told book.old)
            → (step : ClientStep) × (step.input ≡ Input.Send packet)
            × IsAt origin (steps ++ step ∷ []) self.new (M.told mouth.new) (B.told book.new) }
        ensures due { (script : List (ℕ × StreamPacket))
            → due_now self.new.progress script ≡ drop 1 (due_now self.old.progress script) }
        ensures sent { self.new.progress.sent ≡ self.old.progress.sent + 1 }
    {
        let mut out = ArrayVec::new();
        self.progress.send(packet, &mut out);
        let moment = self.progress.client.moment();
        self.log.carry_out(moment, out.as_slice(), to, mouth, book);
    }
}
