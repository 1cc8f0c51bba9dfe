//! How far a client has come with its script.

ghost use Rattle.std.specs.Prelude.{◌≡◌, ◌↔◌, ℕ, true, ◌+◌, ◌<◌, ◌^◌, List, [], ◌∷◌, length, Some, IsTrue, IsSome, MatchOption};
ghost use Rattle.std.specs.Option.{option_or};
ghost use Rattle.m17_stream.specs.declared.packet.StreamPacket.{StreamPacket};
ghost use Rattle.m17_client.specs.declared.state.Input.{Input};
ghost use Rattle.m17_client.specs.declared.state.State.{State};
ghost use Rattle.m17_client.specs.Client.{IsClientStep};
ghost use Rattle.m17_client.specs.Steps.{is_connected, ms_since};
ghost use Rattle.m17_client.specs.Talk.{IsInOrder};
ghost use Rattle.m17_client.specs.TalkSoFar.{IsAfter, IsTimeNow, due_now, moment_in};

use crate::{Action, Client, Input, MOST_ACTIONS, State};
use arrayvec::ArrayVec;
use m17_stream::StreamPacket;

// A client, and what is remembered of its steps: how many packets of the script were sent, and its moments when it
// became connected and at the last packet sent.
#[derive(Debug, Drop)]
pub(crate) struct Progress {
    pub(crate) client: Client,
    pub(crate) sent: usize,
    pub(crate) connected_at: Option<u64>,
    pub(crate) sent_at: Option<u64>,
}

impl Progress {
    /// A client that has made no step.
    pub(crate) fn new(client: Client) -> Progress
        requires { client.state ≡ State.Idle }
        ensures { IsAfter client [] result }
    {
        Progress {
            client,
            sent: 0,
            connected_at: None,
            sent_at: None,
        }
    }

    /// Steps on an input that is no packet of the user.
    pub(crate) fn step(&mut self, input: &Input, out: &mut ArrayVec<Action, MOST_ACTIONS>)
        requires { out.old.items ≡ [] }
        ensures step { IsClientStep self.old.client input.now out.new.items self.new.client }
        ensures connected { self.new.connected_at
            ≡ option_or self.old.connected_at (moment_in self.new.client) }
        ensures sent { self.new.sent ≡ self.old.sent }
        ensures sent_at { self.new.sent_at ≡ self.old.sent_at }
    {
        self.client.step(input, out);
        let connected_at = self.moment_in();
        self.connected_at = self.connected_at.or(connected_at);
    }

    /// Sends the next packet of the script, while the client is connected.
    pub(crate) fn send(&mut self, packet: StreamPacket, out: &mut ArrayVec<Action, MOST_ACTIONS>)
        requires out { out.old.items ≡ [] }
        requires room { self.old.sent < 2 ^ 57 }
        ensures step { IsClientStep self.old.client (Input.Send packet) out.new.items
            self.new.client }
        ensures connected { self.new.connected_at ≡ self.old.connected_at }
        ensures sent { self.new.sent ≡ self.old.sent + 1 }
        ensures sent_at { self.new.sent_at ≡ Some self.new.client.moment }
    {
        self.client.step(&Input::Send { packet }, out);
        self.sent += 1;
        self.sent_at = Some(self.client.moment());
    }

    /// The next packet of the script that is due, if one is.
    pub(crate) fn next_due(&self, script: &[(u64, StreamPacket)]) -> Option<StreamPacket>
        requires { IsInOrder script.now }
        ensures due { MatchOption result (due_now self.now script.now ≡ [])
            (λ packet. (moment : ℕ) × (rest : List (ℕ × StreamPacket))
            × (due_now self.now script.now ≡ (moment, packet) ∷ rest)) }
        ensures connected { IsSome result → is_connected self.now.client.state ≡ true }
        ensures within { IsSome result → self.now.sent < length script.now }
        ensures room { IsSome result → self.now.sent < 2 ^ 57 }
    {
        if !self.is_connected() {
            return None;
        }
        if self.sent >= script.len() {
            return None;
        }
        let (moment, packet) = &script[self.sent];
        if *moment <= self.ms_since(self.connected_at) {
            Some(*packet)
        } else {
            None
        }
    }

    /// Whether it is time to leave, with a script of `packets` packets.
    pub(crate) fn is_time_to_leave(&self, packets: usize, stay: u64) -> bool
        ensures { IsTrue result ↔ IsTimeNow self.now packets stay }
    {
        self.is_connected()
            && self.sent == packets
            && stay <= self.ms_since(self.sent_at.or(self.connected_at))
    }

    // Whether the client is connected.
    fn is_connected(&self) -> bool
        ensures { result ≡ is_connected self.now.client.state }
    {
        matches!(self.client.state(), State::Connected { .. })
    }

    // The client's moment, where it is connected.
    fn moment_in(&self) -> Option<u64>
        ensures { result ≡ moment_in self.now.client }
    {
        if self.is_connected() {
            Some(self.client.moment())
        } else {
            None
        }
    }

    // How many milliseconds have gone by since this moment.
    fn ms_since(&self, moment: Option<u64>) -> u64
        ensures { result ≡ ms_since moment self.now.client }
    {
        self.client.moment().saturating_sub(moment.unwrap_or(0))
    }
}
