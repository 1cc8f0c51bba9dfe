ghost use Rattle.std.specs.Prelude.{◌≡◌, ◌↔◌, ◌≤◌, ◌+◌, ◌++◌, ℕ, length, fold, max, List, [], ◌∷◌, true, false, Option, Some, IsTrue, MatchOption, option_map};
ghost use Rattle.std.specs.List.{flat_map};
ghost use Rattle.m17_stream.specs.declared.packet.StreamPacket.{StreamPacket};
ghost use Rattle.m17_client.specs.declared.state.Input.{Input};
ghost use Rattle.m17_client.specs.Standing.{Standing};
ghost use Rattle.m17_client.specs.Client.{IsClientStep};
ghost use Rattle.m17_client.specs.Steps.{ClientStep, is_connected, is_send};
ghost use Rattle.m17_client.specs.TalkDevices.{said_by};
ghost use Rattle.m17_client.specs.Way.{kept_in};
ghost use Rattle.m17_client.specs.declared.side.Side.{Side};
ghost use Rattle.m17_client.specs.Sides.{Both, both, of, opposite};
ghost use Rattle.m17_client.specs.Passing.{FindsWay, Kept, Passes};
ghost use Rattle.m17_client.specs.BridgeSteps.{AreSaidBy, BridgeStep, moments_in, said_on};
ghost use Rattle.m17_client.specs.StandsFor.{BridgeStandsFor, IsNewBridge, MayBeJoined, crossing_of, new_bridge};
ghost use Rattle.m17_client.specs.OneStep.{IsTaken, OnlySteps, counts, kept_now};

use crate::{Action, Client, Cross, Input, MOST_ACTIONS, SAID_BYTES, Side, State};
use arrayvec::ArrayVec;
use m17_stream::StreamPacket;
use std::marker::Model;

/// The most datagrams of one step for which there is room.
pub const MOST_CROSSES: usize = 8;

/// How long the way is a side's after a packet of it that passed.
const WAY_TIMEOUT_MS: u64 = 1_600;

/// What is kept of the last packet that passed.
#[derive(Clone, Copy, Debug, PartialEq, Eq)]
pub struct Crossing {
    /// The side that kept it.
    pub side: Side,
    /// The bridge's moment then, in milliseconds.
    pub at: u64,
    /// Whether it ended its stream.
    pub ended: bool,
}

/// A bridge: a client of each side, the greatest moment that either was stepped with, the last
/// packet that passed, and how many passed from each side. Contracts see all of this.
#[derive(Debug, Drop)]
pub struct Bridge {
    near: Client,
    far: Client,
    moment: u64,
    latest: Option<Crossing>,
    near_passed: u64,
    far_passed: u64,
}

impl Model for Bridge {
    ghost use Rattle.m17_client.specs.StandsFor.{BridgeState};

    ghost Value = { BridgeState };

    ghost view = { λ b. record {
      clients = record { near = b.near; far = b.far };
      moment = b.moment;
      latest = b.latest;
      passed = record { near = b.near_passed; far = b.far_passed };
    } };
}

impl Bridge {
    /// A bridge between these clients, which are idle, and of which neither only listens.
    pub fn new(near: Client, far: Client) -> Bridge
        requires { MayBeJoined (both near far) }
        ensures made { result ≡ new_bridge (both near far) }
        ensures fresh { IsNewBridge result }
        ensures stands { BridgeStandsFor (both near far) [] result }
    {
        Bridge {
            near,
            far,
            moment: 0,
            latest: None,
            near_passed: 0,
            far_passed: 0,
        }
    }

    /// The state of the client of a side.
    pub fn state(&self, side: Side) -> State
        ensures { result ≡ (of side self.now.clients).state }
    {
        match side {
            Side::Near => self.near.state(),
            Side::Far => self.far.state(),
        }
    }

    /// How many packets of a side passed, counted to 2^64 - 1.
    pub fn passed(&self, side: Side) -> u64
        ensures { result ≡ of side self.now.passed }
    {
        match side {
            Side::Near => self.near_passed,
            Side::Far => self.far_passed,
        }
    }

    /// One step: the client of the side steps on the input, which is no packet of a user. What it
    /// says goes to that side. A packet that it keeps and that passes is sent by the other client,
    /// and so said on the other side. What is to be said is appended to `out`, in order on each
    /// side; at most four datagrams come of a step.
    pub fn step(&mut self, side: Side, input: &Input, out: &mut ArrayVec<Cross, MOST_CROSSES>)
        requires out { out.old.items ≡ [] }
        requires heard { is_send input.now ≡ false }
        ensures stands { (ends : Both Standing) (steps : List BridgeStep)
            → BridgeStandsFor ends steps self.old
            → (step : BridgeStep) × (step.side ≡ side) × (step.own.input ≡ input.now)
            × AreSaidBy step out.new.items
            × BridgeStandsFor ends (steps ++ step ∷ []) self.new }
        ensures short { length out.new.items ≤ 4 }
    {
        self.see(input);
        let mut actions = ArrayVec::new();
        self.step_client(side, input, &mut actions);
        say_all(side, actions.as_slice(), out);
        if let Some(packet) = kept_among(actions.as_slice()) {
            self.take(side, &packet, out);
        }
    }

    // Brings the moment up to date.
    fn see(&mut self, input: &Input)
        ensures { self.new ≡ record self.old {
          moment = fold max self.old.moment (moments_in input.now);
        } }
    {
        match input {
            Input::Datagram { at, .. } => self.moment = self.moment.max(*at),
            Input::Quiet { at } => self.moment = self.moment.max(*at),
            Input::Send { .. } => {}
            Input::Leave => {}
        }
    }

    // Steps the client of a side.
    fn step_client(
        &mut self,
        side: Side,
        input: &Input,
        actions: &mut ArrayVec<Action, MOST_ACTIONS>,
    )
        requires { actions.old.items ≡ [] }
        ensures step { IsClientStep (of side self.old.clients) input.now actions.new.items
            (of side self.new.clients) }
        ensures short { length actions.new.items ≤ 2 }
        ensures rest { OnlySteps side self.old self.new }
    {
        match side {
            Side::Near => {
                self.near.step(input, actions);
            }
            Side::Far => {
                self.far.step(input, actions);
            }
        }
    }

    // Takes a packet that the client of a side kept: where it passes, the other client sends it.
    fn take(&mut self, side: Side, packet: &StreamPacket, out: &mut ArrayVec<Cross, MOST_CROSSES>)
        requires { length out.old.items ≤ 2 }
        ensures taken { (before : Option Kept) → self.old.latest ≡ option_map crossing_of before
            → IsTaken (kept_now self.old side packet.now) before self.old out.old.items self.new
            out.new.items }
        ensures short { length out.new.items ≤ length out.old.items + 2 }
    {
        if self.lets_pass(side) {
            self.note(side, packet.last);
            self.send(side.opposite(), packet, out);
        }
    }

    // Has the client of a side send a packet, which it says there.
    fn send(&mut self, side: Side, packet: &StreamPacket, out: &mut ArrayVec<Cross, MOST_CROSSES>)
        requires { length out.old.items ≤ 2 }
        ensures sent { (step : ClientStep) × (step.input ≡ Input.Send packet.now)
            × IsClientStep (of side self.old.clients) step.input step.actions step.after
            × (of side self.new.clients ≡ step.after)
            × (said_on side out.new.items
            ≡ said_on side out.old.items ++ flat_map said_by step.actions) }
        ensures rest { OnlySteps side self.old self.new }
        ensures other { said_on (opposite side) out.new.items
            ≡ said_on (opposite side) out.old.items }
        ensures short { length out.new.items ≤ length out.old.items + 2 }
    {
        let mut actions = ArrayVec::new();
        self.step_client(side, &Input::Send { packet: *packet }, &mut actions);
        say_all(side, actions.as_slice(), out);
    }

    // Whether a packet of this side passes now.
    fn lets_pass(&self, side: Side) -> bool
        ensures { (before : Option Kept) (packet : StreamPacket)
            → self.now.latest ≡ option_map crossing_of before
            → IsTrue result ↔ Passes before (kept_now self.now side packet) }
    {
        is_connected(self.state(side.opposite())) && self.is_way_free(side)
    }

    // Whether the way is free for a packet of this side.
    fn is_way_free(&self, side: Side) -> bool
        ensures { (before : Option Kept) (packet : StreamPacket)
            → self.now.latest ≡ option_map crossing_of before
            → IsTrue result ↔ FindsWay before (kept_now self.now side packet) }
    {
        match self.latest {
            None => true,
            Some(last) => {
                last.side == side
                    || last.ended
                    || self.moment.saturating_sub(last.at) >= WAY_TIMEOUT_MS
            }
        }
    }

    // Notes that a packet of this side passed.
    fn note(&mut self, side: Side, ended: bool)
        ensures latest { self.new.latest
            ≡ Some (record { side = side; at = self.old.moment; ended = ended }) }
        ensures passed { (s : Side) → of s self.new.passed ≡ counts true side self.old s }
        ensures clients { self.new.clients ≡ self.old.clients }
        ensures moment { self.new.moment ≡ self.old.moment }
    {
        self.latest = Some(Crossing {
            side,
            at: self.moment,
            ended,
        });
        match side {
            Side::Near => self.near_passed = self.near_passed.saturating_add(1),
            Side::Far => self.far_passed = self.far_passed.saturating_add(1),
        }
    }
}

// Whether a client is connected in this state.
fn is_connected(state: State) -> bool
    ensures { result ≡ is_connected state }
{
    matches!(state, State::Connected { .. })
}

// Appends what these actions say on a side.
fn say_all(side: Side, actions: &[Action], out: &mut ArrayVec<Cross, MOST_CROSSES>)
    requires { length out.old.items + length actions.now ≤ 4 }
    ensures own { said_on side out.new.items
        ≡ said_on side out.old.items ++ flat_map said_by actions.now }
    ensures other { said_on (opposite side) out.new.items ≡ said_on (opposite side) out.old.items }
    ensures short { length out.new.items ≤ length out.old.items + length actions.now }
{
    for action in actions {
        if let Action::Say(bytes) = action {
            out.push(Cross {
                side,
                bytes: copy_of(bytes.as_slice()),
            });
        }
    }
}

// The same bytes.
fn copy_of(bytes: &[u8]) -> ArrayVec<u8, SAID_BYTES>
    requires { length bytes.now ≤ 54 }
    ensures { result.items ≡ bytes.now }
{
    let mut copy = ArrayVec::new();
    copy.try_extend_from_slice(bytes).unwrap();
    copy
}

// The first packet that these actions keep, if they keep one.
fn kept_among(actions: &[Action]) -> Option<StreamPacket>
    ensures { MatchOption result (flat_map kept_in actions.now ≡ [])
        (λ packet. (rest : List StreamPacket) × (flat_map kept_in actions.now ≡ packet ∷ rest)) }
{
    for action in actions {
        if let Action::Keep(packet) = action {
            return Some(*packet);
        }
    }
    None
}
