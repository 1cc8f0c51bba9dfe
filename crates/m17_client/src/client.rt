ghost use Rattle.std.specs.Prelude.{◌≡◌, ◌+◌, ◌≤◌, ◌<◌, ℕ, length, ◌++◌, List, [], Option, None, Some, IsTrue, ◌↔◌, Bool};
ghost use Rattle.std.specs.Option.{option_to_list};
ghost use Rattle.m17_client.specs.Client.{ByBytes, join_packet, ByDatagram, ByLeave, ByPacket, BySend, ByTime, IsClientStep, Joins, Keeps, MayKeep, Says, SaysFrame};
ghost use Rattle.m17_control.specs.declared.packet.Control.{Control};
ghost use Rattle.m17_client.specs.declared.state.State.{State};
ghost use Rattle.m17_client.specs.declared.state.Input.{Input};

use crate::state::SAID_BYTES;
use crate::{Action, Ending, Input, LastKept, State};
use arrayvec::ArrayVec;
use m17_callsign::CallAddress;
use m17_control::{Control, ModuleLetter, Packet};
use m17_stream::StreamPacket;
use m17_values::Gram;
use std::marker::Model;

/// The most actions of one step for which there is room.
pub const MOST_ACTIONS: usize = 4;

/// How long a client waits for an answer to a CONN, or to its DISC.
const ANSWER_MS: u64 = 1_000;

/// How often a client says CONN.
const MOST_TRIES: u32 = 5;

/// How long a connected client may hear nothing.
const SILENCE_MS: u64 = 30_000;

/// A client by its table: what it is, its moments, what it kept last, and its state. Contracts see all of this. Its
/// moment is the greatest of those that it was given.
#[derive(Debug, Drop)]
pub struct Client {
    call: CallAddress,
    letter: ModuleLetter,
    listens: bool,
    moment: u64,
    conn_at: u64,
    leave_at: u64,
    kept: Option<LastKept>,
    state: State,
}

impl Model for Client {
    ghost use Rattle.m17_client.specs.Standing.{Standing};

    ghost Value = { Standing };

    ghost view = { λ c. record {
      call = c.call;
      letter = c.letter;
      listens = c.listens;
      moment = c.moment;
      conn_at = c.conn_at;
      leave_at = c.leave_at;
      kept = c.kept;
      state = c.state;
    } };
}

impl Client {
    ghost use Rattle.m17_client.specs.Standing.{at_moment, new_client};

    /// An idle client with this callsign, for this module; `listen` where it only listens.
    pub fn new(call: CallAddress, letter: ModuleLetter, listen: bool) -> Client
        ensures { result ≡ new_client call letter listen }
    {
        Client {
            call,
            letter,
            listens: listen,
            moment: 0,
            conn_at: 0,
            leave_at: 0,
            kept: None,
            state: State::Idle,
        }
    }

    /// The state.
    pub fn state(&self) -> State
        ensures { result ≡ self.now.state }
    {
        self.state
    }

    /// The client's moment, in milliseconds: the greatest that it was given so far.
    pub fn moment(&self) -> u64
        ensures { result ≡ self.now.moment }
    {
        self.moment
    }

    /// One step: what the input does by the table. What is to be said or kept is appended to `out`, in order, and the
    /// answer is the state then. A datagram gives at most two actions, and any other input at most one.
    pub fn step(&mut self, input: &Input, out: &mut ArrayVec<Action, MOST_ACTIONS>) -> State
        requires { out.old.items ≡ [] }
        ensures step { IsClientStep self.old input.now out.new.items self.new }
        ensures state { result ≡ self.new.state }
        ensures short { length out.new.items ≤ 2 }
    {
        match input {
            Input::Datagram { at, bytes } => self.on_datagram(*at, bytes, out),
            Input::Quiet { at } => self.on_quiet(*at, out),
            Input::Send { packet } => self.on_send(packet, out),
            Input::Leave => self.on_leave(out),
        }
    }

    // The step of a datagram.
    fn on_datagram(
        &mut self,
        at: u64,
        bytes: &Gram,
        out: &mut ArrayVec<Action, MOST_ACTIONS>,
    ) -> State
        requires { out.old.items ≡ [] }
        ensures step { IsClientStep self.old (Input.Datagram at bytes.now) out.new.items self.new }
        ensures state { result ≡ self.new.state }
        ensures short { length out.new.items ≤ 2 }
    {
        let came = self.state;
        let tick = self.tick(at);
        let answer = self.answer(came, bytes.bytes());
        put(out, tick);
        put(out, answer);
        self.state
    }

    // The step of a moment at which nothing came.
    fn on_quiet(&mut self, at: u64, out: &mut ArrayVec<Action, MOST_ACTIONS>) -> State
        requires { out.old.items ≡ [] }
        ensures step { IsClientStep self.old (Input.Quiet at) out.new.items self.new }
        ensures state { result ≡ self.new.state }
        ensures short { length out.new.items ≤ 2 }
    {
        let tick = self.tick(at);
        put(out, tick);
        self.state
    }

    // The step of a packet of the user.
    fn on_send(&mut self, packet: &StreamPacket, out: &mut ArrayVec<Action, MOST_ACTIONS>) -> State
        requires { out.old.items ≡ [] }
        ensures step { IsClientStep self.old (Input.Send packet.now) out.new.items self.new }
        ensures state { result ≡ self.new.state }
        ensures short { length out.new.items ≤ 2 }
    {
        let answer = self.send(packet);
        put(out, answer);
        self.state
    }

    // The step of the user's leaving.
    fn on_leave(&mut self, out: &mut ArrayVec<Action, MOST_ACTIONS>) -> State
        requires { out.old.items ≡ [] }
        ensures step { IsClientStep self.old Input.Leave out.new.items self.new }
        ensures state { result ≡ self.new.state }
        ensures short { length out.new.items ≤ 2 }
    {
        let answer = self.leave();
        put(out, answer);
        self.state
    }

    // What a packet of the user does.
    fn send(&self, packet: &StreamPacket) -> Option<Action>
        ensures { BySend self.now.state self.now.listens packet.now self.now result self.now }
    {
        match self.state {
            State::Connected { .. } => {
                if self.listens {
                    None
                } else {
                    Some(say_frame(packet))
                }
            }
            State::Idle => None,
            State::Connecting { .. } => None,
            State::Leaving => None,
            State::Closed(_) => None,
        }
    }

    // What the user's leaving does.
    fn leave(&mut self) -> Option<Action>
        ensures { ByLeave self.old.state self.old result self.new }
    {
        match self.state {
            State::Idle => {
                self.close(Ending::Asked);
                None
            }
            State::Connecting { .. } => Some(self.part()),
            State::Connected { .. } => Some(self.part()),
            State::Leaving => None,
            State::Closed(_) => None,
        }
    }

    // Says the 10-byte DISC, and waits for the answer.
    fn part(&mut self) -> Action
        ensures { Says (Control.Disc (Some self.old.call)) (Some result)
            × (self.new ≡ record self.old { leave_at = self.old.moment; state = State.Leaving }) }
    {
        self.leave_at = self.moment;
        self.state = State::Leaving;
        say(&Control::Disc {
            from: Some(self.call),
        })
    }

    // Brings the moment up to date, and does the time rule.
    fn tick(&mut self, at: u64) -> Option<Action>
        ensures { ByTime self.old.state (at_moment self.old at) result self.new }
    {
        self.moment = self.moment.max(at);
        match self.state {
            State::Idle => Some(self.join(1)),
            State::Connecting { tries } => self.wait_for_answer(tries),
            State::Connected { heard_at } => {
                self.close_after(heard_at, SILENCE_MS, Ending::Lost);
                None
            }
            State::Leaving => {
                let since = self.leave_at;
                self.close_after(since, ANSWER_MS, Ending::Asked);
                None
            }
            State::Closed(_) => None,
        }
    }

    // Says CONN, or LSTN, for this time.
    fn join(&mut self, tries: u32) -> Action
        ensures { Joins tries self.old (Some result) self.new }
    {
        let packet = self.join_packet();
        self.conn_at = self.moment;
        self.state = State::Connecting { tries };
        say(&packet)
    }

    // The packet by which the client asks to join.
    fn join_packet(&self) -> Control
        ensures { result ≡ join_packet self.now }
    {
        let (from, module) = (self.call, self.letter);
        if self.listens {
            Control::Lstn { from, module }
        } else {
            Control::Conn { from, module }
        }
    }

    // The time rule of a client that said CONN so often: it says it again, or gives up, where the answer is late.
    fn wait_for_answer(&mut self, tries: u32) -> Option<Action>
        requires { self.old.state ≡ State.Connecting tries }
        ensures { ByTime (State.Connecting tries) self.old result self.new }
    {
        if self.moment.saturating_sub(self.conn_at) < ANSWER_MS {
            return None;
        }
        if tries < MOST_TRIES {
            return Some(self.join(tries + 1));
        }
        self.state = State::Closed(Ending::NoAnswer);
        None
    }

    // Closes the client where `wait` milliseconds have gone by since this moment.
    fn close_after(&mut self, since: u64, wait: u64, why: Ending)
        requires { 0 < wait }
        ensures late { since + wait ≤ self.old.moment
            → self.new ≡ record self.old { state = State.Closed why } }
        ensures early { self.old.moment < since + wait → self.new ≡ self.old }
    {
        if self.moment.saturating_sub(since) >= wait {
            self.state = State::Closed(why);
        }
    }

    // What a datagram of these bytes does, which came in this state.
    fn answer(&mut self, came: State, bytes: &[u8]) -> Option<Action>
        ensures { ByDatagram came bytes.now self.old result self.new }
    {
        match came {
            State::Idle => None,
            _ => self.take_bytes(bytes),
        }
    }

    // What a datagram of these bytes does.
    fn take_bytes(&mut self, bytes: &[u8]) -> Option<Action>
        ensures { ByBytes bytes.now self.old result self.new }
    {
        match m17_control::decode(bytes) {
            Ok(packet) => self.take(&packet),
            Err(_) => None,
        }
    }

    // What a packet does.
    fn take(&mut self, packet: &Packet) -> Option<Action>
        ensures { ByPacket self.old.state packet.now self.old result self.new }
    {
        match self.state {
            State::Idle => None,
            State::Connecting { .. } => {
                self.take_connecting(packet);
                None
            }
            State::Connected { .. } => self.take_connected(packet),
            State::Leaving => {
                self.take_leaving(packet);
                None
            }
            State::Closed(_) => None,
        }
    }

    // What a packet does to a client that waits for the answer to its CONN.
    fn take_connecting(&mut self, packet: &Packet)
        ensures { (tries : ℕ) → ByPacket (State.Connecting tries) packet.now self.old None self.new }
    {
        match packet {
            Packet::Control(Control::Ackn) => self.hear(),
            Packet::Control(Control::Nack) => self.close(Ending::Refused),
            Packet::Control(Control::Disc { .. }) => self.close(Ending::Dropped),
            Packet::Control(Control::Conn { .. }) => {}
            Packet::Control(Control::Lstn { .. }) => {}
            Packet::Control(Control::Ping { .. }) => {}
            Packet::Control(Control::Pong { .. }) => {}
            Packet::Stream(_) => {}
        }
    }

    // What a packet does to a client that waits for the answer to its DISC.
    fn take_leaving(&mut self, packet: &Packet)
        ensures { ByPacket State.Leaving packet.now self.old None self.new }
    {
        match packet {
            Packet::Control(Control::Disc { .. }) => self.close(Ending::Asked),
            Packet::Control(Control::Ackn) => {}
            Packet::Control(Control::Nack) => {}
            Packet::Control(Control::Conn { .. }) => {}
            Packet::Control(Control::Lstn { .. }) => {}
            Packet::Control(Control::Ping { .. }) => {}
            Packet::Control(Control::Pong { .. }) => {}
            Packet::Stream(_) => {}
        }
    }

    // What a packet does to a connected client.
    fn take_connected(&mut self, packet: &Packet) -> Option<Action>
        ensures { (heard_at : ℕ)
            → ByPacket (State.Connected heard_at) packet.now self.old result self.new }
    {
        match packet {
            Packet::Control(Control::Disc { .. }) => {
                self.close(Ending::Dropped);
                None
            }
            Packet::Stream(frame) => {
                self.hear();
                self.keep(frame)
            }
            Packet::Control(Control::Ping { .. }) => {
                self.hear();
                Some(say(&Control::Pong { from: self.call }))
            }
            Packet::Control(Control::Ackn) => {
                self.hear();
                None
            }
            Packet::Control(Control::Nack) => {
                self.hear();
                None
            }
            Packet::Control(Control::Conn { .. }) => {
                self.hear();
                None
            }
            Packet::Control(Control::Lstn { .. }) => {
                self.hear();
                None
            }
            Packet::Control(Control::Pong { .. }) => {
                self.hear();
                None
            }
        }
    }

    // The client was heard from, or got in.
    fn hear(&mut self)
        ensures { self.new ≡ record self.old { state = State.Connected self.old.moment } }
    {
        self.state = State::Connected {
            heard_at: self.moment,
        };
    }

    // The client is done.
    fn close(&mut self, why: Ending)
        ensures { self.new ≡ record self.old { state = State.Closed why } }
    {
        self.state = State::Closed(why);
    }

    // Keeps a stream packet, where it may.
    fn keep(&mut self, packet: &StreamPacket) -> Option<Action>
        ensures { Keeps packet.now self.old result self.new }
    {
        if !self.may_keep(packet) {
            return None;
        }
        self.kept = Some(LastKept {
            sid: packet.sid,
            number: packet.number,
        });
        Some(Action::Keep(*packet))
    }

    // Whether a stream packet may be kept.
    fn may_keep(&self, packet: &StreamPacket) -> bool
        ensures { IsTrue result ↔ MayKeep self.now.kept packet.now }
    {
        match self.kept {
            None => true,
            Some(last) => last.sid != packet.sid || m17_stream::ahead(packet.number, last.number),
        }
    }
}

// Appends an action, if there is one.
fn put(out: &mut ArrayVec<Action, MOST_ACTIONS>, action: Option<Action>)
    requires { length out.old.items ≤ 2 }
    ensures { out.new.items ≡ out.old.items ++ option_to_list action }
{
    if let Some(action) = action {
        out.push(action);
    }
}

// The action that says this control packet.
fn say(packet: &Control) -> Action
    ensures { Says packet.now (Some result) }
{
    let mut bytes = ArrayVec::new();
    let written = m17_control::write(packet);
    bytes.try_extend_from_slice(written.as_slice()).unwrap();
    Action::Say(bytes)
}

// The action that says this stream packet.
fn say_frame(packet: &StreamPacket) -> Action
    ensures { SaysFrame packet.now (Some result) }
{
    let mut bytes = ArrayVec::new();
    bytes
        .try_extend_from_slice(&m17_stream::write(packet))
        .unwrap();
    Action::Say(bytes)
}
