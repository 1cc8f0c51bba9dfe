//! The sender, and how it goes from its order to its end.

use crate::Hint;
use m17_callsign::CallAddress;
use m17_control::{Direct, Item};
use m17_crew::{Order, Work};
use m17_lane::{Popper, Pusher, starts};
use m17_ports::Mouth;
use m17_values::Member;
use std::sync::Wait;

/// The job of the thread that sends. It waits for its order; after `Go` it says, turn by turn, what the door holds, and
/// at most one item of each queue, the queues in turn, each as one datagram by its link's mouth. A Hello is held back
/// until at least as many notes as it waits for were pushed to its link; meanwhile its queue is not popped. After each
/// Bye the member is pushed to its link's notes. What names a link or a place that is not there is passed over. A
/// datagram that a mouth fails to say is lost, and nothing else. After `Stop` it ends with the first turn over all
/// queues in which it neither popped nor said anything, and holds the Hellos that still wait. While there is nothing to
/// do it sleeps until its bell is rung, by a push or by who rouses it. After `Quit` it ends with all as it was.
#[derive(Drop)]
pub struct Sender<M> {
    /// The address in whose name it says PING, PONG and DISC.
    pub name: CallAddress,
    /// The sending half of each link.
    pub mouths: Vec<M>,
    /// For each module the queues of its places.
    pub queues: Vec<Vec<Popper<Item>>>,
    /// The replies that go past all modules.
    pub door: Popper<Direct>,
    /// For each link where departed members are noted.
    pub notes: Vec<Pusher<Member>>,
    /// For each module and place the Hello that is held back there.
    pub held: Vec<Vec<Option<Item>>>,
    /// Where its orders come from.
    pub order: Popper<Order>,
    /// How many places each module has.
    pub places: u32,
    /// Where it looks for items.
    pub hint: Hint,
}

impl<M: Mouth + Drop + Send + 'static> Work for Sender<M> {
    ghost use Rattle.m17_sender.specs.Ready.{IsReady};
    ghost use Rattle.m17_sender.specs.Sent.{SenderDid};

    ghost ready = { λ j. IsReady j };

    ghost does = { λ j k.
        SenderDid M.told j k };

    fn go<R: Wait>(&mut self, rt: &R) {
        if starts(rt, &mut self.order) {
            self.send(rt);
        }
    }
}
