ghost use Rattle.std.specs.Prelude.{◌≡◌, ◌↔◌, true, IsTrue};
ghost use Rattle.m17_values.specs.declared.heard.Heard.TheVariants.{Fault};
ghost use Rattle.m17_receiver.specs.Ready.{IsFit, IsReady};
ghost use Rattle.m17_receiver.specs.ReceiverDid.{HasGone, IsSameReceiver, ReceiverDid};

use crate::laws::known_laws;
use crate::tape::fill_tape;
use crate::trace::write_trace;
use m17_control::{Direct, Event, Modules};
use m17_crew::{Order, Work};
use m17_directory::{Directory, LinkVerdict, Post};
use m17_lane::{Popper, Pusher, count_one, starts};
use m17_ports::laws::{books_are_written_in_turn, ears_hear_in_turn, ears_tell_up_to_the_end};
use m17_ports::{Book, Ear};
use m17_roll::RollSeat;
use m17_values::{Heard, Member};
use std::sync::Wait;

/// The job of a link's thread: it hears what comes to the link's socket, up to the entry that ends the link, and does
/// with each entry what the link's directory makes of it. It owns all that it needs and takes no memory.
///
/// For each entry, in this order: it is written to the trace; notes of departed members are popped, at most 512, and
/// told to the directory; the directory hears it, and what that posts is pushed, asleep while a lane is full; who asks
/// for a place waits until the notes of all that its peer was have come and the place of the last that was noted is free,
/// gets a place or none, and what that posts is pushed; and the verdict goes into its cell of the tape. It hears 2^64 - 1 entries at the most, and then waits for ever.
/// After `Quit` nothing but the order is touched.
#[derive(Drop)]
pub struct Receiver<E, B> {
    /// The number of the link, from 0.
    pub link: u8,
    /// The modules that are served.
    pub modules: Modules,
    /// How many places the roll has, 1 to 256.
    pub places: u32,
    /// Whether it claims again until it has a place, none that a peer has that its link knows, and claims nothing where
    /// those have all; else it claims once. A patient one lets packets and Ticks lie in an inbox until half of it is full of
    /// them, or another event comes.
    pub patient: bool,
    /// The receiving half of the link's socket.
    pub ear: E,
    /// Where what was heard is written.
    pub trace: B,
    /// The link's table of peers.
    pub directory: Directory,
    /// What the directory posted and was not pushed yet.
    pub post: Post,
    /// The ends of the modules' inboxes, in order of letters.
    pub inboxes: Vec<Pusher<Event>>,
    /// The end of the sender's door, for replies past all modules.
    pub door: Pusher<Direct>,
    /// The end of the notes from the sender: members of this link whose leaving was said.
    pub notes: Popper<Member>,
    /// The end of its orders.
    pub order: Popper<Order>,
    /// Its seat at the roll.
    pub seat: RollSeat,
    /// The verdicts of the first entries, as many as it has cells.
    pub tape: Vec<Option<LinkVerdict>>,
    /// Whether the link ended by 16 failures of the socket in a row.
    pub lost: bool,
    /// Whether a write of the trace failed; it is written no more then.
    pub trace_failed: bool,
}

impl<E: Ear + Drop + Send + 'static, B: Book + Drop + Send + 'static> Work for Receiver<E, B> {
    ghost ready = { IsReady E.told B.told };

    ghost does = { ReceiverDid E.told B.told };

    fn go<R: Wait>(&mut self, rt: &R) {
        if starts(rt, &mut self.order) {
            self.receive(rt);
        }
    }
}

impl<E: Ear, B: Book> Receiver<E, B> {
    // Hears entry after entry, up to the one that ends the link.
    fn receive<R: Wait>(&mut self, rt: &R)
        requires { IsFit E.told B.told self.old }
        ensures same { IsSameReceiver self.old self.new }
        ensures order { self.new.order ≡ self.old.order }
        ensures gone { HasGone E.told B.told self.old self.new }
    {
        known_laws();
        ears_tell_up_to_the_end();
        ears_hear_in_turn::<E::Label>();
        books_are_written_in_turn::<B::Label>();
        let mut index = 0u64;
        let mut noted = 0u64;
        let mut left = None;
        for _ in rt.forever() {
            let next = count_one(rt, index);
            // models/circle.pml: entry-heard
            let entry = self.ear.hear();
            write_trace(&mut self.trace, &mut self.trace_failed, index == 0, &entry);
            let verdict = self.enter(rt, &entry, index, &mut noted, &mut left);
            fill_tape(&mut self.tape, index, verdict);
            // models/circle.pml: link-ended
            if self.directory.has_ended() {
                self.lost = is_fault(&entry);
                return;
            }
            index = next;
        }
        unreachable!()
    }
}

// Whether the socket failed.
fn is_fault(entry: &Heard) -> bool
    ensures { IsTrue result ↔ (entry.now ≡ Fault) }
{
    matches!(entry, Heard::Fault)
}
