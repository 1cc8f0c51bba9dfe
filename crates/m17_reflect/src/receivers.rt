//! What receivers are made of, taken out of them.
ghost use Rattle.std.specs.Prelude.{◌≡◌, ◌≤◌, ℕ, ◌+◌, ◌++◌, ◌∷◌, [], map, vec_len, vec_capacity};
ghost use Rattle.m17_reflect.specs.Parts.{AreReceiverParts, HasReceiverRoom};

use m17_control::{Direct, Event};
use m17_crew::Order;
use m17_directory::LinkVerdict;
use m17_lane::{Popper, Pusher};
use m17_receiver::Receiver;
use m17_roll::RollSeat;
use m17_values::Member;

/// What came out of receivers but their seats, in the order of the links. Before, these are empty vectors with room.
#[derive(Drop)]
pub struct ReceiverParts<E, B> {
    /// The receiving half of each link.
    pub ears: Vec<E>,
    /// What each link heard, as it was written.
    pub traces: Vec<B>,
    /// The ends of the inboxes that each link pushed to, in order of modules.
    pub columns: Vec<Vec<Pusher<Event>>>,
    /// The ends of the door.
    pub doors: Vec<Pusher<Direct>>,
    /// The ends of the notes.
    pub noted: Vec<Popper<Member>>,
    /// The ends of the orders.
    pub orders: Vec<Popper<Order>>,
    /// The verdicts of each link's first entries.
    pub tapes: Vec<Vec<Option<LinkVerdict>>>,
    /// Whether some link ended by 16 failures of its socket in a row.
    pub lost: bool,
    /// Whether a write of some trace failed.
    pub failed: bool,
}

/// Takes the receivers apart, from the first to the last: what each is made of goes behind what there is, and its seat
/// behind the seats. There has to be room for it. It allocates nothing.
pub fn part_receivers<E, B>(
    jobs: &mut Vec<Receiver<E, B>>,
    seats: &mut Vec<RollSeat>,
    parts: &mut ReceiverParts<E, B>,
)
    requires room { HasReceiverRoom (vec_len jobs.old) parts.old }
    requires seat_room { vec_len seats.old + vec_len jobs.old ≤ vec_capacity seats.old }
    ensures parts { AreReceiverParts jobs.old.items parts.old parts.new }
    ensures seats { seats.new.items ≡ seats.old.items ++ map (λ j. j.seat) jobs.old.items }
    ensures seat_room { vec_capacity seats.new ≡ vec_capacity seats.old }
    ensures emptied { jobs.new.items ≡ [] }
{
    jobs.reverse();
    while let Some(job) = jobs.pop() {
        let seat = parts.take(job);
        seats.push_reserved(seat);
    }
}

impl<E, B> ReceiverParts<E, B> {
    // Takes one receiver apart, and gives its seat.
    fn take(&mut self, job: Receiver<E, B>) -> RollSeat
        requires room { HasReceiverRoom 1 self.old }
        ensures parts { AreReceiverParts (job ∷ []) self.old self.new }
        ensures room { (n : ℕ) → HasReceiverRoom (n + 1) self.old → HasReceiverRoom n self.new }
        ensures seat { result ≡ job.seat }
    {
        let Receiver {
            ear,
            trace,
            inboxes,
            door,
            notes,
            order,
            seat,
            tape,
            lost,
            trace_failed,
            ..
        } = job;
        self.ears.push_reserved(ear);
        self.traces.push_reserved(trace);
        self.columns.push_reserved(inboxes);
        self.doors.push_reserved(door);
        self.noted.push_reserved(notes);
        self.orders.push_reserved(order);
        self.tapes.push_reserved(tape);
        self.lost = self.lost || lost;
        self.failed = self.failed || trace_failed;
        seat
    }
}
