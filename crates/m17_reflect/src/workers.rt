//! What workers are made of, taken out of them.
ghost use Rattle.std.specs.Prelude.{◌≡◌, ◌≤◌, ℕ, ◌+◌, ◌++◌, ◌∷◌, [], map, vec_len, vec_capacity};
ghost use Rattle.m17_reflect.specs.Parts.{AreWorkerParts, HasWorkerRoom};

use m17_control::{Event, Item};
use m17_crew::Order;
use m17_floor::Verdict;
use m17_lane::{Popper, Pusher};
use m17_roll::RollSeat;
use m17_tape::Tape;
use m17_worker::{LaneOffers, Worker};

/// What came out of workers but their seats, in the order of the modules. Before, these are empty vectors with room.
#[derive(Drop)]
pub struct WorkerParts<B> {
    /// What became of each module's events, as it was written.
    pub books: Vec<B>,
    /// The ends of the inboxes.
    pub inboxes: Vec<Popper<Event>>,
    /// For each module the ends of the queues of its places.
    pub queues: Vec<Vec<Pusher<Item>>>,
    /// The ends of the orders.
    pub orders: Vec<Popper<Order>>,
    /// Each module's verdicts on the packets of the first entries of link 0.
    pub tapes: Vec<Tape<Verdict>>,
    /// How many items of each module were left out at full queues; a count stays at 2^64 - 1.
    pub missed: Vec<u64>,
    /// How many packets each module admitted.
    pub admitted: Vec<u64>,
    /// Whether a write of some book failed.
    pub failed: bool,
}

/// Takes the workers apart, from the first to the last: what each is made of goes behind what there is, and its seat
/// behind the seats. There has to be room for it. It allocates nothing.
pub fn part_workers<B>(
    jobs: &mut Vec<Worker<B>>,
    seats: &mut Vec<RollSeat>,
    parts: &mut WorkerParts<B>,
)
    requires room { HasWorkerRoom (vec_len jobs.old) parts.old }
    requires seat_room { vec_len seats.old + vec_len jobs.old ≤ vec_capacity seats.old }
    ensures parts { AreWorkerParts jobs.old.items parts.old parts.new }
    ensures seats { seats.new.items ≡ seats.old.items ++ map (λ j. j.seat) jobs.old.items }
    ensures emptied { jobs.new.items ≡ [] }
{
    jobs.reverse();
    while let Some(job) = jobs.pop() {
        let seat = parts.take(job);
        seats.push_reserved(seat);
    }
}

impl<B> WorkerParts<B> {
    // Takes one worker apart, and gives its seat.
    fn take(&mut self, job: Worker<B>) -> RollSeat
        requires room { HasWorkerRoom 1 self.old }
        ensures parts { AreWorkerParts (job ∷ []) self.old self.new }
        ensures room { (n : ℕ) → HasWorkerRoom (n + 1) self.old → HasWorkerRoom n self.new }
        ensures seat { result ≡ job.seat }
    {
        let Worker {
            module,
            book,
            inbox,
            offers,
            order,
            seat,
            tape,
            book_failed,
            ..
        } = job;
        let LaneOffers { queues, missed, .. } = offers;
        self.books.push_reserved(book);
        self.inboxes.push_reserved(inbox);
        self.queues.push_reserved(queues);
        self.orders.push_reserved(order);
        self.tapes.push_reserved(tape);
        self.missed.push_reserved(missed);
        self.admitted.push_reserved(module.admitted());
        self.failed = self.failed || book_failed;
        seat
    }
}
