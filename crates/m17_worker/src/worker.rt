ghost use Rattle.std.specs.Prelude.{◌≡◌, ℕ, List, ◌++◌, Some};
ghost use Rattle.m17_control.specs.Forms.{IsModule};
ghost use Rattle.m17_ports.specs.Book.{BookTold, HasText};
ghost use Rattle.m17_book.specs.Versions.{book_header, FitsHeader};
ghost use Rattle.m17_book.specs.declared.version.Version.TheVariants.{Two};
ghost use Rattle.m17_worker.specs.Ready.{IsFit, IsReady};
ghost use Rattle.m17_worker.specs.WorkerDid.{head_of, HasWorked, WorkerDid};

use crate::LaneOffers;
use crate::book::write_whole;
use crate::stops::{MOST_LINKS, all_stopped};
use m17_book::{Head, write_header};
use m17_control::{Event, Item, ModuleLetter};
use m17_crew::{Order, Work};
use m17_floor::Verdict;
use m17_lane::{Popper, starts};
use m17_module::{Basket, Module};
use m17_ports::Book;
use m17_roll::RollSeat;
use m17_tape::Tape;
use std::sync::Wait;

/// The job of a module's thread: it takes the events of the module, up to the Stop of each link, and does with each
/// what the module makes of it. It owns all that it needs and takes no memory.
///
/// For each event, in this order: the module takes it in; what that gives is offered to the queues, in order, and
/// behind each Bye its member's place is given back to the roll, again until it is taken, but for a Leave with
/// `Replaced`; the consumer of the queues is woken, where anything was said and the offers aren't patient; the records of
/// the event go to the book, one write each, and its verdict to the tape. An event that
/// names a link or a place that isn't there is passed over. The book's header is written before the first event, and a
/// book that failed is written no more. After `Quit` nothing but the order is touched.
#[derive(Drop)]
pub struct Worker<B> {
    /// The letter of the module, `A` to `Z`.
    pub letter: u8,
    /// How many links there are, 1 to 4.
    pub links: u32,
    /// How long the module lets a stream hold its floor, in milliseconds, as its book says; 0 is no limit.
    pub limit: u64,
    /// Who is in the module, and who may speak.
    pub module: Module,
    /// What an event gave and was not handed out yet.
    pub basket: Basket,
    /// Where the module's events are recorded.
    pub book: B,
    /// The end of the module's inbox.
    pub inbox: Popper<Event>,
    /// The queues of the module's places.
    pub offers: LaneOffers,
    /// The end of its orders.
    pub order: Popper<Order>,
    /// Its seat at the roll.
    pub seat: RollSeat,
    /// The verdicts on the packets of link 0, by the index of the entry, as many as it has cells.
    pub tape: Tape<Verdict>,
    /// Whether a write of the book failed; it is written no more then.
    pub book_failed: bool,
}

impl<B: Book + Drop + Send + 'static> Work for Worker<B> {
    ghost ready = { IsReady B.told };

    ghost does = { WorkerDid B.told };

    fn go<R: Wait>(&mut self, rt: &R) {
        if starts(rt, &mut self.order) {
            self.work(rt);
        }
    }
}

impl<B: Book> Worker<B> {
    // Takes event after event, up to the last link's Stop.
    fn work<R: Wait>(&mut self, rt: &R)
        requires { IsFit B.told self.old }
        ensures worked { HasWorked B.told self.old self.new }
        ensures order { self.new.order ≡ self.old.order }
    {
        m17_lane::rows_laws::rows_grow::<Item>();
        m17_ports::laws::books_are_written_in_turn::<B::Label>();
        self.begin();
        let mut served = 0u64;
        let mut stopped = [false; MOST_LINKS];
        for _ in rt.forever() {
            served = self.turn(rt, served, &mut stopped);
            // models/circle.pml: stops-counted
            if all_stopped(&stopped, self.links) {
                return;
            }
        }
        unreachable!()
    }

    // Writes the book's header, if the book keeps anything.
    fn begin(&mut self)
        requires { IsModule self.old.letter }
        ensures text { (start : BookTold B.Label) (text : List ℕ) →
            HasText start text self.old.book_failed (B.told self.old.book) →
            HasText start (text ++ book_header Two (head_of self.old)) self.new.book_failed
            (B.told self.new.book) }
        ensures header { (bytes : List ℕ) → (B.told self.old.book).written ≡ Some bytes →
            FitsHeader Two (head_of self.old) }
        ensures rest { self.new ≡ record self.old {
          book = self.new.book;
          book_failed = self.new.book_failed;
        } }
    {
        m17_ports::laws::books_are_written_in_turn::<B::Label>();
        if !self.book.is_kept() {
            return;
        }
        match ModuleLetter::new(self.letter) {
            Some(module) => {
                let head = Head {
                    module,
                    limit: self.limit,
                };
                write_whole(&mut self.book, &mut self.book_failed, &write_header(&head));
            }
            None => unreachable!(),
        }
    }
}
