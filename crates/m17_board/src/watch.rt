//! The watch, and what it does from its start to its end.
ghost use Rattle.std.specs.Prelude.{◌≡◌, ◌<◌, false, slice_index, vec_len, MatchBool};
ghost use Rattle.m17_board.specs.Shows.{shown_of, IsPlaceOf, HasLooked, Looked, WritesLine, IsSameWatch, HasQuit, HasPassed, WatchDid};

use crate::eye::Eye;
use crate::glance::Glance;
use crate::line::line_of;
use m17_control::Modules;
use m17_crew::{Order, Work};
use m17_lane::Popper;
use m17_ports::Book;
use std::sync::Wait;
use std::thread;
use std::time::{Clock, Duration};

/// How long it sleeps between two rounds, in milliseconds.
const REST_MS: u64 = 100;

/// The job of the thread that watches a board. It begins at once, looks at each eye in turn, writes a line where a module
/// has more records than its last line says, and sleeps before it looks again. A book of which a write failed is written
/// no more. It ends after `Quit` on its order lane; other orders are passed over.
#[derive(Drop)]
pub struct Watch<B, T> {
    /// The modules of the board.
    pub modules: Modules,
    /// One eye for each module, in order of letters.
    pub eyes: Vec<Eye>,
    /// For each module how many records its last line says, 0 without one.
    pub last: Vec<u64>,
    /// Where the lines are written.
    pub book: B,
    /// Whether a write of the book failed.
    pub failed: bool,
    /// Where its orders come from.
    pub order: Popper<Order>,
    /// By what it sleeps.
    pub clock: T,
}

impl<B: Book + Drop + Send + 'static, T: Clock + Drop + Send + 'static> Work for Watch<B, T> {
    ghost use Rattle.m17_board.specs.Shows.{WatchDid};

    ghost ready = { λ _. Unit {0} };

    ghost does = { λ j k. WatchDid B.told j k };

    fn go<R: Wait>(&mut self, rt: &R) {
        self.watch(rt);
    }
}

impl<B: Book, T: Clock> Watch<B, T> {
    // Round by round until the order to quit.
    fn watch<R: Wait>(&mut self, rt: &R)
        ensures { WatchDid B.told self.old self.new }
    {
        for _ in rt.forever() {
            // models/watch.pml: quit-heard
            if hears_quit(rt, &mut self.order) {
                return;
            }
            // models/watch.pml: round-looked
            self.look_round(rt);
            // models/watch.pml: rested
            thread::sleep(&self.clock, Duration::from_millis(REST_MS));
        }
        unreachable!()
    }

    // One round over all modules.
    fn look_round<R: Wait>(&mut self, rt: &R)
        ensures looked { Looked B.told self.old.modules (shown_of self.old) (shown_of self.new) }
        ensures same { IsSameWatch self.old self.new }
    {
        for letter in b'A'..b'Z' + 1 {
            self.look_for(rt, letter);
        }
    }

    // A look at the module with this letter, if there is one.
    fn look_for<R: Wait>(&mut self, rt: &R, letter: u8)
        ensures looked { Looked B.told self.old.modules (shown_of self.old) (shown_of self.new) }
        ensures same { IsSameWatch self.old self.new }
    {
        if let Some(place) = self.modules.rank(letter) {
            self.look_at(rt, letter, place);
        }
    }
}

impl<B: Book, T> Watch<B, T> {
    // A look at the module with this letter, whose eye has this place.
    fn look_at<R: Wait>(&mut self, rt: &R, letter: u8, place: usize)
        requires { IsPlaceOf self.old.modules letter place }
        ensures looked { Looked B.told self.old.modules (shown_of self.old) (shown_of self.new) }
        ensures same { IsSameWatch self.old self.new }
    {
        if place >= self.eyes.len() {
            return;
        }
        if place >= self.last.len() {
            return;
        }
        // models/watch.pml: cell-looked
        let glance = look_with(rt, &mut self.eyes, place);
        if self.failed {
            return;
        }
        if glance.records <= self.last[place] {
            return;
        }
        self.write_line(letter, place, &glance);
    }

    // Writes the line of this glance. It is the module's last line then, unless the write failed.
    pub(crate) fn write_line(&mut self, letter: u8, place: usize, glance: &Glance)
        requires there { place < vec_len self.old.last }
        requires going { self.old.failed ≡ false }
        requires grown { slice_index self.old.last.items place < glance.now.records }
        ensures line { WritesLine B.told letter place glance.now (shown_of self.old) (shown_of self.new) }
        ensures same { IsSameWatch self.old self.new }
    {
        m17_ports::laws::books_are_written_in_turn::<B::Label>();
        let line = line_of(letter, glance);
        // models/watch.pml: line-written
        match self.book.write(line.bytes()) {
            Ok(()) => self.last[place] = glance.records,
            Err(_) => self.failed = true,
        }
    }
}

// A look with the eye at this place.
fn look_with<R: Wait>(rt: &R, eyes: &mut Vec<Eye>, place: usize) -> Glance
    requires { place < vec_len eyes.old }
    ensures looked { HasLooked eyes.old.items place result eyes.new.items }
    ensures same_length { vec_len eyes.new ≡ vec_len eyes.old }
{
    eyes[place].look(rt)
}

// Whether the order to quit came; any other order is passed over.
fn hears_quit<R: Wait>(rt: &R, orders: &mut Popper<Order>) -> bool
    ensures { MatchBool result (HasQuit orders.old orders.new)
        (HasPassed orders.old orders.new) }
{
    for _ in rt.forever() {
        // models/watch.pml: order-popped
        match orders.try_pop(rt) {
            Some(Order::Quit) => return true,
            Some(Order::Go) => {}
            Some(Order::Stop) => {}
            None => return false,
        }
    }
    unreachable!()
}
