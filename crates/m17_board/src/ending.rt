//! The end of a watched board.
ghost use Rattle.std.specs.Prelude.{◌≡◌, ◌+◌, ◌<◌, ◌≤◌, [], false, length, vec_len, vec_capacity};
ghost use Rattle.m17_control.specs.Modules.{letters_before, letters_of};
ghost use Rattle.m17_board.specs.Ends.{AreOfOneBoard};
ghost use Rattle.m17_board.specs.Shows.{shown_of, IsPlaceOf, WatchDid};
ghost use Rattle.m17_board.specs.Ending.{IsFresh, GoesInOrder, GoesOn, HasLast, InOrder};
ghost use Rattle.m17_board.specs.Written.{ShowsBoard, WritesLast};

use crate::closing::close_into;
use crate::glance::Glance;
use crate::poster::Poster;
use crate::watch::Watch;
use m17_ports::Book;
use m17_ports::laws::books_are_written_in_turn;
use std::alloc::Global;
use std::sync::Wait;

impl<B: Book, T: Drop> Watch<B, T> {
    /// Ends the board of a watch that has ended, with the posters of its modules, in order of letters: writes for each module
    /// the line of all that was posted, where the module's last line has fewer records, and gives the book, and whether a
    /// write of it failed. `glances` is empty and has room for each module.
    pub fn end<R: Wait>(
        self,
        rt: &R,
        alloc: Global,
        posters: Vec<Poster>,
        glances: &mut Vec<Glance>,
    ) -> (B, bool)
        requires board { AreOfOneBoard posters.items self.eyes.items }
        requires each { vec_len posters ≡ length (letters_of self.modules) }
        requires numbers { vec_len self.last ≡ length (letters_of self.modules) }
        requires empty { glances.old.items ≡ [] }
        requires room { vec_len posters ≤ vec_capacity glances.old }
        // Of what the watch was before, as a job, its lines and these show all that was posted.
        ensures shows { (j : Watch B T) → WatchDid B.told j self → IsFresh j
            → ShowsBoard self.modules posters.items result.1 (B.told j.book) (B.told result.0) }
        // Behind what the watch wrote come these lines, in order of letters.
        ensures last { self.failed ≡ false → WritesLast self.modules posters.items self.last.items
            result.1 (B.told self.book) (B.told result.0) }
    {
        books_are_written_in_turn::<B::Label>();
        let Watch {
            modules,
            eyes,
            last,
            book,
            failed,
            order,
            clock,
        } = self;
        // models/watch.pml: board-closed
        close_into(rt, posters, eyes, glances);
        let mut rest = Watch {
            modules,
            eyes: Vec::new(alloc),
            last,
            book,
            failed,
            order,
            clock,
        };
        // models/watch.pml: last-lines-written
        rest.write_last(glances.as_slice());
        let Watch {
            modules: _,
            eyes: _,
            last: _,
            book,
            failed,
            order: _,
            clock: _,
        } = rest;
        (book, failed)
    }

    // Writes the line of each of these glances, where the module's last line has fewer records.
    fn write_last(&mut self, glances: &[Glance])
        requires numbers { vec_len self.old.last ≡ length (letters_of self.old.modules) }
        requires glances { length glances.now ≡ length (letters_of self.old.modules) }
        ensures on { GoesOn B.told self.old.modules glances.now (shown_of self.old)
            (shown_of self.new) }
        ensures last { self.new.failed ≡ false
            → HasLast glances.now self.new.last.items (length glances.now) }
        ensures in_order { self.old.failed ≡ false → InOrder B.told self.old.modules glances.now 91
            (shown_of self.old) (shown_of self.new) }
    {
        books_are_written_in_turn::<B::Label>();
        let mut place = 0;
        for letter in b'A'..b'Z' + 1 {
            place = self.write_last_for(letter, place, glances);
        }
    }

    // The same of the module with this letter, if there is one: the place of the next module. This place is that of the next
    // from this letter on.
    fn write_last_for(&mut self, letter: u8, place: usize, glances: &[Glance]) -> usize
        requires low { 65 ≤ letter }
        requires high { letter < 91 }
        requires at { place ≡ length (letters_before self.old.modules letter) }
        requires numbers { vec_len self.old.last ≡ length (letters_of self.old.modules) }
        requires glances { length glances.now ≡ length (letters_of self.old.modules) }
        ensures next { result ≡ length (letters_before self.old.modules (letter + 1)) }
        ensures on { GoesOn B.told self.old.modules glances.now (shown_of self.old)
            (shown_of self.new) }
        ensures last { self.new.failed ≡ false → HasLast glances.now self.old.last.items place
            → HasLast glances.now self.new.last.items result }
        ensures in_order { GoesInOrder B.told self.old.modules glances.now letter (shown_of self.old)
            (shown_of self.new) }
        ensures modules { self.new.modules ≡ self.old.modules }
        ensures as_many { vec_len self.new.last ≡ vec_len self.old.last }
        ensures failed { self.new.failed ≡ false → self.old.failed ≡ false }
    {
        if self.modules.has(letter) {
            self.write_last_of(letter, place, glances);
            return place + 1;
        }
        place
    }

    // The same of the module with this letter, which has this place.
    fn write_last_of(&mut self, letter: u8, place: usize, glances: &[Glance])
        requires at { IsPlaceOf self.old.modules letter place }
        requires number { place < vec_len self.old.last }
        requires glance { place < length glances.now }
        ensures on { GoesOn B.told self.old.modules glances.now (shown_of self.old)
            (shown_of self.new) }
        ensures last { self.new.failed ≡ false → HasLast glances.now self.old.last.items place
            → HasLast glances.now self.new.last.items (place + 1) }
        ensures in_order { GoesInOrder B.told self.old.modules glances.now letter (shown_of self.old)
            (shown_of self.new) }
        ensures modules { self.new.modules ≡ self.old.modules }
        ensures as_many { vec_len self.new.last ≡ vec_len self.old.last }
        ensures failed { self.new.failed ≡ false → self.old.failed ≡ false }
    {
        books_are_written_in_turn::<B::Label>();
        if self.failed {
            return;
        }
        let glance = glances[place];
        if glance.records <= self.last[place] {
            return;
        }
        self.write_line(letter, place, &glance);
    }
}
