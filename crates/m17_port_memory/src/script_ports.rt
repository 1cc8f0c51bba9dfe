ghost use Rattle.std.specs.Prelude.{◌≡◌, ℕ, ◌-◌, ◌^◌, ◌≤◌, ◌↔◌, ◌⊎◌, min, length, nat_le, true, [], ◌∷◌, Contains, None, Some, IsErr, IfOk, OnErr};
ghost use Rattle.m17_io.specs.Faults.{HasCause};

use crate::{ListBook, ListMouth, ScriptEar};
use arrayvec::ArrayVec;
use m17_ports::{Ports, Question};
use m17_values::{Failed, Gram};
use std::marker::Model;

/// The most questions that are told.
const QUESTIONS: usize = 64;

/// The most bytes of a question's text that are told.
const TEXT_BYTES: usize = 64;

// A question, with the blank that a place of a list of fixed size holds before it is used.
#[derive(Drop)]
struct Asked(Question);

impl Model for Asked {
    ghost use Rattle.m17_ports.specs.declared.question.Question.{Question};

    ghost Value = { Question };

    ghost view = { λ a. a.0 };
}

impl Default for Asked {
    fn default() -> Asked {
        Asked(Question::Book {
            name: Gram::of(&[]),
        })
    }
}

/// Ports that hand out the links and books that they were given, in order, and can be told to fail. What they hand out
/// is as it was when it was new, and has the number of the call. They tell what was asked as long as that is at most 64
/// questions with texts of at most 64 bytes.
#[derive(Drop)]
pub struct ScriptPorts {
    links: Vec<(ScriptEar, ListMouth)>,
    books: Vec<ListBook>,
    fails: Vec<u64>,
    calls: u64,
    faults: u64,
    asked: ArrayVec<Asked, QUESTIONS>,
    is_told: bool,
}

impl Model for ScriptPorts {
    ghost use Rattle.std.specs.Prelude.{reverse, Some, None, if◌then◌else◌};
    ghost use Rattle.m17_port_memory.specs.Kept.{PortsKept};

    ghost Value = { PortsKept };

    ghost view = { λ p. record {
      links = reverse p.links.items;
      books = reverse p.books.items;
      fails = p.fails.items;
      calls = p.calls;
      faults = p.faults;
      asked = if p.is_told then Some p.asked.items else None;
    } };
}

impl ScriptPorts {
    ghost use Rattle.m17_port_memory.specs.Kept.{PortsKept, new_ports};
    ghost use Rattle.m17_port_memory.specs.Handed.{told_with, asks, faulted};
    ghost use Rattle.m17_ports.specs.Ports.{next_number};

    /// Ports with these links and books to hand out. `fails` lists the numbers of calls, from 0, that are to fail; a
    /// call for which none is left fails too.
    pub fn new(
        links: Vec<(ScriptEar, ListMouth)>,
        books: Vec<ListBook>,
        fails: Vec<u64>,
    ) -> ScriptPorts
        ensures { result ≡ new_ports links.items books.items fails.items }
    {
        let mut links = links;
        let mut books = books;
        links.reverse();
        books.reverse();
        ScriptPorts {
            links,
            books,
            fails,
            calls: 0,
            faults: 0,
            asked: ArrayVec::new(),
            is_told: true,
        }
    }

    // Notes the question of a call, where it fits as a whole and there is room, and answers the call's number.
    fn note(&mut self, question: Question, fits: bool) -> u64
        ensures number { result ≡ self.old.calls }
        ensures noted { self.new ≡ record self.old {
          calls = next_number self.old.calls;
          asked = told_with fits self.old.asked question;
        } }
    {
        let call = self.calls;
        self.calls = self.calls.saturating_add(1);
        if !fits || self.asked.is_full() {
            self.is_told = false;
        } else {
            self.asked.push(Asked(question));
        }
        call
    }

    // Notes that a link was asked for, and answers the call's number.
    fn note_link(&mut self, bind: &str, until: Option<u64>) -> u64
        ensures number { result ≡ self.old.calls }
        ensures noted { self.new ≡ asks self.old (Question.Link bind.now until) }
    {
        let (text, fits) = text_of(bind);
        self.note(Question::Link { bind: text, until }, fits)
    }

    // Notes that a book was asked for, and answers the call's number.
    fn note_book(&mut self, name: &str) -> u64
        ensures number { result ≡ self.old.calls }
        ensures noted { self.new ≡ asks self.old (Question.Book name.now) }
    {
        let (text, fits) = text_of(name);
        self.note(Question::Book { name: text }, fits)
    }

    // Counts a fault.
    fn fault(&mut self) -> Failed
        ensures counted { self.new ≡ faulted self.old }
    {
        self.faults = self.faults.saturating_add(1);
        Failed
    }
}

impl Ports for ScriptPorts {
    ghost use Rattle.std.proofs.Math.Nat.{min-le_right};
    ghost use Rattle.m17_ports.specs.Ear.{IsNewEar};
    ghost use Rattle.m17_ports.specs.Mouth.{IsNewMouth};
    ghost use Rattle.m17_ports.specs.Book.{IsNewBook};
    ghost use Rattle.m17_ports.specs.Ports.{HasAsked};
    ghost use Rattle.m17_port_memory.specs.Tells.{list_book_told, list_mouth_told, script_ear_told, script_ports_told};
    ghost use Rattle.m17_port_memory.specs.Handed.{asked_then, asks, faulted, HandsLink, HandsBook};

    type Ear = ScriptEar;

    type Mouth = ListMouth;

    type Book = ListBook;

    ghost told = { script_ports_told };

    ghost faults_fit = { λ p. min-le_right p.faults (2 ^ 64 - 1) };

    fn link(&mut self, bind: &str, until: Option<u64>) -> Result<(ScriptEar, ListMouth), Failed>
        ensures cause { HasCause (min self.old.faults (2 ^ 64 - 1))
            (min self.new.faults (2 ^ 64 - 1)) result }
        ensures asked { HasAsked (Question.Link bind.now until ∷ []) (script_ports_told self.old)
            (script_ports_told self.new) }
        ensures ear { IfOk result (λ link. IsNewEar self.old.calls (script_ear_told link.0)) }
        ensures mouth { IfOk result (λ link.
            IsNewMouth self.old.calls (list_mouth_told link.1)) }

        // It fails exactly at the calls that were listed, and where no link is left.
        ensures told_to_fail { IsErr result ↔ (Contains self.old.fails self.old.calls
            ⊎ (self.old.links ≡ [])) }

        // The question is noted, the next link is handed out, and a failure is counted; the rest stays.
        ensures handed { IfOk result (λ link.
            HandsLink self.old (Question.Link bind.now until) link self.new) }
        ensures failed { OnErr result
            (self.new ≡ faulted (asks self.old (Question.Link bind.now until))) }
        ensures told { self.new.asked ≡ asked_then self.old.asked (Question.Link bind.now until) }
    {
        let call = self.note_link(bind, until);
        if self.fails.contains(&call) {
            return Err(self.fault());
        }
        match self.links.pop() {
            Some((ear, mouth)) => Ok((ear.renewed(call), mouth.renewed(call))),
            None => Err(self.fault()),
        }
    }

    fn book(&mut self, name: &str) -> Result<ListBook, Failed>
        ensures cause { HasCause (min self.old.faults (2 ^ 64 - 1))
            (min self.new.faults (2 ^ 64 - 1)) result }
        ensures asked { HasAsked (Question.Book name.now ∷ []) (script_ports_told self.old)
            (script_ports_told self.new) }
        ensures book { IfOk result (λ book. IsNewBook self.old.calls (list_book_told book)) }

        // It fails exactly at the calls that were listed, and where no book is left.
        ensures told_to_fail { IsErr result ↔ (Contains self.old.fails self.old.calls
            ⊎ (self.old.books ≡ [])) }

        // The question is noted, the next book is handed out, and a failure is counted; the rest stays.
        ensures handed { IfOk result (λ book.
            HandsBook self.old (Question.Book name.now) book self.new) }
        ensures failed { OnErr result
            (self.new ≡ faulted (asks self.old (Question.Book name.now))) }
        ensures told { self.new.asked ≡ asked_then self.old.asked (Question.Book name.now) }
    {
        let call = self.note_book(name);
        if self.fails.contains(&call) {
            return Err(self.fault());
        }
        match self.books.pop() {
            Some(book) => Ok(book.renewed(call)),
            None => Err(self.fault()),
        }
    }
}

// As much of a text as is told, and whether that is all.
fn text_of(text: &str) -> (Gram, bool)
    ensures fits { result.1 ≡ nat_le (length text.now) 64 }
    ensures whole { result.1 ≡ true → result.0 ≡ text.now }
{
    (Gram::of(text.as_bytes()), text.len() <= TEXT_BYTES)
}
