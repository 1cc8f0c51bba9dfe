ghost use Rattle.std.specs.Prelude.{◌≡◌, ◌⊎◌, ℕ, List, [], None, Some, Err, IsSome, IfSome, IfOk, IfErr, OnErr, MatchResult};
ghost use Rattle.m17_book.specs.declared.record.Record.{Record};
ghost use Rattle.m17_book.specs.declared.refusal.FormRefusal.{FormRefusal};
ghost use Rattle.m17_book.specs.declared.refusal.FormRefusal.TheVariants.{ReadFault};
ghost use Rattle.m17_book.specs.Book.{StopsBook, HasBookForm};
ghost use Rattle.m17_book.specs.Records.{IsWritable};
ghost use Rattle.m17_book.specs.declared.head.Head.{Head};
ghost use Rattle.m17_book.specs.declared.version.Version.TheVariants.{Two};

use crate::cursor::Cursor;
use crate::laws::records_are_clear;
use crate::silent::Silent;
use crate::steps::{next_record, pass_header};
use crate::version::Version;
use crate::{FormRefusal, Head, Record};
use m17_io::{Input, Sink, Source};
use std::marker::Model;

/// Gives the header and the records of a book one by one. It knows no limit on the book's size.
#[derive(Debug, Drop)]
pub struct Reader {
    cursor: Cursor,
    header: Option<Head>,
    refusal: Option<FormRefusal>,
}

impl Model for Reader {
    ghost use Rattle.m17_book.specs.Progress.{Progress, progress};

    ghost Value = { Progress };

    ghost view = { λ r. progress r.cursor r.header r.refusal };
}

impl Reader {
    ghost use Rattle.m17_book.specs.Reading.{HasRead, HasHeader, AnswersNext, HasNext, HasReadCause, IsReadersRefusal};

    /// A reader that has read nothing.
    pub fn new() -> Reader
        ensures fresh { (bytes : List ℕ) → HasRead result (Some bytes) bytes [] }
        ensures not_refused { result.refusal ≡ None }
        ensures no_header { result.header ≡ None }
    {
        Reader {
            cursor: Cursor::new(),
            header: None,
            refusal: None,
        }
    }

    /// What the header says: none exactly until it was read, which `next` does first of all.
    pub fn head(&self) -> Option<Head>
        ensures { result ≡ self.now.header }
    {
        self.header
    }

    /// The next record; none at the end of a book that was read whole. Else why the bytes are no book: `Cut`, `Kind`
    /// and `Field` with their places, and `ReadFault` where the source failed; never `Large` or `NoMemory`. After a
    /// refusal it answers that refusal again, and reads nothing. What was read before a refusal is read behind it: the
    /// header too, where the same call passed it.
    pub fn next<S: Source>(&mut self, source: &mut S) -> Result<Option<Record>, FormRefusal>
        ensures answers { self.old.refusal ≡ None → (bytes : List ℕ) → (records : List Record)
            → HasRead self.old (S.told source.old).left bytes records
            → AnswersNext result self.new (S.told source.new).left bytes records }
        ensures each_record { self.old.refusal ≡ None → (bytes : List ℕ)
            → (records : List Record) → (next : Record)
            → HasRead self.old (S.told source.old).left bytes records → HasNext bytes records next
            → MatchResult result (λ found. found ≡ Some next) (λ refusal. refusal ≡ ReadFault) }
        ensures each_end { self.old.refusal ≡ None → (bytes : List ℕ) → (head : Head)
            → (records : List Record) → HasRead self.old (S.told source.old).left bytes records
            → HasBookForm Two bytes head records
            → MatchResult result (λ found. found ≡ None) (λ refusal. refusal ≡ ReadFault) }
        ensures header_read { IfOk result (λ _. IsSome self.new.header) }
        ensures same_header { (head : Head) → self.old.header ≡ Some head
            → self.new.header ≡ Some head }
        ensures stands { OnErr result ((bytes : List ℕ) → (records : List Record)
            → HasRead self.old (S.told source.old).left bytes records
            → HasRead self.new (S.told source.new).left bytes records) }
        ensures writable { IfOk result (λ next. IfSome next IsWritable) }
        ensures open { IfOk result (λ _. self.new.refusal ≡ None) }
        ensures kinds { self.old.refusal ≡ None → IfErr result IsReadersRefusal }
        ensures refused { IfErr result (λ refusal. self.new.refusal ≡ Some refusal) }
        ensures again { (refusal : FormRefusal) → self.old.refusal ≡ Some refusal
            → (result ≡ Err refusal) × (source.new ≡ source.old) }
        ensures cause { self.old.refusal ≡ None
            → HasReadCause (S.told source.old).faults (S.told source.new).faults result }
    {
        self.next_for(source, &Silent)
    }

    /// The same for a command that prints into this sink: its source is read while the sink holds nothing back.
    pub fn next_for<S: Input<K>, K: Sink>(
        &mut self,
        source: &mut S,
        out: &K,
    ) -> Result<Option<Record>, FormRefusal>
        requires quiet { (K.told out.now).held_back ≡ 0 }
        ensures answers { self.old.refusal ≡ None → (bytes : List ℕ) → (records : List Record)
            → HasRead self.old (S.told source.old).left bytes records
            → AnswersNext result self.new (S.told source.new).left bytes records }
        ensures each_record { self.old.refusal ≡ None → (bytes : List ℕ)
            → (records : List Record) → (next : Record)
            → HasRead self.old (S.told source.old).left bytes records → HasNext bytes records next
            → MatchResult result (λ found. found ≡ Some next) (λ refusal. refusal ≡ ReadFault) }
        ensures each_end { self.old.refusal ≡ None → (bytes : List ℕ) → (head : Head)
            → (records : List Record) → HasRead self.old (S.told source.old).left bytes records
            → HasBookForm Two bytes head records
            → MatchResult result (λ found. found ≡ None) (λ refusal. refusal ≡ ReadFault) }
        ensures header_read { IfOk result (λ _. IsSome self.new.header) }
        ensures same_header { (head : Head) → self.old.header ≡ Some head
            → self.new.header ≡ Some head }
        ensures stands { OnErr result ((bytes : List ℕ) → (records : List Record)
            → HasRead self.old (S.told source.old).left bytes records
            → HasRead self.new (S.told source.new).left bytes records) }
        ensures writable { IfOk result (λ next. IfSome next IsWritable) }
        ensures open { IfOk result (λ _. self.new.refusal ≡ None) }
        ensures kinds { self.old.refusal ≡ None → IfErr result IsReadersRefusal }
        ensures refused { IfErr result (λ refusal. self.new.refusal ≡ Some refusal) }
        ensures again { (refusal : FormRefusal) → self.old.refusal ≡ Some refusal
            → (result ≡ Err refusal) × (source.new ≡ source.old) }
        ensures cause { self.old.refusal ≡ None
            → HasReadCause (S.told source.old).faults (S.told source.new).faults result }
    {
        records_are_clear();
        if let Some(refusal) = self.refusal {
            return Err(refusal);
        }
        match self.advance(source, out) {
            Ok(next) => Ok(next),
            Err(refusal) => {
                self.refusal = Some(refusal);
                Err(refusal)
            }
        }
    }

    // The next record, past the header where it comes first.
    fn advance<S: Input<K>, K: Sink>(
        &mut self,
        source: &mut S,
        out: &K,
    ) -> Result<Option<Record>, FormRefusal>
        requires quiet { (K.told out.now).held_back ≡ 0 }
        ensures answers { (bytes : List ℕ) → (records : List Record)
            → HasRead self.old (S.told source.old).left bytes records
            → AnswersNext result self.new (S.told source.new).left bytes records }
        ensures header_read { IfOk result (λ _. IsSome self.new.header) }
        ensures same_header { (head : Head) → self.old.header ≡ Some head
            → self.new.header ≡ Some head }
        ensures stands { OnErr result ((bytes : List ℕ) → (records : List Record)
            → HasRead self.old (S.told source.old).left bytes records
            → HasRead self.new (S.told source.new).left bytes records) }
        ensures writable { IfOk result (λ next. IfSome next IsWritable) }
        ensures stays { self.new.refusal ≡ self.old.refusal }
        ensures kinds { IfErr result IsReadersRefusal }
        ensures cause { HasReadCause (S.told source.old).faults (S.told source.new).faults result }
    {
        match self.begin(source, out) {
            Ok(()) => next_record(Version::Two, &mut self.cursor, source, out),
            Err(refusal) => Err(refusal),
        }
    }

    // Passes the header where that was not done yet.
    fn begin<S: Input<K>, K: Sink>(&mut self, source: &mut S, out: &K) -> Result<(), FormRefusal>
        requires quiet { (K.told out.now).held_back ≡ 0 }
        ensures header_read { IfOk result (λ _. IsSome self.new.header) }
        ensures same_header { (head : Head) → self.old.header ≡ Some head
            → self.new.header ≡ Some head }
        ensures passed { (bytes : List ℕ) → (records : List Record)
            → HasRead self.old (S.told source.old).left bytes records
            → HasRead self.new (S.told source.new).left bytes records }
        ensures refused { IfErr result (λ refusal. (bytes : List ℕ) → (records : List Record)
            → HasRead self.old (S.told source.old).left bytes records
            → ((refusal ≡ ReadFault) × HasHeader self.new.header bytes)
            ⊎ StopsBook Two bytes self.new.header records refusal) }
        ensures stays { self.new.refusal ≡ self.old.refusal }
        ensures kinds { IfErr result IsReadersRefusal }
        ensures cause { HasReadCause (S.told source.old).faults (S.told source.new).faults result }
    {
        if self.header.is_some() {
            return Ok(());
        }
        match pass_header(Version::Two, &mut self.cursor, source, out) {
            Ok(head) => {
                self.header = Some(head);
                Ok(())
            }
            Err(refusal) => Err(refusal),
        }
    }
}
