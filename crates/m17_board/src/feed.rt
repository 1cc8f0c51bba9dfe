//! What is read of a book's bytes, one byte after another.
ghost use Rattle.std.specs.Prelude.{◌≡◌, ◌↔◌, ◌++◌, ℕ, List, [], ◌∷◌, Some, if◌then◌else◌};
ghost use Rattle.std.specs.Option.{option_to_list};
ghost use Rattle.m17_board.specs.Whole.{HasRead, HasReadAt};
ghost use Rattle.m17_book.specs.Records.{SpellsRecord};
ghost use Rattle.m17_book.specs.declared.record.Record.{Record};
ghost use Rattle.m17_book.specs.declared.version.Version.TheVariants.{Two};

use crate::header::{HEADER_BYTES, is_header};
use arrayvec::ArrayVec;
use m17_book::{Record, read_record};
use std::marker::Model;

/// The most bytes of a record.
const MOST_BYTES: usize = 97;

/// What comes next of the bytes.
#[derive(Clone, Copy, Debug, PartialEq, Eq)]
pub enum Stage {
    /// The header.
    Header,
    /// A record.
    Records,
    /// Nothing more: the bytes were refused.
    Refused,
}

impl Stage {
    // What comes behind 17 bytes that are a header, or are none.
    fn behind(header: bool) -> Stage
        ensures { result ≡ (if header then Stage.Records else Stage.Refused) }
    {
        if header {
            Stage::Records
        } else {
            Stage::Refused
        }
    }
}

/// Reads the records of a book as their bytes come. It holds the bytes that came behind the last whole part.
#[derive(Drop)]
pub(crate) struct Feed {
    held: ArrayVec<u8, MOST_BYTES>,
    stage: Stage,
}

impl Model for Feed {
    ghost use Rattle.m17_board.specs.Whole.{FeedKept};

    ghost Value = { FeedKept };

    ghost use Rattle.std.specs.Prelude.{◌<◌, length};

    ghost view = { λ f. record { stage = f.stage; held = f.held.items } };

    ghost invariant = { λ f. length f.held.items < 97 };
}

impl Feed {
    ghost use Rattle.m17_board.specs.Whole.{FeedKept};

    /// Before the first byte.
    pub(crate) fn new() -> Feed
        ensures { HasRead result [] [] }
    {
        Feed {
            held: ArrayVec::new(),
            stage: Stage::Header,
        }
    }

    /// Takes one byte more: the record that is whole by it, if one is.
    pub(crate) fn take_in(&mut self, byte: u8) -> Option<Record>
        ensures { (taken : List ℕ) (posted : List Record) → HasRead self.old taken posted
            → HasRead self.new (taken ++ byte ∷ []) (posted ++ option_to_list result) }
    {
        match self.stage {
            Stage::Header => {
                self.take_header(byte);
                None
            }
            Stage::Records => self.take_record(byte),
            Stage::Refused => None,
        }
    }

    // One byte of the header.
    fn take_header(&mut self, byte: u8)
        requires { self.old.stage ≡ Stage.Header }
        ensures { (taken : List ℕ) (posted : List Record) → HasRead self.old taken posted
            → HasRead self.new (taken ++ byte ∷ []) posted }
    {
        self.held.push(byte);
        if self.held.len() < HEADER_BYTES {
            return;
        }
        self.stage = Stage::behind(is_header(self.held.as_slice()));
        self.held.clear();
    }

    // One byte of a record.
    fn take_record(&mut self, byte: u8) -> Option<Record>
        requires { self.old.stage ≡ Stage.Records }
        ensures { (taken : List ℕ) (posted : List Record) → HasRead self.old taken posted
            → HasRead self.new (taken ++ byte ∷ []) (posted ++ option_to_list result) }
    {
        self.held.push(byte);
        if let Some(one) = read_whole(self.held.as_slice()) {
            self.held.clear();
            return Some(one);
        }
        if self.held.len() < MOST_BYTES {
            return None;
        }
        self.stage = Stage::Refused;
        self.held.clear();
        None
    }
}

// `read_record`, which is asked only where the bytes are as many as a record has.
fn read_whole(b: &[u8]) -> Option<Record>
    ensures spelled { (one : Record) → (result ≡ Some one) ↔ SpellsRecord Two one b.now }
{
    match b.len() {
        31 | 37 | MOST_BYTES => read_record(b),
        _ => None,
    }
}
