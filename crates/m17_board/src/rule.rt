//! The rule that every step on a module's cell keeps, as the kit's cell asks for it: what each pass knows, and what each
//! kind of step tells its pass.
use crate::glance::{GLANCE_WORDS, Glance};
use atomic_table::{Join, Split};
use crossbeam_utils::atomic::seq_cell::{Pass, RuledSeqCell};
use crossbeam_utils::rule::{Outcome, Protocol};
use m17_book::Record;
use std::alloc::Global;
use std::collections::LinkedList;
use std::marker::{Brand, PhantomData};

/// What a pass knows of a module. No value of it is made.
pub struct Knows {
    /// Whether it is the poster's, which alone posts and knows all that was posted.
    pub posts: bool,
    /// The first records that were posted, as far as it knows.
    pub known: LinkedList<Record>,
    /// What was seen, look by look.
    pub seen: LinkedList<Glance>,
    /// The bytes that the book over the poster took.
    pub taken: LinkedList<u8>,
}

pub struct Posted;

impl Protocol<[u64; GLANCE_WORDS], Knows> for Posted {
    ghost use Rattle.std.specs.Prelude.{[]};
    ghost use Rattle.m17_board.specs.Rule.{Kept, poster};

    ghost holds = { Kept };

    ghost first = { poster [] };
}

/// The words of a module's glance.
pub type Cell = RuledSeqCell<[u64; GLANCE_WORDS], Knows, Posted, GLANCE_WORDS>;

/// What one end of the board knows of a module.
pub type Seen = Pass<[u64; GLANCE_WORDS], Knows>;

/// Which record a step posts.
pub trait Posting {
    ghost use Rattle.std.specs.Prelude.{List};
    ghost use Rattle.m17_book.specs.declared.record.Record.{Record};

    ghost posted: { List Record };
}

impl Posting for Brand {
    ghost use Rattle.std.specs.Prelude.{[]};

    ghost posted = { [] };
}

/// A post: the words are those of one record more.
pub struct Posts<A> {
    marker: PhantomData<A>,
}

impl<A: Posting> Outcome<[u64; GLANCE_WORDS], Knows> for Posts<A> {
    ghost use Rattle.m17_board.specs.Rule.{adds};

    ghost then = { adds A.posted };
}

/// A look.
pub struct Looks;

impl Outcome<[u64; GLANCE_WORDS], Knows> for Looks {
    ghost use Rattle.m17_board.specs.Rule.{looked};

    ghost then = { looked };
}

/// A look of the poster at what it took in.
pub struct Checks;

impl Outcome<[u64; GLANCE_WORDS], Knows> for Checks {
    ghost use Rattle.m17_board.specs.Rule.{checked};

    ghost then = { checked };
}

/// A new pass that knows as much.
pub struct Tells;

impl Split<Knows> for Tells {
    ghost use Rattle.m17_board.specs.Rule.{told_by};

    ghost left = { λ v. v };

    ghost right = { told_by };
}

/// Which bytes a book took.
pub trait Taking {
    ghost use Rattle.std.specs.Prelude.{ℕ, List};

    ghost taken: { List ℕ };
}

impl Taking for Brand {
    ghost use Rattle.std.specs.Prelude.{[]};

    ghost taken = { [] };
}

/// The poster's pass learns what the book over it took.
pub struct Takes<A> {
    marker: PhantomData<A>,
}

impl<A: Taking> Split<Knows> for Takes<A> {
    ghost use Rattle.m17_board.specs.Rule.{nobody, takes};

    ghost left = { takes A.taken };

    ghost right = { λ _. nobody };
}

/// An eye takes in what it was told.
pub struct Hears;

impl Join<Knows> for Hears {
    ghost use Rattle.m17_board.specs.Rule.{hearing, nobody};

    ghost both = { hearing };

    ghost spent = { nobody };
}

/// All that an eye knows goes to a new pass, which was not looked with and so can be taken in.
pub struct Leaves;

impl Split<Knows> for Leaves {
    ghost use Rattle.m17_board.specs.Rule.{nobody};

    ghost left = { λ _. nobody };

    ghost right = { λ v. v };
}

/// The poster takes in what an eye saw.
pub struct Gathers;

impl Join<Knows> for Gathers {
    ghost use Rattle.m17_board.specs.Rule.{gathering, nobody};

    ghost both = { gathering };

    ghost spent = { nobody };
}
