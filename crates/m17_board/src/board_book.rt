//! The book that posts.
ghost use Rattle.std.specs.Prelude.{◌≡◌, ◌++◌, ◌-◌, ◌^◌, ◌≤◌, ℕ, List, [], ◌∷◌, Some, take, OnOk, OnErr};
ghost use Rattle.m17_io.specs.Faults.{HasCause};
ghost use Rattle.m17_ports.specs.Told.{told_then, StartsEmpty};
ghost use Rattle.m17_board.specs.Whole.{HasRead, StandWhole};
ghost use Rattle.m17_board.specs.Kept.{HasTaken, board_told, told_or};

use crate::feed::Feed;
use crate::poster::Poster;
use m17_ports::Book;
use m17_values::Failed;
use std::marker::Model;
use std::sync::Wait;

/// Which book it is: what is said at the inner one, and its poster, as it was before it posted. No value of it is made.
pub struct BoardLabel<L> {
    /// The label of the inner book.
    pub inner: L,
    /// The poster before it posted, which names its module and, for contracts, its board.
    pub poster: Poster,
}

/// A book that posts each record that is written to it. Its bytes and its count of faults are the inner book's.
#[derive(Drop)]
pub struct BoardBook<B: Book + Drop, R: Drop> {
    rt: R,
    inner: B,
    poster: Poster,
    feed: Feed,
}

impl<B: Book + Drop, R: Drop> Model for BoardBook<B, R> {
    ghost use Rattle.m17_board.specs.Kept.{BoardKept, IsInStep};

    ghost Value = { BoardKept B };

    ghost view = { λ b. record { inner = b.inner; poster = b.poster; feed = b.feed } };

    ghost invariant = { λ b. IsInStep (B.told b.inner) b.feed b.poster };
}

impl<B: Book + Drop, R: Drop> BoardBook<B, R> {
    ghost use Rattle.m17_board.specs.Kept.{BoardKept};

    /// A book over this one, in which nothing is written yet, that posts by this poster, which has not posted yet, and was in
    /// no book that took anything (`untaken`). It waits by `rt` where a post waits.
    pub fn new(rt: R, inner: B, poster: Poster) -> BoardBook<B, R>
        requires empty { StartsEmpty (B.told inner).written }
        requires unposted { poster.posted ≡ [] }
        requires untaken { poster.taken ≡ [] }
        ensures inner { result.inner ≡ inner }
        ensures poster { result.poster ≡ poster }
        ensures taken { HasTaken result [] }
    {
        BoardBook {
            rt,
            inner,
            poster,
            feed: Feed::new(),
        }
    }

    /// The inner book, and the poster. Where the inner book never failed, what was posted is the records that stand whole in
    /// its bytes, or where it tells none in those that it took.
    pub fn into_parts(self) -> (B, Poster)
        ensures inner { result.0 ≡ self.inner }
        ensures poster { result.1 ≡ self.poster }
        ensures posted { (bytes : List ℕ)
            → told_or (B.told self.inner).written self.poster.taken ≡ Some bytes
            → (B.told self.inner).faults ≡ 0 → StandWhole bytes self.poster.posted }
    {
        let BoardBook {
            rt: _,
            inner,
            poster,
            feed: _,
        } = self;
        (inner, poster)
    }
}

impl<B: Book + Drop, R: Wait + Drop> Book for BoardBook<B, R> {
    type Label = BoardLabel<B::Label>;

    ghost told = { λ b. board_told B.told b };

    ghost faults_fit = { λ b. B.faults_fit b.inner };

    fn write(&mut self, bytes: &[u8]) -> Result<(), Failed>
        ensures cause { HasCause (B.told self.old.inner).faults (B.told self.new.inner).faults result }
        ensures appended { OnOk result ((board_told B.told self.new).written
            ≡ told_then (board_told B.told self.old).written bytes.now) }
        ensures prefix { OnErr result ((n : ℕ) × ((board_told B.told self.new).written
            ≡ told_then (board_told B.told self.old).written (take n bytes.now))) }

        // The inner book is written the same.
        ensures inner_appended { OnOk result ((B.told self.new.inner).written
            ≡ told_then (B.told self.old.inner).written bytes.now) }
        ensures inner_prefix { OnErr result ((n : ℕ) × ((B.told self.new.inner).written
            ≡ told_then (B.told self.old.inner).written (take n bytes.now))) }
        ensures same_device { (board_told B.told self.new).device ≡ (board_told B.told self.old).device }

        // What the inner book took is read, and nothing else.
        ensures taken { OnOk result ((taken : List ℕ) → HasTaken self.old taken
            → HasTaken self.new (taken ++ bytes.now)) }
        ensures untouched { OnErr result (self.new ≡ record self.old { inner = self.new.inner }) }
    {
        self.inner.write(bytes)?;
        feed_all(&self.rt, &mut self.feed, &mut self.poster, bytes);
        self.poster.take(bytes);
        Ok(())
    }
}

// Reads the bytes, and posts each record that is whole by them.
fn feed_all<R: Wait>(rt: &R, feed: &mut Feed, poster: &mut Poster, bytes: &[u8])
    ensures read { (taken : List ℕ) → HasRead feed.old taken poster.old.posted
        → HasRead feed.new (taken ++ bytes.now) poster.new.posted }
    ensures same { poster.new ≡ record poster.old { posted = poster.new.posted } }
{
    for byte in bytes {
        feed_one(rt, feed, poster, *byte);
    }
}

// The same with one byte.
fn feed_one<R: Wait>(rt: &R, feed: &mut Feed, poster: &mut Poster, byte: u8)
    ensures read { (taken : List ℕ) → HasRead feed.old taken poster.old.posted
        → HasRead feed.new (taken ++ byte ∷ []) poster.new.posted }
    ensures same { poster.new ≡ record poster.old { posted = poster.new.posted } }
{
    match feed.take_in(byte) {
        Some(one) => poster.post(rt, &one),
        None => {}
    }
}
