ghost use Rattle.std.specs.Prelude.{◌≡◌, ◌⊎◌, ◌↔◌, IsTrue, ℕ, ◌+◌, ◌-◌, ◌^◌, ◌<◌, ◌≤◌, min, List, [], length, take, drop, Option, Some, IfOk, OnOk, OnErr};
ghost use Rattle.m17_io.specs.Faults.{HasCause};

use m17_io::{Input, Sink};
use m17_values::Failed;

/// How many bytes of the input are held at a time.
const SIZE: usize = 8192;

/// The most bytes that an entry or a record has. That many bytes, or all that are left, say what stands first.
pub(crate) const WINDOW: usize = 97;

/// Goes through the bytes of a source. It reads a buffer at a time, and holds what it has not passed yet.
#[derive(Debug, Drop)]
pub(crate) struct Cursor {
    bytes: [u8; SIZE],
    start: usize,
    end: usize,
    place: u64,
    ghost ordered: { start ≤ end },
    ghost within: { end ≤ 8192 },
}

impl Cursor {
    ghost use Rattle.m17_book.specs.Ahead.{held, IsAhead, IsMoreOf};
    ghost use Rattle.m17_book.specs.Limits.{told};

    /// A cursor at the beginning, which holds nothing.
    pub(crate) fn new() -> Cursor
        ensures held { held result ≡ [] }
        ensures place { result.place ≡ 0 }
    {
        Cursor {
            bytes: [0; SIZE],
            start: 0,
            end: 0,
            place: 0,
        }
    }

    /// The bytes that were read and are not passed yet.
    #[inline]
    pub(crate) fn held(&self) -> &[u8]
        ensures { result.now ≡ held self.now }
    {
        &self.bytes[self.start..self.end]
    }

    /// How many bytes were passed.
    #[inline]
    pub(crate) fn place(&self) -> u64
        ensures { result ≡ self.now.place }
    {
        self.place
    }

    /// Passes `count` bytes.
    #[inline]
    pub(crate) fn pass(&mut self, count: usize)
        requires { count ≤ length (held self.old) }
        ensures held { held self.new ≡ drop count (held self.old) }
        ensures place { self.new.place ≡ told (self.old.place + count) }
    {
        self.start += count;
        self.place = self.place.saturating_add(count as u64);
    }

    // Makes room behind the bytes that are held.
    fn move_to_front(&mut self)
        ensures held { held self.new ≡ held self.old }
        ensures size { self.new.end ≡ length (held self.old) }
        ensures place { self.new.place ≡ self.old.place }
    {
        let (start, end) = (self.start, self.end);
        self.bytes.copy_within(start..end, 0);
        self.start = 0;
        self.end = end - start;
    }

    // Reads once more from the source, and answers how many bytes came: none only at the end of the input.
    fn read_more<S: Input<K>, K: Sink>(&mut self, source: &mut S, out: &K) -> Result<usize, Failed>
        requires quiet { (K.told out.now).held_back ≡ 0 }
        requires fits { length (held self.old) < 8192 }
        ensures longer { IfOk result (λ n. length (held self.new) ≡ length (held self.old) + n) }
        ensures more { IfOk result (λ n. (rest : List ℕ) → (S.told source.old).left ≡ Some rest
            → IsMoreOf rest n (held self.old) (held self.new) (S.told source.new).left) }
        ensures nothing_taken { OnErr result ((S.told source.new).left ≡ (S.told source.old).left) }
        ensures held { OnErr result (held self.new ≡ held self.old) }
        ensures cause { HasCause (S.told source.old).faults (S.told source.new).faults result }
        ensures place { self.new.place ≡ self.old.place }
    {
        self.move_to_front();
        let end = self.end;
        let count = source.read_for(out, &mut self.bytes[end..])?;
        self.end = end + count;
        Ok(count)
    }

    /// Reads until as many bytes are held as say what stands first, or all that are left. What is to come of the input
    /// stays the same.
    pub(crate) fn fill<S: Input<K>, K: Sink>(
        &mut self,
        source: &mut S,
        out: &K,
    ) -> Result<(), Failed>
        requires quiet { (K.told out.now).held_back ≡ 0 }
        ensures kept { (ahead : List ℕ) → IsAhead (held self.old) (S.told source.old).left ahead
            → IsAhead (held self.new) (S.told source.new).left ahead }
        ensures enough { OnOk result ((97 ≤ length (held self.new))
            ⊎ ((ahead : List ℕ) → IsAhead (held self.old) (S.told source.old).left ahead
            → ((S.told source.new).left ≡ Some []) × (ahead ≡ held self.new))) }
        ensures cause { HasCause (S.told source.old).faults (S.told source.new).faults result }
        ensures place { self.new.place ≡ self.old.place }
    {
        'reads: loop {
            if self.held().len() >= WINDOW {
                return Ok(());
            }
            if self.read_more(source, out)? == 0 {
                return Ok(());
            }
        }
    }

    /// Whether the input has more bytes than `most`. It goes on to the end of the input, or past that many bytes, and holds
    /// none of them.
    pub(crate) fn goes_too_far<S: Input<K>, K: Sink>(
        &mut self,
        most: u64,
        source: &mut S,
        out: &K,
    ) -> Result<bool, Failed>
        requires quiet { (K.told out.now).held_back ≡ 0 }
        requires bound { most < 2 ^ 64 - 1 }
        ensures far { IfOk result (λ far. (ahead : List ℕ)
            → IsAhead (held self.old) (S.told source.old).left ahead
            → IsTrue far ↔ (most < self.old.place + length ahead)) }
        ensures cause { HasCause (S.told source.old).faults (S.told source.new).faults result }
    {
        'reads: loop {
            let count = self.held().len();
            self.pass(count);
            if self.place > most {
                return Ok(true);
            }
            if self.read_more(source, out)? == 0 {
                return Ok(false);
            }
        }
    }
}
