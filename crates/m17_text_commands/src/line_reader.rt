ghost use Rattle.std.specs.Prelude.{◌≡◌, ℕ, ◌+◌, ◌<◌, ◌≤◌, List, [], length, drop, Option, Some, Ok, IfOk, OnErr, MatchOption, MatchResult};
ghost use Rattle.m17_io.specs.Faults.{HasCauses};
ghost use Rattle.m17_io.specs.Tied.{fault_of};
ghost use Rattle.m17_text_commands.specs.Reading.{HasNoFeed, BeginsWithLine, IsAhead, IsMoreOf};

use m17_io::{Fault, Input, Sink, read_tied};
use memchr::memchr;

const SIZE: usize = 8192;

/// How many bytes a line may have before its line feed: 256 hex digits and a carriage return.
pub(crate) const LINE_ROOM: usize = 257;

/// What stands next before a reader of lines.
#[derive(Clone, Copy, Debug, PartialEq, Eq)]
pub(crate) enum Next {
    /// A line of this number of bytes, and its line feed.
    Line(usize),
    /// The beginning of a line that has more bytes than a line may have.
    Long,
    /// All that is left of the input, which has no line feed.
    Last,
}

/// Takes the lines of a source one by one. Of the input it holds a few thousand bytes at a time.
#[derive(Debug, Drop)]
pub(crate) struct LineReader {
    bytes: [u8; SIZE],
    start: usize,
    end: usize,
    ghost ordered: { start ≤ end },
    ghost within: { end ≤ 8192 },
}

impl LineReader {
    ghost use Rattle.m17_text_commands.specs.Pending.{pending, IsNext};

    /// A reader that holds nothing yet.
    pub(crate) fn new() -> LineReader
        ensures { pending result ≡ [] }
    {
        LineReader {
            bytes: [0; SIZE],
            start: 0,
            end: 0,
        }
    }

    /// The bytes that were read and are not taken yet.
    #[inline]
    pub(crate) fn pending(&self) -> &[u8]
        ensures { result.now ≡ pending self.now }
    {
        &self.bytes[self.start..self.end]
    }

    /// Takes the first `count` bytes.
    #[inline]
    pub(crate) fn take(&mut self, count: usize)
        requires { count ≤ length (pending self.old) }
        ensures { pending self.new ≡ drop count (pending self.old) }
    {
        self.start += count;
    }

    // Where the first line feed stands.
    #[inline]
    fn first_feed(&self) -> Option<usize>
        ensures { MatchOption result (HasNoFeed (pending self.now)) (BeginsWithLine (pending
            self.now)) }
    {
        memchr(b'\n', self.pending())
    }

    // Makes room behind the bytes that are held.
    fn move_to_front(&mut self)
        ensures held { pending self.new ≡ pending self.old }
        ensures size { self.new.end ≡ length (pending self.old) }
    {
        let (start, end) = (self.start, self.end);
        self.bytes.copy_within(start..end, 0);
        self.start = 0;
        self.end = end - start;
    }

    /// Reads once more from the source, and answers how many bytes came: none only at the end of the input. Before it
    /// would wait for them, the sink hands on what was written.
    pub(crate) fn read_more<S: Input<K>, K: Sink>(
        &mut self,
        input: &mut S,
        out: &mut K,
    ) -> Result<usize, Fault>
        requires { length (pending self.old) < 8192 }
        ensures causes { HasCauses ((S.told input.old).faults, (K.told out.old).faults)
            ((S.told input.new).faults, (K.told out.new).faults) (fault_of result) }
        ensures longer { IfOk result (λ n. length (pending self.new) ≡ length (pending self.old) +
            n) }
        ensures none { result ≡ Ok 0 → pending self.new ≡ pending self.old }
        ensures more { IfOk result (λ n. (rest : List ℕ) → (S.told input.old).left ≡ Some rest
            → IsMoreOf rest n (pending self.old) (pending self.new) (S.told input.new).left) }
        ensures nothing_taken { OnErr result ((S.told input.new).left ≡ (S.told input.old).left) }
        ensures held { OnErr result (pending self.new ≡ pending self.old) }
        ensures nothing_written { (K.told out.new).written ≡ (K.told out.old).written }
    {
        self.move_to_front();
        let end = self.end;
        let count = read_tied(input, out, &mut self.bytes[end..])?;
        self.end = end + count;
        Ok(count)
    }

    /// Finds the next line. It reads only while no line feed is there.
    pub(crate) fn next<S: Input<K>, K: Sink>(
        &mut self,
        input: &mut S,
        out: &mut K,
    ) -> Result<Next, Fault>
        ensures causes { HasCauses ((S.told input.old).faults, (K.told out.old).faults)
            ((S.told input.new).faults, (K.told out.new).faults) (fault_of result) }
        ensures found { MatchResult result
            (λ next. IsNext next (pending self.new)) (λ _. HasNoFeed (pending self.new)) }
        ensures kept { (ahead : List ℕ) → IsAhead (pending self.old) (S.told input.old).left ahead
            → IsAhead (pending self.new) (S.told input.new).left ahead }
        ensures at_end { result ≡ Ok Next.Last → (ahead : List ℕ)
            → IsAhead (pending self.old) (S.told input.old).left ahead
            → (S.told input.new).left ≡ Some [] }
        ensures nothing_written { (K.told out.new).written ≡ (K.told out.old).written }
    {
        'reads: loop {
            match self.first_feed() {
                Some(size) => return Ok(Next::Line(size)),
                None if self.pending().len() > LINE_ROOM => return Ok(Next::Long),
                None => {}
            }
            match self.read_more(input, out) {
                Ok(0) => return Ok(Next::Last),
                Ok(_) => {}
                Err(fault) => return Err(fault),
            }
        }
    }
}
