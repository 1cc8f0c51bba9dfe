//! The marks of a bell: which of very many lanes were pushed to.

ghost use Rattle.std.specs.Prelude.{◌<◌};

use m17_values::NoMemory;
use std::alloc::Global;
use std::sync::atomic::{AtomicU64, Ordering};

/// How many bits a word has.
const WORD_BITS: u32 = 64;

/// A bit for each lane that has a mark, so that the consumer of thousands of lanes finds those that were pushed to by a read
/// for 64 of them.
///
/// No push is missed. A push puts its item into the queue, then sets the mark, and then rings, or is rung for later; the
/// consumer takes the marks, and then pops. So a push whose mark is set before the consumer takes that word of marks has its
/// item in the queue when the consumer pops. A push whose mark is set after leaves it standing for the next turn, or for
/// `any`, which is asked once a sleep is announced. And where `any` was asked before the mark was set, the ring comes after
/// the announcement, and ends the sleep. A push that finds its mark set sets nothing: the mark is taken behind that look,
/// and the item is in the queue when the consumer pops. Where another producer of the lane set it, that one's ring follows.
#[derive(Drop)]
pub(crate) struct Marks {
    of_lanes: Vec<AtomicU64>,
}

impl Marks {
    /// None set, for that many lanes. `NoMemory` where there is none for it.
    pub(crate) fn make(alloc: Global, lanes: u32) -> Result<Marks, NoMemory> {
        Ok(Marks {
            of_lanes: clear_words(alloc, lanes.div_ceil(WORD_BITS))?,
        })
    }

    /// How many words of 64 marks there are.
    pub(crate) fn words(&self) -> usize {
        self.of_lanes.len()
    }

    /// Sets a mark where it isn't set already: then it was not taken since, and it stands for this push too. A mark that is
    /// not there sets nothing.
    pub(crate) fn set(&self, mark: u32) {
        let word = (mark / WORD_BITS) as usize;
        let bit = mark % WORD_BITS;
        // models/bells.pml: mark-looked
        if !has_bit(&self.of_lanes, word, bit) {
            // models/bells.pml: mark-set
            set_bit(&self.of_lanes, word, bit);
        }
    }

    pub(crate) fn take(&self, word: usize) -> u64 {
        // models/bells.pml: marks-taken
        take_word(&self.of_lanes, word)
    }

    /// Whether a mark is set.
    pub(crate) fn any(&self) -> bool {
        for word in &self.of_lanes {
            // models/bells.pml: marks-asked
            if word.load(Ordering::SeqCst) != 0 {
                return true;
            }
        }
        false
    }
}

fn clear_words(alloc: Global, count: u32) -> Result<Vec<AtomicU64>, NoMemory> {
    let mut words = Vec::with_capacity(alloc, count as usize)?;
    for _cleared in 0..count {
        words.push_reserved(AtomicU64::new(0));
    }
    Ok(words)
}

fn has_bit(words: &[AtomicU64], word: usize, bit: u32) -> bool
    requires { bit < 64 }
{
    match words.get(word) {
        Some(bits) => bits.load(Ordering::SeqCst) & (1 << bit) != 0,
        None => false,
    }
}

fn set_bit(words: &[AtomicU64], word: usize, bit: u32)
    requires { bit < 64 }
{
    if let Some(bits) = words.get(word) {
        bits.fetch_or(1 << bit, Ordering::SeqCst);
    }
}

// Reads first: a word without marks stays as it is, and no other thread has to fetch it again.
fn take_word(words: &[AtomicU64], word: usize) -> u64 {
    match words.get(word) {
        // models/bells.pml: word-read
        // models/bells.pml: word-swapped
        Some(bits) if bits.load(Ordering::SeqCst) != 0 => bits.swap(0, Ordering::SeqCst),
        _ => 0,
    }
}
