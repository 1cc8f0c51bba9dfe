//! Where the sender looks for items.

ghost use Rattle.std.specs.Prelude.{◌<◌};

use m17_lane::Bell;
use m17_values::NoMemory;
use std::alloc::Global;
use std::sync::Wait;

/// How many bits a word has.
const WORD_BITS: u32 = 64;

/// Where a sender looks: the bell that its door, its orders and all its queues ring, and which queues were pushed to
/// and not found empty since. So a turn costs by what there is to send, and not by the number of queues. It is a hint:
/// no clause of the sender rests on it, and at its end the sender tries all queues.
#[derive(Drop)]
pub struct Hint {
    bell: Bell,
    // A bit for each queue that may have something.
    of_queues: Vec<u64>,
}

impl Hint {
    /// A hint for this number of queues of this bell, in which nothing is. The lane of queue q of module m is to have the mark
    /// `m * places + q`, and the door and the orders any other mark of the bell, so that a push on any of them ends the
    /// sender's sleep. `NoMemory` where there is none for it.
    pub fn make(alloc: Global, bell: Bell, queues: u32) -> Result<Hint, NoMemory> {
        Ok(Hint {
            bell,
            of_queues: clear_words(alloc, queues.div_ceil(WORD_BITS))?,
        })
    }

    /// Takes the marks of all that was pushed to. It comes before the lanes are tried: see `Bell`.
    pub fn look(&mut self) {
        for word in 0..self.bell.words() {
            // models/bells.pml: hint-kept
            let marks = self.bell.take_marks(word);
            if let Some(bits) = self.of_queues.get_mut(word) {
                *bits |= marks;
            }
        }
    }

    /// The first queue from this number on that may have something. Words without a bit are passed over.
    // models/bells.pml: hint-searched
    pub fn next(&self, from: u32) -> Option<u32> {
        let first = from / WORD_BITS;
        let mut bit = from % WORD_BITS;
        let words = u32::try_from(self.of_queues.len()).unwrap_or(u32::MAX);
        for word in first..words {
            let here = bits_from(&self.of_queues, word, bit);
            if here != 0 {
                return bit_number(word, here);
            }
            bit = 0;
        }
        None
    }

    /// The queue was found empty.
    pub fn clear(&mut self, queue: u32) {
        // models/bells.pml: hint-cleared
        if let Some(bits) = self.of_queues.get_mut((queue / WORD_BITS) as usize) {
            *bits &= !(1 << (queue % WORD_BITS));
        }
    }

    /// Sleeps until something is pushed, and not at all where something was since `look`.
    pub(crate) fn rest<R: Wait>(&self, rt: &R) {
        self.bell.rest(rt);
    }
}

fn clear_words(alloc: Global, count: u32) -> Result<Vec<u64>, NoMemory> {
    let words = Vec::from_elem(alloc, 0u64, count as usize)?;
    Ok(words)
}

// The bits of a word from this one on.
fn bits_from(words: &[u64], word: u32, bit: u32) -> u64
    requires { bit < 64 }
{
    match words.get(word as usize) {
        Some(bits) => *bits & (u64::MAX << bit),
        None => 0,
    }
}

// The number of the first bit, where the word has one.
fn bit_number(word: u32, bits: u64) -> Option<u32> {
    if bits == 0 {
        return None;
    }
    word.checked_mul(WORD_BITS)?
        .checked_add(bits.trailing_zeros())
}
