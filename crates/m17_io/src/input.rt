ghost use Rattle.std.specs.Prelude.{◌≡◌, ◌⊎◌, ℕ, true, ◌≤◌, ◌-◌, ◌^◌, List, length, Some, Result, Ok, Err, IfOk, OnErr};
ghost use Rattle.m17_io.specs.Faults.{HasCause, HasCauses};
ghost use Rattle.m17_io.specs.Source.{SourceTold, Takes};
ghost use Rattle.m17_io.specs.Tied.{fault_of, MayRead};

use crate::{Fault, Sink, Source};
use m17_values::Failed;

/// A source as a command sees it that prints into a sink `K` while it reads: it may be read only while bytes are at
/// hand, or while the sink holds nothing back, so that whoever waits for an answer has it before the program waits in
/// turn. Each source is one.
pub trait Input<K: Sink> {
    /// What the source tells.
    ghost told: { Self → SourceTold };

    /// Reads as `Source::read` does, for the sink that the command prints into, which it leaves as it is.
    fn read_for(&mut self, out: &K, into: &mut [u8]) -> Result<usize, Failed>
        requires { MayRead (told self.old).at_hand (K.told out.now).held_back }
        ensures cause { HasCause (told self.old).faults (told self.new).faults result }
        ensures within { IfOk result (λ n. n ≤ length into.old) }
        ensures taken { IfOk result (λ n. (bytes : List ℕ) → (told self.old).left ≡ Some bytes
            → Takes bytes n into.old into.new (told self.new).left) }
        ensures nothing_taken { OnErr result ((told self.new).left ≡ (told self.old).left) };

    /// Whether the next read is answered from what is at hand.
    fn has_bytes_at_hand(&self) -> bool
        ensures { result ≡ (told self.now).at_hand };

    /// A count of faults is a number of 64 bits.
    ghost faults_fit: { (source : Self) → (told source).faults ≤ 2 ^ 64 - 1 };
}

impl<S: Source, K: Sink> Input<K> for S {
    ghost told = { λ s. S.told s };

    #[inline]
    fn read_for(&mut self, _out: &K, into: &mut [u8]) -> Result<usize, Failed> {
        self.read(into)
    }

    #[inline]
    fn has_bytes_at_hand(&self) -> bool {
        self.is_at_hand()
    }

    ghost faults_fit = { λ s. S.faults_fit s };
}

/// Reads, and before it would wait for more input, the sink hands on what it holds back; while bytes are at hand it is
/// left alone. The answer is that of `Source::read`, or which device failed: where that is the sink, nothing was taken.
/// Nothing is written.
#[inline]
pub fn read_tied<S: Input<K>, K: Sink>(
    input: &mut S,
    out: &mut K,
    into: &mut [u8],
) -> Result<usize, Fault>
    ensures causes { HasCauses ((S.told input.old).faults, (K.told out.old).faults)
        ((S.told input.new).faults, (K.told out.new).faults) (fault_of result) }
    ensures within { IfOk result (λ n. n ≤ length into.old) }
    ensures taken { IfOk result (λ n. (bytes : List ℕ) → (S.told input.old).left ≡ Some bytes
        → Takes bytes n into.old into.new (S.told input.new).left) }
    ensures nothing_taken { OnErr result ((S.told input.new).left ≡ (S.told input.old).left) }
    ensures nothing_written { (K.told out.new).written ≡ (K.told out.old).written }
    ensures handed_on { (result ≡ Err Fault.Write)
        ⊎ MayRead (S.told input.old).at_hand (K.told out.new).held_back }
    ensures left_alone { (S.told input.old).at_hand ≡ true → out.new ≡ out.old }
{
    if !input.has_bytes_at_hand() && out.flush().is_err() {
        return Err(Fault::Write);
    }
    match input.read_for(out, into) {
        Ok(n) => Ok(n),
        Err(_) => Err(Fault::Read),
    }
}
