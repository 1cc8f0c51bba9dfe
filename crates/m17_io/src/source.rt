ghost use Rattle.std.specs.Prelude.{◌≡◌, ℕ, ◌-◌, ◌^◌, ◌≤◌, List, length, Some, IfOk, OnErr};
ghost use Rattle.m17_io.specs.Faults.{HasCause};
ghost use Rattle.m17_io.specs.Source.{SourceTold, Takes};

use m17_values::Failed;

/// Where bytes come from.
pub trait Source {
    /// What it tells.
    ghost told: { Self → SourceTold };

    /// Takes bytes from the front of what is left into the front of `into`, and answers how many: 0 for an `into`
    /// with room only at the end, and always for one without. `Failed` where the device failed, and then nothing was
    /// taken; what stands in `into` then is not told.
    fn read(&mut self, into: &mut [u8]) -> Result<usize, Failed>
        ensures cause { HasCause (told self.old).faults (told self.new).faults result }
        ensures within { IfOk result (λ n. n ≤ length into.old) }
        ensures taken { IfOk result (λ n. (bytes : List ℕ) → (told self.old).left ≡ Some bytes
            → Takes bytes n into.old into.new (told self.new).left) }
        ensures nothing_taken { OnErr result ((told self.new).left ≡ (told self.old).left) };

    /// Whether the next read is answered from what is at hand, so that it does not wait for the outside.
    fn is_at_hand(&self) -> bool
        ensures { result ≡ (told self.now).at_hand };

    /// A count of faults is a number of 64 bits: one that stands at the greatest stays there.
    ghost faults_fit: { (source : Self) → (told source).faults ≤ 2 ^ 64 - 1 };
}
