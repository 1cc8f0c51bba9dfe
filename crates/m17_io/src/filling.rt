ghost use Rattle.std.specs.Prelude.{◌≡◌, ℕ, ◌≤◌, List, length, Some, IfOk, Err};
ghost use Rattle.m17_io.specs.Faults.{HasCauses};
ghost use Rattle.m17_io.specs.Tied.{fault_of};
ghost use Rattle.m17_io.specs.Fill.{IsFilled, IsCutShort};

use crate::{Fault, Input, Sink, read_tied};

/// Fills a buffer from the source, and answers how many bytes came: fewer than it has room for only at the end of the
/// input. Before it would wait for more input, the sink hands on what was written.
pub fn fill<S: Input<K>, K: Sink>(
    input: &mut S,
    out: &mut K,
    into: &mut [u8],
) -> Result<usize, Fault>
    ensures causes { HasCauses ((S.told input.old).faults, (K.told out.old).faults)
        ((S.told input.new).faults, (K.told out.new).faults) (fault_of result) }
    ensures within { IfOk result (λ n. n ≤ length into.old) }
    ensures filled { IfOk result (λ n. (bytes : List ℕ) → (S.told input.old).left ≡ Some bytes
        → IsFilled bytes n into.old into.new (S.told input.new).left) }
    ensures cut_short { result ≡ Err Fault.Read → (bytes : List ℕ)
        → (S.told input.old).left ≡ Some bytes
        → IsCutShort bytes (length into.old) (S.told input.new).left }
    ensures nothing_written { (K.told out.new).written ≡ (K.told out.old).written }
{
    let mut have = 0;
    while have < into.len() {
        match read_tied(input, out, &mut into[have..]) {
            Ok(0) => return Ok(have),
            Ok(n) => have += n,
            Err(fault) => return Err(fault),
        }
    }
    Ok(have)
}
