ghost use Rattle.std.specs.Prelude.{◌≡◌, ℕ, List, [], Some, IfOk, IfErr};
ghost use Rattle.m17_io.specs.Faults.{HasCauses};
ghost use Rattle.m17_gate.specs.Text.{AreRules};
ghost use Rattle.m17_gate.specs.Taking.{fault_told, SaysFailure};

use crate::reading::{read_with, room_of};
use crate::{Rules, RulesFailure};
use m17_io::{Input, Sink};
use m17_values::NoMemory;
use std::alloc::Global;

/// The rules that the input has, all that it has left. Before it would wait for more, the sink
/// hands on what it holds back; nothing is written. Else why there are none: `Refused` with the
/// first refused line and its first refused part, or with the place of the first byte too many;
/// `Device` where one failed; `NoMemory` where there was none for the text or its rules.
pub fn take_rules<S: Input<K>, K: Sink>(
    alloc: Global,
    input: &mut S,
    out: &mut K,
) -> Result<Rules, RulesFailure>
    ensures rules { IfOk result (λ rules. (text : List ℕ) → (S.told input.old).left ≡ Some text
        → AreRules text rules) }
    ensures to_the_end { IfOk result (λ _. (text : List ℕ) → (S.told input.old).left ≡ Some text
        → (S.told input.new).left ≡ Some []) }
    ensures refused { IfErr result (λ failure. (text : List ℕ) → (S.told input.old).left ≡ Some text
        → SaysFailure failure text) }
    ensures causes { HasCauses ((S.told input.old).faults, (K.told out.old).faults)
        ((S.told input.new).faults, (K.told out.new).faults) (fault_told result) }
    ensures nothing_written { (K.told out.new).written ≡ (K.told out.old).written }
{
    let mut room = match room_of(alloc) {
        Ok(room) => room,
        Err(NoMemory) => return Err(RulesFailure::NoMemory),
    };
    match read_with(alloc, input, out, room.as_mut_slice()) {
        Ok(Ok(rules)) => Ok(rules),
        Ok(Err(refusal)) => Err(RulesFailure::of_refusal(refusal)),
        Err(fault) => Err(RulesFailure::Device(fault)),
    }
}
