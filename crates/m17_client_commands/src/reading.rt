ghost use Rattle.std.specs.Prelude.{◌≡◌, ℕ, List, [], Some, IfOk, IfErr};
ghost use Rattle.m17_io.specs.Faults.{HasCauses};
ghost use Rattle.m17_client.specs.Talk.{IsInOrder};
ghost use Rattle.m17_client_commands.specs.Reading.{fault_told, SaysFailure};
ghost use Rattle.m17_client_commands.specs.Script.{IsScript};
ghost use Rattle.m17_client_commands.specs.Walk.{LooksPast};

use crate::record::{RECORD_BYTES, read_record};
use crate::{ScriptFailure, ScriptReason};
use m17_io::{Input, Sink, fill};
use m17_stream::StreamPacket;
use std::alloc::Global;

/// The most records of a script.
const RECORDS_MAX: u64 = 16_384;

/// The records of a script, each with its moment: those that the bytes of the source are. It reads to the end of the
/// source, record by record, and before it would wait for more, the sink hands on what it holds back; nothing is
/// written. Else why there is no script: `Refused` with the first place at which the bytes are none, `Device` where one
/// failed, `NoMemory` where there is none for the list.
pub fn read_script<S: Input<K>, K: Sink>(
    alloc: Global,
    input: &mut S,
    out: &mut K,
) -> Result<Vec<(u64, StreamPacket)>, ScriptFailure>
    ensures script { IfOk result (λ script. (bytes : List ℕ) → (S.told input.old).left ≡ Some bytes
        → IsScript bytes script.items × ((S.told input.new).left ≡ Some [])) }
    ensures in_order { IfOk result (λ script. IsInOrder script.items) }
    ensures refused { IfErr result (λ failure. (bytes : List ℕ) → (S.told input.old).left ≡ Some bytes
        → SaysFailure failure bytes) }
    ensures causes { HasCauses ((S.told input.old).faults, (K.told out.old).faults)
        ((S.told input.new).faults, (K.told out.new).faults) (fault_told result) }
    ensures nothing_written { (K.told out.new).written ≡ (K.told out.old).written }
{
    let mut script = Vec::new(alloc);
    let mut bytes = [0u8; RECORD_BYTES];
    let mut last = 0;
    for index in 0..RECORDS_MAX {
        match fill(input, out, &mut bytes) {
            Ok(0) => return Ok(script),
            Ok(taken) => match read_record(&bytes[..taken], last) {
                Ok(due) => {
                    last = due.0;
                    if script.push(due).is_err() {
                        return Err(ScriptFailure::NoMemory);
                    }
                }
                Err((k, reason)) => return Err(refused(62 * index + k as u64, reason)),
            },
            Err(fault) => return Err(ScriptFailure::Device(fault)),
        }
    }
    look_past(script, input, out)
}

// How it ends that the input is refused.
fn refused(place: u64, reason: ScriptReason) -> ScriptFailure
    ensures { result ≡ ScriptFailure.Refused place reason }
{
    ScriptFailure::Refused { place, reason }
}

// After as many records as there may be: a byte more is too many.
fn look_past<S: Input<K>, K: Sink>(
    script: Vec<(u64, StreamPacket)>,
    input: &mut S,
    out: &mut K,
) -> Result<Vec<(u64, StreamPacket)>, ScriptFailure>
    ensures causes { HasCauses ((S.told input.old).faults, (K.told out.old).faults)
        ((S.told input.new).faults, (K.told out.new).faults) (fault_told result) }
    ensures looks { (left : List ℕ) → (S.told input.old).left ≡ Some left
        → LooksPast result left (S.told input.new).left }
    ensures kept { IfOk result (λ all. all.items ≡ script.items) }
    ensures nothing_written { (K.told out.new).written ≡ (K.told out.old).written }
{
    let mut next = [0u8; 1];
    match fill(input, out, &mut next) {
        Ok(0) => Ok(script),
        Ok(_) => Err(refused(62 * RECORDS_MAX, ScriptReason::Large)),
        Err(fault) => Err(ScriptFailure::Device(fault)),
    }
}
