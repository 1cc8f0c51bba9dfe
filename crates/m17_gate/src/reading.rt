ghost use Rattle.std.specs.Prelude.{◌≡◌, ◌≢◌, ◌≤◌, ℕ, List, [], Some, Result, Ok, Err, IfOk, IfErr, MatchResult, length, take, vec_len};
ghost use Rattle.m17_io.specs.Faults.{HasCauses, HasRisen};
ghost use Rattle.m17_io.specs.Tied.{fault_of};
ghost use Rattle.m17_gate.specs.Text.{AreRules, IsRefused, content_of, is_ruled};
ghost use Rattle.m17_gate.specs.Steps.{AddsLine, StopsAt};
ghost use Rattle.m17_gate.specs.declared.refusal.RulesRefusal.{RulesRefusal};

use crate::line::{place_of, read_line};
use crate::nowhere::Nowhere;
use crate::{Rules, RulesRefusal};
use m17_io::{Fault, Input, Sink, Source, fill};
use m17_values::NoMemory;
use std::alloc::Global;

/// How many bytes a rule text has at most.
const MOST_BYTES: usize = 65_536;

/// Reads rules from a source, all that it has left: a line for each rule, with its act, kind,
/// modules and pattern, and a space between two parts; empty lines and those that begin with `;`
/// are passed over. `Large` comes before all, at 65,536, exactly where there are more bytes than
/// that; `Line` at the first line that is refused, counted from 0, with its first refused part;
/// `ReadFault` only where the source's count of faults rose. The memory is taken first.
pub fn read_rules<S: Source>(alloc: Global, s: &mut S) -> Result<Rules, RulesRefusal>
    ensures counted { (S.told s.old).faults ≤ (S.told s.new).faults }
    ensures fault { result ≡ Err RulesRefusal.ReadFault
        → HasRisen (S.told s.old).faults (S.told s.new).faults }
    ensures no_fault { result ≢ Err RulesRefusal.ReadFault
        → (S.told s.new).faults ≡ (S.told s.old).faults }
    ensures ok { IfOk result (λ rules. (text : List ℕ) → (S.told s.old).left ≡ Some text
        → AreRules text rules) }
    ensures to_the_end { IfOk result (λ _. (text : List ℕ) → (S.told s.old).left ≡ Some text
        → (S.told s.new).left ≡ Some []) }
    ensures err { IfErr result (λ refusal. (text : List ℕ) → (S.told s.old).left ≡ Some text
        → IsRefused text refusal) }
{
    let mut room = match room_of(alloc) {
        Ok(room) => room,
        Err(NoMemory) => return Err(RulesRefusal::NoMemory),
    };
    match read_with(alloc, s, &mut Nowhere, room.as_mut_slice()) {
        Ok(read) => read,
        Err(_) => Err(RulesRefusal::ReadFault),
    }
}

/// Room for one byte more than a rule text may have, by which it is seen where there are too many.
pub(crate) fn room_of(alloc: Global) -> Result<Vec<u8>, NoMemory>
    ensures { IfOk result (λ room. vec_len room ≡ 65537) }
{
    let room = vec![in alloc; 0u8; MOST_BYTES + 1]?;
    Ok(room)
}

/// Reads rules through such a room, all that the input has left, or answers which device failed.
/// Before it would wait for more, the sink hands on what it holds back.
pub(crate) fn read_with<S: Input<K>, K: Sink>(
    alloc: Global,
    input: &mut S,
    out: &mut K,
    room: &mut [u8],
) -> Result<Result<Rules, RulesRefusal>, Fault>
    requires { length room.old ≡ 65537 }
    ensures causes { HasCauses ((S.told input.old).faults, (K.told out.old).faults)
        ((S.told input.new).faults, (K.told out.new).faults) (fault_of result) }
    ensures no_fault { IfOk result (λ read. read ≢ Err RulesRefusal.ReadFault) }
    ensures ok { IfOk result (λ read. IfOk read (λ rules. (text : List ℕ)
        → (S.told input.old).left ≡ Some text → AreRules text rules)) }
    ensures to_the_end { IfOk result (λ read. IfOk read (λ _. (text : List ℕ)
        → (S.told input.old).left ≡ Some text → (S.told input.new).left ≡ Some [])) }
    ensures err { IfOk result (λ read. IfErr read (λ refusal. (text : List ℕ)
        → (S.told input.old).left ≡ Some text → IsRefused text refusal)) }
    ensures nothing_written { (K.told out.new).written ≡ (K.told out.old).written }
{
    match fill(input, out, room) {
        Ok(have) => Ok(rules_in(alloc, room, have)),
        Err(fault) => Err(fault),
    }
}

/// The rules of the first bytes of the room, of which there may be too many.
fn rules_in(alloc: Global, room: &[u8], have: usize) -> Result<Rules, RulesRefusal>
    requires { have ≤ length room.now }
    ensures refused { MatchResult result (AreRules (take have room.now)) (IsRefused (take have
        room.now)) }
    ensures no_fault { result ≢ Err RulesRefusal.ReadFault }
{
    if have > MOST_BYTES {
        return Err(RulesRefusal::Large {
            at: MOST_BYTES as u64,
        });
    }
    rules_of(alloc, &room[..have])
}

/// The rules that the text is written for, or why it is refused.
fn rules_of(alloc: Global, text: &[u8]) -> Result<Rules, RulesRefusal>
    requires { length text.now ≤ 65536 }
    ensures refused { MatchResult result (AreRules text.now) (IsRefused text.now) }
    ensures no_fault { result ≢ Err RulesRefusal.ReadFault }
{
    let mut rules = Rules::new(alloc);
    let mut number = 0;
    let mut place = 0;
    while place <= text.len() {
        let rest = &text[place..];
        let end = place_of(rest, b'\n');
        match read_next(&mut rules, without_return(&rest[..end]), number) {
            Ok(()) => {}
            Err(refusal) => return Err(refusal),
        }
        place += end + 1;
        number += 1;
    }
    Ok(rules)
}

/// Reads one line, the one with this number.
fn read_next(rules: &mut Rules, line: &[u8], number: u64) -> Result<(), RulesRefusal>
    ensures { MatchResult result (λ _. AddsLine line.now rules.old rules.new) (StopsAt line.now
        number) }
{
    if !has_rule(line) {
        return Ok(());
    }
    match read_line(line) {
        Ok(rule) => match rules.push(rule) {
            Ok(()) => Ok(()),
            Err(NoMemory) => Err(RulesRefusal::NoMemory),
        },
        Err(reason) => Err(RulesRefusal::Line {
            line: number,
            reason,
        }),
    }
}

/// What a line holds: without one carriage return at its end.
fn without_return(line: &[u8]) -> &[u8]
    ensures { result.now ≡ content_of line.now }
{
    match line.len() {
        0 => line,
        len if line[len - 1] == b'\r' => &line[..len - 1],
        _ => line,
    }
}

/// Whether a line is for a rule: it is not empty, and does not begin with `;`.
fn has_rule(line: &[u8]) -> bool
    ensures { result ≡ is_ruled line.now }
{
    match line.first() {
        Some(first) => *first != b';',
        None => false,
    }
}
