ghost use Rattle.std.specs.Prelude.{◌≡◌, ◌==◌, ◌≤◌, ◌↔◌, length, IsTrue, Option, MatchOption, MatchResult};
ghost use Rattle.std.specs.List.{position_or_len, before_first, after_first};
ghost use Rattle.m17_control.specs.declared.modules.Modules.{Modules};
ghost use Rattle.m17_gate.specs.declared.rule.Act.{Act};
ghost use Rattle.m17_gate.specs.declared.rule.Kind.{Kind};
ghost use Rattle.m17_gate.specs.Text.{is_space, first_part, other_parts, IsAct, IsKind, AreModules, IsRule, IsRefusedPart};

use crate::pattern::{ascii_text, read_pattern};
use crate::{Act, Kind, Reason, Rule};
use m17_control::Modules;

/// The rule that the line is written for, or its first part that is refused.
pub(crate) fn read_line(line: &[u8]) -> Result<Rule, Reason>
    ensures { MatchResult result (IsRule line.now) (IsRefusedPart line.now) }
{
    let rest = behind_part(line);
    let last = behind_part(rest);
    let act = match read_act(front_part(line)) {
        Some(act) => act,
        None => return Err(Reason::Act),
    };
    let kind = match read_kind(front_part(rest)) {
        Some(kind) => kind,
        None => return Err(Reason::Kind),
    };
    let modules = match read_modules(kind, front_part(last)) {
        Some(modules) => modules,
        None => return Err(Reason::Modules),
    };
    let pattern = match read_pattern(behind_part(last)) {
        Some(pattern) => pattern,
        None => return Err(Reason::Pattern),
    };
    Ok(Rule {
        act,
        kind,
        modules,
        pattern,
    })
}

/// The bytes before the first space.
fn front_part(line: &[u8]) -> &[u8]
    ensures { result.now ≡ first_part line.now }
{
    &line[..place_of(line, b' ')]
}

/// The bytes behind the first space; none where there is none.
fn behind_part(line: &[u8]) -> &[u8]
    ensures { result.now ≡ other_parts line.now }
{
    let place = place_of(line, b' ');
    if place < line.len() {
        &line[place + 1..]
    } else {
        &line[place..]
    }
}

/// Where this byte first stands, or the length.
pub(crate) fn place_of(bytes: &[u8], wanted: u8) -> usize
    ensures first { result ≡ position_or_len (λ byte. byte == wanted) bytes.now }
    ensures within { result ≤ length bytes.now }
{
    for place in 0..bytes.len() {
        if bytes[place] == wanted {
            return place;
        }
    }
    bytes.len()
}

fn read_act(text: &[u8]) -> Option<Act>
    ensures { MatchOption result ((act : Act) → IsAct text.now act → ⊥) (IsAct text.now) }
{
    if text == b"allow".as_slice() {
        return Some(Act::Allow);
    }
    if text == b"deny".as_slice() {
        return Some(Act::Deny);
    }
    None
}

fn read_kind(text: &[u8]) -> Option<Kind>
    ensures { MatchOption result ((kind : Kind) → IsKind text.now kind → ⊥) (IsKind text.now) }
{
    if text == b"conn".as_slice() {
        return Some(Kind::Conn);
    }
    if text == b"lstn".as_slice() {
        return Some(Kind::Lstn);
    }
    if text == b"talk".as_slice() {
        return Some(Kind::Talk);
    }
    if text == b"any".as_slice() {
        return Some(Kind::Any);
    }
    None
}

/// The modules of a rule of this kind: every module where that is none.
fn read_modules(kind: Kind, text: &[u8]) -> Option<Option<Modules>>
    ensures { MatchOption result ((modules : Option Modules) → AreModules kind text.now modules → ⊥)
        (AreModules kind text.now) }
{
    if text == b"*".as_slice() {
        return Some(None);
    }
    if is_talk(kind) {
        return None;
    }
    match ascii_text(text) {
        None => None,
        Some(letters) => match Modules::read(letters) {
            Ok(modules) => Some(Some(modules)),
            Err(_) => None,
        },
    }
}

fn is_talk(kind: Kind) -> bool
    ensures { IsTrue result ↔ (kind ≡ Kind.Talk) }
{
    match kind {
        Kind::Talk => true,
        Kind::Conn => false,
        Kind::Lstn => false,
        Kind::Any => false,
    }
}
