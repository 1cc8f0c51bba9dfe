ghost use Rattle.std.specs.Prelude.{◌≡◌, ◌≢◌, ◌<◌, ◌-◌, ◌++◌, true, false, codes, length, slice_index, MatchOption};
ghost use Rattle.std.specs.Str.{IsAscii};
ghost use Rattle.m17_gate.specs.Patterns.{IsFront, IsPattern};
ghost use Rattle.m17_gate.specs.Unended.{is_unended};
ghost use Rattle.m17_gate.specs.declared.rule.Pattern.{Pattern};

use crate::{Letters, Pattern};
use m17_callsign::{CallRefusal, encode};

/// The sign behind the letters that callsigns may begin with.
const ANY_END: u8 = b'*';

/// The pattern that the text is written for; none where it is written for none.
pub(crate) fn read_pattern(text: &[u8]) -> Option<Pattern>
    ensures { MatchOption result ((pattern : Pattern) → IsPattern text.now pattern → ⊥)
        (IsPattern text.now) }
{
    if text.is_empty() {
        return None;
    }
    let last = text.len() - 1;
    if text[last] == ANY_END {
        read_front(&text[..last])
    } else {
        read_callsign(text)
    }
}

/// The pattern of what stands before a `*`.
fn read_front(front: &[u8]) -> Option<Pattern>
    ensures { MatchOption result
        ((pattern : Pattern) → IsPattern (front.now ++ codes "*") pattern → ⊥)
        (IsPattern (front.now ++ codes "*")) }
{
    if front.is_empty() {
        return Some(Pattern::Every);
    }
    if may_begin(front) {
        Some(Pattern::Begin(Letters::new(front)))
    } else {
        None
    }
}

/// Whether a callsign may begin with these bytes, of which there are some: they are a callsign,
/// or want only a letter behind them.
fn may_begin(front: &[u8]) -> bool
    requires { 0 < length front.now }
    ensures yes { result ≡ true → IsFront front.now }
    ensures no { result ≡ false → IsFront front.now → ⊥ }
{
    match ascii_text(front) {
        None => false,
        Some(text) => match encode(text) {
            Ok(_) => true,
            Err(refusal) => wants_a_letter(refusal),
        },
    }
}

/// Whether what is refused for this may become a callsign by a letter behind it.
fn wants_a_letter(refusal: CallRefusal) -> bool
    ensures { result ≡ is_unended refusal }
{
    match refusal {
        CallRefusal::Bare => true,
        CallRefusal::TrailingSpace => true,
        CallRefusal::Empty => false,
        CallRefusal::Long(_) => false,
        CallRefusal::Letter(_) => false,
    }
}

/// The pattern of a text without a `*` at its end.
fn read_callsign(text: &[u8]) -> Option<Pattern>
    requires some { 0 < length text.now }
    requires ends_otherwise { slice_index text.now (length text.now - 1) ≢ 42 }
    ensures { MatchOption result ((pattern : Pattern) → IsPattern text.now pattern → ⊥)
        (IsPattern text.now) }
{
    match ascii_text(text) {
        None => None,
        Some(plain) => match encode(plain) {
            Ok(call) => Some(Pattern::One(call)),
            Err(_) => None,
        },
    }
}

/// The same bytes as a text, wherever each is below 128.
pub(crate) fn ascii_text(bytes: &[u8]) -> Option<&str>
    ensures { MatchOption result (IsAscii bytes.now → ⊥) (λ text. text.now ≡ bytes.now) }
{
    match str::from_utf8(bytes) {
        Ok(text) => Some(text),
        Err(_) => None,
    }
}
