ghost use Rattle.std.specs.Prelude.{◌≡◌, ◌≤◌, ◌<◌, ◌^◌, ◌↔◌, ℕ, List, All, IsTrue, IfSome, IfNone, Option, option_map};
ghost use Rattle.m17_callsign.specs.Callsign.{IsCallsignOf};
ghost use Rattle.m17_values.specs.declared.peer.Peer.{Peer};
ghost use Rattle.m17_control.specs.declared.modules.Modules.{Modules};
ghost use Rattle.m17_control.specs.Modules.{serves};
ghost use Rattle.m17_peer.specs.Text.{IsTextOf};
ghost use Rattle.m17_words.specs.Values.{IsLimit, IsNumber, IsNumberIfAny, IsPace, NamesLetter, NamesModules, NamesParrots};

use m17_callsign::{CallAddress, encode};
use m17_control::{ModuleLetter, Modules};
use m17_values::Peer;

/// For how many seconds a stream may be let go on at the most, where there is a limit on talking.
const LIMIT_SECONDS_MAX: u64 = 86_400;

/// The most frames in any second for one peer, where there is such a bound.
const PACE_MAX: u64 = 100_000;

// The number that a text of decimal digits writes, where it is within these bounds.
pub(crate) fn number(text: &str, least: u64, most: u64) -> Option<u64>
    ensures some { IfSome result (IsNumber least most text.now) }
    ensures none { IfNone result ((n : ℕ) → ¬ IsNumber least most text.now n) }
{
    if matches!(text.as_bytes(), [b'+', ..]) {
        return None;
    }
    match text.parse::<u64>() {
        Ok(n) if least <= n && n <= most => Some(n),
        Ok(_) => None,
        Err(_) => None,
    }
}

// The number of a text, where there is one: none is a value too, and so the answer is a number that may be missing, or
// nothing where the text is no such number.
pub(crate) fn number_if_any(text: Option<&str>, least: u64, most: u64) -> Option<Option<u64>>
    ensures some { IfSome result (IsNumberIfAny least most (option_map (λ s. s.now) text.entry)) }
    ensures none { IfNone result ((n : Option ℕ)
        → ¬ IsNumberIfAny least most (option_map (λ s. s.now) text.entry) n) }
{
    match text {
        None => Some(None),
        Some(text) => match number(text, least, most) {
            Some(n) => Some(Some(n)),
            None => None,
        },
    }
}

// The limit on talking, in milliseconds, of a text of seconds.
pub(crate) fn limit(text: &str) -> Option<u64>
    ensures some { IfSome result (IsLimit text.now) }
    ensures none { IfNone result ((limit : ℕ) → ¬ IsLimit text.now limit) }
{
    match number(text, 0, LIMIT_SECONDS_MAX) {
        Some(seconds) => Some(1000 * seconds),
        None => None,
    }
}

// How many frames in any second one peer is sent at the most, of a text.
pub(crate) fn pace(text: &str) -> Option<u32>
    ensures some { IfSome result (IsPace text.now) }
    ensures none { IfNone result ((pace : ℕ) → ¬ IsPace text.now pace) }
{
    match number(text, 0, PACE_MAX) {
        Some(frames) => Some(frames as u32),
        None => None,
    }
}

// The address of a callsign.
pub(crate) fn call(text: &str) -> Option<CallAddress>
    ensures some { IfSome result (IsCallsignOf text.now) }
    ensures none { IfNone result ((a : ℕ) → ¬ IsCallsignOf text.now a) }
{
    match encode(text) {
        Ok(address) => CallAddress::new(address),
        Err(_) => None,
    }
}

// The letter of the module that a text is.
pub(crate) fn letter(text: &str) -> Option<ModuleLetter>
    ensures some { IfSome result (NamesLetter text.now) }
    ensures none { IfNone result ((m : ℕ) → ¬ NamesLetter text.now m) }
{
    match text.as_bytes() {
        [byte] => ModuleLetter::new(*byte),
        _ => None,
    }
}

// The peer whose text this is.
pub(crate) fn peer(text: &str) -> Option<Peer>
    ensures some { IfSome result (λ p. IsTextOf p text.now) }
    ensures none { IfNone result ((p : Peer) → ¬ IsTextOf p text.now) }
{
    m17_peer::read(text)
}

// The modules that a text names.
pub(crate) fn modules(text: &str) -> Option<Modules>
    ensures some { IfSome result (NamesModules text.now) }
    ensures none { IfNone result ((m : Modules) → ¬ NamesModules text.now m) }
{
    match Modules::read(text) {
        Ok(modules) => Some(modules),
        Err(_) => None,
    }
}

// The parrots that a text names, all of them among the modules.
pub(crate) fn parrots(text: Option<&str>, modules: &Modules) -> Option<Modules>
    ensures some { IfSome result (NamesParrots (option_map (λ s. s.now) text.entry) modules.now) }
    ensures none { IfNone result ((p : Modules)
        → ¬ NamesParrots (option_map (λ s. s.now) text.entry) modules.now p) }
{
    match text {
        None => Some(Modules::none()),
        Some(text) if are_among(text, modules) => self::modules(text),
        Some(_) => None,
    }
}

// Whether each letter of a text is among the modules.
fn are_among(text: &str, modules: &Modules) -> bool
    ensures { IsTrue result ↔ All (λ letter. IsTrue (serves modules.now letter)) text.now }
{
    text.as_bytes().iter().all(|letter| modules.has(*letter))
}
