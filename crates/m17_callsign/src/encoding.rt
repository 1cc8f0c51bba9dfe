ghost use Rattle.std.specs.Prelude.{◌≡◌, ◌≢◌, ◌<◌, ◌≤◌, ◌^◌, ◌↔◌, ◌∷◌, ℕ, length, slice_index, Ok, Err, All, IfOk, IfErr, MatchResult};
ghost use Rattle.m17_callsign.specs.Callsign.{IsCallsignOf, IsRefused, HasCallsign, IsLetter, sum_of, group_sign};
ghost use Rattle.m17_callsign.specs.declared.refusal.CallRefusal.{CallRefusal};

use super::call_address::END_OF_CALLSIGNS;
use super::letters::{BASE, GROUP_SIGN, MAX_LETTERS, letter_index};
use super::refusal::CallRefusal;
use m17_values::Address;

/// The address of a callsign, of a station or of a group, or the first reason why the text is none: it is empty, it is
/// too long, its first byte that is no letter, a `#` alone, a space at its end. The first letter counts least. M17
/// Protocol Specification, address encoding.
pub fn encode(text: &str) -> Result<Address, CallRefusal>
    ensures ok { (a : ℕ) → (result ≡ Ok a) ↔ IsCallsignOf text.now a }
    ensures in_range { IfOk result HasCallsign }
    ensures err { (refusal : CallRefusal) → (result ≡ Err refusal) ↔ IsRefused text.now refusal }
{
    encode_bytes(text.as_bytes())
}

/// The address, or the first reason, whichever comes.
fn encode_bytes(text: &[u8]) -> Result<Address, CallRefusal>
    ensures { MatchResult result (IsCallsignOf text.now) (IsRefused text.now) }
{
    if text.is_empty() {
        return Err(CallRefusal::Empty);
    }
    if text.len() > MAX_LETTERS {
        return Err(CallRefusal::Long(text.len()));
    }
    if text[0] == GROUP_SIGN {
        encode_group(&text[1..])
    } else {
        encode_station(text)
    }
}

/// The address of the callsign of a station: the sum of its letters.
fn encode_station(text: &[u8]) -> Result<Address, CallRefusal>
    requires some { 0 < length text.now }
    requires short { length text.now ≤ 9 }
    requires plain { slice_index text.now 0 ≢ group_sign }
    ensures { MatchResult result (IsCallsignOf text.now) (IsRefused text.now) }
{
    let sum = match sum_of_letters(text) {
        Ok(sum) => sum,
        Err(place) => return Err(CallRefusal::Letter(place)),
    };
    if text[text.len() - 1] == b' ' {
        return Err(CallRefusal::TrailingSpace);
    }
    Ok(Address::new(sum).unwrap())
}

/// The address of a group with these letters after its `#`: 40^9 and the sum of its letters.
fn encode_group(letters: &[u8]) -> Result<Address, CallRefusal>
    requires { length letters.now ≤ 8 }
    ensures { MatchResult result (IsCallsignOf (group_sign ∷ letters.now)) (IsRefused (group_sign ∷
        letters.now)) }
{
    if letters.is_empty() {
        return Err(CallRefusal::Bare);
    }
    let sum = match sum_of_letters(letters) {
        Ok(sum) => sum,
        Err(place) => return Err(CallRefusal::Letter(place + 1)),
    };
    if letters[letters.len() - 1] == b' ' {
        return Err(CallRefusal::TrailingSpace);
    }
    Ok(Address::new(END_OF_CALLSIGNS + sum).unwrap())
}

/// The sum over all letters, the first of which counts least; or the place of the first byte that is no letter.
fn sum_of_letters(letters: &[u8]) -> Result<u64, usize>
    requires { length letters.now ≤ 9 }
    ensures within { IfOk result (λ sum. sum < 40 ^ length letters.now) }
    ensures sum { IfOk result (λ sum. sum ≡ sum_of letters.now) }
    ensures letters { IfOk result (λ _. All IsLetter letters.now) }
    ensures within_text { IfErr result (λ place. place < length letters.now) }
    ensures unknown { IfErr result (λ place. IsLetter (slice_index letters.now place) → ⊥) }
    ensures first { IfErr result (λ place. (k : ℕ) → k < place → IsLetter (slice_index letters.now
        k)) }
{
    let mut value = 0;
    let mut unknown = None;
    for place in (0..letters.len()).rev() {
        match letter_index(letters[place]) {
            Some(index) => value = value * BASE + index,
            None => unknown = Some(place),
        }
    }
    match unknown {
        Some(place) => Err(place),
        None => Ok(value),
    }
}
