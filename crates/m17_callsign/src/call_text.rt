ghost use Rattle.std.specs.Prelude.{◌≡◌, ◌≤◌, ◌<◌, ◌+◌, ◌-◌, ◌^◌, ◌++◌, ◌↔◌, ℕ, List, Some, IsNone, length};
ghost use Rattle.m17_callsign.specs.Callsign.{IsCallsignOf, HasCallsign};
ghost use Rattle.m17_callsign.specs.Letters.{callsign_of, letters_of};

use super::call_address::{CallAddress, END_OF_CALLSIGNS};
use super::letters::{BASE, GROUP_SIGN, MAX_LETTERS, letter_at};
use arrayvec::ArrayString;
use m17_values::Address;
use std::marker::Model;

/// A callsign as text: up to 9 letters, or the `#` of a group and up to 8 letters. Contracts see its bytes. M17
/// Protocol Specification, address encoding.
#[derive(Debug, Drop)]
pub struct CallText(ArrayString<MAX_LETTERS>);

impl Model for CallText {
    ghost use Rattle.std.specs.Prelude.{ℕ, List};

    ghost Value = { List ℕ };

    ghost view = { λ t. t.0.bytes };
}

impl CallText {
    ghost use Rattle.std.specs.Prelude.{length};

    /// The letters. M17 Protocol Specification, address encoding.
    pub fn as_str(&self) -> &str
        ensures text { result.now ≡ self.now }
        ensures short { length result.now ≤ 9 }
    {
        self.0.as_str()
    }
}

/// The callsign of an address, the first letter counting least, with a `#` before the letters of a group; none for 0,
/// for 40^9, and for 40^9 + 40^8 and above. M17 Protocol Specification, address encoding.
pub fn text(a: Address) -> Option<CallText>
    ensures some { (t : List ℕ) → (result ≡ Some t) ↔ IsCallsignOf t a }
    ensures letters { result ≡ callsign_of a }
    ensures none { IsNone result ↔ (HasCallsign a → ⊥) }
{
    CallAddress::new(a)?;
    let value = a.value();
    let mut text = ArrayString::new();
    if value < END_OF_CALLSIGNS {
        push_letters(&mut text, value);
    } else {
        text.push(char::from(GROUP_SIGN));
        push_letters(&mut text, value - END_OF_CALLSIGNS);
    }
    Some(CallText(text))
}

/// Appends the letters whose sum this is, the first counting least.
fn push_letters(text: &mut ArrayString<MAX_LETTERS>, sum: u64)
    requires { sum < 40 ^ (9 - length text.old.bytes) }
    ensures { text.new.bytes ≡ text.old.bytes ++ letters_of (9 - length text.old.bytes) sum }
{
    let mut rest = sum;
    while rest > 0 {
        text.push(char::from(letter_at(rest % BASE)));
        rest /= BASE;
    }
}
