ghost use Rattle.std.specs.Prelude.{◌≡◌, ◌↔◌, IsSome, IfSome};

use std::marker::Model;

/// The letter of a module, A to Z. Contracts see its byte, 65 to 90.
#[derive(Clone, Copy, Debug, PartialEq, Eq, PartialOrd, Ord)]
pub struct ModuleLetter(u8);

impl Model for ModuleLetter {
    ghost use Rattle.std.specs.Prelude.{ℕ, ◌≤◌};

    ghost Value = { ℕ };

    ghost view = { λ m. m.0 };

    ghost invariant = { λ m. (65 ≤ m.0) × (m.0 ≤ 90) };

    ghost inverse = { λ n. record { 0 = n } };
}

impl ModuleLetter {
    ghost use Rattle.m17_control.specs.Forms.{IsModule};

    /// The module with this letter; none for a byte that is not A to Z, as for a small letter.
    #[inline]
    pub fn new(byte: u8) -> Option<ModuleLetter>
        ensures in_range { IsSome result ↔ IsModule byte }
        ensures same { IfSome result (λ letter. letter ≡ byte) }
    {
        if byte.is_ascii_uppercase() {
            Some(ModuleLetter(byte))
        } else {
            None
        }
    }

    /// The letter of the module, A to Z.
    #[inline]
    pub fn byte(self) -> u8
        ensures same { result ≡ self }
        ensures in_range { IsModule result }
    {
        self.0
    }
}
