//! The letters of a plan's modules, in order.
ghost use Rattle.std.specs.Prelude.{◌≡◌, All, IfOk};
ghost use Rattle.m17_control.specs.Forms.{IsModule};
ghost use Rattle.m17_control.specs.Modules.{letters_of};

use crate::vectors::room;
use m17_control::Modules;
use m17_values::NoMemory;
use std::alloc::Global;

/// The letters of the modules, in order.
pub(crate) fn served_letters(alloc: Global, modules: Modules) -> Result<Vec<u8>, NoMemory>
    ensures letters { IfOk result (λ letters. letters.items ≡ letters_of modules) }
    ensures each { IfOk result (λ letters. All IsModule letters.items) }
{
    let mut letters = room(alloc, 26)?;
    for letter in b'A'..b'Z' + 1 {
        if modules.has(letter) {
            letters.push_reserved(letter);
        }
    }
    Ok(letters)
}
