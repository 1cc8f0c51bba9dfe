//! The letters of the modules, in order, and vectors with room.
ghost use Rattle.std.specs.Prelude.{◌≡◌, ◌≤◌, [], All, IfOk, vec_capacity};
ghost use Rattle.m17_control.specs.Forms.{IsModule};
ghost use Rattle.m17_control.specs.Modules.{letters_of};

use m17_control::Modules;
use m17_values::NoMemory;
use std::alloc::Global;

// An empty vector with room for `count` items.
pub(crate) fn room<T>(alloc: Global, count: usize) -> Result<Vec<T>, NoMemory>
    ensures empty { IfOk result (λ v. v.items ≡ []) }
    ensures room { IfOk result (λ v. count ≤ vec_capacity v) }
{
    match Vec::with_capacity(alloc, count) {
        Ok(empty) => Ok(empty),
        Err(_) => Err(NoMemory),
    }
}

// The letters of the modules, in order.
pub(crate) fn served_letters(alloc: Global, modules: Modules) -> Result<Vec<u8>, NoMemory>
    ensures letters { IfOk result (λ letters. letters.items ≡ letters_of modules) }
    ensures each { IfOk result (λ letters. All IsModule letters.items) }
{
    let mut letters = room(alloc, 26)?;
    for letter in b'A'..b'Z' + 1 {
        if modules.has(letter) {
            letters.push_reserved(letter);
        }
    }
    Ok(letters)
}
