//! What a receiver keeps of its verdicts.
ghost use Rattle.std.specs.Prelude.{◌≡◌, length, slice_set, vec_len, Some};

use m17_directory::LinkVerdict;

// Puts the verdict of the entry with this index into its cell, if it has one.
pub(crate) fn fill_tape(tape: &mut Vec<Option<LinkVerdict>>, index: u64, verdict: LinkVerdict)
    ensures { tape.new.items ≡ slice_set tape.old.items index (Some verdict) }
{
    if index < tape.len() as u64 {
        tape[index as usize] = Some(verdict);
    }
}
