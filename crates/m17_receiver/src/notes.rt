//! The notes of departed members, told to the directory.
ghost use Rattle.std.specs.Prelude.{◌≡◌, ◌+◌, ◌-◌, ◌^◌, ◌⊎◌, ℕ, min, false, List, [], ◌∷◌, ◌++◌, length};
ghost use Rattle.m17_values.specs.declared.member.Member.{Member};
ghost use Rattle.m17_directory.specs.StandsFor.{must_wait};
ghost use Rattle.m17_receiver.specs.SoFar.{HasNoted, HasNotedSome};

use m17_directory::Directory;
use m17_lane::Popper;
use m17_values::Member;
use std::sync::Wait;

/// The most notes that are popped before an entry is heard.
const MOST_NOTES: u32 = 512;

// Tells the directory of a note, and counts it.
fn take_note(directory: &mut Directory, noted: &mut u64, member: Member)
    ensures { HasNoted (member ∷ []) (directory.old, noted.old) (directory.new, noted.new) }
{
    directory.noted(member);
    *noted = noted.saturating_add(1);
}

// Pops the notes that are there, up to a number, and tells the directory of each. `left` is the member of the last one.
pub(crate) fn pop_notes<R: Wait>(
    rt: &R,
    notes: &mut Popper<Member>,
    directory: &mut Directory,
    noted: &mut u64,
    left: &mut Option<Member>,
)
    ensures { HasNotedSome (notes.old, directory.old, noted.old) (notes.new, directory.new, noted.new) }
{
    'notes: for _note in 0..MOST_NOTES {
        // models/circle.pml: note-tried
        match notes.try_pop(rt) {
            Some(member) => {
                *left = Some(member);
                take_note(directory, noted, member)
            }
            None => return,
        }
    }
}

// Pops one note, and sleeps until there is one: whose leaving it tells of.
pub(crate) fn pop_one<R: Wait>(
    rt: &R,
    notes: &mut Popper<Member>,
    directory: &mut Directory,
    noted: &mut u64,
) -> Member
    ensures { HasNotedSome (notes.old, directory.old, noted.old) (notes.new, directory.new, noted.new) }
{
    // models/circle.pml: note-slept-for
    let member = notes.pop_waiting(rt);
    take_note(directory, noted, member);
    member
}

// Pops notes until the request that is asked needs to wait no more, asleep while there is none. `left` is the member of
// the last one that was popped.
pub(crate) fn pop_until_ready<R: Wait>(
    rt: &R,
    notes: &mut Popper<Member>,
    directory: &mut Directory,
    noted: &mut u64,
    left: &mut Option<Member>,
)
    ensures noted { HasNotedSome (notes.old, directory.old, noted.old) (notes.new, directory.new, noted.new) }
    ensures ready { must_wait directory.new ≡ false }
{
    for _ in rt.forever() {
        if !directory.waits() {
            return;
        }
        *left = Some(pop_one(rt, notes, directory, noted));
    }
    unreachable!()
}
