ghost use Rattle.std.specs.Prelude.{◌≡◌, ◌<◌, ◌≤◌, ◌-◌, ◌^◌, ℕ, true, slice_index, MatchOption, None};
ghost use Rattle.std.specs.List.{list_any};
ghost use Rattle.m17_directory.specs.Outcome.{has_place};
ghost use Rattle.m17_house.specs.Replay.{IsLeastFree};
ghost use Rattle.m17_house.specs.SoFar.{AreTaken, IsChoice};

use crate::run::MOST_PLACES;
use m17_directory::Directory;
use m17_values::Member;

// The least place that nobody has; none where each is had. `taken` marks those that are had.
fn free_place(directory: &Directory, places: u32, taken: &[bool; MOST_PLACES]) -> Option<u32>
    requires at_most { places ≤ 256 }
    requires taken { AreTaken taken.now directory.now.known None }
    ensures below { MatchOption result
        ((lower : ℕ) → lower < places → list_any (has_place lower) directory.now.known ≡ true)
        (λ place. (place < places) × IsLeastFree directory.now.known place) }
{
    let _directory = directory;
    for place in 0..places {
        if !taken[place as usize] {
            return Some(place);
        }
    }
    None
}

/// The member that a peer becomes which asks: of the least place that nobody has, and the next there; none where as many
/// are known as there are places. `given` is how often each place was given, and counts this one; `taken` marks the places
/// that are had, and this one.
pub(crate) fn choose(
    directory: &Directory,
    places: u32,
    given: &mut [u64; MOST_PLACES],
    taken: &mut [bool; MOST_PLACES],
) -> Option<Member>
    requires at_most { places ≤ 256 }
    requires taken { AreTaken taken.old directory.now.known None }
    requires room { (place : ℕ) → slice_index given.old place < 2 ^ 64 - 1 }
    ensures choice { IsChoice directory.now.known places given.old result given.new }
    ensures taken { AreTaken taken.new directory.now.known result }
{
    if directory.known() >= places {
        return None;
    }
    let place = free_place(directory, places, taken)?;
    let generation = given[place as usize];
    given[place as usize] = generation + 1;
    taken[place as usize] = true;
    Some(Member { place, generation })
}
