//! Claims of places for those who ask.
ghost use Rattle.std.specs.Prelude.{◌≡◌, ◌≢◌, ◌+◌, ◌*◌, ◌<◌, ◌↔◌, ℕ, true, false, List, [], ◌∷◌, ◌++◌, length, IfSome, None, Some};
ghost use Rattle.m17_directory.specs.declared.known.Known.{Known};
ghost use Rattle.m17_roll.specs.Seat.{HasLists, IsSameSeat, RollView};
ghost use Rattle.m17_receiver.specs.Claims.{HasSeenLeft};
ghost use Rattle.m17_receiver.specs.SoFar.{HasTaken, HasNotedSome};

use crate::notes::pop_one;
use crossbeam_utils::Backoff;
use m17_directory::Directory;
use m17_lane::Popper;
use m17_roll::RollSeat;
use m17_values::Member;
use std::sync::Wait;

// Claims once for the asker with this number, behind the member whose leaving was noted last: its place is free by then.
pub(crate) fn claim_behind<R: Wait>(
    rt: &R,
    seat: &mut RollSeat,
    left: Option<Member>,
    asker: u64,
) -> Option<Member>
    ensures taken { (known : List Known) → HasTaken false asker result known seat.old seat.new }
    // It had seen that the place is that member's no more, where there is one, and else it looked at nothing before.
    ensures behind { (looked : RollView) × (IfSome left (λ member. HasSeenLeft member looked))
        × (left ≡ None → looked ≡ seat.old)
        × ((known : List Known) → HasTaken false asker result known looked seat.new) }
{
    look_behind(rt, seat, left);
    claim_once(seat, asker)
}

// Looks until the place of this member is free, if there is one.
fn look_behind<R: Wait>(rt: &R, seat: &mut RollSeat, left: Option<Member>)
    ensures lists { HasLists seat.old.claimed seat.old.given seat.old.refused seat.new }
    ensures seat { IsSameSeat seat.old seat.new }
    ensures freed { IfSome left (λ member. HasSeenLeft member seat.new) }
    ensures unlooked { left ≡ None → seat.new ≡ seat.old }
{
    match left {
        Some(member) => look_until_free(rt, seat, member),
        None => {}
    }
}

// Looks at the place of a member that has left until it was given back. Its worker does that as the next step behind the
// Bye, of which the note came; so who changes its module on a full reflector is not turned away for its own old place.
fn look_until_free<R: Wait>(rt: &R, seat: &mut RollSeat, left: Member)
    ensures lists { HasLists seat.old.claimed seat.old.given seat.old.refused seat.new }
    ensures seat { IsSameSeat seat.old seat.new }
    ensures freed { HasSeenLeft left seat.new }
{
    let backoff = Backoff::new();
    for _ in rt.forever() {
        // models/circle.pml: old-place-looked-at
        if !is_there(seat, left) {
            return;
        }
        backoff.snooze();
    }
    unreachable!()
}

// Looks once at the place of a member: whether it has it still.
fn is_there(seat: &mut RollSeat, member: Member) -> bool
    ensures lists { HasLists seat.old.claimed seat.old.given seat.old.refused seat.new }
    ensures seat { IsSameSeat seat.old seat.new }
    ensures freed { result ≡ false → HasSeenLeft member seat.new }
{
    match seat.look(member.place) {
        Some(word) => is_of(word, member.generation),
        None => false,
    }
}

// Whether it is the word of a place that this generation has.
fn is_of(word: u64, generation: u64) -> bool
    ensures { result ≡ false → word ≢ 2 * generation + 1 }
{
    word % 2 == 1 && word / 2 == generation
}

// Claims once for the asker with this number.
fn claim_once(seat: &mut RollSeat, asker: u64) -> Option<Member>
    ensures { (known : List Known) → HasTaken false asker result known seat.old seat.new }
{
    // models/circle.pml: claimed-once
    seat.claim(asker)
}

// Claims until there is a place, and none that a known peer has: that peer would leave as replaced, though it is still
// there. Between two claims it sleeps on the notes while one is to come, since a place that a member of this link has
// left is free soon after its note; else no bell tells when a place is given back, and it rests a moment. It is the one
// wait that tries again and again.
pub(crate) fn claim_patiently<R: Wait>(
    rt: &R,
    seat: &mut RollSeat,
    places: u32,
    notes: &mut Popper<Member>,
    directory: &mut Directory,
    noted: &mut u64,
) -> Member
    ensures taken { (asker : ℕ) →
        HasTaken true asker (Some result) directory.old.known seat.old seat.new }
    ensures noted { HasNotedSome (notes.old, directory.old, noted.old)
        (notes.new, directory.new, noted.new) }
{
    let backoff = Backoff::new();
    for _ in rt.forever() {
        if let Some(member) = claim_unknown_place(seat, places, directory) {
            return member;
        }
        rest(rt, &backoff, notes, directory, noted);
    }
    unreachable!()
}

// Claims the lowest of these places that no known peer has and that is found free.
fn claim_unknown_place(seat: &mut RollSeat, places: u32, directory: &Directory) -> Option<Member>
    ensures { (asker : ℕ) →
        HasTaken true asker result directory.now.known seat.old seat.new }
{
    for place in 0..places {
        // models/circle.pml: known-passed-over
        if !directory.has_place(place) {
            // models/circle.pml: place-tried
            if let Some(member) = seat.claim_at(place) {
                return Some(member);
            }
        }
    }
    None
}

// Sleeps until the next note, where a member is departing; else rests a moment.
fn rest<R: Wait>(
    rt: &R,
    backoff: &Backoff,
    notes: &mut Popper<Member>,
    directory: &mut Directory,
    noted: &mut u64,
)
    ensures { HasNotedSome (notes.old, directory.old, noted.old)
        (notes.new, directory.new, noted.new) }
{
    if directory.has_departing() {
        // models/circle.pml: note-awaited-for-place
        let _ = pop_one(rt, notes, directory, noted);
    } else {
        // models/circle.pml: rested-for-place
        backoff.snooze();
    }
}
