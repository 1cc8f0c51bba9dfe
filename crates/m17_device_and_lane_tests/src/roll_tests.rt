ghost use Rattle.std.specs.Prelude.{◌≡◌, ◌<◌, ◌≤◌, ◌++◌, ◌∷◌, [], ℕ, length};
ghost use Rattle.m17_roll.specs.Seat.{IsSeatOf, IsSameSeat, HasLists};
ghost use Rattle.m17_roll.specs.Closing.{IsEnded};

use crate::bench::must;
use m17_roll::{RollEnd, RollSeat, close, make};
use m17_values::Member;
use std::alloc::Global;
use std::process::Abort;
use std::snapshot::Snapshot;
use std::sync::Wait;
use std::thread;
use std::thread::{Promise, Threads, yield_now};

// The seats of a roll of two.
fn two_seats<R: Abort>(rt: &R, alloc: Global, places: u32) -> (RollSeat, RollSeat)
    requires { (0 < places) × (places ≤ 256) }
    ensures { IsSeatOf result.0.roll 2 places result.0 × IsSeatOf result.0.roll 2 places result.1 }
{
    let mut seats = must(rt, make(alloc, places, 2));
    let Some(second) = seats.pop() else {
        unreachable!()
    };
    let Some(first) = seats.pop() else {
        unreachable!()
    };
    (first, second)
}

// Ends a roll of two seats.
fn close_both<R: Abort>(rt: &R, alloc: Global, first: RollSeat, second: RollSeat) -> RollEnd
    requires { IsSeatOf first.roll 2 first.places second × (first.seats ≡ 2) }
    ensures ended { IsEnded result }
    ensures places { length result.words ≡ first.places }
{
    let mut seats = must(rt, Vec::with_capacity(alloc, 2));
    seats.push_reserved(first);
    seats.push_reserved(second);
    close(seats)
}

fn member(place: u32, generation: u64) -> Member {
    Member { place, generation }
}

#[test]
fn a_place_goes_from_seat_to_seat(rt: HostRuntime) {
    let (mut first, mut second) = two_seats(&rt, rt.alloc(), 1);
    let claimed = [first.claim(0), second.claim(0)];
    give_until_taken(&rt, &mut first, member(0, 0));
    let again = first.give(member(0, 0));
    let next = second.claim(0);
    let words = [first.look(0), first.look(1)];
    let mut end = close_both(&rt, rt.alloc(), first, second);
    let word = end.word(0);
    assert!(rt; claimed == [Some(member(0, 0)), None] && !again);
    assert!(rt; next == Some(member(0, 1)) && words == [Some(3), None] && word == 3);
}

// Whether the first 256 claims of a seat get the places in turn.
fn claims_in_turn(seat: &mut RollSeat) -> bool {
    for place in 0..256 {
        if seat.claim(7) != Some(member(place, 0)) {
            return false;
        }
    }
    true
}

#[test]
fn the_lowest_free_place_is_claimed(rt: HostRuntime) {
    let (mut first, mut second) = two_seats(&rt, rt.alloc(), 256);
    let in_turn = claims_in_turn(&mut first);
    let none = second.claim(7);
    let words = [second.look(255), second.look(256), second.look(u32::MAX)];
    let given = [second.give(member(255, 0)), second.give(member(3, 0))];
    let next = first.claim(7);
    assert!(rt; in_turn && none.is_none() && words == [Some(1), None, None]);
    assert!(rt; given == [true, true] && next == Some(member(3, 1)));
}

#[test]
fn one_place_is_claimed_alone(rt: HostRuntime) {
    let (mut first, mut second) = two_seats(&rt, rt.alloc(), 2);
    let claimed = [first.claim_at(1), second.claim_at(1)];
    let word = second.look(0);
    let given = first.give(member(1, 0));
    let next = [
        second.claim_at(1),
        second.claim_at(2),
        second.claim_at(u32::MAX),
        first.claim(5),
    ];
    assert!(rt; claimed == [Some(member(1, 0)), None] && word == Some(0) && given);
    assert!(rt; next == [Some(member(1, 1)), None, None, Some(member(0, 0))]);
}

#[test]
fn no_place_comes_to_its_last_generations(rt: HostRuntime) {
    let (mut first, _) = two_seats(&rt, rt.alloc(), 2);
    let claimed = first.claim(0);
    let most = 1 << 63;
    for (place, generation) in [
        (0, 1),
        (0, most - 2),
        (0, most - 1),
        (0, most),
        (0, u64::MAX),
        (1, 0),
        (2, 0),
        (u32::MAX, 0),
    ] {
        assert!(rt; !first.give(member(place, generation)));
    }
    let words = [first.look(0), first.look(1)];
    assert!(rt; claimed == Some(member(0, 0)) && words == [Some(1), Some(0)]);
}

// What a thread has after its rounds.
#[derive(Drop)]
struct Played {
    seat: RollSeat,
    members: Vec<Member>,
}

// The seat that comes back is the one that was handed over.
#[derive(Drop)]
struct SameSeat(Snapshot<RollSeat>);

impl Promise<Played> for SameSeat {
    ghost kept_by = { λ p r. IsSameSeat p.0.value r.seat };
}

// Claims until there is a member.
fn claim_one<R: Wait>(rt: &R, seat: &mut RollSeat) -> Member
    ensures { IsSameSeat seat.old seat.new }
{
    for _ in rt.forever() {
        if let Some(member) = seat.claim(1) {
            return member;
        }
        yield_now();
    }
    unreachable!()
}

// So many times, claims until there is a member, notes it, and gives it back.
fn play<R: Wait>(rt: &R, mut seat: RollSeat, mut members: Vec<Member>, rounds: u32) -> Played
    ensures { IsSameSeat seat result.seat }
{
    for _ in 0..rounds {
        let member = claim_one(rt, &mut seat);
        let noted = members.push(member).is_ok();
        if !seat.give(member) || !noted {
            break;
        }
    }
    Played { seat, members }
}

// Gives the member back, and tries again where that was refused. The seat claims nothing meanwhile, and refuses nobody.
fn give_until_taken<R: Wait>(rt: &R, seat: &mut RollSeat, member: Member)
    ensures seat { IsSameSeat seat.old seat.new }
    ensures lists { HasLists seat.old.claimed (seat.old.given ++ member ∷ []) seat.old.refused
        seat.new }
{
    for _ in rt.forever() {
        if seat.give(member) {
            return;
        }
        yield_now();
    }
    unreachable!()
}

// Whether no member stands twice.
fn are_distinct<R: Abort>(rt: &R, mut members: Vec<Member>) -> bool {
    must(rt, members.sort_by_key(|m| (m.place, m.generation)));
    let members = members.as_slice();
    for i in 1..members.len() {
        if members[i - 1] == members[i] {
            return false;
        }
    }
    true
}

// Two threads play 1,000 rounds each with a seat of its own.
fn played_by_two<R: Threads + Wait + Abort + Copy + Send + 'static>(
    rt: &R,
    alloc: Global,
    first: RollSeat,
    second: RollSeat,
) -> (Played, Played)
    ensures { IsSameSeat first result.0.seat × IsSameSeat second result.1.seat }
{
    let here = *rt;
    let seat = SameSeat(Snapshot::of(&first));
    let none = Vec::new(alloc);
    let one = thread::spawn_with(rt, seat, move || play(&here, first, none, 1000));
    let one = must(rt, one);
    let seat = SameSeat(Snapshot::of(&second));
    let none = Vec::new(alloc);
    let two = thread::spawn_with(rt, seat, move || play(&here, second, none, 1000));
    let two = must(rt, two);
    (one.join(rt), two.join(rt))
}

// Whether 1,000 and 1,000 members are all different.
fn are_two_thousand<R: Abort>(rt: &R, mut one: Vec<Member>, two: &[Member]) -> bool {
    if one.len() != 1000 || two.len() != 1000 {
        return false;
    }
    must(rt, one.extend_from_slice(two));
    are_distinct(rt, one)
}

#[test]
fn two_threads_get_each_member_once(rt: HostRuntime) {
    let alloc = rt.alloc();
    let (first, second) = two_seats(&rt, alloc, 2);
    let (one, two) = played_by_two(&rt, alloc, first, second);
    let Played {
        seat: mut first,
        members,
    } = one;
    let distinct = are_two_thousand(&rt, members, two.members.as_slice());
    let words = [first.look(0), first.look(1)].map(|word| word.map(|word| word % 2));
    let mut end = close_both(&rt, alloc, first, two.seat);
    let ends = [end.word(0), end.word(1)];
    assert!(rt; distinct && words == [Some(0), Some(0)]);
    assert!(rt; ends[0] % 2 == 0 && ends[0].wrapping_add(ends[1]) == 4000);
}

// All members of those who played.
fn all_members<R: Abort>(rt: &R, alloc: Global, played: &[Played]) -> Vec<Member> {
    let mut members = Vec::new(alloc);
    for one in played {
        must(rt, members.extend_from_slice(one.members.as_slice()));
    }
    members
}

#[test]
fn four_threads_share_eight_places(rt: HostRuntime) {
    let alloc = rt.alloc();
    let seats = must(&rt, make(alloc, 8, 4));
    let played = thread::map_vec(
        &rt,
        seats,
        &|seat| { play(&rt, seat, Vec::new(alloc), 500) },
    );
    let played = must(&rt, played);
    let members = all_members(&rt, alloc, played.as_slice());
    assert!(rt; members.len() == 2000 && are_distinct(&rt, members));
}
