ghost use Rattle.std.specs.Prelude.{◌≡◌, ◌+◌, ◌<◌, ◌≤◌, ◌++◌, length, map};
ghost use Rattle.m17_module.specs.Seats.{members_of, others_than};
ghost use Rattle.m17_module.specs.Items.{item_to, to_one};
ghost use Rattle.m17_module.specs.Held.{held_from, to_other};

use crate::Seat;
use crate::basket::Tray;
use m17_control::{Item, Said};
use m17_values::Member;

// What is said to a member goes to the peer and the link of its Join.
#[inline]
pub(crate) fn item_for(seat: &Seat, what: &Said) -> Item
    ensures { result ≡ item_to what.now seat.now }
{
    Item {
        member: seat.member,
        link: seat.link,
        peer: seat.peer,
        body: *what,
    }
}

// Says this to who is in at a place, if anybody is.
#[inline]
pub(crate) fn tell(seat: &Option<Seat>, what: &Said, out: &mut Tray)
    requires { length out.old < 520 }
    ensures { out.new ≡ out.old ++ to_one what.now seat.now }
{
    let Some(seat) = seat else {
        return;
    };
    out.put(&item_for(seat, what));
}

// Says this to who is in at a place, if anybody but this member is.
#[inline]
pub(crate) fn tell_other(seat: &Option<Seat>, k: Member, what: &Said, out: &mut Tray)
    requires { length out.old < 520 }
    ensures { out.new ≡ out.old ++ to_other k what.now seat.now }
{
    let Some(seat) = seat else {
        return;
    };
    if seat.member == k {
        return;
    }
    out.put(&item_for(seat, what));
}

// Says the same to each member, in order of place.
pub(crate) fn tell_all(seats: &[Option<Seat>], held: &[u32], what: &Said, out: &mut Tray)
    requires held { held.now ≡ held_from 0 seats.now }
    requires room { length out.old + length seats.now ≤ 520 }
    ensures told { out.new ≡ out.old ++ map (item_to what.now) (members_of seats.now) }
{
    for place in held {
        tell(&seats[*place as usize], what, out);
    }
}

// Says the same to each member but this one, in order of place.
pub(crate) fn tell_others(
    seats: &[Option<Seat>],
    held: &[u32],
    k: Member,
    what: &Said,
    out: &mut Tray,
)
    requires held { held.now ≡ held_from 0 seats.now }
    requires room { length out.old + length seats.now ≤ 520 }
    ensures told { out.new ≡ out.old ++ map (item_to what.now) (others_than k seats.now) }
{
    for place in held {
        tell_other(&seats[*place as usize], k, what, out);
    }
}
