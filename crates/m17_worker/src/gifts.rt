//! What an event gave, handed out: offered to the queues, and the places of those that left given back.
ghost use Rattle.std.specs.Prelude.{◌≡◌, ◌<◌, ◌∷◌, [], filter, length, slice_get, Contains, Option, IfSome, IsSomeAnd};
ghost use Rattle.std.specs.Option.{option_to_list};
ghost use Rattle.std.specs.List.{All};
ghost use Rattle.m17_control.specs.declared.item.Item.{Item};
ghost use Rattle.m17_worker.specs.Offers.{AreOffered, IsQueue};
ghost use Rattle.m17_worker.specs.Gifts.{GaveBack, gifts_by, is_bye};

use crate::LaneOffers;
use crossbeam_utils::Backoff;
use m17_control::{Item, Said};
use m17_module::Basket;
use m17_roll::RollSeat;
use std::sync::Wait;

// Hands out what is in the basket, in order. Each Bye is followed by giving its member's place back, where `gives` says
// so. The answer is the Bye, where there is one and no other.
pub(crate) fn hand_out<R: Wait>(
    rt: &R,
    basket: &mut Basket,
    offers: &mut LaneOffers,
    seat: &mut RollSeat,
    gives: bool,
) -> Option<Item>
    requires queues { All IsQueue offers.old.queues.items }
    requires places { All (λ item. item.member.place < length offers.old.queues.items)
        basket.old }
    ensures offered { AreOffered basket.old offers.old offers.new }
    ensures gave_back { GaveBack seat.old (gifts_by gives basket.old) seat.new }
    ensures bye { (bye : Option Item) → filter is_bye basket.old ≡ option_to_list bye →
        result ≡ bye }
    ensures place { IfSome result (λ item. item.member.place < length offers.old.queues.items) }
    ensures empty { basket.new ≡ [] }
{
    m17_lane::rows_laws::rows_grow::<Item>();
    let mut bye = None;
    while let Some(item) = basket.take() {
        hand_over(rt, &item, offers, seat, gives);
        if is_farewell(&item) {
            bye = Some(item);
        }
    }
    bye
}

// Offers an item, and then, where it is a Bye and `gives` says so, gives its member's place back.
fn hand_over<R: Wait>(
    rt: &R,
    item: &Item,
    offers: &mut LaneOffers,
    seat: &mut RollSeat,
    gives: bool,
)
    requires queue { IsSomeAnd (slice_get offers.old.queues.items item.now.member.place) IsQueue }
    ensures offered { AreOffered (item.now ∷ []) offers.old offers.new }
    ensures gave_back { GaveBack seat.old (gifts_by gives (item.now ∷ [])) seat.new }
{
    m17_lane::rows_laws::rows_grow::<Item>();
    // models/circle.pml: item-offered
    let _ = offers.offer(rt, *item);
    if gives && is_farewell(item) {
        give_back(rt, offers, seat, item);
    }
}

// Gives the place of the member back to whom this was said, again until the roll takes it. It rests between the tries.
// It is handed the queues because the Bye has to stand in one of them first.
fn give_back<R: Wait>(rt: &R, offers: &LaneOffers, seat: &mut RollSeat, bye: &Item)
    requires said { IsSomeAnd (slice_get offers.now.queues.items bye.now.member.place)
        (λ q. Contains q.pushed bye.now) }
    ensures { GaveBack seat.old (bye.now.member ∷ []) seat.new }
{
    let _ = offers;
    let backoff = Backoff::new();
    for _ in rt.forever() {
        // models/circle.pml: place-given-back
        if seat.give(bye.member) {
            return;
        }
        backoff.snooze();
    }
    unreachable!()
}

// Whether this says that its member has left.
fn is_farewell(item: &Item) -> bool
    ensures { result ≡ is_bye item.now }
{
    matches!(item.body, Said::Bye { .. })
}
