//! What follows from the headline (`headline_tells`, `devices_stay`, `runs_hold_their_trails`) and from trails alone
//! (`trails_are_told_in_order`): each call does nothing, its clause is the law. And the laws of the crates below that a
//! run rests on.
ghost use Rattle.m17_reflect.specs.Known.{OfLanes, OfLinks, OfModules};
ghost use Rattle.m17_reflect.specs.Laws.{DevicesStay, HeadlineTells, WhatIsLeftIsTheRest};
ghost use Rattle.m17_reflect.specs.Turns.{TrailsAreToldInOrder, PeersOfTrailsAreToldInOrder, RunsHoldTheirTrails};

use m17_control::{Direct, Event, Item};
use m17_crew::Order;
use m17_directory::laws as directory;
use m17_lane::rows_laws as rows;
use m17_module::laws as module;
use m17_roll::laws as roll;
use m17_sender::laws as turns;
use m17_values::Member;

/// What a link heard is what its ear tells, where it tells anything and told nothing before. So what the headline says of
/// links is said of that list.
pub fn headline_tells<E, M, B>()
    ensures { HeadlineTells E M B }
{}

/// The devices that a run hands back are those that were handed in, in their order: each has its mark and its label.
pub fn devices_stay<E, M, B>()
    ensures { DevicesStay E M B }
{}

/// The law on turns, of trails. The sender's acts are in turn, and with more behind them they say what the queues hold
/// of the modules' trails, of which frames, echoes and pings alone may be left out; no two Joins of all trails are of
/// one member. Then memberships on a link, of which each waits for the notes of all before it, are told their items one
/// after another, each in the order of its queue; and the packets to a peer, where these are all its memberships on the
/// link, are one order of that and of the replies to it past all modules.
pub fn trails_are_told_in_order()
    ensures members { TrailsAreToldInOrder }
    ensures peers { PeersOfTrailsAreToldInOrder }
{
    module::share_is_the_others_frames();
    module::items_follow_their_joins();
    turns::less_of_a_life_is_a_life();
    turns::turns_keep_each_member_in_order();
    turns::peers_are_told_in_order();
}

/// The queues of every run hold what the run's trails give: what that law asks of trails and queues is met by each run.
pub fn runs_hold_their_trails<E, M, B>()
    ensures { RunsHoldTheirTrails E M B }
{
    module::items_are_at_places();
}

/// Where the order of a trail is what was popped and then a rest, what is left of it is that rest.
pub fn what_is_left_is_the_rest<T>()
    ensures { WhatIsLeftIsTheRest T }
{}

// Of lanes, rows, grids and the roll.
#[inline]
pub(crate) fn of_lanes()
    ensures { OfLanes }
{
    rows::rows_push::<Order>();
    rows::rows_push::<Direct>();
    rows::rows_push::<Member>();
    rows::rows_grow::<Item>();
    rows::first_order_decides();
    rows::grids_stand::<Event>();
    rows::rows_stand::<Event>();
    rows::rows_stand::<Direct>();
    rows::order_is_interleaving::<Event>();
    rows::order_is_interleaving::<Direct>();
    roll::no_member_is_claimed_twice();
    roll::given_back_is_free();
}

// Of links.
#[inline]
pub(crate) fn of_links()
    ensures { OfLinks }
{
    directory::route_carries_link();
    directory::route_ends_in_one_stop();
    directory::route_is_of_claimed();
    directory::who_joins_leaves();
    directory::leaves_follow_joins();
    directory::joins_of_all_modules();
    directory::each_claim_joins();
    directory::joins_are_the_claims();
    directory::askers_ask_for_served_modules();
    directory::door_carries_replies();
    directory::all_places_are_claimed();
    directory::askers_join_or_are_full();
}

// Of modules, and of what is said on mouths with labels of this kind.
#[inline]
pub(crate) fn of_modules<L>()
    ensures { OfModules L }
{
    module::items_are_at_places();
    module::items_follow_their_joins();
    module::share_is_the_others_frames();
    module::who_is_settled_is_told_a_bye();
    turns::less_of_a_life_is_a_life();
    turns::turns_keep_each_member_in_order();
    turns::peers_are_told_in_order();
    turns::spelled_part_by_part();
    m17_ports::laws::mouths_say_in_turn::<L>();
}
