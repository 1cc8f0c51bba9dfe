//! What the definitions promise of all that a link may hear. Each function does nothing: its clause is the law.
ghost use Rattle.m17_directory.specs.Fits.{OthersFitThePlaces};
ghost use Rattle.m17_directory.specs.Laws as law;

/// What comes later changes nothing of what an entry comes to.
pub fn later_entries_change_nothing()
    ensures { law.LaterEntriesChangeNothing }
{}

/// What one entry more posts stands behind all that was posted before, and so does what of it is routed to each module
/// and answered to each peer.
pub fn one_entry_more()
    ensures { law.OneEntryMore }
{}

/// What an entry comes to before its claim, and who the others are there, follows from the entries before it and from
/// what it says itself.
pub fn entries_before_decide()
    ensures { law.EntriesBeforeDecide }
{}

/// What is posted to a module carries the index of its entry.
pub fn events_carry_their_index()
    ensures { law.EventsCarryTheirIndex }
{}

/// All that a link routes carries the number of the link.
pub fn route_carries_link()
    ensures { law.RouteCarriesLink }
{}

/// Nothing is routed to a module that is not served.
pub fn only_served_are_routed()
    ensures { law.OnlyServedAreRouted }
{}

/// An entry posts one packet, to the module to which its verdict says that a packet was routed, or none.
pub fn packets_are_routed()
    ensures { law.PacketsAreRouted }
{}

/// Those whose Leaves are posted are those that leave, in order.
pub fn each_who_leaves_is_posted()
    ensures { law.EachWhoLeavesIsPosted }
{}

/// The verdict of an entry is `Ended` exactly where the link ends.
pub fn ended_where_it_ends()
    ensures { law.EndedWhereItEnds }
{}

/// What a link that ends once routes to a served module is events without a Stop, and then one Stop.
pub fn route_ends_in_one_stop()
    ensures { law.RouteEndsInOneStop }
{}

/// What a link hears says exactly one thing: a datagram of bytes is one packet or is refused for one reason.
pub fn each_entry_says_one_thing()
    ensures { law.EachEntrySaysOneThing }
{
    m17_control::laws::decoding_is_exact();
}

/// The packets for a module are those of the entries whose verdicts say so, in order, each entry once; so no two
/// packets of one link have one index.
pub fn packets_are_of_entries()
    ensures { law.PacketsAreOfEntries }
{}

/// An entry's verdict is `Full` exactly where it asks for a place and has no claim, and `Routed` as a Join exactly
/// where it asks and has one.
pub fn askers_join_or_are_full()
    ensures { law.AskersJoinOrAreFull }
{}

/// Who asks for a place asks for it in a served module.
pub fn askers_ask_for_served_modules()
    ensures { law.AskersAskForServedModules }
{}

/// The Joins for a module are those of the entries that asked for it and have a claim, in order, each entry once.
pub fn joins_are_the_claims()
    ensures { law.JoinsAreTheClaims }
{}

/// The Joins for all served modules together are those of the entries that ask for a place and have a claim, each once.
pub fn joins_of_all_modules()
    ensures { law.JoinsOfAllModules }
{}

/// Where a link has ended nobody is known.
pub fn nobody_is_known_behind_the_end()
    ensures { law.NobodyIsKnownBehindTheEnd }
{}

/// Who has joined a module has left it, as often, or is known in it; so each has left where the link has ended.
pub fn who_joins_leaves()
    ensures { law.WhoJoinsLeaves }
{}

/// Who has joined has left, as often, or is known; and where a peer asks for a place, each member that it was has left.
pub fn peers_come_and_go()
    ensures { law.PeersComeAndGo }
{}

/// What a link answers past all modules carries its number, and is a NACK or a DISC of 4 bytes; what is answered to a peer
/// is its part of it, and one entry more answers behind all before.
pub fn door_carries_replies()
    ensures { law.DoorCarriesReplies }
{}

/// Two peers that their order finds equal are one.
pub fn peers_are_told_apart()
    ensures { law.PeersAreToldApart }
{}

/// The peers that are named before a position, in whose order those leave who leave together, stand in strict order, each
/// once, and are just those that a datagram came from.
pub fn peers_are_named_in_order()
    ensures { law.PeersAreNamedInOrder }
{}

/// An entry that asks for a place comes to what it comes to before its claim, and then to what the claim makes of it; any
/// other entry to the former alone.
pub fn claims_complete_askers()
    ensures { law.ClaimsCompleteAskers }
{}

/// Each member that an event of a route is of was given by a claim.
pub fn route_is_of_claimed()
    ensures { law.RouteIsOfClaimed }
{}

/// Where claims stand at asking entries alone, their members are those that join, in order.
pub fn each_claim_joins()
    ensures { law.EachClaimJoins }
{}

/// Whoever leaves by an entry was known before it.
pub fn leavers_were_known()
    ensures { law.LeaversWereKnown }
{}

/// Where each entry that asks while a place is free gets some free place, and no member is given twice, it doesn't matter
/// which places are given, nor their generations, nor how many departed members a greeting waits for: each verdict is
/// the same, and what is answered past all modules, and who is known and what is routed but for the members.
pub fn members_change_no_verdict()
    ensures { law.PlacesChangeNoVerdict }
{}

/// Whoever joins a module so takes one of the places, and whoever joined the module at it before has left.
pub fn joins_take_free_places()
    ensures { law.JoinsTakeFreePlaces }
{}

/// Where an entry asks for a place and as many others are still known as there are places, each place was claimed by an
/// entry before it.
pub fn all_places_are_claimed()
    ensures { law.AllPlacesAreClaimed }
{}

/// A Leave that a module is routed stands behind a Join of its member there; and where the member is replaced, a later
/// entry's claim is of its place again.
pub fn leaves_follow_joins()
    ensures { law.LeavesFollowJoins }
{}

/// Where each claim is of a place, and entries that ask have claims alone, no more others are still known to an entry
/// that asks than there are places.
pub fn others_fit_the_places()
    ensures { OthersFitThePlaces }
{}
