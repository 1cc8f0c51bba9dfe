//! What the definitions promise of every list of events. Each function does nothing: its clause is the law.
ghost use Rattle.m17_module.specs.Book as book;
ghost use Rattle.m17_module.specs.Laws as law;

use m17_floor::laws as floor_laws;

/// What comes later changes nothing of what an event gives.
pub fn later_events_change_no_items()
    ensures { law.LaterEventsChangeNoItems }
{
    floor_laws::later_acts_change_no_verdict();
    floor_laws::later_acts_change_nothing_before();
}

/// What one event more gives stands behind all that was given before, and so does each member's part of it.
pub fn one_event_more_gives()
    ensures given { law.OneEventMoreGives }
    ensures shared { law.OneEventMoreIsShared }
{
    later_events_change_no_items();
}

/// The frames for a member are the packets of the positions that it hears: those at which it is in, and the packet is
/// admitted and not its own. They stand in rising order, each position once.
pub fn frames_are_the_others()
    ensures frames { law.FramesAreThoseHeard }
    ensures once { law.EachHeardIsSentOnce }
{
    floor_laws::only_speakers_are_heard();
}

/// The echo that a parrot module has at a position is one item, to the member whose recording it is, by the link and peer
/// of its Join.
pub fn echoes_are_sent_once()
    ensures { law.EachEchoIsSentOnce }
{}

/// The share of a member that joins once, at one of the module's places, begins with its only Hello, and nothing follows
/// its Bye; one that never joins there gets nothing. Its frames are those that it hears, in rising order, each position
/// once; and it is in, and so hears, exactly at the positions behind its Join up to the event that ends its membership.
pub fn share_is_the_others_frames()
    ensures life { law.ShareIsALife }
    ensures strangers { law.WhoNeverJoinsGetsNothing }
    ensures frames { law.FramesAreThoseHeard }
    ensures once { law.EachHeardIsSentOnce }
    ensures between { law.InFromJoinToEnd }
{
    frames_are_the_others();
}

/// A member that joins once, at one of the module's places, is told a Bye at the first position behind its Join that is a
/// Leave of it or a Join at its place.
pub fn who_is_settled_is_told_a_bye()
    ensures { law.WhoIsSettledIsToldABye }
{}

/// Each item is for a member at one of the module's places.
pub fn items_are_at_places()
    ensures { law.ItemsAreAtPlaces }
{}

/// Each item follows a Join of its member: it goes to the peer that the Join names, by the link of the Join's event, and a
/// Hello waits for as many notes as the Join says.
pub fn items_follow_their_joins()
    ensures { law.ItemsFollowTheirJoins }
{}

/// Where the links of the events are below a number, those of the items are: each item goes by the link of its member's
/// Join.
pub fn items_keep_links()
    ensures { law.ItemsKeepLinks }
{}

/// A Busy's holder is at one of the module's places, and a Late's number is below 32,768 where the packets' numbers
/// are.
pub fn verdicts_fit()
    ensures { law.VerdictsFit }
{}

/// Where the same events come at the same moments, but of other members, one for one, and each of them joins at a place
/// of the module that whoever had it before has left: the same packets reach each peer, in the same order, pings, echoes and replies
/// among them, and each packet gets the same verdict, but for the member that a busy one names. So it doesn't matter
/// which places are given, nor how many departed members a greeting waits for.
pub fn renaming_changes_nothing_said()
    ensures said { law.RenamingChangesNothingSaid }
    ensures verdicts { law.RenamingChangesNoVerdict }
{
    floor_laws::renaming_changes_no_verdict();
}

/// What a module of at most 256 places keeps in its book is legal under the limit that it was made with, whatever that is
/// and whatever the events are: each Join at a place at which nobody is in any more, each Leave of a member that is in, and
/// each packet with the verdict that the floor rule gives under this limit for what is kept, in a book of 256 places.
pub fn records_are_legal()
    ensures { book.RecordsAreLegal }
{
    floor_laws::later_acts_change_no_verdict();
    floor_laws::later_acts_change_nothing_before();
    floor_laws::the_greatest_moment_counts();
    floor_laws::one_member_at_a_place();
    floor_laws::other_acts_change_nothing();
    floor_laws::strangers_change_nothing();
    floor_laws::books_are_judged_act_by_act();
    floor_laws::one_act_more_goes_by_what_is_left();
    floor_laws::like_lists_go_on_alike();
}
