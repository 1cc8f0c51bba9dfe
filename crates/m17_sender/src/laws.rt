//! What follows from the definitions for every list of acts. Each function does nothing: its clause is the law.
ghost use Rattle.m17_sender.specs.Laws as law;

/// No acts are in turn, and acts in turn still are when one follows that may. A member may be noted to the link of its
/// Bye as soon as that was said.
pub fn turns_grow()
    ensures { law.TurnsGrow }
{}

/// What is said to the memberships of a peer on a link stands in the order of the memberships, each with its own items
/// in the order of its queue, if each later one's Hello waits for the notes of all before it: their Byes stand before
/// their notes, and the notes before that Hello. What is said behind the acts, in whatever order of the queues, keeps
/// to it.
pub fn turns_keep_each_member_in_order()
    ensures { law.TurnsKeepEachMemberInOrder }
{}

/// The packets to a peer by a link are one order of two lists: the replies to it past all modules, and the packets of
/// the items to it.
pub fn replies_and_items_interleave()
    ensures { law.RepliesAndItemsInterleave }
{}

/// The packets to a peer by a link are one order of the replies to it past all modules, and of what its memberships
/// there are told, one membership after another.
pub fn peers_are_told_in_order()
    ensures { law.PeersAreToldInOrder }
{
    turns_keep_each_member_in_order();
    replies_and_items_interleave();
}

/// Datagrams that spell packets, and more that spell more, spell them together; and those to one peer spell the packets
/// to it.
pub fn spelled_part_by_part()
    ensures { law.SpelledPartByPart }
{}

/// What a queue holds for a member begins with the member's Hello, and has nothing behind its Bye, if that holds of all
/// that its module gave to it and no Hello was left out.
pub fn less_of_a_life_is_a_life()
    ensures { law.LessOfALifeIsALife }
{}
