//! What the floor rule promises of every list of acts, and what one act more makes of what is looked up in it. Each
//! function has no body: its clause is the law.
ghost use Rattle.m17_floor.specs.Laws as law;
ghost use Rattle.m17_floor.specs.LegalLaws as legal;

/// What happens later changes no verdict.
pub fn later_acts_change_no_verdict()
    ensures { law.LaterActsChangeNoVerdict }
{}

/// What happens later changes neither who was in before, nor any moment, nor what happened; and one act more stands at
/// the end.
pub fn later_acts_change_nothing_before()
    ensures members { law.LaterActsChangeNoMembership }
    ensures moments { law.LaterActsChangeNoMoment }
    ensures moments_before { law.LaterActsChangeNoMomentBefore }
    ensures kinds { law.LaterActsChangeNoKind }
    ensures one_more { law.KindOfOneMore }
{}

/// The moment of one act more is the greatest so far, its own included.
pub fn the_greatest_moment_counts()
    ensures here { law.MomentOfOneMore }
    ensures after { law.MomentAfterOneMore }
{}

/// Who is in after one act more; and that at each place it is one member at most.
pub fn one_member_at_a_place()
    ensures after_one_more { law.MembershipOfOneMore }
    ensures one { law.OneMemberAtAPlace }
{}

/// Only packets have verdicts; a packet of one that is not in gets not-member, and one of a member that joined to
/// listen only gets listen-only.
pub fn only_speakers_are_heard()
    ensures packets { law.OnlyPacketsHaveVerdicts }
    ensures strangers { law.StrangersGetNotMember }
    ensures listeners { law.ListenersGetListenOnly }
{}

/// The number of admitted positions, one act more at a time.
pub fn admitted_positions_are_counted()
    ensures none { law.CountOfNone }
    ensures one_more { law.CountOfOneMore }
{}

/// An act that is no Join, Leave or packet changes nothing of what is kept, and nobody's leave to speak.
pub fn other_acts_change_nothing()
    ensures { law.OtherActsChangeNothing }
{}

/// Nor does a packet of one that may not speak, a Leave of one that is not in, or a Join past the module's places.
pub fn strangers_change_nothing()
    ensures packets { law.UnheardPacketsChangeNothing }
    ensures leaves { law.LeavesOfStrangersChangeNothing }
    ensures joins { law.JoinsPastThePlacesChangeNothing }
{}

/// A Leave changes nothing of what is kept of the others, and a Join nothing of what is kept of those at other places.
/// A Join at a place where nobody is in leaves the floor as it is.
pub fn comings_and_goings_leave_others()
    ensures leaves { law.LeavesLeaveOthers }
    ensures joins { law.JoinsLeaveOthers }
    ensures floor { law.JoinsAtAFreePlaceLeaveTheFloor }
{}

/// Who joins one of the module's places, and not to listen only, may speak; a Join at another place takes that from
/// nobody.
pub fn who_joins_may_speak()
    ensures joined { law.WhoJoinsMaySpeak }
    ensures others { law.OthersStillMaySpeak }
{}

/// From an opened position up to the next one, all that is admitted is one stream of one member, with numbers that go
/// ahead, and nothing after its end. Under a limit on talking each of it comes less than the limit after the opened
/// position. And a floor is opened only where it was free: the admitted frame before had the end bit, or its member has
/// left since, or 1,600 ms or more went by, or the limit has run out since its opening.
pub fn openings_are_clean()
    ensures clean { law.OpeningsAreClean }
    ensures in_time { law.OpeningsEndInTime }
    ensures free { law.FloorsAreTakenFree }
{}

/// A packet isn't admitted while its sender's last admitted frame since its Join is of its stream, less than 10,000 ms
/// old, and either ended the stream or is 0 to 16,384 numbers past it. Under the same conditions no packet is admitted
/// that has the stream id and number of one that was admitted since its sender's Join, as a copy has that the network
/// made. Nor is a packet admitted while that frame is of an opening that has run out the limit on talking.
pub fn repeats_are_not_admitted()
    ensures passed { law.PassedNumbersAreNotAdmitted }
    ensures timed_out { law.TalkedOutStreamsAreNotAdmitted }
    ensures repeats { law.RepeatsAreNotAdmitted }
{}

/// Where the same acts happen at the same moments, but of other members, one for one, and each Join is at a place of
/// the module at which nobody is in: who is in is the same, and so are each verdict, but for the member that a busy one
/// names, and whether a frame has the floor. So it doesn't matter which places are given.
pub fn renaming_changes_no_verdict()
    ensures members { law.RenamingChangesNoMembership }
    ensures verdicts { law.RenamingChangesNoVerdict }
    ensures floor { law.RenamingChangesNoFloor }
{}

/// What a book keeps later changes no breach; a breach is at a position of the list, and a list has one first breach at
/// most. A legal list with one act more that breaks no rule is legal; and whether it breaks one is told by what the acts
/// before it leave behind.
pub fn books_are_judged_act_by_act()
    ensures later { legal.LaterActsChangeNoBreach }
    ensures within { legal.BreachesAreInTheList }
    ensures one_more { legal.LegalWithOneMore }
    ensures next { legal.BreachByWhatIsLeft }
    ensures one_first { legal.OneFirstBreach }
{}

/// Whether a member is in after one act more, and the verdict on one packet more, by what the acts before left behind.
pub fn one_act_more_goes_by_what_is_left()
    ensures nobody { legal.StayOfNone }
    ensures stays { legal.StayOfOneMore }
    ensures verdict { legal.VerdictByWhatIsLeft }
{}

/// Lists that leave the same behind go on alike.
pub fn like_lists_go_on_alike()
    ensures nothing { legal.NothingLeavesTheSame }
    ensures idle { legal.SameWithoutIdleActs }
    ensures joins { legal.SameAfterJoins }
    ensures replacements { legal.SameAfterReplacements }
    ensures leaves { legal.SameAfterLeaves }
    ensures packets { legal.SameAfterPackets }
{}
