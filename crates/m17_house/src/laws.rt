//! What the definitions promise of all that may be heard. Each function does nothing: its clause is the law.
ghost use Rattle.m17_house.specs.Laws as law;

use m17_directory::laws as directory_laws;
use m17_module::laws as module_laws;

/// What was heard ends the link where nothing more comes.
pub fn an_end_ends_it()
    ensures { law.EndEndsIt }
{}

/// What was heard ends the link where 16 faults come in a row.
pub fn sixteen_faults_end_it()
    ensures { law.FaultsEndIt }
{}

/// A plan and what was heard, in bytes, have at most one replay.
pub fn one_replay()
    ensures { law.OneReplay }
{
    directory_laws::each_entry_says_one_thing();
    directory_laws::entries_before_decide();
    directory_laws::ended_where_it_ends();
}

/// What was heard, in bytes, has a replay by each plan where it ends the link.
pub fn a_replay_there_is()
    ensures { law.AReplayThereIs }
{
    directory_laws::each_entry_says_one_thing();
    directory_laws::entries_before_decide();
    directory_laws::ended_where_it_ends();
}

/// So its verdicts are the only ones, and so is what is said to each peer.
pub fn one_answer()
    ensures { law.OneAnswer }
{
    one_replay();
}

/// What a replay answers is free of places: whichever free place each asking entry is given while the others are fewer
/// than the places, and no member twice, the verdicts are the same, but for the member that a busy one names, and so is
/// what is said to each peer. The replay's own choice, the least free place, is one of these.
pub fn answers_are_free_of_places()
    ensures given { law.ReplaysGiveFreely }
    ensures same { law.FreeReplaysComeToTheSame }
{
    directory_laws::each_entry_says_one_thing();
    directory_laws::members_change_no_verdict();
    directory_laws::joins_take_free_places();
    module_laws::renaming_changes_nothing_said();
}

/// The tallies of a mouth whose tallies were 0 are those of the packets that it said, each peer's by kinds; their order
/// doesn't matter.
pub fn tallies_tell_packets()
    ensures { law.TalliesTellPackets }
{}
