//! The laws that a receiver rests on, as one.
ghost use Rattle.m17_receiver.specs.SoFar.{Laws};

use m17_control::Event;
use m17_directory::laws as directory;
use m17_lane::rows_laws as rows;

// The laws of one link's directory and of rows of ends.
#[inline]
pub(crate) fn known_laws()
    ensures { Laws }
{
    directory::later_entries_change_nothing();
    directory::one_entry_more();
    directory::entries_before_decide();
    directory::claims_complete_askers();
    directory::door_carries_replies();
    directory::ended_where_it_ends();
    directory::askers_join_or_are_full();
    directory::peers_come_and_go();
    directory::peers_are_told_apart();
    rows::rows_push::<Event>();
}
