//! The laws of the crates below that a replay over threads rests on.
ghost use Rattle.m17_replay.specs.Known.{Laws};

use m17_directory::laws as directory;
use m17_house::laws as house;
use m17_module::laws as module;

// Of a link, of modules and of tallies.
#[inline]
pub(crate) fn known_laws()
    ensures { Laws }
{
    directory::others_fit_the_places();
    directory::only_served_are_routed();
    directory::route_carries_link();
    module::items_are_at_places();
    module::items_keep_links();
    house::tallies_tell_packets();
}
