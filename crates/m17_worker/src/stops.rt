//! When a worker has had its last event.
ghost use Rattle.std.specs.Prelude.{◌≡◌, ◌↔◌, ℕ, ◌<◌, ◌≤◌, true, List, [], ◌∷◌, ◌++◌, slice_get, Some, IsTrue};
ghost use Rattle.m17_control.specs.declared.event.Event.{Event};
ghost use Rattle.m17_worker.specs.Underway.{AreFlags};
ghost use Rattle.m17_worker.specs.Taken.{is_stop};

use m17_control::{Body, Event};

/// The most links that a reflector has.
pub(crate) const MOST_LINKS: usize = 4;

// Sets the flag of the event's link, where the event is its Stop.
pub(crate) fn note_stop(stopped: &mut [bool; MOST_LINKS], event: &Event)
    ensures { (events : List Event) → AreFlags stopped.old events →
        AreFlags stopped.new (events ++ event.now ∷ []) }
{
    let link = event.tag.link as usize;
    if link < MOST_LINKS && is_stop_event(event) {
        stopped[link] = true;
    }
}

// Whether the flag of each link is set.
pub(crate) fn all_stopped(stopped: &[bool; MOST_LINKS], links: u32) -> bool
    requires { links ≤ 4 }
    ensures { IsTrue result ↔ ((link : ℕ) → link < links →
        slice_get stopped.now link ≡ Some true) }
{
    for link in 0..links {
        if !stopped[link as usize] {
            return false;
        }
    }
    true
}

fn is_stop_event(event: &Event) -> bool
    ensures { result ≡ is_stop event.now.body }
{
    matches!(event.body, Body::Stop)
}
