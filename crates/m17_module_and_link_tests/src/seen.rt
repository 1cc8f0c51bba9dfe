ghost use Rattle.std.specs.Prelude.{◌≡◌, []};

use m17_control::{Body, Control};
use m17_directory::{Dispatch, Post};

// What an entry posted, as far as the tests look at it: the letters and kinds of events, and the replies to the door.
#[derive(Clone, Copy, PartialEq, Eq)]
pub(crate) struct Seen {
    pub(crate) ticks: u8,
    pub(crate) stops: u8,
    pub(crate) joins: u8,
    pub(crate) leaves: u8,
    pub(crate) packets: u8,
    pub(crate) replies: u8,
    pub(crate) nacks: u8,
    pub(crate) discs: u8,
}

pub(crate) const QUIET: Seen = Seen {
    ticks: 0,
    stops: 0,
    joins: 0,
    leaves: 0,
    packets: 0,
    replies: 0,
    nacks: 0,
    discs: 0,
};

fn count_event(body: &Body, seen: &mut Seen) {
    match body {
        Body::Tick => seen.ticks = seen.ticks.saturating_add(1),
        Body::Stop => seen.stops = seen.stops.saturating_add(1),
        Body::Join { .. } => seen.joins = seen.joins.saturating_add(1),
        Body::Leave { .. } => seen.leaves = seen.leaves.saturating_add(1),
        Body::Packet { .. } => seen.packets = seen.packets.saturating_add(1),
        Body::Reply { .. } => seen.replies = seen.replies.saturating_add(1),
    }
}

fn count_reply(control: &Control, seen: &mut Seen) {
    match control {
        Control::Nack => seen.nacks = seen.nacks.saturating_add(1),
        Control::Disc { from: None } => seen.discs = seen.discs.saturating_add(1),
        _ => (),
    }
}

// Takes out all that was posted.
pub(crate) fn drain(post: &mut Post) -> Seen
    ensures { post.new ≡ [] }
{
    let mut seen = QUIET;
    while let Some(dispatch) = post.take() {
        match &dispatch {
            Dispatch::ToModule { event, .. } => count_event(&event.body, &mut seen),
            Dispatch::ToDoor(direct) => count_reply(&direct.control, &mut seen),
        }
    }
    seen
}

// All that was posted for one entry.
pub(crate) fn both(a: &Seen, b: &Seen) -> Seen {
    Seen {
        ticks: a.ticks.saturating_add(b.ticks),
        stops: a.stops.saturating_add(b.stops),
        joins: a.joins.saturating_add(b.joins),
        leaves: a.leaves.saturating_add(b.leaves),
        packets: a.packets.saturating_add(b.packets),
        replies: a.replies.saturating_add(b.replies),
        nacks: a.nacks.saturating_add(b.nacks),
        discs: a.discs.saturating_add(b.discs),
    }
}
