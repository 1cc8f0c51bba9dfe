//! Records, and the ends of a board of one module.
ghost use Rattle.std.specs.Prelude.{◌≡◌, ◌<◌, ◌++◌, ◌∷◌, Some, []};
ghost use Rattle.m17_book.specs.Records.{IsWritable};
ghost use Rattle.m17_board.specs.Ends.{IsPair};

use crate::bench::must;
use m17_board::{Eye, Poster, make};
use m17_book::Record;
use m17_callsign::CallAddress;
use m17_control::{Tag, Why};
use m17_floor::Verdict;
use m17_samples::{ab1cd, frame};
use m17_values::Member;
use std::alloc::Global;
use std::process::Abort;

// What is there; the test ends where nothing is.
pub(crate) fn there<T: Drop, R: Abort>(rt: &R, found: Option<T>) -> T
    ensures { found ≡ Some result }
{
    found.expect(rt, "there")
}

// The last of the list; the test ends where nothing is.
fn last_of<T: Drop, R: Abort>(rt: &R, items: &mut Vec<T>) -> T
    ensures { items.old.items ≡ items.new.items ++ result ∷ [] }
{
    there(rt, items.pop())
}

// The two ends of a new board of one module.
pub(crate) fn one_pair<R: Abort>(rt: &R, alloc: Global) -> (Poster, Eye)
    ensures pair { IsPair result.0 result.1 }
    ensures new { result.0.posted ≡ [] }
    ensures untaken { result.0.taken ≡ [] }
{
    let (mut posters, mut eyes) = must(rt, make(alloc, 1));
    let poster = last_of(rt, &mut posters);
    let eye = last_of(rt, &mut eyes);
    (poster, eye)
}

const TAG: Tag = Tag { link: 0, index: 0 };

// A member at this place, of generation 0.
pub(crate) fn member(place: u32) -> Member
    ensures { result.place ≡ place }
{
    Member {
        place,
        generation: 0,
    }
}

// The member at this place comes in.
pub(crate) fn join<R: Abort>(rt: &R, moment: u64, place: u32) -> Record
    requires { place < 256 }
    ensures { IsWritable result }
{
    Record::Join {
        tag: TAG,
        moment,
        member: member(place),
        listen: false,
        callsign: CallAddress::new(ab1cd()).expect(rt, "a callsign"),
    }
}

// It leaves.
pub(crate) fn leave(moment: u64, place: u32) -> Record
    requires { place < 256 }
    ensures { IsWritable result }
{
    Record::Leave {
        tag: TAG,
        moment,
        member: member(place),
        why: Why::Asked,
    }
}

// It sends a frame.
pub(crate) fn packet(moment: u64, place: u32, verdict: Verdict, last: bool) -> Record {
    Record::Packet {
        tag: TAG,
        moment,
        member: member(place),
        verdict,
        packet: frame(1, 0, last),
    }
}
