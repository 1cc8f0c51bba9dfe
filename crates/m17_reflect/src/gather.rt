//! What comes back of a run whose jobs have ended.
ghost use Rattle.m17_reflect.specs.Gathered.{CanGather, Gathered};

use crate::parted::Parted;
use crate::{Returned, finish_rows, say_rest};
use m17_lane::{finish, finish_each, finish_row};
use m17_ports::Mouth;
use m17_roll::close;
use std::sync::Wait;

// Finishes all other lanes, says what is left of them, and closes the roll.
pub(crate) fn gather<E, M: Mouth, B, R: Wait>(rt: &R, parted: Parted<E, M, B>) -> Returned<E, M, B>
    requires { CanGather parted }
    ensures { Gathered M.told parted result }
{
    let Parted {
        mut links,
        mut modules,
        mut voice,
        seats,
        mut trails,
    } = parted;
    finish_each(
        &mut links.columns,
        &mut modules.inboxes,
        &mut trails.shells,
        &mut trails.inboxes,
    );
    finish_rows(&mut modules.queues, &mut voice.queues, &mut trails.queues);
    finish_row(&mut voice.notes, &mut links.noted, &mut trails.notes);
    let mut door = finish(links.doors, voice.door);
    say_rest(
        rt,
        voice.name,
        &mut voice.mouths,
        &mut door,
        &voice.held,
        &mut trails.queues,
    );
    Returned {
        ears: links.ears,
        mouths: voice.mouths,
        traces: links.traces,
        books: modules.books,
        trails: trails.inboxes,
        queues: trails.queues,
        roll: close(seats),
        missed: modules.missed,
        admitted: modules.admitted,
        link_tapes: links.tapes,
        tapes: modules.tapes,
        lost: links.lost,
        book_failed: links.failed || modules.failed,
    }
}
