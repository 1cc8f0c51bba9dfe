//! What was posted, pushed to the modules' inboxes and to the door.
ghost use Rattle.std.specs.Prelude.{◌≡◌, ◌==◌, ◌&&◌, ◌<◌, ℕ, [], ◌∷◌, nat_eq, vec_capacity, vec_len, MatchOption, false};
ghost use Rattle.m17_control.specs.Forms.{IsModule};
ghost use Rattle.m17_directory.specs.declared.dispatch.Dispatch.TheVariants.{ToModule};
ghost use Rattle.m17_directory.specs.Routed.{event_for};
ghost use Rattle.m17_receiver.specs.Posting.{letter_at, AreSameOutlets};
ghost use Rattle.m17_receiver.specs.SoFar.{posting};
ghost use Rattle.m17_lane.specs.Rows.{only, push_each};
ghost use Rattle.std.specs.List.{filter_map};

use crate::laws::known_laws;
use m17_control::{Body, Direct, Event, ModuleLetter, Modules};
use m17_directory::{Dispatch, Post};
use m17_lane::{Pusher, push_at, push_quietly_at};
use std::sync::Wait;

// How many Ticks wake a worker that dozes.
const TICKS: usize = 8;

// Takes out all that was posted, and pushes each to the inbox of its module or to the door, in order; it waits where a
// lane is full. In a patient run workers are left asleep for longer.
pub(crate) fn push_posts<R: Wait>(
    rt: &R,
    modules: Modules,
    patient: bool,
    post: &mut Post,
    inboxes: &mut Vec<Pusher<Event>>,
    door: &mut Pusher<Direct>,
)
    ensures post { post.new ≡ [] }
    ensures pushed { record { inboxes = inboxes.new.items; door = door.new }
        ≡ posting modules post.old (record { inboxes = inboxes.old.items; door = door.old }) }
    ensures lanes { AreSameOutlets (record { inboxes = inboxes.old.items; door = door.old })
        (record { inboxes = inboxes.new.items; door = door.new }) }
    ensures room { vec_capacity inboxes.new ≡ vec_capacity inboxes.old }
{
    known_laws();
    'posts: while let Some(dispatch) = post.take() {
        push_one(rt, modules, patient, dispatch, inboxes, door);
    }
}

// Pushes one dispatch.
fn push_one<R: Wait>(
    rt: &R,
    modules: Modules,
    patient: bool,
    dispatch: Dispatch,
    inboxes: &mut Vec<Pusher<Event>>,
    door: &mut Pusher<Direct>,
)
    ensures pushed { record { inboxes = inboxes.new.items; door = door.new }
        ≡ posting modules (dispatch ∷ []) (record { inboxes = inboxes.old.items; door = door.old }) }
    ensures lanes { AreSameOutlets (record { inboxes = inboxes.old.items; door = door.old })
        (record { inboxes = inboxes.new.items; door = door.new }) }
    ensures room { vec_capacity inboxes.new ≡ vec_capacity inboxes.old }
{
    known_laws();
    match dispatch {
        Dispatch::ToModule {
            module: letter,
            event,
        } => {
            push_event(rt, modules, patient, letter, event, inboxes);
        }
        // models/dozes.pml: reply-rung
        Dispatch::ToDoor(direct) => door.push_waiting(rt, direct),
    }
}

// Pushes an event to the inbox of its module, if there is one.
fn push_event<R: Wait>(
    rt: &R,
    modules: Modules,
    patient: bool,
    letter: ModuleLetter,
    event: Event,
    inboxes: &mut Vec<Pusher<Event>>,
)
    ensures pushed { inboxes.new.items
        ≡ push_each (λ m. filter_map (event_for (letter_at modules m)) (ToModule letter event ∷ []))
        0 inboxes.old.items }
    ensures room { vec_capacity inboxes.new ≡ vec_capacity inboxes.old }
{
    known_laws();
    if let Some(at) = inbox_of(modules, letter.byte()) {
        if at < inboxes.len() {
            push_in(rt, patient, inboxes, at, event);
        }
    }
}

// Pushes an event to an inbox, quietly where it can wait: a worker that needs it at once doesn't doze.
fn push_in<R: Wait>(
    rt: &R,
    patient: bool,
    inboxes: &mut Vec<Pusher<Event>>,
    at: usize,
    event: Event,
)
    requires { at < vec_len inboxes.old }
    ensures row { inboxes.new.items ≡ push_each (only at event) 0 inboxes.old.items }
    ensures room { vec_capacity inboxes.new ≡ vec_capacity inboxes.old }
{
    match enough(patient, &event) {
        // models/dozes.pml: pushed-quietly
        Some(enough) => push_quietly_at(rt, inboxes, at, event, enough),
        // models/dozes.pml: pushed-with-ring
        None => push_at(rt, inboxes, at, event),
    }
}

// How many events in its inbox wake a worker that dozes, this one among them; none where it is to have this one at once.
// That time has passed can wait until it has a few times. In a patient run nobody waits for what a packet gives either, so
// there as many of both may lie as the inbox lets.
fn enough(patient: bool, event: &Event) -> Option<usize> {
    match event.body {
        Body::Tick if !patient => Some(TICKS),
        Body::Tick | Body::Packet { .. } if patient => Some(usize::MAX),
        _ => None,
    }
}

// The number of the inbox of the module with this letter, if it is served.
fn inbox_of(modules: Modules, letter: u8) -> Option<usize>
    requires { IsModule letter }
    ensures { MatchOption result
        ((m : ℕ) → (letter == letter_at modules m) ≡ false)
        (λ at. (m : ℕ) → (letter == letter_at modules m) ≡ (m == at)) }
{
    modules.rank(letter)
}
