//! What the ends of a lane share, and each end's single try, with and without a sleep.
ghost use Rattle.std.specs.Prelude.{◌≡◌, ◌≤◌, length, MatchOption, MatchResult, IfErr};
ghost use Rattle.crossbeam_queue.specs.Passes.{view, IsSamePass, IsPassOf, ruled_capacity};
ghost use Rattle.m17_lane.specs.Rule.{put_in, got_by, first_log, IsPusher, IsPopper};

use crate::bell::Bell;
use crate::room::Room;
use crate::rule::{Gets, Hand, Line, Puts};
use crossbeam_queue::Pass;
use std::sync::Wait;

/// The queue, the bell that pushes ring, and the place where producers sleep while the queue is full.
#[derive(Drop)]
pub struct Lane<T> {
    pub line: Line<T>,
    pub filled: Bell,
    pub room: Room,
    /// Half of what the queue holds: as many items wake a consumer that dozes, though each of them can wait.
    pub half: usize,
}

/// When a push wakes the consumer.
#[derive(Clone, Copy)]
pub enum Haste {
    /// At once.
    Now,
    /// Where it dozes, only once this number of items is in the queue, or half of what the queue holds.
    Later(usize),
    /// Not at all: who pushes rouses it later.
    Never,
}

/// How a consumer sleeps.
#[derive(Clone, Copy)]
pub enum Rest {
    /// Each push wakes it.
    Sleep,
    /// A push that can wait wakes it only where enough items are there.
    Doze,
}

/// One try to push. After the item is in the queue it rings the consumer, unless that is to be left asleep, and never before:
/// see `Announced`.
pub fn put<T, R: Wait>(
    rt: &R,
    lane: &Lane<T>,
    pass: &mut Pass<T, Hand<T>>,
    item: T,
    haste: Haste,
) -> Result<(), T>
    requires pass { IsPassOf lane.now.line pass.old }
    requires pusher { IsPusher (view pass.old) }
    ensures pass { IsSamePass pass.old pass.new }
    ensures ok { MatchResult result
        (λ _. view pass.new ≡ put_in (view pass.old) item (view pass.new).seen)
        (λ back. (back ≡ item) × (view pass.new ≡ view pass.old)) }
    ensures full { IfErr result (λ _. (view pass.old).producers ≡ 1
        → ruled_capacity lane.now.line ≤ length (first_log (view pass.old).logs)) }
{
    // models/lane.pml: item-in
    let answer = lane.line.push_as::<Puts, R>(rt, pass, item);
    if answer.is_ok() {
        // models/bells.pml: mark-behind-item
        lane.filled.set_mark();
        if !is_left_asleep(rt, lane, pass, haste) {
            // models/lane.pml: rung-behind-item
            lane.filled.ring();
        }
    }
    answer
}

// Whether the consumer is left asleep after a push. Each push that can wait counts the items once its own is in, so the last
// of several sees them all, and the one that finds enough rings. Fewer of them stay while the consumer dozes, and each of
// these can wait, or its push is still to ring: the next push that finds enough, or can't wait, takes them along.
fn is_left_asleep<T, R: Wait>(
    rt: &R,
    lane: &Lane<T>,
    pass: &mut Pass<T, Hand<T>>,
    haste: Haste,
) -> bool
    requires pass { IsPassOf lane.now.line pass.old }
    ensures pass { IsSamePass pass.old pass.new }
    ensures view { view pass.new ≡ view pass.old }
{
    match haste {
        Haste::Now => false,
        Haste::Later(enough) => {
            // models/lane.pml: quiet-counted
            lane.filled.is_dozed_on()
                && lane.line.len_as::<Gets, R>(rt, pass) < enough.min(lane.half)
        }
        Haste::Never => true,
    }
}

/// One try to push, and where the queue is full a sleep until there is room: see `Room`. It rings before it sleeps, so that
/// nothing that was pushed and not rung for, to this queue or to another of the bell, waits with it.
pub fn put_or_rest<T, R: Wait>(
    rt: &R,
    lane: &Lane<T>,
    pass: &mut Pass<T, Hand<T>>,
    item: T,
    haste: Haste,
) -> Result<(), T>
    requires pass { IsPassOf lane.now.line pass.old }
    requires pusher { IsPusher (view pass.old) }
    ensures pass { IsSamePass pass.old pass.new }
    ensures ok { MatchResult result
        (λ _. view pass.new ≡ put_in (view pass.old) item (view pass.new).seen)
        (λ back. (back ≡ item) × (view pass.new ≡ view pass.old)) }
{
    let wanted = lane.room.want();
    // models/lane.pml: tried-behind-want
    let answer = put(rt, lane, pass, item, haste);
    if answer.is_err() {
        // models/lane.pml: rung-before-sleep
        lane.filled.ring();
        wanted.sleep(rt);
    }
    answer
}

/// One try to pop. After the item has left the queue, and never before, it wakes the producers that sleep, where it is
/// time to: see `Room`.
pub fn get<T, R: Wait>(rt: &R, lane: &Lane<T>, pass: &mut Pass<T, Hand<T>>) -> Option<T>
    requires pass { IsPassOf lane.now.line pass.old }
    requires popper { IsPopper (view pass.old) }
    ensures pass { IsSamePass pass.old pass.new }
    ensures some { MatchOption result (view pass.new ≡ view pass.old)
        (λ x. view pass.new ≡ got_by (view pass.old) x) }
{
    // models/lane.pml: item-out
    let item = lane.line.pop_as::<Gets, R>(rt, pass);
    if item.is_some() && lane.room.is_wanted() {
        // models/lane.pml: held-counted
        let held = lane.line.len_as::<Gets, R>(rt, pass);
        lane.room.tell(held);
    }
    item
}

/// One try to pop, and where the queue is empty a sleep until a push on a lane of the bell, or a doze. No push is missed,
/// by the reason that `Announced` gives, and of a doze `is_left_asleep`.
pub fn get_or_rest<T, R: Wait>(
    rt: &R,
    lane: &Lane<T>,
    pass: &mut Pass<T, Hand<T>>,
    rest: Rest,
) -> Option<T>
    requires pass { IsPassOf lane.now.line pass.old }
    requires popper { IsPopper (view pass.old) }
    ensures pass { IsSamePass pass.old pass.new }
    ensures some { MatchOption result (view pass.new ≡ view pass.old)
        (λ x. view pass.new ≡ got_by (view pass.old) x) }
{
    let announced = match rest {
        Rest::Sleep => lane.filled.announce(),
        Rest::Doze => lane.filled.announce_doze(),
    };
    // models/lane.pml: tried-behind-announcement
    let item = get(rt, lane, pass);
    if item.is_none() {
        announced.sleep(rt);
    }
    item
}
