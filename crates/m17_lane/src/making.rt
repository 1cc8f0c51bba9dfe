//! How lanes are made.
ghost use Rattle.std.specs.Prelude.{◌≡◌, ◌<◌, ◌+◌, ◌^◌, ◌-◌, [], length, IfOk, OnOk};
ghost use Rattle.std.specs.Arc.{arc_value};
ghost use Rattle.crossbeam_queue.specs.Passes.{view as knows, IsPassOf, IsSamePass, ruled_capacity};
ghost use Rattle.m17_lane.specs.Ends.{new_popper, new_pusher, new_pushers};
ghost use Rattle.m17_lane.specs.Rule.{popper};

use crate::bell::Bell;
use crate::lane::Lane;
use crate::popper::{MOST_ROUNDS, Popper};
use crate::pusher::Pusher;
use crate::room::Room;
use crate::rule::{Declare, Hand, Hire, Line};
use crossbeam_queue::Pass;
use m17_values::NoMemory;
use std::alloc::Global;
use std::sync::Arc;

/// A lane for that many producers, which holds that many items, with a bell of its own: the pushers, numbered from 0 on
/// in the order of the answer, and the popper. `NoMemory` where there is none for it; nothing else is refused.
pub fn make<T: Drop>(
    alloc: Global,
    producers: u32,
    capacity: u32,
) -> Result<(Vec<Pusher<T>>, Popper<T>), NoMemory>
    requires producers { 0 < producers }
    requires capacity { 0 < capacity }
    ensures count { IfOk result (λ r. length r.0.items ≡ producers) }
    ensures popper { IfOk result (λ r. r.1 ≡ new_popper r.1.lane capacity producers) }
    ensures pushers { IfOk result (λ r. r.0.items ≡ new_pushers r.1 producers) }
{
    let bell = Bell::make(alloc)?;
    make_with(alloc, &bell, producers, capacity)
}

/// `make` with a bell that other lanes ring too, so that one thread can wait for all of them: see `Bell`.
pub fn make_with<T: Drop>(
    alloc: Global,
    bell: &Bell,
    producers: u32,
    capacity: u32,
) -> Result<(Vec<Pusher<T>>, Popper<T>), NoMemory>
    requires producers { 0 < producers }
    requires capacity { 0 < capacity }
    ensures count { IfOk result (λ r. length r.0.items ≡ producers) }
    ensures popper { IfOk result (λ r. r.1 ≡ new_popper r.1.lane capacity producers) }
    ensures pushers { IfOk result (λ r. r.0.items ≡ new_pushers r.1 producers) }
{
    make_for(alloc, bell.share()?, producers, capacity)
}

/// `make_with` whose pushes also set a mark of the bell, the same whichever producer pushes: see `make_one_marked`.
pub fn make_marked<T: Drop>(
    alloc: Global,
    bell: &Bell,
    mark: u32,
    producers: u32,
    capacity: u32,
) -> Result<(Vec<Pusher<T>>, Popper<T>), NoMemory>
    requires producers { 0 < producers }
    requires capacity { 0 < capacity }
    ensures count { IfOk result (λ r. length r.0.items ≡ producers) }
    ensures popper { IfOk result (λ r. r.1 ≡ new_popper r.1.lane capacity producers) }
    ensures pushers { IfOk result (λ r. r.0.items ≡ new_pushers r.1 producers) }
{
    make_for(alloc, bell.share_marked(mark)?, producers, capacity)
}

// A lane whose pushes ring this bell, and set its mark where it has one.
fn make_for<T: Drop>(
    alloc: Global,
    filled: Bell,
    producers: u32,
    capacity: u32,
) -> Result<(Vec<Pusher<T>>, Popper<T>), NoMemory>
    requires producers { 0 < producers }
    requires capacity { 0 < capacity }
    ensures count { IfOk result (λ r. length r.0.items ≡ producers) }
    ensures popper { IfOk result (λ r. r.1 ≡ new_popper r.1.lane capacity producers) }
    ensures pushers { IfOk result (λ r. r.0.items ≡ new_pushers r.1 producers) }
{
    let (line, mut pass) = Line::ruled(alloc, capacity as usize)?;
    declare_all(&line, &mut pass, producers);
    let room = Room::new(producers, capacity);
    let lane = Lane {
        line,
        filled,
        room,
        half: capacity.div_ceil(2) as usize,
    };
    let lane = Arc::new(alloc, lane)?;
    let pushers = hire_all(alloc, &lane, &mut pass, producers)?;
    let popper = Popper {
        lane,
        pass,
        rounds: MOST_ROUNDS,
    };
    Ok((pushers, popper))
}

/// A lane of one producer, with a bell of its own.
pub fn make_one<T: Drop>(alloc: Global, capacity: u32) -> Result<(Pusher<T>, Popper<T>), NoMemory>
    requires { 0 < capacity }
    ensures popper { IfOk result (λ r. r.1 ≡ new_popper r.1.lane capacity 1) }
    ensures pusher { IfOk result (λ r. r.0 ≡ new_pusher r.1 0) }
{
    let bell = Bell::make(alloc)?;
    make_one_with(alloc, &bell, capacity)
}

/// `make_one` with a bell that other lanes ring too.
pub fn make_one_with<T: Drop>(
    alloc: Global,
    bell: &Bell,
    capacity: u32,
) -> Result<(Pusher<T>, Popper<T>), NoMemory>
    requires { 0 < capacity }
    ensures popper { IfOk result (λ r. r.1 ≡ new_popper r.1.lane capacity 1) }
    ensures pusher { IfOk result (λ r. r.0 ≡ new_pusher r.1 0) }
{
    make_one_for(alloc, bell.share()?, capacity)
}

/// `make_one_with` whose pushes also set a mark of the bell, after the item is in the queue, so that a consumer of very
/// many lanes knows where to look. The mark is to be below the number of lanes that the bell was made for, and no other
/// lane's: else the marks tell the wrong lane, or none, and nothing more.
pub fn make_one_marked<T: Drop>(
    alloc: Global,
    bell: &Bell,
    mark: u32,
    capacity: u32,
) -> Result<(Pusher<T>, Popper<T>), NoMemory>
    requires { 0 < capacity }
    ensures popper { IfOk result (λ r. r.1 ≡ new_popper r.1.lane capacity 1) }
    ensures pusher { IfOk result (λ r. r.0 ≡ new_pusher r.1 0) }
{
    make_one_for(alloc, bell.share_marked(mark)?, capacity)
}

// A lane of one producer whose pushes ring this bell.
fn make_one_for<T: Drop>(
    alloc: Global,
    filled: Bell,
    capacity: u32,
) -> Result<(Pusher<T>, Popper<T>), NoMemory>
    requires { 0 < capacity }
    ensures popper { IfOk result (λ r. r.1 ≡ new_popper r.1.lane capacity 1) }
    ensures pusher { IfOk result (λ r. r.0 ≡ new_pusher r.1 0) }
{
    let (mut pushers, popper) = make_for(alloc, filled, 1, capacity)?;
    match pushers.pop() {
        Some(pusher) => Ok((pusher, popper)),
        None => unreachable!(),
    }
}

// Tells the pass of a new queue how many producers there will be, so that each pusher's pass knows it.
fn declare_all<T>(line: &Line<T>, pass: &mut Pass<T, Hand<T>>, producers: u32)
    requires pass { IsPassOf line.now pass.old }
    requires new { knows pass.old ≡ popper (2 ^ 32) 0 0 [] [] [] [] }
    ensures pass { IsSamePass pass.old pass.new }
    ensures declared { knows pass.new ≡ popper (2 ^ 32) producers 0 [] [] [] [] }
{
    for _declared in 0..producers {
        let _ = line.another::<Declare>(pass);
    }
}

// Splits a pusher's pass off for each producer. The queue is counted once more for each pusher.
fn hire_all<T: Drop>(
    alloc: Global,
    lane: &Arc<Lane<T>, Global>,
    pass: &mut Pass<T, Hand<T>>,
    producers: u32,
) -> Result<Vec<Pusher<T>>, NoMemory>
    requires pass { IsPassOf (arc_value lane.now).line pass.old }
    requires declared { knows pass.old ≡ popper (2 ^ 32) producers 0 [] [] [] [] }
    ensures pass { IsSamePass pass.old pass.new }
    ensures count { IfOk result (λ r. length r.items ≡ producers) }
    ensures pushers { let capacity = ruled_capacity (arc_value lane.now).line in
        IfOk result (λ r. r.items
        ≡ new_pushers (new_popper pass.old.table_id capacity producers) producers) }
    ensures popper { OnOk result (knows pass.new
        ≡ popper (2 ^ 32 - producers) producers producers [] [] [] []) }
{
    let mut pushers = Vec::with_capacity(alloc, producers as usize)?;
    for _hired in 0..producers {
        let lane = Arc::try_clone(lane)?;
        let pass = lane.line.another::<Hire>(pass);
        pushers.push_reserved(Pusher { lane, pass });
    }
    Ok(pushers)
}
