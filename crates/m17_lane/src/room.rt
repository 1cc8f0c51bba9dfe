//! Where the producers of a lane sleep while it is full, and when they are woken.

use crossbeam_utils::sync::{EventCount, Key};
use std::sync::Wait;
use std::sync::atomic::{AtomicBool, Ordering};

/// The sleep of the producers of a full lane.
///
/// Where there is one, it is woken once half of the queue is free, and not at each pop: a producer that was woken for one
/// place would push one item and sleep again, at the price of a system call for each item on either side. Several are all
/// woken by the first pop, since one of them that is awake may fill the queue again and again and keep it above the half.
///
/// No room is missed. A producer says first that it wants room, tries then, and sleeps only where the queue was full. So
/// each pop behind that try finds that room is wanted, up to the one that takes the want and wakes all who sleep, also one
/// that has not begun; and a consumer that empties what it pops comes to that one. A want that is said behind it was said
/// before another try.
#[derive(Drop)]
pub struct Room {
    count: EventCount,
    wanted: AtomicBool,
    // How many items the queue may hold when producers are woken.
    low: usize,
}

/// A producer's sleep that was announced.
pub struct Wanted<'a> {
    key: Key<'a>,
}

impl Room {
    /// For a queue of that capacity, on which nobody waits.
    pub fn new(producers: u32, capacity: u32) -> Room {
        let low = if producers == 1 {
            capacity / 2
        } else {
            capacity
        };
        Room {
            count: EventCount::new(),
            wanted: AtomicBool::new(false),
            low: low as usize,
        }
    }

    /// Says that this thread will sleep until there is room. Try to push after it, and sleep where the queue was full.
    pub fn want(&self) -> Wanted<'_> {
        // models/lane.pml: want-counted
        let key = self.count.prepare_wait();
        // models/lane.pml: want-said
        self.wanted.store(true, Ordering::SeqCst);
        Wanted { key }
    }

    /// Whether a producer waits for room since the last waking.
    pub fn is_wanted(&self) -> bool {
        // models/lane.pml: want-asked
        self.wanted.load(Ordering::SeqCst)
    }

    /// Wakes the producers that wait, where the queue holds few enough items.
    pub fn tell(&self, held: usize) {
        // models/lane.pml: want-taken
        if held <= self.low && self.wanted.swap(false, Ordering::SeqCst) {
            // models/lane.pml: room-woken
            self.count.notify_all();
        }
    }
}

impl Wanted<'_> {
    /// Sleeps until there is room. It may return without.
    pub fn sleep<R: Wait>(self, rt: &R) {
        let Wanted { key } = self;
        // models/lane.pml: slept-for-room
        key.wait(rt);
    }
}

impl Drop for Wanted<'_> {
    fn drop(self) {
        let Wanted { key } = self;
        // models/lane.pml: want-dropped
        drop(key);
    }
}
