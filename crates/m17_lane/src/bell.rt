//! The bell of a consumer: where it sleeps, and what its producers ring.

use crate::marks::Marks;
use crossbeam_utils::sync::{EventCount, Key};
use m17_values::NoMemory;
use std::alloc::Global;
use std::sync::atomic::{AtomicBool, Ordering};
use std::sync::{Arc, Wait};

/// Where a consumer sleeps while all its lanes are empty, and what a push rings, or a `Pusher::rouse` for pushes that don't.
/// Several lanes may share one bell, so that one thread can wait for all of them.
///
/// A consumer of several lanes waits in three steps, in this order: it announces that it will sleep, tries each of its
/// lanes once more, and sleeps only where each was empty. `Announced` says why none of the three may be left out.
///
/// ```text
/// let announced = bell.announce();
/// let item = first.try_pop(rt) .. or second.try_pop(rt) ..;
/// match item { Some(item) => .., None => announced.sleep(rt) }
/// ```
///
/// A consumer of very many lanes does not try them all: its bell has marks (`make_marked`), and a push on a lane with a
/// mark (`make_one_marked`) sets it, so that the consumer knows where to look. It takes the marks, pops those lanes until
/// they are empty, and then rests.
///
/// ```text
/// for word in 0..bell.words() { .. bell.take_marks(word) .. }
/// .. pop each marked lane until it is empty ..
/// bell.rest(rt);
/// ```
///
/// Where to look is a hint, and no clause of any contract rests on it. `marks.rt` says why no push is missed.
///
/// All that is to wake this thread has to come by a lane of this bell.
#[derive(Drop)]
pub struct Bell {
    rung: Arc<Rung, Global>,
    // The mark that a push on the lane of this bell sets, if it has one.
    mark: Option<u32>,
}

// What all owners of a bell share: the sleep of its consumer, whether one was announced since the last ringing, whether the
// last that was announced is a doze, and the marks, of which most bells have none.
#[derive(Drop)]
struct Rung {
    count: EventCount,
    announced: AtomicBool,
    dozes: AtomicBool,
    marks: Marks,
}

impl Bell {
    /// A new bell, which no lane rings yet. `NoMemory` where there is none for it.
    pub fn make(alloc: Global) -> Result<Bell, NoMemory> {
        Bell::make_marked(alloc, 0)
    }

    /// A new bell with marks for that many lanes, from 0 on, of which none is set. `NoMemory` where there is none for it.
    pub fn make_marked(alloc: Global, lanes: u32) -> Result<Bell, NoMemory> {
        let marks = Marks::make(alloc, lanes)?;
        let rung = Rung {
            count: EventCount::new(),
            announced: AtomicBool::new(false),
            dozes: AtomicBool::new(false),
            marks,
        };
        let rung = Arc::new(alloc, rung)?;
        Ok(Bell { rung, mark: None })
    }

    /// The same bell once more, for a consumer that keeps one beside its lanes. `NoMemory` where it has too many owners.
    pub fn share(&self) -> Result<Bell, NoMemory> {
        let rung = Arc::try_clone(&self.rung)?;
        Ok(Bell { rung, mark: None })
    }

    // The same bell for a lane whose pushes set this mark.
    pub(crate) fn share_marked(&self, mark: u32) -> Result<Bell, NoMemory> {
        let rung = Arc::try_clone(&self.rung)?;
        Ok(Bell {
            rung,
            mark: Some(mark),
        })
    }

    /// How many words of 64 marks it has: 0 for a bell without marks.
    pub fn words(&self) -> usize {
        self.rung.marks.words()
    }

    /// Which marks of a word are set: bit b, from the lowest, stands for mark `64 * word + b`. What it answers is taken:
    /// it is answered again only after another push. Pop these lanes after it, and until they are empty, or keep in mind
    /// which are not. 0 for a word that is not there.
    pub fn take_marks(&self, word: usize) -> u64 {
        self.rung.marks.take(word)
    }

    /// Sleeps until a push on a lane with a mark rings, or somebody rouses it, and not at all where one was pushed to since its
    /// mark was taken. It may return without a push. A push on a lane of this bell without a mark does not end it for sure.
    pub fn rest<R: Wait>(&self, rt: &R) {
        // models/bells.pml: rest-announced
        let announced = self.announce();
        if !self.rung.marks.any() {
            announced.sleep(rt);
        }
    }

    /// Says that this thread will sleep until a push on a lane of this bell rings. Try each lane after it, then `sleep`; to go
    /// on in place of sleeping, drop what it answers.
    pub fn announce(&self) -> Announced<'_> {
        self.announce_as(false)
    }

    /// `announce` for a consumer that need not have at once what is pushed quietly: such a push ends the sleep only once enough
    /// items are in its lane (see `Pusher::push_quietly`), and any other that rings does at once.
    pub fn announce_doze(&self) -> Announced<'_> {
        self.announce_as(true)
    }

    // Who dozes says so before it announces, so that who finds the announcement knows.
    fn announce_as(&self, dozes: bool) -> Announced<'_> {
        // models/lane.pml: sleep-counted
        let key = self.rung.count.prepare_wait();
        // models/lane.pml: doze-said
        self.rung.dozes.store(dozes, Ordering::SeqCst);
        // models/lane.pml: sleep-announced
        self.rung.announced.store(true, Ordering::SeqCst);
        Announced { key }
    }

    /// Whether a doze was announced last, and nothing has rung since.
    pub fn is_dozed_on(&self) -> bool {
        // models/lane.pml: announcement-asked
        // models/lane.pml: doze-asked
        self.rung.announced.load(Ordering::SeqCst) && self.rung.dozes.load(Ordering::SeqCst)
    }

    // Sets the lane's mark, if it has one, after a push and before it rings.
    pub(crate) fn set_mark(&self) {
        if let Some(mark) = self.mark {
            self.rung.marks.set(mark);
        }
    }

    // Wakes who sleeps on the bell, after a push or where it is roused. The first call behind an announcement wakes, by a
    // system call where somebody sleeps; for those that follow it is one read of a word, also while the one that was woken has
    // not come to run yet. It wakes for a push on any lane of the bell.
    pub(crate) fn ring(&self) {
        let announced = &self.rung.announced;
        // models/lane.pml: announcement-looked
        // models/lane.pml: announcement-taken
        if announced.load(Ordering::SeqCst) && announced.swap(false, Ordering::SeqCst) {
            // models/lane.pml: sleeper-woken
            self.rung.count.notify_all();
        }
    }
}

/// An announced sleep on a bell.
///
/// No push is missed: a push puts its item into the queue first and then looks whether a sleep is announced (one that can
/// wait leaves a doze, as `is_left_asleep` in `lane.rt` says, and behind one that doesn't ring it is for `Pusher::rouse`
/// to look). Where the announcement comes before that look, the push ends the sleep, also one that has not begun, or finds
/// that another push took the announcement and ends it. Where it comes after, the item is in the queue when the lanes are
/// tried. The sleep is counted before it is announced, so who takes the announcement finds somebody to wake. A lane that
/// was tried before the announcement tells nothing: its item could come in between, and the thread would sleep on it.
pub struct Announced<'a> {
    key: Key<'a>,
}

impl Announced<'_> {
    /// Sleeps until a push on a lane of the bell rings, or has since the announcement. It may return without one.
    pub fn sleep<R: Wait>(self, rt: &R) {
        let Announced { key } = self;
        // models/lane.pml: slept
        key.wait(rt);
    }
}

impl Drop for Announced<'_> {
    fn drop(self) {
        let Announced { key } = self;
        // models/lane.pml: sleep-dropped
        drop(key);
    }
}
