//! What no clause says: that a start succeeds where there is memory, that a job is done once, by a thread of its own
//! beside the caller's, and that a refused one is not done at all.
ghost use Rattle.std.specs.Prelude.{◌≡◌, ◌*◌, ◌+◌, ◌<◌, ◌≤◌, ◌^◌, [], All, OnOk, vec_len, vec_capacity};
ghost use Rattle.std.specs.List.{AllZip};
ghost use Rattle.m17_io.specs.Faults.{HasCause};
ghost use Rattle.m17_crew.specs.Laws.{Ran};

use crate::bench::must;
use m17_crew::{Crew, RefusingCrew, Running, StdCrew, Work, begin, join_all, laws, start_all};
use m17_values::Failed;
use std::alloc::Global;
use std::process::Abort;
use std::sync::atomic::{AtomicU64, Ordering};
use std::sync::{Arc, Wait};
use std::thread::{Builder, Threads, yield_now};

// Doubles its number, and counts how often that was done.
#[derive(Drop)]
struct Doubling {
    number: u32,
    runs: Arc<AtomicU64, Global>,
}

impl Work for Doubling {
    ghost ready = { λ j. j.number < 2 ^ 31 };

    ghost does = { λ j k. k.number ≡ 2 * j.number };

    fn go<R: Wait>(&mut self, _rt: &R) {
        self.runs.fetch_add(1, Ordering::SeqCst);
        self.number *= 2;
    }
}

// The job with this number.
fn make_job<R: Abort>(rt: &R, number: u32, runs: &Arc<AtomicU64, Global>) -> Doubling
    ensures { result.number ≡ number }
{
    Doubling {
        number,
        runs: must(rt, Arc::try_clone(runs)),
    }
}

// The jobs with the numbers 1 to `count`, in order.
fn make_jobs<R: Abort>(
    rt: &R,
    alloc: Global,
    count: u32,
    runs: &Arc<AtomicU64, Global>,
) -> Vec<Doubling>
    requires { count < 2 ^ 31 }
    ensures ready { All (λ j. j.number < 2 ^ 31) result.items }
    ensures count { vec_len result ≡ count }
{
    let mut jobs = Vec::new(alloc);
    for i in 0..count {
        must(rt, jobs.push(make_job(rt, i + 1, runs)));
    }
    jobs
}

#[test]
fn one_job_is_started_and_joined(rt: HostRuntime) {
    let alloc = rt.alloc();
    let runs = must(&rt, Arc::new(alloc, AtomicU64::new(0)));
    let job = make_job(&rt, 21, &runs);
    let running = must(&rt, StdCrew::new().start(&rt, alloc, job));
    let number = running.join(&rt).number;
    assert!(rt; number == 42 && runs.load(Ordering::SeqCst) == 1);
}

// Starts all jobs and joins them. Its clauses show what those of the two calls say together.
fn do_all<W: Work, C: Crew, R: Threads + Wait + Copy + Send + 'static>(
    rt: &R,
    alloc: Global,
    crew: &mut C,
    jobs: &mut Vec<W>,
    running: &mut Vec<Running<W>>,
) -> Result<(), Failed>
    requires ready { All W.ready jobs.old.items }
    requires room { vec_len jobs.old ≤ vec_capacity running.old }
    requires none { running.old.items ≡ [] }
    ensures back { AllZip (Ran W.does) jobs.old.items jobs.new.items }
    ensures done { OnOk result (AllZip W.does jobs.old.items jobs.new.items) }
    ensures cause { HasCause (C.refusals crew.old) (C.refusals crew.new) result }
    ensures none_left { running.new.items ≡ [] }
{
    let answer = start_all(rt, alloc, crew, jobs, running);
    join_all(rt, running, jobs);
    laws::jobs_come_back_in_order::<W>();
    laws::all_jobs_come_back_done::<W>();
    answer
}

// Whether seven jobs came back, and each is done but the first so many.
fn are_seven_done(jobs: &[Doubling], undone: usize) -> bool {
    for (i, job) in jobs.iter().enumerate() {
        let times = if i < undone { 1 } else { 2 };
        if job.number as usize != times * (i + 1) {
            return false;
        }
    }
    jobs.len() == 7
}

// Starts seven jobs by this crew, and joins those that run: whether all were started, whether each is done but the first
// so many, and how often one was done.
fn do_seven<C: Crew, R: Threads + Wait + Abort + Copy + Send + 'static>(
    rt: &R,
    alloc: Global,
    crew: &mut C,
    undone: usize,
) -> (bool, bool, u64) {
    let runs = must(rt, Arc::new(alloc, AtomicU64::new(0)));
    let mut jobs = make_jobs(rt, alloc, 7, &runs);
    let mut running = must(rt, Vec::with_capacity(alloc, 7));
    let started = do_all(rt, alloc, crew, &mut jobs, &mut running).is_ok();
    let done = are_seven_done(jobs.as_slice(), undone);
    (started, done, runs.load(Ordering::SeqCst))
}

#[test]
fn seven_jobs_come_back_done_in_their_order(rt: HostRuntime) {
    let seen = do_seven(&rt, rt.alloc(), &mut StdCrew::new(), 0);
    assert!(rt; seen == (true, true, 7));
}

// The last job is started first.
#[test]
fn jobs_from_a_refused_one_on_come_back_undone(rt: HostRuntime) {
    for refused in 0..7u64 {
        let refusals = must(&rt, Vec::from_array(rt.alloc(), [refused]));
        let mut crew = RefusingCrew::new(refusals);
        let seen = do_seven(&rt, rt.alloc(), &mut crew, 7 - refused as usize);
        assert!(rt;
            seen == (false, true, refused),
            "with start {refused} refused"
        );
    }
}

// Starts a job with the number 5 and joins it: whether it was started, and its number then.
fn start_five<C: Crew, R: Threads + Wait + Abort + Copy + Send + 'static>(
    rt: &R,
    alloc: Global,
    crew: &mut C,
    runs: &Arc<AtomicU64, Global>,
) -> (bool, u32) {
    match crew.start(rt, alloc, make_job(rt, 5, runs)) {
        Ok(running) => (true, running.join(rt).number),
        Err(back) => (false, back.number),
    }
}

#[test]
fn a_crew_refuses_the_starts_that_it_was_told_and_no_others(rt: HostRuntime) {
    let alloc = rt.alloc();
    let runs = must(&rt, Arc::new(alloc, AtomicU64::new(0)));
    let mut crew = RefusingCrew::new(must(&rt, Vec::from_array(alloc, [0, 2, 3])));
    for (start, wanted) in [(false, 5), (true, 10), (false, 5), (false, 5), (true, 10)]
        .iter()
        .enumerate()
    {
        let seen = start_five(&rt, alloc, &mut crew, &runs);
        assert!(rt; seen == *wanted, "start {start}");
    }
    assert!(rt; runs.load(Ordering::SeqCst) == 2);
}

// Waits for a flag, for a bounded number of turns.
#[derive(Drop)]
struct Waiting {
    flag: Arc<AtomicU64, Global>,
    met: bool,
}

impl Work for Waiting {
    ghost ready = { λ _. Unit {0} };

    ghost does = { λ _ _. Unit {0} };

    fn go<R: Wait>(&mut self, _rt: &R) {
        for _turn in 0..1_000_000 {
            if self.flag.load(Ordering::SeqCst) == 1 {
                self.met = true;
                return;
            }
            yield_now();
        }
    }
}

#[test]
fn a_job_runs_beside_the_thread_that_started_it(rt: HostRuntime) {
    let alloc = rt.alloc();
    let flag = must(&rt, Arc::new(alloc, AtomicU64::new(0)));
    let job = Waiting {
        flag: must(&rt, Arc::try_clone(&flag)),
        met: false,
    };
    let running = must(&rt, StdCrew::new().start(&rt, alloc, job));
    flag.store(1, Ordering::SeqCst);
    let met = running.join(&rt).met;
    assert!(rt; met);
}

// Whether a job with the number 5 came back, and was not done, where no thread can have its stack.
fn comes_back<R: Threads + Wait + Abort + Copy + Send + 'static>(rt: &R, alloc: Global) -> bool {
    let runs = must(rt, Arc::new(alloc, AtomicU64::new(0)));
    let too_large = Builder::new().stack_size(usize::MAX);
    match begin(rt, alloc, too_large, make_job(rt, 5, &runs)) {
        Ok(_) => false,
        Err(back) => back.number == 5 && runs.load(Ordering::SeqCst) == 0,
    }
}

#[test]
fn a_job_for_which_there_is_no_thread_is_not_done(rt: HostRuntime) {
    assert!(rt; comes_back(&rt, rt.alloc()));
}
