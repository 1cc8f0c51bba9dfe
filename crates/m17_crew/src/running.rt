ghost use Rattle.std.specs.Prelude.{◌≡◌, MatchResult};

use crate::Work;
use std::alloc::Global;
use std::marker::Model;
use std::snapshot::Snapshot;
use std::sync::atomic::{AtomicBool, Ordering};
use std::sync::{Arc, Wait};
use std::thread::{Builder, Promise, PromisedHandle, Threads};

// What a thread promises of the job that it was given: done, or as it was where it was recalled.
#[derive(Drop)]
struct Did<W>(Snapshot<W>);

impl<W: Work> Promise<Result<W, W>> for Did<W> {
    ghost kept_by = { λ p r. MatchResult r (λ done. W.does p.0.value done)
        (λ back. back ≡ p.0.value) };
}

/// A job that was started and is still to be joined. Contracts see the job as it was when it was started. One that is
/// dropped lets its thread run on, and what the job does is then known to nobody.
#[derive(Drop)]
pub struct Running<W: Work> {
    job: Snapshot<W>,
    // The thread that does it. Or the job, done: this never comes, but no proof knows it (see `begin`).
    place: Result<PromisedHandle<Result<W, W>, Did<W>>, W>,
}

impl<W: Work> Model for Running<W> {
    ghost use Rattle.std.specs.Prelude.{◌≡◌, MatchResult};

    ghost Value = { W };

    ghost view = { λ r. r.job.value };

    ghost invariant = { λ r. W.ready r.job.value
        × MatchResult r.place (λ thread. thread.promise.0.value ≡ r.job.value)
        (λ done. W.does r.job.value done) };
}

impl<W: Work> Running<W> {
    /// Waits until the thread has ended, and gives the job, done.
    pub fn join<R: Threads + Wait>(self, rt: &R) -> W
        ensures done { W.does self result }
    {
        let Running { job: _, place } = self;
        match place {
            Ok(thread) => match thread.join(rt) {
                Ok(done) => done,
                Err(back) => done_here(rt, back),
            },
            Err(done) => done,
        }
    }
}

// Does the job in this thread.
fn done_here<W: Work, R: Wait>(rt: &R, job: W) -> W
    requires ready { W.ready job }
    ensures done { W.does job result }
{
    let mut job = job;
    job.go(rt);
    job
}

/// Starts a thread of this kind for the job, by no crew: nobody counts it. The job comes back as it was, and nothing of it was
/// done, where the system gives no such thread, and where there is no memory for it.
// The system hands back only the closure that was to run, with the job inside it. So the closure looks at a flag: where
// it is set, it gives the job back and does nothing. Nobody but this function sets it, and only where there is no
// thread, so a thread always does its job and a recalled closure never does. But no proof knows what a flag holds, so
// both answers are handled in both places: `Running` may hold a job that is done, and `join` does one that came back
// undone. The test `a_job_for_which_there_is_no_thread_is_not_done` shows that the flag does its work.
pub fn begin<W: Work, R: Threads + Wait + Copy + Send + 'static>(
    rt: &R,
    alloc: Global,
    kind: Builder,
    job: W,
) -> Result<Running<W>, W>
    requires ready { W.ready job }
    ensures job { MatchResult result (λ running. running ≡ job) (λ back. back ≡ job) }
{
    let Some((recalled, watched)) = make_flag(alloc) else {
        return Err(job);
    };
    let was = Snapshot::of(&job);
    let promise = Did(Snapshot::of(&job));
    let runtime = *rt;
    let started = kind.spawn_with(
        rt,
        promise,
        move || -> Result<W, W>
            requires { W.ready job }
            ensures { MatchResult result (λ done. W.does job done) (λ back. back ≡ job) }
        {
            let (watched, job) = (watched, job);
            done_unless(&runtime, watched, job)
        },
    );
    let place = match started {
        Ok(thread) => Ok(thread),
        Err(refused) => {
            recalled.store(true, Ordering::SeqCst);
            Err((refused.value)()?)
        }
    };
    Ok(Running { job: was, place })
}

// A flag that isn't set: for the one who may set it, and for the one who looks at it.
fn make_flag(alloc: Global) -> Option<(Arc<AtomicBool, Global>, Arc<AtomicBool, Global>)> {
    let flag = Arc::new(alloc, AtomicBool::new(false)).ok()?;
    let same = Arc::try_clone(&flag).ok()?;
    Some((flag, same))
}

// Does the job, or gives it back where it was recalled.
fn done_unless<W: Work, R: Wait>(rt: &R, recalled: Arc<AtomicBool, Global>, job: W) -> Result<W, W>
    requires ready { W.ready job }
    ensures done { MatchResult result (λ done. W.does job done) (λ back. back ≡ job) }
{
    if recalled.load(Ordering::SeqCst) {
        return Err(job);
    }
    Ok(done_here(rt, job))
}
