//! What no clause says: that all jobs go where there are threads and memory, and that none does where one start is refused.
ghost use Rattle.std.specs.Prelude.{◌≡◌, false, vec_capacity};
ghost use Rattle.m17_lane.specs.Starts.{HasStarted};
ghost use Rattle.m17_reflect.specs.Groups.{CanStart};

use crate::bench::must;
use m17_crew::{Crew, Order, RefusingCrew, StdCrew, Work};
use m17_lane::{Popper, make_one, starts};
use m17_reflect::{Group, launch};
use std::alloc::Global;
use std::process::Abort;
use std::sync::Wait;
use std::thread::Threads;

// Keeps in mind whether it was told to go.
#[derive(Drop)]
struct Obeying {
    order: Popper<Order>,
    went: bool,
}

impl Work for Obeying {
    ghost ready = { λ j. j.went ≡ false };

    ghost does = { λ j k. HasStarted j.order k.went k.order };

    fn go<R: Wait>(&mut self, rt: &R) {
        self.went = starts(rt, &mut self.order);
    }
}

fn one_job<R: Abort>(rt: &R, alloc: Global) -> Group<Obeying>
    ensures { CanStart (λ j. j.went ≡ false) result.jobs.items result.running.items
        (vec_capacity result.running) }
{
    let (told, order) = must(rt, make_one(alloc, 2));
    let job = Obeying { order, went: false };
    Group {
        jobs: must(rt, Vec::from_array(alloc, [job])),
        orders: must(rt, Vec::from_array(alloc, [told])),
        running: must(rt, Vec::with_capacity(alloc, 1)),
    }
}

// How many of the jobs went.
fn count_went(jobs: &[Obeying]) -> usize {
    jobs.iter().filter(|job| job.went).count()
}

// Launches three groups of one job each: whether all were started, and how many of each went.
fn launch_three<C: Crew, R: Threads + Wait + Abort + Copy + Send + 'static>(
    rt: &R,
    alloc: Global,
    crew: &mut C,
) -> (bool, [usize; 3]) {
    let mut a = one_job(rt, alloc);
    let mut b = one_job(rt, alloc);
    let mut c = one_job(rt, alloc);
    let started = launch(rt, alloc, crew, &mut a, &mut b, &mut c).is_ok();
    let went = [
        count_went(a.jobs.as_slice()),
        count_went(b.jobs.as_slice()),
        count_went(c.jobs.as_slice()),
    ];
    (started, went)
}

#[test]
fn all_jobs_go_where_none_is_refused(rt: HostRuntime) {
    let seen = launch_three(&rt, rt.alloc(), &mut StdCrew::new());
    assert!(rt; seen == (true, [1; 3]));
}

#[test]
fn no_job_goes_where_one_is_refused(rt: HostRuntime) {
    for refused in 0..3u64 {
        let refusals = must(&rt, Vec::from_array(rt.alloc(), [refused]));
        let seen = launch_three(&rt, rt.alloc(), &mut RefusingCrew::new(refusals));
        assert!(rt; seen == (false, [0; 3]), "start {refused}");
    }
}
