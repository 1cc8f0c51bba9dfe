//! What the clauses of `start_all` and `join_all` come to together. Each function has no body: its clause is the law.
ghost use Rattle.m17_crew.specs.Laws.{AllJobsComeBackDone, JobsComeBackInOrder};

use crate::Work;

/// Jobs that were started in order, not all of them, and joined come back in order, each done or as it was.
pub fn jobs_come_back_in_order<W: Work>()
    ensures { JobsComeBackInOrder W.does }
{}

/// Jobs that were all started and joined come back done, in order.
pub fn all_jobs_come_back_done<W: Work>()
    ensures { AllJobsComeBackDone W.does }
{}
