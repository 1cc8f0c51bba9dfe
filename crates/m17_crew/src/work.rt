use std::sync::Wait;

/// A job for a thread of its own. It owns all that it needs, goes into the thread with it, and comes back with it.
pub trait Work: Drop + Send + 'static {
    /// What has to hold of the job before it is done.
    ghost ready: { Self → Type 0 };

    /// What holds between the job before and after.
    ghost does: { Self → Self → Type 0 };

    /// Does the job, once. It may wait for other threads, and owes no return.
    fn go<R: Wait>(&mut self, rt: &R)
        requires ready { ready self.old }
        ensures done { does self.old self.new };
}
