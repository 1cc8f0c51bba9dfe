//! The thread that waits for the end of a file, which is to stop the ears.
ghost use Rattle.std.specs.Prelude.{◌≡◌, true, false, IfOk};

use crate::stop::Stop;
use m17_crew::{Crew, StdCrew, Work};
use m17_values::{Failed, NoMemory};
use std::alloc::Global;
use std::fs;
use std::io::{ErrorKind, Read};
use std::sync::atomic::{AtomicBool, Ordering};
use std::sync::{Arc, Wait};
use std::thread::Threads;

/// How many bytes of the file are read at a time. Nobody looks at them.
const READ_BYTES: usize = 64;

// The job of the thread: it opens the file of this name, which waits for a writer where it is a FIFO, reads it to its end, or
// fails, and sets the flag.
#[derive(Drop)]
struct Waiter {
    files: HostRuntime,
    name: String,
    flag: Arc<AtomicBool, Global>,
}

impl Work for Waiter {
    ghost ready = { λ _. Unit {0} };

    ghost does = { λ _ _. Unit {0} };

    fn go<R: Wait>(&mut self, _rt: &R) {
        read_to_end(&self.files, self.name.as_str());
        self.flag.store(true, Ordering::SeqCst);
    }
}

// What stops ears when the file of this name has come to its end. `Failed` where there is no such file, and where there is
// no thread or no memory for it. Nobody joins the thread, since it may wait for as long as the process lives.
pub(crate) fn stop_at_end<R: Threads + Wait + Copy + Send + 'static>(
    rt: &R,
    host: HostRuntime,
    name: String,
) -> Result<Stop, Failed>
    ensures { IfOk result (λ s. s ≡ record { there = true; seen = false }) }
{
    if fs::metadata(&host, name.as_str()).is_err() {
        return Err(Failed);
    }
    let Ok((flag, stop)) = make(host.alloc()) else {
        return Err(Failed);
    };
    let waiter = Waiter {
        files: host,
        name,
        flag,
    };
    match StdCrew::new().start(rt, host.alloc(), waiter) {
        Ok(_running) => Ok(stop),
        Err(_back) => Err(Failed),
    }
}

// A flag that isn't set, and what its setting stops.
fn make(alloc: Global) -> Result<(Arc<AtomicBool, Global>, Stop), NoMemory>
    ensures { IfOk result (λ r. r.1 ≡ record { there = true; seen = false }) }
{
    let flag = Arc::new(alloc, AtomicBool::new(false))?;
    let stop = Stop::at(Arc::try_clone(&flag)?);
    Ok((flag, stop))
}

// Reads a file to its end, or to an error.
fn read_to_end(files: &HostRuntime, name: &str) {
    let Ok(mut file) = fs::open(files, name) else {
        return;
    };
    let mut bytes = [0; READ_BYTES];
    for _ in 0..u64::MAX {
        match file.read(&mut bytes) {
            Ok(0) => return,
            Ok(_) => {}
            Err(e) => {
                if e.kind() != ErrorKind::Interrupted {
                    return;
                }
            }
        }
    }
}
