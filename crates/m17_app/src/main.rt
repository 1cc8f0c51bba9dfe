//! The program. `run` reads the words, runs their command over any source and sink, writes the last line and answers
//! the status; it promises what was written for the bytes that came in, the cause of each status, and that the sink
//! holds nothing back at the end. `main` hands it the standard streams, the ports of the machine (`m17_net`) and the
//! system's threads (`m17_crew`), closes its books, and ends with its answer. `StdIn` and `StdOut` are the
//! trusted edge: one call of the system each, counted faults, and no content told. What lies between them and `run` is left
//! to `m17_streams`, sockets and files to `m17_net`, and what the commands print to their own crates.
#![tactic(auto)]

mod closing;
mod conclude;
mod done;
mod fitted;
mod guarding;
mod habits;
mod interruption;
mod laws;
mod run;
mod run_bridge;
mod run_check;
mod run_make;
mod run_migrate;
mod run_replay;
mod run_serve;
mod run_talk;
mod status;
mod std_in;
mod std_out;
mod streams;
mod words;

ghost use Rattle.std.specs.Prelude.{◌≡◌, [], ℕ, map, option_map, string_bytes};
ghost use Rattle.std.specs.Process.{exit_status};
ghost use Rattle.m17_app.specs.Started.{AreAll, AreEnded, AreGiven, EndsAsRun, IsClosed};
ghost use Rattle.m17_app.specs.Status.{IsStatus};

use closing::{Ended, close_books, ports_of, staff_books};
use habits::with_habits;
use m17_crew::StdCrew;
use status::Status;
use std::alloc::Global;
use std::env;
use std::fs::File;
use std::hash::RandomState;
use std::net::Net;
use std::process::ExitCode;
use std::rt::Files;
use std::sync::Wait;
use std::thread::Threads;
use std::time::Clock;
use words::{run_words, words_of};

fn main(rt: HostRuntime) -> ExitCode {
    let words = words_of(rt.alloc(), env::args(&rt));
    start(rt, &rt, words).0
}

// Runs the program by these words, where there was memory for them, on the standard streams, over sockets, files and the
// system's threads, and closes its books, of whose threads it hands back the jobs. It starts threads and waits by `waits`,
// which is the runtime too.
fn start<
    W: Threads
        + Wait
        + Net
        + Files<File = File>
        + Clock
        + AllocGlobal
        + Copy
        + Drop
        + Send
        + 'static,
>(rt: HostRuntime, waits: &W, words: Option<Vec<String>>) -> (ExitCode, Ended)
    ensures status { IsStatus (exit_status result.0) }
    // The jobs are those of threads that were started for new books, each as it ended.
    ensures books { AreEnded result.1.items }
    // The process ends with the status of a run of the program by these words; but 0 becomes 8, or 4, where a book was not
    // written. There are as many jobs as the run's command keeps traces and books, unless the ports counted a fault before.
    ensures ran { (ended : ℕ) × (run : EndsAsRun (Unit {0}) (Unit {0}) (Unit {0}) ended)
        × IsClosed result.1.items ended (exit_status result.0)
        × AreAll run.words run.first result.1.items
        × AreGiven (option_map (λ words. map string_bytes words.items) words) run.words }
{
    let Some((words, habits)) = with_habits(rt.alloc(), words) else {
        return no_memory(rt.alloc());
    };
    let Ok(keys) = RandomState::new(&rt) else {
        return no_memory(rt.alloc());
    };
    let books = habits.books;
    let mut ports = ports_of(*waits, rt, habits);
    let Ok(staff) = staff_books(&mut ports, rt.alloc(), books) else {
        return no_memory(rt.alloc());
    };
    let mut crew = StdCrew::new();
    let (status, _ports) = run_words(
        waits,
        rt.alloc(),
        keys,
        words,
        ports,
        &mut crew,
        rt.stdin(),
        &rt,
    );
    let (closed, ended) = close_books(waits, rt.alloc(), staff, status, &rt);
    (ExitCode::from(closed), ended)
}

// The end of the program where there was no memory before its command began.
fn no_memory(alloc: Global) -> (ExitCode, Ended)
    ensures { (exit_status result.0 ≡ 70) × (result.1.items ≡ []) }
{
    (ExitCode::from(Status::NoMemory.code()), Vec::new(alloc))
}

#[cfg(test)]
mod board_tests;
#[cfg(test)]
mod bridge_tests;
#[cfg(test)]
mod failing_outcomes;
#[cfg(test)]
mod failing_tests;
#[cfg(test)]
mod faults_tests;
#[cfg(test)]
mod fitted_tests;
#[cfg(test)]
mod rules_tests;
#[cfg(test)]
mod serve_tests;
#[cfg(test)]
mod std_tests;
#[cfg(test)]
mod talk_tests;
#[cfg(test)]
mod tests;
#[cfg(test)]
mod waiting_tests;
