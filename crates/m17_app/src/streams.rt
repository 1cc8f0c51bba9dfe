ghost use Rattle.std.specs.Prelude.{◌≡◌, ◌⊎◌, map, string_bytes};
ghost use Rattle.m17_io.specs.Faults.{HasRisen};
ghost use Rattle.m17_app.specs.Status.{IsStatus, Tells, count_from};
ghost use Rattle.m17_app.specs.Run.{AreRefused};
ghost use Rattle.m17_app.specs.Commands.{NameNoBoard};
ghost use Rattle.m17_app.specs.Started.{HasRun};

use crate::run::run;
use crate::status::Status;
use crate::std_in::StdIn;
use crate::std_out::StdOut;
use m17_crew::Crew;
use m17_ports::{Book, Ear, Ports};
use m17_streams::{BufferedSink, BufferedSource};
use std::alloc::Global;
use std::hash::RandomState;
use std::io::Read;
use std::sync::Wait;
use std::thread::Threads;
use std::time::Clock;

/// Runs the program over these ports and this crew, on a reader and on what prints, both buffered. `NoMemory` also
/// where there is none for the buffers. The ports come back.
pub fn run_on<
    H: Threads + Wait + Clock + Copy + Drop + Send + 'static,
    Q: Ports + Drop,
    C: Crew,
    R: Read + Drop,
    P: Print,
>(
    rt: &H,
    alloc: Global,
    keys: RandomState,
    words: &[String],
    ports: Q,
    crew: &mut C,
    reader: R,
    to: &P,
) -> (u8, Q)
where
    <Q::Ear as Ear>::Label: 'static,
    <Q::Book as Book>::Label: 'static,
    ensures status { IsStatus result.0 }
    // The words that name no command are refused, and no others.
    ensures refused { AreRefused (map string_bytes words.now)
        → (result.0 ≡ 2) ⊎ (result.0 ≡ 4) ⊎ (result.0 ≡ 70) }
    ensures taken { result.0 ≡ 2 → AreRefused (map string_bytes words.now) }
    // Ports that failed and a crew that refused a start were counted.
    ensures port_failed { result.0 ≡ 5 → HasRisen (Q.told ports).faults (Q.told result.1).faults }
    ensures crew_refused { result.0 ≡ 6 → HasRisen (C.refusals crew.old) (C.refusals crew.new) }
    // Want of memory comes before the crew is asked, but for the watch of a board; it refused nothing in any case.
    ensures unasked { result.0 ≡ 70 → NameNoBoard (map string_bytes words.now) → crew.new ≡ crew.old }
    ensures unrefused { result.0 ≡ 70 → C.refusals crew.new ≡ C.refusals crew.old }
    // It is the status of a run of these words over these ports and this crew.
    ensures ran { Tells result.0 (λ status.
        HasRun Q.Ear.Label Q.Mouth.Label Q.Book.Label (map string_bytes words.now) status
        (Q.told ports) (Q.told result.1)
        (count_from (C.refusals crew.old) (C.refusals crew.new))) }
{
    let Ok(mut input) = BufferedSource::make(alloc, StdIn::new(reader)) else {
        return (Status::NoMemory.code(), ports);
    };
    let Ok(mut out) = BufferedSink::make(alloc, StdOut::new(to)) else {
        return (Status::NoMemory.code(), ports);
    };
    let (done, ports) = run(rt, alloc, keys, words, ports, crew, &mut input, &mut out);
    (done.status, ports)
}
