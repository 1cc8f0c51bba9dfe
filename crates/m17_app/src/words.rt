ghost use Rattle.std.specs.Prelude.{◌≡◌, ◌≢◌, [], drop, map, string_bytes, IfErr, IfOk, IfSome, MatchOption, None};
ghost use Rattle.std.specs.Vec.Iter.{into_iter_items};
ghost use Rattle.std.specs.IoError.{error_kind};
ghost use Rattle.m17_net.specs.Devices.{udp_ports_told};
ghost use Rattle.m17_app.specs.Habits.{AreWanted};
ghost use Rattle.m17_app.specs.Started.{HasRun};
ghost use Rattle.m17_app.specs.Status.{Tells, count_from};

use crate::streams::run_on;
use m17_crew::Crew;
use m17_net::UdpPorts;
use std::alloc::Global;
use std::env::Args;
use std::fs::File;
use std::hash::RandomState;
use std::io::{self, ErrorKind, Read};
use std::net::Net;
use std::rt::Files;
use std::sync::Wait;
use std::thread::Threads;
use std::time::Clock;

/// Runs the program by these words over the ports of the machine, on a reader and on what prints. The ports come back.
pub fn run_words<
    W: Threads
        + Wait
        + Net
        + Files<File = File>
        + Clock
        + AllocGlobal
        + Copy
        + Drop
        + Send
        + 'static,
    C: Crew,
    R: Read + Drop,
    P: Print,
>(
    rt: &W,
    alloc: Global,
    keys: RandomState,
    words: Vec<String>,
    ports: UdpPorts<W>,
    crew: &mut C,
    reader: R,
    to: &P,
) -> (u8, UdpPorts<W>)
    // The ports rest, stop and lock as the command of these words wants it.
    requires wanted { AreWanted (map string_bytes words.items) ports }
    ensures { Tells result.0 (λ status. HasRun (Unit {0}) (Unit {0}) (Unit {0})
        (map string_bytes words.items) status (udp_ports_told ports) (udp_ports_told result.1)
        (count_from (C.refusals crew.old) (C.refusals crew.new))) }
{
    run_on(rt, alloc, keys, &words, ports, crew, reader, to)
}

/// The words after the program's name, of what the runtime gave. Words that are no text name no command, as no words do;
/// `None` where there was no memory for them.
pub fn words_of(alloc: Global, given: io::Result<Args>) -> Option<Vec<String>>
    ensures taken { IfOk given (λ all. IfSome result (λ words.
        words.items ≡ drop 1 (into_iter_items all))) }
    ensures no_text { IfErr given (λ error. error_kind error ≡ ErrorKind.InvalidData
        → MatchOption result ⊥ (λ words. words.items ≡ [])) }
    ensures no_memory { IfErr given (λ error. error_kind error ≢ ErrorKind.InvalidData
        → result ≡ None) }
{
    match given {
        Ok(all) => words_after_name(alloc, all),
        Err(error) => {
            if error.kind() == ErrorKind::InvalidData {
                Some(Vec::new(alloc))
            } else {
                None
            }
        }
    }
}

// The words after the first one. `None` where there was no memory for them.
fn words_after_name(alloc: Global, all: Args) -> Option<Vec<String>>
    ensures { IfSome result (λ words. words.items ≡ drop 1 (into_iter_items all)) }
{
    let mut rest = all;
    let _name = rest.next();
    let mut words = Vec::new(alloc);
    while let Some(word) = rest.next() {
        if words.push(word).is_err() {
            return None;
        }
    }
    Some(words)
}
