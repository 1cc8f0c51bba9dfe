ghost use Rattle.std.specs.Prelude.{◌≡◌, ◌≢◌, ℕ, Contains, None, map, string_bytes};
ghost use Rattle.m17_ports.specs.Ports.{FailsLast, next_number};
ghost use Rattle.m17_app.specs.Doing.{doing, done_of};
ghost use Rattle.m17_app.specs.Status.{Tells, IsStatus, beside, count_from, streams};
ghost use Rattle.m17_app.specs.Run.{AreRefused, refused_terms};
ghost use Rattle.m17_app.specs.Commands.{Runs, RunsWords, EndsRefused, IsRunnable, HasBoard, HasThreads, NameBoard, NameNoThreads};
ghost use Rattle.m17_app.specs.Terms.{RunsCommand};
ghost use Rattle.m17_app.specs.Text.{judge_command, show_command, text_terms};

use crate::conclude::{conclude, refuse_words};
use crate::done::{Done, Ended, alone, answer_of};
use crate::run_bridge::run_bridge;
use crate::run_check::run_check;
use crate::run_make::run_make;
use crate::run_migrate::run_migrate;
use crate::run_replay::run_replay;
use crate::run_serve::run_serve;
use crate::run_talk::run_talk;
use crate::status::Status;
use m17_crew::Crew;
use m17_io::{Input, Sink};
use m17_plan::Plan;
use m17_ports::{Book, Ear, Ports};
use m17_words::laws::words_name_one_command;
use m17_words::{Command, WordsRefusal, read_words};
use std::alloc::Global;
use std::hash::RandomState;
use std::sync::Wait;
use std::thread::Threads;
use std::time::Clock;

// Runs `judge` to its last line.
fn run_judge<S: Input<K>, K: Sink>(alloc: Global, input: &mut S, out: &mut K) -> Status
    ensures { (ports crew : ℕ) → RunsCommand (text_terms judge_command) result
        (streams (S.told input.old) (K.told out.old)) (streams (S.told input.new) (K.told out.new))
        (beside (count_from ports ports) (count_from crew crew)) }
{
    match m17_text_commands::judge(alloc, input, out) {
        Ok(ending) => conclude(out, &ending.into_ending()),
        Err(_) => Status::NoMemory,
    }
}

// Runs `show` to its last line.
fn run_show<S: Input<K>, K: Sink>(input: &mut S, out: &mut K) -> Status
    ensures { (ports crew : ℕ) → RunsCommand (text_terms show_command) result
        (streams (S.told input.old) (K.told out.old)) (streams (S.told input.new) (K.told out.new))
        (beside (count_from ports ports) (count_from crew crew)) }
{
    let ending = m17_text_commands::show(input, out);
    conclude(out, &ending.into_ending())
}

// Ends a run whose words are refused.
fn run_nothing<S: Input<K>, K: Sink>(input: &S, out: &mut K) -> Status
    ensures { (ports crew : ℕ) → RunsCommand refused_terms result
        (streams (S.told input.now) (K.told out.old)) (streams (S.told input.now) (K.told out.new))
        (beside (count_from ports ports) (count_from crew crew)) }
{
    refuse_words(out)
}

// Runs the command that the words name. The ports come back.
fn run_command<
    R: Threads + Wait + Clock + Copy + Drop + Send + 'static,
    P: Ports + Drop,
    C: Crew,
    S: Input<K>,
    K: Sink,
>(
    rt: &R,
    alloc: Global,
    keys: RandomState,
    command: Command,
    ports: P,
    crew: &mut C,
    input: &mut S,
    out: &mut K,
) -> (Ended<P::Ear, P::Mouth, P::Book, R>, P)
where
    <P::Ear as Ear>::Label: 'static,
    <P::Book as Book>::Label: 'static,
    requires runnable { IsRunnable command }
    ensures runs { Runs command result.0.status
        (streams (S.told input.old) (K.told out.old)) (streams (S.told input.new) (K.told out.new))
        (doing P.Ear.told P.Mouth.told P.Book.told (P.told ports) (P.told result.1)
        (C.refusals crew.old) (C.refusals crew.new) (done_of result.0)) }
    ensures fails_last { FailsLast P.told ports result.1 }
    ensures unasked { result.0.status ≡ Status.NoMemory → result.0.board ≡ None
        → crew.new ≡ crew.old }
    ensures idle { (HasThreads command → ⊥) → crew.new ≡ crew.old }
    ensures watch { result.0.refused ≢ None → HasBoard command → result.0.board ≡ None
        → C.starts crew.new ≡ next_number (C.starts crew.old) }
    ensures withheld { Contains (C.refuses crew.old) (C.starts crew.old) → result.0.board ≡ None }
{
    let mut ports = ports;
    match command {
        Command::Judge => (alone(run_judge(alloc, input, out)), ports),
        Command::Show => (alone(run_show(input, out)), ports),
        Command::Make { seed, count } => (alone(run_make(seed, count, input, out)), ports),
        Command::Check => (alone(run_check(input, out)), ports),
        Command::Migrate => (alone(run_migrate(alloc, input, out)), ports),
        Command::Replay {
            call,
            modules,
            parrots,
            places,
            summary,
            limit,
            threads,
        } => {
            let plan = Plan {
                name: call,
                modules,
                parrots,
                places,
                patient: true,
                entries: 0,
                limit,
            };
            let status = run_replay(rt, alloc, &plan, summary, threads, crew, input, out);
            (alone(status), ports)
        }
        Command::Talk(order) => {
            let ended = run_talk(rt, alloc, &order, &mut ports, input, out);
            (ended, ports)
        }
        Command::Serve(order) => run_serve(rt, alloc, keys, &order, ports, crew, input, out),
        Command::Bridge(order) => run_bridge(rt, alloc, keys, &order, ports, out),
    }
}

/// Does all that the program does: reads the words, runs their command over the ports, the crew, the source and the
/// sink, and answers the status: 0 where the command went to its end, 1 where the input is refused, 2 where the words
/// are, 3 where the source failed, 4 where the sink failed, in place of all others, 5 where the ports failed, 6 where
/// the crew refused a start, 7 where a link was lost, 8 where a book failed, and 70 where there was no memory. Only
/// `talk`, `serve` and `bridge` ask the ports for anything; where they ran, their devices are handed back, and so are the
/// ports in any case. Only `serve`, and `replay` with `--threads`, have the crew start threads. `make` and `bridge` read no
/// input, and `make` ends with 0 or 4. By `keys`, which should be drawn, guards look for what they have heard.
pub fn run<
    R: Threads + Wait + Clock + Copy + Drop + Send + 'static,
    P: Ports + Drop,
    C: Crew,
    S: Input<K>,
    K: Sink,
>(
    rt: &R,
    alloc: Global,
    keys: RandomState,
    words: &[String],
    ports: P,
    crew: &mut C,
    input: &mut S,
    out: &mut K,
) -> (Done<P::Ear, P::Mouth, P::Book, R>, P)
where
    <P::Ear as Ear>::Label: 'static,
    <P::Book as Book>::Label: 'static,
    // No other status comes.
    ensures status { IsStatus result.0.status }
    // 2 comes where the words name no command, and nowhere else.
    ensures taken { result.0.status ≡ 2 → AreRefused (map string_bytes words.now) }
    // Where the ports fail, that was the last question: until then their count of faults stands.
    ensures fails_last { FailsLast P.told ports result.1 }
    // Want of memory comes before the crew is asked for anything; but the watch of a board, whose book comes back then, may
    // have been started.
    ensures unasked { result.0.status ≡ 70 → result.0.board ≡ None → crew.new ≡ crew.old }
    // Nor is it asked for anything by other words than those of a reflector, or of a replay over threads.
    ensures idle { NameNoThreads (map string_bytes words.now) → crew.new ≡ crew.old }
    // So 6 doesn't come by those.
    ensures started { result.0.status ≡ 6 → NameNoThreads (map string_bytes words.now) → ⊥ }
    // It refused nothing in any case.
    ensures unrefused { result.0.status ≡ 70 → C.refusals crew.new ≡ C.refusals crew.old }
    // Where the devices of a refused run come back without the book of its board, the crew refused the first start, that of the
    // watch; and where the crew withholds that, no book of a board comes back.
    ensures watch { result.0.refused ≢ None → NameBoard (map string_bytes words.now)
        → result.0.board ≡ None → C.starts crew.new ≡ next_number (C.starts crew.old) }
    ensures withheld { Contains (C.refuses crew.old) (C.starts crew.old) → result.0.board ≡ None }
    // The run is that of a command which the words name, or says that they name none.
    ensures runs { Tells result.0.status (λ status. RunsWords (map string_bytes words.now) status
        (streams (S.told input.old) (K.told out.old)) (streams (S.told input.new) (K.told out.new))
        (doing P.Ear.told P.Mouth.told P.Book.told (P.told ports) (P.told result.1)
        (C.refusals crew.old) (C.refusals crew.new) result.0)) }
    // Words that name no command are refused, but for want of memory.
    ensures refused { AreRefused (map string_bytes words.now)
        → Tells result.0.status (λ status. EndsRefused status
        (streams (S.told input.old) (K.told out.old)) (streams (S.told input.new) (K.told out.new))
        (doing P.Ear.told P.Mouth.told P.Book.told (P.told ports) (P.told result.1)
        (C.refusals crew.old) (C.refusals crew.new) result.0)) }
{
    words_name_one_command();
    match read_words(alloc, words) {
        Ok(command) => {
            let (ended, ports) = run_command(rt, alloc, keys, command, ports, crew, input, out);
            (answer_of(ended), ports)
        }
        Err(WordsRefusal::Refused) => (answer_of(alone(run_nothing(input, out))), ports),
        Err(WordsRefusal::NoMemory) => (answer_of(alone(Status::NoMemory)), ports),
    }
}
