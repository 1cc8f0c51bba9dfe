ghost use Rattle.std.specs.Prelude.{◌≡◌, ℕ, None};
ghost use Rattle.m17_ports.specs.Ports.{FailsLast};
ghost use Rattle.m17_words.specs.declared.command.Command.TheVariants as commands;
ghost use Rattle.m17_app.specs.Commands.{Runs};
ghost use Rattle.m17_app.specs.Doing.{doing, done_of};
ghost use Rattle.m17_app.specs.Status.{streams};

use crate::conclude::conclude;
use crate::done::{Ended, alone};
use crate::status::Status;
use m17_client_commands::laws::scripts_are_exact;
use m17_client_commands::{Talked, talk};
use m17_io::{Input, Sink};
use m17_ports::Ports;
use m17_words::TalkOrder;
use std::alloc::Global;
use std::sync::Wait;

// Runs `talk` to its last line.
pub(crate) fn run_talk<R: Wait + Copy, P: Ports, S: Input<K>, K: Sink>(
    rt: &R,
    alloc: Global,
    order: &TalkOrder,
    ports: &mut P,
    input: &mut S,
    out: &mut K,
) -> Ended<P::Ear, P::Mouth, P::Book, R>
    ensures runs { (crew : ℕ) → Runs (commands.Talk order.now) result.status
        (streams (S.told input.old) (K.told out.old)) (streams (S.told input.new) (K.told out.new))
        (doing P.Ear.told P.Mouth.told P.Book.told (P.told ports.old) (P.told ports.new)
        crew crew (done_of result)) }
    ensures fails_last { FailsLast P.told ports.old ports.new }
    ensures no_board { result.board ≡ None }
{
    scripts_are_exact();
    match talk(rt, alloc, order, ports, input, out) {
        Ok(done) => {
            let Talked { ending, devices } = done;
            Ended {
                status: conclude(out, &ending.into_ending()),
                talk: devices,
                house: None,
                refused: None,
                bridge: None,
                board: None,
            }
        }
        Err(_) => alone(Status::NoMemory),
    }
}
