ghost use Rattle.std.specs.Prelude.{◌≡◌, ℕ, None};
ghost use Rattle.m17_io.specs.Source.{SourceTold};
ghost use Rattle.m17_ports.specs.Ports.{FailsLast};
ghost use Rattle.m17_words.specs.declared.command.Command.TheVariants as commands;
ghost use Rattle.m17_client_commands.specs.Bridged.{IsBridgeable};
ghost use Rattle.m17_app.specs.Commands.{Runs};
ghost use Rattle.m17_app.specs.Doing.{doing, done_of};
ghost use Rattle.m17_app.specs.Status.{streams};

use crate::conclude::conclude;
use crate::done::{Ended, alone};
use crate::guarding::GuardedPorts;
use crate::status::Status;
use m17_client_commands::{Bridged, bridge};
use m17_decorators::Guards;
use m17_io::Sink;
use m17_ports::{Ear, Ports};
use m17_words::BridgeOrder;
use std::alloc::Global;
use std::hash::RandomState;
use std::sync::Wait;

/// How many sides a bridge has.
const SIDES: usize = 2;

// Runs `bridge` to its last line, with a guard before the ear of each side. It reads nothing. The ports come back.
pub(crate) fn run_bridge<R: Wait + Copy, P: Ports + Drop, K: Sink>(
    rt: &R,
    alloc: Global,
    keys: RandomState,
    order: &BridgeOrder,
    ports: P,
    out: &mut K,
) -> (Ended<P::Ear, P::Mouth, P::Book, R>, P)
where
    <P::Ear as Ear>::Label: 'static,
    requires bridgeable { IsBridgeable order.now }
    ensures runs { (source : SourceTold) (crew : ℕ)
        → Runs (commands.Bridge order.now) result.0.status
        (streams source (K.told out.old)) (streams source (K.told out.new))
        (doing P.Ear.told P.Mouth.told P.Book.told (P.told ports) (P.told result.1)
        crew crew (done_of result.0)) }
    ensures fails_last { FailsLast P.told ports result.1 }
    ensures no_board { result.0.board ≡ None }
    ensures no_refusal { result.0.refused ≡ None }
{
    match Guards::make(alloc, keys, SIDES) {
        Ok(guards) => {
            let mut guarded = GuardedPorts { ports, guards };
            let Bridged { ending, devices } = bridge(rt, order, &mut guarded, out);
            let ended = Ended {
                status: conclude(out, &ending.into_ending()),
                talk: None,
                house: None,
                refused: None,
                bridge: devices,
                board: None,
            };
            (ended, guarded.ports)
        }
        Err(_) => (alone(Status::NoMemory), ports),
    }
}
