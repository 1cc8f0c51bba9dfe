ghost use Rattle.std.specs.Prelude.{◌≡◌, ◌∷◌, []};
ghost use Rattle.m17_values.specs.declared.heard.Heard.{Heard};
ghost use Rattle.m17_ports.specs.Ear.{HasHeard};
ghost use Rattle.m17_client.specs.Sides.{both, of, opposite};
ghost use Rattle.m17_client.specs.StandsFor.{IsNewBridge};
ghost use Rattle.m17_client.specs.CrossDevices.{HasCrossed, devices_told};

use crate::bridge_run::Run;
use crate::{Bridge, Side};
use m17_ports::laws::{ears_hear_in_turn, mouths_say_in_turn};
use m17_ports::{Ear, Mouth};
use m17_values::{Heard, Peer};
use std::sync::Wait;

/// What a run of `cross` came to.
#[derive(Clone, Copy, Debug, PartialEq, Eq)]
pub struct BridgeEnd {
    /// How many packets passed from near to far, counted to 2^64 - 1.
    pub near: u64,
    /// How many passed from far to near, counted so too.
    pub far: u64,
    /// Whether an ear failed 16 times in a row.
    pub lost: bool,
}

/// Runs a bridge that has made no step over the devices of its sides: each ear hears what comes to
/// the client there, and each mouth says to the reflector of its side, `near_to` or `far_to`, what
/// that client says. The ears are heard in turn, near first. Each entry is one turn: a datagram of
/// the side's reflector is stepped as one, a datagram of another peer and a quiet moment as a quiet
/// moment, and a Fault not at all. A datagram that a mouth fails to send is lost. The run is over
/// at the first entry that is End or the 16th Fault of its ear in a row, or after which a client is
/// Closed. Then both clients leave, near first. It waits as long as the ears do, and as long as
/// none of the three comes.
pub fn cross<R: Wait, E: Ear, M: Mouth>(
    rt: &R,
    near_ear: &mut E,
    near_mouth: &mut M,
    far_ear: &mut E,
    far_mouth: &mut M,
    near_to: &Peer,
    far_to: &Peer,
    bridge: Bridge,
) -> BridgeEnd
    requires { IsNewBridge bridge }
    ensures { HasCrossed
        (record { ends = bridge.clients; to = both near_to.now far_to.now })
        result
        (devices_told (E.told near_ear.old) (M.told near_mouth.old)
        (E.told far_ear.old) (M.told far_mouth.old))
        (devices_told (E.told near_ear.new) (M.told near_mouth.new)
        (E.told far_ear.new) (M.told far_mouth.new)) }
{
    ears_hear_in_turn::<E::Label>();
    mouths_say_in_turn::<M::Label>();
    let mut run = Run::new(bridge);
    for _ in rt.forever() {
        let entry = hear(run.side, near_ear, far_ear);
        run.take(entry, near_to, near_mouth, far_to, far_mouth);
        if run.is_over() {
            run.leave(near_to, near_mouth, far_to, far_mouth);
            return run.end();
        }
    }
    unreachable!()
}

// What the ear of a side hears.
fn hear<E: Ear>(side: Side, near: &mut E, far: &mut E) -> Heard
    ensures heard { HasHeard (of side (both (E.told near.old) (E.told far.old))) (result ∷ [])
        (of side (both (E.told near.new) (E.told far.new))) }
    ensures other { of (opposite side) (both (E.told near.new) (E.told far.new))
        ≡ of (opposite side) (both (E.told near.old) (E.told far.old)) }
{
    ears_hear_in_turn::<E::Label>();
    match side {
        Side::Near => near.hear(),
        Side::Far => far.hear(),
    }
}
