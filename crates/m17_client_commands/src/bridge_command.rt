ghost use Rattle.std.specs.Prelude.{◌≡◌, ℕ, IfSome, None, OnOk, OnErr};
ghost use Rattle.m17_io.specs.Faults.{HasCause, HasCauses};
ghost use Rattle.m17_client.specs.CrossDevices.{devices_told, HasCrossed};
ghost use Rattle.m17_client_commands.specs.Bridged.{bridge_plan, bridge_told, ending_of, failed_device, handed, ComesToBridge, IsBridgeable, IsKnown};
ghost use Rattle.m17_client_commands.specs.Printing.{Prints};
ghost use Rattle.m17_ports.specs.Ports.{FailsLast};
ghost use Rattle.std.specs.Option.{option_map};

use crate::bridge_command_line::make_bridge_line;
use crate::bridge_command_opening::open;
use crate::{BridgeEnding, Bridged, KnownPorts};
use m17_client::{Bridge, BridgeEnd, Client, cross};
use m17_io::Sink;
use m17_ports::{Ear, Mouth};
use m17_print::Line;
use m17_values::Failed;
use m17_words::BridgeOrder;
use std::sync::Wait;

/// Runs a bridge as its words say: asks the ports for the near link and then for the far one, runs a client of each
/// side's reflector over them, each of which says what the other keeps, one side at a time, and writes a line with the
/// numbers of packets that passed. The answer says how it ended, with the devices where the bridge ran; the last line is
/// the caller's to write. It waits as long as the ears go on.
pub fn bridge<R: Wait, P: KnownPorts, K: Sink>(
    rt: &R,
    order: &BridgeOrder,
    ports: &mut P,
    out: &mut K,
) -> Bridged<P::Ear, P::Mouth>
    requires { IsBridgeable order.now }
    // The sink is told to have failed exactly where its count of faults rose.
    ensures causes { (reads : ℕ) → HasCauses (reads, (K.told out.old).faults)
        (reads, (K.told out.new).faults) (failed_device result.ending) }
    // What the ending says of the ports and the devices holds, and what it prints stands written.
    ensures ended { ComesToBridge order.now result.ending
        (handed (P.told ports.old) (P.told ports.new)
        (option_map (bridge_told P.Ear.told P.Mouth.told) result.devices))
        (K.told out.old).written (K.told out.new).written }
    // What the ports say of the labels of their links holds of the ears and the mouths that come back.
    ensures known { IfSome result.devices (λ d. IsKnown (P.ears ports.old) (P.mouths ports.old)
        (bridge_told P.Ear.told P.Mouth.told d)) }
    // Where the ports fail, that was the last question: until then their count of faults stands.
    ensures fails_last { FailsLast P.told ports.old ports.new }
    // Where the bridge never ran, the sink is as it was.
    ensures untouched { result.ending ≡ BridgeEnding.PortFailed → out.new ≡ out.old }
{
    let (near, far) = match open(order, ports) {
        Ok(links) => links,
        Err(_) => return without(BridgeEnding::PortFailed),
    };
    let (mut near_ear, mut near_mouth) = near;
    let (mut far_ear, mut far_mouth) = far;
    let end = run_bridge(
        rt,
        order,
        &mut near_ear,
        &mut near_mouth,
        &mut far_ear,
        &mut far_mouth,
    );
    let printed = print_end(&end, out);
    Bridged {
        ending: ending(&end, printed),
        devices: Some(((near_ear, near_mouth), (far_ear, far_mouth))),
    }
}

// What a command came to that hands back no devices.
fn without<E, M>(ending: BridgeEnding) -> Bridged<E, M>
    ensures ending { result.ending ≡ ending }
    ensures none { result.devices ≡ None }
{
    Bridged {
        ending,
        devices: None,
    }
}

// Runs the bridge over its devices.
fn run_bridge<R: Wait, E: Ear, M: Mouth>(
    rt: &R,
    order: &BridgeOrder,
    near_ear: &mut E,
    near_mouth: &mut M,
    far_ear: &mut E,
    far_mouth: &mut M,
) -> BridgeEnd
    ensures { HasCrossed (bridge_plan order.now) result
        (devices_told (E.told near_ear.old) (M.told near_mouth.old)
        (E.told far_ear.old) (M.told far_mouth.old))
        (devices_told (E.told near_ear.new) (M.told near_mouth.new)
        (E.told far_ear.new) (M.told far_mouth.new)) }
{
    let near = Client::new(order.call, order.near_letter, false);
    let far = Client::new(order.call, order.far_letter, false);
    cross(
        rt,
        near_ear,
        near_mouth,
        far_ear,
        far_mouth,
        &order.near_peer,
        &order.far_peer,
        Bridge::new(near, far),
    )
}

// Writes the line of a bridge.
fn print_end<K: Sink>(end: &BridgeEnd, out: &mut K) -> Result<(), Failed>
    ensures cause { HasCause (K.told out.old).faults (K.told out.new).faults result }
    ensures prints { Prints result end.now (K.told out.old).written (K.told out.new).written }
{
    let mut line = Line::new();
    make_bridge_line(&mut line, end);
    out.write(line.bytes())
}

// How the command ends whose bridge came to this end.
fn ending(end: &BridgeEnd, printed: Result<(), Failed>) -> BridgeEnding
    ensures ok { OnOk printed (result ≡ ending_of end.now) }
    ensures err { OnErr printed (result ≡ BridgeEnding.WriteFailed) }
{
    if printed.is_err() {
        return BridgeEnding::WriteFailed;
    }
    if end.lost {
        return BridgeEnding::LinkLost;
    }
    BridgeEnding::Finished
}
