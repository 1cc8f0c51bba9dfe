ghost use Rattle.std.specs.Prelude.{◌≡◌, ◌≤◌, IfOk, IfSome, OnErr};
ghost use Rattle.m17_ports.specs.Ports.{FailsLast, HasAsked};
ghost use Rattle.m17_client_commands.specs.Devices.{FailsAmong};
ghost use Rattle.m17_client_commands.specs.Bridged.{bridge_told, questions_of, until_of, AreNew, IsBridgeable, IsKnown};

use crate::KnownPorts;
use m17_ports::laws::ports_are_asked_in_turn;
use m17_values::Failed;
use m17_words::BridgeOrder;

/// How many milliseconds a second has.
const SECOND_MS: u64 = 1_000;

// The link of each side, as the words name them: near, and then far.
pub(crate) fn open<P: KnownPorts>(
    order: &BridgeOrder,
    ports: &mut P,
) -> Result<((P::Ear, P::Mouth), (P::Ear, P::Mouth)), Failed>
    requires { IsBridgeable order.now }
    ensures asked { IfOk result (λ d. HasAsked (questions_of order.now)
        (P.told ports.old) (P.told ports.new)) }
    ensures no_fault { IfOk result (λ d. (P.told ports.new).faults ≡ (P.told ports.old).faults) }
    ensures new { IfOk result (λ d. AreNew (P.told ports.old).calls
        (bridge_told P.Ear.told P.Mouth.told d)) }
    ensures known { IfOk result (λ d. IsKnown (P.ears ports.old) (P.mouths ports.old)
        (bridge_told P.Ear.told P.Mouth.told d)) }
    ensures failed { OnErr result (FailsAmong (questions_of order.now)
        (P.told ports.old) (P.told ports.new)) }
    ensures fails_last { FailsLast P.told ports.old ports.new }
{
    ports_are_asked_in_turn();
    let until = until_of(order.seconds);
    let near = match ports.known_link(order.near.as_str(), until) {
        Ok(link) => link,
        Err(failed) => return Err(failed),
    };
    match ports.known_link(order.far.as_str(), until) {
        Ok(far) => Ok((near, far)),
        Err(failed) => Err(failed),
    }
}

// The moment in milliseconds at which the links end, if they do.
fn until_of(seconds: Option<u64>) -> Option<u64>
    requires { IfSome seconds (λ seconds. seconds ≤ 1000000) }
    ensures { result ≡ until_of seconds }
{
    match seconds {
        Some(seconds) => Some(SECOND_MS * seconds),
        None => None,
    }
}
