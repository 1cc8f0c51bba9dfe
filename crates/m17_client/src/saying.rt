//! What a bridge's steps are to say, said: each side's by its mouth, to its reflector.

ghost use Rattle.std.specs.Prelude.{◌≡◌, List, ℕ, [], ◌∷◌, ◌++◌, false};
ghost use Rattle.m17_ports.specs.Mouth.{MouthTold, SaidOf};
ghost use Rattle.m17_client.specs.Steps.{is_send};
ghost use Rattle.m17_client.specs.TalkDevices.{datagrams_to};
ghost use Rattle.m17_client.specs.declared.side.Side.{Side};
ghost use Rattle.m17_client.specs.Sides.{both, of};
ghost use Rattle.m17_client.specs.BridgeSteps.{BridgeStep, said_on};
ghost use Rattle.m17_client.specs.CrossSoFar.{IsAt, Origin};

use crate::{Bridge, Cross, Input, Side};
use arrayvec::ArrayVec;
use m17_ports::Mouth;
use m17_ports::laws::mouths_say_in_turn;
use m17_values::Peer;

impl Bridge {
    /// Steps the client of a side, and says what comes of it. A datagram that a mouth fails to send
    /// is lost.
    pub(crate) fn say_step<M: Mouth>(
        &mut self,
        side: Side,
        input: &Input,
        near_to: &Peer,
        near_mouth: &mut M,
        far_to: &Peer,
        far_mouth: &mut M,
    )
        requires { is_send input.now ≡ false }
        ensures { (origin : Origin M.Label) (steps : List BridgeStep)
            → origin.plan.to ≡ both near_to.now far_to.now
            → IsAt origin steps self.old (both (M.told near_mouth.old) (M.told far_mouth.old))
            → (step : BridgeStep) × (step.side ≡ side) × (step.own.input ≡ input.now)
            × IsAt origin (steps ++ step ∷ []) self.new
            (both (M.told near_mouth.new) (M.told far_mouth.new)) }
    {
        let mut out = ArrayVec::new();
        self.step(side, input, &mut out);
        say_all(out.as_slice(), near_to, near_mouth, far_to, far_mouth);
    }
}

// Says these datagrams, in order.
fn say_all<M: Mouth>(
    crosses: &[Cross],
    near_to: &Peer,
    near_mouth: &mut M,
    far_to: &Peer,
    far_mouth: &mut M,
)
    ensures near { (start : MouthTold M.Label) (before : List (List ℕ))
        → SaidOf start (datagrams_to near_to.now before) (M.told near_mouth.old)
        → SaidOf start (datagrams_to near_to.now (before ++ said_on Side.Near crosses.now))
        (M.told near_mouth.new) }
    ensures far { (start : MouthTold M.Label) (before : List (List ℕ))
        → SaidOf start (datagrams_to far_to.now before) (M.told far_mouth.old)
        → SaidOf start (datagrams_to far_to.now (before ++ said_on Side.Far crosses.now))
        (M.told far_mouth.new) }
{
    for cross in crosses {
        match cross.side {
            Side::Near => say(near_to, cross.bytes.as_slice(), near_mouth),
            Side::Far => say(far_to, cross.bytes.as_slice(), far_mouth),
        }
    }
}

// Says a datagram, which is lost where the mouth fails.
fn say<M: Mouth>(to: &Peer, bytes: &[u8], mouth: &mut M)
    ensures { (start : MouthTold M.Label) (before : List (List ℕ))
        → SaidOf start (datagrams_to to.now before) (M.told mouth.old)
        → SaidOf start (datagrams_to to.now (before ++ bytes.now ∷ [])) (M.told mouth.new) }
{
    mouths_say_in_turn::<M::Label>();
    let _ = mouth.say(to, bytes);
}
