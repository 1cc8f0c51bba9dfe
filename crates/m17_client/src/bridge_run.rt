//! A run of `cross`, entry by entry.

ghost use Rattle.std.specs.Prelude.{◌≡◌, ◌↔◌, ◌⊎◌, ℕ, ◌+◌, ◌<◌, ◌≤◌, List, [], ◌∷◌, ◌++◌, IsTrue, true, false, MatchOption, if◌then◌else◌};
ghost use Rattle.m17_values.specs.declared.heard.Heard.{Heard};
ghost use Rattle.m17_client.specs.declared.state.Ending.{Ending};
ghost use Rattle.m17_client.specs.declared.state.Input.{Input};
ghost use Rattle.m17_client.specs.declared.state.State.{State};
ghost use Rattle.m17_client.specs.Steps.{is_send};
ghost use Rattle.m17_client.specs.Talk.{IsHeardAs, is_fault};
ghost use Rattle.m17_client.specs.declared.side.Side.{Side};
ghost use Rattle.m17_client.specs.Sides.{both, of};
ghost use Rattle.m17_client.specs.BridgeSteps.{BridgeStep};
ghost use Rattle.m17_client.specs.CrossRun.{BothLeave, CrossTurn};
ghost use Rattle.m17_client.specs.CrossSoFar.{IsAt, IsSoFar, IsStepless, Origin, counted};

use crate::crossing::BridgeEnd;
use crate::{Bridge, Input, MOST_FAULTS, Side, State};
use m17_ports::Mouth;
use m17_values::{Heard, Peer};

// Where a run stands: its bridge, whose turn it is, how many Faults of each ear stand last in a
// row, and whether an ear said End.
#[derive(Debug, Drop)]
pub(crate) struct Run {
    pub(crate) bridge: Bridge,
    pub(crate) side: Side,
    pub(crate) near_faults: u32,
    pub(crate) far_faults: u32,
    pub(crate) ended: bool,
}

impl Run {
    /// A run in which nothing was heard yet.
    pub(crate) fn new(bridge: Bridge) -> Run
        ensures bridge { result.bridge ≡ bridge }
        ensures side { result.side ≡ Side.Near }
        ensures near { result.near_faults ≡ 0 }
        ensures far { result.far_faults ≡ 0 }
        ensures goes_on { result.ended ≡ false }
    {
        Run {
            bridge,
            side: Side::Near,
            near_faults: 0,
            far_faults: 0,
            ended: false,
        }
    }

    /// Takes the turn of an entry of the ear whose turn it is.
    pub(crate) fn take<M: Mouth>(
        &mut self,
        entry: Heard,
        near_to: &Peer,
        near_mouth: &mut M,
        far_to: &Peer,
        far_mouth: &mut M,
    )
        requires near { self.old.near_faults < 16 }
        requires far { self.old.far_faults < 16 }
        ensures { (origin : Origin M.Label) (turns : List CrossTurn)
            → origin.plan.to ≡ both near_to.now far_to.now
            → IsSoFar origin turns self.old (both (M.told near_mouth.old) (M.told far_mouth.old))
            → (steps : List BridgeStep) × IsSoFar origin
            (turns ++ record { side = self.old.side; heard = entry; steps = steps } ∷ []) self.new
            (both (M.told near_mouth.new) (M.told far_mouth.new)) }
    {
        let side = self.side;
        self.ended = is_end(&entry);
        self.count_fault(is_fault(&entry));
        self.side = side.opposite();
        if let Some(input) = input_of(entry, peer_of(side, near_to, far_to)) {
            self.bridge
                .say_step(side, &input, near_to, near_mouth, far_to, far_mouth);
        }
    }

    /// Whether the run is over.
    pub(crate) fn is_over(&self) -> bool
        ensures { IsTrue result ↔ ((self.now.ended ≡ true)
            ⊎ (((side : Side) × (16 ≤ of side (both self.now.near_faults self.now.far_faults)))
            ⊎ ((side : Side) × (why : Ending)
            × ((of side self.now.bridge.clients).state ≡ State.Closed why)))) }
    {
        self.ended || self.is_lost() || self.has_closed()
    }

    /// Both clients leave, near first.
    pub(crate) fn leave<M: Mouth>(
        &mut self,
        near_to: &Peer,
        near_mouth: &mut M,
        far_to: &Peer,
        far_mouth: &mut M,
    )
        ensures left { (origin : Origin M.Label) (steps : List BridgeStep)
            → origin.plan.to ≡ both near_to.now far_to.now
            → IsAt origin steps self.old.bridge
            (both (M.told near_mouth.old) (M.told far_mouth.old))
            → (leaves : List BridgeStep)
            × BothLeave leaves
            × IsAt origin (steps ++ leaves) self.new.bridge
            (both (M.told near_mouth.new) (M.told far_mouth.new)) }
        ensures near { self.new.near_faults ≡ self.old.near_faults }
        ensures far { self.new.far_faults ≡ self.old.far_faults }
    {
        self.bridge.say_step(
            Side::Near,
            &Input::Leave,
            near_to,
            near_mouth,
            far_to,
            far_mouth,
        );
        self.bridge.say_step(
            Side::Far,
            &Input::Leave,
            near_to,
            near_mouth,
            far_to,
            far_mouth,
        );
    }

    /// What the run came to.
    pub(crate) fn end(&self) -> BridgeEnd
        ensures near { result.near ≡ self.now.bridge.passed.near }
        ensures far { result.far ≡ self.now.bridge.passed.far }
        ensures lost { IsTrue result.lost
            ↔ ((side : Side) × (16 ≤ of side (both self.now.near_faults self.now.far_faults))) }
    {
        BridgeEnd {
            near: self.bridge.passed(Side::Near),
            far: self.bridge.passed(Side::Far),
            lost: self.is_lost(),
        }
    }

    // Whether an ear failed 16 times in a row.
    fn is_lost(&self) -> bool
        ensures { IsTrue result
            ↔ ((side : Side) × (16 ≤ of side (both self.now.near_faults self.now.far_faults))) }
    {
        self.near_faults >= MOST_FAULTS || self.far_faults >= MOST_FAULTS
    }

    // Whether a client is closed.
    fn has_closed(&self) -> bool
        ensures { IsTrue result ↔ ((side : Side) × (why : Ending)
            × ((of side self.now.bridge.clients).state ≡ State.Closed why)) }
    {
        is_closed(self.bridge.state(Side::Near)) || is_closed(self.bridge.state(Side::Far))
    }

    // Counts a Fault of the ear whose turn it is, or begins anew for it.
    fn count_fault(&mut self, fault: bool)
        requires near { self.old.near_faults < 16 }
        requires far { self.old.far_faults < 16 }
        ensures { self.new ≡ record self.old {
          near_faults = counted Side.Near self.old.side fault self.old.near_faults;
          far_faults = counted Side.Far self.old.side fault self.old.far_faults;
        } }
    {
        match self.side {
            Side::Near => self.near_faults = count(fault, self.near_faults),
            Side::Far => self.far_faults = count(fault, self.far_faults),
        }
    }
}

// The Faults in a row after one more entry, which is one or not.
fn count(fault: bool, faults: u32) -> u32
    requires { faults < 16 }
    ensures { result ≡ (if fault then faults + 1 else 0) }
{
    if fault { faults + 1 } else { 0 }
}

// The peer of a side.
fn peer_of<'a>(side: Side, near: &'a Peer, far: &'a Peer) -> &'a Peer
    ensures { result.now ≡ of side (both near.now far.now) }
{
    match side {
        Side::Near => near,
        Side::Far => far,
    }
}

// Whether a client in this state is closed.
fn is_closed(state: State) -> bool
    ensures { IsTrue result ↔ ((why : Ending) × (state ≡ State.Closed why)) }
{
    matches!(state, State::Closed(_))
}

// Whether an entry is End.
fn is_end(entry: &Heard) -> bool
    ensures { IsTrue result ↔ (entry.now ≡ Heard.End) }
{
    matches!(entry, Heard::End)
}

// Whether an entry is a Fault.
fn is_fault(entry: &Heard) -> bool
    ensures { result ≡ is_fault entry.now }
{
    matches!(entry, Heard::Fault)
}

// What an entry is to the client of a side, if it is anything: a datagram of its reflector, or a
// moment that went by.
fn input_of(entry: Heard, to: &Peer) -> Option<Input>
    ensures input { MatchOption result (IsStepless entry)
        (λ input. IsHeardAs to.now entry input × (is_send input ≡ false)) }
{
    match entry {
        Heard::Datagram { from, at, bytes } => {
            if from == *to {
                Some(Input::Datagram { at, bytes })
            } else {
                Some(Input::Quiet { at })
            }
        }
        Heard::Quiet { at } => Some(Input::Quiet { at }),
        Heard::Fault => None,
        Heard::End => None,
    }
}
