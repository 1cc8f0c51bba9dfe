ghost use Rattle.std.specs.Prelude.{◌≡◌, ◌-◌, ◌^◌, ◌<◌, ℕ, List, [], ◌∷◌, ◌++◌, length, IfOk};
ghost use Rattle.std.specs.Option.{option_or};
ghost use Rattle.m17_directory.specs.declared.dispatch.Dispatch.{Dispatch};
ghost use Rattle.m17_port_memory.specs.Kept.{TalliesKept};
ghost use Rattle.m17_plan.specs.declared.plan.Plan.{Plan};
ghost use Rattle.m17_plan.specs.Planned.{IsPlan};
ghost use Rattle.m17_house.specs.Tallied.{AreTalliesOf, IsSameMouth};
ghost use Rattle.m17_house.specs.Carried.{HasCarried, IsServed, answer_to};

use crate::rooms::Rooms;
use crate::voice::{answer, say_all};
use m17_callsign::CallAddress;
use m17_directory::Dispatch;
use m17_floor::{Verdict, laws as floor_laws};
use m17_module::{Basket, laws as module_laws};
use m17_plan::Plan;
use m17_port_memory::TallyMouth;
use m17_values::NoMemory;
use std::alloc::Global;

// The modules, what the last event of one gave, and the name in which all is said.
#[derive(Debug, Drop)]
pub(crate) struct Stage {
    pub(crate) name: CallAddress,
    pub(crate) rooms: Rooms,
    pub(crate) out: Basket,
}

impl Stage {
    /// New modules, as the plan has them.
    pub(crate) fn make(alloc: Global, plan: &Plan) -> Result<Stage, NoMemory>
        requires { IsPlan plan.now }
        ensures name { IfOk result (λ stage. stage.name ≡ plan.now.name) }
        ensures out { IfOk result (λ stage. stage.out ≡ []) }
        ensures carried { IfOk result (λ stage. (mouth : TalliesKept) → AreTalliesOf (λ _. []) mouth
            → HasCarried plan.now [] stage.rooms mouth) }
    {
        let rooms = Rooms::make(alloc, plan)?;
        let out = Basket::make(alloc)?;
        Ok(Stage {
            name: plan.name,
            rooms,
            out,
        })
    }

    /// Carries out a dispatch: an event is stepped by its module, and what that gives is said; a reply past all modules
    /// is said. The verdict on a packet is written where the caller keeps it, over the one before.
    pub(crate) fn carry(
        &mut self,
        dispatch: &Dispatch,
        mouth: &mut TallyMouth,
        verdict: &mut Option<Verdict>,
    )
        requires { self.old.out ≡ [] }
        ensures out { self.new.out ≡ [] }
        ensures name { self.new.name ≡ self.old.name }
        ensures mouth { IsSameMouth mouth.old mouth.new }
        ensures carried { (plan : Plan) (done : List Dispatch) → self.old.name ≡ plan.name →
            IsServed plan dispatch.now → length done < 2 ^ 64 - 1 →
            HasCarried plan done self.old.rooms mouth.old →
            HasCarried plan (done ++ dispatch.now ∷ []) self.new.rooms mouth.new
            × (verdict.new ≡ option_or (answer_to plan done dispatch.now) verdict.old) }
    {
        module_laws::one_event_more_gives();
        match dispatch {
            Dispatch::ToModule { module, event } => {
                self.rooms.step(*module, event, &mut self.out, verdict);
                say_all(&mut self.out, self.name, mouth);
            }
            Dispatch::ToDoor(direct) => {
                answer(direct, mouth);
            }
        }
    }
}
