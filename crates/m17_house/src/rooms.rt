ghost use Rattle.std.specs.Prelude.{◌≡◌, ◌≢◌, ◌-◌, ◌+◌, ◌^◌, ◌<◌, ◌≤◌, ℕ, List, [], ◌∷◌, ◌++◌, true, false, length, IfOk};
ghost use Rattle.std.specs.Option.{option_or};
ghost use Rattle.m17_control.specs.Modules.{serves};
ghost use Rattle.m17_control.specs.declared.event.Event.{Event};
ghost use Rattle.m17_module.specs.Items.{items_at};
ghost use Rattle.m17_plan.specs.declared.plan.Plan.{Plan};
ghost use Rattle.m17_plan.specs.Planned.{IsPlan, module_setup};
ghost use Rattle.m17_house.specs.Carried.{IsNewRoom, IsRoomStep, RoomStands};

use m17_control::{Event, ModuleLetter};
use m17_floor::Verdict;
use m17_module::{Basket, Module};
use m17_plan::Plan;
use m17_values::NoMemory;
use std::alloc::Global;
use std::marker::Model;

/// How many letters modules may have.
const LETTERS: usize = 26;

// The modules of a plan, each in the cell of its letter, A first.
#[derive(Debug, Drop)]
pub(crate) struct Rooms {
    cells: Vec<Option<Module>>,
}

impl Model for Rooms {
    ghost use Rattle.std.specs.Prelude.{◌≡◌, List, Option, length};
    ghost use Rattle.m17_module.specs.StandsFor.{ModuleKept};

    ghost Value = { List (Option ModuleKept) };

    ghost view = { λ r. r.cells.items };

    ghost invariant = { λ r. length r.cells.items ≡ 26 };
}

// The module with this letter, as the plan has it; none where it is not served.
fn make_room(alloc: Global, plan: &Plan, letter: u8) -> Result<Option<Module>, NoMemory>
    requires { IsPlan plan.now }
    ensures { IfOk result (IsNewRoom plan.now letter) }
{
    if !plan.modules.has(letter) {
        return Ok(None);
    }
    let module = Module::make(alloc, plan.places, plan.parrots.has(letter), plan.limit)?;
    Ok(Some(module))
}

// What is found is kept, and what was found before where there is nothing.
fn keep(found: Option<Verdict>, verdict: &mut Option<Verdict>)
    ensures { verdict.new ≡ option_or found verdict.old }
{
    if let Some(found) = found {
        *verdict = Some(found);
    }
}

impl Rooms {
    /// New modules, as the plan has them.
    pub(crate) fn make(alloc: Global, plan: &Plan) -> Result<Rooms, NoMemory>
        requires { IsPlan plan.now }
        ensures { IfOk result (λ rooms. (letter : ℕ) → serves plan.now.modules letter ≡ true
            → RoomStands plan.now letter [] rooms) }
    {
        let mut cells = Vec::with_capacity(alloc, LETTERS)?;
        for letter in b'A'..b'Z' + 1 {
            let room = make_room(alloc, plan, letter)?;
            cells.push_reserved(room);
        }
        Ok(Rooms { cells })
    }

    /// The step of the module with this letter. The verdict on a packet is written where the caller keeps it, over the one
    /// before.
    pub(crate) fn step(
        &mut self,
        letter: ModuleLetter,
        event: &Event,
        out: &mut Basket,
        verdict: &mut Option<Verdict>,
    )
        requires { out.old ≡ [] }
        ensures by_rule { (plan : Plan) (events : List Event) →
            RoomStands plan letter events self.old → length events < 2 ^ 64 - 1 →
            IsRoomStep plan letter events event.now verdict.old (self.new, verdict.new)
            × (out.new ≡ items_at (module_setup plan letter)
            (events ++ event.now ∷ []) (length events)) }
        ensures others { (plan : Plan) (other : ℕ) (events : List Event) →
            65 ≤ other → other ≢ letter →
            RoomStands plan other events self.old → RoomStands plan other events self.new }
    {
        let place = (letter.byte() - b'A') as usize;
        match &mut self.cells[place] {
            Some(module) => keep(module.step(event, out), verdict),
            None => {}
        }
    }
}
