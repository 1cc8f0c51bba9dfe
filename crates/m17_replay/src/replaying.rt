//! The replay.
ghost use Rattle.std.specs.Prelude.{◌≡◌, ◌<◌, ◌^◌, true, [], ◌∷◌, length, map, IfOk, IfErr, MatchResult};
ghost use Rattle.m17_port_memory.specs.Peers.{named_in};
ghost use Rattle.m17_house.specs.Free.{IsFreelyReplayed};
ghost use Rattle.m17_house.specs.Replay.{HasNoTallies};
ghost use Rattle.m17_plan.specs.Planned.{IsPlan};
ghost use Rattle.m17_reflect.specs.declared.returned.HouseRefusal.TheVariants as refusals;
ghost use Rattle.m17_reflect.specs.Views.{IsRefusedFor};
ghost use Rattle.m17_replay.specs.Ending.{HasAnEnd};
ghost use Rattle.m17_replay.specs.Tapes.{IsFilledInOrder, outcomes_on};

use crate::devices::{Rooms, make_rooms};
use crate::replay_run_laws::known_laws;
use crate::replay_run_outcomes::Outcomes;
use m17_control::Modules;
use m17_crew::Crew;
use m17_plan::Plan;
use m17_port_memory::{ListBook, ScriptEar, TallyMouth};
use m17_ports::Shelf;
use m17_reflect::{HouseRefusal, Returned, reflect};
use m17_values::Heard;
use std::alloc::Global;
use std::sync::Wait;
use std::thread::Threads;

/// What a replay over threads came to.
#[derive(Drop)]
pub struct Replay {
    /// What each entry came to, up to the first that ended the link.
    pub outcomes: Outcomes,
    /// The mouth that was handed in, with the tallies of what was said.
    pub mouth: TallyMouth,
    /// What was handed in to be heard.
    pub heard: Vec<Heard>,
}

/// What comes back where nothing was run: all as it was handed in, of which nothing was heard or said.
#[derive(Drop)]
pub struct Refused {
    /// Why nothing was run.
    pub why: HouseRefusal,
    /// What was to be heard.
    pub heard: Vec<Heard>,
    /// The mouth on which it was to be answered.
    pub mouth: TallyMouth,
}

// How many entries are to be heard, in 64 bits.
fn count(heard: &[Heard]) -> usize
    ensures count { result ≡ length heard.now }
    ensures few { length heard.now < 2 ^ 64 }
{
    heard.len()
}

// The same plan, patient, with this number of cells on each tape.
fn patient_plan(plan: &Plan, entries: u32) -> Plan
    ensures { result ≡ record plan.now { patient = true; entries = entries } }
{
    Plan {
        name: plan.name,
        modules: plan.modules,
        parrots: plan.parrots,
        places: plan.places,
        patient: true,
        entries,
        limit: plan.limit,
    }
}

// What is left of a run over one link, with these modules. The lanes and all else that it handed back are let go.
fn take_apart(served: Modules, returned: Returned<ScriptEar, TallyMouth, Shelf<ListBook>>) -> Replay
    requires ear { (ear : _) × (returned.ears.items ≡ ear ∷ []) }
    requires mouth { (mouth : _) × (returned.mouths.items ≡ mouth ∷ []) }
    requires tape { (tape : _) × (returned.link_tapes.items ≡ tape ∷ [])
        × IsFilledInOrder tape.items }
    ensures heard { map (λ ear. ear.script) returned.ears.items ≡ result.heard.items ∷ [] }
    ensures mouth { returned.mouths.items ≡ result.mouth ∷ [] }
    ensures outcomes { map (λ tape. outcomes_on served tape.items returned.tapes.items)
        returned.link_tapes.items ≡ result.outcomes ∷ [] }
{
    let Returned {
        mut ears,
        mut mouths,
        mut link_tapes,
        tapes,
        ..
    } = returned;
    let ear = ears.pop().unwrap();
    let mouth = mouths.pop().unwrap();
    let tape = link_tapes.pop().unwrap();
    Replay {
        outcomes: Outcomes::of(served, tape, tapes),
        mouth,
        heard: ear.into_script(),
    }
}

// What was handed in, where nothing was run.
fn hand_back(refused: m17_reflect::Refused<ScriptEar, TallyMouth, Shelf<ListBook>>) -> Refused
    requires ear { (ear : _) × (refused.ears.items ≡ ear ∷ []) }
    requires mouth { (mouth : _) × (refused.mouths.items ≡ mouth ∷ []) }
    ensures why { result.why ≡ refused.why }
    ensures heard { map (λ ear. ear.script) refused.ears.items ≡ result.heard.items ∷ [] }
    ensures mouth { refused.mouths.items ≡ result.mouth ∷ [] }
{
    let why = refused.why;
    let mut ears = refused.ears;
    let mut mouths = refused.mouths;
    let ear = ears.pop().unwrap();
    let mouth = mouths.pop().unwrap();
    Refused {
        why,
        heard: ear.into_script(),
        mouth,
    }
}

// There is no memory, before the devices are made.
fn no_memory(heard: Vec<Heard>, mouth: TallyMouth) -> Refused
    ensures why { result.why ≡ refusals.NoMemory }
    ensures same { (result.heard ≡ heard) × (result.mouth ≡ mouth) }
{
    Refused {
        why: HouseRefusal::NoMemory,
        heard,
        mouth,
    }
}

/// Replays what one link heard, over threads: what each entry becomes, up to the first that ends the link, by a patient
/// reflector with one link. A peer that asks gets some place that no other known peer has, and is greeted when what it
/// was before has been told its leaving; where as many others are known as there are places it is turned away. What the
/// modules give and what is answered past them is said on the mouth. `Crew` where the crew refused a start, and
/// `NoMemory` where there is no memory for the lanes, the tables and the tapes, both before an entry is heard: all comes
/// back as it was then. From the first entry on it takes no memory. It waits for its threads.
pub fn replay_over_threads<C: Crew, R: Threads + Wait + Copy + Send + 'static>(
    rt: &R,
    alloc: Global,
    plan: &Plan,
    heard: Vec<Heard>,
    mouth: TallyMouth,
    crew: &mut C,
) -> Result<Replay, Refused>
    requires plan { IsPlan plan.now }
    requires ends { HasAnEnd heard.items }
    requires nothing_said { HasNoTallies mouth }
    ensures judged { IfOk result (λ r. IsFreelyReplayed plan.now heard.items
        r.outcomes.verdicts r.outcomes.packets r.mouth) }
    ensures same_heard { IfOk result (λ r. r.heard.items ≡ heard.items) }
    ensures same_peers { IfOk result (λ r. named_in r.mouth.entries ≡ named_in mouth.entries) }
    ensures same_mouth { IfOk result (λ r. r.mouth.number ≡ mouth.number) }
    // Where nothing was run, nothing was heard or said.
    ensures refused { IfErr result (λ r. (r.heard.items ≡ heard.items) × (r.mouth ≡ mouth)) }
    ensures cause { MatchResult result (λ _. C.refusals crew.new ≡ C.refusals crew.old)
        (λ r. IsRefusedFor r.why (C.refusals crew.old) (C.refusals crew.new)) }
    // Want of memory comes before the crew is asked for anything: no thread was started.
    ensures unasked { IfErr result (λ r. r.why ≡ refusals.NoMemory → crew.new ≡ crew.old) }
{
    known_laws();
    let len = count(&heard);
    let Ok(entries) = u32::try_from(len) else {
        return Err(no_memory(heard, mouth));
    };
    let patient = patient_plan(plan, entries);
    let Ok(rooms) = make_rooms(alloc, patient.modules.count()) else {
        return Err(no_memory(heard, mouth));
    };
    let Rooms {
        mut ears,
        mut mouths,
        traces,
        books,
    } = rooms;
    ears.push_reserved(ScriptEar::new(heard));
    mouths.push_reserved(mouth);
    match reflect(rt, alloc, &patient, ears, mouths, traces, books, crew) {
        Ok(returned) => Ok(take_apart(patient.modules, returned)),
        Err(refused) => Err(hand_back(refused)),
    }
}
