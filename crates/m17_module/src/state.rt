ghost use Rattle.std.specs.Prelude.{◌≡◌, ◌↔◌, ◌-◌, ◌+◌, ◌/◌, ◌^◌, ◌<◌, ◌≤◌, min, List, [], ◌∷◌, ◌++◌, false, length, map, nat_lt, is_some, option_and_then, None, IfOk, if◌then◌else◌};
ghost use Rattle.m17_control.specs.declared.event.Event.{Event};
ghost use Rattle.m17_control.specs.declared.item.Said.TheVariants as said;
ghost use Rattle.m17_floor.specs.Acts.{is_packet};
ghost use Rattle.m17_floor.specs.Floor.{admits};
ghost use Rattle.m17_module.specs.Events.{kind_of};
ghost use Rattle.m17_module.specs.Seats.{members_of};
ghost use Rattle.m17_module.specs.Items.{item_to, ping_every_ms};
ghost use Rattle.m17_module.specs.StandsFor.{StandsFor, stepped, IsStep};

use crate::Basket;
use crate::basket::Tray;
use crate::recorder::{Recorder, happen};
use crate::room::Room;
use m17_control::Event;
use m17_floor::{Verdict, laws as floor_laws};
use m17_values::NoMemory;
use std::alloc::Global;
use std::marker::Model;

/// Each member is asked whether it is there where the module's moment passes a multiple of this, in milliseconds.
pub const PING_EVERY_MS: u64 = 3_000;

/// A module of the reflector: who is in it, who may speak, and what each event gives to whom. Contracts see what it
/// keeps, and relate that to the list of all its events (`StandsFor`).
#[derive(Debug, Drop)]
pub struct Module {
    room: Room,
    moment: u64,
    count: u64,
    admitted: u64,
    recorder: Option<Recorder>,
}

impl Model for Module {
    ghost use Rattle.std.specs.Prelude.{◌≤◌, length, is_some, option_and_then};
    ghost use Rattle.m17_module.specs.StandsFor.{ModuleKept};

    ghost Value = { ModuleKept };

    ghost view = { λ m. record {
      setup = record {
        places = length m.room.seats;
        parrot = is_some m.recorder;
        limit = m.room.floor.limit;
      };
      moment = m.moment;
      people = m.room;
      count = m.count;
      admitted = m.admitted;
      recording = option_and_then (λ r. r.parrot) m.recorder;
    } };

    ghost use Rattle.std.specs.Option.{ForSome};
    ghost use Rattle.m17_module.specs.Following.{RecordsHolder};

    ghost invariant = { λ m. (m.admitted ≤ m.count)
        × ForSome m.recorder (λ r. RecordsHolder m.moment m.room.floor r.parrot) };
}

// Asks each member whether it is there, where the moment passes a multiple of 3,000 ms. One question is enough, however
// many multiples were passed.
fn ask(room: &Room, before: u64, moment: u64, out: &mut Tray)
    requires { out.old ≡ [] }
    ensures told { out.new ≡ (if nat_lt (before / ping_every_ms) (moment / ping_every_ms)
        then map (item_to said.Ping) (members_of room.now.seats) else []) }
    ensures few { length out.new ≤ 256 }
{
    if before / PING_EVERY_MS < moment / PING_EVERY_MS {
        room.ping(out);
    }
}

// How many packets are admitted after this answer.
fn count_admitted(admitted: u64, answer: &Option<Verdict>) -> u64
    ensures counted { admitted < 2 ^ 64 - 1 →
        result ≡ admitted + (if admits answer.now then 1 else 0) }
    ensures at_most { result ≤ admitted + 1 }
    ensures at_least { admitted ≤ result }
{
    match answer {
        Some(verdict) if verdict.is_admitted() => admitted.saturating_add(1),
        _ => admitted,
    }
}

// What a parrot module has beside its room; another has nothing.
fn recorder_if(alloc: Global, parrot: bool) -> Result<Option<Recorder>, NoMemory>
    ensures { IfOk result (λ recorder. (is_some recorder ≡ parrot)
        × (option_and_then (λ r. r.parrot) recorder ≡ None)) }
{
    if !parrot {
        return Ok(None);
    }
    let recorder = Recorder::make(alloc)?;
    Ok(Some(recorder))
}

impl Module {
    ghost use Rattle.m17_module.specs.Setup.{Setup};

    /// An empty module of this number of places, 1 to 256; a `parrot` plays back what it hears. Whoever has talked for `limit`
    /// milliseconds since its stream was opened loses the floor; with 0 there is no limit. It fails only where there is no
    /// memory.
    pub fn make(alloc: Global, places: u32, parrot: bool, limit: u64) -> Result<Module, NoMemory>
        requires some { 0 < places }
        requires at_most { places ≤ 256 }
        ensures setup { IfOk result
            (λ m. m.setup ≡ record { places = places; parrot = parrot; limit = limit }) }
        ensures stands { IfOk result (λ m. StandsFor m []) }
    {
        floor_laws::admitted_positions_are_counted();
        let room = Room::make(alloc, places, limit)?;
        let recorder = recorder_if(alloc, parrot)?;
        Ok(Module {
            room,
            moment: 0,
            count: 0,
            admitted: 0,
            recorder,
        })
    }

    /// The module's moment: the greatest of its events' moments so far.
    pub fn moment(&self) -> u64
        ensures { result ≡ self.now.moment }
    {
        self.moment
    }

    /// How many packets the module has admitted.
    pub fn admitted(&self) -> u64
        ensures { result ≡ self.now.admitted }
    {
        self.admitted
    }

    /// Whether the module plays back what it hears.
    pub fn is_parrot(&self) -> bool
        ensures { result ≡ self.now.setup.parrot }
    {
        self.recorder.is_some()
    }

    /// Takes in the next event: puts what it gives into the basket, in order, and answers the verdict on a packet, and
    /// nothing for any other event. For every list of events that the module may have come from, of fewer than 2^64 - 1,
    /// the basket then holds what the event at this position gives (`items_at`), and the module stands for the list with
    /// the event.
    pub fn step(&mut self, event: &Event, out: &mut Basket) -> Option<Verdict>
        requires { out.old ≡ [] }
        ensures by_rule { (events : List Event) →
            StandsFor self.old events → length events < 2 ^ 64 - 1 →
            IsStep self.old.setup events event.now (stepped result self.new out.new) }
        ensures setup { self.new.setup ≡ self.old.setup }
        ensures answer { is_some result ≡ is_packet (kind_of event.now.body) }
        // Counts that have come to their type's end stay there.
        ensures count { self.new.count ≡ min (self.old.count + 1) (2 ^ 64 - 1) }
        ensures admitted { self.old.admitted ≤ self.new.admitted }
    {
        out.tray.clear();
        out.next = 0;
        self.take_in(event, &mut out.tray)
    }

    // The same, into a row of items.
    fn take_in(&mut self, event: &Event, out: &mut Tray) -> Option<Verdict>
        requires { out.old ≡ [] }
        ensures by_rule { (events : List Event) →
            StandsFor self.old events → length events < 2 ^ 64 - 1 →
            IsStep self.old.setup events event.now (stepped result self.new out.new) }
        ensures setup { self.new.setup ≡ self.old.setup }
        ensures answer { is_some result ≡ is_packet (kind_of event.now.body) }
        ensures count { self.new.count ≡ min (self.old.count + 1) (2 ^ 64 - 1) }
        ensures admitted { self.old.admitted ≤ self.new.admitted }
    {
        floor_laws::the_greatest_moment_counts();
        floor_laws::later_acts_change_no_verdict();
        floor_laws::later_acts_change_nothing_before();
        floor_laws::only_speakers_are_heard();
        floor_laws::admitted_positions_are_counted();
        let before = self.moment;
        let moment = before.max(event.at);
        ask(&self.room, before, moment, out);
        let answer = happen(
            &mut self.recorder,
            &mut self.room,
            event,
            moment,
            self.count,
            out,
        );
        self.moment = moment;
        self.count = self.count.saturating_add(1);
        self.admitted = count_admitted(self.admitted, &answer);
        answer
    }
}
