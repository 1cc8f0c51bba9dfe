ghost use Rattle.std.specs.Prelude.{◌≡◌, ℕ, Option, slice_get, List, [], ◌∷◌, ◌++◌, length, Some, IfOk};
ghost use Rattle.m17_floor.specs.declared.act.Act.{Act};
ghost use Rattle.m17_floor.specs.declared.act.ActKind.TheVariants.{Packet, Other};
ghost use Rattle.m17_floor.specs.Floor.{verdict_at};
ghost use Rattle.m17_floor.specs.Rule.{Frame};
ghost use Rattle.m17_text_commands.specs.Judge.{joins, judge_setup, talker, talkers};
ghost use Rattle.m17_text_commands.specs.Table.{TableStandsFor, StandsAtFirst};

use m17_floor::{Floor, Last, Verdict, laws};
use m17_stream::StreamPacket;
use m17_values::{Member, NoMemory};
use std::alloc::Global;
use std::marker::Model;

const TALKERS: usize = 65_536;

/// How long one may talk in `judge`, in milliseconds.
const TALK_LIMIT_MS: u64 = 180_000;

// The floor of `judge`, what is kept of each of its talkers, and its moment.
#[derive(Debug, Drop)]
pub(crate) struct Table {
    floor: Floor,
    owns: Vec<Last>,
    moment: u64,
}

impl Model for Table {
    ghost use Rattle.std.specs.Prelude.{◌≡◌, length};
    ghost use Rattle.m17_text_commands.specs.Table.{TableKept};

    ghost Value = { TableKept };

    ghost view = { λ t. record { floor = t.floor; owns = t.owns.items; moment = t.moment } };

    ghost invariant = { λ t. length t.owns.items ≡ 65536 };
}

impl Table {
    // A table in which all talkers may speak, and nobody has spoken.
    pub(crate) fn make(alloc: Global) -> Result<Table, NoMemory>
        ensures { IfOk result (λ table. TableStandsFor (joins talkers) table) }
    {
        laws::who_joins_may_speak();
        let owns = fresh(alloc)?;
        Ok(Table {
            floor: Floor::new(TALK_LIMIT_MS),
            owns,
            moment: 0,
        })
    }

    // Judges a talker's packet at a moment that came with it.
    #[inline]
    pub(crate) fn judge(&mut self, at: u64, place: u16, p: &StreamPacket) -> Verdict
        ensures stands { (acts : List Act) → TableStandsFor acts self.old →
            TableStandsFor (acts ++ (record { at = at; kind = Packet (talker place) p.now }) ∷ [])
            self.new }
        ensures ruled { (acts : List Act) → TableStandsFor acts self.old →
            verdict_at judge_setup (acts ++ (record { at = at; kind = Packet (talker place) p.now }) ∷
            [])
            (length acts) ≡ Some result }
    {
        self.moment = self.moment.max(at);
        let sender = Member {
            place: u32::from(place),
            generation: 0,
        };
        let own = &mut self.owns[place as usize];
        self.floor.judge(sender, self.moment, p, own)
    }

    // Lets a moment come with nothing that matters to the floor.
    #[inline]
    pub(crate) fn pass(&mut self, at: u64)
        ensures { (acts : List Act) → TableStandsFor acts self.old →
            TableStandsFor (acts ++ (record { at = at; kind = Other }) ∷ []) self.new }
    {
        laws::other_acts_change_nothing();
        self.moment = self.moment.max(at);
    }
}

// What is kept of each talker at first: nothing admitted.
fn fresh(alloc: Global) -> Result<Vec<Last>, NoMemory>
    ensures of_all { IfOk result (λ owns. length owns.items ≡ 65536) }
    ensures at_first { IfOk result (λ owns. (t : ℕ) (own : Option Frame)
        → slice_get owns.items t ≡ Some own → StandsAtFirst own) }
{
    let mut owns = Vec::with_capacity(alloc, TALKERS)?;
    for _talker in 0..TALKERS {
        owns.push(Last::new())?;
    }
    Ok(owns)
}
