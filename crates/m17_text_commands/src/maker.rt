ghost use Rattle.std.specs.Prelude.{◌≡◌, ◌≢◌, ◌<◌, ◌+◌, ℕ};
ghost use Rattle.m17_values.specs.declared.heard.Heard.TheVariants.{End};
ghost use Rattle.m17_text_commands.specs.Moments.{entry_moment};

use crate::draws::Draws;
use crate::hotspot::{HOTSPOTS, Hotspot, MODULES};
use crate::made::Made;
use crate::sending::heard;
use crate::talk::Talk;
use m17_values::Heard;
use std::marker::Model;

/// The joins come first, as many as there are hotspots.
const JOINS: u32 = HOTSPOTS as u32;

/// This number of entries at the beginning are PONGs, one of each hotspot.
const ROUND: u32 = 300;

/// How many milliseconds there are between the turns of a module.
const TURN_MS: u64 = 40;

/// Makes the entries of an evening one by one, without memory. Contracts see the evening: the index of the next entry,
/// the last number drawn with, and what each of the three modules has.
#[derive(Clone, Copy, Debug)]
pub struct Maker {
    entry: u32,
    draws: Draws,
    talks: [Talk; 3],
}

impl Model for Maker {
    ghost use Rattle.std.specs.Prelude.{All};
    ghost use Rattle.m17_text_commands.specs.Talk.{IsSteady};
    ghost use Rattle.m17_text_commands.specs.Maker.{Evening};

    ghost Value = { Evening };

    ghost view = { λ m. record { entry = m.entry; x = m.draws.x; talks = m.talks } };

    ghost invariant = { λ m. All IsSteady m.talks };

    ghost inverse = { λ e. record {
      entry = e.entry;
      draws = record { x = e.x };
      talks = e.talks;
    } };
}

impl Maker {
    ghost use Rattle.m17_text_commands.specs.Made.{IsSound};
    ghost use Rattle.m17_text_commands.specs.Make.{entry_heard};
    ghost use Rattle.m17_text_commands.specs.Maker.{made_at, after, IsDrawnFrom};

    /// An evening that is drawn from this seed, before its first entry.
    #[tactic(auto, unfolding(crate::specs::Maker::kept_before))]
    pub fn new(seed: u64) -> Maker
        ensures drawn { IsDrawnFrom seed result }
        ensures first { result.entry ≡ 0 }
    {
        Maker {
            entry: 0,
            draws: Draws { x: seed },
            talks: [Talk::silent(); 3],
        }
    }

    /// How many entries were made.
    pub fn entry(&self) -> u32
        ensures { result ≡ self.now.entry }
    {
        self.entry
    }

    /// What is heard at the next entry, of 100,000: a datagram, or quiet, as the rule has it for the seed that the
    /// evening was begun with.
    pub fn next(&mut self) -> Heard
        requires { self.old.entry < 100000 }
        ensures heard { (seed : ℕ) → IsDrawnFrom seed self.old
            → result ≡ entry_heard seed self.old.entry }
        ensures drawn { (seed : ℕ) → IsDrawnFrom seed self.old → IsDrawnFrom seed self.new }
        ensures entry { self.new.entry ≡ self.old.entry + 1 }
        ensures not_end { result ≢ End }
    {
        let at = moment(self.entry);
        heard(at, &self.make())
    }

    // What the next entry is.
    #[tactic(auto, unfolding(crate::specs::Maker::made_at, crate::specs::Maker::after))]
    fn make(&mut self) -> Made
        requires { self.old.entry < 100000 }
        ensures made { result ≡ made_at self.old }
        ensures sound { IsSound result }
        ensures after { self.new ≡ after self.old }
    {
        let j = self.entry;
        self.entry += 1;
        if j < JOINS {
            return Made::Conn {
                hotspot: Hotspot::new(j as u8),
            };
        }
        let round = (j - JOINS) % ROUND;
        if round < JOINS {
            return Made::Pong {
                hotspot: Hotspot::new(round as u8),
            };
        }
        let module = (j - JOINS) % u32::from(MODULES);
        self.talks[module as usize].turn(module as u8, &mut self.draws)
    }
}

// The moment of entry j, in milliseconds: all joins come at once.
fn moment(j: u32) -> u64
    ensures { result ≡ entry_moment j }
{
    if j < JOINS {
        0
    } else {
        TURN_MS * (u64::from((j - JOINS) / u32::from(MODULES)) + 1)
    }
}
