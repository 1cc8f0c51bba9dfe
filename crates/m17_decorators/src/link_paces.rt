ghost use Rattle.std.specs.Prelude.{◌≡◌, ◌-◌, ℕ, [], IfOk, IfSome, OnOk, is_some, nat_lt};
ghost use Rattle.m17_ports.specs.Mouth.{IsNewMouth};
ghost use Rattle.m17_ports.specs.Told.{StartsEmpty};
ghost use Rattle.m17_decorators.specs.Paced.{HasCome, IsAtPace, PacesSeen, pace_told, places_at, places_of};
ghost use Rattle.m17_decorators.specs.PaceMemory.{IsNew};

use crate::clock::Stopwatch;
use crate::pace::Pace;
use crate::paced::Paced;
use m17_ports::Mouth;
use m17_values::NoMemory;
use std::alloc::Global;
use std::marker::Model;

/// Paces for the mouths of so many links, with all the memory that these need: that of a pace grows
/// with its bound, and comes to 256 times 8 bytes for each frame of it. Contracts see the bound, and
/// for how many links there is a pace left.
#[derive(Drop)]
pub struct LinkPaces {
    most: usize,
    made: Vec<Pace>,
}

impl Model for LinkPaces {
    ghost use Rattle.std.specs.Prelude.{length};
    ghost use Rattle.m17_decorators.specs.Paced.{PacesSeen};

    ghost Value = { PacesSeen };

    ghost use Rattle.m17_decorators.specs.PaceMemory.{AreNew};

    ghost view = { λ paces. record { most = paces.most; left = length paces.made.items } };

    ghost invariant = { λ paces. AreNew paces.most paces.made.items };
}

impl LinkPaces {
    /// Paces of at most so many stream packets to one peer in any second, or of no bound, for this
    /// many links.
    pub fn make(alloc: Global, most: usize, links: usize) -> Result<LinkPaces, NoMemory>
        ensures { IfOk result (λ made. made ≡ record { most = most; left = links }) }
    {
        let mut made = Vec::new(alloc);
        'fill: while made.len() < links {
            made.push(Pace::make(alloc, most)?)?;
        }
        Ok(LinkPaces { most, made })
    }

    /// No bound, for the mouths of any number of links. It takes no memory.
    pub fn none(alloc: Global) -> LinkPaces
        ensures { result ≡ record { most = 0; left = 0 } }
    {
        LinkPaces {
            most: 0,
            made: Vec::new(alloc),
        }
    }

    /// The mouth of the next link behind its pace, which goes by this clock. Where there is a bound,
    /// but no pace left, it says no stream packet. It takes no memory.
    pub fn behind<M: Mouth + Drop, C: Stopwatch + Drop>(
        &mut self,
        mouth: M,
        clock: C,
    ) -> Paced<M, C>
        // Which mouth and which clock it is over; the bound, for how many peers it has room, and what
        // has come to it and was refused.
        ensures inner { result.inner ≡ mouth }
        ensures clock { result.clock ≡ clock }
        ensures most { result.most ≡ self.old.most }
        ensures places { places_of result.memory ≡ places_at self.old 0 }
        ensures nothing { HasCome result [] }
        ensures none_refused { result.refused ≡ 0 }
        ensures left { self.new ≡ record self.old { left = self.old.left - 1 } }
        // Over a mouth that has said nothing what it says keeps the pace from the first on
        // (`pace_laws::what_is_said_keeps_pace`).
        ensures at_pace { StartsEmpty (M.told mouth).said → IsAtPace M.told result }
        // A new mouth is a new one still.
        ensures new { (call : ℕ) → IsNewMouth call (M.told mouth)
            → IsNewMouth call (pace_told M.told result) }
    {
        let pace = self.next();
        Paced::with(mouth, clock, self.most, pace)
    }

    // The pace of the next link, if there is one left.
    fn next(&mut self) -> Option<Pace>
        ensures some { is_some result ≡ nat_lt 0 self.old.left }
        ensures new { IfSome result (IsNew self.old.most) }
        ensures left { self.new ≡ record self.old { left = self.old.left - 1 } }
    {
        self.made.pop()
    }
}
