//! How a board is made.
ghost use Rattle.std.specs.Prelude.{◌≡◌, ◌≤◌, IfOk};
ghost use Rattle.m17_board.specs.Ends.{IsNewPair, AreNew, AreOfOneBoard};

use crate::eye::Eye;
use crate::poster::Poster;
use crate::rule::{Cell, Tells};
use crate::sight::Sight;
use m17_values::{Address, NoMemory};
use std::alloc::Global;
use std::sync::Arc;

/// The posters and the eyes of a new board, one for each module, in the same order. `modules` is 1 to 26. `NoMemory` where
/// there is none for it.
pub fn make(alloc: Global, modules: u32) -> Result<(Vec<Poster>, Vec<Eye>), NoMemory>
    requires { (1 ≤ modules) × (modules ≤ 26) }
    ensures new { IfOk result (λ r. AreNew modules r.0.items r.1.items) }
    ensures board { IfOk result (λ r. AreOfOneBoard r.0.items r.1.items) }
{
    let mut posters = Vec::with_capacity(alloc, modules as usize)?;
    let mut eyes = Vec::with_capacity(alloc, modules as usize)?;
    for number in 0..modules {
        let (poster, eye) = make_pair(alloc, number)?;
        posters.push_reserved(poster);
        eyes.push_reserved(eye);
    }
    Ok((posters, eyes))
}

// The ends of one module, over a cell of their own.
fn make_pair(alloc: Global, number: u32) -> Result<(Poster, Eye), NoMemory>
    ensures { IfOk result (λ r. IsNewPair number r.0 r.1) }
{
    let Some(nobody) = Address::new(0) else {
        unreachable!()
    };
    let sight = Sight::first();
    let (cell, mut pass) = Cell::ruled(alloc, sight.glance(nobody).to_words())?;
    let sees = cell.split_pass::<Tells>(&mut pass);
    let cell = Arc::new(alloc, cell)?;
    let shared = Arc::try_clone(&cell)?;
    let poster = Poster {
        cell: shared,
        pass,
        sight,
        nobody,
        number,
    };
    let eye = Eye {
        cell,
        pass: sees,
        number,
    };
    Ok((poster, eye))
}
