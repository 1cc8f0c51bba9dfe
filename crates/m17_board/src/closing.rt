//! The end of a board.
ghost use Rattle.std.specs.Prelude.{◌≡◌, ◌≤◌, map, [], IfOk, vec_len, vec_capacity};
ghost use Rattle.std.specs.List.{AllZip};
ghost use Rattle.m17_board.specs.Glance.{glance_of};
ghost use Rattle.m17_board.specs.Ends.{AreOfOneBoard, IsPair, SawFirstParts};

use crate::eye::Eye;
use crate::glance::Glance;
use crate::poster::Poster;
use crate::rule::{Checks, Gathers, Leaves};
use m17_values::NoMemory;
use std::alloc::Global;
use std::sync::Wait;

/// Ends a board: takes all its ends, and gives the glance at all that was posted of each module, in their order. What each
/// eye saw are glances at first parts of that. `NoMemory` where there is none for the answer; the ends are gone then.
pub fn close<R: Wait>(
    rt: &R,
    alloc: Global,
    posters: Vec<Poster>,
    eyes: Vec<Eye>,
) -> Result<Vec<Glance>, NoMemory>
    requires { AreOfOneBoard posters.items eyes.items }
    ensures glances { IfOk result (λ r. r.items ≡ map (λ p. glance_of p.posted) posters.items) }
    ensures seen { IfOk result (λ _. AllZip SawFirstParts posters.items eyes.items) }
{
    let mut into = Vec::with_capacity(alloc, posters.len())?;
    close_into(rt, posters, eyes, &mut into);
    Ok(into)
}

/// `close` into a list that is empty and has room for the answer: it cannot be refused.
pub fn close_into<R: Wait>(
    rt: &R,
    mut posters: Vec<Poster>,
    mut eyes: Vec<Eye>,
    into: &mut Vec<Glance>,
)
    requires board { AreOfOneBoard posters.items eyes.items }
    requires empty { into.old.items ≡ [] }
    requires room { vec_len posters ≤ vec_capacity into.old }
    ensures glances { into.new.items ≡ map (λ p. glance_of p.posted) posters.items }
    ensures seen { AllZip SawFirstParts posters.items eyes.items }
{
    while let Some(poster) = posters.pop() {
        let Some(eye) = eyes.pop() else {
            unreachable!()
        };
        into.push_reserved(close_pair(rt, poster, eye));
    }
    into.reverse();
}

// The same of one module.
fn close_pair<R: Wait>(rt: &R, poster: Poster, eye: Eye) -> Glance
    requires { IsPair poster eye }
    ensures glance { result ≡ glance_of poster.posted }
    ensures seen { SawFirstParts poster eye }
{
    let glance = poster.glance();
    let Poster {
        cell: _,
        mut pass,
        sight: _,
        nobody: _,
        number: _,
    } = poster;
    let Eye {
        cell,
        pass: mut theirs,
        number: _,
    } = eye;
    let seen = cell.split_pass::<Leaves>(&mut theirs);
    cell.join_pass::<Gathers>(&mut pass, seen);
    cell.load_as::<Checks, R>(rt, &mut pass);
    glance
}
