ghost use Rattle.std.specs.Prelude.{◌≡◌, ◌<◌, ◌↔◌, [], ◌∷◌, ◌++◌, length, IfOk, IsTrue};
ghost use Rattle.m17_directory.specs.StandsFor.{departed_of, has_departing, without_member};

use crate::whom::is_same;
use crate::{Departed, Known};
use m17_values::{Member, NoMemory, Peer};
use std::alloc::Global;
use std::marker::Model;

/// How many members may be known and departing together.
pub(crate) const MOST_MEMBERS: usize = 512;

// The members that have left, and whose leaving was not reported yet. Contracts see the list.
#[derive(Debug, Drop)]
pub(crate) struct Departing {
    members: Vec<Departed>,
}

impl Model for Departing {
    ghost use Rattle.std.specs.Prelude.{List, ◌≤◌, vec_capacity};
    ghost use Rattle.m17_directory.specs.declared.known.Departed.{Departed};

    ghost Value = { List Departed };

    ghost view = { λ d. d.members.items };

    ghost invariant = { λ d. 512 ≤ vec_capacity d.members };
}

impl Departing {
    // None, with room for all.
    pub(crate) fn make(alloc: Global) -> Result<Departing, NoMemory>
        ensures { IfOk result (λ departing. departing ≡ []) }
    {
        let members = Vec::with_capacity(alloc, MOST_MEMBERS)?;
        Ok(Departing { members })
    }

    // One more: the member that the known peer was.
    pub(crate) fn put(&mut self, known: &Known)
        requires { length self.old < 512 }
        ensures { self.new ≡ self.old ++ departed_of known.now ∷ [] }
    {
        self.members.push_reserved(Departed {
            member: known.member,
            peer: known.peer,
        });
    }

    // How many there are.
    pub(crate) fn len(&self) -> usize
        ensures { result ≡ length self.now }
    {
        self.members.len()
    }

    // Whether there is one.
    pub(crate) fn has_some(&self) -> bool
        ensures { IsTrue result ↔ (0 < length self.now) }
    {
        !self.members.is_empty()
    }

    // Whether a member of this peer is among them.
    pub(crate) fn has(&self, peer: &Peer) -> bool
        ensures { result ≡ has_departing peer.now self.now }
    {
        self.members
            .as_slice()
            .iter()
            .any(|d| is_same(peer, &d.peer))
    }

    // The member's leaving was reported.
    pub(crate) fn noted(&mut self, m: Member)
        ensures { self.new ≡ without_member m self.old }
    {
        self.members.retain(|d| d.member != m);
    }
}
