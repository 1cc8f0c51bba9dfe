ghost use Rattle.std.specs.Prelude.{◌≡◌, ◌<◌, ◌≤◌, ◌-◌, false, [], length, map, filter, not, IfOk, MatchResult, slice_index_or};
ghost use Rattle.std.specs.List.{list_any};
ghost use Rattle.m17_directory.specs.Outcome.{has_place};
ghost use Rattle.m17_directory.specs.Routed.{is_silent};
ghost use Rattle.m17_directory.specs.Steps.{IsInOrder, IsEarliest, IsRow, IsRowOf, IsGapFor, heard_now, is_among, with_row};

use crate::Known;
use crate::whom::{SILENCE_MS, Whom};
use m17_values::{NoMemory, Peer};
use std::alloc::Global;
use std::marker::Model;

/// The most peers that are known at once: one at each place.
pub(crate) const MOST_KNOWN: usize = 256;

// Who is known, in order of peers, and a moment before which none of them was last heard. Contracts see the list.
#[derive(Debug, Drop)]
pub(crate) struct Table {
    rows: Vec<Known>,
    earliest: u64,
}

impl Model for Table {
    ghost use Rattle.std.specs.Prelude.{List, vec_capacity};
    ghost use Rattle.m17_directory.specs.declared.known.Known.{Known};

    ghost Value = { List Known };

    ghost use Rattle.m17_directory.specs.Steps.{IsTable};

    ghost view = { λ t. t.rows.items };

    ghost invariant = { λ t. IsTable (vec_capacity t.rows) t.rows.items t.earliest };
}

impl Table {
    // Nobody, with room for one at each place.
    pub(crate) fn make(alloc: Global) -> Result<Table, NoMemory>
        ensures { IfOk result (λ table. table ≡ []) }
    {
        let rows = Vec::with_capacity(alloc, MOST_KNOWN)?;
        Ok(Table {
            rows,
            earliest: u64::MAX,
        })
    }

    // How many are known.
    pub(crate) fn len(&self) -> usize
        ensures { result ≡ length self.now }
    {
        self.rows.len()
    }

    // Who is known, in order of peers.
    pub(crate) fn rows(&self) -> &[Known]
        ensures rows { result.now ≡ self.now }
        ensures few { length self.now ≤ 256 }
        ensures order { IsInOrder self.now }
    {
        self.rows.as_slice()
    }

    // The row at an index.
    pub(crate) fn at(&self, row: usize) -> Known
        requires { row < length self.now }
        ensures { result ≡ slice_index_or self.now row result }
    {
        self.rows[row]
    }

    // The row of the peer, or else the gap where it would be.
    pub(crate) fn find(&self, peer: &Peer) -> Result<usize, usize>
        ensures { MatchResult result (IsRow self.now peer.now) (IsGapFor self.now peer.now) }
    {
        self.rows
            .as_slice()
            .binary_search_by(|known| known.peer.cmp(peer))
    }

    // Whether one of them has the place.
    pub(crate) fn has_place(&self, place: u32) -> bool
        ensures { result ≡ list_any (has_place place) self.now }
    {
        self.rows
            .as_slice()
            .iter()
            .any(|known| known.member.place == place)
    }

    // The peer, whose row this is, was heard at this moment.
    pub(crate) fn heard(&mut self, row: usize, known: &Known, moment: u64)
        requires { IsRowOf self.old known.now row }
        ensures { self.new ≡ map (heard_now known.now.peer moment) self.old }
    {
        self.rows[row] = Known {
            heard_at: moment,
            ..*known
        };
        self.earliest = self.earliest.min(moment);
    }

    // The peer is known as this from now on.
    pub(crate) fn put(&mut self, known: &Known)
        requires { length self.old < 256 }
        ensures { self.new ≡ with_row known.now self.old }
    {
        match self.find(&known.peer) {
            Ok(row) => self.replace(row, known),
            Err(gap) => self.insert(gap, known),
        }
    }

    // The same, where this is the peer's row.
    fn replace(&mut self, row: usize, known: &Known)
        requires { IsRow self.old known.now.peer row }
        ensures { self.new ≡ with_row known.now self.old }
    {
        self.rows[row] = *known;
        self.earliest = self.earliest.min(known.heard_at);
    }

    // The same, where the peer has no row, and this is the gap.
    fn insert(&mut self, gap: usize, known: &Known)
        requires few { length self.old < 256 }
        requires gap { IsGapFor self.old known.now.peer gap }
        ensures { self.new ≡ with_row known.now self.old }
    {
        self.rows.insert(gap, *known).unwrap();
        self.earliest = self.earliest.min(known.heard_at);
    }

    // Whether somebody may be silent at this moment.
    pub(crate) fn may_be_silent(&self, moment: u64) -> bool
        ensures { result ≡ false → filter (is_silent moment) self.now ≡ [] }
    {
        moment.saturating_sub(self.earliest) >= SILENCE_MS
    }

    // Takes them out.
    pub(crate) fn drop_all(&mut self, whom: &Whom)
        ensures { self.new ≡ filter (λ k. not (is_among whom.now k)) self.old }
    {
        self.rows.retain(|known| !whom.has(known));
        self.earliest = earliest_of(self.rows.as_slice());
    }
}

// The first of the moments at which they were last heard; the greatest number where nobody is known.
fn earliest_of(rows: &[Known]) -> u64
    ensures { IsEarliest result rows.now }
{
    let mut earliest = u64::MAX;
    for known in rows {
        earliest = earliest.min(known.heard_at);
    }
    earliest
}
