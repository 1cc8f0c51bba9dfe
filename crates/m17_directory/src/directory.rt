ghost use Rattle.std.specs.Prelude.{◌≡◌, ◌↔◌, ◌+◌, ◌<◌, ◌≤◌, false, true, List, [], ◌∷◌, ◌++◌, length, map, Some, None, IfOk, IfSome, IsSome, IsTrue, ◌||◌, nat_le, if◌then◌else◌, option_map};
ghost use Rattle.std.specs.List.{list_any};
ghost use Rattle.m17_values.specs.declared.heard.Heard.TheVariants as heard;
ghost use Rattle.m17_directory.specs.Entries.{Notice, Entry, Claim, Says, is_fault, is_end};
ghost use Rattle.m17_directory.specs.Entries as entries;
ghost use Rattle.m17_directory.specs.Outcome.{has_place};
ghost use Rattle.m17_directory.specs.StandsFor.{StandsFor, IsHeard, IsSettled, IsBounded, HasGrown, must_wait, without_member, unclaimed};
ghost use Rattle.m17_directory.specs.StandsFor as stands;
ghost use Rattle.m17_directory.specs.declared.verdict.LinkVerdict.TheVariants as link;

use crate::people::People;
use crate::stamp::Stamp;
use crate::{LinkVerdict, Post};
use m17_callsign::CallAddress;
use m17_control::Modules;
use m17_values::{Heard, Member, NoMemory};
use std::alloc::Global;
use std::marker::Model;

/// The number of failures of its socket in a row that ends a link.
pub const MOST_FAULTS: u32 = 16;

/// One link's table of the peers that are known, and its departing members: those that have left and whose leaving was
/// not reported yet. Contracts see what it keeps, and relate that to the list of all that the link heard (`StandsFor`).
#[derive(Debug, Drop)]
pub struct Directory {
    link: u8,
    name: CallAddress,
    places: u32,
    modules: Modules,
    moment: u64,
    faults: u32,
    ended: bool,
    people: People,
}

impl Model for Directory {
    ghost use Rattle.m17_directory.specs.StandsFor.{DirectoryKept};

    ghost Value = { DirectoryKept };

    ghost use Rattle.m17_directory.specs.Sound.{kept_of, IsSound};

    ghost view = { kept_of };

    ghost invariant = { IsSound };
}

// The moment that what was heard names; 0 of a failure and of the end.
fn moment_of(h: &Heard) -> u64
    ensures { (notice : Notice) → Says h.now notice → result ≡ entries.moment_of notice }
{
    match h {
        Heard::Datagram { at, .. } => *at,
        Heard::Quiet { at } => *at,
        Heard::Fault | Heard::End => 0,
    }
}

// How many failures came last in a row, with this one, if it is one.
fn faults_with(h: &Heard, faults: u32) -> u32
    requires { faults < 16 }
    ensures { (notice : Notice) → Says h.now notice →
        result ≡ (if is_fault notice then faults + 1 else 0) }
{
    match h {
        Heard::Fault => faults + 1,
        _ => 0,
    }
}

// Whether the link ends by what was heard, behind `faults` failures in a row, this one among them.
fn ends_by(h: &Heard, faults: u32) -> bool
    ensures { (notice : Notice) → Says h.now notice →
        result ≡ (is_end notice || nat_le 16 faults) }
{
    matches!(h, Heard::End) || faults >= MOST_FAULTS
}

impl Directory {
    /// The directory of a link that has heard nothing: `link` is its number from 0, `name` the reflector's address,
    /// `places` how many places there are, 1 to 256, and `modules` those that are served. It fails only where there is
    /// no memory.
    pub fn make(
        alloc: Global,
        link: u8,
        name: CallAddress,
        places: u32,
        modules: Modules,
    ) -> Result<Directory, NoMemory>
        requires some { 1 ≤ places }
        requires at_most { places ≤ 256 }
        ensures setup { IfOk result (λ d. d.setup
            ≡ record { link = link; name = name; places = places; modules = modules }) }
        ensures stands { IfOk result (λ d. StandsFor d []) }
        ensures nothing_asked { IfOk result (λ d. d.asked ≡ None) }
        ensures nobody_departing { IfOk result (λ d. d.departing ≡ []) }
        ensures nobody_known { IfOk result (λ d. d.known ≡ []) }
        ensures ended { IfOk result (λ d. d.ended ≡ false) }
        ensures bounds { IfOk result (λ d. IsBounded d) }
    {
        let people = People::make(alloc)?;
        Ok(Directory {
            link,
            name,
            places,
            modules,
            moment: 0,
            faults: 0,
            ended: false,
            people,
        })
    }

    /// What the entry with this index becomes: its verdict, with its events and replies posted in order. `index` is the
    /// number of entries heard before. For every list of entries that the directory may have come from, and for what the
    /// entry says, it is what the entry at this position comes to, and the directory then stands for the list with the
    /// entry. After `Asks` the peer's request stands asked, and `settle` says what becomes of it; after `Ended` nothing
    /// more is heard.
    pub fn hear(&mut self, index: u64, h: &Heard, post: &mut Post) -> LinkVerdict
        requires nothing_posted { post.old ≡ [] }
        requires nothing_asked { self.old.asked ≡ None }
        requires open { self.old.ended ≡ false }
        ensures says { (notice : Notice) × Says h.now notice }
        ensures heard { (notice : Notice) → Says h.now notice → (entries : List Entry) →
            StandsFor self.old entries → index ≡ length entries → IsHeard self.old self.new entries
            notice (record { verdict = result; posts = post.new }) }
        ensures setup { self.new.setup ≡ self.old.setup }
        ensures asked { (result ≡ link.Asks) ↔ IsSome self.new.asked }
        ensures index { IfSome self.new.asked (λ asked. asked.index ≡ index) }
        ensures ended { (self.new.ended ≡ true) ↔ (result ≡ link.Ended) }
        ensures over { h.now ≡ heard.End → self.new.ended ≡ true }
        ensures together { length self.new.known + length self.new.departing
            ≡ length self.old.known + length self.old.departing }
        ensures departing { HasGrown self.old.departing self.new.departing }
        ensures bounds { IsBounded self.new }
    {
        let before = self.moment;
        let moment = before.max(moment_of(h));
        let faults = faults_with(h, self.faults);
        let ends = ends_by(h, faults);
        let stamp = self.stamp(index, moment);
        self.moment = moment;
        self.faults = faults;
        self.ended = ends;
        let mut verdict = LinkVerdict::Timed;
        self.people
            .hear(before, ends, h, &stamp, post, &mut verdict);
        verdict
    }

    /// Whether a request is asked that must wait: its peer has a departing member, or known and departing together are
    /// 512.
    pub fn waits(&self) -> bool
        ensures { result ≡ must_wait self.now }
    {
        self.people.must_wait()
    }

    /// What becomes of the request that is asked. With a member, whose place the reflector gave, the peer joins, to be
    /// greeted after `after` reported members; another peer that this link knows at the same place leaves first, as
    /// replaced. Without one a NACK goes to the door, and the verdict is `Full`. For every list of entries that the
    /// directory may have come from, it is what the request of the last entry comes to by this claim, and the directory
    /// then stands for the list in which the entry has the claim.
    pub fn settle(&mut self, claimed: Option<Member>, after: u64, post: &mut Post) -> LinkVerdict
        requires asked { IsSome self.old.asked }
        requires ready { must_wait self.old ≡ false }
        requires nothing_posted { post.old ≡ [] }
        requires place { IfSome claimed (λ m. m.place < self.old.setup.places) }
        ensures settled { (entries : List Entry) → (notice : Notice) →
            StandsFor self.old (entries ++ unclaimed notice ∷ []) →
            IsSettled self.old self.new entries (stands.claimed notice
            (option_map (λ m. record { member = m; after = after }) claimed))
            (record { verdict = result; posts = post.new }) }
        ensures setup { self.new.setup ≡ self.old.setup }
        ensures ended { self.new.ended ≡ self.old.ended }
        ensures nothing_asked { self.new.asked ≡ None }
        ensures together { length self.new.known + length self.new.departing
            ≤ length self.old.known + length self.old.departing + 1 }
        ensures departing { HasGrown self.old.departing self.new.departing }
        ensures bounds { IsBounded self.new }
    {
        let asked = self.people.asked().unwrap();
        let stamp = self.stamp(asked.index, self.moment);
        self.people.settle(&asked, claimed, after, &stamp, post)
    }

    /// The member's leaving was reported: it isn't departing any more. Another member is passed over. The directory may
    /// have come from what it may have come from before, and a request that needs to wait no more goes on so.
    pub fn noted(&mut self, m: Member)
        ensures noted { self.new ≡ record {
          setup = self.old.setup;
          moment = self.old.moment;
          known = self.old.known;
          asked = self.old.asked;
          departing = without_member m self.old.departing;
          faults = self.old.faults;
          ended = self.old.ended;
        } }
        ensures stands { (entries : List Entry) → StandsFor self.old entries →
            StandsFor self.new entries }
        ensures waits { must_wait self.old ≡ false → must_wait self.new ≡ false }
        ensures bounds { IsBounded self.new }
    {
        self.people.noted(m);
    }

    /// How many peers are known, at most as many as there are places.
    pub fn known(&self) -> u32
        ensures count { result ≡ length self.now.known }
        ensures bounds { IsBounded self.now }
    {
        self.people.known() as u32
    }

    /// Whether a member is departing: it has left, and its leaving was not reported yet.
    pub fn has_departing(&self) -> bool
        ensures { IsTrue result ↔ (0 < length self.now.departing) }
    {
        self.people.has_departing()
    }

    /// Whether a known peer has this place.
    pub fn has_place(&self, place: u32) -> bool
        ensures { result ≡ list_any (has_place place) self.now.known }
    {
        self.people.has_place(place)
    }

    /// Whether the link has ended.
    pub fn has_ended(&self) -> bool
        ensures { result ≡ self.now.ended }
    {
        self.ended
    }

    // What the entry with this index, at this moment of the link, gives to all that it posts.
    fn stamp(&self, index: u64, moment: u64) -> Stamp
        ensures { result ≡ record { setup = self.now.setup; index = index; moment = moment } }
    {
        Stamp {
            link: self.link,
            name: self.name,
            places: self.places,
            modules: self.modules,
            index,
            moment,
        }
    }
}
