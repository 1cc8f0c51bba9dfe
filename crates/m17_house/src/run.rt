ghost use Rattle.std.specs.Prelude.{◌≡◌, ◌↔◌, ◌-◌, ◌+◌, ◌^◌, ◌<◌, ℕ, List, [], Option, None, Some, false, length, slice_index, slice_index_or, slice_set, IfOk, IsSome};
ghost use Rattle.m17_values.specs.declared.heard.Heard.{Heard};
ghost use Rattle.std.specs.List.{filter_map, AllByRecursion};
ghost use Rattle.std.specs.Option.{option_to_list};
ghost use Rattle.m17_directory.specs.declared.dispatch.Dispatch.{Dispatch};
ghost use Rattle.m17_directory.specs.declared.verdict.LinkVerdict.{LinkVerdict};
ghost use Rattle.m17_directory.specs.declared.verdict.LinkVerdict.TheVariants as link;
ghost use Rattle.m17_directory.specs.Entries.{Entry, Notice, Says};
ghost use Rattle.m17_directory.specs.Laws as laws;
ghost use Rattle.m17_control.specs.Forms.{Refuses, Spells};
ghost use Rattle.m17_fields.specs.Reading.{HasOneReading};
ghost use Rattle.m17_floor.specs.declared.verdict.Verdict.{Verdict};
ghost use Rattle.m17_port_memory.specs.Kept.{TalliesKept};
ghost use Rattle.m17_plan.specs.declared.plan.Plan.{Plan};
ghost use Rattle.m17_house.specs.Hearing.{has_ended, HasHeard, HearsMore};
ghost use Rattle.m17_house.specs.Replay.{HasNoTallies};
ghost use Rattle.m17_plan.specs.Planned.{IsPlan};
ghost use Rattle.m17_house.specs.Tallied.{IsSameMouth};
ghost use Rattle.m17_house.specs.Carried.{HasCarried, IsServed};
ghost use Rattle.m17_house.specs.SoFar.{change, scene, AreTaken, IsCarriedOut, IsGiven, IsIdle, IsSoFar, IsTakenIn, freeing, noting};

use crate::choice::choose;
use crate::stage::Stage;
use m17_control::{Body, laws as control_laws};
use m17_directory::{Directory, Dispatch, LinkVerdict, Post, laws as directory_laws};
use m17_floor::{Verdict, laws as floor_laws};
use m17_plan::Plan;
use m17_port_memory::TallyMouth;
use m17_values::{Heard, Member, NoMemory};
use std::alloc::Global;

/// How many places there are at most.
pub(crate) const MOST_PLACES: usize = 256;

/// A replay in one thread of what one link heard: it hears entry by entry, and tells at once what each becomes, with lists
/// in place of queues and no room that runs out. A peer that asks gets the least place that no other known peer has, as the
/// next member of that place, and is greeted at once; where none is free it is turned away. What the modules give and what
/// is answered past them is said on the mouth, which keeps its tallies.
// One link's directory, what it posted last, the modules, how often each place was given, and marks of the places that are
// had.
#[derive(Debug, Drop)]
pub struct Run {
    pub(crate) directory: Directory,
    pub(crate) post: Post,
    pub(crate) stage: Stage,
    pub(crate) given: [u64; MOST_PLACES],
    pub(crate) taken: [bool; MOST_PLACES],
}

// The member that a dispatch tells to have left, if it does.
fn left_member(dispatch: &Dispatch) -> Option<Member>
    ensures { result ≡ laws.left_member dispatch.now }
{
    match dispatch {
        Dispatch::ToModule { event, .. } => match &event.body {
            Body::Leave { member, .. } => Some(*member),
            _ => None,
        },
        Dispatch::ToDoor(_) => None,
    }
}

// A place is marked no more.
#[tactic(auto, using(std::proofs::lemmas::List::set_past))]
fn unmark(taken: &mut [bool; MOST_PLACES], place: u32)
    ensures { taken.new ≡ slice_set taken.old place false }
{
    if (place as usize) < MOST_PLACES {
        taken[place as usize] = false;
    }
}

// The directory is told of the member that a dispatch tells to have left, and its place is marked no more.
fn note(directory: &mut Directory, taken: &mut [bool; MOST_PLACES], dispatch: &Dispatch)
    ensures noted { directory.new
        ≡ noting (option_to_list (laws.left_member dispatch.now)) directory.old }
    ensures freed { taken.new
        ≡ freeing (option_to_list (laws.left_member dispatch.now)) taken.old }
{
    if let Some(member) = left_member(dispatch) {
        directory.noted(member);
        unmark(taken, member.place);
    }
}

// Bytes are a packet, or no packet.
fn reads(bytes: &[u8])
    ensures { HasOneReading Spells Refuses bytes.now }
{
    control_laws::decoding_is_exact();
    let _bytes = bytes;
}

// What was heard says something.
fn says_something(h: &Heard)
    ensures { (notice : Notice) × Says h.now notice }
{
    match h {
        Heard::Datagram { bytes, .. } => reads(bytes.bytes()),
        Heard::Quiet { .. } => {}
        Heard::Fault => {}
        Heard::End => {}
    }
}

// No place was given yet.
fn no_counts() -> [u64; MOST_PLACES]
    ensures cells { length result ≡ 256 }
    ensures none { (place : ℕ) → place < 256 → slice_index result place ≡ 0 }
{
    [0; MOST_PLACES]
}

// No place is marked.
fn no_marks() -> [bool; MOST_PLACES]
    ensures { (place : ℕ) → slice_index_or result place false ≡ false }
{
    [false; MOST_PLACES]
}

impl Run {
    /// A run of this plan that has heard nothing. `NoMemory` where there is none for it; nothing allocates afterwards.
    pub fn make(alloc: Global, plan: &Plan) -> Result<Run, NoMemory>
        requires { IsPlan plan.now }
        ensures { IfOk result (λ run. (mouth : TalliesKept) → HasNoTallies mouth →
            HasHeard plan.now [] [] run mouth) }
    {
        let directory = Directory::make(alloc, 0, plan.name, plan.places, plan.modules)?;
        let post = Post::make(alloc)?;
        let stage = Stage::make(alloc, plan)?;
        Ok(Run {
            directory,
            post,
            stage,
            given: no_counts(),
            taken: no_marks(),
        })
    }

    /// Whether the link has ended.
    pub fn has_ended(&self) -> bool
        ensures { result ≡ has_ended self.now }
    {
        self.directory.has_ended()
    }

    // Carries out all that was posted; who leaves by it is noted. Answers the verdict on the packet among it.
    fn carry_out(&mut self, mouth: &mut TallyMouth) -> Option<Verdict>
        requires { self.old.stage.out ≡ [] }
        ensures post { self.new.post ≡ [] }
        ensures out { self.new.stage.out ≡ [] }
        ensures name { self.new.stage.name ≡ self.old.stage.name }
        ensures given { self.new.given ≡ self.old.given }
        ensures freed { self.new.taken
            ≡ freeing (filter_map laws.left_member self.old.post) self.old.taken }
        ensures noted { self.new.directory
            ≡ noting (filter_map laws.left_member self.old.post) self.old.directory }
        ensures mouth { IsSameMouth mouth.old mouth.new }
        ensures carried { (plan : Plan) (before : List Dispatch) →
            self.old.stage.name ≡ plan.name → AllByRecursion (IsServed plan) self.old.post →
            length before + length self.old.post < 2 ^ 64 - 1 →
            HasCarried plan before self.old.stage.rooms mouth.old →
            IsCarriedOut plan before self.old.post (self.new.stage.rooms, mouth.new) result }
    {
        let mut verdict = None;
        while let Some(dispatch) = self.post.first() {
            self.stage.carry(dispatch, mouth, &mut verdict);
            note(&mut self.directory, &mut self.taken, dispatch);
            let _done = self.post.take();
        }
        verdict
    }

    // What the entry with this index becomes, but for its claim: the link's verdict is written where the caller keeps it.
    fn take_in(
        &mut self,
        index: u64,
        h: &Heard,
        mouth: &mut TallyMouth,
        verdict: &mut LinkVerdict,
    ) -> Option<Verdict>
        requires post { self.old.post ≡ [] }
        requires out { self.old.stage.out ≡ [] }
        requires asked { self.old.directory.asked ≡ None }
        requires open { self.old.directory.ended ≡ false }
        ensures post { self.new.post ≡ [] }
        ensures out { self.new.stage.out ≡ [] }
        ensures asked { (verdict.new ≡ link.Asks) ↔ IsSome self.new.directory.asked }
        ensures mouth { IsSameMouth mouth.old mouth.new }
        ensures taken { (plan : Plan) (entries : List Entry) (notice : Notice) →
            Says h.now notice → index ≡ length entries → length entries < 2 ^ 58 →
            IsSoFar plan entries self.old mouth.old →
            IsTakenIn plan entries notice (scene self.new mouth.new) (verdict.new, result) }
    {
        directory_laws::each_who_leaves_is_posted();
        directory_laws::ended_where_it_ends();
        directory_laws::entries_before_decide();
        directory_laws::later_entries_change_nothing();
        directory_laws::one_entry_more();
        directory_laws::only_served_are_routed();
        directory_laws::peers_come_and_go();
        *verdict = self.directory.hear(index, h, &mut self.post);
        self.carry_out(mouth)
    }

    // What becomes of the request that is asked.
    fn give(&mut self, plan: &Plan, mouth: &mut TallyMouth) -> LinkVerdict
        requires post { self.old.post ≡ [] }
        requires out { self.old.stage.out ≡ [] }
        requires asked { IsSome self.old.directory.asked }
        requires idle { IsIdle plan.now self.old }
        requires taken { AreTaken self.old.taken self.old.directory.known None }
        requires room { (place : ℕ) → slice_index self.old.given place < 2 ^ 64 - 1 }
        ensures post { self.new.post ≡ [] }
        ensures out { self.new.stage.out ≡ [] }
        ensures mouth { IsSameMouth mouth.old mouth.new }
        ensures given { (entries : List Entry) (notice : Notice) (answer : Option Verdict) →
            length entries < 2 ^ 58 →
            IsTakenIn plan.now entries notice (scene self.old mouth.old) (link.Asks, answer) →
            IsGiven plan.now entries notice (change self.old self.new mouth.new) result }
    {
        directory_laws::askers_ask_for_served_modules();
        directory_laws::each_who_leaves_is_posted();
        directory_laws::entries_before_decide();
        directory_laws::later_entries_change_nothing();
        directory_laws::one_entry_more();
        directory_laws::only_served_are_routed();
        directory_laws::peers_come_and_go();
        let member = choose(
            &self.directory,
            plan.places,
            &mut self.given,
            &mut self.taken,
        );
        let verdict = self.directory.settle(member, 0, &mut self.post);
        let _none = self.carry_out(mouth);
        verdict
    }

    /// Hears one thing more, as the entry with this index, which is the number of those before. Answers what becomes of it:
    /// the link's verdict, which is written where the caller keeps it, and the floor rule's on its packet, if it was routed
    /// to a module as one. After an entry that ends the link nothing more is heard.
    pub fn hear(
        &mut self,
        plan: &Plan,
        index: u64,
        h: &Heard,
        mouth: &mut TallyMouth,
        verdict: &mut LinkVerdict,
    ) -> Option<Verdict>
        requires so_far { (heard : List Heard) × (entries : List Entry) × (index ≡ length entries)
            × (length entries < 2 ^ 58) × HasHeard plan.now heard entries self.old mouth.old }
        ensures mouth { IsSameMouth mouth.old mouth.new }
        ensures heard { (heard : List Heard) (entries : List Entry) → index ≡ length entries →
            length entries < 2 ^ 58 → HasHeard plan.now heard entries self.old mouth.old →
            HearsMore plan.now heard entries h.now (scene self.new mouth.new) (verdict.new, result) }
    {
        directory_laws::entries_before_decide();
        directory_laws::ended_where_it_ends();
        directory_laws::later_entries_change_nothing();
        directory_laws::one_entry_more();
        directory_laws::packets_are_routed();
        directory_laws::events_carry_their_index();
        floor_laws::later_acts_change_no_verdict();
        floor_laws::only_speakers_are_heard();
        says_something(h);
        let answer = self.take_in(index, h, mouth, verdict);
        match verdict {
            LinkVerdict::Asks => {
                *verdict = self.give(plan, mouth);
                None
            }
            _ => answer,
        }
    }
}
