//! Who is known to a link and who departs, and what packets, time and the end of the link do to them.
ghost use Rattle.std.specs.Prelude.{◌≡◌, ◌⊎◌, ◌↔◌, ◌+◌, ◌<◌, ◌≤◌, ℕ, max, false, IsTrue, [], ◌∷◌, ◌++◌, length, map, filter, Some, None, IfOk, IsSome, IfSome, not, option_map};
ghost use Rattle.std.specs.List.{list_any};
ghost use Rattle.m17_control.specs.declared.event.Why.TheVariants.{Silent, Stopped};
ghost use Rattle.m17_directory.specs.Entries.{Notice, Claim, Says, moment_of};
ghost use Rattle.m17_directory.specs.Known.{request_of};
ghost use Rattle.m17_directory.specs.Outcome.{has_place, is_what, leave, to_module, known_asks, other_asks, of_known, of_other, of_packet, of_end, only};
ghost use Rattle.m17_directory.specs.Routed.{is_silent, is_asks, row_for};
ghost use Rattle.m17_directory.specs.StandsFor.{with_left, without_member};
ghost use Rattle.m17_directory.specs.Steps.{AreFew, IsInOrder, IsRowOf, IsComeTo, IsTaken, IsGiven, is_among, asked_by, lists_heard, lists_without, lists_wait, ticks_by};
ghost use Rattle.m17_directory.specs.declared.whom.Whom.TheVariants as whom;
ghost use Rattle.m17_directory.specs.declared.verdict.LinkVerdict.TheVariants as link;
ghost use Rattle.m17_control.specs.declared.event.Body.TheVariants as body;
ghost use Rattle.m17_control.specs.declared.packet.Packet.{Packet};
ghost use Rattle.m17_control.specs.declared.packet.Refusal.{Refusal};
ghost use Rattle.m17_control.specs.declared.packet.Packet.TheVariants as packets;
ghost use Rattle.m17_control.specs.Forms.{Spells, Refuses};

use crate::departing::{Departing, MOST_MEMBERS};
use crate::stamp::Stamp;
use crate::table::Table;
use crate::whom::Whom;
use crate::{Act, Asked, Known, LinkVerdict, Post};
use m17_control::{Body, Control, Packet, Why, decode};
use m17_values::{Heard, Member, NoMemory, Peer};
use std::alloc::Global;
use std::marker::Model;

/// A module is told of the time where the link's moment passes a multiple of this, in milliseconds.
pub(crate) const TICK_MS: u64 = 20;

// Who is known, the request that waits for a claim, and who departs.
#[derive(Debug, Drop)]
pub(crate) struct People {
    pub(crate) known: Table,
    pub(crate) asked: Option<Asked>,
    departing: Departing,
}

impl Model for People {
    ghost use Rattle.m17_directory.specs.Steps.{Lists, AreFew};

    ghost Value = { Lists };

    ghost view = { λ p. record { known = p.known; asked = p.asked; departing = p.departing } };

    ghost invariant = { λ p. AreFew p.known p.departing };
}

// The peer that asked, as it is known once it has a place.
fn known_as(asked: &Asked, member: Member, moment: u64) -> Known
    ensures { result ≡ record {
      peer = asked.now.peer;
      member = member;
      letter = asked.now.request.letter;
      callsign = asked.now.request.callsign;
      listen = asked.now.request.listen;
      heard_at = moment;
    } }
{
    Known {
        peer: asked.peer,
        member,
        letter: asked.request.letter,
        callsign: asked.request.callsign,
        listen: asked.request.listen,
        heard_at: moment,
    }
}

// Each module is told of the time, where the moment passes a multiple of 20 ms.
fn tick(before: u64, stamp: &Stamp, post: &mut Post)
    requires { length post.old ≤ 256 }
    ensures told { post.new ≡ post.old ++ ticks_by stamp.now before }
    ensures few { length post.new ≤ 282 }
{
    if before / TICK_MS < stamp.moment() / TICK_MS {
        stamp.tell_each(&Body::Tick, post);
    }
}

// Those among the known leave, in order of peers.
fn say_leaves(
    rows: &[Known],
    whom: &Whom,
    why: Why,
    stamp: &Stamp,
    departing: &mut Departing,
    post: &mut Post,
)
    requires room { length post.old + length (filter (is_among whom.now) rows.now) ≤ 300 }
    requires members { length rows.now + length departing.old ≤ 512 }
    ensures told { post.new ≡ post.old
        ++ map (leave stamp.now why) (filter (is_among whom.now) rows.now) }
    ensures left { departing.new
        ≡ with_left departing.old (filter (is_among whom.now) rows.now) }
{
    for known in rows {
        if whom.has(known) {
            let member = known.member;
            stamp.tell(known.letter, &Body::Leave { member, why }, post);
            departing.put(known);
        }
    }
}

impl People {
    // Nobody.
    pub(crate) fn make(alloc: Global) -> Result<People, NoMemory>
        ensures { IfOk result (λ people.
            people ≡ record { known = []; asked = None; departing = [] }) }
    {
        let known = Table::make(alloc)?;
        let departing = Departing::make(alloc)?;
        Ok(People {
            known,
            asked: None,
            departing,
        })
    }

    // How many are known.
    pub(crate) fn known(&self) -> usize
        ensures { result ≡ length self.now.known }
    {
        self.known.len()
    }

    // Whether one that is known has the place.
    pub(crate) fn has_place(&self, place: u32) -> bool
        ensures { result ≡ list_any (has_place place) self.now.known }
    {
        self.known.has_place(place)
    }

    // The request that is asked, if one is.
    pub(crate) fn asked(&self) -> Option<Asked>
        ensures { result ≡ self.now.asked }
    {
        self.asked
    }

    // Whether a request is asked and must wait.
    pub(crate) fn must_wait(&self) -> bool
        ensures { result ≡ lists_wait self.now }
    {
        match &self.asked {
            None => false,
            Some(asked) => {
                self.departing.has(&asked.peer)
                    || self.known.len() + self.departing.len() == MOST_MEMBERS
            }
        }
    }

    // Whether a member is departing.
    pub(crate) fn has_departing(&self) -> bool
        ensures { IsTrue result ↔ (0 < length self.now.departing) }
    {
        self.departing.has_some()
    }

    // The member's leaving was reported.
    pub(crate) fn noted(&mut self, m: Member)
        ensures noted { self.new ≡ record {
          known = self.old.known;
          asked = self.old.asked;
          departing = without_member m self.old.departing;
        } }
        ensures waits { lists_wait self.old ≡ false → lists_wait self.new ≡ false }
    {
        self.departing.noted(m);
    }

    // These leave, in order of peers.
    pub(crate) fn leave(&mut self, whom: &Whom, why: Why, stamp: &Stamp, post: &mut Post)
        requires { length post.old + length (filter (is_among whom.now) self.old.known) ≤ 300 }
        ensures left { self.new ≡ lists_without whom.now self.old }
        ensures told { post.new ≡ post.old
            ++ map (leave stamp.now why) (filter (is_among whom.now) self.old.known) }
    {
        say_leaves(
            self.known.rows(),
            whom,
            why,
            stamp,
            &mut self.departing,
            post,
        );
        self.known.drop_all(whom);
    }

    // Who is silent leaves.
    fn silence(&mut self, stamp: &Stamp, post: &mut Post)
        requires { post.old ≡ [] }
        ensures left { self.new ≡ lists_without (whom.Silent stamp.now.moment) self.old }
        ensures told { post.new
            ≡ map (leave stamp.now Silent) (filter (is_silent stamp.now.moment) self.old.known) }
        ensures few { length post.new ≤ 256 }
    {
        let moment = stamp.moment();
        if self.known.may_be_silent(moment) {
            self.leave(&Whom::Silent(moment), Why::Silent, stamp, post);
        }
    }

    // Time goes by: who is silent leaves, and each module is told where a tick was passed.
    fn pass(&mut self, before: u64, stamp: &Stamp, post: &mut Post)
        requires { post.old ≡ [] }
        ensures left { self.new ≡ lists_without (whom.Silent stamp.now.moment) self.old }
        ensures told { post.new
            ≡ map (leave stamp.now Silent) (filter (is_silent stamp.now.moment) self.old.known)
            ++ ticks_by stamp.now before }
        ensures few { length post.new ≤ 282 }
    {
        self.silence(stamp, post);
        tick(before, stamp, post);
    }

    // The link ends: all leave, and each module is told.
    fn end(&mut self, stamp: &Stamp, post: &mut Post) -> LinkVerdict
        requires { post.old ≡ [] }
        ensures verdict { result ≡ (of_end stamp.now self.old.known).verdict }
        ensures posts { post.new ≡ (of_end stamp.now self.old.known).posts }
        ensures left { self.new ≡ record {
          known = [];
          asked = self.old.asked;
          departing = with_left self.old.departing self.old.known;
        } }
    {
        let _known = &self.known;
        self.leave(&Whom::Everyone, Why::Stopped, stamp, post);
        stamp.tell_each(&Body::Stop, post);
        LinkVerdict::Ended
    }

    // What an entry becomes. `before` is the link's moment before it, and `ends` tells whether it ends the link. The verdict
    // is written where the caller keeps it.
    pub(crate) fn hear(
        &mut self,
        before: u64,
        ends: bool,
        h: &Heard,
        stamp: &Stamp,
        post: &mut Post,
        verdict: &mut LinkVerdict,
    )
        requires nothing_posted { post.old ≡ [] }
        requires nothing_asked { self.old.asked ≡ None }
        ensures says { (notice : Notice) × Says h.now notice }
        ensures taken { (notice : Notice) → Says h.now notice →
            stamp.now.moment ≡ max before (moment_of notice) →
            IsTaken stamp.now before ends self.old self.new notice post.new verdict.new }
        ensures order { IsInOrder self.old.known }
        ensures few { AreFew self.new.known self.new.departing }
    {
        let _rows = self.known.rows();
        self.take_in(before, ends, h, stamp, post, verdict);
        let _known = &self.known;
    }

    // The same, with what is true of it alone.
    fn take_in(
        &mut self,
        before: u64,
        ends: bool,
        h: &Heard,
        stamp: &Stamp,
        post: &mut Post,
        verdict: &mut LinkVerdict,
    )
        requires nothing_posted { post.old ≡ [] }
        requires nothing_asked { self.old.asked ≡ None }
        ensures says { (notice : Notice) × Says h.now notice }
        ensures taken { (notice : Notice) → Says h.now notice →
            stamp.now.moment ≡ max before (moment_of notice) →
            IsTaken stamp.now before ends self.old self.new notice post.new verdict.new }
    {
        match h {
            Heard::Datagram { from, bytes, .. } => {
                self.pass(before, stamp, post);
                self.datagram(from, bytes.bytes(), stamp, post, verdict);
            }
            Heard::Quiet { .. } => {
                self.pass(before, stamp, post);
                *verdict = LinkVerdict::Timed;
            }
            Heard::Fault if !ends => *verdict = LinkVerdict::Faulted,
            Heard::Fault | Heard::End => *verdict = self.end(stamp, post),
        }
    }

    // What a datagram becomes, after the time that went by.
    fn datagram(
        &mut self,
        from: &Peer,
        bytes: &[u8],
        stamp: &Stamp,
        post: &mut Post,
        verdict: &mut LinkVerdict,
    )
        requires { length post.old ≤ 282 }
        ensures reads { ((p : Packet) × Spells p bytes.now)
            ⊎ ((refusal : Refusal) × Refuses bytes.now refusal) }
        ensures spelled { (p : Packet) → Spells p bytes.now →
            IsComeTo stamp.now from.now (request_of p) self.old self.new
            (of_packet stamp.now from.now (row_for from.now self.old.known) p)
            post.old post.new verdict.new }
        ensures refused { (refusal : Refusal) → Refuses bytes.now refusal →
            (verdict.new ≡ link.Refused refusal) × (self.new ≡ self.old) × (post.new ≡ post.old) }
    {
        match decode(bytes) {
            Ok(packet) => self.packet(from, &packet, stamp, post, verdict),
            Err(refusal) => *verdict = LinkVerdict::Refused(refusal),
        }
    }

    // What a packet becomes.
    fn packet(
        &mut self,
        from: &Peer,
        packet: &Packet,
        stamp: &Stamp,
        post: &mut Post,
        verdict: &mut LinkVerdict,
    )
        requires { length post.old ≤ 282 }
        ensures { IsComeTo stamp.now from.now (request_of packet.now) self.old self.new
            (of_packet stamp.now from.now (row_for from.now self.old.known) packet.now)
            post.old post.new verdict.new }
    {
        match self.known.find(from) {
            Ok(row) => {
                let known = self.known.at(row);
                self.of_known(row, &known, packet, stamp, post, verdict);
            }
            Err(_) => self.of_other(from, packet, stamp, post, verdict),
        }
    }

    // What becomes of the request that is asked.
    pub(crate) fn settle(
        &mut self,
        asked: &Asked,
        claimed: Option<Member>,
        after: u64,
        stamp: &Stamp,
        post: &mut Post,
    ) -> LinkVerdict
        requires nothing_posted { post.old ≡ [] }
        requires members { length self.old.known + length self.old.departing < 512 }
        requires free { IfSome claimed (λ m. length (filter (λ k. not (has_place m.place k))
            self.old.known) < 256) }
        ensures given { IsGiven stamp.now asked.now
            (option_map (λ m. record { member = m; after = after }) claimed)
            self.old self.new post.new result }
        ensures few { AreFew self.new.known self.new.departing }
    {
        self.asked = None;
        let verdict = self.give(asked, claimed, after, stamp, post);
        let _known = &self.known;
        verdict
    }

    // The same, where no request stands asked any more.
    fn give(
        &mut self,
        asked: &Asked,
        claimed: Option<Member>,
        after: u64,
        stamp: &Stamp,
        post: &mut Post,
    ) -> LinkVerdict
        requires nothing_posted { post.old ≡ [] }
        requires nothing_asked { self.old.asked ≡ None }
        requires members { length self.old.known + length self.old.departing < 512 }
        requires free { IfSome claimed (λ m. length (filter (λ k. not (has_place m.place k))
            self.old.known) < 256) }
        ensures { IsGiven stamp.now asked.now
            (option_map (λ m. record { member = m; after = after }) claimed)
            self.old self.new post.new result }
    {
        let Some(member) = claimed else {
            stamp.answer(&asked.peer, &Control::Nack, post);
            return LinkVerdict::Full;
        };
        self.join(asked, member, after, stamp, post)
    }

    // The peer that asked becomes known as this member; another at its place leaves first.
    fn join(
        &mut self,
        asked: &Asked,
        member: Member,
        after: u64,
        stamp: &Stamp,
        post: &mut Post,
    ) -> LinkVerdict
        requires nothing_posted { post.old ≡ [] }
        requires nothing_asked { self.old.asked ≡ None }
        requires members { length self.old.known + length self.old.departing < 512 }
        requires free { length (filter (λ k. not (has_place member.place k)) self.old.known) < 256 }
        ensures { IsGiven stamp.now asked.now (Some (record { member = member; after = after }))
            self.old self.new post.new result }
    {
        let _known = &self.known;
        let whom = Whom::Place(member.place);
        self.leave(&whom, Why::Replaced, stamp, post);
        self.known.put(&known_as(asked, member, stamp.moment()));
        let body = Body::Join {
            member,
            peer: asked.peer,
            callsign: asked.request.callsign,
            listen: asked.request.listen,
            after,
        };
        stamp.tell(asked.request.letter, &body, post);
        let module = asked.request.letter;
        let act = Act::Join;
        LinkVerdict::Routed { module, act }
    }
}
