ghost use Rattle.std.specs.Prelude.{◌≡◌, ◌+◌, ◌<◌, ◌≤◌, Bool, false, [], ◌++◌, length, map, nat_lt, count_by, insert, remove, slice_set, Some, None, IfOk, is_none, is_some, if◌then◌else◌};
ghost use Rattle.m17_control.specs.declared.event.Event.{Event};
ghost use Rattle.m17_control.specs.declared.item.Said.TheVariants as said;
ghost use Rattle.m17_floor.specs.Acts.{is_packet};
ghost use Rattle.m17_floor.specs.Floor.{admits};
ghost use Rattle.m17_floor.specs.declared.act.ActKind.TheVariants as act;
ghost use Rattle.m17_module.specs.Events.{kind_of};
ghost use Rattle.m17_module.specs.Seats.{seat_from, members_of, seat_in, seat_of, others_than};
ghost use Rattle.m17_module.specs.Items.{item_to, to_one, greets, says};
ghost use Rattle.m17_module.specs.Held.{with_place, without_place};
ghost use Rattle.arrayvec.specs.ArrayVec.{array_vec_len};
ghost use Rattle.m17_floor.specs.Rule.{incoming};
ghost use Rattle.m17_floor.specs.StandsFor.{without};
ghost use Rattle.m17_module.specs.StandsFor.{PeopleStandFor, PeopleFollow, PeopleAnswer};
ghost use Rattle.m17_module.specs.Following.{seat_member, leaver, without_any, holder_then, FloorHears, FloorFollows};

use crate::Seat;
use crate::basket::Tray;
use crate::telling::{item_for, tell, tell_all, tell_others};
use arrayvec::ArrayVec;
use m17_control::{Body, Control, Event, Said, Why};
use m17_floor::{Floor, Last, Verdict, laws as floor_laws};
use m17_stream::StreamPacket;
use m17_values::{Member, NoMemory};
use std::alloc::Global;
use std::marker::Model;

/// How many places a module has at most.
pub const MOST_PLACES: usize = 256;

// Who is in, by place, with the places in a row that are held; the last admitted frame of each; and the floor.
#[derive(Debug, Drop)]
pub(crate) struct Room {
    seats: Vec<Option<Seat>>,
    held: ArrayVec<u32, MOST_PLACES>,
    lasts: Vec<Last>,
    floor: Floor,
}

impl Model for Room {
    ghost use Rattle.m17_module.specs.StandsFor.{People};

    ghost Value = { People };

    ghost use Rattle.m17_module.specs.Held.{IsInOrder};

    ghost view = { λ r. record { seats = r.seats.items; lasts = r.lasts.items; floor = r.floor } };

    ghost invariant = { λ r. IsInOrder r.seats.items r.held.items r.lasts.items };
}

// How many of the places are below this one.
fn places_below(held: &[u32], place: u32) -> usize
    ensures { result ≡ count_by (λ other. nat_lt other place) held.now }
{
    held.iter().filter(|other| **other < place).count()
}

// Puts a place into the row of those that are held.
fn put_place(held: &mut ArrayVec<u32, MOST_PLACES>, place: u32)
    requires { array_vec_len held.old < 256 }
    ensures { held.new.items ≡ with_place place held.old.items }
{
    let at = places_below(held.as_slice(), place);
    held.insert(at, place);
}

// Takes a place out of the row of those that are held.
fn drop_place(held: &mut ArrayVec<u32, MOST_PLACES>, place: u32)
    requires { count_by (λ other. nat_lt other place) held.old.items < array_vec_len held.old }
    ensures { held.new.items ≡ without_place place held.old.items }
{
    let at = places_below(held.as_slice(), place);
    held.remove(at);
}

impl Room {
    // An empty room of `places` places, in which one may talk `limit` milliseconds, or for ever where that is 0.
    pub(crate) fn make(alloc: Global, places: u32, limit: u64) -> Result<Room, NoMemory>
        requires { places ≤ 256 }
        ensures places { IfOk result (λ room. length room.seats ≡ places) }
        ensures stands { IfOk result (λ room. (parrot : Bool) → PeopleStandFor
            (record { places = places; parrot = parrot; limit = limit }) room []) }
        ensures free { IfOk result (λ room. room.floor ≡ record { frame = None; limit = limit }) }
    {
        let mut seats = Vec::with_capacity(alloc, places as usize)?;
        let mut lasts = Vec::with_capacity(alloc, places as usize)?;
        for _place in 0..places {
            seats.push_reserved(None);
            lasts.push_reserved(Last::new());
        }
        Ok(Room {
            seats,
            held: ArrayVec::new(),
            lasts,
            floor: Floor::new(limit),
        })
    }

    // Asks each member whether it is there.
    pub(crate) fn ping(&self, out: &mut Tray)
        requires { out.old ≡ [] }
        ensures told { out.new ≡ map (item_to said.Ping) (members_of self.now.seats) }
        ensures few { length out.new ≤ 256 }
    {
        tell_all(
            self.seats.as_slice(),
            self.held.as_slice(),
            &Said::Ping,
            out,
        );
    }

    // How many places there are.
    #[inline]
    fn places(&self) -> usize
        ensures counted { result ≡ length self.now.seats }
        ensures at_most { result ≤ 256 }
        ensures each { length self.now.lasts ≡ length self.now.seats }
    {
        let _seats = &self.seats;
        self.seats.len()
    }

    // Who is in at a place; nobody past the places.
    #[inline]
    fn seat_in(&self, place: u32) -> Option<Seat>
        ensures { result ≡ seat_in self.now.seats place }
    {
        if place as usize >= self.seats.len() {
            return None;
        }
        self.seats[place as usize]
    }

    // The member's seat, if it is in.
    #[inline]
    fn seat_of(&self, k: Member) -> Option<Seat>
        ensures { result ≡ seat_of self.now.seats k }
    {
        let seat = self.seat_in(k.place)?;
        if seat.member == k { Some(seat) } else { None }
    }

    // A member comes in at a place where nobody is.
    fn take_free(&mut self, seat: &Seat)
        requires place { seat.now.member.place < length self.old.seats }
        requires free { seat_in self.old.seats seat.now.member.place ≡ None }
        ensures length { length self.new.seats ≡ length self.old.seats }
        ensures limit { self.new.floor.limit ≡ self.old.floor.limit }
        ensures floor { self.new.floor ≡ self.old.floor }
        ensures stands { (event : Event) → seat_from (Some event) ≡ Some seat.now →
            PeopleFollow event self.old self.new }
    {
        floor_laws::one_member_at_a_place();
        floor_laws::comings_and_goings_leave_others();
        let place = seat.member.place as usize;
        put_place(&mut self.held, seat.member.place);
        self.seats[place] = Some(*seat);
        self.lasts[place] = Last::new();
    }

    // A member comes in at the place of another, or of itself.
    fn take_over(&mut self, old: &Seat, seat: &Seat)
        requires place { seat.now.member.place < length self.old.seats }
        requires held { seat_in self.old.seats seat.now.member.place ≡ Some old.now }
        ensures length { length self.new.seats ≡ length self.old.seats }
        ensures limit { self.new.floor.limit ≡ self.old.floor.limit }
        ensures floor { self.new.floor ≡ without old.now.member self.old.floor }
        ensures stands { (event : Event) → seat_from (Some event) ≡ Some seat.now →
            PeopleFollow event self.old self.new }
    {
        floor_laws::one_member_at_a_place();
        floor_laws::comings_and_goings_leave_others();
        let place = seat.member.place as usize;
        self.floor.left(old.member);
        self.seats[place] = Some(*seat);
        self.lasts[place] = Last::new();
    }

    // A member that is in leaves.
    fn give_up(&mut self, seat: &Seat)
        requires { seat_in self.old.seats seat.now.member.place ≡ Some seat.now }
        ensures length { length self.new.seats ≡ length self.old.seats }
        ensures limit { self.new.floor.limit ≡ self.old.floor.limit }
        ensures floor { self.new.floor ≡ without seat.now.member self.old.floor }
        ensures stands { (event : Event) → kind_of event.body ≡ act.Leave seat.now.member →
            PeopleFollow event self.old self.new }
    {
        floor_laws::one_member_at_a_place();
        floor_laws::comings_and_goings_leave_others();
        let place = seat.member.place as usize;
        self.floor.left(seat.member);
        drop_place(&mut self.held, seat.member.place);
        self.seats[place] = None;
    }

    // Judges a packet of a member that is in, and not to listen only.
    fn judge(&mut self, seat: &Seat, at: u64, p: &StreamPacket) -> Verdict
        requires is_in { seat_in self.old.seats seat.now.member.place ≡ Some seat.now }
        requires speaks { seat.now.listens ≡ false }
        ensures seats { self.new.seats ≡ self.old.seats }
        ensures limit { self.new.floor.limit ≡ self.old.floor.limit }
        ensures floor { FloorHears (incoming seat.now.member at p.now) result self.old.floor
            self.new.floor }
        ensures stands { (event : Event) → kind_of event.body ≡ act.Packet seat.now.member p.now →
            PeopleAnswer event at (Some result) self.old self.new }
    {
        let own = &mut self.lasts[seat.member.place as usize];
        self.floor.judge(seat.member, at, p, own)
    }

    // A packet of a member, or of one that is none.
    fn packet(&mut self, k: Member, at: u64, p: &StreamPacket) -> Verdict
        ensures seats { self.new.seats ≡ self.old.seats }
        ensures limit { self.new.floor.limit ≡ self.old.floor.limit }
        ensures floor { FloorHears (incoming k at p.now) result self.old.floor self.new.floor }
        ensures stands { (event : Event) → kind_of event.body ≡ act.Packet k p.now →
            PeopleAnswer event at (Some result) self.old self.new }
    {
        floor_laws::strangers_change_nothing();
        floor_laws::only_speakers_are_heard();
        floor_laws::later_acts_change_nothing_before();
        let Some(seat) = self.seat_of(k) else {
            return Verdict::NotMember;
        };
        if seat.listens {
            return Verdict::ListenOnly;
        }
        self.judge(&seat, at, p)
    }

    // A member comes in; who was in at its place until now is answered.
    fn join(&mut self, seat: &Seat) -> Option<Seat>
        requires { seat.now.member.place < length self.old.seats }
        ensures was { result ≡ seat_in self.old.seats seat.now.member.place }
        ensures length { length self.new.seats ≡ length self.old.seats }
        ensures limit { self.new.floor.limit ≡ self.old.floor.limit }
        ensures floor { self.new.floor ≡ without_any (seat_member result) self.old.floor }
        ensures stands { (event : Event) → seat_from (Some event) ≡ Some seat.now →
            PeopleFollow event self.old self.new }
    {
        let Some(old) = self.seat_in(seat.member.place) else {
            self.take_free(seat);
            return None;
        };
        self.take_over(&old, seat);
        Some(old)
    }

    // A member leaves, if it is in; its seat is answered.
    fn leave(&mut self, k: Member) -> Option<Seat>
        ensures was { result ≡ seat_of self.old.seats k }
        ensures length { length self.new.seats ≡ length self.old.seats }
        ensures limit { self.new.floor.limit ≡ self.old.floor.limit }
        ensures floor { self.new.floor ≡ without_any (seat_member result) self.old.floor }
        ensures stands { (event : Event) → kind_of event.body ≡ act.Leave k →
            PeopleFollow event self.old self.new }
    {
        floor_laws::strangers_change_nothing();
        let Some(seat) = self.seat_of(k) else {
            return None;
        };
        self.give_up(&seat);
        Some(seat)
    }

    // A Join: who was in at the place is told, and then who comes in.
    fn come(&mut self, seat: &Seat, after: u64, out: &mut Tray)
        requires { length out.old ≤ 257 }
        ensures told { out.new ≡ out.old ++ greets self.old.seats seat.now after }
        ensures length { length self.new.seats ≡ length self.old.seats }
        ensures limit { self.new.floor.limit ≡ self.old.floor.limit }
        ensures floor { self.new.floor ≡ without_any
            (seat_member (seat_in self.old.seats seat.now.member.place)) self.old.floor }
        ensures stands { (event : Event) → seat_from (Some event) ≡ Some seat.now →
            PeopleFollow event self.old self.new }
    {
        floor_laws::strangers_change_nothing();
        if seat.member.place as usize >= self.places() {
            return;
        }
        let was = self.join(seat);
        tell(&was, &Said::Bye { why: Why::Replaced }, out);
        out.put(&item_for(seat, &Said::Hello { after }));
    }

    // A Leave: who leaves is told.
    fn go(&mut self, k: Member, why: Why, out: &mut Tray)
        requires { length out.old ≤ 257 }
        ensures told { out.new ≡ out.old ++ to_one (said.Bye why) (seat_of self.old.seats k) }
        ensures length { length self.new.seats ≡ length self.old.seats }
        ensures limit { self.new.floor.limit ≡ self.old.floor.limit }
        ensures floor { self.new.floor
            ≡ without_any (seat_member (seat_of self.old.seats k)) self.old.floor }
        ensures stands { (event : Event) → kind_of event.body ≡ act.Leave k →
            PeopleFollow event self.old self.new }
    {
        let was = self.leave(k);
        tell(&was, &Said::Bye { why }, out);
    }

    // A packet: if it is admitted, the others are told, and of which position it is.
    fn hear(
        &mut self,
        k: Member,
        at: u64,
        position: u64,
        p: &StreamPacket,
        out: &mut Tray,
    ) -> Verdict
        requires { length out.old ≤ 257 }
        ensures told { out.new ≡ out.old ++ (if admits (Some result)
            then map (item_to (said.Frame position p.now)) (others_than k self.old.seats) else []) }
        ensures seats { self.new.seats ≡ self.old.seats }
        ensures limit { self.new.floor.limit ≡ self.old.floor.limit }
        ensures floor { FloorHears (incoming k at p.now) result self.old.floor self.new.floor }
        ensures stands { (event : Event) → kind_of event.body ≡ act.Packet k p.now →
            PeopleAnswer event at (Some result) self.old self.new }
    {
        let verdict = self.packet(k, at, p);
        if !verdict.is_admitted() {
            return verdict;
        }
        let frame = Said::Frame {
            position,
            packet: *p,
        };
        tell_others(self.seats.as_slice(), self.held.as_slice(), k, &frame, out);
        verdict
    }

    // A reply: who is answered is told.
    fn reply(&self, k: Member, control: &Control, out: &mut Tray)
        requires { length out.old ≤ 257 }
        ensures told { out.new ≡ out.old
            ++ to_one (said.Reply control.now) (seat_of self.now.seats k) }
    {
        let was = self.seat_of(k);
        tell(&was, &Said::Reply { control: *control }, out);
    }

    // Who leaves by this event: who is in at the place of a Join, or the member of a Leave.
    pub(crate) fn leaver(&self, event: &Event) -> Option<Member>
        ensures { result ≡ leaver self.now.seats event.now.body }
    {
        let seat = match &event.body {
            Body::Join { member, .. } => self.seat_in(member.place),
            Body::Leave { member, .. } => self.seat_of(*member),
            _ => None,
        };
        seat.map(|seat| seat.member)
    }

    // Whether nobody has the floor at this moment.
    pub(crate) fn is_free(&self, at: u64) -> bool
        ensures { result ≡ is_none (holder_then at self.now.floor) }
    {
        self.floor.is_free(at)
    }

    // Plays a frame back to a member that is in.
    pub(crate) fn play(&self, k: Member, position: u64, p: &StreamPacket, out: &mut Tray)
        requires { length out.old ≤ 256 }
        ensures { out.new ≡ out.old
            ++ to_one (said.Echo position p.now) (seat_of self.now.seats k) }
    {
        let echo = Said::Echo {
            position,
            packet: *p,
        };
        tell(&self.seat_of(k), &echo, out);
    }

    /// What an event does by what it is, and what it says: `at` is the module's moment, `position` that of the event.
    pub(crate) fn happen(
        &mut self,
        event: &Event,
        at: u64,
        position: u64,
        out: &mut Tray,
    ) -> Option<Verdict>
        requires { length out.old ≤ 257 }
        ensures told { out.new ≡ out.old ++ says (record {
          seats = self.old.seats;
          position = position;
          link = event.now.tag.link;
          admitted = admits result;
        }) event.now.body }
        ensures length { length self.new.seats ≡ length self.old.seats }
        ensures limit { self.new.floor.limit ≡ self.old.floor.limit }
        ensures floor { FloorFollows self.old.seats at event.now.body result self.old.floor
            self.new.floor }
        ensures answer { is_some result ≡ is_packet (kind_of event.now.body) }
        ensures stands { PeopleAnswer event.now at result self.old self.new }
    {
        floor_laws::other_acts_change_nothing();
        floor_laws::only_speakers_are_heard();
        match &event.body {
            Body::Join {
                member,
                peer,
                callsign: _,
                listen,
                after,
            } => {
                let seat = Seat {
                    member: *member,
                    link: event.tag.link,
                    peer: *peer,
                    listens: *listen,
                };
                self.come(&seat, *after, out);
                return None;
            }
            Body::Leave { member, why } => {
                self.go(*member, *why, out);
                return None;
            }
            Body::Packet { member, packet } => {
                return Some(self.hear(*member, at, position, packet, out));
            }
            Body::Reply { member, control } => {
                self.reply(*member, control, out);
                return None;
            }
            Body::Tick => return None,
            Body::Stop => return None,
        }
    }
}
