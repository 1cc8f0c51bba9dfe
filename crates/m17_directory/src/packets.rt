//! What a packet of one that is known, and of any other peer, becomes.
ghost use Rattle.std.specs.Prelude.{◌≡◌, ◌⊎◌, ◌+◌, ◌<◌, ◌≤◌, ℕ, max, [], ◌∷◌, ◌++◌, length, map, filter, Some, None, IfOk, IsSome, IfSome, not, option_map};
ghost use Rattle.std.specs.List.{list_any};
ghost use Rattle.m17_control.specs.declared.event.Why.TheVariants.{Silent, Stopped};
ghost use Rattle.m17_directory.specs.Entries.{Notice, Claim, Says, moment_of};
ghost use Rattle.m17_directory.specs.Known.{request_of};
ghost use Rattle.m17_directory.specs.Outcome.{has_place, is_what, leave, to_module, known_asks, other_asks, of_known, of_other, of_packet, of_end, only};
ghost use Rattle.m17_directory.specs.Routed.{is_silent, is_asks, row_for};
ghost use Rattle.m17_directory.specs.StandsFor.{with_left, without_member};
ghost use Rattle.m17_directory.specs.Steps.{AreFew, IsInOrder, IsRowOf, IsComeTo, IsTaken, IsGiven, is_among, asked_by, lists_heard, lists_without, lists_wait, ticks_by};
ghost use Rattle.m17_directory.specs.declared.whom.Whom.TheVariants as whom;
ghost use Rattle.m17_directory.specs.declared.verdict.LinkVerdict.TheVariants as link;
ghost use Rattle.m17_control.specs.declared.event.Body.TheVariants as body;
ghost use Rattle.m17_control.specs.declared.packet.Packet.{Packet};
ghost use Rattle.m17_control.specs.declared.packet.Refusal.{Refusal};
ghost use Rattle.m17_control.specs.declared.packet.Packet.TheVariants as packets;
ghost use Rattle.m17_control.specs.Forms.{Spells, Refuses};

use crate::people::People;
use crate::stamp::Stamp;
use crate::whom::Whom;
use crate::{Act, Known, LinkVerdict, Post, Request};
use m17_callsign::CallAddress;
use m17_control::{Body, Control, ModuleLetter, Packet, Why};
use m17_values::Peer;

// Whether one that is known is known as what it asks for.
fn is_known_as(known: &Known, request: &Request) -> bool
    ensures { result ≡ is_what request.now known.now }
{
    known.letter == request.letter
        && known.callsign == request.callsign
        && known.listen == request.listen
}

// A request to join a module, to listen only or to speak too.
fn request_to(callsign: CallAddress, letter: ModuleLetter, listen: bool) -> Request
    ensures { result ≡ record { letter = letter; callsign = callsign; listen = listen } }
{
    Request {
        letter,
        callsign,
        listen,
    }
}

// What was routed to the module of one that is known.
fn routed_to(known: &Known, act: Act) -> LinkVerdict
    ensures { result ≡ link.Routed known.now.letter act }
{
    let module = known.letter;
    LinkVerdict::Routed { module, act }
}

// The verdict is written where the caller keeps it, once, since each call that handed it back would copy it.
impl People {
    // What a packet of one that is known becomes.
    pub(crate) fn of_known(
        &mut self,
        row: usize,
        known: &Known,
        packet: &Packet,
        stamp: &Stamp,
        post: &mut Post,
        verdict: &mut LinkVerdict,
    )
        requires row { IsRowOf self.old.known known.now row }
        requires room { length post.old ≤ 282 }
        ensures { IsComeTo stamp.now known.now.peer (request_of packet.now) self.old self.new
            (of_known stamp.now known.now packet.now) post.old post.new verdict.new }
    {
        match packet {
            Packet::Control(control) => {
                self.control_of_known(row, known, control, stamp, post, verdict);
            }
            Packet::Stream(frame) => {
                let body = Body::Packet {
                    member: known.member,
                    packet: *frame,
                };
                self.routed(row, known, &body, stamp, post);
                *verdict = routed_to(known, Act::Packet);
            }
        }
    }

    // What a control packet of one that is known becomes.
    fn control_of_known(
        &mut self,
        row: usize,
        known: &Known,
        control: &Control,
        stamp: &Stamp,
        post: &mut Post,
        verdict: &mut LinkVerdict,
    )
        requires row { IsRowOf self.old.known known.now row }
        requires room { length post.old ≤ 282 }
        ensures { IsComeTo stamp.now known.now.peer (request_of (packets.Control control.now))
            self.old self.new (of_known stamp.now known.now (packets.Control control.now))
            post.old post.new verdict.new }
    {
        match control {
            Control::Conn { from, module } => {
                let request = request_to(*from, *module, false);
                self.known_asks(row, known, &request, stamp, post, verdict);
            }
            Control::Lstn { from, module } => {
                let request = request_to(*from, *module, true);
                self.known_asks(row, known, &request, stamp, post, verdict);
            }
            Control::Ping { .. } => {
                let from = stamp.name();
                self.replied(row, known, &Control::Pong { from }, stamp, post);
                *verdict = routed_to(known, Act::Pong);
            }
            Control::Pong { .. } => {
                let module = known.letter;
                self.only_heard(row, known, stamp);
                *verdict = LinkVerdict::Alive { module };
            }
            Control::Disc { .. } => {
                self.leave(&Whom::Peer(known.peer), Why::Asked, stamp, post);
                *verdict = routed_to(known, Act::Leave);
            }
            Control::Ackn | Control::Nack => {
                self.only_heard(row, known, stamp);
                *verdict = LinkVerdict::Stray;
            }
        }
    }

    // It was heard, and nothing is posted.
    fn only_heard(&mut self, row: usize, known: &Known, stamp: &Stamp)
        requires { IsRowOf self.old.known known.now row }
        ensures { self.new ≡ lists_heard stamp.now known.now.peer self.old }
    {
        self.known.heard(row, known, stamp.moment());
    }

    // It was heard, and this is routed to its module.
    fn routed(&mut self, row: usize, known: &Known, body: &Body, stamp: &Stamp, post: &mut Post)
        requires row { IsRowOf self.old.known known.now row }
        requires room { length post.old ≤ 282 }
        ensures heard { self.new ≡ lists_heard stamp.now known.now.peer self.old }
        ensures posts { post.new ≡ post.old
            ++ to_module stamp.now known.now.letter body.now ∷ [] }
    {
        self.known.heard(row, known, stamp.moment());
        stamp.tell(known.letter, body, post);
    }

    // It was heard, and is answered through its module.
    fn replied(
        &mut self,
        row: usize,
        known: &Known,
        control: &Control,
        stamp: &Stamp,
        post: &mut Post,
    )
        requires row { IsRowOf self.old.known known.now row }
        requires room { length post.old ≤ 282 }
        ensures heard { self.new ≡ lists_heard stamp.now known.now.peer self.old }
        ensures posts { post.new ≡ post.old ++ to_module stamp.now known.now.letter
            (body.Reply known.now.member control.now) ∷ [] }
    {
        let body = Body::Reply {
            member: known.member,
            control: *control,
        };
        self.routed(row, known, &body, stamp, post);
    }

    // One that is known asks: for a module that isn't served, for what it has already, or for anything else.
    fn known_asks(
        &mut self,
        row: usize,
        known: &Known,
        request: &Request,
        stamp: &Stamp,
        post: &mut Post,
        verdict: &mut LinkVerdict,
    )
        requires row { IsRowOf self.old.known known.now row }
        requires room { length post.old ≤ 282 }
        ensures { IsComeTo stamp.now known.now.peer (Some request.now) self.old self.new
            (known_asks stamp.now known.now request.now) post.old post.new verdict.new }
    {
        if !stamp.serves(request.letter) {
            let module = request.letter;
            stamp.answer(&known.peer, &Control::Nack, post);
            self.only_heard(row, known, stamp);
            *verdict = LinkVerdict::NotServed { module };
        } else if is_known_as(known, request) {
            self.replied(row, known, &Control::Ackn, stamp, post);
            *verdict = routed_to(known, Act::Again);
        } else {
            self.leave(&Whom::Peer(known.peer), Why::Moved, stamp, post);
            self.asked = Some(stamp.asked(&known.peer, request));
            *verdict = LinkVerdict::Asks;
        }
    }

    // What a packet of any other peer becomes.
    pub(crate) fn of_other(
        &mut self,
        from: &Peer,
        packet: &Packet,
        stamp: &Stamp,
        post: &mut Post,
        verdict: &mut LinkVerdict,
    )
        requires room { length post.old ≤ 282 }
        ensures known { self.new.known ≡ self.old.known }
        ensures departing { self.new.departing ≡ self.old.departing }
        ensures asked { self.new.asked ≡ asked_by stamp.now from.now (request_of packet.now)
            (is_asks (of_other stamp.now from.now packet.now).verdict) self.old.asked }
        ensures posts { post.new ≡ post.old
            ++ (of_other stamp.now from.now packet.now).posts }
        ensures verdict { verdict.new ≡ (of_other stamp.now from.now packet.now).verdict }
    {
        match packet {
            Packet::Control(
                Control::Conn {
                    from: callsign,
                    module,
                },
            ) => {
                let request = request_to(*callsign, *module, false);
                self.other_asks(from, &request, stamp, post, verdict);
            }
            Packet::Control(
                Control::Lstn {
                    from: callsign,
                    module,
                },
            ) => {
                let request = request_to(*callsign, *module, true);
                self.other_asks(from, &request, stamp, post, verdict);
            }
            Packet::Control(Control::Ackn | Control::Nack) => *verdict = LinkVerdict::Stray,
            Packet::Control(Control::Disc { from: Some(_) }) => {
                stamp.answer(from, &Control::Disc { from: None }, post);
                *verdict = LinkVerdict::NotConnected;
            }
            _ => *verdict = LinkVerdict::NotConnected,
        }
    }

    // Another peer asks.
    fn other_asks(
        &mut self,
        from: &Peer,
        request: &Request,
        stamp: &Stamp,
        post: &mut Post,
        verdict: &mut LinkVerdict,
    )
        requires room { length post.old ≤ 282 }
        ensures known { self.new.known ≡ self.old.known }
        ensures departing { self.new.departing ≡ self.old.departing }
        ensures asked { self.new.asked ≡ asked_by stamp.now from.now (Some request.now)
            (is_asks (other_asks stamp.now from.now request.now).verdict) self.old.asked }
        ensures posts { post.new ≡ post.old
            ++ (other_asks stamp.now from.now request.now).posts }
        ensures verdict { verdict.new ≡ (other_asks stamp.now from.now request.now).verdict }
    {
        if stamp.serves(request.letter) {
            self.asked = Some(stamp.asked(from, request));
            *verdict = LinkVerdict::Asks;
        } else {
            stamp.answer(from, &Control::Nack, post);
            let module = request.letter;
            *verdict = LinkVerdict::NotServed { module };
        }
    }
}
