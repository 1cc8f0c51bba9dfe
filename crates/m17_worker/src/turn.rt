//! What a worker does for one event.
ghost use Rattle.std.specs.Prelude.{◌≡◌, ◌<◌, ℕ, true, List, [], ◌∷◌, ◌++◌, length, nat_lt, Some};
ghost use Rattle.std.specs.Option.{ForSome, option_map_or};
ghost use Rattle.m17_control.specs.declared.event.Event.{Event};
ghost use Rattle.m17_lane.specs.Ends.{popped_from};
ghost use Rattle.m17_ports.specs.Book.{BookTold, HasText};
ghost use Rattle.m17_worker.specs.declared.worker.Worker.{Worker};
ghost use Rattle.m17_book.specs.Records.{IsLowVerdict};
ghost use Rattle.m17_worker.specs.Taken.{is_there, place_of};
ghost use Rattle.m17_worker.specs.WorkerDid.{HasServed};
ghost use Rattle.m17_worker.specs.Underway.{CanServe, HasRoom, IsAt, IsServing, NoteFits, filled, noted_text};

use crate::book::write_if;
use crate::gifts::hand_out;
use crate::records::{is_replaced_leave, own_record, record_of_bye};
use crate::stops::{MOST_LINKS, note_stop};
use crate::tape::fill_tape;
use crate::{LaneOffers, Worker};
use m17_control::{Body, Event, Item};
use m17_floor::{Verdict, laws as floor_laws};
use m17_lane::{Popper, count_one};
use m17_module::laws as module_laws;
use m17_ports::Book;
use std::sync::Wait;

impl<B: Book> Worker<B> {
    // Pops the next event, and serves it where it names a link and a place that are there. Answers how many were
    // served.
    pub(crate) fn turn<R: Wait>(
        &mut self,
        rt: &R,
        served: u64,
        stopped: &mut [bool; MOST_LINKS],
    ) -> u64
        requires at { (j : Worker B) × IsAt B.told j served stopped.old self.old }
        ensures at { (j : Worker B) → IsAt B.told j served stopped.old self.old →
            IsAt B.told j result stopped.new self.new }
        ensures popped { (event : Event) × (self.new.inbox ≡ popped_from self.old.inbox event) }
        ensures order { self.new.order ≡ self.old.order }
    {
        let event = next_event(rt, &mut self.inbox, &self.offers, self.module.is_parrot());
        note_stop(stopped, &event);
        if !self.has(&event) {
            return served;
        }
        let more = count_one(rt, served);
        self.serve(rt, &event);
        more
    }

    // Whether the event's link and the place that it names are there.
    fn has(&self, event: &Event) -> bool
        requires { length self.now.offers.queues.items ≡ self.now.module.setup.places }
        ensures { result ≡ is_there self.now.links self.now.module.setup.places event.now }
    {
        if u32::from(event.tag.link) >= self.links {
            return false;
        }
        match event.body {
            Body::Join { member, .. }
            | Body::Leave { member, .. }
            | Body::Packet { member, .. }
            | Body::Reply { member, .. } => { (member.place as usize) < self.offers.queues.len() }
            Body::Tick | Body::Stop => true,
        }
    }

    // Does what the event asks for: hands out what the module gives, and then writes book and tape.
    fn serve<R: Wait>(&mut self, rt: &R, event: &Event)
        requires { (events : List Event) × CanServe events event.now self.old }
        ensures served { (j : Worker B) (events : List Event) →
            CanServe events event.now self.old → self.old.module.setup ≡ j.module.setup →
            HasServed B.told events j self.old →
            HasServed B.told (events ++ event.now ∷ []) j self.new }
        ensures room { HasRoom self.new }
        ensures same { IsServing self.old self.new }
    {
        module_laws::later_events_change_no_items();
        module_laws::one_event_more_gives();
        module_laws::items_are_at_places();
        module_laws::verdicts_fit();
        floor_laws::later_acts_change_no_verdict();
        floor_laws::later_acts_change_nothing_before();
        m17_lane::rows_laws::rows_grow::<Item>();
        let verdict = self.module.step(event, &mut self.basket);
        let gives = !is_replaced_leave(event);
        let says = !self.basket.is_empty();
        // models/dozes.pml: event-handed-out
        let bye = hand_out(
            rt,
            &mut self.basket,
            &mut self.offers,
            &mut self.seat,
            gives,
        );
        if says && !self.offers.patient {
            // models/dozes.pml: roused-behind-event
            self.offers.rouse();
        }
        self.note(event, verdict, &bye);
    }

    // Writes the records of the event to the book, and its verdict to the tape.
    fn note(&mut self, event: &Event, verdict: Option<Verdict>, bye: &Option<Item>)
        requires link { event.now.tag.link < 4 }
        requires place { ForSome (place_of event.now.body) (λ place. place < 256) }
        requires verdict { ForSome verdict IsLowVerdict }
        requires bye { ForSome bye.now (λ item. item.member.place < 256) }
        ensures text { (start : BookTold B.Label) (text : List ℕ) (places : ℕ) →
            option_map_or (λ place. nat_lt place places) (place_of event.now.body) true ≡ true →
            HasText start text self.old.book_failed (B.told self.old.book) →
            HasText start (noted_text text self.old.module.moment
            (record { event = event.now; verdict = verdict; bye = bye.now; places = places }))
            self.new.book_failed (B.told self.new.book) }
        ensures fits { (places : ℕ) (bytes : List ℕ) →
            option_map_or (λ place. nat_lt place places) (place_of event.now.body) true ≡ true →
            (B.told self.old.book).written ≡ Some bytes →
            NoteFits self.old.module.moment
            (record { event = event.now; verdict = verdict; bye = bye.now; places = places }) }
        ensures tape { self.new.tape ≡ filled self.old.tape event.now verdict }
        ensures rest { self.new ≡ record self.old {
          book = self.new.book;
          book_failed = self.new.book_failed;
          tape = self.new.tape;
        } }
    {
        self.write_records(event, verdict, bye);
        fill_tape(&mut self.tape, event, verdict);
    }

    // Writes the records of the event to the book; none is made where that keeps nothing.
    fn write_records(&mut self, event: &Event, verdict: Option<Verdict>, bye: &Option<Item>)
        requires link { event.now.tag.link < 4 }
        requires place { ForSome (place_of event.now.body) (λ place. place < 256) }
        requires verdict { ForSome verdict IsLowVerdict }
        requires bye { ForSome bye.now (λ item. item.member.place < 256) }
        ensures text { (start : BookTold B.Label) (text : List ℕ) (places : ℕ) →
            option_map_or (λ place. nat_lt place places) (place_of event.now.body) true ≡ true →
            HasText start text self.old.book_failed (B.told self.old.book) →
            HasText start (noted_text text self.old.module.moment
            (record { event = event.now; verdict = verdict; bye = bye.now; places = places }))
            self.new.book_failed (B.told self.new.book) }
        ensures fits { (places : ℕ) (bytes : List ℕ) →
            option_map_or (λ place. nat_lt place places) (place_of event.now.body) true ≡ true →
            (B.told self.old.book).written ≡ Some bytes →
            NoteFits self.old.module.moment
            (record { event = event.now; verdict = verdict; bye = bye.now; places = places }) }
        ensures rest { self.new ≡ record self.old {
          book = self.new.book;
          book_failed = self.new.book_failed;
        } }
    {
        m17_ports::laws::books_are_written_in_turn::<B::Label>();
        if !self.book.is_kept() {
            return;
        }
        let moment = self.module.moment();
        let leave = record_of_bye(event.tag, moment, bye);
        let own = own_record(event, moment, verdict);
        write_if(&mut self.book, &mut self.book_failed, &leave);
        write_if(&mut self.book, &mut self.book_failed, &own);
    }
}

// Pops the next event. A parrot says each frame at its time, so each event wakes its worker. Another module says nothing at
// a Tick but a PING each 3 s, so its worker dozes. In a patient run the sender is woken here for all frames that were offered.
fn next_event<R: Wait>(
    rt: &R,
    inbox: &mut Popper<Event>,
    offers: &LaneOffers,
    is_parrot: bool,
) -> Event
    ensures { inbox.new ≡ popped_from inbox.old result }
{
    // models/dozes.pml: event-tried
    if let Some(event) = inbox.try_pop(rt) {
        return event;
    }
    if offers.patient {
        // models/dozes.pml: roused-before-waiting
        offers.rouse();
    }
    if is_parrot {
        // models/dozes.pml: slept-for-event
        inbox.pop_waiting(rt)
    } else {
        // models/dozes.pml: dozed-for-event
        inbox.pop_dozing(rt)
    }
}
