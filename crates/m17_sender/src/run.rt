//! What the sender does from its order to go to its end.
ghost use Rattle.std.specs.Prelude.{◌≡◌, ℕ, List, [], ◌∷◌, replicate, MatchBool};
ghost use Rattle.m17_sender.specs.Ready.{IsReady, IsShaped};
ghost use Rattle.m17_sender.specs.Sent.{HasStopped, Sent};
ghost use Rattle.m17_sender.specs.SoFar.{at_rest, GoesOn, Grows, HasPassed, RestsAt};

use crate::Sender;
use crate::kept::{Kept, LINKS};
use m17_crew::Order;
use m17_lane::Popper;
use m17_ports::Mouth;
use m17_values::Member;
use std::sync::Wait;

impl<M: Mouth> Sender<M> {
    /// Says all that comes until the stop order, and after it all that is left.
    pub(crate) fn send<R: Wait>(&mut self, rt: &R)
        requires { IsReady self.old }
        ensures { Sent M.told self.old self.new
            self.old.order }
    {
        m17_lane::rows_laws::rows_push::<Member>();
        m17_ports::laws::mouths_say_in_turn::<M::Label>();
        crate::laws::turns_grow();
        let mut kept = Kept {
            noted: [0; LINKS],
            last: None,
        };
        self.serve(rt, &mut kept);
        self.finish(rt, &mut kept);
    }

    // Turn by turn until the stop order; it sleeps where a turn found nothing.
    fn serve<R: Wait>(&mut self, rt: &R, kept: &mut Kept)
        requires shaped { IsShaped self.old }
        ensures grows { Grows M.told
            (at_rest self.old kept.old.noted) (at_rest self.new kept.new.noted) }
        ensures stopped { HasStopped self.old.order self.new.order }
    {
        for _ in rt.forever() {
            // models/turns.pml: marks-looked
            self.hint.look();
            // models/turns.pml: stop-heard
            if hears_stop(rt, &mut self.order) {
                return;
            }
            // models/turns.pml: turn-made
            if !self.turn(rt, kept) {
                // models/turns.pml: rested
                self.hint.rest(rt);
            }
        }
        unreachable!()
    }

    // Turns over all queues until one finds nothing.
    fn finish<R: Wait>(&mut self, rt: &R, kept: &mut Kept)
        requires shaped { IsShaped self.old }
        ensures goes_on { GoesOn M.told
            (at_rest self.old kept.old.noted) (at_rest self.new kept.new.noted) }
        ensures rests { (m q : ℕ) → RestsAt self.new kept.new.noted m q }
    {
        for _ in rt.forever() {
            // models/turns.pml: whole-turn-made
            if !self.whole_turn(rt, kept) {
                return;
            }
        }
        unreachable!()
    }
}

// Whether the stop order came; any other order is passed over.
fn hears_stop<R: Wait>(rt: &R, orders: &mut Popper<Order>) -> bool
    ensures { MatchBool result (HasStopped orders.old orders.new)
        (HasPassed orders.old orders.new) }
{
    for _ in rt.forever() {
        match orders.try_pop(rt) {
            Some(Order::Stop) => return true,
            Some(Order::Go) => {}
            Some(Order::Quit) => {}
            None => return false,
        }
    }
    unreachable!()
}
