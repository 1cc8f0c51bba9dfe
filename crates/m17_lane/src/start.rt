//! How a job waits for the order that starts it.
ghost use Rattle.m17_lane.specs.Starts.{HasStarted};

use crate::Popper;
use m17_crew::Order;
use std::sync::Wait;

/// Waits for the order to go or to quit, and answers whether the job goes; a `Stop` before it is passed over. It pops
/// nothing behind that order, and waits for ever where none comes.
pub fn starts<R: Wait>(rt: &R, orders: &mut Popper<Order>) -> bool
    ensures { HasStarted orders.old result orders.new }
{
    for _ in rt.forever() {
        match orders.pop_waiting(rt) {
            Order::Go => return true,
            Order::Quit => return false,
            Order::Stop => {}
        }
    }
    unreachable!()
}
