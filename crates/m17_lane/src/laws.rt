//! What follows from the definitions for every lane. Each function has no body: its clause is the law, for lists of any
//! items.
ghost use Rattle.m17_lane.specs.Laws.{OneProducerKeepsOrder, OrderIsAShuffle};

/// In a lane of one producer the order is that producer's list, and what was popped is the first part of it.
pub fn one_producer_keeps_order<T>()
    ensures { OneProducerKeepsOrder T }
{}

/// Where each item tells in which producer's row it stands, each row is the part of the order with its number, and the
/// order has no others.
pub fn order_is_a_shuffle<T>()
    ensures { OrderIsAShuffle T }
{}
