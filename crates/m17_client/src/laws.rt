//! What follows from the definitions for every run of a client. Each function does nothing: its clause is the law.
ghost use Rattle.m17_client.specs.Laws as law;

/// Of a client and a link between which datagrams may be lost, repeated and reordered, but none is made up: a
/// client that is connected heard an ACKN after it had said its CONN or LSTN, and the link said that ACKN to it;
/// each CONN or LSTN that the link heard from it is its own, byte for byte; each packet that it keeps the link said
/// to it, byte for byte; and of two neighbours among the kept packets with one stream id, the later number is
/// ahead.
pub fn client_keeps_what_was_said()
    ensures { law.ClientKeepsWhatWasSaid }
{}

/// A run of `talk` over a new mouth is such a client: it steps on what its ear heard from the reflector, and what
/// its mouth said is what its steps say, but for what was lost. `L` is the kind of the mouth's label.
pub fn talk_is_a_clients_end<L>()
    ensures { law.TalkIsAClientsEnd L }
{}

/// The records of its book are those of the packets that it keeps, in order.
pub fn records_are_of_kept_packets()
    ensures { law.RecordsAreOfKeptPackets }
{}
