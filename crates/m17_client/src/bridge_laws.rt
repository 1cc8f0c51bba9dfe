//! What follows from the definitions for every run of a bridge. Each function does nothing: its
//! clause is the law.
ghost use Rattle.m17_client.specs.BridgeLaws as law;

/// A run of a bridge between two clients, neither of which only listens: the stream packets that
/// are said on a side are those that the other side's client kept and that pass, byte for byte and
/// in order. Of two that pass one after the other from opposite sides, the first ended its stream,
/// or 1,600 ms lie between them.
pub fn bridges_take_turns()
    ensures { law.BridgesTakeTurns }
{}

/// Each packet of a side that passes is one that the client of that side keeps.
pub fn passing_is_kept()
    ensures { law.PassingIsKept }
{}

/// A side of a run of `cross` over a new mouth is a client's end of the way to its reflector: it
/// steps on what its ear heard from the reflector, and what its mouth said is what its steps say,
/// but for what was lost. So all holds of it that holds of a client's end
/// (`crate::laws::client_keeps_what_was_said`): a packet that passes was said to it, byte for
/// byte. `L` is the kind of the mouth's label.
pub fn sides_are_clients_ends<L>()
    ensures { law.SidesAreClientsEnds L }
{}
