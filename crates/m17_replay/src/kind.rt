ghost use Rattle.std.specs.Prelude.{◌≡◌};
ghost use Rattle.m17_replay.specs.Summary.{kind_of, routed_kind};

use m17_directory::{Act, LinkVerdict};
use m17_floor::Verdict;
use m17_print::Kind;

// The kind of an entry that was routed to a module.
#[inline]
fn kind_of_act(what: Act, verdict: &Option<Verdict>) -> Option<Kind>
    ensures { result ≡ routed_kind what verdict.now }
{
    match what {
        Act::Join => Some(Kind::Join),
        Act::Again => Some(Kind::Again),
        Act::Leave => Some(Kind::Leave),
        Act::Pong => Some(Kind::Pong),
        Act::Packet => match verdict {
            None => None,
            Some(verdict) => Some(Kind::of_verdict(*verdict)),
        },
    }
}

/// The kind of an entry, by what it came to and, where its packet was routed to a module, the floor rule's verdict on
/// that: none of an entry that still asks for a place, and of a packet without a verdict.
#[inline]
pub fn kind_of(l: &LinkVerdict, v: &Option<Verdict>) -> Option<Kind>
    ensures { result ≡ kind_of l.now v.now }
{
    match l {
        LinkVerdict::Routed { act, .. } => kind_of_act(*act, v),
        LinkVerdict::Alive { .. } => Some(Kind::Alive),
        LinkVerdict::Refused(_) => Some(Kind::Refused),
        LinkVerdict::NotConnected => Some(Kind::NotConnected),
        LinkVerdict::NotServed { .. } => Some(Kind::NotServed),
        LinkVerdict::Full => Some(Kind::Full),
        LinkVerdict::Stray => Some(Kind::Stray),
        LinkVerdict::Timed => Some(Kind::Quiet),
        LinkVerdict::Faulted => Some(Kind::Fault),
        LinkVerdict::Ended => Some(Kind::Fault),
        LinkVerdict::Asks => None,
    }
}
