//! What holds of all texts. It is a function without arguments, which does nothing and ensures the law.
ghost use Rattle.m17_peer.specs.Laws.{EachTextIsOfOnePeer};

/// No text is that of two peers.
#[inline]
pub fn each_text_is_of_one_peer()
    ensures { EachTextIsOfOnePeer }
{}
