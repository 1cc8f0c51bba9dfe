//! What follows from how peers and addresses belong together. Each function has no body: its clause is the law.
ghost use Rattle.m17_net.specs.Laws as law;

/// What goes to the peer that a datagram came from, by the socket that took it, goes to where the datagram came from:
/// its IP address and port; the zone and the flow label of an IPv6 address are left out.
pub fn answers_go_back()
    ensures { law.AnswersGoBack }
{}
