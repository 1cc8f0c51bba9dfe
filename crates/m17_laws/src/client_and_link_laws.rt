//! What follows for a client and a link of a run of the reflector. Each function does nothing: its clause is the
//! law.
ghost use Rattle.m17_laws.specs.ClientAndLinkLaws as law;

/// What both ends come to together, in every run of the reflector and of a client that meet the promises of their
/// ends, whatever is lost, repeated or reordered between them; and so do a run of the reflector and a run of
/// `talk`. `E`, `M` and `B` are the kinds of the labels of the reflector's ears, mouths and books, and `L` that of the
/// label of the mouth of `talk`.
pub fn both_ends_agree<E, M, B, L>()
    ensures ends { law.BothEndsAgree E M B }
    ensures talks { law.TalksAgree E M B L }
{
    m17_client::laws::client_keeps_what_was_said();
    m17_client::laws::talk_is_a_clients_end::<L>();
    m17_control::laws::decoding_is_exact();
    m17_stream::laws::one_spelling();
    m17_directory::laws::peers_are_told_apart();
    m17_directory::laws::door_carries_replies();
    m17_directory::laws::joins_are_the_claims();
    m17_module::laws::later_events_change_no_items();
    m17_module::laws::items_follow_their_joins();
}

/// The same of a run of a bridge: each packet that passes from a side is an admitted packet of some module's trail at the
/// reflector of that side, or a parrot's echo there.
pub fn bridges_agree<E, M, B, L>()
    ensures { law.BridgesAgree E M B L }
{
    both_ends_agree::<E, M, B, L>();
    m17_client::bridge_laws::passing_is_kept();
    m17_client::bridge_laws::sides_are_clients_ends::<L>();
}
