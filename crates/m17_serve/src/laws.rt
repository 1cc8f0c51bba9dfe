//! What follows for a run of `serve`. Each function does nothing: its clause is the law.
ghost use Rattle.m17_serve.specs.Laws.{LinksHear};

/// Each link heard what its ear did, as far as that comes back and tells it.
pub fn links_hear_what_their_ears_tell<E, M, B>()
    ensures { LinksHear E M B }
{
    m17_reflect::laws::headline_tells::<E, M, m17_board_run::KeptLabel<B>>();
}
