//! What follows for a run of `serve`. The function does nothing: its clause is the law.
ghost use Rattle.m17_app.specs.Laws.{LinksHearWhatPasses};

use m17_decorators::{FillLabel, GuardLabel, PaceLabel};
use m17_gate::GateLabel;

/// Each link heard what its socket's ear did, as far as that comes back and tells it: filled in, behind its guard and gated, as
/// the words say. `X` is what stands for the ear.
pub fn links_hear_what_passes<E, M, B, X>()
    ensures { LinksHearWhatPasses E M B X }
{
    m17_serve::laws::links_hear_what_their_ears_tell::<
        GateLabel<GuardLabel<FillLabel<E>>>,
        PaceLabel<M>,
        B,
    >();
}
