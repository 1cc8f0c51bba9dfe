//! What keeping a pace means, for callers to cite by name.
ghost use Rattle.std.specs.Prelude.{◌≡◌, ℕ, List, [], ◌∷◌, OnErr, OnOk, Result};
ghost use Rattle.m17_values.specs.declared.failures.Failed.{Failed};
ghost use Rattle.m17_values.specs.declared.peer.Peer.{Peer};
ghost use Rattle.m17_ports.specs.Told.{StartsEmpty, told_then};
ghost use Rattle.m17_decorators.specs.Pace.{DecidedKeepsPace, NoMoreInAnySecond};
ghost use Rattle.m17_decorators.specs.Paced.{HasCome, HasPaced, IsAtPace, PaceSeen};

use crate::clock::Stopwatch;
use m17_ports::Mouth;

/// Where each frame that passes is one of fewer than so many to its peer in the second before, no
/// more than so many pass to a peer in any second. It has no body: its clause is the law.
pub fn no_more_in_any_second()
    ensures { NoMoreInAnySecond }
{}

/// A mouth that decides each frame by the rule keeps the pace, from nothing on.
pub fn what_is_decided_keeps_pace()
    ensures { DecidedKeepsPace }
{}

/// All that the mouth behind a pace has said keeps the pace: where it is a new one to which nothing
/// has come, and after each `say` where it did before. (So does what a run says by a mouth that it
/// was given new, since it calls nothing else: that is by its form, and no clause.)
pub fn what_is_said_keeps_pace<M: Mouth, C: Stopwatch>()
    ensures new { (paced : PaceSeen M C) → StartsEmpty (M.told paced.inner).said → HasCome paced []
        → IsAtPace M.told paced }
    ensures more { (old new : PaceSeen M C) (to : Peer) (bytes : List ℕ)
        (result : Result (Unit {0}) Failed)
        → HasPaced M.told C.answers old new to bytes result
        → OnOk result ((M.told new.inner).said
        ≡ told_then (M.told old.inner).said ((to, bytes) ∷ []))
        → OnErr result ((M.told new.inner).said ≡ (M.told old.inner).said)
        → IsAtPace M.told old → IsAtPace M.told new }
{}
