//! Ports of whose links more is known than ports promise.
ghost use Rattle.std.specs.Prelude.{◌≡◌, ◌+◌, ℕ, [], ◌∷◌, IfOk, OnOk};
ghost use Rattle.m17_io.specs.Faults.{HasCause};
ghost use Rattle.m17_ports.specs.declared.question.Question.{Question};
ghost use Rattle.m17_ports.specs.Ear.{IsNewEar};
ghost use Rattle.m17_ports.specs.Mouth.{IsNewMouth};
ghost use Rattle.m17_ports.specs.Ports.{HasAsked};

use m17_ports::{Ear, Mouth, Ports, Question};
use m17_values::Failed;

/// Ports of whose links it is known what their labels say, as by which rules an ear is gated, or that its guard is on: the
/// one thing that a caller of `bridge` or `serve` can't see of ears and mouths that come back, and that ports alone don't
/// promise.
pub trait KnownPorts: Ports {
    /// What is known of the label of an ear, by how many links these ports hand out before it.
    ghost ears: { Self → ℕ → Self.Ear.Label → Type 0 };

    /// The same of a mouth.
    ghost mouths: { Self → ℕ → Self.Mouth.Label → Type 0 };

    /// A link as `link` hands it out, of which that is known.
    fn known_link(
        &mut self,
        bind: &str,
        until: Option<u64>,
    ) -> Result<(Self::Ear, Self::Mouth), Failed>
        ensures cause { HasCause (Self.told self.old).faults (Self.told self.new).faults result }
        ensures asked { HasAsked (Question.Link bind.now until ∷ [])
            (Self.told self.old) (Self.told self.new) }
        ensures ear { IfOk result (λ link.
            IsNewEar (Self.told self.old).calls (Self.Ear.told link.0)) }
        ensures mouth { IfOk result (λ link.
            IsNewMouth (Self.told self.old).calls (Self.Mouth.told link.1)) }
        ensures known_ear { IfOk result (λ link.
            ears self.old 0 (Self.Ear.told link.0).device.label) }
        ensures known_mouth { IfOk result (λ link.
            mouths self.old 0 (Self.Mouth.told link.1).device.label) }
        // What is known of the links that they hand out next was known before, each one place later.
        ensures more_ears { OnOk result ((i : ℕ) (label : Self.Ear.Label)
            → ears self.new i label → ears self.old (i + 1) label) }
        ensures more_mouths { OnOk result ((i : ℕ) (label : Self.Mouth.Label)
            → mouths self.new i label → mouths self.old (i + 1) label) };
}
