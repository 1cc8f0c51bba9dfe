ghost use Rattle.std.specs.Prelude.{◌≡◌, ◌-◌, ◌^◌, ◌≤◌, [], ◌∷◌, IfOk};
ghost use Rattle.m17_io.specs.Faults.{HasCause};
ghost use Rattle.m17_ports.specs.declared.question.Question.{Question};
ghost use Rattle.m17_ports.specs.Ear.{IsNewEar};
ghost use Rattle.m17_ports.specs.Mouth.{IsNewMouth};
ghost use Rattle.m17_ports.specs.Book.{IsNewBook};
ghost use Rattle.m17_ports.specs.Ports.{HasAsked, PortsTold};

use crate::{Book, Ear, Mouth, Question};
use m17_values::Failed;

/// Where links and books come from.
pub trait Ports {
    /// The receiving half of a link.
    type Ear: Ear + Drop + Send + 'static;

    /// The sending half of a link.
    type Mouth: Mouth + Drop + Send + 'static;

    /// A log.
    type Book: Book + Drop + Send + 'static;

    /// What they tell: what was asked so far, how many calls there were, and how often they have failed.
    ghost told: { Self → PortsTold };

    /// A link that is bound there, whose ear ends at the moment `until` in milliseconds, or never. Both halves are new:
    /// nothing was heard or said, and nothing failed. `Failed` where the ports failed.
    fn link(&mut self, bind: &str, until: Option<u64>) -> Result<(Self::Ear, Self::Mouth), Failed>
        ensures cause { HasCause (told self.old).faults (told self.new).faults result }
        ensures asked { HasAsked (Question.Link bind.now until ∷ []) (told self.old) (told self.new) }
        ensures ear { IfOk result (λ link. IsNewEar (told self.old).calls (Self.Ear.told link.0)) }
        ensures mouth { IfOk result (λ link.
            IsNewMouth (told self.old).calls (Self.Mouth.told link.1)) };

    /// A book of this name. It is new: nothing is written in it, and nothing failed. `Failed` where the ports failed.
    fn book(&mut self, name: &str) -> Result<Self::Book, Failed>
        ensures cause { HasCause (told self.old).faults (told self.new).faults result }
        ensures asked { HasAsked (Question.Book name.now ∷ []) (told self.old) (told self.new) }
        ensures book { IfOk result (λ book.
            IsNewBook (told self.old).calls (Self.Book.told book)) };

    /// A count of faults is a number of 64 bits: one that stands at the greatest stays there.
    ghost faults_fit: { (ports : Self) → (told ports).faults ≤ 2 ^ 64 - 1 };
}
