//! The ports of `bridge`, which have a guard stand before each ear. What more stands there one day is put here.
ghost use Rattle.std.specs.Prelude.{◌≡◌, ◌+◌, ℕ, [], ◌∷◌, IfOk, OnOk, nat_lt};
ghost use Rattle.m17_io.specs.Faults.{HasCause};
ghost use Rattle.m17_ports.specs.declared.question.Question.{Question};
ghost use Rattle.m17_ports.specs.Ear.{IsNewEar};
ghost use Rattle.m17_ports.specs.Mouth.{IsNewMouth};
ghost use Rattle.m17_ports.specs.Book.{IsNewBook};
ghost use Rattle.m17_ports.specs.Ports.{HasAsked};
ghost use Rattle.m17_decorators.specs.Guarded.{guard_told};

use m17_client_commands::KnownPorts;
use m17_decorators::{Guarded, Guards};
use m17_ports::Ports;
use m17_values::Failed;

/// Ports whose ears stand behind guards, which are on while one is left.
#[derive(Drop)]
pub(crate) struct GuardedPorts<P> {
    pub(crate) ports: P,
    pub(crate) guards: Guards,
}

impl<P: Ports + Drop> Ports for GuardedPorts<P> {
    type Ear = Guarded<P::Ear>;

    type Mouth = P::Mouth;

    type Book = P::Book;

    ghost told = { λ guarded. P.told guarded.ports };

    ghost faults_fit = { λ guarded. P.faults_fit guarded.ports };

    fn link(
        &mut self,
        bind: &str,
        until: Option<u64>,
    ) -> Result<(Guarded<P::Ear>, P::Mouth), Failed> {
        self.known_link(bind, until)
    }

    fn book(&mut self, name: &str) -> Result<P::Book, Failed> {
        self.ports.book(name)
    }
}

impl<P: Ports + Drop> KnownPorts for GuardedPorts<P> {
    ghost use Rattle.std.specs.Prelude.{◌≡◌, nat_lt};

    ghost ears = { λ guarded i label. label.is_on ≡ nat_lt i guarded.guards };

    ghost mouths = { λ guarded i label. Unit {0} };

    fn known_link(
        &mut self,
        bind: &str,
        until: Option<u64>,
    ) -> Result<(Guarded<P::Ear>, P::Mouth), Failed> {
        match self.ports.link(bind, until) {
            Ok((ear, mouth)) => Ok((self.guards.before(ear), mouth)),
            Err(failed) => Err(failed),
        }
    }
}
