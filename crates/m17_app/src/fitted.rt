//! The ports of `serve`, with all that its words have stand before an ear and behind a mouth. What more stands there one day is
//! put here and in `m17_app.specs.Fitted`, and made in `run_serve.rt`.
ghost use Rattle.std.specs.Prelude.{◌≡◌, ◌+◌, ℕ, [], ◌∷◌, IfOk, OnOk};
ghost use Rattle.m17_io.specs.Faults.{HasCause};
ghost use Rattle.m17_ports.specs.declared.question.Question.{Question};
ghost use Rattle.m17_ports.specs.Ear.{IsNewEar};
ghost use Rattle.m17_ports.specs.Mouth.{IsNewMouth};
ghost use Rattle.m17_ports.specs.Book.{IsNewBook};
ghost use Rattle.m17_ports.specs.Ports.{HasAsked};
ghost use Rattle.m17_ports.specs.Told.{StartsEmpty};
ghost use Rattle.m17_app.specs.Fitted.{behind_told, mouth_told, LabelBehind, MouthLabel, Stands, StandsBehind};

use m17_client_commands::KnownPorts;
use m17_decorators::{Filling, Guarded, Guards, LinkPaces, PaceClock, Paced};
use m17_gate::{Gate, LinkRules};
use m17_ports::{Ear, Mouth, Ports};
use m17_values::Failed;
use std::time::Clock;

/// An ear behind all that stands before it: from the socket outward what fills in CRCs, a guard, and then a gate.
pub type Behind<E> = Gate<Guarded<Filling<E>>>;

/// A mouth behind all that stands behind it: a pace, by the clock of the runtime.
pub type BehindMouth<M, R> = Paced<M, PaceClock<R>>;

/// What is to stand before the ears of links and behind their mouths, with all the memory that it needs.
#[derive(Drop)]
pub(crate) struct Fittings {
    /// Whether CRCs are filled in.
    pub(crate) fills: bool,
    /// The guards of the links.
    pub(crate) guards: Guards,
    /// The rules of the gates.
    pub(crate) rules: LinkRules,
    /// The paces behind the mouths.
    pub(crate) paces: LinkPaces,
}

impl Fittings {
    // The ear and the mouth of the next link behind all of it, where its pace goes by this clock. A new ear is a new one still,
    // and so is a new mouth.
    fn fit<E: Ear + Drop, M: Mouth + Drop, R: Clock + Copy + Drop>(
        &mut self,
        ear: E,
        mouth: M,
        clock: PaceClock<R>,
    ) -> (Behind<E>, BehindMouth<M, R>)
        requires unheard { StartsEmpty (E.told ear).heard }
        ensures ear { Stands self.old 0 (behind_told E.told result.0).device.label }
        ensures mouth { StandsBehind self.old 0 (mouth_told M.told result.1).device.label }
        ensures later_ears { (i : ℕ) (label : LabelBehind E.Label)
            → Stands self.new i label → Stands self.old (i + 1) label }
        ensures later_mouths { (i : ℕ) (label : MouthLabel M.Label)
            → StandsBehind self.new i label → StandsBehind self.old (i + 1) label }
        ensures new_ear { (call : ℕ) → IsNewEar call (E.told ear)
            → IsNewEar call (behind_told E.told result.0) }
        ensures new_mouth { (call : ℕ) → IsNewMouth call (M.told mouth)
            → IsNewMouth call (mouth_told M.told result.1) }
    {
        let filling = Filling::with(ear, self.fills);
        let ear = self.rules.before(self.guards.before(filling));
        (ear, self.paces.behind(mouth, clock))
    }
}

/// Ports whose ears and mouths stand behind that.
#[derive(Drop)]
pub(crate) struct Fitted<P, R> {
    pub(crate) ports: P,
    pub(crate) fittings: Fittings,
    /// A clock like that of each pace.
    pub(crate) clock: PaceClock<R>,
}

impl<P: Ports + Drop, R: Clock + Copy + Drop + Send + 'static> Ports for Fitted<P, R> {
    type Ear = Behind<P::Ear>;

    type Mouth = BehindMouth<P::Mouth, R>;

    type Book = P::Book;

    ghost told = { λ fitted. P.told fitted.ports };

    ghost faults_fit = { λ fitted. P.faults_fit fitted.ports };

    fn link(
        &mut self,
        bind: &str,
        until: Option<u64>,
    ) -> Result<(Behind<P::Ear>, BehindMouth<P::Mouth, R>), Failed> {
        self.known_link(bind, until)
    }

    fn book(&mut self, name: &str) -> Result<P::Book, Failed> {
        self.ports.book(name)
    }
}

impl<P: Ports + Drop, R: Clock + Copy + Drop + Send + 'static> KnownPorts for Fitted<P, R> {
    ghost ears = { λ fitted i label. Stands fitted.fittings i label };

    ghost mouths = { λ fitted i label. StandsBehind fitted.fittings i label };

    fn known_link(
        &mut self,
        bind: &str,
        until: Option<u64>,
    ) -> Result<(Behind<P::Ear>, BehindMouth<P::Mouth, R>), Failed> {
        match self.ports.link(bind, until) {
            Ok((ear, mouth)) => Ok(self.fittings.fit(ear, mouth, self.clock)),
            Err(failed) => Err(failed),
        }
    }
}
