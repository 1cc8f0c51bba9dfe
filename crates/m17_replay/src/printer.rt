ghost use Rattle.std.specs.Prelude.{◌≡◌, ◌+◌, ◌-◌, ◌<◌, ◌^◌, List, [], ◌∷◌, ◌++◌, if◌then◌else◌};
ghost use Rattle.m17_io.specs.Sink.{SinkTold};
ghost use Rattle.m17_values.specs.declared.peer.Peer.{Peer};
ghost use Rattle.m17_ports.specs.declared.tally.Tally.{Tally};
ghost use Rattle.m17_replay.specs.Summary.{Outcome};
ghost use Rattle.m17_replay.specs.Run.{text_of_all, AreNamed, HasTaken, Prints, TalliesAre};

use crate::counts::Counts;
use crate::lines::write_line;
use crate::summary::print_summary;
use crate::verdict_line::make_verdict_line;
use m17_directory::LinkVerdict;
use m17_floor::Verdict;
use m17_io::Sink;
use m17_port_memory::TallyMouth;
use m17_print::Line;
use m17_values::{Failed, Peer};

// Is handed what each entry came to, in order, and writes its line at once, or for a summary counts it. Where the sink has
// failed nothing more is written.
#[derive(Drop)]
pub(crate) struct Printer {
    // Whether a summary is asked for.
    pub summary: bool,
    // How many entries there were.
    pub count: u64,
    // How many of each kind, for a summary.
    pub counts: Counts,
    // The line that is made.
    pub line: Line,
    // Whether all was written.
    pub written: Result<(), Failed>,
}

impl Printer {
    // A printer that was handed nothing.
    pub(crate) fn new(summary: bool) -> Printer
        ensures summary { result.summary ≡ summary }
        ensures count { result.count ≡ 0 }
        ensures nothing { (told : SinkTold) → HasTaken result [] told told }
    {
        Printer {
            summary,
            count: 0,
            counts: Counts::new(),
            line: Line::new(),
            written: Ok(()),
        }
    }

    // One entry more, by what it came to and the verdict on its packet.
    pub(crate) fn take<K: Sink>(&mut self, l: &LinkVerdict, v: &Option<Verdict>, out: &mut K)
        requires room { self.old.count < 2 ^ 64 - 1 }
        ensures summary { self.new.summary ≡ self.old.summary }
        ensures count { self.new.count ≡ self.old.count + 1 }
        ensures taken { (first : SinkTold) (before : List Outcome) →
            HasTaken self.old before first (K.told out.old) →
            HasTaken self.new (before ++ (l.now, v.now) ∷ []) first (K.told out.new) }
    {
        let index = self.count;
        self.count = index + 1;
        if self.summary {
            self.counts.count(l, v);
            return;
        }
        match self.written {
            Ok(()) => {
                make_verdict_line(&mut self.line, index, l, v);
                self.written = write_line(&self.line, out);
            }
            Err(_) => {}
        }
    }

    // The last entry, which ends the link: it is printed where the link was lost by it, and not where it is the end.
    pub(crate) fn take_last<K: Sink>(
        &mut self,
        lost: bool,
        l: &LinkVerdict,
        v: &Option<Verdict>,
        out: &mut K,
    )
        requires room { self.old.count < 2 ^ 64 - 1 }
        ensures summary { self.new.summary ≡ self.old.summary }
        ensures taken { (first : SinkTold) (before : List Outcome) →
            HasTaken self.old before first (K.told out.old) →
            HasTaken self.new (if lost then before ++ (l.now, v.now) ∷ [] else before)
            first (K.told out.new) }
    {
        if lost {
            self.take(l, v, out);
        }
    }

    // Writes what is printed behind the last entry, the summary, if one is asked for. Answers whether all was written.
    pub(crate) fn finish<K: Sink>(
        &self,
        named: &[Peer],
        mouth: &TallyMouth,
        out: &mut K,
    ) -> Result<(), Failed>
        requires named { AreNamed named.now mouth.now }
        ensures { (first : SinkTold) (outcomes : List Outcome) (tally : Peer → Tally) →
            HasTaken self.now outcomes first (K.told out.old) → TalliesAre tally mouth.now →
            Prints result (text_of_all self.now.summary outcomes tally named.now) first (K.told out.new) }
    {
        if !self.summary {
            return self.written;
        }
        match self.written {
            Ok(()) => print_summary(&self.counts, self.count, named, mouth, out),
            Err(failed) => Err(failed),
        }
    }
}
