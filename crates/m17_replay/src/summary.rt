ghost use Rattle.std.specs.Prelude.{◌≡◌, true, List, length, Contains};
ghost use Rattle.m17_io.specs.Faults.{HasCause};
ghost use Rattle.m17_values.specs.declared.peer.Peer.{Peer};
ghost use Rattle.m17_ports.specs.declared.tally.Tally.{Tally};
ghost use Rattle.m17_port_memory.specs.Peers.{named_in};
ghost use Rattle.m17_replay.specs.Counted.{CountsAre};
ghost use Rattle.m17_replay.specs.Summary.{counts_text, peer_line, peers_text, Outcome};
ghost use Rattle.m17_replay.specs.Run.{kind_line, kinds_text, text_of_all, AreNamed, TalliesAre, Writes};

use crate::counts::Counts;
use crate::lines::write_line;
use crate::summary_lines::{make_entries_line, make_kind_line, make_peer_line};
use m17_io::Sink;
use m17_port_memory::TallyMouth;
use m17_print::{Kind, Line};
use m17_values::{Failed, Peer};

// Writes the summary of this many entries: how many of each kind there are, and what was said to each of these peers.
pub(crate) fn print_summary<K: Sink>(
    counts: &Counts,
    count: u64,
    named: &[Peer],
    mouth: &TallyMouth,
    out: &mut K,
) -> Result<(), Failed>
    requires named { AreNamed named.now mouth.now }
    ensures cause { HasCause (K.told out.old).faults (K.told out.new).faults result }
    ensures writes { (outcomes : List Outcome) (tally : Peer → Tally) →
        count ≡ length outcomes → CountsAre counts.now outcomes → TalliesAre tally mouth.now →
        Writes result (text_of_all true outcomes tally named.now)
        (K.told out.old).written (K.told out.new).written }
{
    match print_counts(counts, count, out) {
        Ok(()) => print_peers(named, mouth, out),
        Err(failed) => Err(failed),
    }
}

// Writes the line of a kind.
fn print_kind<K: Sink>(
    line: &mut Line,
    kind: Kind,
    counts: &Counts,
    out: &mut K,
) -> Result<(), Failed>
    ensures cause { HasCause (K.told out.old).faults (K.told out.new).faults result }
    ensures writes { (outcomes : List Outcome) → CountsAre counts.now outcomes →
        Writes result (kind_line outcomes kind) (K.told out.old).written (K.told out.new).written }
{
    make_kind_line(line, kind, counts.of(kind));
    write_line(line, out)
}

// Writes the lines of these kinds, in order.
fn print_kinds<K: Sink>(
    line: &mut Line,
    kinds: &[Kind],
    counts: &Counts,
    out: &mut K,
) -> Result<(), Failed>
    ensures cause { HasCause (K.told out.old).faults (K.told out.new).faults result }
    ensures writes { (outcomes : List Outcome) → CountsAre counts.now outcomes →
        Writes result (kinds_text outcomes kinds.now) (K.told out.old).written (K.told out.new).written }
{
    for kind in kinds {
        match print_kind(line, *kind, counts, out) {
            Ok(()) => {}
            Err(failed) => return Err(failed),
        }
    }
    Ok(())
}

// Writes how many entries there are, and how many of each kind.
fn print_counts<K: Sink>(counts: &Counts, count: u64, out: &mut K) -> Result<(), Failed>
    ensures cause { HasCause (K.told out.old).faults (K.told out.new).faults result }
    ensures writes { (outcomes : List Outcome) → CountsAre counts.now outcomes →
        Writes result (counts_text count outcomes)
        (K.told out.old).written (K.told out.new).written }
{
    let mut line = Line::new();
    make_entries_line(&mut line, count);
    match write_line(&line, out) {
        Ok(()) => print_kinds(&mut line, &Kind::all(), counts, out),
        Err(failed) => Err(failed),
    }
}

// Writes the line of a peer.
fn print_peer<K: Sink>(
    line: &mut Line,
    peer: &Peer,
    mouth: &TallyMouth,
    out: &mut K,
) -> Result<(), Failed>
    requires named { Contains (named_in mouth.now.entries) peer.now }
    ensures cause { HasCause (K.told out.old).faults (K.told out.new).faults result }
    ensures writes { (tally : Peer → Tally) → TalliesAre tally mouth.now →
        Writes result (peer_line peer.now (tally peer.now))
        (K.told out.old).written (K.told out.new).written }
{
    let tally = mouth.tally(peer).unwrap();
    make_peer_line(line, peer, &tally);
    write_line(line, out)
}

// Writes the lines of the peers that are named, in order.
fn print_peers<K: Sink>(named: &[Peer], mouth: &TallyMouth, out: &mut K) -> Result<(), Failed>
    requires named { AreNamed named.now mouth.now }
    ensures cause { HasCause (K.told out.old).faults (K.told out.new).faults result }
    ensures writes { (tally : Peer → Tally) → TalliesAre tally mouth.now →
        Writes result (peers_text tally named.now) (K.told out.old).written (K.told out.new).written }
{
    let mut line = Line::new();
    for peer in named {
        match print_peer(&mut line, peer, mouth, out) {
            Ok(()) => {}
            Err(failed) => return Err(failed),
        }
    }
    Ok(())
}
