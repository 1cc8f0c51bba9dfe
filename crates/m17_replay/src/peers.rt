ghost use Rattle.std.specs.Prelude.{◌≡◌, List, [], ◌++◌, length, IfOk, OnOk, if◌then◌else◌};
ghost use Rattle.m17_values.specs.declared.heard.Heard.{Heard};
ghost use Rattle.m17_book.specs.Answers.{HasEnd};
ghost use Rattle.m17_directory.specs.Entries.{Entry, peers_named, SaysEach};
ghost use Rattle.m17_directory.specs.Laws.{EndsOnce};
ghost use Rattle.m17_house.specs.Replay.{HasNoTallies};
ghost use Rattle.m17_replay.specs.Run.{with_heard, AreNamed};

use crate::hearing::count_to_end;
use m17_port_memory::TallyMouth;
use m17_values::{Heard, NoMemory, Peer};
use std::alloc::Global;
use std::collections::BTreeSet;

// A mouth that keeps a tally of each of these peers.
pub(crate) fn make_mouth(alloc: Global, named: &[Peer]) -> Result<TallyMouth, NoMemory>
    ensures empty { IfOk result (λ mouth. HasNoTallies mouth) }
    ensures named { IfOk result (λ mouth. AreNamed named.now mouth) }
{
    TallyMouth::make(alloc, named)
}

// Names the sender of a datagram, unless it is named.
fn name_sender(named: &mut BTreeSet<Peer>, one: &Heard) -> Result<(), NoMemory>
    ensures { OnOk result (named.new.keys ≡ with_heard one.now named.old.keys) }
{
    match one {
        Heard::Datagram { from, .. } => {
            named.insert(*from)?;
            Ok(())
        }
        _ => Ok(()),
    }
}

// The peers that datagrams came from, each once, in their order.
fn name_peers(alloc: Global, heard: &[Heard]) -> Result<BTreeSet<Peer>, NoMemory>
    ensures { IfOk result (λ named. (entries : List Entry) → SaysEach heard.now entries →
        named.keys ≡ peers_named entries (length entries)) }
{
    let mut named = BTreeSet::new(alloc);
    for one in heard {
        name_sender(&mut named, one)?;
    }
    Ok(named)
}

// The peers of a set, in their order.
fn list_peers(alloc: Global, named: &BTreeSet<Peer>) -> Result<Vec<Peer>, NoMemory>
    ensures { IfOk result (λ peers. peers.items ≡ named.now.keys) }
{
    let peers = named.iter().copied().collect(alloc)?;
    Ok(peers)
}

// The peers that datagrams came from until the link ended, each once, in their order, where a summary is asked for, and else
// nobody.
pub(crate) fn name_heard(
    alloc: Global,
    summary: bool,
    heard: &[Heard],
) -> Result<Vec<Peer>, NoMemory>
    requires { HasEnd heard.now }
    ensures { IfOk result (λ named. (entries : List Entry) (front rest : List Heard) →
        heard.now ≡ front ++ rest → SaysEach front entries → EndsOnce entries →
        named.items ≡ (if summary then peers_named entries (length entries) else [])) }
{
    if !summary {
        return Ok(Vec::new(alloc));
    }
    let front = &heard[..count_to_end(heard)];
    let named = name_peers(alloc, front)?;
    let peers = list_peers(alloc, &named)?;
    Ok(peers)
}
