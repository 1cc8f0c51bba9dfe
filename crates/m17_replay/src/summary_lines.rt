ghost use Rattle.std.specs.Prelude.{◌≡◌, ◌+◌, ◌≤◌, ◌++◌, length, codes};
ghost use Rattle.m17_print.specs.Line.{room, CanEnd};
ghost use Rattle.m17_peer.specs.Text.{text_of};
ghost use Rattle.m17_print.specs.Kinds.{kind_word};
ghost use Rattle.m17_replay.specs.Summary.{count_line, peer_line, numbered, tally_text};

use m17_peer::text;
use m17_ports::Tally;
use m17_print::{Kind, Line};
use m17_values::Peer;

/// Makes the line that says how many entries a link heard before its end.
pub fn make_entries_line(line: &mut Line, count: u64)
    ensures { line.new ≡ count_line (codes "entries") count }
{
    line.clear();
    push_count(line, "entries", count);
    line.push_byte(b'\n');
}

/// Makes the line that says how many entries were of a kind.
pub fn make_kind_line(line: &mut Line, kind: Kind, count: u64)
    ensures { line.new ≡ count_line (kind_word kind) count }
{
    line.clear();
    push_count(line, kind.word(), count);
    line.push_byte(b'\n');
}

/// Makes the line of a peer: how many datagrams of each kind were said to it.
pub fn make_peer_line(line: &mut Line, peer: &Peer, tally: &Tally)
    ensures { line.new ≡ peer_line peer.now tally.now }
{
    begin_peer(line, peer);
    push_tally(line, tally);
    line.push_byte(b'\n');
}

// Begins the line of a peer.
fn begin_peer(line: &mut Line, peer: &Peer)
    ensures begun { line.new ≡ codes "peer " ++ text_of peer.now }
    ensures short { length line.new ≤ 53 }
{
    line.clear();
    line.push_text("peer ");
    line.push_text(text(peer).as_str());
}

// Appends the numbers of a tally, each behind its word.
fn push_tally(line: &mut Line, tally: &Tally)
    requires { length line.old ≤ 53 }
    ensures appended { line.new ≡ line.old ++ tally_text tally.now }
    ensures ends { CanEnd line.new }
{
    push_count(line, " ackn", tally.ackn);
    push_count(line, " nack", tally.nack);
    push_count(line, " ping", tally.ping);
    push_count(line, " pong", tally.pong);
    push_count(line, " disc", tally.disc);
    push_count(line, " frame", tally.frame);
}

// Appends a word, a space and its number.
fn push_count(line: &mut Line, word: &str, count: u64)
    requires room { length line.old + length word.now + 21 ≤ room }
    ensures appended { line.new ≡ line.old ++ numbered word.now count }
    ensures longer { length line.new ≤ length line.old + length word.now + 21 }
{
    line.push_text(word);
    line.push_text(" ");
    line.push_number(count);
}
