ghost use Rattle.std.specs.Prelude.{◌≡◌, ◌++◌, ◌≤◌, [], ◌∷◌, length, decimal, codes};
ghost use Rattle.m17_print.specs.declared.kind.Kind.TheVariants.{NotServed};
ghost use Rattle.m17_print.specs.Kinds.{kind_word};
ghost use Rattle.m17_print.specs.Line.{IsBegun, CanEnd};
ghost use Rattle.m17_replay.specs.Lines.{verdict_line, of_module, link_text, packet_text, routed_text, OfText};

use m17_control::ModuleLetter;
use m17_directory::{Act, LinkVerdict};
use m17_floor::Verdict;
use m17_print::{Kind, Line, verdict_word};

/// Makes the line of an entry: its index, what it came to (`l`), and where its packet was routed to a module the floor
/// rule's verdict on that (`v`). The line of an entry that ends the link is that of a fault; that of one that still
/// asks for a place, and that of a packet without a verdict, is empty.
pub fn make_verdict_line(line: &mut Line, index: u64, l: &LinkVerdict, v: &Option<Verdict>)
    ensures { line.new ≡ verdict_line index l.now v.now }
{
    begin(line, index);
    if push_outcome(line, l, v) {
        line.push_byte(b'\n');
    } else {
        line.clear();
    }
}

// Begins a line with the index and a space.
fn begin(line: &mut Line, index: u64)
    ensures begun { line.new ≡ decimal index ++ codes " " }
    ensures short { length line.new ≤ 21 }
{
    line.clear();
    line.push_number(index);
    line.push_text(" ");
}

// Appends what an entry came to; answers false where there is nothing to say.
fn push_outcome(line: &mut Line, l: &LinkVerdict, v: &Option<Verdict>) -> bool
    requires { length line.old ≤ 21 }
    ensures { OfText result (link_text l.now v.now) line.old line.new }
{
    match l {
        LinkVerdict::Routed { module, act } => return push_routed(line, *module, *act, v),
        LinkVerdict::Alive { module } => push_about(line, *module, Kind::Alive.word()),
        LinkVerdict::Refused(refusal) => line.push_refusal(refusal),
        LinkVerdict::NotServed { module } => push_unserved(line, *module),
        LinkVerdict::Asks => return false,
        LinkVerdict::NotConnected => line.push_text(Kind::NotConnected.word()),
        LinkVerdict::Full => line.push_text(Kind::Full.word()),
        LinkVerdict::Stray => line.push_text(Kind::Stray.word()),
        LinkVerdict::Timed => line.push_text(Kind::Quiet.word()),
        LinkVerdict::Faulted => line.push_text(Kind::Fault.word()),
        LinkVerdict::Ended => line.push_text(Kind::Fault.word()),
    }
    true
}

// Appends what was routed to a module; answers false for a packet without a verdict.
fn push_routed(line: &mut Line, letter: ModuleLetter, act: Act, v: &Option<Verdict>) -> bool
    requires { length line.old ≤ 21 }
    ensures { OfText result (routed_text letter act v.now)
        line.old line.new }
{
    match act {
        Act::Join => push_about(line, letter, Kind::Join.word()),
        Act::Again => push_about(line, letter, Kind::Again.word()),
        Act::Leave => push_about(line, letter, Kind::Leave.word()),
        Act::Pong => push_about(line, letter, Kind::Pong.word()),
        Act::Packet => match v {
            None => return false,
            Some(verdict) => {
                push_about(line, letter, "");
                push_verdict(line, verdict);
            }
        },
    }
    true
}

// Appends the verdict on a packet, without who holds the floor.
fn push_verdict(line: &mut Line, verdict: &Verdict)
    requires { IsBegun line.old }
    ensures appended { line.new ≡ line.old ++ packet_text verdict.now }
    ensures ends { CanEnd line.new }
{
    match verdict {
        Verdict::Busy { .. } => line.push_text(verdict_word(*verdict)),
        _ => line.push_verdict(*verdict),
    }
}

// Appends the letter of a module, a space, and a word about it, if there is one.
fn push_about(line: &mut Line, letter: ModuleLetter, word: &str)
    requires begun { length line.old ≤ 21 }
    requires short { length word.now ≤ 13 }
    ensures appended { line.new ≡ line.old ++ of_module letter word.now }
    ensures begins { word.now ≡ [] → length line.new ≤ 23 }
    ensures fits { length line.new ≤ 36 }
{
    line.push_byte(letter.byte());
    line.push_text(" ");
    line.push_text(word);
}

// Appends that a module isn't served.
fn push_unserved(line: &mut Line, letter: ModuleLetter)
    requires { length line.old ≤ 21 }
    ensures appended { line.new ≡ line.old ++ (kind_word NotServed ++ codes " " ++ letter ∷ []) }
    ensures ends { CanEnd line.new }
{
    line.push_text(Kind::NotServed.word());
    line.push_text(" ");
    line.push_byte(letter.byte());
}
