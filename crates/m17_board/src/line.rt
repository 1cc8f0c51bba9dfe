//! The line of a module.
ghost use Rattle.std.specs.Prelude.{◌≡◌, ◌+◌, ◌≤◌, ◌++◌, length};
ghost use Rattle.m17_print.specs.Line.{room};
ghost use Rattle.m17_board.specs.Lines.{glance_line, talker_text};

use crate::glance::Glance;
use m17_print::Line;

/// What is shown of the module with this letter: its numbers, and who talks.
pub(crate) fn line_of(letter: u8, glance: &Glance) -> Line
    ensures { result ≡ glance_line letter glance.now }
{
    let mut line = Line::new();
    line.push_byte(letter);
    line.push_text(" records ");
    line.push_number(glance.records);
    line.push_text(" admitted ");
    line.push_number(glance.admitted);
    line.push_text(" at ");
    line.push_number(glance.moment);
    line.push_text(" talker ");
    push_talker(&mut line, glance);
    line.push_byte(b'\n');
    line
}

// Who talks, or `none`.
fn push_talker(line: &mut Line, glance: &Glance)
    requires { length line.old + 12 ≤ room }
    ensures appended { line.new ≡ line.old ++ talker_text glance.now }
    ensures longer { length line.new ≤ length line.old + 12 }
{
    if glance.on {
        line.push_address(glance.src);
    } else {
        line.push_text("none");
    }
}
