ghost use Rattle.std.specs.Prelude.{◌≡◌, ◌+◌, ◌≤◌, ◌++◌, length};
ghost use Rattle.m17_print.specs.Line.{room};
ghost use Rattle.m17_client_commands.specs.Talked.{ending_word, state_words, talk_line};

use m17_client::{Ending, State, TalkEnd};
use m17_print::Line;

// Why a client is closed, as the line says it.
fn word(why: Ending) -> &'static str
    ensures word { result.now ≡ ending_word why }
    ensures short { length result.now ≤ 9 }
{
    match why {
        Ending::Asked => "asked",
        Ending::Refused => "refused",
        Ending::Lost => "lost",
        Ending::Dropped => "dropped",
        Ending::NoAnswer => "no-answer",
    }
}

// Appends what is said of the client's state at the end.
fn push_state(line: &mut Line, state: State)
    requires { length line.old + 16 ≤ room }
    ensures appended { line.new ≡ line.old ++ state_words state }
    ensures longer { length line.new ≤ length line.old + 16 }
{
    match state {
        State::Closed(why) => {
            line.push_text("closed ");
            line.push_text(word(why));
        }
        State::Idle | State::Connecting { .. } | State::Connected { .. } | State::Leaving =>
            line.push_text("ended"),
    }
}

// The line of a talk.
pub(crate) fn make_talk_line(line: &mut Line, end: &TalkEnd)
    ensures { line.new ≡ talk_line end.now }
{
    line.clear();
    push_state(line, end.state);
    line.push_text(" kept ");
    line.push_number(end.kept);
    line.push_byte(b'\n');
}
