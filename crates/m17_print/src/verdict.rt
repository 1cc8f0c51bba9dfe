ghost use Rattle.std.specs.Prelude.{◌≡◌, ◌++◌, ◌≤◌, length};
ghost use Rattle.m17_print.specs.Line.{IsBegun, CanEnd};
ghost use Rattle.m17_print.specs.Verdicts.{verdict_word, verdict_text};

use crate::{Kind, Line};
use m17_floor::Verdict;

/// The word of a verdict, as in `after-end`.
pub fn verdict_word(verdict: Verdict) -> &'static str
    ensures value { result.now ≡ verdict_word verdict }
    ensures short { length result.now ≤ 13 }
{
    Kind::of_verdict(verdict).word()
}

impl Line {
    /// Appends a verdict: its word, and after `busy` the place of the member that holds the floor, after `late` the
    /// number of the sender's last admitted frame.
    #[inline]
    pub fn push_verdict(&mut self, verdict: Verdict)
        requires { IsBegun self.old }
        ensures appended { self.new ≡ self.old ++ verdict_text verdict }
        ensures ends { CanEnd self.new }
    {
        self.push_text(verdict_word(verdict));
        match verdict {
            Verdict::Busy { holder } => {
                self.push_text(" ");
                self.push_number(u64::from(holder.place));
            }
            Verdict::Late { last } => {
                self.push_text(" ");
                self.push_number(u64::from(last));
            }
            _ => {}
        }
    }
}
