use crate::ShowReason;
use m17_print::TextEnding;

/// Why a line was not shown.
#[derive(Clone, Copy, Debug, PartialEq, Eq)]
pub(crate) enum NotShown {
    /// The line is refused.
    Refused(ShowReason),
    /// The sink failed.
    WriteFailed,
}

impl NotShown {
    ghost use Rattle.std.specs.Prelude.{◌≡◌};
    ghost use Rattle.m17_text_commands.specs.ShowRun.{ending_at};

    /// The ending of a run in which the line of this number was not shown.
    #[inline]
    pub(crate) fn ending_at(self, number: u64) -> TextEnding<ShowReason>
        ensures { result ≡ ending_at number self }
    {
        match self {
            NotShown::Refused(reason) => TextEnding::Refused {
                place: number,
                reason,
            },
            NotShown::WriteFailed => TextEnding::WriteFailed,
        }
    }
}
