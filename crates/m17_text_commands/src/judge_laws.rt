//! What holds of every input of `judge`. Each is a function without arguments, which does nothing and ensures the law.
ghost use Rattle.m17_text_commands.specs.JudgeLaws.{OneJudgeText};

/// An input has one text.
#[inline]
pub fn one_judge_text()
    ensures { OneJudgeText }
{
    m17_stream::laws::reading_is_exact();
}
