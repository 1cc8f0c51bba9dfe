//! What holds of every input of `show`. Each is a function without arguments, which does nothing and ensures the law.
ghost use Rattle.m17_text_commands.specs.ShowLaws.{OneShowText};

/// An input has one text.
#[inline]
pub fn one_show_text()
    ensures { OneShowText }
{
    m17_control::laws::decoding_is_exact();
}
