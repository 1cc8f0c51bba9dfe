//! What holds of all bytes. It is a function without arguments, which does nothing and ensures the law.
ghost use Rattle.m17_client_commands.specs.Laws.{ScriptsAreExact};

/// Each byte list is read as one script, or refused at one place for one reason, and never both.
#[inline]
pub fn scripts_are_exact()
    ensures { ScriptsAreExact }
{
    m17_stream::laws::one_spelling();
    m17_stream::laws::reading_is_exact();
}
