//! What holds of every input of `migrate`. Each is a function without arguments, which does nothing and ensures the law.
ghost use Rattle.m17_text_commands.specs.MigrateLaws.{OneMigratedText};

/// An input has one text.
#[inline]
pub fn one_migrated_text()
    ensures { OneMigratedText }
{
    m17_book::laws::books_are_exact();
}
