//! What holds of every input of `check`. Each is a function without arguments, which does nothing and ensures the law.
ghost use Rattle.m17_text_commands.specs.CheckLaws.{OneCheckText, LegalIsNotRefused};

/// An input has one text.
#[inline]
pub fn one_check_text()
    ensures { OneCheckText }
{
    m17_book::laws::books_are_exact();
    m17_floor::laws::books_are_judged_act_by_act();
}

/// An input that is a legal book is refused nowhere.
#[inline]
pub fn legal_books_are_not_refused()
    ensures { LegalIsNotRefused }
{
    m17_book::laws::books_are_exact();
}
