//! What holds of all words. It is a function without arguments, which does nothing and ensures the law.
ghost use Rattle.m17_words.specs.Laws.{OneCommand};

/// Words name one command, with one value for each of its options and arguments.
#[inline]
pub fn words_name_one_command()
    ensures { OneCommand }
{
    m17_control::laws::sets_are_their_letters();
    m17_callsign::laws::each_address_has_one_callsign();
    m17_peer::laws::each_text_is_of_one_peer();
}
