//! What the definitions promise of all bytes. Each function does nothing: its clause is the law.
ghost use Rattle.m17_replay.specs.Laws as law;

use m17_book::laws as book_laws;
use m17_house::laws as house_laws;

/// An input has one text at most, with a summary or without, and its link was lost or was not.
pub fn one_replay_text()
    ensures { law.OneReplayText }
{
    book_laws::traces_are_exact();
    house_laws::one_replay();
}

/// The link of a trace was lost exactly where 16 faults in a row stand in it.
pub fn lost_by_sixteen_faults()
    ensures { law.LostBySixteenFaults }
{
    book_laws::traces_are_exact();
    house_laws::sixteen_faults_end_it();
}

/// What `replay` prints, lines or summary, is free of places: whichever free place each asking entry is given while the
/// others are fewer than the places, with whatever generation, no member twice, and however many departed members a
/// greeting waits for.
pub fn replay_text_is_free_of_places()
    ensures { law.TextIsFreeOfPlaces }
{
    book_laws::traces_are_exact();
    house_laws::answers_are_free_of_places();
}
