//! What follows from the meaning of the devices, for callers to cite by name. Each function has no body: its clause is
//! the law.
ghost use Rattle.m17_ports.specs.Laws as law;

/// An ear counts its Ends to 2^64 - 1, and tells what it hears up to there: so all that a new ear hears up to its first
/// End, and an ear that tells goes on to tell while no End is heard.
pub fn ears_tell_up_to_the_end()
    ensures new { law.NewEarsTell }
    ensures on { law.EarsTellOn }
{}

/// What is told after one part and then another is what is told after both, and nothing more changes nothing.
pub fn told_in_turn<T>()
    ensures parts { law.ToldInTurn T }
    ensures nothing { law.NothingMoreIsTold T }
{}

/// What a mouth has said of a list of datagrams, and then of another, is what it has said of both; nothing to say changes
/// nothing, and one datagram went or was lost. `L` is the kind of the mouth's label.
pub fn mouths_say_in_turn<L>()
    ensures { law.MouthsSayInTurn L }
{}

/// What an ear has heard of a list of entries without an End, and then of another, is what it has heard of both; nothing
/// changes nothing, and one call of `hear` is one entry. `L` is the kind of the ear's label.
pub fn ears_hear_in_turn<L>()
    ensures { law.EarsHearInTurn L }
{}

/// What a book was written of a text, and then of another, is what it was written of both; nothing changes nothing, one
/// write is one text, and after a failure nothing more has to be written. `L` is the kind of the book's label.
pub fn books_are_written_in_turn<L>()
    ensures { law.BooksAreWrittenInTurn L }
{}

/// What ports were asked, and then were asked, is what they were asked in all.
pub fn ports_are_asked_in_turn()
    ensures { law.PortsAreAskedInTurn }
{}
