//! What one run of a roll promises. Each function has no body: its clause is the law.
ghost use Rattle.m17_roll.specs.Laws.{GivenBackIsFree, NoMemberIsClaimedTwice};

/// In a run of a roll no member stands twice among the claimed members, whichever seats claimed it.
pub fn no_member_is_claimed_twice()
    ensures { NoMemberIsClaimedTwice }
{}

/// Where every claimed member was given back, every place is free in the end: its word is even, twice the number of its
/// claims.
pub fn given_back_is_free()
    ensures { GivenBackIsFree }
{}
