//! What holds of every made evening. Each is a function without arguments, which does nothing and ensures the law.
ghost use Rattle.m17_text_commands.specs.MakeLaws.{MakesATrace, LengthIsByKinds};

/// What is made is the trace of a link, within the limits of traces.
#[inline]
pub fn what_is_made_is_a_trace()
    ensures { MakesATrace }
{}

/// How many bytes it has: 8 of the header, 28 of a CONN, 27 of a PONG, 71 of a frame and 9 of quiet.
#[inline]
pub fn length_is_by_kinds()
    ensures { LengthIsByKinds }
{}
