ghost use Rattle.std.specs.Prelude.{◌↔◌, IsTrue};
ghost use Rattle.m17_stream.specs.Stream.{IsAhead};

use crate::FRAME_NUMBERS;

/// How many steps a number may be ahead of another: from half the circle on it is late.
const MOST_AHEAD: u16 = FRAME_NUMBERS / 2 - 1;

/// Whether the frame number `new` comes after `old`, counted round 32,768: 1 to 16,383 steps. The same number is not
/// ahead of itself.
#[inline]
pub fn ahead(new: u16, old: u16) -> bool
    ensures { IsTrue result ↔ IsAhead new old }
{
    let steps = new.wrapping_sub(old) % FRAME_NUMBERS;
    1 <= steps && steps <= MOST_AHEAD
}
