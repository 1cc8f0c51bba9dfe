//! What all tests have.
ghost use Rattle.std.specs.Prelude.{◌≡◌, Ok};

use std::process::Abort;

/// What was made; the test ends where it was not.
pub(crate) fn must<T, E: Drop, R: Abort>(rt: &R, made: Result<T, E>) -> T
    ensures { made ≡ Ok result }
{
    made.ok().expect(rt, "made")
}
